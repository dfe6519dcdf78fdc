// The number of each answer, 0 or the refusal's; what was answered goes through `&mut`, only where the number is 0.
#![tactic(auto)]

ghost use Rattle.std.specs.Prelude.{◌≡◌};
ghost use Rattle.export_answers.specs.Pair.{paired_number, paired_answer};
ghost use Rattle.export_answers.specs.Replies.{reply_number, first_told, second_of};

use calls::Reply;
use refusals::Refusal;

// A refusal's number as C has it: a number, since the C interface is one.
pub fn code(number: u8) -> u32
    ensures { result ≡ number }
{
    number as u32
}

pub fn paired(answer: Result<bool, Refusal>, told: &mut usize) -> u32
    ensures { (result ≡ paired_number answer) × (told.new ≡ paired_answer answer told.old) }
{
    match answer {
        Ok(unifiable) => {
            *told = unifiable as usize;
            0
        }
        Err(why) => code(why.number()),
    }
}

// Of a call that tells no number.
pub fn number_of(reply: Reply) -> u32
    ensures { result ≡ reply_number reply }
{
    match reply {
        Ok(_) => 0,
        Err(why) => code(why.number()),
    }
}

// Of a call that tells its first number.
pub fn tell_first(reply: Reply, told: &mut usize) -> u32
    ensures { (result ≡ reply_number reply) × (told.new ≡ first_told reply told.old) }
{
    if let Ok(numbers) = reply {
        *told = numbers.first;
    }
    number_of(reply)
}

// Of a call that tells both numbers. Beside the one above, since an exported call has one place or two.
pub fn tell_both(reply: Reply, one: &mut usize, two: &mut usize) -> u32
    ensures { (result ≡ reply_number reply)
        × (one.new ≡ first_told reply one.old)
        × (two.new ≡ second_of reply two.old) }
{
    if let Ok(numbers) = reply {
        *one = numbers.first;
        *two = numbers.second;
    }
    number_of(reply)
}
