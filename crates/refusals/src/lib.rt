// The names of the refusals and their numbers; what a check answers (SCOPE.md, 'Numbers of refusal').
#![tactic(auto)]

ghost use Rattle.std.specs.Prelude.{◌≡◌};
ghost use Rattle.refusals.specs.Refusals.{number_of, checked_number};

// Why a call is refused, with SCOPE.md's numbers.
#[derive(Clone, Copy, Debug, PartialEq, Eq)]
pub enum Refusal {
    Table = 1,
    Signature = 2,
    Relation = 3,
    Slot = 4,
    Size = 5,
    Odd = 6,
    Symbol = 7,
    Shape = 8,
    Key = 9,
    Argument = 10,
    Full = 11,
    Keys = 12,
    Nothing = 13,
    Long = 14,
    Room = 15,
    Log = 16,
}

impl Refusal {
    // SCOPE.md's number.
    pub fn number(self) -> u8
        ensures { result ≡ number_of self }
    {
        self as u8
    }
}

// What a check answers.
pub type Checked = Result<(), Refusal>;

// 0, or the number of the refusal.
pub fn checked_number(checked: Checked) -> u8
    ensures { result ≡ checked_number checked }
{
    match checked {
        Ok(()) => 0,
        Err(why) => why.number(),
    }
}
