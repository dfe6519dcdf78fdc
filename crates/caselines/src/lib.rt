// The line of what a case got: its first three words, then the answer as the log program writes it.
#![tactic(auto)]

ghost use Rattle.std.specs.Prelude.{◌≡◌, ◌≤◌};
ghost use Rattle.laws.specs.Sizes.{answer_room};
ghost use Rattle.refusals.specs.Refusals.{number_of};
ghost use Rattle.lines.specs.Lines.{Put};
ghost use Rattle.caselines.specs.Said.{order_of, checksum_of, short_line, listed_line, argument_line, written_by};
ghost use Rattle.caselines.specs.Said.{answer_line, done_line, refusal_line, said};

use calls::{Numbers, Order, Reply};
use casetext::Case;
use laws::ANSWER;
use refusals::Refusal;

// The call that a case's word asks for.
pub fn order_of(case: Case) -> Order
    ensures { result ≡ order_of case.word case.number }
{
    let n = case.number;
    match case.word {
        b'o' => Order::Open,
        b'i' | b'g' => Order::Insert,
        b'd' => Order::Delete(n),
        b'k' => Order::WithKey,
        b'r' | b'n' => Order::Retrieve(n),
        b's' | b'm' => Order::Solve(n),
        _ => Order::Nothing,
    }
}

// A number that depends on each byte and its place.
fn checksum(bytes: &[u8]) -> u16
    ensures { result ≡ checksum_of bytes.now }
{
    let mut sum: usize = 0;
    for b in bytes {
        sum = (sum * 31 + *b as usize) % 65521;
    }
    sum as u16
}

// Two numbers and the checksum of some bytes, for answers too long to print.
fn short_line(line: &mut [u8], head: &[u8], a: usize, b: usize, bytes: &[u8]) -> usize
    ensures { Put line.old line.new 0
        (short_line head.now a b bytes.now) result }
{
    lines::found_line(line, head, a, b, &checksum(bytes).to_be_bytes())
}

// The number of slots of a listing, and the slots.
fn listed_line(line: &mut [u8], head: &[u8], slots: usize, listing: &[u8]) -> usize
    ensures { Put line.old line.new 0
        (listed_line head.now slots listing.now) result }
{
    let x = lines::put_bytes(line, 0, head);
    let y = lines::put_bytes(line, x, b" ok");
    let z = lines::put_figure(line, y, slots);
    let w = lines::put_slots(line, z, listing);
    lines::put_byte(line, w, b'\n')
}

// Argument i of a term over the signature of P1 to P12: how many bytes it has, and its bytes.
fn say_argument(i: usize, term: &[u8], head: &[u8], line: &mut [u8]) -> usize
    ensures { Put line.old line.new 0
        (argument_line head.now term.now i) result }
{
    let sig = [0u8, 0, 2, 1];
    if let Err(why) = arguments::check_argument(&sig, term, i) {
        return lines::refused_line(line, head, why.number());
    }
    let part = arguments::argument(&sig, term, i);
    lines::solved_line(line, head, part.len(), part)
}

// How many bytes of the answer buffer an answer has: two a slot of a listing, or a record.
fn written(order: Order, first: usize, second: usize) -> usize
    ensures { (result ≡ written_by order first second) × (result ≤ answer_room) }
{
    match order {
        Order::WithKey => first.min(ANSWER / 2) * 2,
        Order::Retrieve(_) => second.min(ANSWER / 2) * 2,
        Order::Solve(_) => second.min(ANSWER),
        Order::Open | Order::Insert | Order::Delete(_) | Order::Nothing => 0,
    }
}

// The words `numbers` and `measure` print no bytes but their checksum.
fn say_bytes(
    word: u8,
    first: usize,
    second: usize,
    head: &[u8],
    bytes: &[u8],
    line: &mut [u8],
) -> usize
    ensures { Put line.old line.new 0
        (answer_line word head.now first second bytes.now) result }
{
    match word {
        b'o' => lines::plain_line(line, head),
        b'k' => listed_line(line, head, first, bytes),
        b'r' => lines::found_line(line, head, first, second, bytes),
        b's' => lines::solved_line(line, head, first, bytes),
        b'n' | b'm' => short_line(line, head, first, second, bytes),
        _ => lines::slot_line(line, head, first),
    }
}

fn say_done(
    case: Case,
    first: usize,
    second: usize,
    head: &[u8],
    out: &[u8; ANSWER],
    line: &mut [u8],
) -> usize
    ensures { Put line.old line.new 0
        (done_line case head.now first second out.now) result }
{
    let n = written(order_of(case), first, second);
    say_bytes(case.word, first, second, head, &out[..n], line)
}

// LOG says that the word is no call: `argument`, or one that says nothing.
fn say_refused(case: Case, why: Refusal, head: &[u8], given: &[u8], line: &mut [u8]) -> usize
    ensures { Put line.old line.new 0
        (refusal_line case head.now (number_of why) given.now) result }
{
    match why {
        Refusal::Log if case.word == b'a' => say_argument(case.number, given, head, line),
        Refusal::Log => 0,
        _ => lines::refused_line(line, head, why.number()),
    }
}

// Writes the line of a case, and answers its length.
pub fn say(
    case: Case,
    reply: Reply,
    head: &[u8],
    given: &[u8],
    out: &[u8; ANSWER],
    line: &mut [u8],
) -> usize
    ensures { Put line.old line.new 0
        (said case reply head.now given.now out.now) result }
{
    match reply {
        Ok(Numbers { first, second }) => say_done(case, first, second, head, out, line),
        Err(why) => say_refused(case, why, head, given, line),
    }
}
