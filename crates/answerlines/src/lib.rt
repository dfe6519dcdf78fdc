// The line of a reply (SCOPE.md, 'The log program').
#![tactic(auto)]

ghost use Rattle.std.specs.Prelude.{◌≡◌, ◌*◌, ◌/◌, min, length, take};
ghost use Rattle.lines.specs.Lines.{Put, found_line, solved_line};
ghost use Rattle.answerlines.specs.Spoken.{spoken_word, spoken_done, spoken, ending, stopping};

use calls::{Numbers, Order, Reply};

// The word that a line starts with.
fn word_of(order: Order) -> &'static [u8]
    ensures { result.now ≡ spoken_word order }
{
    match order {
        Order::Open => b"open",
        Order::Insert => b"insert",
        Order::Delete(_) => b"delete",
        Order::Retrieve(_) => b"retrieve",
        Order::Solve(_) => b"solve",
        Order::WithKey | Order::Nothing => b"log",
    }
}

// The listing, two bytes a slot, stands at the start of the answer buffer.
fn say_found(line: &mut [u8], word: &[u8], candidates: usize, answers: usize, out: &[u8]) -> usize
    ensures { Put line.old line.new 0 (found_line word.now candidates answers
        (take (min answers (length out.now / 2) * 2) out.now)) result }
{
    let n = answers.min(out.len() / 2) * 2;
    lines::found_line(line, word, candidates, answers, &out[..n])
}

// The record stands at the start of the answer buffer.
fn say_record(line: &mut [u8], word: &[u8], fields: usize, written: usize, out: &[u8]) -> usize
    ensures { Put line.old line.new 0 (solved_line word.now fields
        (take (min written (length out.now)) out.now)) result }
{
    let n = written.min(out.len());
    lines::solved_line(line, word, fields, &out[..n])
}

fn say_done(
    order: Order,
    first: usize,
    second: usize,
    word: &[u8],
    out: &[u8],
    line: &mut [u8],
) -> usize
    ensures { Put line.old line.new 0
        (spoken_done order word.now first second out.now) result }
{
    match order {
        Order::Open => lines::plain_line(line, word),
        Order::Retrieve(_) => say_found(line, word, first, second, out),
        Order::Solve(_) => say_record(line, word, first, second, out),
        Order::Insert | Order::Delete(_) | Order::WithKey | Order::Nothing => {
            lines::slot_line(line, word, first)
        }
    }
}

// Writes the line of a reply, whose listing or record stands in the answer buffer, and answers its length.
pub fn say(order: Order, reply: Reply, out: &[u8], line: &mut [u8]) -> usize
    ensures { Put line.old line.new 0 (spoken order reply out.now) result }
{
    let word = word_of(order);
    match reply {
        Ok(Numbers { first, second }) => say_done(order, first, second, word, out, line),
        Err(why) => lines::refused_line(line, word, why.number()),
    }
}

// A refused signature stops the log, and so does what is no order.
fn ends(order: Order) -> bool
    ensures { result ≡ ending order }
{
    matches!(order, Order::Open | Order::Nothing)
}

// Is this the log's last line.
pub fn stops(order: Order, reply: Reply) -> bool
    ensures { result ≡ stopping order reply }
{
    reply.is_err() && ends(order)
}
