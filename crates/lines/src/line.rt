// The line of each kind of answer, at the start of a lent line buffer; each answers the line's length.
ghost use Rattle.std.specs.Prelude.{◌≤◌, ◌++◌, length};
ghost use Rattle.lines.specs.Lines.{Put, ok, figure, feed, record_text};
ghost use Rattle.lines.specs.Lines.{plain_line, refused_line, slot_line, found_line, solved_line};

use crate::put::{put_byte, put_bytes, put_figure, put_hex, put_slots};

// `open ok`
pub fn plain_line(line: &mut [u8], word: &[u8]) -> usize
    ensures { Put line.old line.new 0 (plain_line word.now) result }
{
    let a = put_bytes(line, 0, word);
    put_bytes(line, a, b" ok\n")
}

// `insert no 7`
pub fn refused_line(line: &mut [u8], word: &[u8], number: u8) -> usize
    ensures { Put line.old line.new 0 (refused_line word.now number) result }
{
    let a = put_bytes(line, 0, word);
    let b = put_bytes(line, a, b" no");
    let c = put_figure(line, b, number as usize);
    put_byte(line, c, b'\n')
}

// The word, ok and a number, as in `insert ok 0`.
fn put_head(line: &mut [u8], word: &[u8], n: usize) -> usize
    ensures { Put line.old line.new 0 (word.now ++ (ok ++ figure n)) result }
{
    let a = put_bytes(line, 0, word);
    let b = put_bytes(line, a, b" ok");
    put_figure(line, b, n)
}

// `insert ok 0`
pub fn slot_line(line: &mut [u8], word: &[u8], slot: usize) -> usize
    ensures { Put line.old line.new 0 (slot_line word.now slot) result }
{
    let a = put_head(line, word, slot);
    put_byte(line, a, b'\n')
}

// `retrieve ok 3 1 1`, of a listing of two bytes a slot.
pub fn found_line(
    line: &mut [u8],
    word: &[u8],
    candidates: usize,
    answers: usize,
    listing: &[u8],
) -> usize
    ensures { Put line.old line.new 0
        (found_line word.now candidates answers listing.now) result }
{
    let a = put_head(line, word, candidates);
    let b = put_figure(line, a, answers);
    let c = put_slots(line, b, listing);
    put_byte(line, c, b'\n')
}

// A blank and a record's bytes, if there are any.
fn put_record(line: &mut [u8], at: usize, bytes: &[u8]) -> usize
    requires { at ≤ length line.old }
    ensures { Put line.old line.new at (record_text bytes.now) result }
{
    if bytes.is_empty() {
        return at;
    }
    let next = put_byte(line, at, b' ');
    put_hex(line, next, bytes)
}

// `solve ok 1 10000480208000`, of a record's bytes.
pub fn solved_line(line: &mut [u8], word: &[u8], fields: usize, bytes: &[u8]) -> usize
    ensures { Put line.old line.new 0 (solved_line word.now fields bytes.now) result }
{
    let a = put_head(line, word, fields);
    let b = put_record(line, a, bytes);
    put_byte(line, b, b'\n')
}
