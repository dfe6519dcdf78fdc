// Pieces of a line, each written at a place as far as there is room; each answers the next place. By hand, since what
// `fmt` writes no contract tells.
ghost use Rattle.std.specs.Prelude.{◌≡◌, [], ◌∷◌, ◌≤◌, ◌<◌, length};
ghost use Rattle.lines.specs.Lines.{Put, decimal, glyph as glyph_of, hex, slot_list, figure};

use laws::number_at;

pub fn put_byte(line: &mut [u8], at: usize, b: u8) -> usize
    requires { at ≤ length line.old }
    ensures { Put line.old line.new at (b ∷ []) result }
{
    if at < line.len() {
        line[at] = b;
        return at + 1;
    }
    at
}

pub fn put_bytes(line: &mut [u8], at: usize, text: &[u8]) -> usize
    requires { at ≤ length line.old }
    ensures { Put line.old line.new at text.now result }
{
    let n = text.len().min(line.len() - at);
    let end = at + n;
    line[at..end].copy_from_slice(&text[..n]);
    end
}

// A number in decimal.
pub fn put_decimal(line: &mut [u8], at: usize, n: usize) -> usize
    requires { at ≤ length line.old }
    ensures { Put line.old line.new at (decimal n) result }
{
    let digit = b'0' + (n % 10) as u8;
    if n < 10 {
        return put_byte(line, at, digit);
    }
    let next = put_decimal(line, at, n / 10);
    put_byte(line, next, digit)
}

// A blank and a number in decimal.
pub fn put_figure(line: &mut [u8], at: usize, n: usize) -> usize
    requires { at ≤ length line.old }
    ensures { Put line.old line.new at (figure n) result }
{
    let next = put_byte(line, at, b' ');
    put_decimal(line, next, n)
}

// A hex digit in lower case.
fn glyph(d: u8) -> u8
    requires { d < 16 }
    ensures { result ≡ glyph_of d }
{
    if d < 10 { b'0' + d } else { b'a' + (d - 10) }
}

fn put_hex_byte(line: &mut [u8], at: usize, b: u8) -> usize
    requires { at ≤ length line.old }
    ensures { Put line.old line.new at (hex (b ∷ [])) result }
{
    let next = put_byte(line, at, glyph(b / 16));
    put_byte(line, next, glyph(b % 16))
}

// Two hex digits for each byte.
pub fn put_hex(line: &mut [u8], at: usize, bytes: &[u8]) -> usize
    requires { at ≤ length line.old }
    ensures { Put line.old line.new at (hex bytes.now) result }
{
    let mut next = at;
    for byte in bytes {
        next = put_hex_byte(line, next, *byte);
    }
    next
}

// The slots of a listing, two bytes each, a blank before each.
pub fn put_slots(line: &mut [u8], at: usize, listing: &[u8]) -> usize
    requires { at ≤ length line.old }
    ensures { Put line.old line.new at (slot_list listing.now) result }
{
    let mut next = at;
    for pair in listing.chunks_exact(2) {
        next = put_figure(line, next, number_at(pair, 0));
    }
    next
}
