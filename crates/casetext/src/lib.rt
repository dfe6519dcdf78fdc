// The text of the cases: one case a line, of four words with single blanks between them.
#![tactic(auto)]

ghost use Rattle.std.specs.Prelude.{◌≡◌, ◌+◌, ◌<◌, ◌≤◌, length, ◌==◌, not, nat_lt, slice_index, take_while};
ghost use Rattle.laws.specs.Choice.{pick};
ghost use Rattle.casetext.specs.CaseText.{word_end, past_blank, next_line, decimal_from, digit_of};
ghost use Rattle.casetext.specs.CaseText.{hex_at, HexRead, grown, length_of, repeating, left_after, case_at, BytesRead};

// The first letter of the second word, the third word as a number, where it ends, how many bytes the fourth word has,
// how many calls are left after this one, and the next line.
// A letter, and no enum: its words would be matched from the same letters, which the definitions name.
#[derive(Clone, Copy)]
pub struct Case {
    pub word: u8,
    pub number: usize,
    pub shown: usize,
    pub length: usize,
    pub left: usize,
    pub next: usize,
}

// How many bytes stand before the first blank or line feed.
fn word_length(text: &[u8]) -> usize
    ensures { result ≡ length (take_while (λ b. nat_lt 32 b) text.now) }
{
    text.iter().take_while(|b| **b > b' ').count()
}

// How many bytes stand before the first line feed.
fn line_length(text: &[u8]) -> usize
    ensures { result ≡ length (take_while (λ b. not (b == 10)) text.now) }
{
    text.iter().take_while(|b| **b != b'\n').count()
}

// Where the word at a place ends, at a blank or a line feed.
fn word_end(text: &[u8], at: usize) -> usize
    requires { at ≤ length text.now }
    ensures { (result ≡ word_end text.now at) × (at ≤ result) × (result ≤ length text.now) }
{
    at + word_length(&text[at..])
}

// Past one blank, if there is one.
fn past_blank(text: &[u8], at: usize) -> usize
    requires { at ≤ length text.now }
    ensures { (result ≡ past_blank text.now at) × (at ≤ result) × (result ≤ length text.now) }
{
    if at < text.len() && text[at] == b' ' {
        at + 1
    } else {
        at
    }
}

// Past the next line feed, or the end.
fn next_line(text: &[u8], at: usize) -> usize
    requires { at < length text.now }
    ensures { (result ≡ next_line text.now at) × (at < result) × (result ≤ length text.now) }
{
    text.len().min(at + line_length(&text[at..]) + 1)
}

// A number in decimal, its last six digits at least.
fn number(digits: &[u8]) -> usize
    ensures { (result ≡ decimal_from 0 digits.now) × (result < 10000016) }
{
    digits
        .iter()
        .fold(0, |n, b| n % 1000000 * 10 + *b as usize % 16)
}

// The value of a hex digit.
fn nibble(b: u8) -> u8
    ensures { (result ≡ digit_of b) × (result < 16) }
{
    if b <= b'9' {
        b % 16
    } else {
        b.wrapping_add(9) % 16
    }
}

// The byte of two hex digits at a place, 0 where the text ends before them.
fn hex_at(text: &[u8], at: usize, to: usize) -> u8
    requires { to ≤ length text.now }
    ensures { result ≡ hex_at text.now at to }
{
    if to.saturating_sub(at) < 2 {
        return 0;
    }
    nibble(text[at]) * 16 + nibble(text[at + 1])
}

// Reads hex into the lent bytes, zeros after it.
fn read_hex(text: &[u8], from: usize, to: usize, given: &mut [u8; 512])
    requires { (from ≤ length text.now) × (to ≤ length text.now) }
    ensures { HexRead 512 text.now from to given.new
        × (length given.new ≡ 512) }
{
    for (i, byte) in given.iter_mut().enumerate() {
        *byte = hex_at(text, from + i * 2, to);
    }
}

// `grow` adds one each time to the second byte, round past 255.
fn grow(word: u8, round: usize, given: &mut [u8; 512])
    ensures { given.new ≡ grown word round given.old }
{
    if word == b'g' {
        given[1] = given[1].wrapping_add((round % 256) as u8);
    }
}

// How many bytes a case has: for an opening as many as its number says.
fn length_of(word: u8, number: usize, digits: usize) -> usize
    ensures { (result ≡ length_of word number digits) × (result ≤ 512) }
{
    let n = if word == b'o' { number } else { digits / 2 };
    n.min(512)
}

// Does a word make as many calls as its number says.
fn repeats(word: u8) -> bool
    ensures { result ≡ repeating word }
{
    matches!(word, b'i' | b'g')
}

// How many calls are left after this one, the calls before it given; there is one at least.
fn left_after(word: u8, number: usize, round: usize) -> usize
    requires { (number < 16777216) × (round < 16777216) }
    ensures { (result ≡ left_after word number round) × (result + round < 16777216) }
{
    if repeats(word) {
        number.saturating_sub(round + 1)
    } else {
        0
    }
}

// The first letter of the second word, or 0 of a line that starts with #.
fn word_at(text: &[u8], at: usize, second: usize) -> u8
    requires { at < length text.now }
    ensures { result ≡ pick (slice_index text.now at == 35) 0 (slice_index text.now second) }
{
    if text[at] == b'#' {
        0
    } else {
        text.get(second).copied().unwrap_or(0)
    }
}

// The case of the line at a place, its bytes in the lent ones; a line that starts with # has the word 0.
pub fn case_at(text: &[u8], at: usize, round: usize, given: &mut [u8; 512]) -> Case
    requires { (at < length text.now) × (round < 16777216) }
    ensures { (result ≡ case_at text.now at round)
        × BytesRead text.now at round given.new × (length given.new ≡ 512)
        × (at ≤ result.shown) × (result.shown ≤ length text.now) × (result.length ≤ 512) × (at < result.next)
        × (result.left + round < 16777216) }
{
    let second = past_blank(text, word_end(text, at));
    let third = past_blank(text, word_end(text, second));
    let shown = word_end(text, third);
    let from = past_blank(text, shown);
    let to = word_end(text, from);
    let word = word_at(text, at, second);
    let number = number(&text[third..shown]);
    read_hex(text, from, to, given);
    grow(word, round, given);
    Case {
        word,
        number,
        shown,
        length: length_of(word, number, to - from),
        left: left_after(word, number, round),
        next: next_line(text, at),
    }
}
