// The lines of the answers to a log (SCOPE.md, 'The log program').
#![tactic(auto)]

mod line;
mod put;

pub use line::{found_line, plain_line, refused_line, slot_line, solved_line};
pub use put::{put_byte, put_bytes, put_decimal, put_figure, put_hex, put_slots};
