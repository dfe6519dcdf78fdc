// The fields of an operation log (SCOPE.md, 'The log program').
#![tactic(auto)]

mod field;
mod reader;

pub use field::{Field, field_at};
pub use reader::{Reader, Taken, read, take_at};
