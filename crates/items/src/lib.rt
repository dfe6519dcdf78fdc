// The one decoding: the items of a term from its bytes, a variable's number as it is written (SCOPE.md, 'Term bytes').
#![tactic(auto)]

ghost use Rattle.std.specs.Prelude.{◌≡◌, ◌+◌, ◌/◌, ◌≤◌, length};
ghost use Rattle.std.proofs.lemmas.List.Edits.{sets};
ghost use Rattle.variables.specs.Banks.{bank_of};
ghost use Rattle.items.specs.Decoding.{written_as, decoded};

use laws::{VARIABLE_END16, VARIABLE16, number_at};
use variables::{Bank, QuestionVariable, StoredVariable};

// The number of an item as written: a symbol's own, a variable's by the step from its side. What is no item stays.
fn code(bank: Bank, c: u16) -> u16
    ensures { result ≡ written_as (bank_of bank) c }
{
    if !(VARIABLE16..VARIABLE_END16).contains(&c) {
        return c;
    }
    match bank {
        Bank::Stored => StoredVariable::of_item(c).written().item(),
        Bank::Question => QuestionVariable::of_item(c).written().item(),
    }
}

// The items of t in `out` from `at` on; how many.
pub fn load(out: &mut [u16], at: usize, t: &[u8], bank: Bank) -> usize
    requires { at + length t.now / 2 ≤ length out.old }
    ensures { (result ≡ length t.now / 2)
        × (out.new ≡ sets out.old at (decoded (bank_of bank) t.now)) }
{
    let n = t.len() / 2;
    for i in 0..n {
        out[at + i] = code(bank, number_at(t, 2 * i) as u16);
    }
    n
}
