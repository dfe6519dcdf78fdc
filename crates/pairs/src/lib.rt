// One stored term and one question, without tables: are they unifiable.
#![tactic(auto)]

ghost use Rattle.std.specs.Prelude.{◌≤◌, ◌≡◌};
ghost use Rattle.refusals.specs.Refusals.{checked_number};
ghost use Rattle.pairs.specs.Pairs.{first_of, pair_refusal, Answers};

use refusals::{Refusal, checked_number};

// Of two refusals the first in rank; up to 16 the rank is the order of the numbers.
fn first(a: Result<(), Refusal>, b: Result<(), Refusal>) -> Result<(), Refusal>
    requires { (checked_number a ≤ 16) × (checked_number b ≤ 16) }
    ensures { checked_number result ≡ first_of (checked_number a) (checked_number b) }
{
    if checked_number(a) == 0 {
        return b;
    }
    if checked_number(b) == 0 {
        return a;
    }
    if checked_number(b) < checked_number(a) {
        b
    } else {
        a
    }
}

// Refusal 2, or of 5 to 8 the first in rank over both terms, or none.
pub fn check(sig: &[u8], stored: &[u8], question: &[u8]) -> Result<(), Refusal>
    ensures { checked_number result ≡ pair_refusal sig.now stored.now question.now }
{
    terms::check_signature(sig)?;
    first(checking::check(sig, stored), checking::check(sig, question))
}

// Whether some substitution makes the stored term and the question the same, their variables apart.
pub fn unifiable(sig: &[u8], stored: &[u8], question: &[u8]) -> Result<bool, Refusal>
    ensures { Answers sig.now stored.now question.now result }
{
    check(sig, stored, question)?;
    Ok(unifiable::unifiable(sig, stored, question))
}
