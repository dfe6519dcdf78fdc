// Symbols and items: arities, what is declared, the check of a signature (SCOPE.md, 'Term bytes').
#![tactic(auto)]

ghost use Rattle.std.specs.Prelude.{◌≡◌, ◌<◌};
ghost use Rattle.refusals.specs.Refusals.{checked_number};
ghost use Rattle.terms.specs.Terms.{arity as arity_of, declared as is_declared, arities_good, sig_refusal};

use laws::{VARIABLE, VARIABLE_END};
use refusals::Refusal;

// The number of arguments of symbol x; none for what is no symbol.
pub fn arity(sig: &[u8], x: usize) -> usize
    ensures { (result ≡ arity_of sig.now x) × (result < 256) }
{
    if x < sig.len() { sig[x] as usize } else { 0 }
}

// Is x one of n symbols or one of the 32 variables.
#[tactic(auto, unfolding(crate::specs::Terms::declared))]
pub fn declared(n: usize, x: usize) -> bool
    ensures { result ≡ is_declared n x }
{
    x < n || (VARIABLE <= x && x < VARIABLE_END)
}

fn arities_good(sig: &[u8]) -> bool
    ensures { result ≡ arities_good sig.now }
{
    sig.iter().all(|arity| *arity <= 8)
}

// Refusal 2 or none.
#[tactic(auto, unfolding(crate::specs::Terms::sig_refusal))]
pub fn check_signature(sig: &[u8]) -> Result<(), Refusal>
    ensures { checked_number result ≡ sig_refusal sig.now }
{
    if sig.is_empty() || 256 < sig.len() || !arities_good(sig) {
        return Err(Refusal::Signature);
    }
    Ok(())
}
