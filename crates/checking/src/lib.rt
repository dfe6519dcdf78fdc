// The check of a term, and the walk to a term's end (SCOPE.md, 'Term bytes').
#![tactic(auto)]

ghost use Rattle.std.specs.Prelude.{◌≡◌, ◌+◌, ◌*◌, ◌≤◌, min, eqb, length, IfSome, unwrap_or};
ghost use Rattle.laws.specs.Choice.{pick};
ghost use Rattle.refusals.specs.Refusals.{checked_number};
ghost use Rattle.terms.specs.Terms.{arity as arity_of, span, declared as is_declared, items_good, refusal};

use laws::{VARIABLE, VARIABLE_END, number_at};
use refusals::Refusal;
use terms::{arity, declared};

// The bytes that the term at the start of `t` takes up; None where it does not end within them.
pub fn walk(sig: &[u8], t: &[u8], levels: usize) -> Option<usize>
    requires { length t.now ≤ 2 * levels }
    ensures bytes { unwrap_or result (length t.now + 1) ≡ min (span sig.now t.now 1) (length t.now + 1) }
    ensures within { IfSome result (λ n. n ≤ length t.now) }
{
    if t.len() < 2 {
        return None;
    }
    let mut used = 2;
    for _argument in 0..arity(sig, number_at(t, 0)) {
        used += walk(sig, &t[used..], levels - 1)?;
    }
    Some(used)
}

fn items_good(n: usize, t: &[u8]) -> bool
    ensures { result ≡ items_good n t.now }
{
    let mut rest = t;
    while 2 <= rest.len() {
        if !declared(n, number_at(rest, 0)) {
            return false;
        }
        rest = &rest[2..];
    }
    true
}

// The arguments that item x brings; what is no item brings more than a term can close, so that the pass needs no way
// out for it.
#[tactic(auto, unfolding(terms::specs::Terms::declared))]
fn brings(sig: &[u8], x: usize) -> usize
    ensures { (result ≡ pick (is_declared (length sig.now) x) (arity_of sig.now x) 4096)
        × (result ≤ 4096) }
{
    if x < sig.len() {
        arity(sig, x)
    } else if VARIABLE <= x && x < VARIABLE_END {
        0
    } else {
        4096
    }
}

// Is t a term: one pass that counts the arguments still open.
pub fn is_term(sig: &[u8], t: &[u8]) -> bool
    ensures { result ≡ eqb (refusal sig.now t.now) 0 }
{
    if 64 < t.len() || t.len() % 2 == 1 {
        return false;
    }
    let mut opened = 1;
    for i in 0..t.len() / 2 {
        if opened == 0 {
            return false;
        }
        opened = opened - 1 + brings(sig, number_at(t, 2 * i));
    }
    opened == 0
}

// Why t is no term: of refusals 5 to 8 the first in rank that applies.
#[tactic(auto, unfolding(terms::specs::Terms::refusal))]
fn refused_term(sig: &[u8], t: &[u8]) -> Result<(), Refusal>
    ensures { checked_number result ≡ refusal sig.now t.now }
{
    if 64 < t.len() {
        return Err(Refusal::Size);
    }
    if t.is_empty() || t.len() % 2 == 1 {
        return Err(Refusal::Odd);
    }
    if !items_good(sig.len(), t) {
        return Err(Refusal::Symbol);
    }
    if walk(sig, t, 32) == Some(t.len()) {
        Ok(())
    } else {
        Err(Refusal::Shape)
    }
}

// Of refusals 5 to 8 the first in rank that applies, or none. Most terms are good: what is not is looked at again for
// its number.
pub fn check(sig: &[u8], t: &[u8]) -> Result<(), Refusal>
    ensures { checked_number result ≡ refusal sig.now t.now }
{
    if is_term(sig, t) {
        return Ok(());
    }
    refused_term(sig, t)
}
