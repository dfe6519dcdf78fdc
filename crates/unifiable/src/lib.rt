// The two terms from their bytes into one pool, the variables of the question apart from those of the stored term, and
// whether they are unifiable.
#![tactic(auto)]

ghost use Rattle.std.specs.Prelude.{◌≡◌, length};
ghost use Rattle.theory.specs.Relations.{Decided, Unifiable};
ghost use Rattle.unifiable.specs.Pool.{Asked, Loaded, PairAnswer};
ghost use Rattle.unify.specs.Solved.{code_of, table_of};

use items::load;
use unify::{Apart, unify};
use variables::Bank;

// Both terms into the pool, the stored one first; where the question begins.
pub fn load_both(sig: &[u8], pool: &mut [u16], stored: &[u8], question: &[u8]) -> usize
    requires { (length pool.old ≡ 64) × Asked sig.now stored.now question.now }
    ensures { Loaded sig.now stored.now question.now pool.new result }
{
    let m = load(pool, 0, stored, Bank::Stored);
    load(pool, m, question, Bank::Question);
    m
}

// The bindings that make the stored term and the question the same.
fn solve(sig: &[u8], stored: &[u8], question: &[u8]) -> Result<[u8; 64], Apart>
    requires { Asked sig.now stored.now question.now }
    ensures { PairAnswer sig.now stored.now question.now (code_of result) (table_of result) }
{
    let mut pool = [0u16; 64];
    let m = load_both(sig, &mut pool, stored, question);
    let end = m + question.len() / 2;
    unify(sig, &pool[..end], m)
}

// Whether the stored term and the question are unifiable (SCOPE.md, 'The relations themselves').
pub fn unifiable(sig: &[u8], stored: &[u8], question: &[u8]) -> bool
    requires { Asked sig.now stored.now question.now }
    ensures { Decided result (Unifiable sig.now stored.now question.now) }
{
    solve(sig, stored, question).is_ok()
}
