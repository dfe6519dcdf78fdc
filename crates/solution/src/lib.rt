// The record of two terms (SCOPE.md, 'The solver's record'): the variables' values under `unify`'s bindings, in bytes.
#![tactic(auto)]

mod counting;
mod writing;

ghost use Rattle.std.specs.Prelude.{◌<◌, length};
ghost use Rattle.theory.specs.Items.{items, shift};
ghost use Rattle.joining.specs.Run.{Given, term};
ghost use Rattle.unifiable.specs.Pool.{Asked};
ghost use Rattle.solution.specs.Promise.{Promise};

use counting::{fields, long, sizes, total};
use writing::put_record;

// What solving has written: the record's fields and its bytes.
#[derive(Clone, Copy, Debug, PartialEq, Eq)]
pub struct Written {
    pub fields: usize,
    pub bytes: usize,
}

// Why there is no record: the two do not unify, a value is over 2,048 items, the buffer is too short.
#[derive(Clone, Copy, Debug, PartialEq, Eq)]
pub enum Unsolved {
    Nothing,
    Long,
    Room,
}

// The record of the terms at 0 and root into out.
fn record_pool(sig: &[u8], pool: &[u16], root: usize, out: &mut [u8]) -> Result<Written, Unsolved>
    requires { Given sig.now pool.now × (root < length pool.now) }
    ensures { Promise sig.now (term sig.now pool.now 0)
        (term sig.now pool.now root) out.old out.new result }
{
    let tab = unify::unify(sig, pool, root).map_err(|_| Unsolved::Nothing)?;
    let sz = sizes(sig, pool, &tab);
    if long(&sz) {
        return Err(Unsolved::Long);
    }
    if out.len() < total(&tab, &sz) {
        return Err(Unsolved::Room);
    }
    let bytes = put_record(sig, pool, &tab, out);
    Ok(Written {
        fields: fields(&tab),
        bytes,
    })
}

// The record of the stored term and the question into out (SCOPE.md, 'The solver's record').
pub fn record(
    sig: &[u8],
    stored: &[u8],
    question: &[u8],
    out: &mut [u8],
) -> Result<Written, Unsolved>
    requires { Asked sig.now stored.now question.now }
    ensures { Promise sig.now (items stored.now)
        (shift 32 (items question.now)) out.old out.new result }
{
    let mut pool = [0u16; 64];
    let m = unifiable::load_both(sig, &mut pool, stored, question);
    let end = m + question.len() / 2;
    record_pool(sig, &pool[..end], m, out)
}
