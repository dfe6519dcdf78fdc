// The five retrievals over the lent tables (SCOPE.md, 'The relations themselves').
#![tactic(auto)]

ghost use Rattle.std.specs.Prelude.{◌≡◌, length};
ghost use Rattle.layout.specs.Tables.{held};
ghost use Rattle.calls.specs.Outcome.{outcome, told};
ghost use Rattle.retrieve.specs.Retrieving.{retrieving};

use calls::{Numbers, Reply};
use candidates::KeyTables;
use keysets::KeySets;
use layout::long_enough;
use refusals::Refusal;

// The number of candidates, the number of answers, and the listing of the answers.
pub fn retrieve(
    bytes: &[u8],
    used: &[u64],
    label: &[u32],
    link: &[u16],
    s0: &[u64],
    s1: &[u64],
    s2: &[u64],
    s3: &[u64],
    relation: usize,
    q: &[u8],
    out: &mut [u8],
) -> Reply
    ensures { outcome result
        (held bytes.now used.now label.now link.now
        s0.now s1.now s2.now s3.now) out.new
        ≡ told out.old (retrieving
        (held bytes.now used.now label.now link.now
        s0.now s1.now s2.now s3.now)
        relation q.now (length out.old)) }
{
    if !long_enough(bytes, used, label, link, s0, s1, s2, s3) {
        return Err(Refusal::Table);
    }
    // The relation stays a number: a caller's number may name none, and the call's promise is over all numbers.
    if 4 < relation {
        return Err(Refusal::Relation);
    }
    let sig = layout::signature(bytes);
    checking::check(sig, q)?;
    let set = layout::slots_used(used);
    let sets = KeySets { s0, s1, s2, s3 };
    let tables = KeyTables { link, label, sets };
    let candidates = candidates::candidates(tables, sig, relation, q, set);
    let answers = confirming::confirmed(bytes, relation, sig, q, candidates);
    let n = listing::list(answers, out);
    if out.len() < 2 * n {
        return Err(Refusal::Room);
    }
    Ok(Numbers {
        first: listing::size(candidates),
        second: n,
    })
}
