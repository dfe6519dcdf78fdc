// The solver over the lent tables (SCOPE.md, 'The solver's record').
#![tactic(auto)]

ghost use Rattle.std.specs.Prelude.{◌≡◌, length};
ghost use Rattle.layout.specs.Tables.{held};
ghost use Rattle.calls.specs.Outcome.{outcome, told};
ghost use Rattle.solving.specs.Recording.{refusal_of};
ghost use Rattle.solving.specs.Solving.{solving};

use calls::{Numbers, Reply};
use checking::is_term;
use layout::long_enough;
use refusals::Refusal;
use solution::Unsolved;

// The refusal for want of a record.
fn refusal_of(why: Unsolved) -> Refusal
    ensures { result ≡ refusal_of why }
{
    match why {
        Unsolved::Nothing => Refusal::Nothing,
        Unsolved::Long => Refusal::Long,
        Unsolved::Room => Refusal::Room,
    }
}

// The record of a slot's term and a question, and the number of its fields and bytes.
pub fn solve(
    bytes: &[u8],
    used: &[u64],
    label: &[u32],
    link: &[u16],
    s0: &[u64],
    s1: &[u64],
    s2: &[u64],
    s3: &[u64],
    slot: usize,
    q: &[u8],
    out: &mut [u8],
) -> Reply
    ensures { outcome result
        (held bytes.now used.now label.now link.now
        s0.now s1.now s2.now s3.now) out.new
        ≡ told out.old (solving
        (held bytes.now used.now label.now link.now
        s0.now s1.now s2.now s3.now)
        slot q.now (length out.old)) }
{
    if !long_enough(bytes, used, label, link, s0, s1, s2, s3) {
        return Err(Refusal::Table);
    }
    if !layout::in_use(used, slot) {
        return Err(Refusal::Slot);
    }
    let sig = layout::signature(bytes);
    checking::check(sig, q)?;
    let t = layout::term(bytes, slot);
    if !is_term(sig, t) {
        return Err(Refusal::Nothing);
    }
    let written = solution::record(sig, t, q, out).map_err(refusal_of)?;
    Ok(Numbers {
        first: written.fields,
        second: written.bytes,
    })
}
