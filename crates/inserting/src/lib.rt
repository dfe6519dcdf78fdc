// Insert: a term in the smallest free slot of the lent tables (SCOPE.md, 'Store').
#![tactic(auto)]

ghost use Rattle.std.specs.Prelude.{◌≡◌, []};
ghost use Rattle.layout.specs.Tables.{held};
ghost use Rattle.calls.specs.Outcome.{outcome, told};
ghost use Rattle.store.specs.Calls.{inserting};

use calls::{Numbers, Reply};
use layout::lengths_suffice;
use refusals::Refusal;
use store::{fits, outline_of};

// Takes the smallest slot not in use.
#[tactic(auto, using(calls::proofs::Public::lengths))]
pub fn insert(
    bytes: &mut [u8],
    used: &mut [u64],
    label: &mut [u32],
    link: &mut [u16],
    s0: &mut [u64],
    s1: &mut [u64],
    s2: &mut [u64],
    s3: &mut [u64],
    t: &[u8],
) -> Reply
    ensures { outcome result
        (held bytes.new used.new label.new link.new
        s0.new s1.new s2.new s3.new) []
        ≡ told [] (inserting
        (held bytes.old used.old label.old link.old
        s0.old s1.old s2.old s3.old)
        t.now) }
{
    if !lengths_suffice(
        bytes.len(),
        used.len(),
        label.len(),
        link.len(),
        s0.len(),
        s1.len(),
        s2.len(),
        s3.len(),
    ) {
        return Err(Refusal::Table);
    }
    let sig = layout::signature(bytes);
    checking::check(sig, t)?;
    let set = layout::slots_used(used);
    let Some(free) = listing::least(algebra::complement(set)) else {
        return Err(Refusal::Full);
    };
    let o = outline_of(sig, t);
    if !fits(link, label, o) {
        return Err(Refusal::Keys);
    }
    let mut keys = [0u16; 32];
    termkeys::insert_all(
        link,
        label,
        s0,
        s1,
        s2,
        s3,
        &o.ups[..o.items],
        &o.ends[..o.items],
        &mut keys,
        free,
    );
    filling::put_term(bytes, free, t);
    filling::put_used(used, set.insert(free));
    Ok(Numbers {
        first: free,
        second: 0,
    })
}
