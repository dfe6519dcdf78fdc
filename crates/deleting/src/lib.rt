// Delete: a slot of the lent tables is free again (SCOPE.md, 'Store').
#![tactic(auto)]

ghost use Rattle.std.specs.Prelude.{◌≡◌, []};
ghost use Rattle.layout.specs.Tables.{held};
ghost use Rattle.calls.specs.Outcome.{outcome, told};
ghost use Rattle.store.specs.Calls.{deleting};

use calls::{Numbers, Reply};
use layout::lengths_suffice;
use refusals::Refusal;
use store::keys_in;

// Frees the slot.
#[tactic(auto, using(calls::proofs::Public::lengths))]
pub fn delete(
    bytes: &mut [u8],
    used: &mut [u64],
    label: &mut [u32],
    link: &mut [u16],
    s0: &mut [u64],
    s1: &mut [u64],
    s2: &mut [u64],
    s3: &mut [u64],
    slot: usize,
) -> Reply
    ensures { outcome result
        (held bytes.new used.new label.new link.new
        s0.new s1.new s2.new s3.new) []
        ≡ told [] (deleting
        (held bytes.old used.old label.old link.old
        s0.old s1.old s2.old s3.old)
        slot) }
{
    if !lengths_suffice(
        bytes.len(),
        used.len(),
        label.len(),
        link.len(),
        s0.len(),
        s1.len(),
        s2.len(),
        s3.len(),
    ) {
        return Err(Refusal::Table);
    }
    let set = layout::slots_used(used);
    if !set.contains(slot) {
        return Err(Refusal::Slot);
    }
    let mut keys = [0u16; 32];
    let n = keys_in(bytes, link, label, slot, &mut keys);
    termkeys::delete_all(link, label, s0, s1, s2, s3, &keys, n, slot);
    filling::put_used(used, set.remove(slot));
    Ok(Numbers {
        first: slot,
        second: 0,
    })
}
