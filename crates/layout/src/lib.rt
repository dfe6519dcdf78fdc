// How long the lent tables are, and where the signature, the slots in use and the terms stand in them (docs/TABLES.md).
#![tactic(auto)]

ghost use Rattle.std.specs.Prelude.{◌≡◌, ◌+◌, ◌-◌, ◌*◌, ◌%◌, ◌≤◌, ◌<◌, max, length, get_or};
ghost use Rattle.layout.specs.Layout.{sets_long, long_enough, largest_of, signature_of, term_of, used_of, is_used};
ghost use Rattle.laws.specs.Sizes.{bytes_length, slot_count};

use laws::{BYTES, LABEL, LENGTHS_START, LINK, SETS, SLOTS, TERMS_START, USED, number_at};
use slots::SlotSet;
use std::array;

// Are the tables as long as docs/TABLES.md says; refusal 1 otherwise.
#[tactic(auto, unfolding(crate::specs::Layout::long_enough))]
pub fn lengths_suffice(
    bytes: usize,
    used: usize,
    label: usize,
    link: usize,
    s0: usize,
    s1: usize,
    s2: usize,
    s3: usize,
) -> bool
    ensures { result ≡ long_enough bytes used label link s0 s1 s2 s3 }
{
    BYTES <= bytes && USED <= used && LABEL <= label && LINK <= link && sets_suffice(s0, s1, s2, s3)
}

#[tactic(auto, unfolding(crate::specs::Layout::sets_long))]
fn sets_suffice(s0: usize, s1: usize, s2: usize, s3: usize) -> bool
    ensures { result ≡ sets_long s0 s1 s2 s3 }
{
    SETS <= s0 && SETS <= s1 && SETS <= s2 && SETS <= s3
}

// The same, of the tables themselves where they are shared; of those lent to change the lengths are taken before.
pub fn long_enough(
    bytes: &[u8],
    used: &[u64],
    label: &[u32],
    link: &[u16],
    s0: &[u64],
    s1: &[u64],
    s2: &[u64],
    s3: &[u64],
) -> bool
    ensures { result
        ≡ long_enough (length bytes.now) (length used.now) (length label.now)
        (length link.now) (length s0.now) (length s1.now)
        (length s2.now) (length s3.now) }
{
    lengths_suffice(
        bytes.len(),
        used.len(),
        label.len(),
        link.len(),
        s0.len(),
        s1.len(),
        s2.len(),
        s3.len(),
    )
}

// The largest of the bytes, or 0.
fn largest(s: &[u8]) -> u8
    ensures { result ≡ largest_of s.now }
{
    s.iter().fold(0, |largest, byte| largest.max(*byte))
}

// The signature; the empty part where the bytes hold none, as on memory that no opening made.
#[tactic(auto, using(crate::proofs::LayoutLaws::signature_ways))]
pub fn signature(bytes: &[u8]) -> &[u8]
    requires { bytes_length ≤ length bytes.now }
    ensures { result.now ≡ signature_of bytes.now }
{
    let n = number_at(bytes, 0);
    if 256 < n {
        return &[];
    }
    let end = n + 2;
    if 8 < largest(&bytes[2..end]) {
        return &[];
    }
    &bytes[2..end]
}

// The term of a slot in use, as the part of the table where it stands.
pub fn term(bytes: &[u8], slot: usize) -> &[u8]
    requires { (bytes_length ≤ length bytes.now) × (slot < slot_count) }
    ensures { (result.now ≡ term_of bytes.now slot) × (length result.now ≤ 64) }
{
    let n = bytes[LENGTHS_START + slot] as usize % 65;
    let from = TERMS_START + 64 * slot;
    let to = from + n;
    &bytes[from..to]
}

// The slots in use.
#[tactic(auto, unfolding(crate::specs::Layout::used_of, slots::specs::Slots::words8))]
pub fn slots_used(used: &[u64]) -> SlotSet
    requires { 8 ≤ length used.now }
    ensures { result.words ≡ used_of used.now }
{
    SlotSet {
        words: array::from_fn(|i| used[i]),
    }
}

// Is the slot one of those in use; refusal 4 otherwise.
#[tactic(auto, unfolding(crate::specs::Layout::is_used))]
pub fn in_use(used: &[u64], slot: usize) -> bool
    requires { 8 ≤ length used.now }
    ensures { result ≡ is_used used.now slot }
{
    slot < SLOTS && slots_used(used).contains(slot)
}
