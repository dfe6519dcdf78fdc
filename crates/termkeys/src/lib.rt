// A term's keys in the tables: found, added with a slot, and cleared of it, one item after another.
#![tactic(auto)]

ghost use Rattle.std.specs.Prelude.{◌≡◌, ◌+◌, ◌-◌, ◌*◌, ◌/◌, ◌%◌, ◌≤◌, ◌<◌, length, set};
ghost use Rattle.keysets.specs.KeySets.{Sets, mark as mark_of, unmark as unmark_of, emptyb};
ghost use Rattle.paths.specs.Locate.{missing as missing_of};
ghost use Rattle.paths.specs.Rep.{lab};
ghost use Rattle.paths.specs.TreeWalk.{up_num};
ghost use Rattle.paths.specs.Insert.{key_for, entered};
ghost use Rattle.paths.specs.Delete.{left as left_of};
ghost use Rattle.termkeys.specs.Fill.{tables, Sized, fill, tables_and, ins_fill, del_fill};
ghost use Rattle.laws.specs.Sizes.{key_limit, link_length, place_end, slot_count};

use chains::{find, relabel};
use keysets::KeySets;
use laws::{KEYS, KEYS16, ROOT};
use marking::{mark, unmark};

// The number of an item's place.
fn place(ks: &[u16], u: u8) -> u32
    requires { 32 ≤ length ks.now }
    ensures { (result ≡ up_num ks.now u) × (result < 524296) }
{
    if u == 0 {
        return ROOT;
    }
    let v = u - 1;
    ks[v as usize / 8] as u32 * 8 + (v % 8) as u32
}

// The label of the key with end e at the place n.
pub fn label_of(n: u32, e: u16) -> u32
    requires { n < 524296 }
    ensures { result ≡ lab n e }
{
    n * 257 + e as u32 + 1
}

// The keys of a term's items, found: 4096 for one that is missing, no Option: the lent buffer has two bytes a key.
pub fn locate(link: &[u16], label: &[u32], ups: &[u8], ends: &[u16], ks: &mut [u16])
    requires { (link_length ≤ length link.now) × (key_limit ≤ length label.now)
        × (length ups.now ≡ length ends.now) × (length ups.now ≤ length ks.old) × (32 ≤ length ks.old) }
    ensures { ks.new
        ≡ fill link.now label.now ks.old 0 ups.now ends.now }
{
    for (i, up) in ups.iter().enumerate() {
        let w = label_of(place(ks, *up), ends[i]);
        ks[i] = find(link, label, w).unwrap_or(KEYS) as u16;
    }
}

// How many of the keys are missing.
pub fn missing(ks: &[u16]) -> usize
    ensures { (result ≡ missing_of ks.now) × (result ≤ length ks.now) }
{
    ks.iter().filter(|k| KEYS16 <= **k).count()
}

// The key with label `w`, found or added, gets the slot.
fn enter(
    link: &mut [u16],
    label: &mut [u32],
    s0: &mut [u64],
    s1: &mut [u64],
    s2: &mut [u64],
    s3: &mut [u64],
    s: usize,
    w: u32,
) -> usize
    requires { Sized link.old label.old s0.old s1.old s2.old s3.old × (s < slot_count) }
    ensures value { (result ≡ key_for Sets mark_of
        (tables link.old label.old s0.old s1.old s2.old
        s3.old) w) × (result < key_limit) }
    ensures s3_after { tables link.new label.new s0.new s1.new
        s2.new s3.new
        ≡ entered Sets mark_of
        (tables link.old label.old s0.old s1.old s2.old
        s3.old) s w }
{
    if let Some(f) = find(link, label, w) {
        mark(s0, s1, s2, s3, f, s);
        return f;
    }
    // A key is free: callers have asked for room.
    let k = find(link, label, 0).unwrap_or(0);
    relabel(link, label, k as u16, w);
    mark(s0, s1, s2, s3, k, s);
    k
}

// Each item's key found or added, and the slot put in.
pub fn insert_all(
    link: &mut [u16],
    label: &mut [u32],
    s0: &mut [u64],
    s1: &mut [u64],
    s2: &mut [u64],
    s3: &mut [u64],
    ups: &[u8],
    ends: &[u16],
    ks: &mut [u16],
    s: usize,
)
    requires { Sized link.old label.old s0.old s1.old s2.old s3.old × (s < slot_count)
        × (length ups.now ≡ length ends.now) × (length ups.now ≤ length ks.old) × (32 ≤ length ks.old) }
    ensures { tables_and
        (tables link.new label.new s0.new s1.new s2.new
        s3.new) ks.new
        ≡ ins_fill
        (tables link.old label.old s0.old s1.old s2.old
        s3.old) ks.old s 0 ups.now ends.now }
{
    for (i, up) in ups.iter().enumerate() {
        let w = label_of(place(ks, *up), ends[i]);
        ks[i] = enter(link, label, s0, s1, s2, s3, s, w) as u16;
    }
}

// The key `k` loses the slot, and is freed where it has none left.
#[tactic(auto, using(crate::proofs::TermKeyLaws::left_kept, crate::proofs::TermKeyLaws::left_freed))]
fn leave(
    link: &mut [u16],
    label: &mut [u32],
    s0: &mut [u64],
    s1: &mut [u64],
    s2: &mut [u64],
    s3: &mut [u64],
    k: usize,
    s: usize,
)
    requires { Sized link.old label.old s0.old s1.old s2.old s3.old × (k < key_limit) × (s < slot_count) }
    ensures { tables link.new label.new s0.new s1.new
        s2.new s3.new
        ≡ left_of Sets unmark_of emptyb
        (tables link.old label.old s0.old s1.old s2.old
        s3.old) k s }
{
    unmark(s0, s1, s2, s3, k, s);
    let sets = KeySets { s0, s1, s2, s3 };
    if sets.is_empty(k) {
        relabel(link, label, k as u16, 0);
    }
}

// The keys of a term lose the slot, the last first.
pub fn delete_all(
    link: &mut [u16],
    label: &mut [u32],
    s0: &mut [u64],
    s1: &mut [u64],
    s2: &mut [u64],
    s3: &mut [u64],
    ks: &[u16],
    n: usize,
    s: usize,
)
    requires { Sized link.old label.old s0.old s1.old s2.old s3.old × (s < slot_count)
        × (n ≤ length ks.now) }
    ensures { tables link.new label.new s0.new s1.new
        s2.new s3.new
        ≡ del_fill
        (tables link.old label.old s0.old s1.old s2.old
        s3.old) ks.now s n }
{
    for i in (0..n).rev() {
        let k = ks[i] as usize % KEYS;
        leave(link, label, s0, s1, s2, s3, k, s);
    }
}

// The number of the place of the first argument below key k.
pub fn place_below(k: usize) -> u32
    requires { k ≤ key_limit }
    ensures { result ≡ k * 8 }
{
    (k * 8) as u32
}

// The number of the place of argument i, counted from 1, below key k.
pub fn place_of(k: usize, i: u8) -> u32
    requires { k ≤ key_limit }
    ensures { (result ≡ k * 8 + (i - 1)) × (result < place_end) }
{
    place_below(k) + i.saturating_sub(1) as u32
}
