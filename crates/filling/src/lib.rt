// What is written into the lent tables: nothing yet, the signature, a term, the slots in use (docs/TABLES.md).
#![tactic(auto)]

ghost use Rattle.std.specs.Prelude.{◌≡◌, ◌+◌, ◌≤◌, ◌<◌, ◌++◌, length, drop, replicate};
ghost use Rattle.std.proofs.lemmas.List.Edits.{sets};
ghost use Rattle.layout.specs.Layout.{used_of, signed, with_term};
ghost use Rattle.laws.specs.Sizes.{bytes_length, slot_count};

use laws::{BYTES, LENGTHS_START, TERMS_START};
use slots::SlotSet;

// Copies `from` to the place `at`. A `for`: `copy_from_slice` of a length not known ahead makes the archive ask its
// caller for a memmove.
fn copy(bytes: &mut [u8], at: usize, from: &[u8])
    requires { at + length from.now ≤ length bytes.old }
    ensures { bytes.new ≡ sets bytes.old at from.now }
{
    for i in 0..from.len() {
        bytes[at + i] = from[i];
    }
}

// Writes zeros over the first n cells. A `for`: `fill` asks that a clone cannot fail, which `Copy` does not tell.
pub fn clear<T: Copy + Default>(cells: &mut [T], n: usize)
    requires { n ≤ length cells.old }
    ensures { (z : T) × T.is_default z × (cells.new ≡ replicate n z ++ drop n cells.old) }
{
    let zero = T::default();
    for i in 0..n {
        cells[i] = zero;
    }
}

// Writes a checked signature over all zeros.
pub fn put_signature(bytes: &mut [u8], sig: &[u8])
    requires { (bytes_length ≤ length bytes.old) × (length sig.now ≤ 256) }
    ensures { bytes.new ≡ signed bytes.old sig.now }
{
    clear(bytes, BYTES);
    let n = sig.len();
    bytes[0] = (n / 256) as u8;
    bytes[1] = (n % 256) as u8;
    copy(bytes, 2, sig);
}

// Writes the term of a slot.
pub fn put_term(bytes: &mut [u8], slot: usize, t: &[u8])
    requires { (bytes_length ≤ length bytes.old) × (slot < slot_count) × (length t.now ≤ 64) }
    ensures { bytes.new ≡ with_term bytes.old slot t.now }
{
    bytes[LENGTHS_START + slot] = t.len() as u8;
    copy(bytes, TERMS_START + 64 * slot, t);
}

// Writes the slots in use.
pub fn put_used(used: &mut [u64], set: SlotSet)
    requires { 8 ≤ length used.old }
    ensures { used.new ≡ sets used.old 0 (used_of set.words) }
{
    used[..SlotSet::WORDS].copy_from_slice(&set.words);
}
