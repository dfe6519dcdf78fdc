// The slots of a set in their order: the next one, how many there are, and their listing (SCOPE.md, 'Paths and keys'
// and 'Numbers of refusal').
#![tactic(auto)]

ghost use Rattle.std.specs.Prelude.{◌≡◌, ◌*◌, ◌≤◌, length};
ghost use Rattle.std.specs.Iterator.{YieldsFirst, item_count};
ghost use Rattle.std.proofs.lemmas.List.Edits.{sets};
ghost use Rattle.slots.specs.Slots.{members, listed, listed_into};
ghost use Rattle.listing.specs.Following.{NextSlot, left};
ghost use Rattle.laws.specs.Sizes.{slot_count};

use slots::SlotSet;

// A walk over the slots of a set, ascending.
#[derive(Debug, Clone, Drop)]
pub struct Ascending {
    set: SlotSet,
    from: usize,
}

impl Iterator for Ascending {
    type Item = usize;

    ghost next_gives = { YieldsFirst left };

    ghost remaining = { item_count left };

    fn next(&mut self) -> Option<usize> {
        let slot = next(self.set, self.from)?;
        self.from = slot + 1;
        Some(slot)
    }
}

// The slots, ascending.
pub fn members(set: SlotSet) -> Ascending
    ensures { (left result ≡ members set.words) × (result.set.words ≡ set.words) × (result.from ≡ 0) }
{
    Ascending { set, from: 0 }
}

// The number of slots.
pub fn size(set: SlotSet) -> usize
    ensures { (result ≡ length (members set.words)) × (result ≤ slot_count) }
{
    set.words
        .iter()
        .map(|word| word.count_ones() as usize)
        .sum()
}

// The least slot of the set at or after `from`.
pub fn next(set: SlotSet, from: usize) -> Option<usize>
    ensures { NextSlot set.words from result }
{
    let mut skipped = from % 64;
    for i in from / 64..SlotSet::WORDS {
        let word = set.words[i] >> skipped;
        if word != 0 {
            return Some(i * 64 + skipped + word.trailing_zeros() as usize);
        }
        skipped = 0;
    }
    None
}

// The least slot of the set.
pub fn least(set: SlotSet) -> Option<usize>
    ensures { NextSlot set.words 0 result }
{
    next(set, 0)
}

// The slots, ascending, two bytes each, high byte first (SCOPE.md, 'Numbers of refusal').
fn write(set: SlotSet, out: &mut [u8])
    requires { 2 * length (members set.words) ≤ length out.old }
    ensures { out.new ≡ sets out.old 0 (listed (members set.words)) }
{
    for (i, slot) in members(set).enumerate() {
        out[2 * i..2 * i + 2].copy_from_slice(&(slot as u16).to_be_bytes());
    }
}

// Writes the listing where there is room for it, and else nothing; the number of slots.
pub fn list(set: SlotSet, out: &mut [u8]) -> usize
    ensures { (result ≡ length (members set.words)) × (result ≤ slot_count)
        × (out.new ≡ listed_into set.words out.old) }
{
    let n = size(set);
    if 2 * n <= out.len() {
        write(set, out);
    }
    n
}
