// What insert and delete share: a term's outline and the numbers of its keys (SCOPE.md, 'Store'). The calls stand in
// crates of their own (opening, inserting, deleting, keyquestion), what they mean in specs/.
#![tactic(auto)]

ghost use Rattle.std.specs.Prelude.{◌≡◌, ◌≤◌, ◌<◌, length, take};
ghost use Rattle.terms.specs.Terms.{Signed};
ghost use Rattle.store.specs.Tables.{Outlined, no_numbers, located, KeysIn, room_for};
ghost use Rattle.laws.specs.Sizes.{bytes_length, key_limit, link_length, slot_count};

use chains::roomy;

// A term's items as its keys need them: the first `items` of each array, since memory is fixed.
#[derive(Debug, Clone, Copy, PartialEq, Eq)]
pub struct Outline {
    pub items: usize,
    pub ups: [u8; 32],
    pub ends: [u16; 32],
}

// The outline of a checked term.
pub fn outline_of(sig: &[u8], t: &[u8]) -> Outline
    requires { Signed sig.now × (length t.now ≤ 64) }
    ensures { Outlined sig.now t.now result.items result.ups result.ends }
{
    let mut numbers = [0u16; 32];
    let mut ups = [0u8; 32];
    let mut ends = [0u16; 32];
    let n = outline::decode(t, &mut numbers);
    outline::ends(&numbers[..n], &mut ends);
    let items = outline::ups(sig, &numbers[..n], &mut ups);
    Outline { items, ups, ends }
}

// Writes the numbers of the keys of a term's items, 4096 for one that is missing.
pub fn numbers_of(link: &[u16], label: &[u32], o: Outline, keys: &mut [u16]) -> usize
    requires { (link_length ≤ length link.now) × (key_limit ≤ length label.now) × (o.items ≤ 32)
        × (length o.ups ≡ 32) × (length o.ends ≡ 32) × (keys.old ≡ no_numbers) }
    ensures { (result ≡ o.items) × (keys.new ≡ located link.now label.now
        (take o.items o.ups) (take o.items o.ends)) }
{
    termkeys::locate(link, label, &o.ups[..o.items], &o.ends[..o.items], keys);
    o.items
}

// Do the keys of a term fit; refusal 12 otherwise. Where a key is free for each item, none need be looked for.
pub fn fits(link: &[u16], label: &[u32], o: Outline) -> bool
    requires { (link_length ≤ length link.now) × (key_limit ≤ length label.now) × (o.items ≤ 32)
        × (length o.ups ≡ 32) × (length o.ends ≡ 32) }
    ensures { result ≡ room_for link.now label.now
        (take o.items o.ups) (take o.items o.ends) }
{
    if roomy(link, o.items) {
        return true;
    }
    let mut keys = [0u16; 32];
    numbers_of(link, label, o, &mut keys);
    roomy(link, termkeys::missing(&keys[..o.items]))
}

// Writes the numbers of the keys of the term that stands in a slot. What no insert wrote has no keys.
pub fn keys_in(bytes: &[u8], link: &[u16], label: &[u32], slot: usize, keys: &mut [u16]) -> usize
    requires { (bytes_length ≤ length bytes.now) × (link_length ≤ length link.now) × (key_limit ≤ length label.now)
        × (slot < slot_count) × (keys.old ≡ no_numbers) }
    ensures { KeysIn bytes.now link.now label.now slot result keys.new }
{
    let sig = layout::signature(bytes);
    let t = layout::term(bytes, slot);
    if !checking::is_term(sig, t) {
        return 0;
    }
    numbers_of(link, label, outline_of(sig, t), keys)
}
