// The key question over the lent tables (SCOPE.md, 'Store').
#![tactic(auto)]

ghost use Rattle.std.specs.Prelude.{◌≡◌, ◌≤◌, length, unwrap_or};
ghost use Rattle.layout.specs.Tables.{held};
ghost use Rattle.calls.specs.Outcome.{outcome, told};
ghost use Rattle.store.specs.Tables.{end_number, key_number};
ghost use Rattle.store.specs.Calls.{key_question};
ghost use Rattle.laws.specs.Sizes.{key_limit, link_length};

use calls::{Numbers, Reply};
use chains::find;
use keysets::KeySets;
use laws::{KEYS, ROOT, number_at};
use layout::long_enough;
use refusals::Refusal;
use termkeys::label_of;

// The end of a key as its label has it: the star is 256.
#[tactic(auto, unfolding(store::specs::Tables::end_number))]
fn end_number(e: usize) -> u16
    ensures { result ≡ end_number e }
{
    e.min(256) as u16
}

// The key that the bytes of a key name.
fn key_number(link: &[u16], label: &[u32], key: &[u8]) -> Option<usize>
    requires { (link_length ≤ length link.now) × (key_limit ≤ length label.now) }
    ensures { unwrap_or result key_limit ≡ key_number link.now label.now key.now }
{
    let steps = key.chunks_exact(3);
    let end = steps.remainder();
    if end.len() != 2 {
        return None;
    }
    let mut place = ROOT;
    for step in steps {
        // 4096 for no key: the walk goes on at its places, as the definitions do, where a store has no key.
        let k = find(link, label, label_of(place, number_at(step, 0) as u16)).unwrap_or(KEYS);
        place = termkeys::place_of(k, step[2]);
    }
    find(link, label, label_of(place, end_number(number_at(end, 0))))
}

// The slots in use whose term has the key.
pub fn with_key(
    bytes: &[u8],
    used: &[u64],
    label: &[u32],
    link: &[u16],
    s0: &[u64],
    s1: &[u64],
    s2: &[u64],
    s3: &[u64],
    key: &[u8],
    out: &mut [u8],
) -> Reply
    ensures { outcome result
        (held bytes.now used.now label.now link.now
        s0.now s1.now s2.now s3.now) out.new
        ≡ told out.old (key_question
        (held bytes.now used.now label.now link.now
        s0.now s1.now s2.now s3.now)
        key.now (length out.old)) }
{
    if !long_enough(bytes, used, label, link, s0, s1, s2, s3) {
        return Err(Refusal::Table);
    }
    if !keys::is_key(layout::signature(bytes), key) {
        return Err(Refusal::Key);
    }
    // 4096 for no key: it meets no slot.
    let k = key_number(link, label, key).unwrap_or(KEYS);
    let sets = KeySets { s0, s1, s2, s3 };
    let set = sets.meet(k, layout::slots_used(used));
    let n = listing::list(set, out);
    if out.len() < 2 * n {
        return Err(Refusal::Room);
    }
    Ok(Numbers {
        first: n,
        second: 0,
    })
}
