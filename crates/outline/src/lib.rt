// A term's items as the key table needs them: each item's number, what stands at its end of path, and where it hangs.
// An item's up is 0 at the root, else 1 + 8 * (its parent's item) + (its argument's number from 0): a number, since one
// lent byte holds it.
#![tactic(auto)]

ghost use Rattle.std.specs.Prelude.{◌≡◌, ◌++◌, map, ℕ, ◌+◌, ◌-◌, ◌/◌, ◌≤◌, ◌<◌, length, drop};
ghost use Rattle.std.proofs.lemmas.List.Edits.{sets};
ghost use Rattle.keys.specs.Keys.{end_of};
ghost use Rattle.outline.specs.Hung.{Hung};
ghost use Rattle.paths.specs.Ups.{kids};
ghost use Rattle.terms.specs.Terms.{arity as arity_of, numbers};

use items::load;
use laws::VARIABLE16;
use terms::arity;
use variables::Bank;

// The numbers of the items of t as they stand, at the start of `out`; how many.
pub fn decode(t: &[u8], out: &mut [u16]) -> usize
    requires { length t.now / 2 ≤ length out.old }
    ensures { (result ≡ length t.now / 2)
        × (out.new ≡ sets out.old 0 (numbers t.now)) }
{
    load(out, 0, t, Bank::Stored)
}

// What stands at the end of an item's path: the symbol, or 256, the star; a number, since it goes into a key's label.
#[tactic(auto, unfolding(keys::specs::Keys::end_of))]
fn end_of(x: u16) -> u16
    ensures { result ≡ end_of x }
{
    if VARIABLE16 <= x { 256 } else { x }
}

// The ends of the items, at the start of `out`.
pub fn ends(items: &[u16], out: &mut [u16])
    requires { length items.now ≤ length out.old }
    ensures { out.new ≡ sets out.old 0 (map end_of items.now) }
{
    for (i, item) in items.iter().enumerate() {
        out[i] = end_of(*item);
    }
}

// Puts the ups of the arguments of item `n` in front of what stands from `top` on.
fn push(stack: &mut [u16], top: usize, n: usize, a: usize) -> usize
    requires { (a ≤ top) × (top ≤ length stack.old) × (a ≤ 8) × (n < 32) }
    ensures { (result ≡ top - a) × (drop result stack.new ≡ kids n 0 a ++ drop top stack.old) }
{
    let sp = top - a;
    for (j, up) in stack[sp..top].iter_mut().enumerate() {
        *up = (n * 8 + j + 1) as u16;
    }
    sp
}

// The ups of the items, at the start of `out`; how many items the term has. The stack holds what is still to come.
pub fn ups(sig: &[u8], items: &[u16], out: &mut [u8]) -> usize
    requires { (length items.now ≤ 32) × (length items.now ≤ length out.old)
        × ((x : ℕ) → arity_of sig.now x ≤ 8) }
    ensures { Hung (arity_of sig.now) items.now out.old out.new result }
{
    let mut stack = [0u16; 257];
    let mut sp = 256;
    for (i, item) in items.iter().enumerate() {
        let Some(up) = stack.get(sp) else {
            return i;
        };
        out[i] = *up as u8;
        sp = push(&mut stack, sp + 1, i, arity(sig, *item as usize));
    }
    items.len()
}
