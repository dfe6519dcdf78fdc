// Unification of two terms, by nodes: a node is an item of `pool`, which holds the terms one after another.
#![tactic(auto)]

ghost use Rattle.std.specs.Prelude.{◌≡◌, ℕ, ◌+◌, ◌-◌, ◌^◌, ◌<◌, ◌≤◌, length, get_or, MatchOption};
ghost use Rattle.joining.specs.Run.{Given, BindingTable, Led, UnifierEnds};
ghost use Rattle.unify.specs.Face.{Faced};
ghost use Rattle.unify.specs.Solved.{code_of, table_of};
ghost use Rattle.laws.specs.Sizes.{variable_base, written_end};

use joining::{Pending, bind, merge};
use laws::VARIABLE;
use std::array;
use variables::WrittenVariable;

// The node that the item c is bound to: none of a symbol.
fn bound(tab: &[u8; 64], c: usize) -> Option<usize>
    requires { c < written_end }
    ensures { MatchOption result
        (variable_base ≤ c → get_or tab.now (c - variable_base) 0 ≡ 0)
        (λ e. (variable_base ≤ c) × (get_or tab.now (c - variable_base) 0 ≡ e + 1)) }
{
    if c < VARIABLE {
        return None;
    }
    (tab[WrittenVariable::of_item(c).index()] as usize).checked_sub(1)
}

// Where bindings lead from p.
fn deref(tab: &[u8; 64], pool: &[u16], p: usize) -> usize
    requires { BindingTable tab.now pool.now × (p < length pool.now)
        × ((k : ℕ) → k < length pool.now → get_or pool.now k 0 < written_end) }
    ensures { Led tab.now pool.now p result }
{
    let mut r = p;
    while let Some(next) = bound(tab, pool[r] as usize) {
        r = next;
    }
    r
}

// Two nodes that no binding leads on from, face to face.
#[derive(Clone, Copy)]
enum Face {
    Same,
    Clash,
    Bind(WrittenVariable, usize),
    Merge,
}

fn meet(pool: &[u16], p: usize, r: usize) -> Face
    requires { (p < length pool.now) × (r < length pool.now)
        × ((k : ℕ) → k < length pool.now → get_or pool.now k 0 < written_end) }
    ensures { Faced pool.now p r result }
{
    let a = pool[p] as usize;
    let b = pool[r] as usize;
    if p == r {
        Face::Same
    } else if a == b {
        if a < VARIABLE {
            Face::Merge
        } else {
            Face::Same
        }
    } else if a.max(b) < VARIABLE {
        Face::Clash
    } else if a < b {
        Face::Bind(WrittenVariable::of_item(b), p)
    } else {
        Face::Bind(WrittenVariable::of_item(a), r)
    }
}

// Each variable in its own set.
fn own_sets() -> [u64; 64]
    ensures { ((y : ℕ) → y < 64 → get_or result y 0 ≡ 2 ^ y) }
{
    array::from_fn(|y| 1 << y)
}

// Each node in its own class.
fn own_classes() -> [u8; 64]
    ensures { ((i : ℕ) → i < 64 → get_or result i 0 ≡ i) }
{
    array::from_fn(|i| i as u8)
}

// Why two terms do not unify: two symbols that differ, or a variable in its own value.
#[derive(Clone, Copy, Debug, PartialEq, Eq)]
pub enum Apart {
    Clash,
    Circle,
}

// Whether the terms at 0 and at root unify, by Robinson's method: for each variable 0 or one more than the node that it
// is bound to. A number, not an Option: so the theorems read the table (`BindingTable`), in half the bytes.
pub fn unify(sig: &[u8], pool: &[u16], root: usize) -> Result<[u8; 64], Apart>
    requires { Given sig.now pool.now × (root < length pool.now) }
    ensures { UnifierEnds sig.now pool.now root (code_of result) (table_of result) }
{
    let mut tab = [0u8; 64];
    let mut masks = own_sets();
    let mut cls = own_classes();
    let mut pending = Pending::one(0, root);
    while let Some((left, right)) = pending.pop() {
        let p = deref(&tab, pool, left);
        let r = deref(&tab, pool, right);
        match meet(pool, p, r) {
            Face::Same => {}
            Face::Clash => return Err(Apart::Clash),
            Face::Bind(x, u) => {
                if !bind(sig, pool, &mut tab, &mut masks, x, u) {
                    return Err(Apart::Circle);
                }
            }
            Face::Merge => merge(sig, pool, &mut cls, &mut pending, p, r),
        }
    }
    Ok(tab)
}
