// A variable bound to a node, unless it occurs in it: the set of variables of each term in one word.
ghost use Rattle.std.specs.Prelude.{◌≡◌, ◌==◌, map, ◌<◌, length};
ghost use Rattle.joining.specs.Masks.{mask_of, spread};
ghost use Rattle.laws.specs.Digits.{bit};
ghost use Rattle.joining.specs.Sums.{set_of};
ghost use Rattle.joining.specs.Arms.{Bound};
ghost use Rattle.joining.specs.Run.{Given, term};
ghost use Rattle.laws.specs.Sizes.{written_end};

use crate::walk::opens;
use laws::VARIABLE;
use variables::WrittenVariable;

// The set of the item c: none of a symbol.
#[tactic(auto, unfolding(crate::specs::Sums::set_of))]
fn set_of(masks: &[u64; 64], c: usize) -> u64
    requires { c < written_end }
    ensures { result ≡ set_of masks.now c }
{
    if c < VARIABLE {
        0
    } else {
        masks[WrittenVariable::of_item(c).index()]
    }
}

// The set of the variables that the term at p has under the bindings.
fn mask_of(sig: &[u8], pool: &[u16], masks: &[u64; 64], p: usize) -> u64
    requires { Given sig.now pool.now × (p < length pool.now) }
    ensures { result ≡ mask_of masks.now 0 (term sig.now pool.now p) }
{
    let mut opened: usize = 1;
    let mut i = p;
    let mut m: u64 = 0;
    // A while: the items' arities say where the term ends.
    while opened != 0 {
        let c = pool[i] as usize;
        m |= set_of(masks, c);
        opened = opened - 1 + opens(sig, c);
        i += 1;
    }
    m
}

fn on(m: u64, x: usize) -> bool
    requires { x < 64 }
    ensures { result ≡ (bit m x == 1) }
{
    (m >> x) % 2 == 1
}

#[tactic(auto, unfolding(crate::specs::Masks::spread))]
fn spread_one(x: usize, m: u64, w: u64) -> u64
    requires { x < 64 }
    ensures { result ≡ spread x m w }
{
    if on(w, x) { w | m } else { w }
}

fn spread_all(masks: &mut [u64; 64], x: usize, m: u64)
    requires { x < 64 }
    ensures { masks.new ≡ map (spread x m) masks.old }
{
    for w in masks.iter_mut() {
        *w = spread_one(x, m, *w);
    }
}

// The variable bound to the node u, unless it occurs in it; whether it was.
pub fn bind(
    sig: &[u8],
    pool: &[u16],
    tab: &mut [u8; 64],
    masks: &mut [u64; 64],
    variable: WrittenVariable,
    u: usize,
) -> bool
    requires { Given sig.now pool.now × (variable.0 < 64) × (u < length pool.now) }
    ensures { Bound variable.0 u
        (mask_of masks.old 0 (term sig.now pool.now u))
        tab.old tab.new masks.old masks.new result }
{
    let m = mask_of(sig, pool, masks, u);
    let x = variable.index();
    if on(m, x) {
        return false;
    }
    tab[x] = (u + 1) as u8;
    spread_all(masks, x, m);
    true
}
