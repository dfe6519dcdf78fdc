// Two nodes of one symbol: their classes joined, and the pairs of their arguments put on the stack.
ghost use Rattle.std.specs.Prelude.{◌≡◌, map, ℕ, ◌+◌, ◌*◌, ◌≤◌, ◌<◌, length, get_or};
ghost use Rattle.theory.specs.Items.{items16};
ghost use Rattle.theory.specs.Nodes.{Begins};
ghost use Rattle.joining.specs.Classes.{swap};
ghost use Rattle.joining.specs.Push.{Pushed};
ghost use Rattle.joining.specs.Arms.{Merged};
ghost use Rattle.joining.specs.Run.{Given};
ghost use Rattle.laws.specs.Sizes.{variable_base};
ghost use Rattle.terms.specs.Terms.{arity};

use crate::pending::{Pending, pair};
use crate::walk::{opens, skip};

#[tactic(auto, unfolding(crate::specs::Classes::swap))]
fn swapped(from: u8, to: u8, x: u8) -> u8
    ensures { result ≡ swap from to x }
{
    if x == from { to } else { x }
}

fn relabel(cls: &mut [u8; 64], from: u8, to: u8)
    ensures { cls.new ≡ map (swap from to) cls.old }
{
    for x in cls.iter_mut() {
        *x = swapped(from, to, *x);
    }
}

// The pairs of the a arguments that begin at p and q, above the n pairs of the stack, the first on top.
fn push(sig: &[u8], pool: &[u16], stack: &mut [u16; 512], n: usize, p: usize, q: usize, a: usize)
    requires { (length pool.now ≤ 64) × (n + a ≤ 512) × (p ≤ length pool.now) × (q ≤ length pool.now)
        × Begins (arity sig.now) (items16 pool.now) a p
        × Begins (arity sig.now) (items16 pool.now) a q }
    ensures { (l : ℕ) × (r : ℕ) × Pushed (arity sig.now) (items16 pool.now)
        stack.old stack.new n a p q 0 l r }
{
    let mut l = p;
    let mut r = q;
    for i in (0..a).rev() {
        stack[n + i] = pair(l, r);
        l = skip(sig, pool, l);
        r = skip(sig, pool, r);
    }
}

// The nodes p and r, of one symbol: their classes joined, and the pairs of their arguments pending too.
pub fn merge(
    sig: &[u8],
    pool: &[u16],
    cls: &mut [u8; 64],
    pending: &mut Pending,
    p: usize,
    r: usize,
)
    requires { Given sig.now pool.now × (pending.old.count + 8 ≤ 512)
        × (p < length pool.now) × (r < length pool.now) × (get_or pool.now p 0 < variable_base)
        × (get_or pool.now p 0 ≡ get_or pool.now r 0) }
    ensures { Merged sig.now pool.now cls.old cls.new
        pending.old.pairs pending.new.pairs pending.old.count p r pending.new.count }
{
    let a = cls[p];
    let b = cls[r];
    if a != b {
        relabel(cls, a, b);
        let n = pending.count;
        let k = opens(sig, pool[p] as usize);
        push(sig, pool, &mut pending.pairs, n, p + 1, r + 1, k);
        pending.count = n + k;
    }
}
