// Over the items of the pool: the arguments that follow one, and where a term ends.
ghost use Rattle.std.specs.Prelude.{◌≡◌, ◌≤◌, ◌<◌, length};
ghost use Rattle.theory.specs.Items.{items16};
ghost use Rattle.theory.specs.ItemWalk.{extra};
ghost use Rattle.theory.specs.Nodes.{Begins, NextNode};
ghost use Rattle.terms.specs.Terms.{arity};

use laws::VARIABLE;

// The arguments that follow the item c.
#[tactic(auto, unfolding(theory::specs::ItemWalk::extra))]
pub fn opens(sig: &[u8], c: usize) -> usize
    ensures { (result ≡ extra sig.now c) × (result < 256) }
{
    if c < VARIABLE {
        terms::arity(sig, c)
    } else {
        0
    }
}

// Where the term at p ends.
pub fn skip(sig: &[u8], pool: &[u16], p: usize) -> usize
    requires { Begins (arity sig.now) (items16 pool.now) 1 p × (p < length pool.now)
        × (length pool.now ≤ 64) }
    ensures { NextNode (arity sig.now) (items16 pool.now) p result
        × (result ≤ length pool.now) }
{
    let mut opened: usize = 1;
    let mut i = p;
    // A while: the items' arities say where the term ends.
    while opened != 0 {
        let c = pool[i] as usize;
        opened = opened - 1 + opens(sig, c);
        i += 1;
    }
    i
}
