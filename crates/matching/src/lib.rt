// Equal, instance and variant (SCOPE.md, 'The relations themselves'). The target's variables stand still: a pattern
// variable's number is an index of the binding table and is never compared with a number of the target.
#![tactic(auto)]

ghost use Rattle.std.specs.Prelude.{◌≡◌, ℕ, ◌+◌, ◌-◌, ◌/◌, ◌≤◌, ◌<◌, length, get_or, take, drop};
ghost use Rattle.std.specs.Prelude.{IsTrue, IsFalse};
ghost use Rattle.theory.specs.Items.{items, Fine};
ghost use Rattle.theory.specs.Relations.{Decided, Instance, Variant};
ghost use Rattle.matching.specs.Going.{Going};
ghost use Rattle.matching.specs.Steps.{EndsAt, Agreed, Stepped, Met};

use laws::{VARIABLE, number_at};
use terms::arity;

// Whether a and b are the same bytes.
pub fn equal(a: &[u8], b: &[u8]) -> bool
    ensures { Decided result (a.now ≡ b.now) }
{
    a == b
}

// The item after the term that begins at item j of t.
fn end_of(sig: &[u8], t: &[u8], j: usize) -> usize
    requires { Fine sig.now t.now × (j < length t.now / 2) }
    ensures { EndsAt sig.now t.now j result }
{
    let mut opened: usize = 1;
    let mut i = j;
    // A while: the items' arities say where the term ends.
    while opened != 0 {
        let c = number_at(t, 2 * i);
        opened = opened - 1 + arity(sig, c);
        i += 1;
    }
    i
}

// Whether the n items of t from a on are those from b on.
fn same(t: &[u8], a: usize, b: usize, n: usize) -> bool
    requires { (a + n ≤ length t.now / 2) × (b + n ≤ length t.now / 2) }
    ensures { Decided result (take n (drop a (items t.now)) ≡ take n (drop b (items t.now))) }
{
    t[2 * a..2 * (a + n)] == t[2 * b..2 * (b + n)]
}

// Pattern variable x against the items of t from j to e: bound to them, or whether they are what it has.
fn agrees(t: &[u8], tab: &mut [Option<u8>; 32], x: usize, j: usize, e: usize) -> bool
    requires { (length tab.old ≡ 32) × (length t.now ≤ 64) × (x < 32) × (j < e) × (e ≤ length t.now / 2)
        × ((q : ℕ) → get_or tab.old x None ≡ Some q → q < j) }
    ensures { Agreed t.now tab.old tab.new x j e result }
{
    match tab[x] {
        Some(first) => same(t, first as usize, j, e - j),
        None => {
            tab[x] = Some(j as u8);
            true
        }
    }
}

// Item i of the pattern against the target from item j on: the item of the target that comes next, none where it
// differs. Inlined, since both walks run through it at each item.
#[inline(always)]
fn step(
    sig: &[u8],
    pattern: &[u8],
    target: &[u8],
    tab: &mut [Option<u8>; 32],
    i: usize,
    j: usize,
) -> Option<usize>
    requires { Fine sig.now pattern.now × Fine sig.now target.now × (i < length pattern.now / 2)
        × Going sig.now pattern.now target.now tab.old i j }
    ensures { Stepped sig.now pattern.now target.now tab.old tab.new i j result }
{
    let c = number_at(pattern, 2 * i);
    if c < VARIABLE {
        return (number_at(target, 2 * j) == c).then_some(j + 1);
    }
    let e = end_of(sig, target, j);
    agrees(target, tab, c - VARIABLE, j, e).then_some(e)
}

// Whether item i of the pattern is a variable only where item j of the target is one.
fn meets(pattern: &[u8], target: &[u8], i: usize, j: usize) -> bool
    requires { (i < length pattern.now / 2) × (j < length target.now / 2) }
    ensures { Met pattern.now target.now i j result }
{
    number_at(pattern, 2 * i) < VARIABLE || VARIABLE <= number_at(target, 2 * j)
}

// Whether the pattern turns into the target: its variables into variables alone where RENAMES, else into terms.
fn turns<const RENAMES: bool>(sig: &[u8], pattern: &[u8], target: &[u8]) -> bool
    requires { Fine sig.now pattern.now × Fine sig.now target.now }
    ensures renames { IsTrue RENAMES → Decided result (Variant pattern.now target.now) }
    ensures fits { IsFalse RENAMES → Decided result (Instance sig.now pattern.now target.now) }
{
    let mut tab = [None; 32];
    let mut j = 0;
    for i in 0..pattern.len() / 2 {
        if RENAMES && !meets(pattern, target, i, j) {
            return false;
        }
        let Some(next) = step(sig, pattern, target, &mut tab, i, j) else {
            return false;
        };
        j = next;
    }
    true
}

// Whether some substitution turns the pattern into the target.
pub fn instance(sig: &[u8], pattern: &[u8], target: &[u8]) -> bool
    requires { Fine sig.now pattern.now × Fine sig.now target.now }
    ensures { Decided result (Instance sig.now pattern.now target.now) }
{
    turns::<false>(sig, pattern, target)
}

// Whether some replacement of variables by variables turns the pattern into the target.
pub fn variant(sig: &[u8], pattern: &[u8], target: &[u8]) -> bool
    requires { Fine sig.now pattern.now × Fine sig.now target.now }
    ensures { Decided result (Variant pattern.now target.now) }
{
    turns::<true>(sig, pattern, target)
}
