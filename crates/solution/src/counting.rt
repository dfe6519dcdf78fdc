// The sizes of the values, by rounds; the bytes and the number of the fields.
// sig, pool and tab stay apart: a ghost field of theirs must be a bare fact, and `Given` holds a number.
ghost use Rattle.std.specs.Prelude.{◌≡◌, ℕ, ◌≤◌, ◌<◌, min, length, get_or, MatchBool};
ghost use Rattle.joining.specs.Run.{Given, BindingTable, term};
ghost use Rattle.solution.specs.Values.{weigh, size, size_cut, table, entry_size, Sizes};
ghost use Rattle.solution.specs.Totals.{bytes_if, total_from, bound_count};
ghost use Rattle.laws.specs.Sizes.{value_limit, written_end};

use joining::opens;
use laws::{VALUE_ITEMS, VARIABLE};
use variables::WrittenVariable;

// No size is counted further.
const CUT: usize = VALUE_ITEMS + 1;

fn weight(sz: &[u16; 64], c: usize) -> usize
    requires { c < written_end }
    ensures { (result ≡ weigh sz.now c) × (result < 65536) }
{
    if c < VARIABLE {
        1
    } else {
        sz[WrittenVariable::of_item(c).index()] as usize
    }
}

// The items of the term at p, each variable for the items of its value, counted up to 2049.
fn size_of(sig: &[u8], pool: &[u16], sz: &[u16; 64], p: usize) -> usize
    requires { Given sig.now pool.now × (p < length pool.now) }
    ensures { result
        ≡ min (size (table sz.now) (term sig.now pool.now p)) size_cut }
{
    let mut opened: usize = 1;
    let mut i = p;
    let mut m: usize = 0;
    // A while: the items' arities say where the term ends.
    while opened != 0 {
        let c = pool[i] as usize;
        m = (m + weight(sz, c)).min(CUT);
        opened = opened - 1 + opens(sig, c);
        i += 1;
    }
    m
}

// The size of the value of a variable whose entry this is.
fn entry_size(sig: &[u8], pool: &[u16], sz: &[u16; 64], entry: u8) -> u16
    requires { Given sig.now pool.now × (entry ≤ length pool.now) }
    ensures { result ≡ entry_size sig.now pool.now sz.now entry }
{
    if entry == 0 {
        1
    } else {
        size_of(sig, pool, sz, entry as usize - 1) as u16
    }
}

// The next round. A for: an array's `map` makes a whole record a fifth slower.
fn round(sig: &[u8], pool: &[u16], tab: &[u8; 64], old: &[u16; 64]) -> [u16; 64]
    requires { Given sig.now pool.now × BindingTable tab.now pool.now }
    ensures { (y : ℕ) → y < 64 → get_or result y 0
        ≡ entry_size sig.now pool.now old.now (get_or tab.now y 0) }
{
    let mut new = [0u16; 64];
    for y in 0..64 {
        new[y] = entry_size(sig, pool, old, tab[y]);
    }
    new
}

// The sizes of the values, counted up to 2049, by rounds. A round that changes nothing is the last.
pub fn sizes(sig: &[u8], pool: &[u16], tab: &[u8; 64]) -> [u16; 64]
    requires { Given sig.now pool.now × BindingTable tab.now pool.now }
    ensures { Sizes sig.now pool.now tab.now 64 result }
{
    let mut old = [1u16; 64];
    for _ in 0..64usize {
        let new = round(sig, pool, tab, &old);
        if new == old {
            return old;
        }
        old = new;
    }
    old
}

// Whether some size is above 2048.
pub fn long(sz: &[u16; 64]) -> bool
    ensures { MatchBool result ((y : ℕ) × (y < 64) × (value_limit < get_or sz.now y 0))
        ((y : ℕ) → y < 64 → get_or sz.now y 0 ≤ value_limit) }
{
    sz.iter().any(|n| *n as usize > VALUE_ITEMS)
}

// The bytes of the field of a variable with this entry and this size.
fn part_size(entry: u8, n: u16) -> usize
    ensures { (result ≡ bytes_if entry n) × (result < 200000) }
{
    if entry == 0 { 0 } else { 5 + 2 * n as usize }
}

// The bytes of the record, from the sizes of the values.
pub fn total(tab: &[u8; 64], sz: &[u16; 64]) -> usize
    ensures { result ≡ total_from tab.now sz.now 64 0 }
{
    tab.iter()
        .zip(sz)
        .map(|(entry, n)| part_size(*entry, *n))
        .sum()
}

// The variables that have a binding.
pub fn fields(tab: &[u8; 64]) -> usize
    ensures { result ≡ bound_count tab.now 64 0 }
{
    tab.iter().filter(|entry| **entry != 0).count()
}
