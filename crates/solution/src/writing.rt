// The values in bytes, the fields and the record.
// sig, pool and tab stay apart: a ghost field of theirs must be a bare fact, and `Given` holds a number.
ghost use Rattle.std.specs.Prelude.{◌≡◌, ℕ, ◌≤◌, ◌<◌, length, get_or};
ghost use Rattle.joining.specs.Run.{Given, BindingTable};
ghost use Rattle.solution.specs.Values.{value};
ghost use Rattle.solution.specs.Filling.{Filled};
ghost use Rattle.solution.specs.ValueBytes.{item_bytes, term_bytes, Goes, plus_one};
ghost use Rattle.solution.specs.RecordFields.{part, record_bytes};
ghost use Rattle.laws.specs.Sizes.{value_limit, written_end};

use joining::opens;
use laws::VARIABLE;
use variables::WrittenVariable;

// Where the item c leads: the node, or none for a symbol, a variable with no binding, or no levels left.
fn bound_to(tab: &[u8; 64], c: usize, levels: usize) -> Option<usize>
    requires { c < written_end }
    ensures { Goes tab.now c levels (plus_one result) }
{
    if c < VARIABLE || levels == 0 {
        return None;
    }
    (tab[WrittenVariable::of_item(c).index()] as usize).checked_sub(1)
}

// The value of the item c in bytes at the start of out; how many.
#[cycle(put_put_item)]
fn put_item(
    sig: &[u8],
    pool: &[u16],
    tab: &[u8; 64],
    out: &mut [u8],
    c: usize,
    levels: usize,
) -> usize
    requires { Given sig.now pool.now × BindingTable tab.now pool.now × (c < written_end)
        × (length (item_bytes sig.now pool.now tab.now levels c) ≤ length out.old) }
    ensures { Filled (item_bytes sig.now pool.now tab.now levels c)
        out.old out.new result }
{
    if let Some(node) = bound_to(tab, c, levels) {
        return put(sig, pool, tab, out, node, levels - 1);
    }
    out[..2].copy_from_slice(&(c as u16).to_be_bytes());
    2
}

// The value of the term at p in bytes at the start of out; how many.
#[cycle(put_put_item)]
fn put(sig: &[u8], pool: &[u16], tab: &[u8; 64], out: &mut [u8], p: usize, levels: usize) -> usize
    requires { Given sig.now pool.now × BindingTable tab.now pool.now × (p < length pool.now)
        × (length (term_bytes sig.now pool.now tab.now levels p) ≤ length out.old) }
    ensures { Filled (term_bytes sig.now pool.now tab.now levels p)
        out.old out.new result }
{
    let mut opened: usize = 1;
    let mut i = p;
    let mut used: usize = 0;
    // A while: the items' arities say where the term ends.
    while opened != 0 {
        let c = pool[i] as usize;
        used += put_item(sig, pool, tab, &mut out[used..], c, levels);
        opened = opened - 1 + opens(sig, c);
        i += 1;
    }
    used
}

// The field of the variable y, which has a binding, at the start of out; its bytes.
fn put_field(sig: &[u8], pool: &[u16], tab: &[u8; 64], out: &mut [u8], y: usize) -> usize
    requires { Given sig.now pool.now × BindingTable tab.now pool.now × (y < 64)
        × (length (part sig.now pool.now tab.now y) ≤ length out.old)
        × (length (value sig.now pool.now tab.now 64 y) ≤ value_limit) × (get_or tab.now y 0 ≡ 0 → ⊥) }
    ensures { Filled (part sig.now pool.now tab.now y) out.old
        out.new result }
{
    let n = put(sig, pool, tab, &mut out[5..], tab[y] as usize - 1, 63);
    let size = ((n + 2) as u16).to_be_bytes();
    let item = WrittenVariable(y as u8).item().to_be_bytes();
    out[..5].copy_from_slice(&[16, size[0], size[1], item[0], item[1]]);
    n + 5
}

#[tactic(auto, using(crate::specs::RecordFields::part_none))]
fn put_part(sig: &[u8], pool: &[u16], tab: &[u8; 64], out: &mut [u8], y: usize) -> usize
    requires { Given sig.now pool.now × BindingTable tab.now pool.now × (y < 64)
        × (length (part sig.now pool.now tab.now y) ≤ length out.old)
        × (length (value sig.now pool.now tab.now 64 y) ≤ value_limit) }
    ensures { Filled (part sig.now pool.now tab.now y) out.old
        out.new result }
{
    if tab[y] == 0 {
        return 0;
    }
    put_field(sig, pool, tab, out, y)
}

// The record at the start of out; its bytes.
pub fn put_record(sig: &[u8], pool: &[u16], tab: &[u8; 64], out: &mut [u8]) -> usize
    requires { Given sig.now pool.now × BindingTable tab.now pool.now
        × (length (record_bytes sig.now pool.now tab.now) ≤ length out.old)
        × ((y : ℕ) → y < 64 → length (value sig.now pool.now tab.now 64 y) ≤ value_limit) }
    ensures { Filled (record_bytes sig.now pool.now tab.now) out.old
        out.new result }
{
    let mut used: usize = 0;
    for y in 0..64 {
        used += put_part(sig, pool, tab, &mut out[used..], y);
    }
    used
}
