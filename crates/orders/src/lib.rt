// One call over the lent tables, by its order: what the programs that read their calls as data share.
#![tactic(auto)]

ghost use Rattle.std.specs.Prelude.{◌≡◌, length};
ghost use Rattle.layout.specs.Tables.{held};
ghost use Rattle.calls.specs.Outcome.{outcome, told};
ghost use Rattle.orders.specs.Orders.{asked, ordered};

use calls::{Order, Reply};
use refusals::Refusal;
use retrieve::retrieve as list;

// The calls that change no table.
fn ask(
    order: Order,
    term: &[u8],
    bytes: &[u8],
    used: &[u64],
    label: &[u32],
    link: &[u16],
    s0: &[u64],
    s1: &[u64],
    s2: &[u64],
    s3: &[u64],
    out: &mut [u8],
) -> Reply
    ensures { outcome result
        (held bytes.now used.now label.now link.now
        s0.now s1.now s2.now s3.now) out.new
        ≡ told out.old (asked order
        (held bytes.now used.now label.now link.now
        s0.now s1.now s2.now s3.now)
        term.now (length out.old)) }
{
    match order {
        Order::WithKey => keyquestion::with_key(
            bytes, used, label, link, s0, s1, s2, s3, term, out,
        ),
        Order::Retrieve(which) => list(bytes, used, label, link, s0, s1, s2, s3, which, term, out),
        Order::Solve(slot) => solving::solve(
            bytes, used, label, link, s0, s1, s2, s3, slot, term, out,
        ),
        _ => Err(Refusal::Log),
    }
}

// Does what is ordered, of a signature, a term or a key; no order is the refusal that only the log program gives. A match
// and no closure: the order is read from the input.
pub fn call(
    order: Order,
    term: &[u8],
    bytes: &mut [u8],
    used: &mut [u64],
    label: &mut [u32],
    link: &mut [u16],
    s0: &mut [u64],
    s1: &mut [u64],
    s2: &mut [u64],
    s3: &mut [u64],
    out: &mut [u8],
) -> Reply
    ensures { outcome result
        (held bytes.new used.new label.new link.new
        s0.new s1.new s2.new s3.new) out.new
        ≡ told out.old (ordered order
        (held bytes.old used.old label.old link.old
        s0.old s1.old s2.old s3.old)
        term.now (length out.old)) }
{
    match order {
        Order::Open => opening::open(bytes, used, label, link, s0, s1, s2, s3, term),
        Order::Insert => inserting::insert(bytes, used, label, link, s0, s1, s2, s3, term),
        Order::Delete(slot) => deleting::delete(bytes, used, label, link, s0, s1, s2, s3, slot),
        _ => ask(order, term, bytes, used, label, link, s0, s1, s2, s3, out),
    }
}
