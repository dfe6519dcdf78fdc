// What C and Rust call to store a term: it answers 0 or the number of the refusal (SCOPE.md, 'Numbers of refusal').
#![tactic(auto)]

ghost use Rattle.std.specs.Prelude.{[]};
ghost use Rattle.layout.specs.Tables.{held};
ghost use Rattle.library.specs.Store.{insert};
ghost use Rattle.meaning.specs.Runs.{TellsFirst};

use export_answers::tell_first;

// Stores a term in the smallest slot that is not in use.
#[unsafe(no_mangle)]
pub extern "C" fn azunkefogo_insert(
    bytes: &mut [u8],
    used: &mut [u64],
    label: &mut [u32],
    link: &mut [u16],
    sets0: &mut [u64],
    sets1: &mut [u64],
    sets2: &mut [u64],
    sets3: &mut [u64],
    term: &[u8],
    slot: &mut usize,
) -> u32
    ensures { TellsFirst
        (held bytes.old used.old label.old link.old
        sets0.old sets1.old sets2.old sets3.old)
        [] (insert term.now)
        (held bytes.new used.new label.new link.new
        sets0.new sets1.new sets2.new sets3.new)
        [] result slot.old slot.new }
{
    tell_first(
        inserting::insert(bytes, used, label, link, sets0, sets1, sets2, sets3, term),
        slot,
    )
}
