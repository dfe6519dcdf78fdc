// What C and Rust call to open the tables: it answers 0 or the number of the refusal (SCOPE.md, 'Numbers of refusal').
#![tactic(auto)]

ghost use Rattle.std.specs.Prelude.{[]};
ghost use Rattle.layout.specs.Tables.{held};
ghost use Rattle.library.specs.Store.{open_with};
ghost use Rattle.meaning.specs.Runs.{Tells};

use export_answers::number_of;

// Sets the signature and empties all.
#[unsafe(no_mangle)]
pub extern "C" fn azunkefogo_open(
    bytes: &mut [u8],
    used: &mut [u64],
    label: &mut [u32],
    link: &mut [u16],
    sets0: &mut [u64],
    sets1: &mut [u64],
    sets2: &mut [u64],
    sets3: &mut [u64],
    sig: &[u8],
) -> u32
    ensures { Tells
        (held bytes.old used.old label.old link.old
        sets0.old sets1.old sets2.old sets3.old)
        [] (open_with sig.now)
        (held bytes.new used.new label.new link.new
        sets0.new sets1.new sets2.new sets3.new)
        [] result }
{
    number_of(opening::open(bytes, used, label, link, sets0, sets1, sets2, sets3, sig))
}
