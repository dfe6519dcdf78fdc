// Opening: the lent tables get a signature and nothing else (SCOPE.md, 'Store').
#![tactic(auto)]

ghost use Rattle.std.specs.Prelude.{◌≡◌, []};
ghost use Rattle.layout.specs.Tables.{held};
ghost use Rattle.calls.specs.Outcome.{outcome, told};
ghost use Rattle.store.specs.Calls.{opening};

use calls::{Numbers, Reply};
use chains::free_all;
use filling::clear;
use laws::{KEYS, SETS, USED};
use layout::lengths_suffice;
use refusals::Refusal;

// Sets the signature and empties all.
pub fn open(
    bytes: &mut [u8],
    used: &mut [u64],
    label: &mut [u32],
    link: &mut [u16],
    s0: &mut [u64],
    s1: &mut [u64],
    s2: &mut [u64],
    s3: &mut [u64],
    sig: &[u8],
) -> Reply
    ensures { outcome result
        (held bytes.new used.new label.new link.new
        s0.new s1.new s2.new s3.new) []
        ≡ told [] (opening
        (held bytes.old used.old label.old link.old
        s0.old s1.old s2.old s3.old)
        sig.now) }
{
    if !lengths_suffice(
        bytes.len(),
        used.len(),
        label.len(),
        link.len(),
        s0.len(),
        s1.len(),
        s2.len(),
        s3.len(),
    ) {
        return Err(Refusal::Table);
    }
    terms::check_signature(sig)?;
    filling::put_signature(bytes, sig);
    clear(used, USED);
    clear(label, KEYS);
    free_all(link);
    clear(s0, SETS);
    clear(s1, SETS);
    clear(s2, SETS);
    clear(s3, SETS);
    Ok(Numbers {
        first: 0,
        second: 0,
    })
}
