// The argument of a term, as a part of the term's own bytes (SCOPE.md, 'Term bytes').
#![tactic(auto)]

ghost use Rattle.std.specs.Prelude.{◌≡◌, ◌+◌, ◌≤◌, length, drop};
ghost use Rattle.refusals.specs.Refusals.{checked_number};
ghost use Rattle.terms.specs.Terms.{span, arg_refusal, arg_bytes, arg_start};
ghost use Rattle.terms.specs.Places.{part_place};

use checking::{check, walk};
use laws::number_at;
use refusals::{Refusal, checked_number};
use terms::arity;

// Refusals 5 to 8 and 10, or none, for argument i of the term.
#[tactic(auto, unfolding(terms::specs::Terms::arg_refusal))]
pub fn check_argument(sig: &[u8], t: &[u8], i: usize) -> Result<(), Refusal>
    ensures { checked_number result ≡ arg_refusal sig.now t.now i }
{
    check(sig, t)?;
    if i == 0 || arity(sig, number_at(t, 0)) < i {
        return Err(Refusal::Argument);
    }
    Ok(())
}

// Where the argument after the first `k` starts.
fn arg_at(sig: &[u8], t: &[u8], k: usize) -> usize
    requires t_len_bound { length t.now ≤ 64 }
    requires k_in_bounds { 2 + span sig.now (drop 2 t.now) k ≤ length t.now }
    ensures { result ≡ 2 + span sig.now (drop 2 t.now) k }
{
    let mut used = 2;
    for _argument in 0..k {
        used += walk(sig, &t[used..], 32).unwrap();
    }
    used
}

// The number of the refusal of argument i, or 0: a number, since its two wrong programs and its clause name it.
pub fn argument_refusal(sig: &[u8], t: &[u8], i: usize) -> u8
    ensures { result ≡ arg_refusal sig.now t.now i }
{
    checked_number(check_argument(sig, t, i))
}

// Where argument i starts within `t`; 0, and no Option, where check_argument refuses, as `arg_start` says.
pub fn argument_start(sig: &[u8], t: &[u8], i: usize) -> usize
    ensures { result ≡ arg_start sig.now t.now i }
{
    if check_argument(sig, t, i).is_err() {
        return 0;
    }
    arg_at(sig, t, i - 1)
}

// Argument i as the part of `t` where it stands; where check_argument refuses the empty part at its start, and no
// Option: the clause says which place that is.
pub fn argument<'a>(sig: &[u8], t: &'a [u8], i: usize) -> &'a [u8]
    ensures { (result.now ≡ arg_bytes sig.now t.now i)
        × (result.ref_ptr ≡ part_place t.entry.ref_ptr (arg_start sig.now t.now i)) }
{
    if check_argument(sig, t, i).is_err() {
        return &t[0..0];
    }
    let from = arg_at(sig, t, i - 1);
    let to = from + walk(sig, &t[from..], 32).unwrap();
    &t[from..to]
}
