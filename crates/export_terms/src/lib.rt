// What C and Rust call without tables. Each answers 0 or the number of the refusal (SCOPE.md, 'Numbers of refusal'),
// and writes numbers only where it answers 0.
#![tactic(auto)]

ghost use Rattle.std.specs.Prelude.{◌≡◌};
ghost use Rattle.terms.specs.Terms.{sig_refusal, refusal, arg_refusal};
ghost use Rattle.theory.specs.Relations.{Unifiable};
ghost use Rattle.pairs.specs.Pairs.{pair_refusal};
ghost use Rattle.export_terms.specs.Arguments.{start_after, length_after};
ghost use Rattle.export_answers.specs.Pair.{Told};

use export_answers::{code, paired};
use refusals::checked_number;

// Refusal 2 or none.
#[unsafe(no_mangle)]
pub extern "C" fn azunkefogo_check_signature(sig: &[u8]) -> u32
    ensures { result ≡ sig_refusal sig.now }
{
    code(checked_number(terms::check_signature(sig)))
}

// Refusals 5 to 8 or none.
#[unsafe(no_mangle)]
pub extern "C" fn azunkefogo_check_term(sig: &[u8], term: &[u8]) -> u32
    ensures { result ≡ refusal sig.now term.now }
{
    code(checked_number(checking::check(sig, term)))
}

// Refusals 5 to 8 and 10 or none: where argument i of a term starts within it, and how long it is.
#[unsafe(no_mangle)]
pub extern "C" fn azunkefogo_argument(
    sig: &[u8],
    term: &[u8],
    i: usize,
    start: &mut usize,
    length: &mut usize,
) -> u32
    ensures value { result ≡ arg_refusal sig.now term.now i }
    ensures start_after { start.new ≡ start_after sig.now term.now i start.old }
    ensures length_after { length.new ≡ length_after sig.now term.now i length.old }
{
    let refused = arguments::argument_refusal(sig, term, i);
    if refused != 0 {
        return code(refused);
    }
    let part = arguments::argument(sig, term, i);
    *start = arguments::argument_start(sig, term, i);
    *length = part.len();
    0
}

// Refusal 2, 5 to 8 (the first in rank over both terms) or none: whether a stored term and a question are unifiable,
// 1 or 0, without tables.
#[unsafe(no_mangle)]
pub extern "C" fn azunkefogo_unifiable(
    sig: &[u8],
    stored: &[u8],
    question: &[u8],
    answer: &mut usize,
) -> u32
    ensures value { result ≡ pair_refusal sig.now stored.now question.now }
    ensures told { Told result answer.old answer.new
        (Unifiable sig.now stored.now question.now) }
{
    paired(pairs::unifiable(sig, stored, question), answer)
}
