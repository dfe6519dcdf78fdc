// Confirmation: of the candidates of a retrieval those whose term stands in the relation (SCOPE.md, 'The relations
// themselves').
#![tactic(auto)]

ghost use Rattle.std.specs.Prelude.{◌≤◌, ◌≡◌, length};
ghost use Rattle.terms.specs.Terms.{Signed, refusal};
ghost use Rattle.slots.specs.Slots.{members};
ghost use Rattle.layout.specs.Layout.{term_of};
ghost use Rattle.confirming.specs.Confirms.{confirms_term, those};
ghost use Rattle.laws.specs.Sizes.{bytes_length};

use checking::is_term;
use slots::SlotSet;

// Does a stored term stand in the relation to the question. A number, and no enum: the clause holds of every number.
fn stands(relation: usize, sig: &[u8], t: &[u8], q: &[u8]) -> bool
    requires { Signed sig.now × (refusal sig.now q.now ≡ 0) }
    ensures { result ≡ confirms_term sig.now relation t.now q.now }
{
    if relation == 0 {
        return matching::equal(t, q);
    }
    is_term(sig, t)
        && match relation {
            1 => matching::variant(sig, q, t),
            2 => matching::instance(sig, q, t),
            3 => matching::instance(sig, t, q),
            _ => unifiable::unifiable(sig, t, q),
        }
}

// The candidates whose term stands in the relation to the question.
pub fn confirmed(
    bytes: &[u8],
    relation: usize,
    sig: &[u8],
    q: &[u8],
    candidates: SlotSet,
) -> SlotSet
    requires { (bytes_length ≤ length bytes.now) × Signed sig.now × (refusal sig.now q.now ≡ 0) }
    ensures { members result.words ≡ those
        (λ s. confirms_term sig.now relation (term_of bytes.now s) q.now)
        (members candidates.words) }
{
    let mut answers = SlotSet::empty();
    for slot in listing::members(candidates) {
        if stands(relation, sig, layout::term(bytes, slot), q) {
            answers = answers.insert(slot);
        }
    }
    answers
}
