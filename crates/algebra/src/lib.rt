// The algebra of sets of slots: both, either, the others, none (SCOPE.md, 'Paths and keys').
#![tactic(auto)]

ghost use Rattle.std.specs.Prelude.{◌≡◌};
ghost use Rattle.slots.specs.Slots.{both, either, others, none_in};

use slots::SlotSet;
use std::array;

// The slots that both sets have. Like `or` but for the operator: one function over it would be named at each call.
pub fn and(set: SlotSet, other: SlotSet) -> SlotSet
    ensures { result.words ≡ both set.words other.words }
{
    SlotSet {
        words: array::from_fn(|i| set.words[i] & other.words[i]),
    }
}

// The slots that one of both sets has.
pub fn or(set: SlotSet, other: SlotSet) -> SlotSet
    ensures { result.words ≡ either set.words other.words }
{
    SlotSet {
        words: array::from_fn(|i| set.words[i] | other.words[i]),
    }
}

// The slots that are not in the set.
pub fn complement(set: SlotSet) -> SlotSet
    ensures { result.words ≡ others set.words }
{
    SlotSet {
        words: array::from_fn(|i| !set.words[i]),
    }
}

// Has the set no slot.
pub fn is_empty(set: SlotSet) -> bool
    ensures { result ≡ none_in set.words }
{
    set.words.iter().all(|word| *word == 0)
}
