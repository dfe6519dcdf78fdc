// A set of the slots 0 to 511: slot s in word s / 64 at weight 2^(s mod 64) (SCOPE.md, 'Paths and keys').
#![tactic(auto)]

ghost use Rattle.std.specs.Prelude.{◌≡◌, eqb, replicate};
ghost use Rattle.slots.specs.Slots.{has, inserted, removed};

use laws::{SLOTS, USED};

#[derive(Debug, Clone, Copy, PartialEq, Eq)]
pub struct SlotSet {
    pub words: [u64; 8],
}

impl SlotSet {
    pub const WORDS: usize = USED;

    pub const CAPACITY: usize = SLOTS;

    pub fn empty() -> Self
        ensures { result.words ≡ replicate 8 0 }
    {
        Self {
            words: [0; Self::WORDS],
        }
    }

    pub fn full() -> Self
        ensures { result.words ≡ replicate 8 0xffff_ffff_ffff_ffff }
    {
        Self {
            words: [u64::MAX; Self::WORDS],
        }
    }

    // Is slot s in the set; no number above 511 is.
    pub fn contains(self, s: usize) -> bool
        ensures { result ≡ eqb (has self.words s) 1 }
    {
        s < Self::CAPACITY && (self.words[s / 64] >> (s % 64)) % 2 == 1
    }

    // The set with slot s too; as it was for a number above 511.
    pub fn insert(mut self, s: usize) -> Self
        ensures { result.words ≡ inserted self.words s }
    {
        if s < Self::CAPACITY {
            self.words[s / 64] |= 1 << (s % 64);
        }
        self
    }

    // The set without slot s.
    pub fn remove(mut self, s: usize) -> Self
        ensures { result.words ≡ removed self.words s }
    {
        if s < Self::CAPACITY {
            self.words[s / 64] &= !(1 << (s % 64));
        }
        self
    }
}
