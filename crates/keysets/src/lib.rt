// The slot sets of 4,096 keys, in four tables.
#![tactic(auto)]

ghost use Rattle.std.specs.Prelude.{◌≡◌, ◌/◌, ◌≤◌, ◌<◌, length};
ghost use Rattle.slots.specs.Slots.{words8};
ghost use Rattle.keysets.specs.KeySets.{tab, word as word_of, emptyb, met};
ghost use Rattle.keysets.specs.Tables.{sets_of, TablesLong};
ghost use Rattle.laws.specs.Sizes.{key_limit, set_keys, set_length};

use laws::{KEYS, SET_KEYS};
use slots::SlotSet;
use std::array;

// The sets of all keys, in four tables, since no table is above 65,536 bytes (docs/TABLES.md).
#[derive(Clone, Copy)]
pub struct KeySets<'a> {
    pub s0: &'a [u64],
    pub s1: &'a [u64],
    pub s2: &'a [u64],
    pub s3: &'a [u64],
}

impl<'a> KeySets<'a> {
    // The table that holds the set of key k.
    fn table(self, k: usize) -> &'a [u64]
        requires { TablesLong self }
        ensures { (result.now ≡ tab (sets_of self.entry) (k / set_keys)) × (set_length ≤ length result.now) }
    {
        match k / SET_KEYS {
            0 => self.s0,
            1 => self.s1,
            2 => self.s2,
            _ => self.s3,
        }
    }

    // The eight words of the set of key k.
    fn words(self, k: usize) -> &'a [u64]
        requires { TablesLong self × (k < key_limit) }
        ensures { (result.now ≡ words8 (word_of (sets_of self.entry) k)) × (length result.now ≡ 8) }
    {
        let at = k % SET_KEYS * SlotSet::WORDS;
        &self.table(k)[at..at + SlotSet::WORDS]
    }

    pub fn word(self, k: usize, i: usize) -> u64
        requires { TablesLong self × (k < key_limit) × (i < 8) }
        ensures { result ≡ word_of (sets_of self.entry) k i }
    {
        self.words(k)[i]
    }

    // From the last word on: mostly slots are freed from the lowest on, and then the last words tell at once.
    pub fn is_empty(self, k: usize) -> bool
        requires { TablesLong self × (k < key_limit) }
        ensures { result ≡ emptyb (sets_of self.entry) k }
    {
        self.words(k).iter().rev().all(|word| *word == 0)
    }

    // The slots of a set that have the key k; none where k is no key.
    pub fn meet(self, k: usize, within: SlotSet) -> SlotSet
        requires { TablesLong self }
        ensures { result.words ≡ met (sets_of self.entry) k within.words }
    {
        if KEYS <= k {
            return SlotSet::empty();
        }
        let own = self.words(k);
        SlotSet {
            words: array::from_fn(|i| own[i] & within.words[i]),
        }
    }
}
