//! Sets of places of a trail, whose highest place below another is found many places at a time.

ghost use Rattle.std.specs.Prelude.{◌≡◌, ◌≢◌, ◌⊎◌, ◌↔◌, ℕ, ◌^◌, ◌<◌, ◌≤◌, IsBitSet, IsTrue, IfOk, OnOk, MatchOption, length, get_or, slice_set};
ghost use Rattle.conflict_analysis.specs.PlaceSets.{HasPlace};

use cnf_formula::OutOfMemory;
use std::alloc::Global;
use std::marker::Model;

/// How many places a word holds.
const PLACES: usize = 64;

/// A set of places, which takes as long to empty as it took to fill.
#[derive(Drop)]
pub struct PlaceSet {
    /// Words of 64 places each, a set bit for a place of the set; none is past the end.
    words: Vec<u64>,
    /// The words that got a place since the set was emptied.
    used: Vec<usize>,
}

impl Model for PlaceSet {
    ghost use Rattle.std.specs.Prelude.{◌≢◌, ℕ, List, Contains, get_or};

    ghost Value = { List ℕ };

    ghost view = { λ a. a.words.items };

    ghost invariant = { λ a. (i : ℕ) → get_or a.words.items i 0 ≢ 0 → Contains a.used.items i };
}

/// The word with one bit.
fn bit(number: usize) -> u64
    requires { number < 64 }
    ensures { result ≡ 2 ^ number }
{
    1 << number
}

/// The bits of a word below one of them.
#[tactic(auto, using(crate::proofs::Bits::bits_lower))]
fn bits_below(word: u64, number: usize) -> u64
    requires { number < 64 }
    ensures { (k : ℕ) → IsBitSet result k ↔ (IsBitSet word k × (k < number)) }
{
    word & (bit(number) - 1)
}

/// The highest bit that is set.
#[tactic(auto, using(crate::proofs::Bits::highest_set, crate::proofs::Bits::highest_last))]
fn highest_bit(word: u64) -> usize
    requires { word ≢ 0 }
    ensures within { result < 64 }
    ensures set { IsBitSet word result }
    ensures highest { (k : ℕ) → result < k → IsBitSet word k → ⊥ }
{
    63 - word.leading_zeros() as usize
}

impl PlaceSet {
    /// The empty set.
    pub fn new(alloc: Global) -> PlaceSet
        ensures { (k : ℕ) → HasPlace result k → ⊥ }
    {
        PlaceSet {
            words: Vec::new(alloc),
            used: Vec::new(alloc),
        }
    }

    /// Takes all places out.
    pub fn clear(&mut self)
        ensures { (k : ℕ) → HasPlace self.new k → ⊥ }
    {
        while let Some(index) = self.used.pop() {
            if let Some(word) = self.words.get_mut(index) {
                *word = 0;
            }
        }
    }

    /// The word of so many places, which has none past the end.
    fn word(&self, index: usize) -> u64
        ensures { result ≡ get_or self.now index 0 }
    {
        match self.words.get(index) {
            Some(word) => *word,
            None => 0,
        }
    }

    /// Makes room for a word.
    fn reach(&mut self, index: usize) -> Result<(), OutOfMemory>
        ensures room { OnOk result (index < length self.new) }
        ensures same { (i : ℕ) → get_or self.new i 0 ≡ get_or self.old i 0 }
    {
        while self.words.len() <= index {
            self.words.push(0)?;
        }
        Ok(())
    }

    /// Puts a place in. Whether it was not in the set.
    pub fn insert(&mut self, place: usize) -> Result<bool, OutOfMemory>
        ensures place { OnOk result ((k : ℕ) → HasPlace self.new k ↔ (HasPlace self.old k ⊎ (k ≡ place))) }
        ensures new { IfOk result (λ new. IsTrue new ↔ (HasPlace self.old place → ⊥)) }
    {
        let index = place / PLACES;
        self.reach(index)?;
        let word = self.words[index];
        let bit = bit(place % PLACES);
        if word == 0 {
            self.used.push(index)?;
        }
        self.words[index] = word | bit;
        Ok(word & bit == 0)
    }

    /// Puts a word in the place of one that has no place.
    fn set_word(&mut self, index: usize, word: u64) -> Result<(), OutOfMemory>
        requires { index < length self.old }
        ensures { OnOk result (self.new ≡ slice_set self.old index word) }
    {
        if word != 0 {
            self.used.push(index)?;
        }
        self.words[index] = word;
        Ok(())
    }

    /// Takes the places of another set from one place to another in the place of those that were
    /// in; some beside these come too.
    pub fn copy(&mut self, other: &PlaceSet, from: usize, to: usize) -> Result<(), OutOfMemory>
        ensures { OnOk result ((k : ℕ) → from ≤ k → k ≤ to → HasPlace self.new k ↔ HasPlace other.now k) }
    {
        self.clear();
        let last = to / PLACES;
        self.reach(last)?;
        for index in from / PLACES..last + 1 {
            self.set_word(index, other.word(index))?;
        }
        Ok(())
    }

    /// The highest place of the set below another, if it is no lower than a third.
    pub fn between(&self, from: usize, to: usize) -> Option<usize>
        ensures { MatchOption result
            ((k : ℕ) → from ≤ k → k < to → HasPlace self.now k → ⊥)
            (λ p. (from ≤ p) × (p < to) × HasPlace self.now p × ((k : ℕ) → p < k → k < to → HasPlace self.now k → ⊥)) }
    {
        let lowest = from / PLACES;
        let mut index = to / PLACES;
        let mut word = bits_below(self.word(index), to % PLACES);
        while word == 0 {
            if index <= lowest {
                return None;
            }
            index -= 1;
            word = self.word(index);
        }
        let place = PLACES * index + highest_bit(word);
        if place < from { None } else { Some(place) }
    }
}
