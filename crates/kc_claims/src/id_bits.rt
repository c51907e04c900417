//! Tells the places of ids by a bit for each number up to the greatest of them.
ghost use Rattle.std.specs.Prelude.{◌≡◌, ◌≤◌, ◌<◌, ◌^◌, ℕ, IfOk, IfSome, IsTrue, Some, length};
ghost use Rattle.kc_graph.specs.Peeling.{at};
ghost use Rattle.kc_claims.specs.IdBits.{AreBitsOf, place_by};

use kc_graph::NoMemory;
use std::alloc::Global;

/// A word has the bits of so many numbers.
const WORD_BITS: u32 = 64;

/// For each word there are to be so many ids: then the bits and the ends take half a byte an id.
const IDS_A_WORD: usize = 24;

/// A bit for each number up to the greatest id, which is set where the number is an id.
#[derive(Drop)]
pub(crate) struct IdBits {
    pub(crate) words: Vec<u64>,
    /// How many ids there are up to the end of each word that has some.
    pub(crate) ends: Vec<u32>,
}

impl IdBits {
    /// The place that the bits tell an id, if its own is set.
    pub(crate) fn place(&self, id: u32) -> Option<u32>
        requires { length self.now.ends.items ≡ length self.now.words.items }
        ensures { result ≡ place_by self.now.words.items self.now.ends.items id }
    {
        let word = (id / WORD_BITS) as usize;
        if word >= self.words.len() {
            return None;
        }
        let from_id = self.words[word] >> (id % WORD_BITS);
        if from_id % 2 == 0 {
            return None;
        }
        Some(self.ends[word].saturating_sub(from_id.count_ones()))
    }

    /// Sets the bits of ids that ascend, and tells the ends of their words.
    fn set_all(&mut self, ids: &[u32])
        requires one_each { length self.old.ends.items ≡ length self.old.words.items }
        requires few { length ids.now < 2 ^ 32 }
        ensures one_each { length self.new.ends.items ≡ length self.new.words.items }
        ensures words { length self.new.words.items ≡ length self.old.words.items }
    {
        for (v, id) in ids.iter().enumerate() {
            let word = (*id / WORD_BITS) as usize;
            if word < self.words.len() {
                self.words[word] |= 1 << (*id % WORD_BITS);
                self.ends[word] = v as u32 + 1;
            }
        }
    }

    /// Whether each id is told its place.
    fn tells_each(&self, ids: &[u32]) -> bool
        requires { length self.now.ends.items ≡ length self.now.words.items }
        ensures { IsTrue result → (v : ℕ) → v < length ids.now → place_by self.now.words.items self.now.ends.items (at ids.now v) ≡ Some v }
    {
        for (v, id) in ids.iter().enumerate() {
            let Some(place) = self.place(*id) else {
                return false;
            };
            if place as usize != v {
                return false;
            }
        }
        true
    }

    /// Whether the place that a number is told, if any, is where it stands among the ids.
    fn tells_right(&self, ids: &[u32], number: u32) -> bool
        requires { length self.now.ends.items ≡ length self.now.words.items }
        ensures { IsTrue result → (v : ℕ) → place_by self.now.words.items self.now.ends.items number ≡ Some v
            → (v < length ids.now) × (at ids.now v ≡ number) }
    {
        match self.place(number) {
            Some(v) => (v as usize) < ids.len() && ids[v as usize] == number,
            None => true,
        }
    }

    /// Whether no number but an id is told a place.
    fn tells_no_other(&self, ids: &[u32]) -> bool
        requires one_each { length self.now.ends.items ≡ length self.now.words.items }
        requires few { length self.now.words.items ≤ 2 ^ 26 }
        ensures { IsTrue result → (id v : ℕ) → place_by self.now.words.items self.now.ends.items id ≡ Some v
            → (v < length ids.now) × (at ids.now v ≡ id) }
    {
        for number in 0..self.words.len() * 64 {
            if !self.tells_right(ids, number as u32) {
                return false;
            }
        }
        true
    }

    /// Whether just the ids are told places, and each its own.
    fn is_of(&self, ids: &[u32]) -> bool
        requires one_each { length self.now.ends.items ≡ length self.now.words.items }
        requires few { length self.now.words.items ≤ 2 ^ 26 }
        ensures { IsTrue result → AreBitsOf ids.now self.now.words.items self.now.ends.items }
    {
        self.tells_each(ids) && self.tells_no_other(ids)
    }

    /// The bits of ids that ascend, where these are not too few for the numbers up to the greatest.
    pub(crate) fn new(alloc: Global, ids: &[u32], greatest: u32) -> Result<Option<IdBits>, NoMemory>
        requires { length ids.now < 2 ^ 32 }
        ensures { IfOk result (λ found. IfSome found (λ bits. AreBitsOf ids.now bits.words.items bits.ends.items)) }
    {
        let count = (greatest / WORD_BITS) as usize + 1;
        if count > ids.len() / IDS_A_WORD {
            return Ok(None);
        }
        let words = vec![in alloc; 0u64; count]?;
        let ends = vec![in alloc; 0u32; count]?;
        let mut bits = IdBits { words, ends };
        bits.set_all(ids);
        if bits.is_of(ids) {
            Ok(Some(bits))
        } else {
            Ok(None)
        }
    }
}
