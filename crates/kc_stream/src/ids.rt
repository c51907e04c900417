//! Ids that come, and the numbers that stand for them.
ghost use Rattle.std.specs.Prelude.{◌≡◌, ◌<◌, ◌≤◌, ◌-◌, [], ◌∷◌, true, length, take, IfOk, IfSome, MatchOption, OnErr, nat_eq};
ghost use Rattle.std.specs.Io.{StartsWith};
ghost use Rattle.std.specs.Set.{is_member};
ghost use Rattle.kc_text.specs.Inputs.{place};
ghost use Rattle.kc_words.specs.declared.layout.TheConstants.{VERTICES};
ghost use Rattle.kc_stream.specs.Ids.{number_of, with_name, with_names};

use crate::NoMemory;
use crate::id_numbers::IdNumbers;
use kc_words::VERTICES;
use std::alloc::Global;
use std::marker::Model;

/// Ids in the order of their first coming. The number that stands for an id is its place among them, from 0. There are no more than a
/// graph may have vertices.
#[derive(Drop)]
pub struct Ids {
    names: Vec<u32>,
    numbers: IdNumbers,
}

impl Model for Ids {
    ghost use Rattle.std.specs.Prelude.{ℕ, List, length, ◌≤◌};
    ghost use Rattle.kc_lists.specs.Lists.{Distinct};
    ghost use Rattle.kc_words.specs.declared.layout.TheConstants.{VERTICES};
    ghost use Rattle.kc_stream.specs.Ids.{HasNumbers};
    ghost use Rattle.kc_stream.specs.Numbers.{number_in};

    ghost Value = { List ℕ };

    ghost view = { λ ids. ids.names.items };

    ghost invariant = { λ ids. HasNumbers ids.names.items (number_in ids.numbers.table.items ids.numbers.others) × Distinct ids.names.items
        × (length ids.names.items ≤ VERTICES) };
}

impl Ids {
    /// No ids. It takes no memory.
    pub fn new(alloc: Global) -> Ids
        ensures { result ≡ [] }
    {
        Ids {
            names: Vec::new(alloc),
            numbers: IdNumbers::new(alloc),
        }
    }

    /// How many there are.
    pub fn count(&self) -> u32
        ensures count { result ≡ length self.now }
        ensures few { result ≤ VERTICES }
    {
        self.names.len() as u32
    }

    /// The ids, each at its number.
    pub fn names(&self) -> &[u32]
        ensures { result.now ≡ self.now }
    {
        &self.names
    }

    /// The number that stands for an id, where it is one. Nothing is named.
    pub fn number(&self, id: u32) -> Option<u32>
        ensures { result ≡ number_of self.now id }
    {
        self.numbers.get(id)
    }

    /// The number that stands for an id, which is put behind the others where it is new; none where there would be too many ids. Where
    /// there is no number or no memory, the ids stay as they were.
    pub fn name(&mut self, id: u32) -> Result<Option<u32>, NoMemory>
        ensures number { IfOk result (λ number. MatchOption number (VERTICES < length (with_name self.old id))
            (λ v. (self.new ≡ with_name self.old id) × (v ≡ place self.new id) × (is_member nat_eq self.new id ≡ true))) }
        ensures none { IfOk result (λ number. MatchOption number (self.new ≡ self.old) (λ v. v < length self.new)) }
        ensures same { OnErr result (self.new ≡ self.old) }
        ensures kept { StartsWith self.new self.old }
        ensures few { length self.new ≤ VERTICES }
    {
        if let Some(number) = self.numbers.get(id) {
            return Ok(Some(number));
        }
        let number = self.names.len();
        if number >= VERTICES as usize {
            return Ok(None);
        }
        self.names.reserve(1)?;
        self.numbers.put(id, number as u32)?;
        if self.names.push(id).is_err() {
            unreachable!();
        }
        Ok(Some(number as u32))
    }

    /// The numbers that stand for two ids, which are put behind the others where they are new, the first one first; none where there would
    /// be too many ids.
    pub fn name_both(&mut self, a: u32, b: u32) -> Result<Option<(u32, u32)>, NoMemory>
        ensures numbers { IfOk result (λ numbers. MatchOption numbers (VERTICES < length (with_names self.old (a ∷ b ∷ [])))
            (λ v. (self.new ≡ with_names self.old (a ∷ b ∷ [])) × (v.0 ≡ place self.new a) × (v.1 ≡ place self.new b))) }
        ensures among { IfOk result (λ numbers. MatchOption numbers (VERTICES < length (with_names self.old (a ∷ b ∷ [])))
            (λ v. (is_member nat_eq self.new a ≡ true) × (is_member nat_eq self.new b ≡ true))) }
        ensures kept { StartsWith self.new self.old }
        ensures few { length self.new ≤ VERTICES }
    {
        let Some(first) = self.name(a)? else {
            return Ok(None);
        };
        let Some(second) = self.name(b)? else {
            return Ok(None);
        };
        Ok(Some((first, second)))
    }

    /// Forgets the last id, if there is one.
    fn forget_last(&mut self)
        ensures { self.new ≡ take (length self.old - 1) self.old }
    {
        if let Some(name) = self.names.pop() {
            self.numbers.remove(name);
        }
    }

    /// Forgets all ids but the first so many.
    pub fn forget_behind(&mut self, count: u32)
        ensures { self.new ≡ take count self.old }
    {
        while self.count() > count {
            self.forget_last();
        }
    }
}
