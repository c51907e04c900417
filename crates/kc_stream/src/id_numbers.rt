//! The number that stands for each id, found by the id.
ghost use Rattle.std.specs.Prelude.{◌≡◌, ◌<◌, ◌+◌, ◌^◌, ℕ, None, Some, OnErr, OnOk, cond, nat_eq};
ghost use Rattle.kc_stream.specs.Numbers.{AreApart, number_in};

use crate::NoMemory;
use std::alloc::Global;
use std::collections::HashMap;

/// The table has at most so many places for each id, and as many more.
const ROOM_FOR_AN_ID: usize = 2;

/// The number of each id. Ids that are small beside the count of all stand in a table, which answers in one look, the others in a map.
#[derive(Drop)]
pub(crate) struct IdNumbers {
    /// Under an id one more than its number, or 0 where it has none here.
    table: Vec<u32>,
    /// The numbers of ids that the table has no place for, or had none when they came.
    others: HashMap<u32, u32>,
    ghost apart: { AreApart table.items others },
}

impl IdNumbers {
    /// No id has a number. It takes no memory.
    pub(crate) fn new(alloc: Global) -> IdNumbers
        ensures { (q : ℕ) → number_in result.table.items result.others q ≡ None }
    {
        IdNumbers {
            table: Vec::new(alloc),
            others: HashMap::new(alloc),
        }
    }

    /// The number of an id, where it has one.
    pub(crate) fn get(&self, id: u32) -> Option<u32>
        ensures { result ≡ number_in self.now.table.items self.now.others id }
    {
        let entry = self.table.get(id as usize).copied().unwrap_or(0);
        if entry > 0 {
            return Some(entry - 1);
        }
        self.others.get(&id).copied()
    }

    /// Makes the table longer, so that it has a place for an id that is small beside the count of all. Where there is no memory for it,
    /// the table may have no such place. No number changes.
    fn make_room(&mut self, id: u32, count: usize)
        ensures { (q : ℕ) → number_in self.new.table.items self.new.others q ≡ number_in self.old.table.items self.old.others q }
    {
        let place = id as usize;
        if place >= self.table.len() && place / ROOM_FOR_AN_ID <= count {
            if self.table.resize(place, 0).is_ok() {
                // Where there is no memory, the map takes the number. A push grows by doubling.
                let _ = self.table.push(0);
            }
        }
    }

    /// Puts the number of an id that has none. Where there is no memory, no number changes.
    pub(crate) fn put(&mut self, id: u32, number: u32) -> Result<(), NoMemory>
        requires none { number_in self.old.table.items self.old.others id ≡ None }
        requires fits { number + 1 < 2 ^ 32 }
        ensures put { OnOk result ((q : ℕ) → number_in self.new.table.items self.new.others q
            ≡ cond (nat_eq id q) (Some number) (number_in self.old.table.items self.old.others q)) }
        ensures same { OnErr result ((q : ℕ) → number_in self.new.table.items self.new.others q
            ≡ number_in self.old.table.items self.old.others q) }
    {
        self.make_room(id, number as usize);
        let place = id as usize;
        if place < self.table.len() {
            self.table[place] = number + 1;
            return Ok(());
        }
        self.others.insert(id, number)?;
        Ok(())
    }

    /// Takes the number of an id away, where it has one.
    pub(crate) fn remove(&mut self, id: u32)
        ensures { (q : ℕ) → number_in self.new.table.items self.new.others q
            ≡ cond (nat_eq id q) None (number_in self.old.table.items self.old.others q) }
    {
        let place = id as usize;
        if place < self.table.len() {
            self.table[place] = 0;
        }
        self.others.remove(&id);
    }
}
