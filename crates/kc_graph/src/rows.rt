//! The rows of a graph: for each vertex an ascending list of numbers.
//!
//! The rows of a graph that is made in one go lie in one block, one after the other, so that a row costs no memory of its own. A row
//! that grows moves out of the block into a list of its own, where there is room for more. One that gets shorter stays where it is.
ghost use Rattle.std.specs.Prelude.{◌≡◌, ◌≢◌, ◌<◌, ◌≤◌, ◌-◌, ◌+◌, ◌^◌, ◌++◌, ◌∷◌, ℕ, List, [], true, false, length, replicate, vec_len, vec_capacity};
ghost use Rattle.std.specs.Prelude.{slice_set, IfOk, OnOk, OnErr};
ghost use Rattle.std.specs.List.{between, sum_by};
ghost use Rattle.std.specs.List.Sorted.{IsStrictlyIncreasing};
ghost use Rattle.kc_lists.specs.Lists.{member};
ghost use Rattle.kc_graph.specs.Rows.{row, Deleted, IsAdjacency, BothInserted, BothDeleted};
ghost use Rattle.kc_graph.specs.Blocks.{entries_of_each, LieFrom};

use crate::NoMemory;
use crate::ascending::insert_into;
use crate::neighbours::Neighbours;
use crate::row::Row;
use std::alloc::Global;
use std::marker::Model;
use std::sync::ArcSlice;

/// So many rows in a row share a block once they are counted lists: threads that hold the lists of vertices far apart then count their
/// holders at different places, and a block is free once all its lists were replaced.
const ROWS_A_BLOCK: u32 = 64;

/// Rows of numbers.
#[derive(Debug, Drop)]
pub(crate) struct Rows {
    block: Vec<u32>,
    rows: Vec<Row>,
}

impl Model for Rows {
    ghost use Rattle.std.specs.Prelude.{ℕ, List};
    ghost use Rattle.std.specs.Coded.{coded_list, coded_ℕ};
    ghost use Rattle.kc_graph.specs.Blocks.{entries_of_each, LieFrom};

    ghost Value = { List (List ℕ) };

    ghost coded = { coded_list (coded_list coded_ℕ) };

    ghost view = { λ a. entries_of_each a.block.items a.rows.items };

    ghost invariant = { λ a. LieFrom 0 a.block.items a.rows.items };
}

impl Rows {
    /// So many rows without a number.
    pub(crate) fn empty(alloc: Global, count: u32) -> Result<Rows, NoMemory>
        ensures { IfOk result (λ rows. rows ≡ replicate count []) }
    {
        let mut rows = Vec::with_capacity(alloc, count as usize)?;
        for _ in 0..count {
            rows.push(Row::Part { from: 0, to: 0 })?;
        }
        let block = Vec::new(alloc);
        Ok(Rows { block, rows })
    }

    /// Rows that lie in a block.
    pub(crate) fn new(block: Vec<u32>, rows: Vec<Row>) -> Rows
        requires { LieFrom 0 block.items rows.items }
        ensures { result ≡ entries_of_each block.items rows.items }
    {
        Rows { block, rows }
    }

    /// How many rows there are.
    pub(crate) fn count(&self) -> usize
        ensures { result ≡ length self.now }
    {
        self.rows.len()
    }

    /// The numbers of a row.
    pub(crate) fn get(&self, v: u32) -> &[u32]
        requires { v < length self.now }
        ensures { result.now ≡ row self.now v }
    {
        self.rows[v as usize].numbers(&self.block)
    }

    /// Puts a list in place of a row.
    fn put(&mut self, v: u32, list: Vec<u32>)
        requires { v < length self.old }
        ensures { self.new ≡ slice_set self.old v list.items }
    {
        self.rows[v as usize] = Row::Own(list);
    }

    /// Takes out the numbers of a row, as a list with room for one more, and leaves the row empty. Where there is no memory for that, all
    /// rows stay as they were.
    fn take_with_room(&mut self, v: u32) -> Result<Vec<u32>, NoMemory>
        requires { v < length self.old }
        ensures list { IfOk result (λ list. list.items ≡ row self.old v) }
        ensures room { IfOk result (λ list. vec_len list < vec_capacity list) }
        ensures left { OnOk result (self.new ≡ slice_set self.old v []) }
        ensures err { OnErr result (self.new ≡ self.old) }
    {
        let alloc = *self.block.allocator();
        self.rows[v as usize].take_with_room(alloc, &self.block)
    }

    /// Takes a number out of a row that ascends and has it.
    fn delete(&mut self, v: u32, w: u32)
        requires v_in { v < length self.old }
        requires ascends { IsStrictlyIncreasing (row self.old v) }
        requires here { member w (row self.old v) ≡ true }
        ensures { (r : List ℕ) × (self.new ≡ slice_set self.old v r) × Deleted (row self.old v) r w }
    {
        self.rows[v as usize].delete(&mut self.block, w);
    }

    /// Puts each of two numbers into the row of the other. Where there is no memory both rows stay as they were.
    pub(crate) fn insert_both(&mut self, u: u32, v: u32) -> Result<(), NoMemory>
        requires differ { u ≢ v }
        requires u_in { u < length self.old }
        requires v_in { v < length self.old }
        requires adjacency { IsAdjacency self.old }
        requires lacks { member v (row self.old u) ≡ false }
        ensures ok { OnOk result (BothInserted self.old self.new u v) }
        ensures err { OnErr result (self.new ≡ self.old) }
    {
        let mut first = self.take_with_room(u)?;
        match self.take_with_room(v) {
            Ok(mut second) => {
                insert_into(&mut first, v);
                insert_into(&mut second, u);
                self.put(u, first);
                self.put(v, second);
                Ok(())
            }
            Err(none) => {
                self.put(u, first);
                Err(none)
            }
        }
    }

    /// Takes each of two numbers out of the row of the other.
    pub(crate) fn delete_both(&mut self, u: u32, v: u32)
        requires differ { u ≢ v }
        requires u_in { u < length self.old }
        requires v_in { v < length self.old }
        requires adjacency { IsAdjacency self.old }
        requires here { member v (row self.old u) ≡ true }
        ensures { BothDeleted self.old self.new u v }
    {
        self.delete(u, v);
        self.delete(v, u);
    }

    /// Puts one row more behind the others, at the end of the block.
    fn push(&mut self, list: &[u32]) -> Result<(), NoMemory>
        ensures { OnOk result (self.new ≡ self.old ++ list.now ∷ []) }
    {
        let from = self.block.len();
        self.block.extend_from_slice(list)?;
        let to = self.block.len();
        self.rows.push(Row::Part { from, to })?;
        Ok(())
    }

    /// How many numbers the rows from one to below another have together.
    fn numbers_in(&self, from: u32, to: u32) -> usize
        requires { to ≤ length self.now }
    {
        let mut numbers = 0usize;
        for v in from..to {
            numbers = numbers.saturating_add(self.get(v).len());
        }
        numbers
    }

    /// The rows from one to below another once more, all in one block.
    fn copy_part(&self, alloc: Global, from: u32, to: u32) -> Result<Rows, NoMemory>
        requires order { from ≤ to }
        requires within { to ≤ length self.now }
        ensures { IfOk result (λ rows. rows ≡ between from to self.now) }
    {
        let block = Vec::with_capacity(alloc, self.numbers_in(from, to))?;
        let rows = Vec::with_capacity(alloc, (to - from) as usize)?;
        let mut copies = Rows::new(block, rows);
        for v in from..to {
            copies.push(self.get(v))?;
        }
        Ok(copies)
    }

    /// The same rows once more, all in one block.
    pub(crate) fn copy(&self, alloc: Global) -> Result<Rows, NoMemory>
        requires { length self.now < 2 ^ 32 }
        ensures { IfOk result (λ rows. rows ≡ self.now) }
    {
        self.copy_part(alloc, 0, self.count() as u32)
    }

    /// Rows with the numbers of these lists, all in one block.
    pub(crate) fn of_lists(alloc: Global, lists: &[Neighbours]) -> Result<Rows, NoMemory>
        ensures { IfOk result (λ rows. rows ≡ lists.now) }
    {
        let rows = Vec::with_capacity(alloc, lists.len())?;
        let mut copies = Rows::new(Vec::new(alloc), rows);
        for list in lists {
            copies.push(list.as_slice())?;
        }
        Ok(copies)
    }

    /// Puts the rows behind other lists, as counted ones. Those that lie in the block share it, and are not copied. Where there is no
    /// memory, the rows are dropped.
    fn append_to(self, lists: &mut Vec<Neighbours>) -> Result<(), NoMemory>
        ensures { OnOk result (lists.new.items ≡ lists.old.items ++ self) }
    {
        let Rows { block, rows } = self;
        let block = ArcSlice::from_vec(block)?;
        for row in rows {
            lists.push(row.into_list(&block)?)?;
        }
        Ok(())
    }

    /// The rows as counted lists, of which `ROWS_A_BLOCK` in a row share a block.
    pub(crate) fn to_lists(&self) -> Result<Vec<Neighbours>, NoMemory>
        requires { length self.now < 2 ^ 32 }
        ensures { IfOk result (λ lists. lists.items ≡ self.now) }
    {
        let alloc = *self.block.allocator();
        let count = self.count() as u32;
        let mut lists = Vec::with_capacity(alloc, count as usize)?;
        let mut from = 0;
        while from < count {
            let to = from + (count - from).min(ROWS_A_BLOCK);
            self.copy_part(alloc, from, to)?.append_to(&mut lists)?;
            from = to;
        }
        Ok(lists)
    }

    /// How many numbers the rows have together.
    pub(crate) fn entries(&self) -> u64
        requires adjacency { IsAdjacency self.now }
        requires few { length self.now < 2 ^ 32 }
        ensures { result ≡ sum_by length self.now }
    {
        let mut entries = 0;
        for v in 0..self.count() as u32 {
            entries += self.get(v).len() as u64;
        }
        entries
    }
}
