//! A list that is kept in blocks.
ghost use Rattle.std.specs.Prelude.{◌≡◌, ◌<◌, ◌≤◌, ◌+◌, ◌-◌, ◌^◌, [], length, slice_index, IfOk, OnErr, OnOk};
ghost use Rattle.std.specs.Prelude.{◌++◌};
ghost use Rattle.std.specs.List.{insert};
ghost use Rattle.kc_blocks.specs.Placing.{IsPlaced, all_entries};

use crate::blocks::{BLOCK_ENTRIES, Blocks};
use std::alloc::{AllocError, Global};
use std::marker::Model;

/// A list whose entries lie in blocks of at most `BLOCK_ENTRIES`, one after the other. An entry goes in at any place, and moves no more
/// entries than two blocks have. A list that is no longer than one block has no table, and takes memory as a vector does.
///
/// Contracts see the list of the entries, `items`.
#[derive(Drop)]
pub struct BlockList {
    /// The first block.
    front: Vec<u32>,
    /// The blocks behind it.
    rest: Blocks,
    /// How many entries there are in all.
    len: usize,
}

impl Model for BlockList {
    ghost use Rattle.std.specs.Prelude.{◌≡◌, ◌++◌, ℕ, length};
    ghost use Rattle.kc_blocks.specs.BlockLists.{BlockEntries};
    ghost use Rattle.kc_blocks.specs.Placing.{IsPlaced, all_entries};

    ghost Value = { BlockEntries };

    ghost view = { λ l. record { items = l.front.items ++ all_entries l.rest.blocks.items } };

    ghost invariant = { λ l. (IsPlaced l.rest) × (l.len ≡ length (l.front.items ++ all_entries l.rest.blocks.items)) };
}

impl BlockList {
    /// A list with no entry. It takes no memory.
    pub fn new(alloc: Global) -> BlockList
        ensures { result.items ≡ [] }
    {
        BlockList {
            front: Vec::new(alloc),
            rest: Blocks::new(alloc),
            len: 0,
        }
    }

    /// How many entries there are.
    #[inline]
    pub fn len(&self) -> usize
        ensures { result ≡ length self.now.items }
    {
        self.len
    }

    /// The entry at a place, counted from 0.
    #[inline]
    pub fn get(&self, place: usize) -> u32
        requires { place < length self.now.items }
        ensures { result ≡ slice_index self.now.items place }
    {
        if place < self.front.len() {
            return self.front[place];
        }
        self.rest.get(place - self.front.len())
    }

    /// Puts an entry in at a place, counted from 0; what stood there and behind it stands one place further on. Where there is no memory
    /// for it, the list stays.
    pub fn insert(&mut self, place: usize, x: u32) -> Result<(), AllocError>
        requires { place ≤ length self.old.items }
        ensures ok { OnOk result (self.new.items ≡ insert self.old.items place x) }
        ensures err { OnErr result (self.new.items ≡ self.old.items) }
    {
        let len = more_by_one(self.len)?;
        put(&mut self.front, &mut self.rest, place, x)?;
        self.len = len;
        Ok(())
    }
}

/// Puts an entry in at a place of the list that the first block and those behind it hold. Where it goes into the first and that is full,
/// the last entry there gives way to it.
fn put(front: &mut Vec<u32>, rest: &mut Blocks, place: usize, x: u32) -> Result<(), AllocError>
    requires placed { IsPlaced rest.old }
    requires within { place ≤ length front.old.items + length (all_entries rest.old.blocks.items) }
    requires few { length front.old.items + length (all_entries rest.old.blocks.items) < 2 ^ 64 - 1 }
    ensures placed { IsPlaced rest.new }
    ensures ok { OnOk result (front.new.items ++ all_entries rest.new.blocks.items
        ≡ insert (front.old.items ++ all_entries rest.old.blocks.items) place x) }
    ensures err { OnErr result (front.new.items ++ all_entries rest.new.blocks.items ≡ front.old.items ++ all_entries rest.old.blocks.items) }
{
    let end = front.len();
    if place <= end && end < BLOCK_ENTRIES {
        front.insert(place, x)?;
        return Ok(());
    }
    if place >= end {
        return rest.insert(place - end, x);
    }
    let last = front[end - 1];
    rest.insert(0, last)?;
    front.truncate(end - 1);
    front.insert(place, x)?;
    Ok(())
}

/// The next number; an error where it can't be told.
fn more_by_one(len: usize) -> Result<usize, AllocError>
    ensures next { IfOk result (λ next. next ≡ len + 1) }
    ensures few { OnOk result (len < 2 ^ 64 - 1) }
{
    if len == usize::MAX {
        return Err(AllocError);
    }
    Ok(len + 1)
}
