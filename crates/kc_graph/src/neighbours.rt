//! Lists of neighbours that several holders share.
//!
//! A list is a part of a block of numbers that is never changed, so that the rows of many vertices can lie in one block.
ghost use Rattle.std.specs.Prelude.{◌≡◌, ◌≤◌, IfOk, length};
ghost use Rattle.std.specs.List.{between};
ghost use Rattle.std.specs.Arc.{arc_slice_items};

use crate::NoMemory;
use std::alloc::Global;
use std::marker::Model;
use std::sync::ArcSlice;

/// The neighbours of a vertex as they were at one moment: a list that is never changed, and that its holders share. A holder more
/// costs a count, and no copy.
#[derive(Debug, Drop)]
pub struct Neighbours {
    block: ArcSlice<u32>,
    from: usize,
    to: usize,
}

impl Model for Neighbours {
    ghost use Rattle.std.specs.Prelude.{◌≤◌, ℕ, List, length};
    ghost use Rattle.std.specs.List.{between};
    ghost use Rattle.std.specs.Coded.{coded_list, coded_ℕ};
    ghost use Rattle.std.specs.Arc.{arc_slice_items};

    ghost Value = { List ℕ };

    ghost coded = { coded_list coded_ℕ };

    ghost view = { λ a. between a.from a.to (arc_slice_items a.block) };

    ghost invariant = { λ a. (a.from ≤ a.to) × (a.to ≤ length (arc_slice_items a.block)) };
}

impl Neighbours {
    /// A list of its own, which lies where the `Vec` kept it.
    pub fn from_vec(items: Vec<u32>) -> Result<Neighbours, NoMemory>
        ensures { IfOk result (λ list. list ≡ items.items) }
    {
        Ok(Neighbours::whole(ArcSlice::from_vec(items)?))
    }

    /// A copy of a list.
    pub fn copy_of(alloc: Global, items: &[u32]) -> Result<Neighbours, NoMemory>
        ensures { IfOk result (λ list. list ≡ items.now) }
    {
        Ok(Neighbours::whole(ArcSlice::from_slice(alloc, items)?))
    }

    /// All of a block.
    fn whole(block: ArcSlice<u32>) -> Neighbours
        ensures { result ≡ arc_slice_items block }
    {
        let to = block.len();
        Neighbours { block, from: 0, to }
    }

    /// The numbers of a block from the place `from` to below `to`. It holds the block too, and copies nothing. `NoMemory` comes where no
    /// more holders can be counted.
    pub(crate) fn part_of(
        block: &ArcSlice<u32>,
        from: usize,
        to: usize,
    ) -> Result<Neighbours, NoMemory>
        requires ordered { from ≤ to }
        requires within { to ≤ length (arc_slice_items block.now) }
        ensures { IfOk result (λ list. list ≡ between from to (arc_slice_items block.now)) }
    {
        let block = block.clone()?;
        Ok(Neighbours { block, from, to })
    }

    /// One holder more of the same list. `NoMemory` comes where no more holders can be counted.
    pub fn share(&self) -> Result<Neighbours, NoMemory>
        ensures { IfOk result (λ list. list ≡ self.now) }
    {
        Neighbours::part_of(&self.block, self.from, self.to)
    }

    /// The list.
    pub fn as_slice(&self) -> &[u32]
        ensures { result.now ≡ self.now }
    {
        &self.block.as_slice()[self.from..self.to]
    }
}
