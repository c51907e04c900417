//! Where the numbers of one row lie.
ghost use Rattle.std.specs.Prelude.{◌≡◌, ◌<◌, ◌≤◌, ◌-◌, ◌⊎◌, ℕ, [], true, length, vec_len, vec_capacity, IfOk, OnOk, OnErr};
ghost use Rattle.std.specs.List.{between};
ghost use Rattle.std.specs.List.Sorted.{IsStrictlyIncreasing};
ghost use Rattle.std.specs.Arc.{arc_slice_items};
ghost use Rattle.std.specs.declared.vec.Vec.{Vec};
ghost use Rattle.std.specs.declared.alloc.Global.{Global};
ghost use Rattle.kc_lists.specs.Lists.{member};
ghost use Rattle.kc_graph.specs.Rows.{Deleted};
ghost use Rattle.kc_graph.specs.Blocks.{entries_of, LiesIn, DiffersWithin, IsOwnOrSame, IsShorter};

use crate::NoMemory;
use crate::ascending::{delete_from, delete_within};
use crate::neighbours::Neighbours;
use std::alloc::Global;
use std::mem::replace;
use std::sync::ArcSlice;

/// The numbers of a row: a part of a block, from the place `from` to below `to`, or a list of its own, which a row gets when it grows.
#[derive(Debug, Drop)]
pub(crate) enum Row {
    Part { from: usize, to: usize },
    Own(Vec<u32>),
}

/// The numbers of a block from the place `from` to below `to`.
fn part_of(block: &[u32], from: usize, to: usize) -> &[u32]
    requires ordered { from ≤ to }
    requires within { to ≤ length block.now }
    ensures { result.now ≡ between from to block.now }
{
    &block[from..to]
}

/// A copy of a list, with room for one more.
fn copy_with_room(alloc: Global, list: &[u32]) -> Result<Vec<u32>, NoMemory>
    ensures copy { IfOk result (λ copy. copy.items ≡ list.now) }
    ensures room { IfOk result (λ copy. vec_len copy < vec_capacity copy) }
{
    let mut copy = Vec::with_capacity(alloc, list.len() + 1)?;
    copy.extend_from_slice(list)?;
    Ok(copy)
}

/// Takes a number out of the part of a block from the place `from` to below `to`, which ascends and gets one number shorter. All else
/// in the block stays.
fn delete_in_part(block: &mut [u32], from: usize, to: usize, w: u32)
    requires ordered { from ≤ to }
    requires within { to ≤ length block.old }
    requires ascends { IsStrictlyIncreasing (between from to block.old) }
    requires here { member w (between from to block.old) ≡ true }
    ensures elsewhere { DiffersWithin block.old block.new from to }
    ensures deleted { Deleted (between from to block.old) (between from (to - 1) block.new) w }
{
    let part = &mut block[from..to];
    delete_within(part, w);
}

impl Row {
    /// The numbers of the row.
    pub(crate) fn numbers<'a>(&'a self, block: &'a [u32]) -> &'a [u32]
        requires { LiesIn block.now self.now }
        ensures { result.now ≡ entries_of block.now self.now }
    {
        match self {
            Row::Part { from, to } => part_of(block, *from, *to),
            Row::Own(list) => list,
        }
    }

    /// The numbers as a counted list: a part of the block, or the list where it lies. `NoMemory` comes where there is none for a count, or
    /// where no more holders of the block can be counted.
    pub(crate) fn into_list(self, block: &ArcSlice<u32>) -> Result<Neighbours, NoMemory>
        requires { LiesIn (arc_slice_items block.now) self }
        ensures { IfOk result (λ list. list ≡ entries_of (arc_slice_items block.now) self) }
    {
        match self {
            Row::Part { from, to } => Neighbours::part_of(block, from, to),
            Row::Own(list) => Neighbours::from_vec(list),
        }
    }

    /// Takes out the numbers, as a list with room for one more, and leaves the row empty. Where there is no memory for that, the row keeps
    /// its numbers.
    pub(crate) fn take_with_room(
        &mut self,
        alloc: Global,
        block: &[u32],
    ) -> Result<Vec<u32>, NoMemory>
        requires { LiesIn block.now self.old }
        ensures list { IfOk result (λ list. list.items ≡ entries_of block.now self.old) }
        ensures room { IfOk result (λ list. vec_len list < vec_capacity list) }
        ensures place { IsOwnOrSame self.old self.new }
        ensures ok { OnOk result (entries_of block.now self.new ≡ []) }
        ensures err { OnErr result (entries_of block.now self.new ≡ entries_of block.now self.old) }
    {
        match self {
            Row::Own(list) => {
                list.reserve(1)?;
                Ok(replace(list, Vec::new(alloc)))
            }
            Row::Part { from, to } => {
                let list = copy_with_room(alloc, part_of(block, *from, *to))?;
                *self = Row::Own(Vec::new(alloc));
                Ok(list)
            }
        }
    }

    /// Takes a number out of a row that ascends and has it.
    pub(crate) fn delete(&mut self, block: &mut [u32], w: u32)
        requires lies { LiesIn block.old self.old }
        requires ascends { IsStrictlyIncreasing (entries_of block.old self.old) }
        requires here { member w (entries_of block.old self.old) ≡ true }
        ensures place { IsShorter block.old block.new self.old self.new }
        ensures deleted { Deleted (entries_of block.old self.old) (entries_of block.new self.new) w }
    {
        match self {
            Row::Own(list) => delete_from(list, w),
            Row::Part { from, to } => {
                delete_in_part(block, *from, *to, w);
                *to -= 1;
            }
        }
    }
}
