//! How many items each group has, and which group numbers are free.
ghost use Rattle.std.specs.Prelude.{◌≡◌, ◌<◌, ◌≤◌, ◌+◌, ◌-◌, ◌^◌, ℕ, length, slice_index, slice_set, IfOk};
ghost use Rattle.kc_list.specs.Tally.{opening_count};

use crate::NoMemory;
use crate::limits::{GROUP_ITEMS, HALF_ITEMS, OPENING_ITEMS};
use kc_words::ITEMS;
use std::alloc::Global;
use std::marker::Model;

/// The sizes of the groups, by group number; those that are 0 are also kept as a stack of free
/// numbers. The groups are numbered from 1, and place 0 says nothing. A size takes one byte: no group has more than `GROUP_ITEMS` items, but
/// for one more while an item moves within it.
#[derive(Drop)]
pub struct Groups {
    sizes: Vec<u8>,
    free: Vec<u32>,
    free_count: usize,
}

impl Model for Groups {
    ghost use Rattle.std.specs.Prelude.{List, ℕ, length, take, ◌≡◌, ◌≤◌, ◌+◌};

    ghost Value = { List ℕ };

    ghost use Rattle.kc_list.specs.Tally.{IsTally};

    ghost view = { λ a. a.sizes.items };

    ghost invariant = { λ a. IsTally a.sizes.items (take a.free_count a.free.items)
        × (a.free_count ≤ length a.free.items)
        × (length a.free.items + 1 ≡ length a.sizes.items) };
}

impl Groups {
    /// The groups of a list of `len` items of which `OPENING_ITEMS` at a time are put
    /// into groups, from group 1 on.
    pub fn open(alloc: Global, items: u32, len: u32) -> Result<Self, NoMemory>
        requires few { items ≤ ITEMS }
        requires within { len ≤ items }
        ensures length { IfOk result (λ a. length a ≡ items + 2) }
        ensures none { IfOk result (λ a. slice_index a 0 ≡ 0) }
        ensures sizes { IfOk result (λ a. (g : ℕ) → 0 < g → g ≤ items + 1
            → slice_index a g ≡ opening_count len g) }
    {
        let mut sizes = vec![in alloc; 0u8; items as usize + 2]?;
        let mut free = vec![in alloc; 0u32; items as usize + 1]?;
        fill_sizes(&mut sizes, len);
        fill_free(&mut free);
        let used = len.div_ceil(OPENING_ITEMS);
        Ok(Groups {
            sizes,
            free,
            free_count: (items + 1 - used) as usize,
        })
    }

    /// How many items a group has.
    pub fn size(&self, group: u32) -> u32
        requires { group < length self.now }
        ensures { result ≡ slice_index self.now group }
    {
        u32::from(self.sizes[group as usize])
    }

    /// An item joins a group that has items.
    pub fn enter(&mut self, group: u32)
        requires within { group < length self.old }
        requires used { 0 < slice_index self.old group }
        requires fits { slice_index self.old group ≤ GROUP_ITEMS }
        ensures { self.new ≡ slice_set self.old group (slice_index self.old group + 1) }
    {
        let size = self.sizes[group as usize];
        self.sizes[group as usize] = size + 1;
    }

    /// An item leaves a group. A group with no items is free.
    pub fn leave(&mut self, group: u32)
        requires low { 0 < group }
        requires within { group < length self.old }
        requires used { 0 < slice_index self.old group }
        ensures { self.new ≡ slice_set self.old group (slice_index self.old group - 1) }
    {
        let size = self.sizes[group as usize];
        self.sizes[group as usize] = size - 1;
        if size == 1 {
            self.free[self.free_count] = group;
            self.free_count += 1;
        }
    }

    /// Half of a full group becomes a group of its own, with a number that was free.
    pub fn split(&mut self, group: u32) -> u32
        requires within { group < length self.old }
        requires full { slice_index self.old group ≡ GROUP_ITEMS }
        requires spare { (h : ℕ) × (0 < h) × (h < length self.old) × (slice_index self.old h ≡ 0) }
        ensures low { 0 < result }
        ensures within { result < length self.old }
        ensures was_free { slice_index self.old result ≡ 0 }
        ensures sizes { self.new ≡ slice_set (slice_set self.old group HALF_ITEMS) result HALF_ITEMS }
    {
        self.free_count -= 1;
        let fresh = self.free[self.free_count];
        self.sizes[group as usize] = HALF_ITEMS as u8;
        self.sizes[fresh as usize] = HALF_ITEMS as u8;
        fresh
    }
}

/// The sizes at the opening, by group number; place 0 stays.
fn fill_sizes(sizes: &mut [u8], len: u32)
    requires { length sizes.old ≤ ITEMS + 2 }
    ensures none { slice_index sizes.new 0 ≡ slice_index sizes.old 0 }
    ensures sizes { (g : ℕ) → 0 < g → g < length sizes.old → slice_index sizes.new g ≡ opening_count len g }
{
    for g in 1..sizes.len() {
        let before = OPENING_ITEMS * (g as u32 - 1);
        sizes[g] = len.saturating_sub(before).min(OPENING_ITEMS) as u8;
    }
}

/// All group numbers, the greatest first.
fn fill_free(free: &mut [u32])
    requires { length free.old ≤ ITEMS + 1 }
    ensures { (i : ℕ) → i < length free.old → slice_index free.new i ≡ length free.old - i }
{
    let count = free.len();
    for i in 0..count {
        free[i] = (count - i) as u32;
    }
}
