//! Room for new labels of all groups.
ghost use Rattle.std.specs.Prelude.{◌≡◌, ◌<◌, ◌≤◌, ◌+◌, ℕ, length, IfOk};
ghost use Rattle.kc_list.specs.Views.{version_at};
ghost use Rattle.kc_list.specs.Rewriting.{Relabels, SpreadsTops};

use crate::NoMemory;
use crate::labelled::LabelledList;
use kc_words::LAST_VERSION;
use std::alloc::Global;
use std::marker::Model;

/// The memory in which all groups are given new labels. It is taken once, so that a put takes none.
/// Contracts see how many groups it has room for.
#[derive(Drop)]
pub struct GroupRoom {
    groups: Vec<u32>,
}

impl Model for GroupRoom {
    ghost use Rattle.std.specs.Prelude.{ℕ, length};

    ghost Value = { ℕ };

    ghost view = { λ a. length a.groups.items };
}

impl GroupRoom {
    pub fn new(alloc: Global, count: usize) -> Result<Self, NoMemory>
        ensures { IfOk result (λ a. a ≡ count) }
    {
        let groups = vec![in alloc; 0u32; count]?;
        Ok(GroupRoom { groups })
    }

    /// Spreads the labels of all groups evenly, store by store.
    pub fn spread_tops(&mut self, list: &mut LabelledList)
        requires room_here { list.old.links.size ≤ self.old }
        requires version { (g : ℕ) → 0 < g → g ≤ list.old.links.size + 1
            → version_at list.old.sheet (list.old.links.size + g) < LAST_VERSION }
        requires room { length list.old.sheet.writes + list.old.links.size ≤ list.old.sheet.room }
        ensures same_room { self.new ≡ self.old }
        ensures spread { SpreadsTops list.old list.new }
        ensures relabels { Relabels list.old.links.size list.old list.new }
    {
        list.spread_tops_in(&mut self.groups);
    }
}
