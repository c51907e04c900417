//! Room for a label right after an item, in its group.
ghost use Rattle.std.specs.Prelude.{◌≡◌, ◌<◌, ◌≤◌, ◌+◌, length, true};
ghost use Rattle.kc_lists.specs.Lists.{member};
ghost use Rattle.kc_list.specs.Views.{AreSizes, HasSpare, group_at, group_size, HasLabelAfter, IsGapAfter, ItemsHaveSpare, ItemsMayRise};
ghost use Rattle.kc_list.specs.Rewriting.{Rewrites, Relabels, ChangesGroup, HasWay};

use crate::labelled::LabelledList;
use crate::limits::{GROUP_ITEMS, HALF_ITEMS, ITEM_WRITES};
use crate::scratch::GroupRoom;

impl LabelledList {
    /// Spreads the group of `p`.
    fn spread_at(&mut self, p: u32, members: &mut [u32])
        requires p_in { member p self.old.links.list ≡ true }
        requires length { length members.old ≡ GROUP_ITEMS }
        requires size { group_size self.old.links self.old.sheet (group_at self.old.links self.old.sheet p) ≤ GROUP_ITEMS }
        requires version { ItemsMayRise self.old.sheet self.old.links.list }
        requires room { length self.old.sheet.writes + GROUP_ITEMS ≤ self.old.sheet.room }
        ensures gap { HasLabelAfter self.old.links self.new.sheet p }
        ensures change { ChangesGroup (group_at self.old.links self.old.sheet p) self.old self.new }
        ensures relabels { Relabels GROUP_ITEMS self.old self.new }
    {
        let group = self.item(p).group;
        let count = self.gather(p, members);
        self.spread_group(&members[..count], group);
    }

    /// Sees to it that there is a label between `p` and what follows it, and says where the gap begins and ends.
    pub fn make_room(&mut self, p: u32) -> (u32, u32)
        requires p_in { member p self.old.links.list ≡ true }
        requires size { group_size self.old.links self.old.sheet (group_at self.old.links self.old.sheet p) ≤ GROUP_ITEMS }
        requires spare { ItemsHaveSpare GROUP_ITEMS self.old.sheet self.old.links.list }
        ensures gap { HasLabelAfter self.old.links self.new.sheet p }
        ensures change { ChangesGroup (group_at self.old.links self.old.sheet p) self.old self.new }
        ensures kept { HasLabelAfter self.old.links self.old.sheet p → self.new.sheet ≡ self.old.sheet }
        ensures told { IsGapAfter self.new.links self.new.sheet p result.0 result.1 }
        ensures relabels { Relabels GROUP_ITEMS self.old self.new }
    {
        let (low, high) = self.gap(p);
        if low + 2 <= high {
            return (low, high);
        }
        let mut members = [0u32; GROUP_ITEMS];
        self.spread_at(p, &mut members);
        self.gap(p)
    }

    /// Sees to it that `x` can be put right after `p`: the group of `p` can take it, and has a label for it, in the gap that the answer
    /// names.
    pub fn make_way(&mut self, scratch: &mut GroupRoom, x: u32, p: u32) -> (u32, u32)
        requires items { (x < self.old.links.size) × (member p self.old.links.list ≡ true) }
        requires tallied { AreSizes self.old.links self.old.sheet self.old.groups }
        requires scratch { self.old.links.size ≤ scratch.old }
        requires spare { HasSpare (self.old.links.size + ITEM_WRITES) self.old.sheet }
        ensures scratch { scratch.new ≡ scratch.old }
        ensures way { HasWay x p self.new }
        ensures told { IsGapAfter self.new.links self.new.sheet p result.0 result.1 }
        ensures rewrites { Rewrites (self.old.links.size + HALF_ITEMS + 1 + GROUP_ITEMS) self.old self.new }
    {
        self.make_group_room(scratch, x, p);
        self.make_room(p)
    }
}
