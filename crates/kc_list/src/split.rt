//! A group's upper members get a group of their own.
ghost use Rattle.std.specs.Prelude.{◌≡◌, ◌<◌, ◌≤◌, ◌+◌, ◌++◌, ℕ, length, slice_index, map};
ghost use Rattle.kc_list.specs.Sheets.{ChangesOnly};
ghost use Rattle.kc_list.specs.Views.{AreMembers, KeepsOrder, HaveMoved, IsSpare, IsTopAbove, version_at, ItemsMayRise};
ghost use Rattle.kc_list.specs.Rewriting.{Relabels, StoresWord, Splits};

use crate::cut::Cut;
use crate::labelled::LabelledList;
use kc_relabel::spread;
use kc_words::{BOTTOM_ROOM, GroupWord, ItemWord, LAST_VERSION};

impl LabelledList {
    /// Writes the word of the upper member at a place with its new group and label.
    fn move_up(&mut self, cut: Cut, place: u32)
        requires place_in { place < length cut.ups.now }
        requires waits { HaveMoved self.old.links self.old.sheet cut.group cut.fresh cut.low.now cut.ups.now (place + 1) }
        requires version { version_at self.old.sheet (1 + slice_index cut.ups.now place) < LAST_VERSION }
        requires room { length self.old.sheet.writes < self.old.sheet.room }
        ensures moved { HaveMoved self.old.links self.new.sheet cut.entry.group cut.entry.fresh cut.entry.low.now cut.entry.ups.now place }
        ensures stores { StoresWord (1 + slice_index cut.entry.ups.now place) self.old self.new }
    {
        let y = cut.ups[place as usize];
        let old = self.item(y);
        let label = spread(cut.ups.len() as u32, BOTTOM_ROOM, place);
        let new = ItemWord {
            version: old.version + 1,
            group: cut.fresh,
            bottom: label as u32,
        };
        self.store_item(y, new);
    }

    /// Moves the upper members, from the last to the first.
    fn move_all(&mut self, cut: Cut)
        requires wait { HaveMoved self.old.links self.old.sheet cut.group cut.fresh cut.low.now cut.ups.now (length cut.ups.now) }
        requires version { ItemsMayRise self.old.sheet cut.ups.now }
        requires room { length self.old.sheet.writes + length cut.ups.now ≤ self.old.sheet.room }
        ensures moved { HaveMoved self.old.links self.new.sheet cut.entry.group cut.entry.fresh cut.entry.low.now cut.entry.ups.now 0 }
        ensures only { ChangesOnly (map (λ y. 1 + y) cut.entry.ups.now) self.old.sheet.words self.new.sheet.words }
        ensures groups { (w : ℕ) → self.old.links.size < w
            → slice_index self.new.sheet.words w ≡ slice_index self.old.sheet.words w }
        ensures relabels { Relabels (length cut.entry.ups.now) self.old self.new }
    {
        let mut left = cut.ups.len();
        while left > 0 {
            left -= 1;
            self.move_up(cut, left as u32);
        }
    }

    /// Writes the label of the new group, which no item has yet.
    fn store_top(&mut self, cut: Cut, top: u64)
        requires segment { AreMembers self.old.links self.old.sheet cut.group (cut.low.now ++ cut.ups.now) }
        requires fresh { IsSpare self.old.links self.old.sheet cut.fresh }
        requires top { IsTopAbove self.old.links self.old.sheet cut.group top }
        requires room { length self.old.sheet.writes < self.old.sheet.room }
        ensures wait { HaveMoved self.old.links self.new.sheet cut.entry.group cut.entry.fresh cut.entry.low.now cut.entry.ups.now (length cut.entry.ups.now) }
        ensures steps { KeepsOrder self.old.links self.old.sheet self.new.sheet }
        ensures stores { StoresWord (self.old.links.size + cut.entry.fresh) self.old self.new }
    {
        let old = self.group(cut.fresh);
        let new = GroupWord {
            version: old.version + 1,
            top,
        };
        self.store_group(cut.fresh, new);
    }

    /// Gives the upper members a fresh group with a label of its own.
    pub fn split(&mut self, cut: Cut, top: u64)
        requires segment { AreMembers self.old.links self.old.sheet cut.group (cut.low.now ++ cut.ups.now) }
        requires fresh { IsSpare self.old.links self.old.sheet cut.fresh }
        requires top { IsTopAbove self.old.links self.old.sheet cut.group top }
        requires versions { ItemsMayRise self.old.sheet cut.ups.now }
        requires room { length self.old.sheet.writes + length cut.ups.now < self.old.sheet.room }
        ensures splits { Splits cut.entry.group cut.entry.fresh cut.entry.low.now cut.entry.ups.now self.old self.new }
        ensures relabels { Relabels (length cut.entry.ups.now + 1) self.old self.new }
    {
        self.store_top(cut, top);
        self.move_all(cut);
    }
}
