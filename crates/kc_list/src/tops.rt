//! New labels for all groups, one store after another.
ghost use Rattle.std.specs.Prelude.{◌≡◌, ◌<◌, ◌≤◌, ◌+◌, ℕ, length, slice_index, slice_set, take, map, true};
ghost use Rattle.kc_lists.specs.Lists.{member};
ghost use Rattle.kc_relabel.specs.Labels.{Ascends};
ghost use Rattle.kc_list.specs.Sheets.{ChangesOnly};
ghost use Rattle.kc_list.specs.Views.{top_at, groups_in_use, version_at, evenly};
ghost use Rattle.kc_list.specs.Retops.{IsEvened, IsRaised, MayRetop};
ghost use Rattle.kc_list.specs.Rewriting.{Relabels, StoresWord, SpreadsTops};

use crate::labelled::LabelledList;
use kc_relabel::spread;
use kc_words::{GroupWord, LAST_VERSION, TOP_ROOM};

impl LabelledList {
    /// Writes the word of one group with another label.
    fn retop(&mut self, groups: &[u32], place: u32, label: u64)
        requires groups { groups.now ≡ groups_in_use self.old.links self.old.sheet }
        requires place_in { place < length groups.now }
        requires ascends { Ascends 1 TOP_ROOM (slice_set (map (top_at self.old.links self.old.sheet) groups.now) place label) }
        requires version { version_at self.old.sheet (self.old.links.size + slice_index groups.now place) < LAST_VERSION }
        requires room { length self.old.sheet.writes < self.old.sheet.room }
        ensures groups { groups.now ≡ groups_in_use self.old.links self.new.sheet }
        ensures tops { map (top_at self.old.links self.new.sheet) groups.now ≡
            slice_set (map (top_at self.old.links self.old.sheet) groups.now) place label }
        ensures stores { StoresWord (self.old.links.size + slice_index groups.now place) self.old self.new }
    {
        let number = groups[place as usize];
        let old = self.group(number);
        let new = GroupWord {
            version: old.version + 1,
            top: label,
        };
        self.store_group(number, new);
    }

    /// Gives each group whose label is below that at even distances this label, from the last group to the first.
    fn raise_tops(&mut self, groups: &[u32])
        requires may { MayRetop self.old groups.now }
        ensures raised { IsRaised groups.now self.old self.new }
    {
        let count = groups.len() as u32;
        let mut left = groups.len();
        while left > 0 {
            left -= 1;
            let even = spread(count, TOP_ROOM, left as u32);
            if self.group(groups[left]).top < even {
                self.retop(groups, left as u32, even);
            }
        }
    }

    /// Gives each group whose label is above that at even distances this label, from the first group to the last. The others have been raised.
    fn lower_tops(&mut self, groups: &[u32])
        requires raised { (start : LabelledList) × IsRaised groups.now start self.old }
        ensures evened { (start : LabelledList) → IsRaised groups.now start self.old → IsEvened groups.now start self.new }
    {
        let count = groups.len() as u32;
        for place in 0..groups.len() {
            let even = spread(count, TOP_ROOM, place as u32);
            if even < self.group(groups[place]).top {
                self.retop(groups, place as u32, even);
            }
        }
    }

    /// The groups that are in use, in the order of the list.
    fn collect_groups(&self, into: &mut [u32]) -> usize
        requires room { length self.now.links.list ≤ length into.old }
        ensures groups { take result into.new ≡ groups_in_use self.now.links self.now.sheet }
        ensures within { result ≤ length into.old }
    {
        let mut count = 0;
        let mut last = 0;
        let mut x = self.links.first();
        while x != self.links.size() {
            let group = self.item(x).group;
            if group != last {
                into[count] = group;
                count += 1;
                last = group;
            }
            x = self.links.next(x);
        }
        count
    }

    /// Spreads the labels of the groups evenly.
    fn even_tops(&mut self, groups: &[u32])
        requires may { MayRetop self.old groups.now }
        ensures groups { groups.now ≡ groups_in_use self.old.links self.new.sheet }
        ensures tops { map (top_at self.old.links self.new.sheet) groups.now ≡ evenly (length groups.now) TOP_ROOM }
        ensures only { ChangesOnly (map (λ g. self.old.links.size + g) groups.now) self.old.sheet.words self.new.sheet.words }
        ensures relabels { Relabels (length groups.now) self.old self.new }
    {
        self.raise_tops(groups);
        self.lower_tops(groups);
    }

    /// Spreads the labels of all groups evenly, store by store, with room for the numbers of the groups.
    pub fn spread_tops_in(&mut self, groups: &mut [u32])
        requires groups_room { self.old.links.size ≤ length groups.old }
        requires version { (g : ℕ) → 0 < g → g ≤ self.old.links.size + 1
            → version_at self.old.sheet (self.old.links.size + g) < LAST_VERSION }
        requires room { length self.old.sheet.writes + self.old.links.size ≤ self.old.sheet.room }
        ensures spread { SpreadsTops self.old self.new }
        ensures relabels { Relabels self.old.links.size self.old self.new }
    {
        let count = self.collect_groups(groups);
        self.even_tops(&groups[..count]);
    }
}
