//! New labels for the members of a group, one store after another.
ghost use Rattle.std.specs.Prelude.{◌≡◌, ◌<◌, ◌≤◌, ◌+◌, ◌^◌, ℕ, length, slice_index, slice_set, take, map, true};
ghost use Rattle.kc_lists.specs.Lists.{member};
ghost use Rattle.kc_relabel.specs.Labels.{Ascends, written};
ghost use Rattle.kc_list.specs.Sheets.{ChangesOnly};
ghost use Rattle.kc_list.specs.Views.{bottom_at, AreMembers, version_at, ItemsMayRise, evenly};
ghost use Rattle.kc_list.specs.Scheduling.{IsSchedule, SpreadsEvenly};
ghost use Rattle.kc_list.specs.Rewriting.{Relabels, Spreads, StoresWord};

use crate::labelled::LabelledList;
use crate::limits::GROUP_ITEMS;
use kc_relabel::{schedule, spread};
use kc_words::{BOTTOM_ROOM, ItemWord, LAST_VERSION};

/// Labels at even distances.
pub fn even_labels(room: u64, into: &mut [u64])
    requires few { length into.old < 2 ^ 32 }
    requires room { length into.old < room }
    ensures { into.new ≡ evenly (length into.old) room }
{
    let count = into.len();
    for i in 0..count {
        into[i] = spread(count as u32, room, i as u32);
    }
}

/// The steps from labels to as many at even distances. The slices are room for those and for the steps.
pub fn schedule_evenly(room: u64, old: &[u64], even: &mut [u64], steps: &mut [(u32, u64)]) -> usize
    requires even_length { length even.old ≡ length old.now }
    requires steps_length { length steps.old ≡ length old.now }
    requires few { length old.now < 2 ^ 32 }
    requires room { length old.now < room }
    requires ascends { Ascends 1 room old.now }
    ensures spreads { SpreadsEvenly room old.now (take result steps.new) }
    ensures used { result ≤ length steps.old }
{
    even_labels(room, even);
    schedule(old, even, steps)
}

impl LabelledList {
    /// Writes the word of one member with another label.
    fn relabel(&mut self, members: &[u32], group: u32, place: u32, label: u64)
        requires segment { AreMembers self.old.links self.old.sheet group members.now }
        requires place_in { place < length members.now }
        requires ascends { Ascends 1 BOTTOM_ROOM (slice_set (map (bottom_at self.old.links self.old.sheet) members.now) place label) }
        requires version { version_at self.old.sheet (1 + slice_index members.now place) < LAST_VERSION }
        requires room { length self.old.sheet.writes < self.old.sheet.room }
        ensures segment { AreMembers self.old.links self.new.sheet group members.now }
        ensures bottoms { map (bottom_at self.old.links self.new.sheet) members.now ≡
            slice_set (map (bottom_at self.old.links self.old.sheet) members.now) place label }
        ensures stores { StoresWord (1 + slice_index members.now place) self.old self.new }
    {
        let y = members[place as usize];
        let old = self.item(y);
        let new = ItemWord {
            version: old.version + 1,
            group,
            bottom: label as u32,
        };
        self.store_item(y, new);
    }

    /// Writes new labels in the order of a schedule.
    fn relabel_all(&mut self, members: &[u32], group: u32, steps: &[(u32, u64)])
        requires segment { AreMembers self.old.links self.old.sheet group members.now }
        requires schedule { IsSchedule BOTTOM_ROOM (map (bottom_at self.old.links self.old.sheet) members.now) steps.now }
        requires version { ItemsMayRise self.old.sheet members.now }
        requires room { length self.old.sheet.writes + length steps.now ≤ self.old.sheet.room }
        ensures segment { AreMembers self.old.links self.new.sheet group members.now }
        ensures bottoms { map (bottom_at self.old.links self.new.sheet) members.now ≡
            written (map (bottom_at self.old.links self.old.sheet) members.now) steps.now }
        ensures only { ChangesOnly (map (λ y. 1 + y) members.now) self.old.sheet.words self.new.sheet.words }
        ensures relabels { Relabels (length steps.now) self.old self.new }
    {
        for (place, label) in steps {
            self.relabel(members, group, *place, *label);
        }
    }

    /// The labels of the members.
    fn read_labels(&self, members: &[u32], into: &mut [u64])
        requires length { length into.old ≡ length members.now }
        requires within { (y : ℕ) → member y members.now ≡ true → y < self.now.links.size }
        ensures { into.new ≡ map (bottom_at self.now.links self.now.sheet) members.now }
    {
        for i in 0..members.len() {
            into[i] = u64::from(self.item(members[i]).bottom);
        }
    }

    /// The steps that spread the members of a group evenly, with room for the labels.
    fn plan_with(
        &self,
        members: &[u32],
        old: &mut [u64],
        even: &mut [u64],
        steps: &mut [(u32, u64)],
    ) -> usize
        requires old_length { length old.old ≡ length members.now }
        requires even_length { length even.old ≡ length members.now }
        requires steps_length { length steps.old ≡ length members.now }
        requires count { length members.now ≤ GROUP_ITEMS }
        requires within { (y : ℕ) → member y members.now ≡ true → y < self.now.links.size }
        requires ascends { Ascends 1 BOTTOM_ROOM (map (bottom_at self.now.links self.now.sheet) members.now) }
        ensures spreads { SpreadsEvenly BOTTOM_ROOM (map (bottom_at self.now.links self.now.sheet) members.now) (take result steps.new) }
        ensures used { result ≤ length steps.old }
    {
        self.read_labels(members, old);
        schedule_evenly(BOTTOM_ROOM, old, even, steps)
    }

    /// The steps that spread the members of a group evenly.
    fn plan(&self, members: &[u32], steps: &mut [(u32, u64)]) -> usize
        requires steps_length { length steps.old ≡ length members.now }
        requires count { length members.now ≤ GROUP_ITEMS }
        requires within { (y : ℕ) → member y members.now ≡ true → y < self.now.links.size }
        requires ascends { Ascends 1 BOTTOM_ROOM (map (bottom_at self.now.links self.now.sheet) members.now) }
        ensures spreads { SpreadsEvenly BOTTOM_ROOM (map (bottom_at self.now.links self.now.sheet) members.now) (take result steps.new) }
        ensures used { result ≤ length steps.old }
    {
        let count = members.len();
        let mut old = [0u64; GROUP_ITEMS];
        let mut even = [0u64; GROUP_ITEMS];
        self.plan_with(members, &mut old[..count], &mut even[..count], steps)
    }

    /// Spreads the labels of a group evenly, with room for the steps.
    fn spread_by(&mut self, members: &[u32], group: u32, steps: &mut [(u32, u64)])
        requires segment { AreMembers self.old.links self.old.sheet group members.now }
        requires steps_length { length steps.old ≡ length members.now }
        requires count { length members.now ≤ GROUP_ITEMS }
        requires version { ItemsMayRise self.old.sheet members.now }
        requires room { length self.old.sheet.writes + length members.now ≤ self.old.sheet.room }
        ensures spreads { Spreads group members.now self.old self.new }
        ensures relabels { Relabels (length members.now) self.old self.new }
    {
        let used = self.plan(members, steps);
        self.relabel_all(members, group, &steps[..used]);
    }

    /// Spreads the labels of a group evenly.
    pub fn spread_group(&mut self, members: &[u32], group: u32)
        requires segment { AreMembers self.old.links self.old.sheet group members.now }
        requires count { length members.now ≤ GROUP_ITEMS }
        requires version { ItemsMayRise self.old.sheet members.now }
        requires room { length self.old.sheet.writes + length members.now ≤ self.old.sheet.room }
        ensures spreads { Spreads group members.now self.old self.new }
        ensures relabels { Relabels (length members.now) self.old self.new }
    {
        let count = members.len();
        let mut steps = [(0u32, 0u64); GROUP_ITEMS];
        self.spread_by(members, group, &mut steps[..count]);
    }
}
