//! A full group becomes two.
ghost use Rattle.std.specs.Prelude.{◌≡◌, ◌<◌, ◌≤◌, ◌+◌, ℕ, length, true};
ghost use Rattle.kc_lists.specs.Lists.{member};
ghost use Rattle.kc_list.specs.Places.{Halved};
ghost use Rattle.kc_list.specs.Views.{group_at, top_at, end_above, version_at, HasRoomAbove, HasSpare, ItemsMayRise};
ghost use Rattle.kc_list.specs.Views.{AreGroupMembers, AreMembers, AreSizes, IsFull, IsSpare};
ghost use Rattle.kc_list.specs.Rewriting.{Rewrites, Relabels, Halves, KeepsItems, Divides, MakesRoom};

use crate::cut::Cut;
use crate::labelled::LabelledList;
use crate::limits::{GROUP_ITEMS, HALF_ITEMS, SPLIT_SHARE};
use crate::scratch::GroupRoom;
use kc_words::{LAST_VERSION, TOP_ROOM};

/// The half of a full group in which an item is put next.
#[derive(Clone, Copy, Drop)]
enum Half {
    Lower,
    Upper,
}

/// The half of the members of a full group in which `p` stands. It matters for speed alone.
fn half_of(p: u32, members: &[u32]) -> Half
    requires { length members.now ≡ GROUP_ITEMS }
{
    let lower = &members[..HALF_ITEMS as usize];
    if lower.contains(&p) {
        Half::Lower
    } else {
        Half::Upper
    }
}

impl LabelledList {
    /// The label of a group whose last member is `last`, and where the gap above it ends.
    fn top_gap(&self, group: u32, last: u32) -> (u64, u64)
        requires last_in { member last self.now.links.list ≡ true }
        requires group { group_at self.now.links self.now.sheet last ≡ group }
        ensures low { result.0 ≡ top_at self.now.links self.now.sheet group }
        ensures high { result.1 ≡ end_above self.now.links self.now.sheet last }
    {
        let low = self.group(group).top;
        let next = self.links.next(last);
        if next == self.links.size() {
            return (low, TOP_ROOM);
        }
        let after = self.item(next).group;
        (low, self.group(after).top)
    }

    /// A label of the gap above a group. Puts in a row, the most frequent kind, go on at the place of the
    /// put that splits the group: the label stands near the lower end where the new group grows, and near
    /// the upper end where the old one does.
    fn top_between(&self, group: u32, last: u32, grows: Half) -> u64
        requires last_in { member last self.now.links.list ≡ true }
        requires group { group_at self.now.links self.now.sheet last ≡ group }
        requires gap { top_at self.now.links self.now.sheet group + 2 ≤ end_above self.now.links self.now.sheet last }
        ensures low { top_at self.now.links self.now.sheet group < result }
        ensures high { result < end_above self.now.links self.now.sheet last }
    {
        let (low, high) = self.top_gap(group, last);
        let share = ((high - low) / SPLIT_SHARE).max(1);
        match grows {
            Half::Lower => high - share,
            Half::Upper => low + share,
        }
    }

    /// Splits a full group, one half of which grows.
    fn split_full(&mut self, members: &[u32], group: u32, fresh: u32, grows: Half)
        requires length { length members.now ≡ GROUP_ITEMS }
        requires segment { AreMembers self.old.links self.old.sheet group members.now }
        requires fresh { IsSpare self.old.links self.old.sheet fresh }
        requires gap { HasRoomAbove self.old.links self.old.sheet group }
        requires version { ItemsMayRise self.old.sheet self.old.links.list }
        requires room { length self.old.sheet.writes + GROUP_ITEMS ≤ self.old.sheet.room }
        ensures halves { Halves group fresh members.now self.old self.new }
        ensures relabels { Relabels (HALF_ITEMS + 1) self.old self.new }
    {
        let top = self.top_between(group, members[GROUP_ITEMS - 1], grows);
        let low = &members[..HALF_ITEMS as usize];
        let ups = &members[HALF_ITEMS as usize..];
        let cut = Cut {
            group,
            fresh,
            low,
            ups,
        };
        self.split(cut, top);
    }

    /// Splits the full group of `p`, which has these members.
    fn split_at(&mut self, p: u32, fresh: u32, members: &[u32])
        requires members { AreGroupMembers self.old.links self.old.sheet p members.now }
        requires fresh { IsSpare self.old.links self.old.sheet fresh }
        requires gap { HasRoomAbove self.old.links self.old.sheet (group_at self.old.links self.old.sheet p) }
        requires version { ItemsMayRise self.old.sheet self.old.links.list }
        requires room { length self.old.sheet.writes + GROUP_ITEMS ≤ self.old.sheet.room }
        ensures halved { Halved self.old.links.size self.old.sheet.words self.new.sheet.words self.old.links.list
            (group_at self.old.links self.old.sheet p) fresh p }
        ensures relabels { Relabels (HALF_ITEMS + 1) self.old self.new }
    {
        let group = self.item(p).group;
        let grows = half_of(p, members);
        self.split_full(members, group, fresh, grows);
    }

    /// Sees to it that there is a top label between the full group of `p`, which has these members, and what follows it.
    fn make_top_room(&mut self, scratch: &mut GroupRoom, p: u32, members: &[u32])
        requires members { AreGroupMembers self.old.links self.old.sheet p members.now }
        requires scratch { self.old.links.size ≤ scratch.old }
        requires version { (w : ℕ) → version_at self.old.sheet w < LAST_VERSION }
        requires room { length self.old.sheet.writes + self.old.links.size ≤ self.old.sheet.room }
        ensures scratch { scratch.new ≡ scratch.old }
        ensures gap { HasRoomAbove self.old.links self.new.sheet (group_at self.old.links self.new.sheet p) }
        ensures kept { KeepsItems self.old self.new }
        ensures relabels { Relabels self.old.links.size self.old self.new }
    {
        let group = self.item(p).group;
        let (low, high) = self.top_gap(group, members[GROUP_ITEMS - 1]);
        if low + 2 <= high {
            return;
        }
        scratch.spread_tops(self);
    }

    /// Splits the full group of `p`, with new labels for all groups before it where they stand too close.
    fn split_group(&mut self, scratch: &mut GroupRoom, p: u32)
        requires full { IsFull self.old.links self.old.sheet p }
        requires tallied { AreSizes self.old.links self.old.sheet self.old.groups }
        requires scratch { self.old.links.size ≤ scratch.old }
        requires spare { HasSpare (self.old.links.size + GROUP_ITEMS) self.old.sheet }
        ensures scratch { scratch.new ≡ scratch.old }
        ensures divides { Divides p self.old self.new }
        ensures rewrites { Rewrites (self.old.links.size + HALF_ITEMS + 1) self.old self.new }
    {
        let mut members = [0u32; GROUP_ITEMS];
        self.gather(p, &mut members);
        self.make_top_room(scratch, p, &members);
        let group = self.item(p).group;
        let fresh = self.groups.split(group);
        self.split_at(p, fresh, &members);
    }

    /// Sees to it that the group of `p` can take `x`. An `x` of that group leaves it as large as it is.
    pub fn make_group_room(&mut self, scratch: &mut GroupRoom, x: u32, p: u32)
        requires p_in { member p self.old.links.list ≡ true }
        requires x_within { x < self.old.links.size }
        requires tallied { AreSizes self.old.links self.old.sheet self.old.groups }
        requires scratch { self.old.links.size ≤ scratch.old }
        requires spare { HasSpare (self.old.links.size + GROUP_ITEMS) self.old.sheet }
        ensures scratch { scratch.new ≡ scratch.old }
        ensures room { MakesRoom x p self.old self.new }
        ensures rewrites { Rewrites (self.old.links.size + HALF_ITEMS + 1) self.old self.new }
    {
        let here = self.item(p).group;
        if (self.groups.size(here) as usize) < GROUP_ITEMS {
            return;
        }
        let (low, high) = self.gap(p);
        if self.item(x).group == here && low + 2 <= high {
            return;
        }
        self.split_group(scratch, p);
    }
}
