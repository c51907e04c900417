//! Where an item stands, and how it comes to stand elsewhere.
ghost use Rattle.std.specs.Prelude.{◌≡◌, ◌≢◌, ◌<◌, ◌≤◌, ◌+◌, ◌-◌, ◌/◌, length, slice_index, true, IsTrue, ◌↔◌};
ghost use Rattle.kc_lists.specs.Lists.{member, without, right_after};
ghost use Rattle.kc_list.specs.Views.{group_at, bottom_at, FitsAfter, AreSizes, end_after, IsPairBelow, version_at};
ghost use Rattle.kc_list.specs.Rewriting.{HasWay, PutsItem, TakesOut};

use crate::labelled::LabelledList;
use crate::limits::PUT_SHARE;
use kc_links::Links;
use kc_words::{BOTTOM_ROOM, ItemWord, LAST_VERSION};

/// Where the labels of a group end, as an item's word has them.
const BOTTOM_END: u32 = BOTTOM_ROOM as u32;

/// How the puts at one place follow one another, for the choice of a label. It matters for speed alone.
#[derive(Clone, Copy, Drop)]
pub enum Growth {
    /// Each item is put right after the one that was put before it.
    Onwards,
    /// Each item is put right after one and the same.
    Backwards,
    /// Neither.
    Anywhere,
}

/// Takes `x` out where it is in.
fn take_out(links: &mut Links, x: u32, is_in: bool)
    requires { is_in ≡ member x links.old.list }
    ensures size { links.new.size ≡ links.old.size }
    ensures list { links.new.list ≡ without x links.old.list }
{
    if is_in {
        links.remove(x);
    }
}

/// A label of a gap: near one end where the puts are in a row, so that the next ones have room, and else the middle.
pub fn label_between(low: u32, high: u32, growth: Growth) -> u32
    requires gap { low + 2 ≤ high }
    ensures low { low < result }
    ensures high { result < high }
{
    let share = ((high - low) / PUT_SHARE).max(1);
    match growth {
        Growth::Onwards => low + share,
        Growth::Backwards => high - share,
        Growth::Anywhere => low + (high - low) / 2,
    }
}

impl LabelledList {
    /// The room for labels right after `p`, in its group.
    pub fn gap(&self, p: u32) -> (u32, u32)
        requires { member p self.now.links.list ≡ true }
        ensures low { result.0 ≡ bottom_at self.now.links self.now.sheet p }
        ensures high { result.1 ≡ end_after self.now.links self.now.sheet p }
    {
        let here = self.item(p);
        let q = self.links.next(p);
        if q == self.links.size() {
            return (here.bottom, BOTTOM_END);
        }
        let there = self.item(q);
        let end = if there.group == here.group {
            there.bottom
        } else {
            BOTTOM_END
        };
        (here.bottom, end)
    }

    /// Puts `x` right after `p`, with a label of the gap.
    fn put(&mut self, x: u32, p: u32, label: u32)
        requires x_within { x < self.old.links.size }
        requires differ { x ≢ p }
        requires fits { FitsAfter self.old.links self.old.sheet p label }
        requires version { version_at self.old.sheet (1 + x) < LAST_VERSION }
        requires room { length self.old.sheet.writes < self.old.sheet.room }
        ensures puts { PutsItem x p self.old self.new }
        ensures group { group_at self.old.links self.new.sheet x ≡ group_at self.old.links self.old.sheet p }
        ensures groups { self.new.groups ≡ self.old.groups }
    {
        let here = self.item(p);
        let old = self.item(x);
        take_out(&mut self.links, x, old.group != 0);
        self.links.insert_after(x, p);
        let new = ItemWord {
            version: old.version + 1,
            group: here.group,
            bottom: label,
        };
        self.sheet.store(1 + x, new.pack());
    }

    /// Takes `x` out of the list: its word has no group and no label then.
    fn take(&mut self, x: u32)
        requires x_in { member x self.old.links.list ≡ true }
        requires version { version_at self.old.sheet (1 + x) < LAST_VERSION }
        requires room { length self.old.sheet.writes < self.old.sheet.room }
        ensures takes { TakesOut x self.old self.new }
        ensures groups { self.new.groups ≡ self.old.groups }
    {
        let old = self.item(x);
        self.links.remove(x);
        let new = ItemWord {
            version: old.version + 1,
            group: 0,
            bottom: 0,
        };
        self.sheet.store(1 + x, new.pack());
    }

    /// Moves `x` right after `p`, where the group of `p` can take it, with a label of the gap.
    pub fn move_item(&mut self, x: u32, p: u32, label: u32)
        requires x_within { x < self.old.links.size }
        requires differ { x ≢ p }
        requires way { HasWay x p self.old }
        requires fits { FitsAfter self.old.links self.old.sheet p label }
        requires version { version_at self.old.sheet (1 + x) < LAST_VERSION }
        requires room { length self.old.sheet.writes < self.old.sheet.room }
        ensures puts { PutsItem x p self.old self.new }
        ensures tallied { AreSizes self.new.links self.new.sheet self.new.groups }
    {
        let from = self.item(x).group;
        let to = self.item(p).group;
        self.put(x, p, label);
        self.groups.enter(to);
        if from != 0 {
            self.groups.leave(from);
        }
    }

    /// Takes `x` out of the list and out of its group.
    pub fn take_item(&mut self, x: u32)
        requires x_in { member x self.old.links.list ≡ true }
        requires tallied { AreSizes self.old.links self.old.sheet self.old.groups }
        requires version { version_at self.old.sheet (1 + x) < LAST_VERSION }
        requires room { length self.old.sheet.writes < self.old.sheet.room }
        ensures takes { TakesOut x self.old self.new }
        ensures tallied { AreSizes self.new.links self.new.sheet self.new.groups }
    {
        let from = self.item(x).group;
        self.take(x);
        self.groups.leave(from);
    }

    /// Whether the pair of labels of `x` is less than that of `y`.
    pub fn pair_below(&self, x: u32, y: u32) -> bool
        requires x_in { member x self.now.links.list ≡ true }
        requires y_in { member y self.now.links.list ≡ true }
        ensures { IsTrue result ↔ IsPairBelow self.now.links self.now.sheet x y }
    {
        let a = self.item(x);
        let b = self.item(y);
        let s = self.group(a.group).top;
        let t = self.group(b.group).top;
        s < t || s == t && a.bottom < b.bottom
    }
}
