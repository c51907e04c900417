//! The list of one thread, with the writes that its words need.
ghost use Rattle.std.specs.Prelude.{◌≡◌, ◌≢◌, ◌<◌, ◌≤◌, ◌+◌, ◌*◌, ◌↔◌, ℕ, length, slice_index, true, [], IfOk, MatchOption, IsTrue};
ghost use Rattle.kc_words.specs.ItemWord.{item_of};
ghost use Rattle.kc_lists.specs.Lists.{member, Distinct, without, right_after, next_of, prev_of, place_of};
ghost use Rattle.kc_words.specs.Order.{labels, Ordered, PairBelow};
ghost use Rattle.kc_list.specs.Sheets.{version, highest_of};
ghost use Rattle.kc_list.specs.Plain.{Plain, Written};

use crate::NoMemory;
use crate::groups::Groups;
use crate::labelled::LabelledList;
use crate::limits::ITEM_WRITES;
use crate::opening::{link, opening_words};
use crate::place::{Growth, label_between};
use crate::scratch::GroupRoom;
use crate::sheet::Sheet;
use crate::write::Write;
use kc_words::{LAST_VERSION, Shape};
use std::alloc::Global;
use std::marker::Model;

/// A list of items, any two of which are compared by their labels with constant work (Dietz and
/// Sleator, 1987). The labels are in words, as a shared table has them, and each call says by which
/// writes, one after another, the words become what they are now.
///
/// Items are numbers below `items`. Those below `fixed` are in the list from its opening on, and
/// stay. Item `x` has word `1 + x` and group `g`, which is from 1 to `items + 1`, has word
/// `items + g`. The words have versions of 26 bits, which count the writes to them.
#[derive(Drop)]
pub struct PlainOrder {
    list: LabelledList,
    scratch: GroupRoom,
    fixed: u32,
    last: LastPut,
}

/// The put before this one, by which puts in a row are known: which item it put, and after which.
/// Nothing but the choice of a label depends on it.
#[derive(Clone, Copy, Drop)]
struct LastPut {
    item: u32,
    after: u32,
}

impl LastPut {
    /// How a put right after `p` follows this one.
    fn growth(self, p: u32) -> Growth {
        if p == self.item {
            Growth::Onwards
        } else if p == self.after {
            Growth::Backwards
        } else {
            Growth::Anywhere
        }
    }
}

impl Model for PlainOrder {
    ghost use Rattle.kc_list.specs.Plain.{Plain};

    ghost Value = { Plain };

    ghost use Rattle.kc_list.specs.Plain.{IsBetweenCalls};

    ghost view = { λ a. record {
      items = a.list.links.size;
      fixed = a.fixed;
      words = a.list.sheet.words;
      list = a.list.links.list;
      writes = a.list.sheet.writes;
    } };

    ghost invariant = { λ a. IsBetweenCalls a.list.links.size a.fixed a.list.links.list a.list.sheet a.list.groups a.scratch };
}

impl PlainOrder {
    /// A list with the items of `order`, in that order. It takes all memory that later calls need.
    pub fn open(alloc: Global, shape: Shape, order: &[u32]) -> Result<Self, NoMemory>
        requires distinct { Distinct order.now }
        requires within { (x : ℕ) → member x order.now ≡ true → x < shape.items }
        requires fixed_in { (x : ℕ) → x < shape.fixed → member x order.now ≡ true }
        ensures items { IfOk result (λ a. a.items ≡ shape.items) }
        ensures fixed { IfOk result (λ a. a.fixed ≡ shape.fixed) }
        ensures list { IfOk result (λ a. a.list ≡ order.now) }
        ensures writes { IfOk result (λ a. a.writes ≡ []) }
        ensures versions { IfOk result (λ a. (w : ℕ) → 1 ≤ w → w ≤ 2 * shape.items + 1
            → version a.words w ≡ shape.version) }
        ensures highest { IfOk result (λ a. highest_of a.words ≡ shape.version) }
        ensures ordered { IfOk result (λ a. Ordered shape.items a.words order.now) }
        ensures long { IfOk result (λ a. length a.words ≡ 2 * shape.items + 2) }
        ensures note { IfOk result (λ a. slice_index a.words 0 ≡ 0) }
    {
        let links = link(alloc, shape.items, order)?;
        let words = opening_words(alloc, shape.items, shape.version, order)?;
        let sheet = Sheet::open(
            alloc,
            words,
            shape.version,
            shape.items as usize + ITEM_WRITES,
        )?;
        let groups = Groups::open(alloc, shape.items, order.len() as u32)?;
        let scratch = GroupRoom::new(alloc, shape.items as usize)?;
        Ok(PlainOrder {
            list: LabelledList {
                links,
                sheet,
                groups,
            },
            scratch,
            fixed: shape.fixed,
            last: LastPut {
                item: shape.items,
                after: shape.items,
            },
        })
    }

    /// The value of an item's or a group's word.
    pub fn word(&self, word: u32) -> u64
        requires low { 1 ≤ word }
        requires high { word ≤ 2 * self.now.items + 1 }
        ensures { result ≡ slice_index self.now.words word }
    {
        self.list.sheet.word(word)
    }

    /// What the last call wrote, in order; nothing after the opening.
    pub fn writes(&self) -> &[Write]
        ensures { result.now ≡ self.now.writes }
    {
        self.list.sheet.writes()
    }

    /// Moves or adds `x` right after `p`.
    ///
    /// An `x` in the list counts as an item of its old group until its own write, which is the last.
    /// No word is written more than once, but for that of `x`, which is written at most twice.
    pub fn put_after(&mut self, x: u32, p: u32)
        requires p_in { member p self.old.list ≡ true }
        requires x_within { x < self.old.items }
        requires differ { x ≢ p }
        requires versions { highest_of self.old.words + 3 ≤ LAST_VERSION }
        ensures items { self.new.items ≡ self.old.items }
        ensures fixed { self.new.fixed ≡ self.old.fixed }
        ensures list { self.new.list ≡ right_after x p (without x self.old.list) }
        ensures written { Written self.old.items self.old.list self.new.list x
            self.old.words self.new.words self.new.writes }
        ensures once { (w : ℕ) → w ≢ 1 + x → version self.new.words w ≤ version self.old.words w + 1 }
        ensures twice { version self.new.words (1 + x) ≤ version self.old.words (1 + x) + 2 }
        ensures highest { highest_of self.new.words ≤ highest_of self.old.words + 2 }
    {
        self.list.sheet.clear();
        let (low, high) = self.list.make_way(&mut self.scratch, x, p);
        let label = label_between(low, high, self.last.growth(p));
        self.list.move_item(x, p, label);
        self.last = LastPut { item: x, after: p };
    }

    /// Takes `x` out, by one write.
    pub fn take(&mut self, x: u32)
        requires x_in { member x self.old.list ≡ true }
        requires free { self.old.fixed ≤ x }
        requires versions { highest_of self.old.words + 3 ≤ LAST_VERSION }
        ensures items { self.new.items ≡ self.old.items }
        ensures fixed { self.new.fixed ≡ self.old.fixed }
        ensures list { self.new.list ≡ without x self.old.list }
        ensures written { Written self.old.items self.old.list self.new.list x
            self.old.words self.new.words self.new.writes }
        ensures single { length self.new.writes ≡ 1 }
        ensures highest { highest_of self.new.words ≤ highest_of self.old.words + 1 }
        ensures out { item_of (slice_index self.new.words (1 + x))
            ≡ record { version = version self.old.words (1 + x) + 1; group = 0; bottom = 0 } }
    {
        self.list.sheet.clear();
        self.list.take_item(x);
    }

    /// Whether `x` stands before `y`.
    pub fn precedes(&self, x: u32, y: u32) -> bool
        requires x_in { member x self.now.list ≡ true }
        requires y_in { member y self.now.list ≡ true }
        requires differ { x ≢ y }
        ensures by_list { IsTrue result ↔ (place_of x self.now.list < place_of y self.now.list) }
        ensures by_labels { IsTrue result ↔ PairBelow (labels self.now.items self.now.words) x y }
    {
        self.list.pair_below(x, y)
    }

    /// Whether `x` is in the list.
    pub fn present(&self, x: u32) -> bool
        requires { x < self.now.items }
        ensures { IsTrue result ↔ (member x self.now.list ≡ true) }
    {
        self.list.item(x).group != 0
    }

    /// What stands right before `x`; `None` where `x` is the first.
    pub fn before(&self, x: u32) -> Option<u32>
        requires { member x self.now.list ≡ true }
        ensures { MatchOption result (prev_of self.now.items x self.now.list ≡ self.now.items)
            (λ y. (y ≡ prev_of self.now.items x self.now.list) × (member y self.now.list ≡ true)) }
    {
        let before = self.list.links.prev(x);
        if before == self.list.links.size() {
            None
        } else {
            Some(before)
        }
    }

    /// What stands right after `x`; `None` where `x` is the last.
    pub fn after(&self, x: u32) -> Option<u32>
        requires { member x self.now.list ≡ true }
        ensures { MatchOption result (next_of self.now.items x self.now.list ≡ self.now.items)
            (λ y. (y ≡ next_of self.now.items x self.now.list) × (member y self.now.list ≡ true)) }
    {
        let next = self.list.links.next(x);
        if next == self.list.links.size() {
            None
        } else {
            Some(next)
        }
    }

    /// The greatest version of any item's or group's word.
    pub fn highest(&self) -> u32
        ensures value { result ≡ highest_of self.now.words }
        ensures greatest { (w : ℕ) → version self.now.words w ≤ result }
        ensures reached { (w : ℕ) × (1 ≤ w) × (w ≤ 2 * self.now.items + 1)
            × (version self.now.words w ≡ result) }
    {
        self.list.sheet.highest()
    }
}
