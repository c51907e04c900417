//! The list over long runs, beside a plain list, and its labels in a few small ones.
ghost use Rattle.std.specs.Prelude.{◌≡◌, ◌<◌, ◌≤◌, ◌+◌, ℕ, length, slice_index, IfOk};
ghost use Rattle.kc_order_tests.specs.declared.plain_lists.TheConstants.{PUTS};

use kc_list::{GROUP_ITEMS, NoMemory, PlainOrder, Write};
use kc_words::{GroupWord, ITEMS, ItemWord, LAST_VERSION, Shape};
use rand::RngExt;
use rand_core::SeedableRng;
use rand_xoshiro::Xoshiro256PlusPlus;
use std::alloc::Global;
use std::process::Abort;

/// The numbers below `len`, in ascending order.
fn numbers(alloc: Global, len: u32) -> Result<Vec<u32>, NoMemory>
    ensures length { IfOk result (λ a. length a.items ≡ len) }
    ensures each { IfOk result (λ a. (k : ℕ) → k < len → slice_index a.items k ≡ k) }
{
    let mut numbers = Vec::new(alloc);
    for x in 0..len {
        numbers.push(x)?;
    }
    Ok(numbers)
}

/// A list of `items` items, of which those below `len` are in it, in ascending order.
fn ascending(alloc: Global, items: u32, len: u32) -> Result<PlainOrder, NoMemory>
    requires some { 1 ≤ items }
    requires few { items ≤ ITEMS }
    requires within { len ≤ items }
    ensures items { IfOk result (λ a. a.items ≡ items) }
    ensures fixed { IfOk result (λ a. a.fixed ≡ 0) }
{
    let order = numbers(alloc, len)?;
    let shape = Shape {
        items,
        fixed: 0,
        base: 0,
        version: 0,
    };
    PlainOrder::open(alloc, shape, order.as_slice())
}

/// `put_after`, with its conditions asserted.
fn put(rt: &impl Abort, order: &mut PlainOrder, x: u32, p: u32)
    requires x_within { x < order.old.items }
    requires p_within { p < order.old.items }
    ensures items { order.new.items ≡ order.old.items }
    ensures fixed { order.new.fixed ≡ order.old.fixed }
{
    assert!(rt; order.present(p));
    assert!(rt; x != p);
    assert!(rt; order.highest() <= LAST_VERSION - 3);
    order.put_after(x, p);
}

/// Puts 1 behind 0, which is alone, and looks at the word.
fn check_middle(rt: &impl Abort, order: &mut PlainOrder)
    requires { order.old.items ≡ 2 }
{
    let first = ItemWord::of(order.word(1));
    put(rt, order, 1, 0);
    assert_eq!(rt; order.writes().len(), 1);
    let write = order.writes()[0];
    let middle = ItemWord {
        version: 1,
        group: first.group,
        bottom: 3_072,
    };
    assert_eq!(rt; (write.word(), ItemWord::of(write.value())), (2, middle));
}

#[test]
fn a_first_put_takes_the_middle_of_the_gap(rt: HostRuntime) {
    let mut order = ascending(rt.alloc(), 2, 1).expect(&rt, "no memory");
    check_middle(&rt, &mut order);
}

/// Looks at the labels of a list that opened with one group.
fn check_opening(rt: &impl Abort, order: &PlainOrder, items: u32, bottom: u32)
    requires some { 1 ≤ items }
    requires few { items ≤ ITEMS }
    requires items { order.now.items ≡ items }
{
    let first = ItemWord::of(order.word(1));
    assert!(rt; 1 <= first.group && first.group <= items + 1);
    let group = GroupWord::of(order.word(items + first.group));
    let opened = (
        first.bottom,
        group.top,
        order.writes().len(),
        order.highest(),
    );
    assert_eq!(rt; opened, (bottom, 137_438_953_472, 0, 0));
}

#[test]
fn a_list_opens_with_even_labels(rt: HostRuntime) {
    let one = ascending(rt.alloc(), 1, 1).expect(&rt, "no memory");
    check_opening(&rt, &one, 1, 2_048);
    let many = ascending(rt.alloc(), 32, 32).expect(&rt, "no memory");
    check_opening(&rt, &many, 32, 124);
}

/// Fills the group of 0 to 31, and puts one item more into it.
fn check_split(rt: &impl Abort, order: &mut PlainOrder)
    requires { order.old.items ≡ 100 }
{
    for x in 32..64 {
        put(rt, order, x, x - 1);
    }
    put(rt, order, 64, 0);
    let writes = order.writes();
    assert_eq!(rt; writes.len(), 34);
    let moved = ItemWord::of(writes[1].value());
    assert_eq!(rt;
        [writes[0].word(), writes[1].word(), writes[33].word()],
        [100 + moved.group, 64, 65]
    );
}

#[test]
fn a_full_group_is_split_from_its_last_item_on(rt: HostRuntime) {
    let mut order = ascending(rt.alloc(), 100, 32).expect(&rt, "no memory");
    check_split(&rt, &mut order);
}

/// Puts all items, each right after 0.
fn put_all_after_0(rt: &impl Abort, order: &mut PlainOrder)
    requires { order.old.items ≡ 100001 }
    ensures { order.new.items ≡ order.old.items }
{
    let mut relabels = Relabels::default();
    for x in 1..100_001 {
        put(rt, order, x, 0);
        relabels.count(rt, 100_001, order.writes());
    }
}

/// The items stand from the last to the first, behind 0.
fn check_reverse(rt: &impl Abort, order: &PlainOrder)
    requires { order.now.items ≡ 100001 }
{
    let mut before = 0;
    for x in (1..100_001).rev() {
        check_neighbours(rt, order, before, x);
        before = x;
    }
}

#[test]
fn puts_after_the_first_item_stand_in_reverse(rt: HostRuntime) {
    let mut order = ascending(rt.alloc(), 100_001, 1).expect(&rt, "no memory");
    put_all_after_0(&rt, &mut order);
    check_reverse(&rt, &order);
}

/// `y` stands right after `x`.
fn check_neighbours(rt: &impl Abort, order: &PlainOrder, x: u32, y: u32)
    requires x_within { x < order.now.items }
    requires y_within { y < order.now.items }
{
    assert!(rt; order.present(x) && order.present(y));
    assert_eq!(rt; (order.after(x), order.before(y)), (Some(y), Some(x)));
    assert!(rt; x != y);
    assert!(rt; order.precedes(x, y) && !order.precedes(y, x));
}

/// How often calls made new labels, and the most writes of one that made none for groups.
#[derive(Clone, Copy, Default, Drop)]
struct Relabels {
    spreads: u64,
    splits: u64,
    respreads: u64,
    most: usize,
}

impl Relabels {
    /// Counts what a call of a list of `items` items wrote. Where it neither splits a group nor
    /// spreads all of them, it writes at most the words of the items of a group.
    fn count(&mut self, rt: &impl Abort, items: u32, writes: &[Write]) {
        let tops = writes.iter().filter(|write| write.word() > items).count();
        if tops > 1 {
            self.respreads = self.respreads.wrapping_add(1);
            return;
        }
        if tops == 1 {
            self.splits = self.splits.wrapping_add(1);
            return;
        }
        assert!(rt; writes.len() <= GROUP_ITEMS);
        if writes.len() > 1 {
            self.spreads = self.spreads.wrapping_add(1);
        }
        self.most = self.most.max(writes.len());
    }
}

/// Where the next item is put: after the first, after the last, or anywhere.
fn choose_place(turn: u32, random: usize, len: usize) -> usize
    requires { 0 < len }
    ensures { result < len }
{
    match turn / 1_000 % 3 {
        0 => 0,
        1 => len - 1,
        _ => random % len,
    }
}

/// Puts or takes `x` in the list and in a plain one.
fn step(
    rt: &impl Abort,
    order: &mut PlainOrder,
    plain: &mut Vec<u32>,
    turn: u32,
    x: u32,
    random: usize,
)
    requires items { order.old.items ≡ 1000 }
    requires fixed { order.old.fixed ≡ 0 }
    requires x_within { x < 1000 }
    ensures items { order.new.items ≡ order.old.items }
    ensures fixed { order.new.fixed ≡ order.old.fixed }
{
    let old = plain.iter().position(|y| *y == x);
    if let Some(at) = old {
        plain.remove(at);
    }
    if old.is_some() && random % 8 == 0 {
        assert!(rt; order.present(x) && order.highest() <= LAST_VERSION - 3);
        order.take(x);
        assert_eq!(rt; order.writes().len(), 1);
        return;
    }
    assert!(rt; plain.len() > 0);
    let at = choose_place(turn, random / 8, plain.len());
    let p = plain[at];
    assert!(rt; p < 1_000);
    plain.insert(at + 1, x).expect(rt, "no memory");
    put(rt, order, x, p);
}

/// Many turns in the list and in a plain one, and what they wrote.
fn take_turns(rt: &impl Abort, order: &mut PlainOrder, plain: &mut Vec<u32>) -> Relabels
    requires items { order.old.items ≡ 1000 }
    requires fixed { order.old.fixed ≡ 0 }
    ensures { order.new.items ≡ order.old.items }
{
    let mut draws = Xoshiro256PlusPlus::seed_from_u64(1);
    let mut relabels = Relabels::default();
    for turn in 0..100_000 {
        let x = draws.random_range(1u32..1_000);
        let random = draws.random::<u32>() as usize;
        step(rt, order, plain, turn, x, random);
        relabels.count(rt, 1_000, order.writes());
    }
    relabels
}

/// The items of the list stand as those of a plain one do, which begins with 0.
fn check_order(rt: &impl Abort, order: &PlainOrder, plain: &[u32])
    requires { order.now.items ≡ 1000 }
{
    let mut before = 0;
    for x in plain.iter().skip(1) {
        assert!(rt; *x < 1_000);
        check_neighbours(rt, order, before, *x);
        before = *x;
    }
}

/// Many turns in both, which spread and split groups.
fn check_turns(rt: &impl Abort, order: &mut PlainOrder, plain: &mut Vec<u32>)
    requires items { order.old.items ≡ 1000 }
    requires fixed { order.old.fixed ≡ 0 }
{
    let relabels = take_turns(rt, order, plain);
    check_order(rt, order, plain);
    assert!(rt; relabels.spreads > 0 && relabels.splits > 0);
    assert_eq!(rt; relabels.most, 64);
}

#[test]
fn the_list_is_a_plain_list(rt: HostRuntime) {
    let mut order = ascending(rt.alloc(), 1_000, 500).expect(&rt, "no memory");
    let mut plain = numbers(rt.alloc(), 500).expect(&rt, "no memory");
    check_turns(&rt, &mut order, &mut plain);
}

/// How many puts after the first item of a group of 32 split it.
const PUTS: u32 = 33;

/// How often the last group is split where the gap above it is small.
const ROUNDS: u32 = 8;

/// Puts so many items from `first` on right after `p`, also in a plain list. Where `p` begins the last group, that is split, and `first`
/// begins the new last one, above which few labels are left.
fn split_after(
    rt: &impl Abort,
    order: &mut PlainOrder,
    plain: &mut Vec<u32>,
    relabels: &mut Relabels,
    first: u32,
    p: u32,
)
    requires items { order.old.items ≡ 1000 }
    requires first_within { first + PUTS ≤ 1000 }
    requires p_within { p < 1000 }
    ensures items { order.new.items ≡ order.old.items }
{
    let at = plain
        .iter()
        .position(|y| *y == p)
        .expect(rt, "no such item");
    for x in first..first + PUTS {
        plain.insert(at + 1, x).expect(rt, "no memory");
        put(rt, order, x, p);
        relabels.count(rt, 1_000, order.writes());
    }
}

/// Splits the last group again and again, and counts what was written.
fn split_the_last(rt: &impl Abort, order: &mut PlainOrder, plain: &mut Vec<u32>) -> Relabels
    requires items { order.old.items ≡ 1000 }
    ensures items { order.new.items ≡ order.old.items }
{
    let mut relabels = Relabels::default();
    let mut p = 0;
    for round in 0..ROUNDS {
        let first = 32 + PUTS * round;
        split_after(rt, order, plain, &mut relabels, first, p);
        p = first;
    }
    relabels
}

/// The last group is split until no label is left above it, so that all groups get new ones.
fn check_respread(rt: &impl Abort, order: &mut PlainOrder, plain: &mut Vec<u32>)
    requires items { order.old.items ≡ 1000 }
{
    let relabels = split_the_last(rt, order, plain);
    check_order(rt, order, plain);
    assert_eq!(rt; (relabels.splits, relabels.respreads), (7, 1));
}

#[test]
fn all_groups_are_spread_where_no_label_is_left_above_a_full_one(rt: HostRuntime) {
    let mut order = ascending(rt.alloc(), 1_000, 32).expect(&rt, "no memory");
    let mut plain = numbers(rt.alloc(), 32).expect(&rt, "no memory");
    check_respread(&rt, &mut order, &mut plain);
}
