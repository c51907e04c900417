//! Comparisons beneath puts, takes, splits and new labels, on one thread.
ghost use Rattle.std.specs.Prelude.{◌≡◌, ◌<◌, ◌≤◌, ℕ, true};
ghost use Rattle.kc_lists.specs.Lists.{Distinct, member};
ghost use Rattle.kc_words.specs.declared.layout.TheConstants.{ITEMS};

use kc_order::{Answer, OrderFault, SharedOrder, Writer, first_collect, second_collect};
use kc_table::{Name, Pass, Words};
use kc_words::{Again, LAST_VERSION, Shape};
use std::marker::Brand;
use std::process::Abort;
use std::sync::Wait;

/// A list of `items` items of which none is a vertex.
pub(crate) const fn plain(items: u32) -> Shape
    requires low { 1 ≤ items }
    requires high { items ≤ ITEMS }
    ensures { (result.items ≡ items) × (result.fixed ≡ 0) }
{
    Shape {
        items,
        fixed: 0,
        base: 0,
        version: 0,
    }
}

/// A table of `items` items whose list is `order`, with its writer and a first pass.
pub(crate) fn opened<R: Abort + AllocGlobal>(
    rt: &R,
    items: u32,
    order: &[u32],
) -> (Words, Writer, Pass)
    requires low { 1 ≤ items }
    requires high { items ≤ ITEMS }
    requires distinct { Distinct order.now }
    requires within { (x : ℕ) → member x order.now ≡ true → x < items }
    ensures shape { (result.0.shape.items ≡ items) × (result.0.shape.fixed ≡ 0) }
    ensures tables { (result.1.table ≡ result.0) × (result.2.table ≡ result.0) }
{
    Writer::open(rt.alloc(), plain(items), order, &[]).expect(rt, "no memory")
}

/// A put of a writer, where the list and the versions allow it.
fn put<R: Abort>(rt: &R, words: &Words, writer: &mut Writer, x: u32, p: u32)
    requires table { writer.old.table ≡ words.now }
    requires free { words.now.shape.fixed ≡ 0 }
    ensures { writer.new.table ≡ writer.old.table }
{
    let items = kc_table::shape(words).items;
    assert!(rt; x < items && p < items && x != p);
    assert!(rt; writer.present(p) && writer.highest() <= LAST_VERSION - 3);
    writer.put_after(words, x, p);
}

/// The first half of a full group.
pub(crate) const HALF: [u32; 32] = [
    0, 1, 2, 3, 4, 5, 6, 7, 8, 9, 10, 11, 12, 13, 14, 15, 16, 17, 18, 19, 20, 21, 22, 23, 24, 25,
    26, 27, 28, 29, 30, 31,
];

/// Puts the second half of a full group, and tells the pass.
fn fill<R: Abort>(rt: &R, words: &Words, writer: &mut Writer, pass: &mut Pass)
    requires table { (writer.old.table ≡ words.now) × (pass.old.table ≡ words.now) }
    requires free { words.now.shape.fixed ≡ 0 }
    ensures { (writer.new.table ≡ words.now) × (pass.new.table ≡ words.now) }
{
    for x in 32..64 {
        put(rt, words, writer, x, x - 1);
    }
    writer.tell(words, pass);
}

/// The word by which a comparison of 63 with 0 learns that 64 was put after 0 beneath it.
fn changed_beneath<R: Abort>(
    rt: &R,
    words: &Words,
    writer: &mut Writer,
    pass: &mut Pass,
) -> Option<Again>
    requires table { (writer.old.table ≡ words.now) × (pass.old.table ≡ words.now) }
    requires shape { (words.now.shape.items ≡ 100) × (words.now.shape.fixed ≡ 0) }
{
    let Ok(collect) = first_collect(words, pass, 63, 0) else {
        return None;
    };
    put(rt, words, writer, 64, 0);
    writer.tell(words, pass);
    match second_collect(words, pass, collect) {
        Answer::Again(again) => Some(again),
        _ => None,
    }
}

/// The same in a list of 100 items, of which 0 to 63 are in it, in ascending order and in one group.
fn changed_word<R: Abort + AllocGlobal>(rt: &R) -> Option<Again> {
    let (words, mut writer, mut pass) = opened(rt, 100, &HALF);
    fill(rt, &words, &mut writer, &mut pass);
    changed_beneath(rt, &words, &mut writer, &mut pass)
}

#[test]
fn a_split_beneath_a_comparison_is_noticed(rt: HostRuntime) {
    let again = changed_word(&rt).expect(
        &rt,
        "both are in the list, and item 63 moved to another group",
    );
    assert_eq!(rt; again.word, 64);
    assert!(rt; again.first != again.second);
}

/// A comparison that has this answer.
pub(crate) fn ask<K: Name, R: Abort>(
    rt: &R,
    shared: &SharedOrder<K>,
    pass: &mut Pass,
    x: u32,
    y: u32,
    wanted: Answer,
)
    requires table { pass.old.table ≡ K.opened.table }
    requires items { (x < K.opened.table.shape.items) × (y < K.opened.table.shape.items) }
    ensures { pass.new.table ≡ K.opened.table }
{
    assert_eq!(rt; shared.precedes(pass, x, y), wanted);
}

/// A put right after 0, which is in the list.
pub(crate) fn put_after_0<K: Name, R: Wait + Abort>(
    rt: &R,
    shared: &SharedOrder<K>,
    pass: &mut Pass,
    x: u32,
)
    requires table { pass.old.table ≡ K.opened.table }
    requires item { (0 < x) × (x < K.opened.table.shape.items) }
    ensures { pass.new.table ≡ K.opened.table }
{
    assert_eq!(rt; shared.put_after(rt, pass, x, 0), Ok(()));
}

/// A take that ends so.
pub(crate) fn take<K: Name, R: Wait + Abort>(
    rt: &R,
    shared: &SharedOrder<K>,
    pass: &mut Pass,
    x: u32,
    wanted: Result<(), OrderFault>,
)
    requires table { pass.old.table ≡ K.opened.table }
    requires item { x < K.opened.table.shape.items }
    ensures { pass.new.table ≡ K.opened.table }
{
    assert_eq!(rt; shared.take(rt, pass, x), wanted);
}

/// Each of the first five of a short list stands before the next.
fn ask_each_pair<K: Name, R: Abort>(rt: &R, shared: &SharedOrder<K>, pass: &mut Pass)
    requires table { pass.old.table ≡ K.opened.table }
    requires items { K.opened.table.shape.items ≡ 6 }
    ensures { pass.new.table ≡ K.opened.table }
{
    for k in 0..4 {
        ask(rt, shared, pass, k, k + 1, Answer::Before);
        ask(rt, shared, pass, k + 1, k, Answer::After);
    }
}

/// A take of the last of a short list, which is absent then, and a second one, which finds it so.
fn take_the_last<K: Name, R: Wait + Abort>(rt: &R, shared: &SharedOrder<K>, pass: &mut Pass)
    requires table { pass.old.table ≡ K.opened.table }
    requires items { K.opened.table.shape.items ≡ 6 }
    ensures { pass.new.table ≡ K.opened.table }
{
    let absent = OrderFault::Absent { item: 5 };
    take(rt, shared, pass, 5, Ok(()));
    ask(rt, shared, pass, 0, 5, Answer::Absent { item: 5 });
    take(rt, shared, pass, 5, Err(absent));
}

/// Row by row: one item, a take, and the rest of a short list.
fn ask_a_short_list<K: Name, R: Wait + Abort>(rt: &R, shared: &SharedOrder<K>, pass: &mut Pass)
    requires table { pass.old.table ≡ K.opened.table }
    requires items { K.opened.table.shape.items ≡ 6 }
{
    ask(rt, shared, pass, 3, 3, Answer::Same);
    take_the_last(rt, shared, pass);
    ask_each_pair(rt, shared, pass);
    put_after_0(rt, shared, pass, 5);
    ask(rt, shared, pass, 5, 1, Answer::Before);
}

/// A short list, and what is asked of it.
fn share_a_short_list<K: Name, R: Wait + Abort>(
    rt: &R,
    words: Words,
    writer: Writer,
    mut pass: Pass,
)
    requires table { (words ≡ K.opened.table) × (writer.table ≡ K.opened.table) × (pass.table ≡ K.opened.table) }
    requires shape { (K.opened.table.shape.items ≡ 6) × (K.opened.table.shape.fixed ≡ 0) }
{
    let shared = SharedOrder::<K>::new(words, writer);
    ask_a_short_list(rt, &shared, &mut pass);
}

#[test]
fn a_taken_item_is_absent_and_the_others_stand_as_they_did(rt: HostRuntime) {
    let (words, writer, pass) = opened(&rt, 6, &[0, 1, 2, 3, 4, 5]);
    share_a_short_list::<Brand, _>(&rt, words, writer, pass);
}

const MANY: u32 = 100_000;

/// Puts 1, 2 and so on, each right after 0, so that they stand from the last put to the first.
fn put_each_after_0<K: Name, R: Wait + Abort>(rt: &R, shared: &SharedOrder<K>, pass: &mut Pass)
    requires table { pass.old.table ≡ K.opened.table }
    requires items { MANY < K.opened.table.shape.items }
    ensures { pass.new.table ≡ K.opened.table }
{
    for x in 1..=MANY {
        put_after_0(rt, shared, pass, x);
    }
}

/// Each item stands right before the one that was put before it, and the first before the last.
fn ask_a_long_list<K: Name, R: Abort>(rt: &R, shared: &SharedOrder<K>, pass: &mut Pass)
    requires table { pass.old.table ≡ K.opened.table }
    requires items { MANY < K.opened.table.shape.items }
{
    ask(rt, shared, pass, 0, MANY, Answer::Before);
    for x in 1..MANY {
        ask(rt, shared, pass, x + 1, x, Answer::Before);
    }
}

/// A long list, and what is asked of it.
fn share_a_long_list<K: Name, R: Wait + Abort>(rt: &R, words: Words, writer: Writer, mut pass: Pass)
    requires table { (words ≡ K.opened.table) × (writer.table ≡ K.opened.table) × (pass.table ≡ K.opened.table) }
    requires shape { (MANY < K.opened.table.shape.items) × (K.opened.table.shape.fixed ≡ 0) }
{
    let shared = SharedOrder::<K>::new(words, writer);
    put_each_after_0(rt, &shared, &mut pass);
    ask_a_long_list(rt, &shared, &mut pass);
}

#[test]
fn many_puts_after_the_first_item_stand_from_the_last_to_the_first(rt: HostRuntime) {
    let (words, writer, pass) = opened(&rt, MANY + 1, &[0]);
    share_a_long_list::<Brand, _>(&rt, words, writer, pass);
}
