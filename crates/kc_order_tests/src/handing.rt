//! One thread puts and hands over what it has seen, and another compares.
ghost use Rattle.std.specs.Prelude.{◌≡◌, ◌<◌, ◌≤◌};

use crate::lists::{opened, put_after_0};
use kc_order::{Answer, SharedOrder, Writer};
use kc_table::{Name, Pass, Words, meet, split};
use std::alloc::Global;
use std::collections::VecDeque;
use std::marker::{Brand, PhantomData};
use std::process::Abort;
use std::sync::{Mutex, Wait};
use std::thread;
use std::thread::Threads;

/// How many items are put, each right after 0.
const PUTS: u32 = 10_000;

/// An item that was put, with a pass that has seen it.
#[derive(Drop)]
struct Handed<K: Name> {
    item: u32,
    pass: Pass,
    of: PhantomData<K>,
    ghost of_table: { pass.table ≡ K.opened.table },
    ghost within: { item ≤ 10000 },
}

/// The items that were put and not yet met, the oldest first.
type Waiting<K> = Mutex<VecDeque<Handed<K>>>;

/// Puts an item, and hands it over.
fn put_one<K: Name, R: Wait + Abort>(
    rt: &R,
    shared: &SharedOrder<K>,
    waiting: &Waiting<K>,
    pass: &mut Pass,
    item: u32,
)
    requires table { pass.old.table ≡ K.opened.table }
    requires items { PUTS < K.opened.table.shape.items }
    requires item { (0 < item) × (item ≤ PUTS) }
    ensures { pass.new.table ≡ K.opened.table }
{
    put_after_0(rt, shared, pass, item);
    let next = Handed {
        item,
        pass: split(shared.words(), pass),
        of: PhantomData,
    };
    assert!(rt; waiting.lock(rt).push_back(next).is_ok());
}

/// Puts all items.
fn put_all<K: Name, R: Wait + Abort>(
    rt: &R,
    shared: &SharedOrder<K>,
    waiting: &Waiting<K>,
    mut pass: Pass,
)
    requires table { pass.table ≡ K.opened.table }
    requires items { PUTS < K.opened.table.shape.items }
{
    for item in 1..=PUTS {
        put_one(rt, shared, waiting, &mut pass, item);
    }
}

/// Meets what was handed over, and compares 0 with its item. The item is in the list and behind 0.
fn meet_one<K: Name, R: Abort>(rt: &R, shared: &SharedOrder<K>, pass: &mut Pass, next: Handed<K>)
    requires table { pass.old.table ≡ K.opened.table }
    requires items { PUTS < K.opened.table.shape.items }
    ensures { pass.new.table ≡ K.opened.table }
{
    let Handed {
        item,
        pass: other,
        ..
    } = next;
    meet(shared.words(), pass, other);
    let answer = shared.precedes(pass, 0, item);
    assert!(rt;
        matches!(answer, Answer::Before | Answer::Again(_)),
        "{answer:?}"
    );
}

/// Meets what is handed over until nothing more will come.
fn meet_all<K: Name, R: Wait + Abort>(
    rt: &R,
    shared: &SharedOrder<K>,
    waiting: &Waiting<K>,
    mut pass: Pass,
)
    requires table { pass.table ≡ K.opened.table }
    requires items { PUTS < K.opened.table.shape.items }
{
    let mut met = 0;
    for _ in rt.forever() {
        if met == PUTS {
            break;
        }
        let Some(next) = waiting.lock(rt).pop_front() else {
            thread::yield_now();
            continue;
        };
        meet_one(rt, shared, &mut pass, next);
        met += 1;
    }
}

fn put_and_meet<K: Name + Send + Sync, R: Threads + Wait + Abort + Sync>(
    rt: &R,
    alloc: Global,
    words: Words,
    writer: Writer,
    mut pass: Pass,
)
    requires table { (words ≡ K.opened.table) × (writer.table ≡ K.opened.table) × (pass.table ≡ K.opened.table) }
    requires shape { (PUTS < K.opened.table.shape.items) × (K.opened.table.shape.fixed ≡ 0) }
{
    let shared = &SharedOrder::<K>::new(words, writer);
    let waiting = &Mutex::new(VecDeque::new(alloc));
    let other = split(shared.words(), &mut pass);
    thread::join(
        rt,
        move ||
            requires { (pass.table ≡ K.opened.table) × (PUTS < K.opened.table.shape.items) }
        { meet_all(rt, shared, waiting, pass) },
        move ||
            requires { (other.table ≡ K.opened.table) × (PUTS < K.opened.table.shape.items) }
        { put_all(rt, shared, waiting, other) },
    );
}

#[test]
fn an_item_of_which_a_thread_was_told_is_never_absent_and_never_turned(rt: HostRuntime) {
    let (words, writer, pass) = opened(&rt, PUTS + 1, &[0]);
    put_and_meet::<Brand, _>(&rt, rt.alloc(), words, writer, pass);
}
