//! Steps on real tables: what one pass is told another can load, and what a thread loads while another stores never goes back.
ghost use Rattle.std.specs.Prelude.{◌≡◌, ◌<◌, ◌≤◌, []};
ghost use mathlib.Core.List.{IsPrefix};
ghost use Rattle.kc_order_tests.specs.Lone.{lone_shape, lone_words};

use kc_table::{Pass, Words, WriterSeat, load, meet, open, shape, split, store, tell};
use kc_words::{GroupWord, Shape, TOP_ROOM};
use std::test::Fail;
use std::thread;
use std::thread::Threads;

/// An item in group 1 whose label is the middle of the group's room, and a group whose label is the middle of the room of groups.
const MIDDLE_ITEM: u64 = 6_144;

const MIDDLE_GROUP: u64 = 137_438_953_472;

/// A put of item 1 right after item 0: the note, and then the item's word.
const PUT_NOTE: u64 = 9_223_372_039_002_259_456;

const PUT_ITEM: u64 = 274_877_914_112;

#[test]
fn a_told_pass_and_one_split_from_it_load_what_was_stored(rt: HostRuntime) -> Result<(), Fail> {
    let pair = Shape {
        items: 2,
        fixed: 0,
        base: 0,
        version: 0,
    };
    let opening = [0, MIDDLE_ITEM, 0, MIDDLE_GROUP, 0, 0];
    let (words, mut seat, mut pass) = open(rt.alloc(), pair, opening.to_vec(rt.alloc())?)?;
    store(&words, &mut seat, 0, PUT_NOTE);
    store(&words, &mut seat, 2, PUT_ITEM);
    tell(&words, &mut seat, &mut pass);
    let told = load(&words, &mut pass, 2);
    let mut other = split(&words, &mut pass);
    let note = load(&words, &mut other, 0);
    meet(&words, &mut pass, other);
    let opened = load(&words, &mut pass, 1);
    assert_eq!(rt; [told, note, opened], [PUT_ITEM, PUT_NOTE, MIDDLE_ITEM]);
    assert_eq!(rt; shape(&words).items, 2);
    Ok(())
}

const STEPS: u32 = 20_000;

/// Stores the word of the one item's group again and again, with a version more each time.
fn store_many(words: &Words, mut seat: WriterSeat)
    requires table { seat.table ≡ words.now }
    requires lone { (words.now.shape ≡ lone_shape) × (words.now.opening ≡ lone_words 0) }
    requires fresh { seat.log ≡ [] }
{
    for stored in 0..STEPS {
        let word = GroupWord {
            version: stored + 1,
            top: TOP_ROOM / 2,
        };
        store(words, &mut seat, 2, word.pack());
    }
}

/// Loads that word again and again, and says whether its value never fell.
fn load_many(words: &Words, mut pass: Pass) -> (bool, u64)
    requires table { pass.table ≡ words.now }
    requires lone { words.now.shape ≡ lone_shape }
{
    let mut never_fell = true;
    let mut last = 0;
    for _ in 0..STEPS {
        let value = load(words, &mut pass, 2);
        never_fell = never_fell && last <= value;
        last = value;
    }
    (never_fell, last)
}

fn one_stores_and_one_loads<R: Threads + Sync>(
    rt: &R,
    words: &Words,
    seat: WriterSeat,
    pass: Pass,
) -> (bool, u64)
    requires table { (seat.table ≡ words.now) × (pass.table ≡ words.now) }
    requires lone { (words.now.shape ≡ lone_shape) × (words.now.opening ≡ lone_words 0) }
    requires fresh { seat.log ≡ [] }
{
    let (_, loaded) = thread::join(
        rt,
        move ||
            requires { (seat.table ≡ words.now) × (words.now.shape ≡ lone_shape) × (words.now.opening ≡ lone_words 0) × (seat.log ≡ []) }
        { store_many(words, seat) },
        move || -> (bool, u64)
            requires { (pass.table ≡ words.now) × (words.now.shape ≡ lone_shape) }
        { load_many(words, pass) },
    );
    loaded
}

#[test]
fn loads_of_one_thread_never_go_back_under_stores_of_another(rt: HostRuntime) -> Result<(), Fail> {
    let lone = Shape {
        items: 1,
        fixed: 0,
        base: 0,
        version: 0,
    };
    let opening = [0, MIDDLE_ITEM, MIDDLE_GROUP, 0];
    let (words, seat, pass) = open(rt.alloc(), lone, opening.to_vec(rt.alloc())?)?;
    let (never_fell, last) = one_stores_and_one_loads(&rt, &words, seat, pass);
    assert!(rt; never_fell);
    assert!(rt; last >= TOP_ROOM / 2);
    Ok(())
}
