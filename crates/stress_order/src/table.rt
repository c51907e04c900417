//! One table: a thread that changes its list, some that compare, and a comparison of the whole list at the end.
ghost use Rattle.std.specs.Prelude.{◌≡◌, ◌≤◌, ◌<◌};
ghost use Rattle.stress_order.specs.declared.rounds.TheConstants.{ITEMS};

use crate::board::{Board, open_board, pass_of};
use crate::changing::Changer;
use crate::comparing::{Found, compare_told};
use crate::rounds::{ITEMS, ROUNDS};
use crate::wrong::Wrong;
use kc_list::PlainOrder;
use kc_order::{Answer, NoMemory, SharedOrder, Writer};
use kc_table::{Name, Pass, Words, split};
use kc_words::Shape;
use std::alloc::Global;
use std::marker::Brand;
use std::sync::Wait;
use std::thread;
use std::thread::Threads;

/// What was done.
#[derive(Clone, Copy, Default, Drop)]
pub(crate) struct Counted {
    pub(crate) tables: u64,
    pub(crate) stores: u64,
    pub(crate) comparisons: u64,
    pub(crate) sure: u64,
}

impl Counted {
    /// Adds what was done besides.
    pub(crate) fn add(&mut self, other: Counted) {
        self.tables = self.tables.saturating_add(other.tables);
        self.stores = self.stores.saturating_add(other.stores);
        self.comparisons = self.comparisons.saturating_add(other.comparisons);
        self.sure = self.sure.saturating_add(other.sure);
    }

    /// Adds what one thread has found, and gives what is wrong of it.
    fn add_found(&mut self, found: Found) -> Option<Wrong> {
        self.comparisons = self.comparisons.saturating_add(found.comparisons);
        self.sure = self.sure.saturating_add(found.sure);
        found.wrong
    }
}

/// A list none of whose items is a vertex.
const SHAPE: Shape = Shape {
    items: ITEMS,
    fixed: 0,
    base: 0,
    version: 0,
};

/// An item of the list of one thread and the next one are in this order in the shared one, where nothing is stored any more.
fn next_differs<K: Name>(
    shared: &SharedOrder<K>,
    pass: &mut Pass,
    plain: &PlainOrder,
    first: u32,
) -> Option<Wrong>
    requires table { pass.old.table ≡ K.opened.table }
    requires items { (plain.now.items ≡ ITEMS) × (K.opened.table.shape.items ≡ ITEMS) }
    requires first { first < ITEMS }
    ensures { pass.new.table ≡ K.opened.table }
{
    if !plain.present(first) {
        return None;
    }
    let second = plain.after(first)?;
    if second >= ITEMS {
        return None;
    }
    match shared.precedes(pass, first, second) {
        Answer::Before => None,
        answer => Some(Wrong::Answered {
            told: ROUNDS,
            first,
            second,
            answer,
        }),
    }
}

/// What is wrong of the shared list at rest, beside the list of one thread.
fn differs<K: Name>(shared: &SharedOrder<K>, mut pass: Pass, plain: &PlainOrder) -> Option<Wrong>
    requires table { pass.table ≡ K.opened.table }
    requires items { (plain.now.items ≡ ITEMS) × (K.opened.table.shape.items ≡ ITEMS) }
{
    for first in 0..ITEMS {
        let wrong = next_differs(shared, &mut pass, plain, first);
        if wrong.is_some() {
            return wrong;
        }
    }
    None
}

/// Adds up what the threads have found.
fn add_all(found: &[Found], counted: &mut Counted) -> Option<Wrong> {
    let mut wrong = None;
    for one in found {
        let own = counted.add_found(*one);
        if wrong.is_none() {
            wrong = own;
        }
    }
    wrong
}

/// One thread changes the list that was opened, while so many others compare.
fn race<K: Name + Send + Sync, R: Threads + Wait + Sync>(
    rt: &R,
    alloc: Global,
    opened: (Words, Writer, Pass),
    plain: PlainOrder,
    seed: u64,
    others: u32,
) -> Result<(Counted, Option<Wrong>), NoMemory>
    requires table { (opened.0 ≡ K.opened.table) × (opened.1.table ≡ K.opened.table) × (opened.2.table ≡ K.opened.table) }
    requires shape { (K.opened.table.shape.items ≡ ITEMS) × (K.opened.table.shape.fixed ≡ 0) }
    requires plain { (plain.items ≡ ITEMS) × (plain.fixed ≡ 0) }
{
    let (words, writer, mut pass) = opened;
    let shared = &SharedOrder::<K>::new(words, writer);
    let own = split(shared.words(), &mut pass);
    let board = &open_board::<K>(pass);
    let changer = Changer::<K>::new(own, plain, seed);
    let (found, (changer, refused)) = thread::join(
        rt,
        move ||
            requires { K.opened.table.shape.items ≡ ITEMS }
        { compare_by_all(rt, alloc, shared, board, seed, others) },
        move || changer.change(rt, shared, board),
    );
    let mut counted = Counted {
        tables: 1,
        stores: changer.stores,
        comparisons: 0,
        sure: 0,
    };
    let answered = add_all(&found?, &mut counted);
    let pass = pass_of(rt, shared, board);
    let differs = differs(shared, pass, &changer.into_plain());
    Ok((counted, refused.or(answered).or(differs)))
}

/// So many threads compare, each with numbers of its own.
fn compare_by_all<K: Name + Send + Sync, R: Threads + Wait + Sync>(
    rt: &R,
    alloc: Global,
    shared: &SharedOrder<K>,
    board: &Board<K>,
    seed: u64,
    others: u32,
) -> Result<Vec<Found>, NoMemory>
    requires { K.opened.table.shape.items ≡ ITEMS }
{
    thread::map_indices(
        rt,
        alloc,
        others as usize,
        &|index: usize|
            requires { K.opened.table.shape.items ≡ ITEMS }
        {
            compare_told(
                rt,
                shared,
                board,
                seed.wrapping_mul(64).wrapping_add(index as u64),
            )
        },
    )
}

/// A table of its own, with so many threads in all.
pub(crate) fn work_table<R: Threads + Wait + Sync>(
    rt: &R,
    alloc: Global,
    seed: u64,
    threads: u32,
) -> Result<(Counted, Option<Wrong>), NoMemory> {
    let opened = Writer::open(alloc, SHAPE, &[0], &[])?;
    let plain = PlainOrder::open(alloc, SHAPE, &[0])?;
    race::<Brand, _>(rt, alloc, opened, plain, seed, threads.saturating_sub(1))
}
