//! One thread puts and takes without a pause, through splits and new labels of all groups, and another compares meanwhile.
ghost use Rattle.std.specs.Prelude.{◌≡◌, ◌<◌, ◌≤◌, ◌+◌, ◌*◌};

use crate::lists::{ask, opened, put_after_0, take};
use kc_order::{Answer, SharedOrder, Writer};
use kc_table::{Name, Pass, Words, meet, split};
use std::marker::{Brand, PhantomData};
use std::process::Abort;
use std::sync::{Mutex, Wait};
use std::thread;
use std::thread::Threads;

/// The last round. In round k items 2k - 1 and 2k are put right after 0, and then 2k - 1 is taken.
const ROUNDS: u32 = 30_000;

/// A round that is over, with a pass that has seen it.
#[derive(Drop)]
struct Over<K: Name> {
    round: u32,
    pass: Pass,
    of: PhantomData<K>,
    ghost of_table: { pass.table ≡ K.opened.table },
    ghost within: { (0 < round) × (round ≤ 30000) },
}

/// The last round that is over, where nobody has met it yet.
type Newest<K> = Mutex<Option<Over<K>>>;

/// One round.
fn put_and_take<K: Name, R: Wait + Abort>(
    rt: &R,
    shared: &SharedOrder<K>,
    pass: &mut Pass,
    round: u32,
)
    requires table { pass.old.table ≡ K.opened.table }
    requires items { 2 * ROUNDS < K.opened.table.shape.items }
    requires round { (0 < round) × (round ≤ ROUNDS) }
    ensures { pass.new.table ≡ K.opened.table }
{
    let (goes, stays) = (2 * round - 1, 2 * round);
    put_after_0(rt, shared, pass, goes);
    put_after_0(rt, shared, pass, stays);
    take(rt, shared, pass, goes, Ok(()));
}

/// What a round that is over hands to the thread that compares.
fn end_round<K: Name>(shared: &SharedOrder<K>, pass: &mut Pass, round: u32) -> Over<K>
    requires table { pass.old.table ≡ K.opened.table }
    requires round { (0 < round) × (round ≤ ROUNDS) }
    ensures { pass.new.table ≡ K.opened.table }
{
    Over {
        round,
        pass: split(shared.words(), pass),
        of: PhantomData,
    }
}

/// All rounds.
fn put_and_take_all<K: Name, R: Wait + Abort>(
    rt: &R,
    shared: &SharedOrder<K>,
    newest: &Newest<K>,
    mut pass: Pass,
)
    requires table { pass.table ≡ K.opened.table }
    requires items { 2 * ROUNDS < K.opened.table.shape.items }
{
    for round in 1..=ROUNDS {
        put_and_take(rt, shared, &mut pass, round);
        let next = end_round(shared, &mut pass, round);
        *newest.lock(rt) = Some(next);
    }
}

/// Of which round a thread was told, and how many of its comparisons had a sure answer.
#[derive(Clone, Copy, Drop)]
struct Told {
    round: u32,
    sure: u64,
}

impl Told {
    /// Counts an answer, which is the wanted one or `Again`.
    fn check<R: Abort>(&mut self, rt: &R, answer: Answer, wanted: Answer)
        ensures { self.new.round ≡ self.old.round }
    {
        if let Answer::Again(_) = answer {
            return;
        }
        assert_eq!(rt; answer, wanted);
        self.sure = self.sure.saturating_add(1);
    }

    /// Compares items of which the thread was told. Those that stayed stand from the last to the first, and will.
    fn compare<K: Name, R: Abort>(&mut self, rt: &R, shared: &SharedOrder<K>, pass: &mut Pass)
        requires table { pass.old.table ≡ K.opened.table }
        requires items { 2 * ROUNDS < K.opened.table.shape.items }
        requires round { (0 < self.old.round) × (self.old.round ≤ ROUNDS) }
        ensures table { pass.new.table ≡ K.opened.table }
        ensures round { self.new.round ≡ self.old.round }
    {
        let (last, middle) = (2 * self.round, 2 * self.round.div_ceil(2));
        self.check(rt, shared.precedes(pass, 0, last), Answer::Before);
        self.check(rt, shared.precedes(pass, 2, 0), Answer::After);
        let taken = Answer::Absent { item: last - 1 };
        ask(rt, shared, pass, last - 1, 0, taken);
        if middle < last {
            self.check(rt, shared.precedes(pass, last, middle), Answer::Before);
            self.check(rt, shared.precedes(pass, middle, last), Answer::After);
        }
    }

    /// Takes in a round that is over, if there is one.
    fn learn<K: Name>(&mut self, shared: &SharedOrder<K>, pass: &mut Pass, newest: Option<Over<K>>)
        requires table { pass.old.table ≡ K.opened.table }
        requires round { self.old.round ≤ ROUNDS }
        ensures table { pass.new.table ≡ K.opened.table }
        ensures round { self.new.round ≤ ROUNDS }
    {
        if let Some(over) = newest {
            let Over {
                round,
                pass: other,
                ..
            } = over;
            meet(shared.words(), pass, other);
            self.round = round;
        }
    }
}

/// An item that may be put at this very moment is out, or behind 0.
fn compare_what_is_put<K: Name, R: Abort>(
    rt: &R,
    shared: &SharedOrder<K>,
    pass: &mut Pass,
    item: u32,
)
    requires table { pass.old.table ≡ K.opened.table }
    requires item { (0 < item) × (item < K.opened.table.shape.items) }
    ensures { pass.new.table ≡ K.opened.table }
{
    let answer = shared.precedes(pass, 0, item);
    assert!(rt; answer != Answer::After && answer != Answer::Same);
}

/// Compares until the last round is over. What was told is checked at each answer.
fn compare_all<K: Name, R: Wait + Abort>(
    rt: &R,
    shared: &SharedOrder<K>,
    newest: &Newest<K>,
    mut pass: Pass,
)
    requires table { pass.table ≡ K.opened.table }
    requires items { 2 * ROUNDS + 2 < K.opened.table.shape.items }
{
    let mut told = Told { round: 0, sure: 0 };
    for _ in rt.forever() {
        let next = newest.lock(rt).take();
        told.learn(shared, &mut pass, next);
        if told.round > 0 {
            told.compare(rt, shared, &mut pass);
            compare_what_is_put(rt, shared, &mut pass, 2 * told.round + 2);
        }
        if told.round == ROUNDS {
            break;
        }
    }
    compare_at_rest(rt, shared, pass, told);
}

/// After the last store of all, each answer is sure.
fn compare_at_rest<K: Name, R: Abort>(
    rt: &R,
    shared: &SharedOrder<K>,
    mut pass: Pass,
    mut told: Told,
)
    requires table { pass.table ≡ K.opened.table }
    requires items { 2 * ROUNDS < K.opened.table.shape.items }
    requires round { told.round ≤ ROUNDS }
{
    assert!(rt; told.round == ROUNDS);
    told.sure = 0;
    told.compare(rt, shared, &mut pass);
    assert_eq!(rt; told.sure, 4);
}

fn race<K: Name + Send + Sync, R: Threads + Wait + Abort + Sync>(
    rt: &R,
    words: Words,
    writer: Writer,
    mut pass: Pass,
)
    requires table { (words ≡ K.opened.table) × (writer.table ≡ K.opened.table) × (pass.table ≡ K.opened.table) }
    requires shape { (2 * ROUNDS + 2 < K.opened.table.shape.items) × (K.opened.table.shape.fixed ≡ 0) }
{
    let shared = &SharedOrder::<K>::new(words, writer);
    let newest = &Mutex::new(None);
    let other = split(shared.words(), &mut pass);
    thread::join(
        rt,
        move ||
            requires { (pass.table ≡ K.opened.table) × (2 * ROUNDS + 2 < K.opened.table.shape.items) }
        { compare_all(rt, shared, newest, pass) },
        move ||
            requires { (other.table ≡ K.opened.table) × (2 * ROUNDS + 2 < K.opened.table.shape.items) }
        { put_and_take_all(rt, shared, newest, other) },
    );
}

#[test]
fn sure_answers_beneath_puts_and_takes_are_right(rt: HostRuntime) {
    let (words, writer, pass) = opened(&rt, 2 * ROUNDS + 3, &[0]);
    race::<Brand, _>(&rt, words, writer, pass);
}
