//! An update that another worker overtakes before each of its first tries.
ghost use Rattle.std.specs.Prelude.{◌≡◌, ◌<◌};

use crate::worker_runs::{addition, assert_entered, enter, hired, two_edges};
use kc_graph::Update;
use kc_shared::{Missed, Parts, Shared};
use kc_table::{Name, Pass, shape, split};
use kc_workers::{Assignment, Done, Gate, NoGate, Worker, Workplace, update};
use std::alloc::Global;
use std::marker::Brand;
use std::process::Abort;
use std::sync::ledger::{Blank, Ledger, Share};
use std::sync::{Mutex, Wait};

/// What the other worker keeps from one call of the gate to the next.
#[derive(Drop)]
struct Other<K: Name + Ledger> {
    worker: Worker,
    part: Share<K>,
    calls: u32,
    ghost table: { worker.table ≡ K.opened.table },
    ghost parts: { part.parts ≡ 1 },
}

/// A gate that removes and adds the edge between 0 and 1 in turn, at its first so many calls.
#[derive(Drop)]
struct Meddling<'a, K: Name + Ledger, R: Wait> {
    rt: &'a R,
    alloc: Global,
    shared: &'a Shared<K>,
    most: u32,
    other: Mutex<Other<K>>,
}

impl<K: Name + Ledger, R: Wait> Gate for Meddling<'_, K, R> {
    fn before_enter(&self, _worker: u32, _index: u32) {
        let mut other = self.other.lock(self.rt);
        let Other {
            worker,
            part,
            calls,
        } = &mut *other;
        if *calls < self.most && shape(&self.shared.words).fixed > 1 {
            let workplace = Workplace {
                shared: self.shared,
                gate: &NoGate,
                alloc: self.alloc,
            };
            let turn = Assignment {
                worker: 1,
                index: 3,
                update: Update {
                    add: *calls % 2 == 1,
                    u: 0,
                    v: 1,
                },
            };
            *calls += 1;
            let _ = update(self.rt, workplace, worker, part, turn);
        }
    }
}

/// The gate of another worker, which takes one of two parts, and has seen what the pass has.
fn gate_of<'a, K: Name + Ledger, R: Wait + Abort + AllocGlobal>(
    rt: &'a R,
    shared: &'a Shared<K>,
    part: Share<K>,
    pass: Pass,
    most: u32,
) -> Meddling<'a, K, R>
    requires table { pass.table ≡ K.opened.table }
    requires part { part.parts ≡ 1 }
{
    let worker = hired(rt, &shared.words, pass);
    Meddling {
        rt,
        alloc: rt.alloc(),
        shared,
        most,
        other: Mutex::new(Other {
            worker,
            part,
            calls: 0,
        }),
    }
}

/// Adds the edge between 0 and 2 past a gate.
fn enter_past<K: Name + Ledger, G: Gate, R: Wait + Abort + AllocGlobal>(
    rt: &R,
    shared: &Shared<K>,
    part: &mut Share<K>,
    pass: Pass,
    gate: &G,
) -> Done
    requires table { pass.table ≡ K.opened.table }
    requires part { 0 < part.old.parts }
    ensures { part.new.parts ≡ part.old.parts }
{
    let mut worker = hired(rt, &shared.words, pass);
    let workplace = Workplace {
        shared,
        gate,
        alloc: rt.alloc(),
    };
    enter(rt, workplace, &mut worker, part, addition(0, 0, 2))
}

/// Adds the edge between 0 and 2 while another worker, which takes one of the two parts, enters an update before each of the first so many
/// tries.
fn enter_beside<K: Name + Ledger, R: Wait + Abort + AllocGlobal>(
    rt: &R,
    shared: &Shared<K>,
    part: &mut Share<K>,
    mut pass: Pass,
    most: u32,
) -> Done
    requires table { pass.table ≡ K.opened.table }
    requires two { part.old.parts ≡ 2 }
    ensures { part.new.parts ≡ 2 }
{
    let theirs = split(&shared.words, &mut pass);
    let gate = gate_of(rt, shared, part.split_off(1, 0), theirs, most);
    let done = enter_past(rt, shared, part, pass, &gate);
    let other = gate.other.into_inner();
    assert_eq!(rt; other.calls, most);
    part.merge(other.part);
    done
}

/// The same in a run that nobody else has a part of.
fn enter_meddled<K: Name + Ledger, R: Wait + Abort + AllocGlobal>(
    rt: &R,
    parts: Parts,
    blank: Blank,
    pass: Pass,
    most: u32,
) -> (Done, Parts)
    requires words { (parts.words ≡ K.opened.table) × (pass.table ≡ K.opened.table) }
    requires opened { (parts.journal.opened ≡ K.opened.edges) × (parts.journal.opening_stamps ≡ K.opened.stamps) }
    requires started { parts.journal.started ≡ K.start_edges }
    requires now { (parts.journal.levels.log ≡ K.log) × (parts.journal.entries ≡ K.entries) }
    requires ledger { (blank.name ≡ K.name) × (blank.parts ≡ K.parts) }
    requires two { K.parts ≡ 2 }
{
    let (shared, mut part) = match Shared::<K>::new(rt.alloc(), parts, blank) {
        Ok(shared) => shared,
        Err(_) => panic!(rt; "no memory"),
    };
    let done = enter_beside(rt, &shared, &mut part, pass, most);
    (done, shared.into_parts(part))
}

/// The same in a run on two edges.
fn meddled_run<R: Wait + Abort + AllocGlobal>(rt: &R, most: u32) -> (Done, Parts) {
    let (parts, pass) = two_edges(rt);
    enter_meddled::<Brand, R>(rt, parts, Blank::new(2), pass, most)
}

/// The run has so many entries, and these edge stamps.
fn assert_run<R: Abort>(rt: &R, parts: &Parts, entries: usize, stamps: &[u32]) {
    let journal = &parts.journal;
    let left = (journal.entries().len(), journal.edge_stamps().as_slice());
    assert_eq!(rt; left, (entries, stamps));
}

/// The miss of a plan that has read the list of vertex 0 under this number.
fn overtaken(used: u32) -> Missed
    requires { used < 4 }
{
    Missed::Stale {
        vertex: 0,
        edges: true,
        used,
        now: used + 1,
    }
}

#[test]
fn an_update_is_entered_under_the_lock_after_four_misses(rt: HostRuntime) {
    let (done, parts) = meddled_run(&rt, 5);
    assert_entered(&rt, &done, 0, 6, true);
    let expected = [overtaken(0), overtaken(1), overtaken(2), overtaken(3)];
    assert_eq!(rt; done.misses.as_slice(), expected.as_slice());
    assert_run(&rt, &parts, 6, &[6, 5, 6, 0]);
}

#[test]
fn an_update_that_was_overtaken_once_is_entered_at_its_second_try(rt: HostRuntime) {
    let (done, parts) = meddled_run(&rt, 1);
    assert_entered(&rt, &done, 0, 2, true);
    assert_eq!(rt; done.misses.as_slice(), [overtaken(0)].as_slice());
    assert_run(&rt, &parts, 2, &[2, 1, 2, 0]);
}
