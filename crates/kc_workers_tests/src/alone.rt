//! Updates of one worker, which nobody overtakes.
ghost use Rattle.std.specs.Prelude.{◌≡◌, ◌<◌};

use crate::worker_runs::{addition, assert_entered, enter, hired, two_edges};
use kc_shared::{Parts, Shared};
use kc_table::{Name, Pass};
use kc_workers::{Assignment, NoGate, Worker, Workplace};
use std::marker::Brand;
use std::process::Abort;
use std::sync::Wait;
use std::sync::ledger::{Blank, Ledger, Share};

/// An update is entered at its first try, as the entry after those of the updates before it.
fn enter_at_once<K: Name + Ledger, R: Wait + Abort + AllocGlobal>(
    rt: &R,
    shared: &Shared<K>,
    worker: &mut Worker,
    part: &mut Share<K>,
    assignment: Assignment,
    applied: bool,
)
    requires table { worker.old.table ≡ K.opened.table }
    requires part { 0 < part.old.parts }
    requires index { assignment.index < 4 }
    ensures table { worker.new.table ≡ K.opened.table }
    ensures parts { part.new.parts ≡ part.old.parts }
{
    let workplace = Workplace {
        shared,
        gate: &NoGate,
        alloc: rt.alloc(),
    };
    let index = assignment.index;
    let done = enter(rt, workplace, worker, part, assignment);
    assert_entered(rt, &done, index, index + 1, applied);
    assert!(rt; done.misses.is_empty());
}

/// One worker adds two edges, so that all four stand in a circle, and then one that is there.
fn enter_three<K: Name + Ledger, R: Wait + Abort + AllocGlobal>(
    rt: &R,
    shared: &Shared<K>,
    worker: &mut Worker,
    part: &mut Share<K>,
)
    requires table { worker.old.table ≡ K.opened.table }
    requires part { 0 < part.old.parts }
    ensures { part.new.parts ≡ part.old.parts }
{
    enter_at_once(rt, shared, worker, part, addition(0, 0, 2), true);
    enter_at_once(rt, shared, worker, part, addition(1, 1, 3), true);
    enter_at_once(rt, shared, worker, part, addition(2, 0, 1), false);
}

/// A worker that has seen what the pass has does so.
fn enter_by_one<K: Name + Ledger, R: Wait + Abort + AllocGlobal>(
    rt: &R,
    shared: &Shared<K>,
    part: &mut Share<K>,
    pass: Pass,
)
    requires table { pass.table ≡ K.opened.table }
    requires part { 0 < part.old.parts }
    ensures { part.new.parts ≡ part.old.parts }
{
    let mut worker = hired(rt, &shared.words, pass);
    enter_three(rt, shared, &mut worker, part);
}

/// The same in a run that nobody else has a part of.
fn enter_alone<K: Name + Ledger, R: Wait + Abort + AllocGlobal>(
    rt: &R,
    parts: Parts,
    blank: Blank,
    pass: Pass,
) -> Parts
    requires words { (parts.words ≡ K.opened.table) × (pass.table ≡ K.opened.table) }
    requires opened { (parts.journal.opened ≡ K.opened.edges) × (parts.journal.opening_stamps ≡ K.opened.stamps) }
    requires started { parts.journal.started ≡ K.start_edges }
    requires now { (parts.journal.levels.log ≡ K.log) × (parts.journal.entries ≡ K.entries) }
    requires ledger { (blank.name ≡ K.name) × (blank.parts ≡ K.parts) }
    requires some { 0 < K.parts }
{
    let (shared, mut part) = match Shared::<K>::new(rt.alloc(), parts, blank) {
        Ok(shared) => shared,
        Err(_) => panic!(rt; "no memory"),
    };
    enter_by_one(rt, &shared, &mut part, pass);
    shared.into_parts(part)
}

/// The run has three entries, and a circle.
fn assert_circle<R: Abort>(rt: &R, parts: &Parts) {
    let journal = &parts.journal;
    let left = (
        journal.entries().len(),
        journal.graph().edges(),
        journal.top(),
    );
    assert_eq!(rt; left, (3, 4, 2));
}

#[test]
fn one_worker_enters_each_update_at_its_first_try(rt: HostRuntime) {
    let (parts, pass) = two_edges(&rt);
    let parts = enter_alone::<Brand, _>(&rt, parts, Blank::new(1), pass);
    assert_circle(&rt, &parts);
}
