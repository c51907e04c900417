//! A run on two edges, and an update of one of its workers.
ghost use Rattle.std.specs.Prelude.{◌≡◌, ◌<◌};

use crate::shared_runs::run_of;
use kc_graph::Update;
use kc_journal::Receipt;
use kc_shared::Parts;
use kc_table::{Name, Pass, Words, shape};
use kc_workers::{Assignment, Done, Gate, Worker, Workplace, update};
use std::process::Abort;
use std::sync::Wait;
use std::sync::ledger::{Ledger, Share};

/// A run that begins with the edges 0 1 and 2 3: all core numbers are 1, and the order is 0, 1, 2, 3.
pub(crate) fn two_edges<R: Abort + AllocGlobal>(rt: &R) -> (Parts, Pass)
    ensures { result.1.table ≡ result.0.words }
{
    run_of(rt, 4, &[(0, 1), (2, 3)])
}

/// A worker that has seen what the pass has.
pub(crate) fn hired<R: Abort + AllocGlobal>(rt: &R, words: &Words, pass: Pass) -> Worker
    requires { pass.table ≡ words.now }
    ensures { result.table ≡ words.now }
{
    match Worker::new(rt.alloc(), words, pass) {
        Ok(worker) => worker,
        Err(_) => panic!(rt; "no memory"),
    }
}

/// The update that adds the edge between two vertices, under this index, for worker 0.
pub(crate) fn addition(index: u32, u: u32, v: u32) -> Assignment
    requires { u < v }
    ensures { result.index ≡ index }
{
    Assignment {
        worker: 0,
        index,
        update: Update { add: true, u, v },
    }
}

/// An update that a worker enters.
pub(crate) fn enter<K: Name + Ledger, G: Gate, R: Wait + Abort + AllocGlobal>(
    rt: &R,
    workplace: Workplace<'_, K, G>,
    worker: &mut Worker,
    part: &mut Share<K>,
    assignment: Assignment,
) -> Done
    requires table { worker.old.table ≡ K.opened.table }
    requires part { 0 < part.old.parts }
    requires index { assignment.index < 4 }
    ensures table { worker.new.table ≡ K.opened.table }
    ensures parts { part.new.parts ≡ part.old.parts }
{
    assert!(rt; assignment.update.v < shape(&workplace.shared.words).fixed);
    update(rt, workplace, worker, part, assignment).expect(rt, "it is entered")
}

/// The update with this index has that entry.
pub(crate) fn assert_entered<R: Abort>(rt: &R, done: &Done, index: u32, place: u32, applied: bool) {
    assert_eq!(rt;
        done.receipt,
        Receipt {
            index,
            place,
            applied
        }
    );
}
