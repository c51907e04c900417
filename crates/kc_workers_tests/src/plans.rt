//! Plans over a state that nobody changes.
ghost use Rattle.std.specs.Prelude.{◌≡◌, ◌<◌};

use crate::worker_runs::{hired, two_edges};
use kc_graph::{Moves, Plan, Update};
use kc_shared::{Parts, Shared};
use kc_table::{Name, Pass, shape};
use kc_workers::{Worker, plan};
use std::marker::Brand;
use std::process::Abort;
use std::sync::Wait;
use std::sync::ledger::{Blank, Ledger};

/// The plan that adds the edge between 0 and 2.
fn plan_once<K: Name + Ledger, R: Wait + Abort + AllocGlobal>(
    rt: &R,
    shared: &Shared<K>,
    worker: &mut Worker,
) -> Plan
    requires { worker.old.table ≡ K.opened.table }
    ensures { worker.new.table ≡ K.opened.table }
{
    let update = Update {
        add: true,
        u: 0,
        v: 2,
    };
    assert!(rt; update.v < shape(&shared.words).fixed);
    let (words, stripes) = (&shared.words, &shared.stripes);
    plan(rt, rt.alloc(), words, stripes, worker, update).expect(rt, "a plan")
}

/// That plan, made twice by one worker with the same marks.
fn plan_twice<K: Name + Ledger, R: Wait + Abort + AllocGlobal>(
    rt: &R,
    shared: &Shared<K>,
    pass: Pass,
) -> [Plan; 2]
    requires { pass.table ≡ K.opened.table }
{
    let mut worker = hired(rt, &shared.words, pass);
    let first = plan_once(rt, shared, &mut worker);
    let again = plan_once(rt, shared, &mut worker);
    [first, again]
}

/// The same in a run where nobody enters anything.
fn plan_at_rest<K: Name + Ledger, R: Wait + Abort + AllocGlobal>(
    rt: &R,
    parts: Parts,
    blank: Blank,
    pass: Pass,
) -> [Plan; 2]
    requires words { (parts.words ≡ K.opened.table) × (pass.table ≡ K.opened.table) }
    requires opened { (parts.journal.opened ≡ K.opened.edges) × (parts.journal.opening_stamps ≡ K.opened.stamps) }
    requires started { parts.journal.started ≡ K.start_edges }
    requires now { (parts.journal.levels.log ≡ K.log) × (parts.journal.entries ≡ K.entries) }
    requires ledger { (blank.name ≡ K.name) × (blank.parts ≡ K.parts) }
{
    match Shared::<K>::new(rt.alloc(), parts, blank) {
        Ok((shared, _part)) => plan_twice(rt, &shared, pass),
        Err(_) => panic!(rt; "no memory"),
    }
}

/// Vertex 0 rises behind 1, by what the table opened with.
fn assert_rests_on_the_opening<R: Abort>(rt: &R, plan: &Plan) {
    let shifts = [(0, 1)];
    assert!(rt;
        matches!(&plan.moves, Moves::Rise { level: 1, rise, shifts: put } if rise.is_empty() && put.as_slice() == shifts.as_slice())
    );
    let Some(list) = plan.used.edges.first() else {
        panic!(rt; "no list was read")
    };
    assert_eq!(rt; (list.vertex, list.at), (0, 0));
    assert_eq!(rt; list.neighbours.as_slice(), [1].as_slice());
}

#[test]
fn a_plan_between_two_edges_reads_what_opened(rt: HostRuntime) {
    let (parts, pass) = two_edges(&rt);
    for plan in &plan_at_rest::<Brand, _>(&rt, parts, Blank::new(1), pass) {
        assert_rests_on_the_opening(&rt, plan);
    }
}
