//! Two workers that enter updates at once.
ghost use Rattle.std.specs.Prelude.{◌≡◌};

use crate::entrant::Entrant;
use crate::shared_runs::{assert_decomposed, run_of};
use kc_shared::{Parts, Shared};
use kc_table::{Name, Pass, split};
use std::marker::Brand;
use std::process::Abort;
use std::sync::Wait;
use std::sync::ledger::{Blank, Ledger, Share};
use std::thread;
use std::thread::Threads;

/// The edges that two workers begin with.
const START: [(u32, u32); 2] = [(0, 3), (1, 4)];

/// The edges that one of them adds and removes in turn.
const FIRST: [(u32, u32); 3] = [(0, 1), (0, 2), (1, 2)];

/// Those of the other: both have vertex 2.
const SECOND: [(u32, u32); 3] = [(2, 3), (2, 4), (3, 4)];

/// All of them.
const AT_LAST: [(u32, u32); 8] = [
    (0, 1),
    (0, 2),
    (0, 3),
    (1, 2),
    (1, 4),
    (2, 3),
    (2, 4),
    (3, 4),
];

/// Two workers enter updates at once, until all are entered, and give their part again.
fn go_over_at_once<K: Name + Ledger + Send + Sync, R: Threads + Wait + Abort + AllocGlobal + Sync>(
    rt: &R,
    shared: &Shared<K>,
    mut pass: Pass,
    mut part: Share<K>,
) -> Share<K>
    requires table { pass.table ≡ K.opened.table }
    requires two { part.parts ≡ 2 }
    ensures { result.parts ≡ 2 }
{
    let other = split(&shared.words, &mut pass);
    let second = Entrant::hire(rt, &shared.words, other, part.split_off(1, 0));
    let first = Entrant::hire(rt, &shared.words, pass, part);
    let (first, second) = thread::join(
        rt,
        move || first.go_over(rt, shared, &FIRST),
        move || second.go_over(rt, shared, &SECOND),
    );
    let (_, mut part) = first.end();
    part.merge(second.part);
    part
}

/// The same in a run that nobody else has a part of.
fn go_over_by_two<K: Name + Ledger + Send + Sync, R: Threads + Wait + Abort + AllocGlobal + Sync>(
    rt: &R,
    parts: Parts,
    pass: Pass,
    blank: Blank,
) -> Parts
    requires table { (parts.words ≡ K.opened.table) × (pass.table ≡ K.opened.table) }
    requires opened { (parts.journal.opened ≡ K.opened.edges) × (parts.journal.opening_stamps ≡ K.opened.stamps) }
    requires started { parts.journal.started ≡ K.start_edges }
    requires now { (parts.journal.levels.log ≡ K.log) × (parts.journal.entries ≡ K.entries) }
    requires ledger { (blank.name ≡ K.name) × (blank.parts ≡ K.parts) × (K.parts ≡ 2) }
{
    let (shared, part) = match Shared::<K>::new(rt.alloc(), parts, blank) {
        Ok(shared) => shared,
        Err(_) => panic!(rt; "no memory"),
    };
    let part = go_over_at_once(rt, &shared, pass, part);
    shared.into_parts(part)
}

#[test]
fn two_workers_enter_all_that_they_are_told(rt: HostRuntime) {
    let (parts, pass) = run_of(&rt, 5, &START);
    let parts = go_over_by_two::<Brand, _>(&rt, parts, pass, Blank::new(2));
    assert_decomposed(&rt, &parts.journal, 5, &AT_LAST);
    assert_eq!(rt; parts.journal.entries().len(), 606);
}
