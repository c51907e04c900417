//! A run that is closed after one worker has entered an update.
ghost use Rattle.std.specs.Prelude.{◌≡◌};

use crate::entrant::Entrant;
use crate::shared_runs::run_of;
use kc_graph::{Lawful, Update};
use kc_shared::{Parts, Shared};
use kc_table::{Name, Pass, shape};
use std::marker::Brand;
use std::process::Abort;
use std::sync::Wait;
use std::sync::ledger::{Blank, Ledger, Share};

/// A look shows a journal of these core numbers and so many entries.
fn assert_look<K: Name + Ledger, R: Wait + Abort>(
    rt: &R,
    shared: &Shared<K>,
    pass: &mut Pass,
    core: &[u32],
    entries: usize,
)
    requires { pass.old.table ≡ K.opened.table }
    ensures { pass.new.table ≡ K.opened.table }
{
    let look = shared.look(rt, pass);
    let journal = look.journal();
    let seen = (journal.core_numbers(), journal.entries().len());
    assert_eq!(rt; seen, (core, entries));
}

/// One worker enters an update of a clique of four, and gives its pass and its part again. A look shows the journal before and after it.
fn enter_by_one<K: Name + Ledger, R: Wait + Abort + AllocGlobal>(
    rt: &R,
    shared: &Shared<K>,
    mut pass: Pass,
    part: Share<K>,
    update: Update,
) -> (Pass, Share<K>)
    requires table { pass.table ≡ K.opened.table }
    requires part { part.parts ≡ 1 }
    ensures { result.1.parts ≡ 1 }
{
    assert!(rt; update.v < shape(&shared.words).fixed);
    assert_look(rt, shared, &mut pass, &[3, 3, 3, 3], 0);
    let mut entrant = Entrant::hire(rt, &shared.words, pass, part);
    entrant.enter_at_last(rt, shared, 0, update);
    let (mut pass, part) = entrant.end();
    assert_look(rt, shared, &mut pass, &[2, 2, 2, 2], 1);
    (pass, part)
}

/// The same in a run that nobody else has a part of, which gives its parts again.
fn enter_alone<K: Name + Ledger, R: Wait + Abort + AllocGlobal>(
    rt: &R,
    parts: Parts,
    pass: Pass,
    blank: Blank,
    update: Update,
) -> (Parts, Pass)
    requires table { (parts.words ≡ K.opened.table) × (pass.table ≡ K.opened.table) }
    requires opened { (parts.journal.opened ≡ K.opened.edges) × (parts.journal.opening_stamps ≡ K.opened.stamps) }
    requires started { parts.journal.started ≡ K.start_edges }
    requires now { (parts.journal.levels.log ≡ K.log) × (parts.journal.entries ≡ K.entries) }
    requires ledger { (blank.name ≡ K.name) × (blank.parts ≡ K.parts) × (K.parts ≡ 1) }
{
    let (shared, part) = match Shared::<K>::new(rt.alloc(), parts, blank) {
        Ok(shared) => shared,
        Err(_) => panic!(rt; "no memory"),
    };
    let (pass, part) = enter_by_one(rt, &shared, pass, part, update);
    (shared.into_parts(part), pass)
}

/// The state of a run that is closed with one pass.
fn closed<R: Abort + AllocGlobal>(rt: &R, parts: Parts, pass: Pass) -> Lawful {
    let passes = vec![in rt.alloc(); pass].expect(rt, "no memory");
    match parts.close(rt.alloc(), passes) {
        Ok(lawful) => lawful,
        Err(_) => panic!(rt; "no memory"),
    }
}

/// The state has five edges among four vertices, each of core number 2, in ascending order.
fn assert_five_edges<R: Abort>(rt: &R, lawful: &Lawful) {
    let closed = (lawful.graph().edges(), lawful.core(), lawful.order());
    let (core, order) = ([2, 2, 2, 2], [0, 1, 2, 3]);
    assert_eq!(rt; closed, (5, core.as_slice(), order.as_slice()));
}

#[test]
fn a_run_that_is_closed_gives_what_its_journal_has(rt: HostRuntime) {
    let clique = [(0, 1), (0, 2), (0, 3), (1, 2), (1, 3), (2, 3)];
    let (parts, pass) = run_of(&rt, 4, &clique);
    let removal = Update {
        add: false,
        u: 0,
        v: 1,
    };
    let (parts, pass) = enter_alone::<Brand, _>(&rt, parts, pass, Blank::new(1), removal);
    assert_five_edges(&rt, &closed(&rt, parts, pass));
}
