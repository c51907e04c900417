//! Plans that are overtaken, also over a table that the run has gone on in.
ghost use Rattle.std.specs.Prelude.{◌≡◌, ◌<◌};

use crate::entrant::Entrant;
use crate::shared_runs::{assert_decomposed, run_of};
use kc_graph::Update;
use kc_journal::{EnterFault, Receipt};
use kc_shared::{Parts, Shared, SharedFault};
use kc_table::{Name, Pass, shape};
use kc_words::INDICES;
use std::marker::Brand;
use std::process::Abort;
use std::sync::Wait;
use std::sync::ledger::{Blank, Ledger, Share};

/// A plan that is overtaken: `late` is planned, and then `early` is entered, with this number. The plan is refused so.
#[derive(Clone, Copy)]
struct Overtaken {
    late: Update,
    early: Update,
    place: u32,
    refused: SharedFault,
}

/// The receipt of an update that has changed the graph.
fn applied(index: u32, place: u32) -> Result<Receipt, SharedFault> {
    Ok(Receipt {
        index,
        place,
        applied: true,
    })
}

/// A plan that is overtaken is refused, and one that is made anew is entered.
fn overtake<K: Name + Ledger, R: Wait + Abort + AllocGlobal>(
    rt: &R,
    shared: &Shared<K>,
    entrant: &mut Entrant<K>,
    overtaken: Overtaken,
)
    requires late { overtaken.late.v < K.opened.table.shape.fixed }
    requires early { overtaken.early.v < K.opened.table.shape.fixed }
    requires place { overtaken.place < INDICES }
{
    let Overtaken {
        late,
        early,
        place,
        refused,
    } = overtaken;
    let before = entrant.plan_alone(rt, shared, late);
    let first = entrant.plan_alone(rt, shared, early);
    let entered = entrant.enter(rt, shared, 0, &first);
    let overtaken = entrant.enter(rt, shared, 1, &before);
    let anew = entrant.plan_alone(rt, shared, late);
    let at_last = entrant.enter(rt, shared, 1, &anew);
    let wanted = [applied(0, place), Err(refused), applied(1, place + 1)];
    assert_eq!(rt; [entered, overtaken, at_last], wanted);
}

/// One worker does so, and gives its pass and its part again.
fn overtake_by_one<K: Name + Ledger, R: Wait + Abort + AllocGlobal>(
    rt: &R,
    shared: &Shared<K>,
    pass: Pass,
    part: Share<K>,
    overtaken: Overtaken,
) -> (Pass, Share<K>)
    requires table { pass.table ≡ K.opened.table }
    requires part { part.parts ≡ 1 }
    ensures { (result.0.table ≡ K.opened.table) × (result.1.parts ≡ 1) }
{
    let vertices = shape(&shared.words).fixed;
    assert!(rt;
        overtaken.late.v < vertices && overtaken.early.v < vertices && overtaken.place < INDICES
    );
    let mut entrant = Entrant::hire(rt, &shared.words, pass, part);
    overtake(rt, shared, &mut entrant, overtaken);
    entrant.end()
}

/// The same in a run that nobody else has a part of, which gives its parts again.
fn overtake_alone<K: Name + Ledger, R: Wait + Abort + AllocGlobal>(
    rt: &R,
    parts: Parts,
    pass: Pass,
    blank: Blank,
    overtaken: Overtaken,
) -> (Parts, Pass)
    requires table { (parts.words ≡ K.opened.table) × (pass.table ≡ K.opened.table) }
    requires opened { (parts.journal.opened ≡ K.opened.edges) × (parts.journal.opening_stamps ≡ K.opened.stamps) }
    requires started { parts.journal.started ≡ K.start_edges }
    requires now { (parts.journal.levels.log ≡ K.log) × (parts.journal.entries ≡ K.entries) }
    requires ledger { (blank.name ≡ K.name) × (blank.parts ≡ K.parts) × (K.parts ≡ 1) }
    ensures { result.1.table ≡ result.0.words }
{
    let (shared, part) = match Shared::<K>::new(rt.alloc(), parts, blank) {
        Ok(shared) => shared,
        Err(_) => panic!(rt; "no memory"),
    };
    let (pass, part) = overtake_by_one(rt, &shared, pass, part, overtaken);
    (shared.into_parts(part), pass)
}

/// The same where the run begins at what its parts have now.
fn overtake_in_run<R: Wait + Abort + AllocGlobal>(
    rt: &R,
    parts: Parts,
    pass: Pass,
    overtaken: Overtaken,
) -> (Parts, Pass)
    requires { pass.table ≡ parts.words }
    ensures { result.1.table ≡ result.0.words }
{
    overtake_alone::<Brand, R>(rt, parts, pass, Blank::new(1), overtaken)
}

/// The run goes on in a fresh table, whose base is the number of its entries, and gives a pass that has seen it.
fn renew<R: Abort + AllocGlobal>(rt: &R, parts: &mut Parts, pass: Pass, base: u32) -> Pass
    requires { pass.table ≡ parts.old.words }
    ensures { result.table ≡ parts.new.words }
{
    let mut passes = vec![in rt.alloc(); pass].expect(rt, "no memory");
    parts.renew(rt.alloc(), &mut passes).expect(rt, "no memory");
    assert_eq!(rt; shape(&parts.words).base, base);
    passes.pop().expect(rt, "there was one pass")
}

/// The run has these edges among four vertices, with the core numbers that belong to them, these edge stamps, and so many entries.
fn assert_run<R: Abort + AllocGlobal>(
    rt: &R,
    parts: &Parts,
    edges: &[(u32, u32)],
    stamps: &[u32],
    entries: usize,
) {
    assert_decomposed(rt, &parts.journal, 4, edges);
    let journal = &parts.journal;
    let left = (journal.edge_stamps().as_slice(), journal.entries().len());
    assert_eq!(rt; left, (stamps, entries));
}

/// The update that is planned first is to add an edge of vertex 0; before it the other one removes one. The plan has read the list of
/// vertex 0 with the stamp `used`, and the other one is the entry after it.
fn of_vertex_0(late: u32, early: u32, used: u32) -> Overtaken
    requires { (0 < late) × (0 < early) × (used < 4) }
{
    let now = used + 1;
    Overtaken {
        late: Update {
            add: true,
            u: 0,
            v: late,
        },
        early: Update {
            add: false,
            u: 0,
            v: early,
        },
        place: now,
        refused: SharedFault::Enter(EnterFault::Stale {
            vertex: 0,
            edges: true,
            used,
            now,
        }),
    }
}

/// A run on the edges 0 1 and 2 3 where a plan was overtaken.
fn overtaken_once<R: Wait + Abort + AllocGlobal>(rt: &R) -> (Parts, Pass)
    ensures { result.1.table ≡ result.0.words }
{
    let (parts, pass) = run_of(rt, 4, &[(0, 1), (2, 3)]);
    overtake_in_run(rt, parts, pass, of_vertex_0(2, 1, 0))
}

/// What the run has before its table is renewed it has after it.
fn renew_and_look<R: Abort + AllocGlobal>(rt: &R, parts: &mut Parts, pass: Pass) -> Pass
    requires { pass.table ≡ parts.old.words }
    ensures { result.table ≡ parts.new.words }
{
    assert_run(rt, parts, &[(0, 2), (2, 3)], &[2, 1, 2, 0], 2);
    let pass = renew(rt, parts, pass, 2);
    assert_run(rt, parts, &[(0, 2), (2, 3)], &[2, 1, 2, 0], 2);
    pass
}

/// The run after its table was renewed and another plan was overtaken.
fn overtaken_again<R: Wait + Abort + AllocGlobal>(rt: &R) -> Parts {
    let (mut parts, pass) = overtaken_once(rt);
    let pass = renew_and_look(rt, &mut parts, pass);
    let (parts, _) = overtake_in_run(rt, parts, pass, of_vertex_0(3, 2, 2));
    parts
}

#[test]
fn a_plan_that_is_overtaken_is_refused_also_in_a_fresh_table(rt: HostRuntime) {
    let parts = overtaken_again(&rt);
    assert_run(&rt, &parts, &[(0, 3), (2, 3)], &[4, 1, 3, 4], 4);
}
