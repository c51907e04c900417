//! Updates of small graphs, worked out by hand: each is planned over a journal that is held, and entered in it.
ghost use Rattle.std.specs.Prelude.{◌≡◌, ◌<◌, ◌≤◌, IfOk};
ghost use Rattle.kc_graph.specs.Certificate.{Certifies};
ghost use Rattle.kc_levels.specs.Levels.{size_of};
ghost use Rattle.kc_journal.specs.Entering.{MayEnter};

use kc_cert::{check, local_check};
use kc_graph::{Graph, Lawful, Moves, NoMemory, Plan, Update};
use kc_journal::{EnterFault, Entered, Journal, Receipt, plan_held};
use kc_table::{Entry, Pass, Words};
use kc_view::Scratch;
use kc_words::{INDICES, LAST_VERSION, VERTICES};
use std::alloc::Global;
use std::process::Abort;

/// A graph to begin with, by its edges, and its core numbers and order.
#[derive(Clone, Copy)]
struct Start<'a> {
    edges: &'a [(u32, u32)],
    core: &'a [u32],
    order: &'a [u32],
}

/// The moves that a plan is to have.
#[derive(Clone, Copy)]
enum Wanted<'a> {
    Plain,
    Rise {
        level: u32,
        rise: &'a [u32],
        shifts: &'a [(u32, u32)],
    },
    Fall {
        level: u32,
        fall: &'a [u32],
    },
}

/// An update of a graph, the moves of its plan, and the core numbers and the order after it.
#[derive(Clone, Copy)]
struct Row<'a> {
    start: Start<'a>,
    add: bool,
    ends: (u32, u32),
    moves: Wanted<'a>,
    core: &'a [u32],
    order: &'a [u32],
}

/// Two edges.
const EDGES: Start = Start {
    edges: &[(0, 1), (2, 3)],
    core: &[1, 1, 1, 1],
    order: &[0, 1, 2, 3],
};

/// A path of four vertices.
const PATH: Start = Start {
    edges: &[(0, 1), (1, 2), (2, 3)],
    core: &[1, 1, 1, 1],
    order: &[0, 1, 2, 3],
};

/// All edges among four vertices.
const CLIQUE: Start = Start {
    edges: &[(0, 1), (0, 2), (0, 3), (1, 2), (1, 3), (2, 3)],
    core: &[3, 3, 3, 3],
    order: &[0, 1, 2, 3],
};

/// A triangle, and a vertex alone.
const TRIANGLE: Start = Start {
    edges: &[(0, 1), (1, 2), (0, 2)],
    core: &[2, 2, 2, 0],
    order: &[3, 0, 1, 2],
};

const ROWS: [Row; 6] = [
    Row {
        start: EDGES,
        add: true,
        ends: (0, 2),
        moves: Wanted::Rise {
            level: 1,
            rise: &[],
            shifts: &[(0, 1)],
        },
        core: &[1, 1, 1, 1],
        order: &[1, 0, 2, 3],
    },
    Row {
        start: PATH,
        add: true,
        ends: (0, 3),
        moves: Wanted::Rise {
            level: 1,
            rise: &[0, 1, 2, 3],
            shifts: &[],
        },
        core: &[2, 2, 2, 2],
        order: &[0, 1, 2, 3],
    },
    Row {
        start: CLIQUE,
        add: false,
        ends: (0, 1),
        moves: Wanted::Fall {
            level: 3,
            fall: &[0, 1, 2, 3],
        },
        core: &[2, 2, 2, 2],
        order: &[0, 1, 2, 3],
    },
    Row {
        start: PATH,
        add: false,
        ends: (1, 2),
        moves: Wanted::Plain,
        core: &[1, 1, 1, 1],
        order: &[0, 1, 2, 3],
    },
    Row {
        start: PATH,
        add: false,
        ends: (0, 1),
        moves: Wanted::Fall {
            level: 1,
            fall: &[0],
        },
        core: &[0, 1, 1, 1],
        order: &[0, 1, 2, 3],
    },
    Row {
        start: TRIANGLE,
        add: true,
        ends: (0, 3),
        moves: Wanted::Rise {
            level: 0,
            rise: &[3],
            shifts: &[],
        },
        core: &[2, 2, 2, 1],
        order: &[3, 0, 1, 2],
    },
];

/// The core numbers and the order certify each other in a graph, which is no larger than a journal's.
fn assert_certified<R: Abort + AllocGlobal>(rt: &R, graph: &Graph, core: &[u32], order: &[u32])
    ensures few { graph.now.size ≤ VERTICES }
    ensures certified { Certifies graph.now core.now order.now }
{
    assert!(rt; graph.vertices() <= VERTICES);
    let is_certified = check(rt.alloc(), graph, core, order).expect(rt, "no memory");
    assert!(rt; is_certified);
}

/// A graph, with core numbers and an order that certify each other in it.
fn lawful_of(alloc: Global, graph: Graph, core: &[u32], order: &[u32]) -> Result<Lawful, NoMemory>
    requires { Certifies graph core.now order.now }
    ensures { IfOk result (λ lawful. lawful.graph ≡ graph) }
{
    let core = Vec::from_slice(alloc, core)?;
    let order = Vec::from_slice(alloc, order)?;
    Lawful::new(alloc, graph, core, order)
}

/// The graph of a start, with its core numbers and its order.
fn state_of<R: Abort + AllocGlobal>(rt: &R, start: Start) -> Lawful
    ensures { result.graph.size ≤ VERTICES }
{
    assert!(rt; start.core.len() <= VERTICES as usize);
    let vertices = start.core.len() as u32;
    assert!(rt; start.edges.iter().all(|(u, v)| u < v && *v < vertices));
    let graph = Graph::from_pairs(rt.alloc(), vertices, start.edges).expect(rt, "no memory");
    assert_certified(rt, &graph, start.core, start.order);
    lawful_of(rt.alloc(), graph, start.core, start.order).expect(rt, "no memory")
}

/// A journal with the words and a pass of its table.
#[derive(Drop)]
struct Run {
    words: Words,
    journal: Journal,
    pass: Pass,
    ghost told: { pass.table ≡ words },
    ghost table: { journal.levels.table ≡ words },
}

impl Run {
    /// A run that begins so, in a table with this version.
    fn open<R: Abort + AllocGlobal>(rt: &R, start: Start, version: u32) -> Run
        requires { version ≤ LAST_VERSION }
    {
        let opened = Journal::open(rt.alloc(), state_of(rt, start), version);
        let (words, journal, pass) = opened.expect(rt, "no memory");
        Run {
            words,
            journal,
            pass,
        }
    }

    /// The plan of an update.
    fn plan<R: Abort + AllocGlobal>(&self, rt: &R, update: Update) -> Plan
        ensures { MayEnter self.now.journal result }
    {
        let vertices = self.journal.vertices();
        assert!(rt; update.v < vertices);
        let scratch = Scratch::new(rt.alloc(), vertices).expect(rt, "no memory");
        let (planned, _) = plan_held(rt.alloc(), &self.journal, scratch, update);
        planned.expect(rt, "a plan")
    }

    /// Enters the update of a plan. Whatever comes of it, a plan that might be entered may still be.
    fn enter(&mut self, index: u32, plan: &Plan) -> Result<Entered, EnterFault>
        requires index { index < INDICES }
        requires may { MayEnter self.old.journal plan.now }
        ensures { (other : Plan) → MayEnter self.old.journal other → MayEnter self.new.journal other }
    {
        self.journal
            .enter(&self.words, &mut self.pass, index, plan, None)
    }

    /// Goes on in a fresh table.
    fn renew<R: Abort + AllocGlobal>(&mut self, rt: &R) {
        let (words, pass) = self.journal.renew(rt.alloc(), 0).expect(rt, "no memory");
        self.words = words;
        self.pass = pass;
    }
}

/// Whether the moves put vertices behind others and let vertices of this level rise.
fn is_rise(moves: &Moves, of: u32, risen: &[u32], shifted: &[(u32, u32)]) -> bool {
    match moves {
        Moves::Rise {
            level,
            rise,
            shifts,
        } => *level == of && rise.as_slice() == risen && shifts.as_slice() == shifted,
        _ => false,
    }
}

/// Whether the moves let vertices of this level fall.
fn is_fall(moves: &Moves, of: u32, fallen: &[u32]) -> bool {
    match moves {
        Moves::Fall { level, fall } => *level == of && fall.as_slice() == fallen,
        _ => false,
    }
}

/// Whether the moves are these.
fn are_moves(moves: &Moves, wanted: Wanted) -> bool {
    match wanted {
        Wanted::Plain => matches!(moves, Moves::Plain),
        Wanted::Rise {
            level,
            rise,
            shifts,
        } => is_rise(moves, level, rise, shifts),
        Wanted::Fall { level, fall } => is_fall(moves, level, fall),
    }
}

/// Whether the vertices have these core numbers, of which `top` is the greatest.
fn have_numbers(journal: &Journal, core: &[u32]) -> bool {
    let mut same = core.len() == journal.vertices() as usize;
    for v in 0..journal.vertices() {
        same = same && core.get(v as usize) == Some(&journal.core(v));
    }
    same && core.iter().copied().max() == Some(journal.top())
}

/// Whether the vertices have these core numbers and stand in this order.
fn stand(alloc: Global, journal: &Journal, core: &[u32], order: &[u32]) -> Result<bool, NoMemory> {
    let stands = journal.order(alloc)?;
    Ok(have_numbers(journal, core) && stands.as_slice() == order)
}

/// The vertices have these core numbers and stand in this order.
fn assert_stand<R: Abort + AllocGlobal>(rt: &R, journal: &Journal, core: &[u32], order: &[u32]) {
    let stand = stand(rt.alloc(), journal, core, order).expect(rt, "no memory");
    assert!(rt; stand);
}

/// An update of two vertices.
fn update_of(add: bool, ends: (u32, u32)) -> Update
    requires { ends.0 < ends.1 }
{
    Update {
        add,
        u: ends.0,
        v: ends.1,
    }
}

/// Whether the entry of the update with index 7 is the first, and changed the graph.
fn is_first(entered: &Entered) -> bool {
    let receipt = Receipt {
        index: 7,
        place: 1,
        applied: true,
    };
    entered.receipt == receipt && entered.lists.is_some()
}

/// The plan of a row has its moves, is local, and is entered first; the journal is then as the row says.
fn enter_planned<R: Abort + AllocGlobal>(rt: &R, run: &mut Run, plan: &Plan, row: &Row)
    requires { MayEnter run.old.journal plan.now }
{
    let is_local = local_check(rt.alloc(), &run.journal, plan).expect(rt, "no memory");
    assert!(rt; is_local && are_moves(&plan.moves, row.moves));
    let entered = run.enter(7, plan).expect(rt, "a first entry");
    assert!(rt; is_first(&entered));
    assert_stand(rt, &run.journal, row.core, row.order);
}

/// The update of a row is planned and entered.
fn plan_row<R: Abort + AllocGlobal>(rt: &R, run: &mut Run, row: &Row) {
    assert!(rt; row.ends.0 < row.ends.1);
    let plan = run.plan(rt, update_of(row.add, row.ends));
    enter_planned(rt, run, &plan, row);
}

/// A run is opened, and the update of a row is planned and entered in it.
fn enter_row<R: Abort + AllocGlobal>(rt: &R, row: &Row) {
    let mut run = Run::open(rt, row.start, 0);
    plan_row(rt, &mut run, row);
}

#[test]
fn updates_are_planned_and_entered(rt: HostRuntime) {
    for row in &ROWS {
        enter_row(&rt, row);
    }
}

/// The journal is that of two edges of which the first is gone.
fn assert_parted<R: Abort + AllocGlobal>(rt: &R, journal: &Journal) {
    let entry = Entry {
        index: 0,
        add: false,
        u: 0,
        v: 1,
    };
    assert_stand(rt, journal, &[0, 0, 1, 1], &[0, 1, 2, 3]);
    let left = (journal.edge_stamps().as_slice(), journal.entries());
    assert!(rt; left == ([1, 1, 0, 0].as_slice(), [entry].as_slice()));
}

/// The first of the two edges goes. A plan that might be entered may still be.
fn part<R: Abort + AllocGlobal>(rt: &R, run: &mut Run)
    ensures { (other : Plan) → MayEnter run.old.journal other → MayEnter run.new.journal other }
{
    let early = run.plan(rt, update_of(false, (0, 1)));
    let entered = run.enter(0, &early).expect(rt, "an entry");
    assert!(rt; entered.receipt.applied);
}

/// A plan that has read the first of the two edges is stale once that edge is gone.
fn assert_stale<R: Abort + AllocGlobal>(rt: &R, run: &mut Run, late: &Plan)
    requires { MayEnter run.old.journal late.now }
{
    part(rt, run);
    let stale = EnterFault::Stale {
        vertex: 0,
        edges: true,
        used: 0,
        now: 1,
    };
    assert_eq!(rt; run.enter(1, late).err(), Some(stale));
    assert_parted(rt, &run.journal);
}

/// A plan is made, and is stale when it is entered.
fn enter_late<R: Abort + AllocGlobal>(rt: &R, run: &mut Run) {
    let late = run.plan(rt, update_of(true, (0, 2)));
    assert_stale(rt, run, &late);
}

/// A plan has read an edge that is gone when it is entered.
#[test]
fn a_plan_is_stale(rt: HostRuntime) {
    let mut run = Run::open(&rt, EDGES, 0);
    enter_late(&rt, &mut run);
}

/// The plan of an update is made and entered, at this place.
fn assert_entered<R: Abort + AllocGlobal>(
    rt: &R,
    run: &mut Run,
    index: u32,
    update: Update,
    place: u32,
)
    requires index { index < INDICES }
{
    let plan = run.plan(rt, update);
    let entered = run.enter(index, &plan).expect(rt, "an entry");
    assert_eq!(rt; entered.receipt.place, place);
}

/// The versions do not last for a move.
fn assert_spent<R: Abort + AllocGlobal>(rt: &R, run: &mut Run) {
    let plan = run.plan(rt, update_of(true, (0, 2)));
    let spent = EnterFault::Spent {
        highest: LAST_VERSION - 1,
        needed: 3,
    };
    assert_eq!(rt; run.enter(5, &plan).err(), Some(spent));
}

/// The journal goes on as it was.
fn assert_renewed<R: Abort + AllocGlobal>(rt: &R, journal: &Journal) {
    assert!(rt; journal.edge_stamps().as_slice() == [0, 1, 1, 0].as_slice());
    assert_stand(rt, journal, &[1, 1, 1, 1], &[0, 1, 2, 3]);
}

/// The move is made.
fn assert_moved<R: Abort + AllocGlobal>(rt: &R, journal: &Journal) {
    assert!(rt; journal.edge_stamps().as_slice() == [2, 1, 2, 0].as_slice());
    assert_stand(rt, journal, &[1, 1, 1, 1], &[1, 0, 2, 3]);
}

/// The edge in the middle of the path goes, and then the versions are spent. In a fresh table the move is made.
fn spend_and_renew<R: Abort + AllocGlobal>(rt: &R, run: &mut Run) {
    assert_entered(rt, run, 4, update_of(false, (1, 2)), 1);
    assert_spent(rt, run);
    run.renew(rt);
    assert_renewed(rt, &run.journal);
    assert_entered(rt, run, 5, update_of(true, (0, 2)), 2);
    assert_moved(rt, &run.journal);
}

/// The versions of a table are spent after an entry. The journal goes on as it was in a fresh table, which has versions again.
#[test]
fn a_fresh_table_has_versions_again(rt: HostRuntime) {
    let mut run = Run::open(&rt, PATH, LAST_VERSION - 1);
    spend_and_renew(&rt, &mut run);
}
