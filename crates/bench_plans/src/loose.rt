//! Plans over loose views of a table at rest, beside those over a plain view of the state that the table opened with.
ghost use Rattle.std.specs.Prelude.{◌≡◌, ◌≤◌, ◌<◌, ℕ, OnOk, IfOk, slice_index};
ghost use Rattle.kc_view.specs.Answers.{nothing_answered};

use crate::plans::Asked;
use crate::same::is_same;
use kc_graph::{Graph, Lawful, NoMemory, Plan, Update, decompose};
use kc_journal::Journal;
use kc_stripes::{Stripes, open_stripes};
use kc_table::{Name, Pass, Words, shape};
use kc_view::{PlainView, PlanFault};
use kc_words::VERTICES;
use kc_workers::{Worker, plan};
use std::alloc::Global;
use std::io;
use std::marker::Brand;
use std::rt::Clock;
use std::sync::Wait;
use std::time::{Duration, Instant};

/// What plans over loose views came to.
#[derive(Clone, Copy, Drop)]
pub(crate) struct Compared {
    /// What they asked.
    pub asked: Asked,
    /// How many are not those over a plain view.
    pub differing: u64,
    /// How many stripes the table has.
    pub stripes: u64,
    /// How long the stripes took to open.
    pub opening: Duration,
    /// How long the plans took.
    pub planning: Duration,
}

/// A worker, and the shared words and stripes of a table that it plans with.
#[derive(Drop)]
struct LoosePlanner<'a, K: Name> {
    words: &'a Words,
    stripes: &'a Stripes<K>,
    worker: Worker,
    ghost table: { (words.now ≡ K.opened.table) × (worker.table ≡ K.opened.table) },
}

impl<'a, K: Name> LoosePlanner<'a, K> {
    /// A worker of a table, which has seen what the pass has.
    fn new(
        alloc: Global,
        words: &'a Words,
        stripes: &'a Stripes<K>,
        pass: Pass,
    ) -> Result<LoosePlanner<'a, K>, NoMemory>
        requires { (words.now ≡ K.opened.table) × (pass.table ≡ K.opened.table) }
    {
        match Worker::new(alloc, words, pass) {
            Ok(worker) => Ok(LoosePlanner {
                words,
                stripes,
                worker,
            }),
            Err(_) => Err(NoMemory),
        }
    }

    /// The number of vertices.
    fn vertices(&self) -> u32
        ensures { result ≡ K.opened.table.shape.fixed }
    {
        shape(self.words).fixed
    }

    /// A plan of an update over a loose view.
    fn plan<R: Wait>(&mut self, rt: &R, alloc: Global, update: Update) -> Result<Plan, PlanFault>
        requires { update.v < K.opened.table.shape.fixed }
    {
        let worker = &mut self.worker;
        plan(rt, alloc, self.words, self.stripes, worker, update)
    }

    /// Plans updates, one after another, and counts what they ask.
    fn plan_updates<R: Wait>(
        &mut self,
        rt: &R,
        alloc: Global,
        updates: &[Update],
    ) -> Result<Asked, PlanFault> {
        let mut asked = Asked::default();
        for update in updates {
            if update.v < self.vertices() {
                asked.count(&self.plan(rt, alloc, *update)?);
            }
        }
        Ok(asked)
    }

    /// Whether an update has another plan over a loose view than over a plain one.
    fn plans_differ<R: Wait>(
        &mut self,
        rt: &R,
        alloc: Global,
        view: &mut PlainView,
        update: Update,
    ) -> Result<bool, PlanFault>
        requires here { update.v < K.opened.table.shape.fixed }
        requires vertex { update.v < view.old.state.graph.size }
        requires fresh { view.old.kept ≡ nothing_answered }
        ensures { OnOk result (view.new.kept ≡ nothing_answered) }
    {
        let plain = plan_plainly(alloc, view, update)?;
        let loose = self.plan(rt, alloc, update)?;
        Ok(!is_same(&plain, &loose))
    }

    /// How many of the updates have another plan over a loose view than over a plain view of the state.
    fn count_differing<R: Wait>(
        &mut self,
        rt: &R,
        alloc: Global,
        state: &Lawful,
        updates: &[Update],
    ) -> Result<u64, PlanFault> {
        let mut view = PlainView::new(alloc, state)?;
        let mut differing = 0u64;
        for update in updates {
            if update.v >= self.vertices() || update.v >= view.state().graph().vertices() {
                continue;
            }
            if self.plans_differ(rt, alloc, &mut view, *update)? {
                differing = differing.wrapping_add(1);
            }
        }
        Ok(differing)
    }

    /// Plans the updates, and compares each plan with that over a plain view of the state. Gives what came of it.
    fn plan_all<R: Wait + AllocGlobal + Clock>(
        &mut self,
        rt: &R,
        state: &Lawful,
        updates: &[Update],
    ) -> io::Result<Planned> {
        let start = Instant::now(rt)?;
        let asked = self
            .plan_updates(rt, rt.alloc(), updates)
            .map_err(error_of)?;
        let took = start.elapsed(rt)?;
        let differing = self
            .count_differing(rt, rt.alloc(), state, updates)
            .map_err(error_of)?;
        Ok(Planned {
            asked,
            differing,
            took,
        })
    }
}

/// A plan of an update over a plain view, by the planner that it is for.
fn plan_plainly(alloc: Global, view: &mut PlainView, update: Update) -> Result<Plan, PlanFault>
    requires vertex { update.v < view.old.state.graph.size }
    requires fresh { view.old.kept ≡ nothing_answered }
    ensures { OnOk result (view.new.kept ≡ nothing_answered) }
{
    if update.add {
        kc_insert::plan(alloc, view, update)
    } else {
        kc_remove::plan(alloc, view, update)
    }
}

/// The error that a fault of a plan is. Nothing changes a table at rest, so a miss is one too.
fn error_of(fault: PlanFault) -> io::Error {
    match fault {
        PlanFault::Miss(_) => io::ErrorKind::Other.into(),
        PlanFault::NoMemory => NoMemory.into(),
    }
}

/// What plans over loose views came to, and how long they took.
#[derive(Clone, Copy, Drop)]
struct Planned {
    asked: Asked,
    differing: u64,
    took: Duration,
}

/// The stripes of a table at rest, how many they are, and how long they took to open.
fn open_at_rest<K: Name, R: AllocGlobal + Clock>(
    rt: &R,
    words: &Words,
    pass: &mut Pass,
    journal: &Journal,
) -> io::Result<(Stripes<K>, u64, Duration)>
    requires table { (words.now ≡ K.opened.table) × (pass.old.table ≡ K.opened.table) × (journal.now.levels.table ≡ K.opened.table) }
    requires opened { (journal.now.graph ≡ K.opened.edges) × (journal.now.edge_stamps ≡ K.opened.stamps) }
    requires early { (v : ℕ) → v < journal.now.graph.size → slice_index journal.now.edge_stamps v ≤ K.opened.table.shape.base }
    ensures { pass.new.table ≡ K.opened.table }
{
    let alloc = rt.alloc();
    journal.recall_stands();
    let start = Instant::now(rt)?;
    let stripes = open_stripes(alloc, words, pass, journal.graph(), journal.edge_stamps())?;
    let opening = start.elapsed(rt)?;
    let count = stripes.len() as u64;
    match Stripes::<K>::new(alloc, stripes) {
        Ok(stripes) => Ok((stripes, count, opening)),
        Err(_) => Err(NoMemory.into()),
    }
}

/// Opens the stripes of a table at rest, and plans the updates over loose views of them and over a plain view of the state.
fn compare_at_rest<K: Name, R: Wait + AllocGlobal + Clock>(
    rt: &R,
    words: &Words,
    mut pass: Pass,
    journal: &Journal,
    state: &Lawful,
    updates: &[Update],
) -> io::Result<Compared>
    requires table { (words.now ≡ K.opened.table) × (pass.table ≡ K.opened.table) × (journal.now.levels.table ≡ K.opened.table) }
    requires opened { (journal.now.graph ≡ K.opened.edges) × (journal.now.edge_stamps ≡ K.opened.stamps) }
    requires early { (v : ℕ) → v < journal.now.graph.size → slice_index journal.now.edge_stamps v ≤ K.opened.table.shape.base }
{
    let (stripes, count, opening) = open_at_rest::<K, R>(rt, words, &mut pass, journal)?;
    let Planned {
        asked,
        differing,
        took,
    } = plan_at_rest(rt, words, &stripes, pass, state, updates)?;
    Ok(Compared {
        asked,
        differing,
        stripes: count,
        opening,
        planning: took,
    })
}

/// Plans the updates over loose views of the stripes, and over a plain view of the state.
fn plan_at_rest<K: Name, R: Wait + AllocGlobal + Clock>(
    rt: &R,
    words: &Words,
    stripes: &Stripes<K>,
    pass: Pass,
    state: &Lawful,
    updates: &[Update],
) -> io::Result<Planned>
    requires table { (words.now ≡ K.opened.table) × (pass.table ≡ K.opened.table) }
{
    let mut planner = LoosePlanner::new(rt.alloc(), words, stripes, pass)?;
    planner.plan_all(rt, state, updates)
}

/// Opens a table in the state of a graph, and plans the updates over loose views of it and over a plain view of the state, each in that
/// state. A graph of more vertices than a table has is an error.
pub(crate) fn compare<R: Wait + AllocGlobal + Clock>(
    rt: &R,
    graph: &Graph,
    updates: &[Update],
) -> io::Result<Compared> {
    if graph.vertices() > VERTICES {
        return Err(io::ErrorKind::InvalidInput.into());
    }
    let alloc = rt.alloc();
    let state = decompose(alloc, graph)?;
    let (words, journal, pass) = Journal::open(alloc, decompose(alloc, graph)?, 0)?;
    compare_at_rest::<Brand, R>(rt, &words, pass, &journal, &state, updates)
}
