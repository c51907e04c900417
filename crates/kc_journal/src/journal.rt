//! The state with its log, and how an update is entered.
ghost use Rattle.std.specs.Prelude.{◌≡◌, ◌≢◌, ◌<◌, ◌≤◌, nat_lt, ℕ, IfErr, IfOk, IfSome, MatchOption, OnErr, slice_index};
ghost use mathlib.Core.List.{IsPrefix};
ghost use Rattle.kc_lists.specs.Lists.{place_of};
ghost use Rattle.kc_graph.specs.Core.{AreCoreNumbers};
ghost use Rattle.kc_graph.specs.Growing.{grown};
ghost use Rattle.kc_view.specs.Sure.{IsSure};
ghost use Rattle.kc_agree.specs.Stamps.{edge_stamp, place_stamp};
ghost use Rattle.kc_levels.specs.Levels.{IsTop, size_of};
ghost use Rattle.kc_order.specs.Writers.{IsHighest};

use crate::ahead::ListsAhead;
use crate::answer::{EnterFault, Entered, Receipt};
use crate::change::{add_entry, make_section, make_update, versions_needed};
use crate::renewal::{numbers_and_order, order_of};
use kc_agree::first_stale;
use kc_cert::State;
use kc_graph::{Lawful, NoMemory, Plan, SharedGraph};
use kc_levels::{LAST_NUMBER, Levels};
use kc_table::{Entry, Pass, Words};
use kc_words::{INDICES, LAST_VERSION, VERTICES};
use std::alloc::Global;
use std::marker::Model;
use std::snapshot::Snapshot;

/// A graph with its core numbers, their order, and the log of all entries: the state that a lock guards.
///
/// By its type the order certifies the core numbers, no section is open, and the edges are those of the run's start after all entries;
/// what is so of each value is `Stands` in `specs/Journals.antt`. What the run and its table began with costs no bytes.
///
/// # Example
///
/// ```rust
/// use kc_graph::{Graph, Update, decompose_owned};
/// use kc_journal::{Journal, plan_held};
/// use kc_view::Scratch;
///
/// let graph = Graph::from_pairs(alloc, 4, &[(0, 1), (1, 2), (2, 3)])?;
/// let (words, mut journal, mut pass) = Journal::open(alloc, decompose_owned(alloc, graph)?, 0)?;
/// let update = Update { add: true, u: 0, v: 3 };
/// let (planned, _) = plan_held(alloc, &journal, Scratch::new(alloc, 4)?, update);
/// let entered = journal.enter(&words, &mut pass, 0, &planned?, None)?;
/// let receipt = entered.receipt; // Receipt { index: 0, place: 1, applied: true }
/// let core = journal.core_numbers(); // 2, 2, 2, 2
/// ```
#[derive(Drop)]
pub struct Journal {
    graph: SharedGraph,
    levels: Levels,
    edge_stamps: Vec<u32>,
    entries: Vec<Entry>,
    started: Snapshot<SharedGraph>,
    opened: Snapshot<SharedGraph>,
    opening_stamps: Snapshot<Vec<u32>>,
}

impl Model for Journal {
    ghost use Rattle.std.specs.Coded.{codes};
    ghost use Rattle.kc_graph.specs.Rows.{code_of_graph};
    ghost use Rattle.kc_journal.specs.Journals.{Journalled, Stands};

    ghost Value = { Journalled };

    ghost coded = { Prim.hlevel (codes, code_of_graph) };

    ghost view = { λ s. record {
      graph = s.graph;
      levels = s.levels;
      edge_stamps = s.edge_stamps.items;
      entries = s.entries.items;
      started = s.started.value;
      opened = s.opened.value;
      opening_stamps = s.opening_stamps.value.items;
    } };

    ghost invariant = { λ s. Stands (record {
      graph = s.graph;
      levels = s.levels;
      edge_stamps = s.edge_stamps.items;
      entries = s.entries.items;
      started = s.started.value;
      opened = s.opened.value;
      opening_stamps = s.opening_stamps.value.items;
    }) };
}

impl Journal {
    ghost use Rattle.kc_journal.specs.ListsAhead.{AreAhead};
    ghost use Rattle.kc_journal.specs.Answers.{IsAdmitted, IsCause, IsEntered};
    ghost use Rattle.kc_journal.specs.Entering.{MayEnter, WasReadOf};
    ghost use Rattle.kc_journal.specs.Journals.{IsFreshTable, MayGoOn, OpensRun, Renews, Stands, all_seen, fresh_pass, ranked};

    /// The journal of a new run, on a fresh table with this version. It has no entries, and all stamps are 0. `NoMemory` comes where there
    /// is none for the table and the stamps; `lawful` is then dropped. The graph is not copied.
    pub fn open(
        alloc: Global,
        lawful: Lawful,
        version: u32,
    ) -> Result<(Words, Journal, Pass), NoMemory>
        requires few { lawful.graph.size ≤ VERTICES }
        requires version { version ≤ LAST_VERSION }
        ensures { IfOk result (λ r. OpensRun lawful version r.0 r.1 r.2) }
    {
        let (graph, core, order) = lawful.into_parts();
        let graph = SharedGraph::from_graph(graph)?;
        let edge_stamps = vec![in alloc; 0u32; core.len()]?;
        let (words, levels, pass) = Levels::open(alloc, &order, &core, &edge_stamps, 0, version)?;
        let journal = Journal {
            started: Snapshot::of(&graph),
            opened: Snapshot::of(&graph),
            opening_stamps: Snapshot::of(&edge_stamps),
            graph,
            levels,
            edge_stamps,
            entries: Vec::new(alloc),
        };
        Ok((words, journal, pass))
    }

    /// Recalls to a proof what holds of each journal, and does nothing when it runs.
    pub fn recall_stands(&self)
        ensures { Stands self.now }
    {
        let _entries = self.entries.len();
    }

    /// How many vertices there are: they are the numbers below this.
    pub fn vertices(&self) -> u32
        ensures graph { result ≡ self.now.graph.size }
        ensures levels { result ≡ size_of self.now.levels }
    {
        self.graph.vertices()
    }

    /// The graph.
    pub fn graph(&self) -> &SharedGraph
        ensures { result.now ≡ self.now.graph }
    {
        &self.graph
    }

    /// The core number of a vertex.
    pub fn core(&self, v: u32) -> u32
        requires { v < size_of self.now.levels }
        ensures core { result ≡ slice_index self.now.levels.core v }
        ensures seidman { AreCoreNumbers self.now.graph self.now.levels.core }
    {
        self.levels.level_of(v)
    }

    /// The core number of each vertex, indexed by the vertex.
    pub fn core_numbers(&self) -> &[u32]
        ensures core { result.now ≡ self.now.levels.core }
        ensures seidman { AreCoreNumbers self.now.graph self.now.levels.core }
    {
        self.levels.core()
    }

    /// The number of the last entry that changed the edges of a vertex, or 0.
    pub fn edge_stamp(&self, v: u32) -> u32
        requires { v < size_of self.now.levels }
        ensures is { result ≡ slice_index self.now.edge_stamps v }
        ensures here { result ≡ edge_stamp self.now.levels.table self.now.opened self.now.opening_stamps self.now.levels.log v }
    {
        self.edge_stamps[v as usize]
    }

    /// The edge stamp of each vertex, indexed by the vertex.
    pub fn edge_stamps(&self) -> &Vec<u32>
        ensures { result.now.items ≡ self.now.edge_stamps }
    {
        &self.edge_stamps
    }

    /// The number of the last section of the table that put a vertex, or its opening stamp.
    pub fn place_stamp(&self, v: u32) -> u32
        requires { v < size_of self.now.levels }
        ensures { result ≡ place_stamp self.now.levels.table self.now.levels.log v }
    {
        self.levels.stamp(v)
    }

    /// Whether `x` stands before `y`.
    pub fn precedes(&self, x: u32, y: u32) -> bool
        requires vertices { (x < size_of self.now.levels) × (y < size_of self.now.levels) }
        requires differ { x ≢ y }
        ensures { result ≡ nat_lt (place_of x self.now.levels.order) (place_of y self.now.levels.order) }
    {
        self.levels.precedes(x, y)
    }

    /// The vertices in order, in a list of its own. It takes memory, and one walk.
    pub fn order(&self, alloc: Global) -> Result<Vec<u32>, NoMemory>
        ensures { IfOk result (λ order. order.items ≡ self.now.levels.order) }
    {
        order_of(alloc, &self.levels)
    }

    /// Graph, core numbers and order as a `Lawful` of its own, which shares no list with the journal. `NoMemory` comes where there is none
    /// for the copies.
    pub fn to_lawful(&self, alloc: Global) -> Result<Lawful, NoMemory>
        ensures { IfOk result (λ lawful. lawful ≡ ranked self.now) }
    {
        let graph = self.graph.to_graph(alloc)?;
        let core = Vec::from_slice(alloc, self.levels.core())?;
        let order = order_of(alloc, &self.levels)?;
        Lawful::new(alloc, graph, core, order)
    }

    /// The greatest core number, 0 where there is no vertex.
    pub fn top(&self) -> u32
        ensures { IsTop self.now.levels.core result }
    {
        self.levels.top()
    }

    /// The greatest version of a word of the table. An entry needs room for three more a vertex that it moves, and takes two at most; a
    /// fresh table has a small one again (`renew`). It is kept, not looked for.
    pub fn highest(&self) -> u32
        ensures { IsHighest self.now.levels.table self.now.levels.log result }
    {
        self.levels.highest()
    }

    /// All entries of the run, oldest first.
    pub fn entries(&self) -> &[Entry]
        ensures { result.now ≡ self.now.entries }
    {
        &self.entries
    }

    /// Tells a pass the whole log, of which it had seen a prefix.
    pub fn tell(&mut self, words: &Words, pass: &mut Pass)
        requires table { (pass.old.table ≡ words.now) × (self.old.levels.table ≡ words.now) }
        ensures same { self.new ≡ self.old }
        ensures told { pass.new ≡ all_seen self.old }
        ensures longer { IsPrefix pass.old.log self.old.levels.log }
    {
        self.levels.tell(words, pass);
    }

    /// Enters an update with the moves of its plan, where no stamp that the plan has used is less than the present one. First it tells
    /// the pass the whole log. All memory is taken before the first store, and none that the size of the graph counts for. Where the lists
    /// of both ends were made ahead, of lists that are the present ones, it copies none.
    ///
    /// The journal is as it was after each fault, and the pass has seen all that it had: so the same plan may be tried again. Of two causes
    /// that stand together the one that `EnterFault` names first comes.
    pub fn enter(
        &mut self,
        words: &Words,
        pass: &mut Pass,
        index: u32,
        plan: &Plan,
        ahead: Option<&ListsAhead>,
    ) -> Result<Entered, EnterFault>
        requires table { (pass.old.table ≡ words.now) × (self.old.levels.table ≡ words.now) }
        requires index { index < INDICES }
        requires within { plan.now.update.v < size_of self.old.levels }
        requires read { WasReadOf self.old pass.old.log plan.now }
        requires sure { IsSure plan.now }
        requires ahead { IfSome ahead (λ a. AreAhead self.old.levels.table self.old.opened pass.old.log plan.now.update a.now) }
        ensures entered { IfOk result (λ entered. IsEntered self.old self.new index plan.now entered) }
        ensures cause { IfErr result (λ fault. IsCause self.old plan.now fault) }
        ensures same { OnErr result (self.new ≡ self.old) }
        ensures told { pass.new ≡ all_seen self.old }
        ensures longer { IsPrefix pass.old.log self.old.levels.log }
    {
        self.levels.tell(words, pass);
        if let Some(fault) = self.refusal(plan) {
            return Err(fault);
        }
        let lists = add_entry(
            &self.graph,
            &self.edge_stamps,
            &mut self.entries,
            index,
            plan.update,
            ahead,
        )?;
        let place = self.entries.len() as u32;
        let lists = make_update(
            &mut self.graph,
            &mut self.edge_stamps,
            plan.update,
            lists,
            place,
        );
        make_section(&mut self.levels, words, index, plan);
        let receipt = Receipt {
            index,
            place,
            applied: lists.is_some(),
        };
        Ok(Entered { receipt, lists })
    }

    /// Goes on in a fresh table with this version: the same graph, core numbers, order, stamps and entries, of which the new table is told
    /// nothing but their number. It takes all memory before it changes anything; where there is none, the journal stays as it was. What
    /// the old table's log holds can be told to a pass before.
    pub fn renew(&mut self, alloc: Global, version: u32) -> Result<(Words, Pass), NoMemory>
        requires { version ≤ LAST_VERSION }
        ensures renewed { IfOk result (λ r. Renews self.old self.new version r.0 r.1) }
        ensures same { OnErr result (self.new ≡ self.old) }
    {
        let (words, levels, pass) = self.fresh_table(alloc, version)?;
        self.go_on_in(levels);
        Ok((words, pass))
    }

    /// A fresh table with this version in which the journal can go on: its levels have the order, core numbers and place stamps of now. It
    /// takes all memory that a renewal needs; who needs more may take it before the journal goes on there.
    pub fn fresh_table(
        &self,
        alloc: Global,
        version: u32,
    ) -> Result<(Words, Levels, Pass), NoMemory>
        requires { version ≤ LAST_VERSION }
        ensures { IfOk result (λ r. IsFreshTable self.now version r.0 r.1 r.2) }
    {
        let order = order_of(alloc, &self.levels)?;
        let base = self.entries.len() as u32;
        Levels::open(
            alloc,
            &order,
            self.levels.core(),
            self.levels.stamps(),
            base,
            version,
        )
    }

    /// Goes on in a fresh table, by levels that were made for the journal as it is. What the table opened with is what the journal has now.
    /// It takes no memory.
    pub fn go_on_in(&mut self, levels: Levels)
        requires { MayGoOn self.old levels }
        ensures { Renews self.old self.new levels.table.shape.version levels.table (fresh_pass levels.table) }
    {
        self.levels = levels;
        self.opened = Snapshot::of(&self.graph);
        self.opening_stamps = Snapshot::of(&self.edge_stamps);
    }

    /// Forgets the run's history, and opens a new run on the present graph, core numbers and order, in a fresh table with this version. There
    /// are then no entries, and all stamps are 0. Until there are so many vertices in all, vertices without edges are added, of core number 0
    /// and before all others. All memory is taken before anything changes; where there is none, the journal stays as it was. No list of
    /// neighbours is copied.
    pub fn restart(
        &mut self,
        alloc: Global,
        vertices: u32,
        version: u32,
    ) -> Result<(Words, Pass), NoMemory>
        requires more { self.old.graph.size ≤ vertices }
        requires few { vertices ≤ VERTICES }
        requires version { version ≤ LAST_VERSION }
        ensures restarted { IfOk result (λ r. OpensRun (grown vertices (ranked self.old)) version r.0 self.new r.1) }
        ensures same { OnErr result (self.new ≡ self.old) }
    {
        self.graph.recall_ends();
        let (core, order) = numbers_and_order(alloc, &self.levels, vertices)?;
        let edge_stamps = vec![in alloc; 0u32; core.len()]?;
        let (words, levels, pass) = Levels::open(alloc, &order, &core, &edge_stamps, 0, version)?;
        self.graph.grow(alloc, vertices)?;
        self.levels = levels;
        self.edge_stamps = edge_stamps;
        self.entries = Vec::new(alloc);
        self.started = Snapshot::of(&self.graph);
        self.opened = Snapshot::of(&self.graph);
        self.opening_stamps = Snapshot::of(&self.edge_stamps);
        Ok((words, pass))
    }

    /// What stands against a plan, if anything does.
    fn refusal(&self, plan: &Plan) -> Option<EnterFault>
        requires { MayEnter self.now plan.now }
        ensures { MatchOption result (IsAdmitted self.now plan.now) (λ fault. IsCause self.now plan.now fault) }
    {
        if self.entries.len() >= LAST_NUMBER as usize {
            return Some(EnterFault::Full {
                entries: self.entries.len() as u32,
            });
        }
        if let Some(stale) = first_stale(&plan.used, &self.edge_stamps, self.levels.stamps()) {
            return Some(EnterFault::Stale {
                vertex: stale.vertex,
                edges: stale.edges,
                used: stale.used,
                now: stale.now,
            });
        }
        let highest = self.levels.highest();
        let needed = versions_needed(&plan.moves);
        if highest > LAST_VERSION - needed {
            return Some(EnterFault::Spent { highest, needed });
        }
        None
    }
}

impl State for Journal {
    ghost use Rattle.kc_journal.specs.Journals.{ranked};

    ghost state = { ranked };

    fn vertices(&self) -> u32 {
        self.graph.vertices()
    }

    fn degree(&self, v: u32) -> u32 {
        // There are fewer neighbours than vertices, whose number fits.
        let _vertices = self.graph.vertices();
        self.graph.neighbours(v).len() as u32
    }

    fn neighbour(&self, v: u32, i: u32) -> u32 {
        self.graph.neighbours(v)[i as usize]
    }

    fn core(&self, v: u32) -> u32 {
        self.levels.level_of(v)
    }

    fn precedes(&self, x: u32, y: u32) -> bool {
        self.levels.precedes(x, y)
    }
}
