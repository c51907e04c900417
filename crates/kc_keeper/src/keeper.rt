//! A graph with its core numbers, kept right while edges come and go.
ghost use Rattle.std.specs.Prelude.{◌≡◌, ◌<◌, ◌≤◌, ◌+◌, ◌⊎◌, ℕ, [], IfErr, IfOk, MatchOption, OnErr, OnOk, nat_lt, not};
ghost use Rattle.std.specs.Prelude.{slice_index};
ghost use Rattle.kc_lists.specs.Lists.{place_of};
ghost use Rattle.kc_graph.specs.Core.{AreCoreNumbers, greatest};
ghost use Rattle.kc_graph.specs.Growing.{grown, with_vertices};
ghost use Rattle.kc_graph.specs.Lawful.{IsCertified};
ghost use Rattle.kc_graph.specs.Plans.{is_applied, updated};
ghost use Rattle.kc_keeper.specs.Batches.{applied_in_turn, count_applied, made_in_turn, updates_made};
ghost use Rattle.kc_keeper.specs.Causes.{EndsAreWithin, IsApplyCause, IsGrowCause, IsOpenCause, IsUpdateCause};
ghost use Rattle.kc_keeper.specs.Cores.{AreCoreChanges};
ghost use Rattle.kc_keeper.specs.Earlier.{KeepsEarlier};
ghost use Rattle.kc_keeper.specs.Keepers.{IsUpdated};
ghost use Rattle.kc_keeper.specs.Members.{AreCoreMembers, AreLevelMembers};
ghost use Rattle.kc_keeper.specs.Telling.{HasMadeBatch, IsToldOf, TellsOneMore, TellsTheSame};

use crate::at_once::{is_large, make_all_in, tell_cores};
use crate::changes::Changes;
use crate::earlier::EarlierNumbers;
use crate::entering::{enter_plan, first_outside, plan_update};
use crate::fault::{ApplyFault, GrowFault, OpenFault, UpdateFault};
use crate::members::{list_at_least, list_equal};
use kc_graph::{Lawful, NoMemory, SharedGraph, Update, decompose_owned};
use kc_journal::{EnterFault, Journal};
use kc_table::{Pass, Words};
use kc_view::Scratch;
use kc_words::VERTICES;
use std::alloc::Global;
use std::marker::Model;
use std::mem;

/// How many entries the history may have however few edges there are.
const SHORT_HISTORY: u64 = 65_536;

/// A graph with the core number of each vertex and an order of the vertices that certifies the numbers, as a `Lawful` is one, that is
/// changed edge by edge.
///
/// # Example
///
/// ```rust
/// use kc_graph::{Graph, Update, decompose_owned};
/// use kc_keeper::Keeper;
///
/// let graph = Graph::from_pairs(alloc, 3, &[(0, 1), (1, 2)])?;
/// let mut keeper = Keeper::open(alloc, decompose_owned(alloc, graph)?)?;
/// let applied = keeper.update(alloc, Update { add: true, u: 0, v: 2 })?; // true
/// keeper.grow(alloc, 4)?;
/// let core = keeper.core_numbers(); // 2, 2, 2, 0
/// let order = keeper.order(alloc)?; // begins with 3: the numbers never fall along it
/// ```
#[derive(Drop)]
pub struct Keeper {
    words: Words,
    journal: Journal,
    pass: Pass,
    scratch: Scratch,
    earlier: EarlierNumbers,
}

impl Model for Keeper {
    ghost use Rattle.kc_graph.specs.Lawful.{Ranked};
    ghost use Rattle.kc_graph.specs.LawfulCode.{code_of_ranked};
    ghost use Rattle.kc_journal.specs.Journals.{ranked};
    ghost use Rattle.kc_keeper.specs.Keepers.{FitTogether};

    ghost Value = { Ranked };

    ghost coded = { code_of_ranked };

    ghost view = { λ k. ranked k.journal };

    ghost invariant = { λ k. FitTogether k.words k.journal k.pass k.scratch };
}

impl Keeper {
    /// Keeps a graph whose core numbers are known. Where it refuses, `lawful` is dropped.
    ///
    /// # Example
    ///
    /// ```rust
    /// use kc_graph::{Graph, decompose_owned};
    /// use kc_keeper::Keeper;
    ///
    /// let graph = Graph::from_pairs(alloc, 4, &[(0, 1), (0, 2), (1, 2), (2, 3)])?;
    /// let keeper = Keeper::open(alloc, decompose_owned(alloc, graph)?)?;
    /// let number = keeper.core(2); // Some(2)
    /// let none = keeper.core(4); // None: there is no such vertex
    /// let before = keeper.precedes(3, 0); // Some(true): 3 has the core number 1, and 0 has 2
    /// ```
    pub fn open(alloc: Global, lawful: Lawful) -> Result<Keeper, OpenFault>
        ensures kept { IfOk result (λ keeper. keeper ≡ lawful) }
        ensures cause { IfErr result (λ fault. IsOpenCause lawful.graph.size fault) }
    {
        let vertices = lawful.graph().vertices();
        if vertices > VERTICES {
            return Err(OpenFault::TooManyVertices { vertices });
        }
        let scratch = Scratch::new(alloc, vertices)?;
        let (words, journal, pass) = Journal::open(alloc, lawful, 0)?;
        Ok(Keeper {
            words,
            journal,
            pass,
            scratch,
            earlier: EarlierNumbers::new(alloc),
        })
    }

    /// Recalls to a proof what holds of each keeper, and does nothing when it runs.
    pub fn recall_certified(&self)
        ensures certified { IsCertified self.now }
        ensures seidman { AreCoreNumbers self.now.graph self.now.core }
    {
        self.journal.recall_stands();
        let _numbers = self.journal.core_numbers();
    }

    /// How many vertices there are: they are the numbers below this.
    pub fn vertices(&self) -> u32
        ensures size { result ≡ self.now.graph.size }
        ensures few { result ≤ VERTICES }
    {
        self.journal.recall_stands();
        self.journal.vertices()
    }

    /// The graph.
    pub fn graph(&self) -> &SharedGraph
        ensures { result.now ≡ self.now.graph }
    {
        self.journal.graph()
    }

    /// The core number of a vertex; none where there is no such vertex.
    pub fn core(&self, v: u32) -> Option<u32>
        ensures number { MatchOption result (self.now.graph.size ≤ v) (λ k. (v < self.now.graph.size) × (k ≡ slice_index self.now.core v)) }
        ensures seidman { AreCoreNumbers self.now.graph self.now.core }
    {
        self.recall_certified();
        self.core_numbers().get(v as usize).copied()
    }

    /// The core number of each vertex, indexed by the vertex.
    pub fn core_numbers(&self) -> &[u32]
        ensures core { result.now ≡ self.now.core }
        ensures seidman { AreCoreNumbers self.now.graph result.now }
    {
        self.journal.core_numbers()
    }

    /// The greatest core number, 0 where there is no vertex. It is kept, not looked for.
    pub fn top(&self) -> u32
        ensures { result ≡ greatest self.now.core }
    {
        self.journal.top()
    }

    /// Whether `x` stands before `y` in the order that certifies the numbers; none where one of them is no vertex.
    pub fn precedes(&self, x: u32, y: u32) -> Option<bool>
        ensures { MatchOption result
            ((self.now.graph.size ≤ x) ⊎ (self.now.graph.size ≤ y))
            (λ before. (x < self.now.graph.size) × (y < self.now.graph.size)
            × (before ≡ nat_lt (place_of x self.now.order) (place_of y self.now.order))) }
    {
        let vertices = self.journal.vertices();
        if x >= vertices || y >= vertices {
            return None;
        }
        Some(x != y && self.journal.precedes(x, y))
    }

    /// The vertices in the order that certifies the numbers, in a list of its own.
    pub fn order(&self, alloc: Global) -> Result<Vec<u32>, NoMemory>
        ensures { IfOk result (λ order. order.items ≡ self.now.order) }
    {
        self.journal.order(alloc)
    }

    /// Makes a list of the vertices of the k-core, those whose core number is at least `k`, in ascending order, in place of what the list
    /// held. Where there is no memory for it the list is empty. It reads all core numbers, in time linear in the vertices.
    pub fn core_members(&self, k: u32, members: &mut Vec<u32>) -> Result<(), NoMemory>
        ensures members { OnOk result (AreCoreMembers self.now.graph k members.new.items) }
        ensures emptied { OnErr result (members.new.items ≡ []) }
    {
        let _vertices = self.vertices();
        let listed = list_at_least(k, self.core_numbers(), members);
        if listed.is_err() {
            members.clear();
        }
        listed
    }

    /// Makes a list of the vertices of core number `k`, in ascending order, in place of what the list held. Where there is no memory for it
    /// the list is empty. It reads all core numbers, in time linear in the vertices.
    pub fn level_members(&self, k: u32, members: &mut Vec<u32>) -> Result<(), NoMemory>
        ensures members { OnOk result (AreLevelMembers self.now.graph k members.new.items) }
        ensures emptied { OnErr result (members.new.items ≡ []) }
    {
        let _vertices = self.vertices();
        let listed = list_equal(k, self.core_numbers(), members);
        if listed.is_err() {
            members.clear();
        }
        listed
    }

    /// Graph, core numbers and order as a `Lawful` of its own, which shares no list with the keeper. `NoMemory` comes where there is none
    /// for the copies.
    pub fn to_lawful(&self, alloc: Global) -> Result<Lawful, NoMemory>
        ensures { IfOk result (λ lawful. lawful ≡ self.now) }
    {
        self.journal.to_lawful(alloc)
    }

    /// Adds the update's edge, or removes it, and tells whether the graph changed: an edge that is there is not added again, and one that
    /// is not there can't be removed. Core numbers and order are then those of the new graph. Where it refuses, nothing has changed.
    ///
    /// # Example
    ///
    /// ```rust
    /// use kc_graph::Update;
    ///
    /// // The keeper has the path 0, 1, 2.
    /// let add = Update { add: true, u: 0, v: 2 };
    /// let applied = keeper.update(alloc, add)?; // true
    /// let again = keeper.update(alloc, add)?; // false: the edge is there
    /// let core = keeper.core_numbers(); // 2, 2, 2
    /// let refused = keeper.update(alloc, Update { add: true, u: 0, v: 9 }); // Err(NoVertex { vertex: 9 })
    /// ```
    pub fn update(&mut self, alloc: Global, update: Update) -> Result<bool, UpdateFault>
        ensures graph { IfOk result (λ _. self.new.graph ≡ updated update self.old.graph) }
        ensures applied { IfOk result (λ applied. applied ≡ is_applied update self.old.graph) }
        ensures certified { IsCertified self.new }
        ensures seidman { AreCoreNumbers self.new.graph self.new.core }
        ensures same { OnErr result (self.new ≡ self.old) }
        ensures cause { IfErr result (λ fault. IsUpdateCause self.old.graph.size update fault) }
    {
        self.recall_certified();
        if update.v >= self.vertices() {
            return Err(UpdateFault::NoVertex { vertex: update.v });
        }
        let mut earlier = self.take_earlier(alloc);
        let made = self.make(alloc, update, &mut earlier);
        self.earlier = earlier;
        self.recall_certified();
        Ok(made?)
    }

    /// Makes updates in turn, and tells what they changed: how many added their edge and how many removed it, which changed the graph, and
    /// which vertices have another core number after the call than before it. What `changes` held before is forgotten. Where an end of an
    /// update is no vertex, none is made, and nothing has changed. Where there is no memory for one, those before it are made, it and the
    /// others are not, and `changes` tells of those that are.
    ///
    /// Beside what the updates cost, it takes the time of sorting the vertices whose core numbers the updates moved. The first update of a
    /// keeper that moves one makes room for a place of each vertex, as does the first after the keeper has grown.
    ///
    /// # Example
    ///
    /// ```rust
    /// use kc_graph::Update;
    /// use kc_keeper::Changes;
    ///
    /// // The keeper has the path 0, 1, 2, and the vertex 3.
    /// let batch = [Update { add: true, u: 0, v: 2 }, Update { add: true, u: 0, v: 1 }];
    /// let mut changes = Changes::new(alloc);
    /// keeper.apply(alloc, &batch, &mut changes)?;
    /// let added = changes.added; // 1: the edge of 0 and 1 was there
    /// let moved = changes.cores.as_slice(); // 0, 1 and 2, each with 1 before and 2 now
    /// ```
    pub fn apply(
        &mut self,
        alloc: Global,
        updates: &[Update],
        changes: &mut Changes,
    ) -> Result<(), ApplyFault>
        ensures graph { self.new.graph ≡ made_in_turn self.old.graph (updates_made result updates.now) }
        ensures added { changes.new.added ≡ count_applied (λ u. u.add) self.old.graph (updates_made result updates.now) }
        ensures removed { changes.new.removed ≡ count_applied (λ u. not u.add) self.old.graph (updates_made result updates.now) }
        ensures applied { changes.new.applied.items ≡ applied_in_turn self.old.graph (updates_made result updates.now) }
        ensures cores { AreCoreChanges self.old.core self.new.core changes.new.cores.items }
        ensures cause { IfErr result (λ fault. IsApplyCause self.old updates.now self.new fault) }
        ensures certified { IsCertified self.new }
        ensures seidman { AreCoreNumbers self.new.graph self.new.core }
    {
        self.recall_certified();
        changes.clear();
        if let Some((place, vertex)) = first_outside(updates, self.vertices()) {
            return Err(ApplyFault::NoVertex { place, vertex });
        }
        let made = self.apply_within(alloc, updates, changes);
        self.recall_certified();
        made
    }

    /// Makes updates whose ends are vertices: at once where the batch is large, and there is memory for that; else one after the other.
    fn apply_within(
        &mut self,
        alloc: Global,
        updates: &[Update],
        changes: &mut Changes,
    ) -> Result<(), ApplyFault>
        requires { EndsAreWithin self.old.graph.size updates.now }
        ensures made { HasMadeBatch self.old (updates_made result updates.now) self.new changes.new }
        ensures cause { IfErr result (λ fault. IsApplyCause self.old updates.now self.new fault) }
    {
        if !is_large(self.vertices(), self.graph().edges(), updates.len()) {
            return self.apply_in_turn(alloc, updates, changes);
        }
        match self.apply_at_once(alloc, updates, changes) {
            Ok(()) => Ok(()),
            Err(_) => self.apply_in_turn(alloc, updates, changes),
        }
    }

    /// Makes updates in a copy of the graph, whose core numbers are computed anew, and goes on with it in a fresh table. All memory is taken
    /// before the keeper changes. Where there is none for that, the keeper is as it was, and what `changes` tells means nothing.
    fn apply_at_once(
        &mut self,
        alloc: Global,
        updates: &[Update],
        changes: &mut Changes,
    ) -> Result<(), NoMemory>
        requires { EndsAreWithin self.old.graph.size updates.now }
        ensures made { OnOk result (HasMadeBatch self.old updates.now self.new changes.new) }
        ensures same { OnErr result (self.new ≡ self.old) }
    {
        let _vertices = self.vertices();
        changes.clear();
        let mut graph = self.graph().to_graph(alloc)?;
        make_all_in(alloc, &mut graph, updates, changes)?;
        let lawful = decompose_owned(alloc, graph)?;
        tell_cores(self.core_numbers(), lawful.core(), &mut changes.cores)?;
        self.go_on_with(alloc, lawful)
    }

    /// Goes on with another state of as many vertices, in a fresh table. At `NoMemory` nothing has changed.
    fn go_on_with(&mut self, alloc: Global, lawful: Lawful) -> Result<(), NoMemory>
        requires { lawful.graph.size ≡ self.old.graph.size }
        ensures state { OnOk result (self.new ≡ lawful) }
        ensures same { OnErr result (self.new ≡ self.old) }
    {
        let _vertices = self.vertices();
        let (words, journal, pass) = Journal::open(alloc, lawful, 0)?;
        self.words = words;
        self.journal = journal;
        self.pass = pass;
        Ok(())
    }

    /// Enters updates one after the other.
    fn apply_in_turn(
        &mut self,
        alloc: Global,
        updates: &[Update],
        changes: &mut Changes,
    ) -> Result<(), ApplyFault>
        requires { EndsAreWithin self.old.graph.size updates.now }
        ensures made { HasMadeBatch self.old (updates_made result updates.now) self.new changes.new }
        ensures cause { IfErr result (λ fault. IsApplyCause self.old updates.now self.new fault) }
    {
        changes.clear();
        let mut earlier = self.take_earlier(alloc);
        let made = self.make_all(alloc, updates, changes, &mut earlier);
        earlier.settle(self.core_numbers());
        mem::swap(&mut changes.cores, &mut earlier.cores);
        self.earlier = earlier;
        made
    }

    /// The list of earlier numbers, empty. Nothing that contracts see changes.
    fn take_earlier(&mut self, alloc: Global) -> EarlierNumbers
        ensures same { self.new ≡ self.old }
        ensures earlier { result.cores.items ≡ [] }
    {
        let mut earlier = mem::replace(&mut self.earlier, EarlierNumbers::new(alloc));
        earlier.cores.clear();
        earlier
    }

    /// Makes updates in turn, tells which changed the graph, and keeps the numbers from before of the vertices that they move.
    fn make_all(
        &mut self,
        alloc: Global,
        updates: &[Update],
        changes: &mut Changes,
        earlier: &mut EarlierNumbers,
    ) -> Result<(), ApplyFault>
        requires within { EndsAreWithin self.old.graph.size updates.now }
        requires nothing { IsToldOf self.old.graph [] changes.old }
        ensures graph { self.new.graph ≡ made_in_turn self.old.graph (updates_made result updates.now) }
        ensures told { IsToldOf self.old.graph (updates_made result updates.now) changes.new }
        ensures earlier { KeepsEarlier self.old.core self.new.core earlier.old earlier.new }
        ensures cause { IfErr result (λ fault. IsApplyCause self.old updates.now self.new fault) }
        ensures certified { IsCertified self.new }
        ensures seidman { AreCoreNumbers self.new.graph self.new.core }
    {
        self.recall_certified();
        for (made, update) in updates.iter().enumerate() {
            let Ok(()) = self.make_one(alloc, *update, changes, earlier) else {
                return Err(ApplyFault::NoMemory { made });
            };
        }
        Ok(())
    }

    /// Makes an update, and tells whether it changed the graph.
    fn make_one(
        &mut self,
        alloc: Global,
        update: Update,
        changes: &mut Changes,
        earlier: &mut EarlierNumbers,
    ) -> Result<(), NoMemory>
        requires vertex { update.v < self.old.graph.size }
        requires fits { changes.old.added + changes.old.removed < usize.MAX }
        ensures graph { OnOk result (self.new.graph ≡ updated update self.old.graph) }
        ensures told { OnOk result (TellsOneMore self.old.graph update changes.old changes.new) }
        ensures same { OnErr result (self.new ≡ self.old) }
        ensures untold { OnErr result (TellsTheSame changes.old changes.new) }
        ensures earlier { KeepsEarlier self.old.core self.new.core earlier.old earlier.new }
        ensures certified { IsCertified self.new }
        ensures seidman { AreCoreNumbers self.new.graph self.new.core }
    {
        self.recall_certified();
        changes.applied.reserve(1)?;
        let made = self.make(alloc, update, earlier);
        self.recall_certified();
        let applied = made?;
        changes.tell(update, applied);
        Ok(())
    }

    /// Adds vertices behind the last one, until there are so many in all. They have no edges and core number 0, and the others keep their
    /// core numbers and their order. Where it refuses, nothing has changed. No list of neighbours is copied, but all else is made anew.
    pub fn grow(&mut self, alloc: Global, vertices: u32) -> Result<(), GrowFault>
        ensures grown { IfOk result (λ _. self.new ≡ grown vertices self.old) }
        ensures graph { IfOk result (λ _. self.new.graph ≡ with_vertices vertices self.old.graph) }
        ensures old_numbers { IfOk result (λ _. (v : ℕ) → v < self.old.graph.size → slice_index self.new.core v ≡ slice_index self.old.core v) }
        ensures new_numbers { IfOk result (λ _. (v : ℕ) → self.old.graph.size ≤ v → v < vertices → slice_index self.new.core v ≡ 0) }
        ensures certified { IsCertified self.new }
        ensures seidman { AreCoreNumbers self.new.graph self.new.core }
        ensures same { OnErr result (self.new ≡ self.old) }
        ensures cause { IfErr result (λ fault. IsGrowCause self.old.graph.size vertices fault) }
    {
        self.recall_certified();
        let now = self.vertices();
        if vertices > VERTICES {
            return Err(GrowFault::TooManyVertices { vertices });
        }
        if vertices < now {
            return Err(GrowFault::FewerVertices { vertices, now });
        }
        self.grow_to(alloc, vertices)?;
        Ok(())
    }

    /// Adds vertices until there are so many in all, as many as there may be or fewer. At `NoMemory` nothing has changed.
    fn grow_to(&mut self, alloc: Global, vertices: u32) -> Result<(), NoMemory>
        requires more { self.old.graph.size ≤ vertices }
        requires few { vertices ≤ VERTICES }
        ensures grown { IfOk result (λ _. self.new ≡ grown vertices self.old) }
        ensures graph { IfOk result (λ _. self.new.graph ≡ with_vertices vertices self.old.graph) }
        ensures old_numbers { IfOk result (λ _. (v : ℕ) → v < self.old.graph.size → slice_index self.new.core v ≡ slice_index self.old.core v) }
        ensures new_numbers { IfOk result (λ _. (v : ℕ) → self.old.graph.size ≤ v → v < vertices → slice_index self.new.core v ≡ 0) }
        ensures certified { IsCertified self.new }
        ensures seidman { AreCoreNumbers self.new.graph self.new.core }
        ensures same { OnErr result (self.new ≡ self.old) }
    {
        self.recall_certified();
        let made = self.restart_with(alloc, vertices);
        self.recall_certified();
        made
    }

    /// Makes the update, in a fresh table where numbers or versions are spent.
    fn make(
        &mut self,
        alloc: Global,
        update: Update,
        earlier: &mut EarlierNumbers,
    ) -> Result<bool, NoMemory>
        requires vertex { update.v < self.old.graph.size }
        ensures made { IfOk result (λ applied. IsUpdated update self.old self.new applied) }
        ensures same { OnErr result (self.new ≡ self.old) }
        ensures earlier { KeepsEarlier self.old.core self.new.core earlier.old earlier.new }
    {
        if self.has_long_history() {
            // Where there is no memory for that, the history goes on.
            let _ = self.forget_history(alloc);
        }
        match self.enter(alloc, update, earlier) {
            Ok(applied) => Ok(applied),
            Err(EnterFault::NoMemory) => Err(NoMemory),
            Err(_) => self.enter_anew(alloc, update, earlier),
        }
    }

    /// Plans the update and enters it, where numbers and versions last.
    fn enter(
        &mut self,
        alloc: Global,
        update: Update,
        earlier: &mut EarlierNumbers,
    ) -> Result<bool, EnterFault>
        requires vertex { update.v < self.old.graph.size }
        ensures made { IfOk result (λ applied. IsUpdated update self.old self.new applied) }
        ensures same { OnErr result (self.new ≡ self.old) }
        ensures earlier { KeepsEarlier self.old.core self.new.core earlier.old earlier.new }
    {
        let _vertices = self.journal.vertices();
        let Ok(plan) = plan_update(alloc, &self.journal, &mut self.scratch, earlier, update) else {
            return Err(EnterFault::NoMemory);
        };
        enter_plan(&self.words, &mut self.journal, &mut self.pass, &plan)
    }

    /// Plans the update and enters it in a fresh table, where numbers and versions last: it is refused only for want of memory.
    fn enter_anew(
        &mut self,
        alloc: Global,
        update: Update,
        earlier: &mut EarlierNumbers,
    ) -> Result<bool, NoMemory>
        requires vertex { update.v < self.old.graph.size }
        ensures made { IfOk result (λ applied. IsUpdated update self.old self.new applied) }
        ensures same { OnErr result (self.new ≡ self.old) }
        ensures earlier { KeepsEarlier self.old.core self.new.core earlier.old earlier.new }
    {
        self.journal.recall_stands();
        let vertices = self.journal.vertices();
        let (words, pass) = self.journal.restart(alloc, vertices, 0)?;
        self.words = words;
        self.pass = pass;
        let plan = plan_update(alloc, &self.journal, &mut self.scratch, earlier, update)?;
        match enter_plan(&self.words, &mut self.journal, &mut self.pass, &plan) {
            Ok(applied) => Ok(applied),
            Err(fault) if fault == EnterFault::NoMemory => Err(NoMemory),
            Err(_) => unreachable!(),
        }
    }

    /// Goes on in a fresh table for so many vertices.
    fn restart_with(&mut self, alloc: Global, vertices: u32) -> Result<(), NoMemory>
        requires more { self.old.graph.size ≤ vertices }
        requires few { vertices ≤ VERTICES }
        ensures grown { IfOk result (λ _. self.new ≡ grown vertices self.old) }
        ensures same { OnErr result (self.new ≡ self.old) }
    {
        let scratch = Scratch::new(alloc, vertices)?;
        let (words, pass) = self.journal.restart(alloc, vertices, 0)?;
        self.words = words;
        self.pass = pass;
        self.scratch = scratch;
        Ok(())
    }

    /// Whether more was entered than the graph has edges, and than a short history has entries.
    fn has_long_history(&self) -> bool {
        let entries = self.journal.entries().len() as u64;
        entries > self.journal.graph().edges().saturating_add(SHORT_HISTORY)
    }

    /// Forgets what was entered, and goes on in a fresh table. Nothing that contracts see changes.
    fn forget_history(&mut self, alloc: Global) -> Result<(), NoMemory>
        ensures { self.new ≡ self.old }
    {
        self.journal.recall_stands();
        let vertices = self.journal.vertices();
        let (words, pass) = self.journal.restart(alloc, vertices, 0)?;
        self.words = words;
        self.pass = pass;
        Ok(())
    }
}
