//! The core numbers from before a batch of updates, of the vertices that it moves.
ghost use Rattle.std.specs.Prelude.{◌≡◌, ◌<◌, ◌≤◌, ℕ, true, List, [], All, OnOk, length, map, slice_index};
ghost use Rattle.kc_lists.specs.Lists.{member};
ghost use Rattle.kc_cert.specs.Stands.{leaving};
ghost use Rattle.kc_keeper.specs.Cores.{AreCoreChanges, changed_vertices};
ghost use Rattle.kc_keeper.specs.Earlier.{AreEarlier, AreIndexed, AreKept, KeepsEarlier, with_number_now};

use crate::changes::CoreChange;
use kc_graph::{Moves, NoMemory};
use std::alloc::Global;

/// A vertex stands in the list from the first update on that is to move it, with the number that it had then. Its place in the list is kept
/// under the vertex; what stands under other vertices means nothing, so that no batch has to begin with a table that is cleared.
#[derive(Drop)]
pub(crate) struct EarlierNumbers {
    pub(crate) cores: Vec<CoreChange>,
    pub(crate) places: Vec<usize>,
}

impl EarlierNumbers {
    /// None. It takes no memory.
    pub(crate) fn new(alloc: Global) -> EarlierNumbers
        ensures { result.cores.items ≡ [] }
    {
        EarlierNumbers {
            cores: Vec::new(alloc),
            places: Vec::new(alloc),
        }
    }

    /// Makes room for a place of each vertex.
    fn reach(&mut self, vertices: usize) -> Result<(), NoMemory>
        ensures cores { self.new.cores ≡ self.old.cores }
        ensures places { (v : ℕ) → slice_index self.new.places.items v ≡ slice_index self.old.places.items v }
        ensures room { OnOk result (vertices ≤ length self.new.places.items) }
    {
        if self.places.len() < vertices {
            self.places.resize(vertices, 0)?;
        }
        Ok(())
    }

    /// Keeps the number of a vertex, unless one from before is kept.
    fn keep(&mut self, vertex: u32, number: u32) -> Result<(), NoMemory>
        requires { vertex < length self.old.places.items }
        ensures kept { (core : List ℕ) → vertex < length core → slice_index core vertex ≡ number → KeepsEarlier core core self.old self.new }
        ensures here { OnOk result (member vertex (changed_vertices self.new.cores.items) ≡ true) }
        ensures stay { (v : ℕ) → member v (changed_vertices self.old.cores.items) ≡ true → member v (changed_vertices self.new.cores.items) ≡ true }
        ensures room { length self.new.places.items ≡ length self.old.places.items }
    {
        if stands_in(&self.cores, &self.places, vertex) {
            return Ok(());
        }
        let place = self.cores.len();
        self.cores.push(CoreChange {
            vertex,
            before: number,
            now: number,
        })?;
        self.places[vertex as usize] = place;
        Ok(())
    }

    /// Keeps the numbers of vertices, but for those of which one from before is kept.
    fn keep_all(&mut self, vertices: &[u32], core: &[u32]) -> Result<(), NoMemory>
        requires { All (λ v. v < length core.now) vertices.now }
        ensures kept { KeepsEarlier core.now core.now self.old self.new }
        ensures here { OnOk result (All (λ v. member v (changed_vertices self.new.cores.items) ≡ true) vertices.now) }
    {
        self.reach(core.len())?;
        for vertex in vertices {
            self.keep(*vertex, core[*vertex as usize])?;
        }
        Ok(())
    }

    /// Keeps the numbers that vertices have before these moves change them.
    pub(crate) fn keep_moved(&mut self, moves: &Moves, core: &[u32]) -> Result<(), NoMemory>
        requires { All (λ v. v < length core.now) (leaving moves.now) }
        ensures kept { KeepsEarlier core.now core.now self.old self.new }
        ensures here { OnOk result (AreKept moves.now self.new) }
    {
        match moves {
            Moves::Kept | Moves::Plain => Ok(()),
            Moves::Rise { rise, .. } => self.keep_all(rise, core),
            Moves::Fall { fall, .. } => self.keep_all(fall, core),
        }
    }

    /// Leaves the vertices whose number is another one now, in ascending order, with both numbers.
    pub(crate) fn settle(&mut self, core: &[u32])
        requires { All (λ c. c.vertex < length core.now) self.old.cores.items }
        ensures { (start : List ℕ) → AreEarlier start core.now self.old → AreCoreChanges start core.now self.new.cores.items }
    {
        put_numbers(&mut self.cores, core);
        self.cores.retain(|change| change.before != change.now);
        self.cores.sort_unstable_by_key(|change| change.vertex);
    }
}

/// Puts beside the earlier number of each vertex the one that it has now.
fn put_numbers(changes: &mut [CoreChange], core: &[u32])
    requires { All (λ c. c.vertex < length core.now) changes.old }
    ensures { changes.new ≡ map (with_number_now core.now) changes.old }
{
    for change in changes.iter_mut() {
        change.now = core[change.vertex as usize];
    }
}

/// Whether a vertex stands in the list, where the place of each that does is kept under it.
fn stands_in(changes: &[CoreChange], places: &[usize], vertex: u32) -> bool
    requires { vertex < length places.now }
    ensures there { result ≡ true → member vertex (changed_vertices changes.now) ≡ true }
    ensures same { AreIndexed places.now (changed_vertices changes.now) → result ≡ member vertex (changed_vertices changes.now) }
{
    let place = places[vertex as usize];
    place < changes.len() && changes[place].vertex == vertex
}
