//! Counts the edges of a stream as they come, by the numbers and ranks that their ends are told.
ghost use Rattle.std.specs.Prelude.{◌≡◌, ◌<◌, ◌^◌, ◌++◌, ℕ, List, [], ◌∷◌, OnOk, IfOk, length};
ghost use Rattle.std.specs.List.Sorted.{IsStrictlyIncreasing};
ghost use Rattle.kc_graph.specs.Peeling.{at};
ghost use Rattle.kc_graph.specs.declared.bulk.Edge.{Edge};
ghost use Rattle.kc_text.specs.Forms.{all_said};
ghost use Rattle.kc_text.specs.Lines.{EndsLine};
ghost use Rattle.kc_tally.specs.Lists.{last_edge};
ghost use Rattle.kc_claims.specs.Places.{ArePlaces};
ghost use Rattle.kc_claims.specs.Sweeping.{AreToldBy, HasCounted, HasSwept};

use crate::fault::Untaken;
use crate::places::Places;
use kc_graph::{Edge, NoMemory};
use kc_tally::count;
use kc_text::Limits;
use std::alloc::Global;

/// The numbers and ranks that vertices are told, and the counts of the edges that came.
#[derive(Drop)]
pub(crate) struct Sweep {
    /// Ascending: the vertex `v` stands for `ids[v]`.
    pub(crate) ids: Vec<u32>,
    pub(crate) places: Places,
    pub(crate) core: Vec<u32>,
    pub(crate) rank: Vec<u32>,
    /// How many later neighbours each vertex has.
    pub(crate) later: Vec<u32>,
    /// How many supporters each vertex has.
    pub(crate) supporters: Vec<u32>,
    /// The edges of the lines that are being taken.
    pub(crate) edges: Vec<Edge>,
    /// The edge that came last.
    last: Option<Edge>,
    /// How many edges came.
    count: usize,
}

/// No count for each of so many vertices.
fn no_counts(alloc: Global, vertices: usize) -> Result<Vec<u32>, NoMemory>
    ensures one_each { IfOk result (λ counts. length counts.items ≡ vertices) }
    ensures none { IfOk result (λ counts. (v : ℕ) → at counts.items v ≡ 0) }
{
    vec![in alloc; 0u32; vertices]
}

/// The last edge of a list, or the one before it where it is empty.
fn last_edge(before: Option<Edge>, edges: &[Edge]) -> Option<Edge>
    ensures { result ≡ last_edge before edges.now }
{
    match edges.last() {
        Some(edge) => Some(*edge),
        None => before,
    }
}

impl Sweep {
    /// No edge came.
    pub(crate) fn new(
        alloc: Global,
        ids: Vec<u32>,
        core: Vec<u32>,
        rank: Vec<u32>,
    ) -> Result<Sweep, NoMemory>
        requires ascending { IsStrictlyIncreasing ids.items }
        requires few { length ids.items < 2 ^ 32 }
        requires numbered { length core.items ≡ length ids.items }
        requires ranked { length rank.items ≡ length ids.items }
        ensures fresh { IfOk result (λ sweep. HasSwept sweep sweep []) }
        ensures ids { IfOk result (λ sweep. sweep.ids.items ≡ ids.items) }
        ensures core { IfOk result (λ sweep. sweep.core.items ≡ core.items) }
        ensures rank { IfOk result (λ sweep. sweep.rank.items ≡ rank.items) }
    {
        let places = Places::new(alloc, &ids)?;
        let vertices = ids.len();
        let later = no_counts(alloc, vertices)?;
        let supporters = no_counts(alloc, vertices)?;
        Ok(Sweep {
            ids,
            places,
            core,
            rank,
            later,
            supporters,
            edges: Vec::new(alloc),
            last: None,
            count: 0,
        })
    }

    /// Counts the edges that were put. They are unfit where they don't go on ascending.
    pub(crate) fn count_put(&mut self) -> Result<(), Untaken>
        requires { (start : Sweep) × (before : List Edge) × HasCounted start self.old before }
        ensures { OnOk result ((start : Sweep) (before : List Edge) → HasCounted start self.old before
            → HasCounted start self.new (before ++ self.old.edges.items)) }
    {
        if Limits::GRAPH.edge_lines - self.count < self.edges.len() {
            return Err(Untaken::Unfit);
        }
        let Ok(()) = count(
            &self.core,
            &self.rank,
            self.last,
            &self.edges,
            &mut self.later,
            &mut self.supporters,
        ) else {
            return Err(Untaken::Unfit);
        };
        self.count += self.edges.len();
        self.last = last_edge(self.last, &self.edges);
        Ok(())
    }
}
