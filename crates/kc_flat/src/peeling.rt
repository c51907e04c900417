//! Core numbers by taking a vertex of least remaining degree again and again (Batagelj and Zaversnik 2003).
//!
//! One list has a number for each vertex: of one that is taken, its core number; of one that is left, how many neighbours it has left,
//! or the number of the last one taken where that is more. The bins keep the vertices in the order of these numbers, and the next in the
//! order is taken next. So the order in the end is the one in which they were taken.
ghost use Rattle.std.specs.Prelude.{◌≡◌, ◌<◌, ◌≤◌, ◌^◌, ℕ, true, [], IfOk, length};
ghost use Rattle.kc_lists.specs.Lists.{Distinct, member};
ghost use Rattle.kc_graph.specs.Core.{AreCoreNumbers};
ghost use Rattle.kc_graph.specs.Certificate.{Certifies};
ghost use Rattle.kc_graph.specs.Peeling.{at, remaining};
ghost use Rattle.kc_flat.specs.Bins.{AreBinned, LoseOne};

use crate::NoMemory;
use crate::bins::{Bins, binned, lower};
use crate::graph::FlatGraph;
use kc_progress::{Progress, Silent};
use std::alloc::Global;

/// A progress is told of one vertex in so many that are taken, so that this takes no time.
const TOLD: usize = 4_096;

/// The row of a vertex is looked at so many turns before it is taken, so that it has come into the cache by then.
const AHEAD: usize = 8;

/// Core numbers of a graph, indexed by the vertex, and an order of its vertices that certifies them: the numbers never fall along it,
/// and each vertex has at most as many later neighbours as its number (Zhang, Yu, Zhang and Qin 2017).
#[derive(Debug, Drop)]
pub struct Decomposition {
    pub core: Vec<u32>,
    pub order: Vec<u32>,
}

/// How many neighbours each vertex has.
fn degrees_of(alloc: Global, graph: &FlatGraph) -> Result<Vec<u32>, NoMemory>
    ensures count { IfOk result (λ degrees. length degrees.items ≡ graph.now.size) }
    ensures each { IfOk result (λ degrees. (v : ℕ) → v < graph.now.size → at degrees.items v ≡ remaining graph.now [] v) }
    ensures few { IfOk result (λ _. graph.now.size < 2 ^ 32) }
{
    let n = graph.vertices();
    let mut degrees = Vec::with_capacity(alloc, n as usize)?;
    for v in 0..n {
        degrees.push(graph.neighbours(v).len() as u32)?;
    }
    Ok(degrees)
}

/// One neighbour less is left to each of these that has more than `level` left.
fn lower_each(
    neighbours: &[u32],
    level: u32,
    core: &mut [u32],
    order: &mut [u32],
    places: &mut [u32],
    ends: &mut [usize],
)
    requires binned { AreBinned core.old order.old places.old ends.old }
    requires few { length core.old < 2 ^ 32 }
    requires distinct { Distinct neighbours.now }
    requires within { (w : ℕ) → member w neighbours.now ≡ true → w < length core.old }
    ensures binned { AreBinned core.new order.new places.new ends.new }
    ensures lowered { LoseOne level neighbours.now core.old core.new }
    ensures before { (i : ℕ) → i < length core.old → at core.old (at order.old i) ≤ level → at order.new i ≡ at order.old i }
{
    for w in neighbours {
        if core[*w as usize] > level {
            lower(*w, core, order, places, ends);
        }
    }
}

/// Looks at the row of the vertex that is to be taken so many turns later, and gives a number of it, or 0.
fn look_ahead(graph: &FlatGraph, order: &[u32], turn: usize) -> u32 {
    match order.get(turn.saturating_add(AHEAD)) {
        Some(v) => graph.look_at(*v),
        None => 0,
    }
}

/// Tells the core number of the vertex whose turn it is, at some turns. A row was looked at: no number there is `u32::MAX`. That it is asked
/// for is the use of the look, which a compiler leaves out else.
fn tell_turn<P: Progress>(progress: &P, turn: usize, core: u32, looked: u32) {
    if turn % TOLD == 0 || looked == u32::MAX {
        progress.peeled(core);
    }
}

/// Takes all vertices, in the order that the bins have when the turn of each comes.
fn take_all<P: Progress>(
    graph: &FlatGraph,
    core: &mut [u32],
    order: &mut [u32],
    places: &mut [u32],
    ends: &mut [usize],
    progress: &P,
)
    requires binned { AreBinned core.old order.old places.old ends.old }
    requires count { length core.old ≡ graph.now.size }
    requires few { length core.old < 2 ^ 32 }
    requires degrees { (v : ℕ) → v < graph.now.size → at core.old v ≡ remaining graph.now [] v }
    ensures { Certifies graph.now core.new order.new }
{
    for turn in 0..order.len() {
        let v = order[turn];
        let level = core[v as usize];
        tell_turn(progress, turn, level, look_ahead(graph, order, turn));
        lower_each(graph.neighbours(v), level, core, order, places, ends);
    }
}

/// The core numbers of the graph, with an order that certifies them, in time linear in the edges. Beside the graph it takes 12 bytes a
/// vertex, and 8 for each number up to the greatest degree. `NoMemory` comes where there is none for that.
///
/// # Example
///
/// ```rust
/// use kc_flat::{Decomposition, FlatGraph, decompose};
///
/// // A triangle, and the vertex 3 that hangs on it.
/// let graph = FlatGraph::from_pairs(alloc, 4, &[(0, 1), (0, 2), (1, 2), (2, 3)])?;
/// let Decomposition { core, order } = decompose(alloc, &graph)?; // the core numbers are 2, 2, 2, 1
/// let first = order.first(); // Some(3): the numbers never fall along the order
/// ```
pub fn decompose(alloc: Global, graph: &FlatGraph) -> Result<Decomposition, NoMemory>
    ensures { IfOk result (λ d. Certifies graph.now d.core.items d.order.items) }
{
    decompose_telling(alloc, graph, &Silent)
}

/// What `decompose` gives, in its time and its memory. The progress is told now and then which core number the vertices have that are
/// taken.
pub fn decompose_telling<P: Progress>(
    alloc: Global,
    graph: &FlatGraph,
    progress: &P,
) -> Result<Decomposition, NoMemory>
    ensures { IfOk result (λ d. Certifies graph.now d.core.items d.order.items) }
{
    let mut core = degrees_of(alloc, graph)?;
    let Bins {
        mut order,
        mut places,
        mut ends,
    } = binned(alloc, &core)?;
    take_all(
        graph,
        &mut core,
        &mut order,
        &mut places,
        &mut ends,
        progress,
    );
    Ok(Decomposition { core, order })
}

/// The core number of each vertex, indexed by the vertex, in the time and the memory of `decompose`.
pub fn core_numbers(alloc: Global, graph: &FlatGraph) -> Result<Vec<u32>, NoMemory>
    ensures { IfOk result (λ core. AreCoreNumbers graph.now core.items) }
{
    let decomposition = decompose(alloc, graph)?;
    Ok(decomposition.core)
}
