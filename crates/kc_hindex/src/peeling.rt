//! Core numbers by rounds until nothing changes.
ghost use Rattle.std.specs.Prelude.{◌≡◌, ◌<◌, ℕ, IfOk, true, false, length, slice_index, slice_index_or};
ghost use Rattle.kc_graph.specs.Core.{AreCoreNumbers};
ghost use Rattle.kc_hindex.specs.Pieces.{AreDealt};
ghost use Rattle.kc_hindex.specs.Rounds.{AreRounds, HasRound};

use crate::degrees::degrees_of;
use crate::piece::{Piece, pieces_for};
use crate::rounds::{processors, round};
use kc_graph::{Graph, NoMemory};
use std::alloc::Global;
use std::thread::Threads;

/// Core numbers, and how many rounds it took to find them and to see that they stay.
#[derive(Debug, Drop)]
pub struct Peeled {
    /// The core number of each vertex, indexed by the vertex.
    pub core: Vec<u32>,
    /// The number of the first round that changed no number, from 1.
    pub rounds: u64,
}

/// Rounds from the degrees until one changes nothing, and how many these are. In the first of them each vertex may change.
fn settle(
    rt: &(impl Threads + Sync),
    graph: &Graph,
    numbers: &mut [u32],
    crossed: &mut [bool],
    pieces: &mut [Piece],
) -> u64
    requires degrees { HasRound graph.now 0 numbers.old }
    requires dealt { AreDealt graph.now.size (length crossed.old) pieces.old }
    requires marked { (v : ℕ) → v < length numbers.old → slice_index numbers.old v < length crossed.old }
    requires all { (k : ℕ) → k < length crossed.old → slice_index_or crossed.old k false ≡ true }
    ensures core { AreCoreNumbers graph.now numbers.new }
    ensures rounds { AreRounds graph.now result }
{
    let _vertices = graph.vertices();
    let mut changing = 0u64;
    while round(rt, graph, numbers, crossed, pieces) {
        changing += 1;
    }
    changing + 1
}

/// The core numbers of a graph, by rounds (Lü, Zhou, Zhang and Stanley 2016): each vertex begins with its degree, and in a round takes the
/// h-index of its neighbours' numbers, all vertices at once, until a round changes no number. A round looks only at the vertices whose
/// number another one has crossed in the round before, as [`crossing`](crate::crossing) says, and takes time linear in the edges and no
/// memory; no clause speaks of its time. The vertices are dealt out to a thread for each processor, at most 32. That more than one ran is
/// said by no clause; numbers and count of rounds are the same however the vertices are dealt out. `NoMemory` comes where there is none
/// for two numbers for each vertex, for a mark for each number, and for a count for each number and each thread.
///
/// # Example
///
/// ```rust
/// use kc_graph::Graph;
/// use kc_hindex::{Peeled, lawful, peel};
///
/// // A triangle, and the vertex 3 that hangs on it.
/// let graph = Graph::from_pairs(alloc, 4, &[(0, 1), (0, 2), (1, 2), (2, 3)])?;
/// let Peeled { core, rounds } = peel(rt, alloc, &graph)?; // 2, 2, 2, 1, after 2 rounds
/// let state = lawful(alloc, graph, core)?; // with an order that certifies the numbers
/// let place = state.place(3); // 0: the numbers never fall along the order
/// ```
pub fn peel(rt: &(impl Threads + Sync), alloc: Global, graph: &Graph) -> Result<Peeled, NoMemory>
    ensures core { IfOk result (λ peeled. AreCoreNumbers graph.now peeled.core.items) }
    ensures rounds { IfOk result (λ peeled. AreRounds graph.now peeled.rounds) }
{
    let vertices = graph.vertices() as usize;
    let mut core = degrees_of(alloc, graph)?;
    let mut pieces = pieces_for(alloc, processors(rt), vertices, vertices + 1)?;
    let mut crossed = vec![in alloc; true; vertices + 1]?;
    let rounds = settle(rt, graph, &mut core, &mut crossed, &mut pieces);
    Ok(Peeled { core, rounds })
}
