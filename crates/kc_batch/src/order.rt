//! The order in which the updates of a batch are taken.
//!
//! Removals come first, those in the innermost cores before others: there most vertices can fall, and a plan that is long is begun while
//! the other workers have much to do. The insertions of a large batch are peeled as a graph of their own (Batagelj and Zaversnik 2003),
//! and taken from the end of that on: so each vertex comes with its edges to those that stay longer, and a plan looks at the vertex that
//! has few edges yet.
ghost use Rattle.std.specs.Prelude.{◌≡◌, ◌<◌, ◌≤◌, ℕ, All, IfOk, IfSome, length};
ghost use Rattle.kc_queue.specs.Shares.{AreAllBelow};

use kc_graph::{Graph, Lawful, NoMemory, Update, decompose_owned};
use kc_words::INDICES;
use std::alloc::Global;
use std::cmp::Reverse;

/// A batch is peeled where it has at least one update for each so many vertices. Below that, peeling takes longer than it saves.
const VERTICES_AN_UPDATE: usize = 16;

/// When an update is taken.
#[derive(Clone, Copy, Debug, Drop, Eq, Ord, PartialEq, PartialOrd)]
enum UpdateTurn {
    /// Before all insertions, by the lesser core number of the ends, from the greatest on.
    Removal(Reverse<Option<u32>>),
    /// By the places of the ends in the peeling, the lesser first, from the last places on.
    Insertion(Reverse<(u32, u32)>),
}

/// The pairs of ends that a batch joins.
fn insertions(alloc: Global, batch: &[Update]) -> Result<Vec<(u32, u32)>, NoMemory>
    ensures within { IfOk result (λ pairs. (n : ℕ) → All (λ u. u.v < n) batch.now → All (λ p. (p.0 < p.1) × (p.1 < n)) pairs.items) }
{
    let mut pairs = Vec::new(alloc);
    for update in batch {
        if update.add {
            pairs.push((update.u, update.v))?;
        }
    }
    Ok(pairs)
}

/// The insertions of a large batch as a graph, with the order in which it is peeled.
fn peel(alloc: Global, vertices: u32, batch: &[Update]) -> Result<Option<Lawful>, NoMemory>
    requires within { All (λ u. u.v < vertices) batch.now }
    ensures size { IfOk result (λ peeled. IfSome peeled (λ p. p.graph.size ≡ vertices)) }
{
    if batch.len() < vertices as usize / VERTICES_AN_UPDATE {
        return Ok(None);
    }
    let pairs = insertions(alloc, batch)?;
    let graph = Graph::from_pairs(alloc, vertices, &pairs)?;
    Ok(Some(decompose_owned(alloc, graph)?))
}

/// The lesser core number of the ends of an update, where both have one.
fn level_of(update: Update, core_numbers: &[u32]) -> Option<u32> {
    let first = core_numbers.get(update.u as usize)?;
    let second = core_numbers.get(update.v as usize)?;
    Some(*first.min(second))
}

/// When an update is taken, by the core numbers, and by the peeling of its batch if there is one.
fn turn_of(update: Update, core_numbers: &[u32], peeled: &Option<Lawful>) -> UpdateTurn
    requires within { IfSome peeled.now (λ p. update.v < p.graph.size) }
{
    if !update.add {
        return UpdateTurn::Removal(Reverse(level_of(update, core_numbers)));
    }
    match peeled {
        Some(peeled) => {
            let (u, v) = (peeled.place(update.u), peeled.place(update.v));
            UpdateTurn::Insertion(Reverse((u.min(v), u.max(v))))
        }
        None => UpdateTurn::Insertion(Reverse((0, 0))),
    }
}

/// When each update of a batch is taken.
fn turns_of(
    alloc: Global,
    vertices: u32,
    core_numbers: &[u32],
    batch: &[Update],
) -> Result<Vec<UpdateTurn>, NoMemory>
    requires within { All (λ u. u.v < vertices) batch.now }
{
    let peeled = peel(alloc, vertices, batch)?;
    let mut turns = Vec::new(alloc);
    for update in batch {
        turns.push(turn_of(*update, core_numbers, &peeled))?;
    }
    Ok(turns)
}

/// The numbers below `count`, in order.
fn places(alloc: Global, count: u32) -> Result<Vec<u32>, NoMemory>
    ensures { IfOk result (λ places. AreAllBelow count places.items) }
{
    let mut places = Vec::with_capacity(alloc, count as usize)?;
    for place in 0..count {
        places.push_reserved(place);
    }
    Ok(places)
}

/// The places of a batch, each once, in the order in which their updates are taken. `NoMemory` comes where there is none for it.
pub(crate) fn order_of(
    alloc: Global,
    vertices: u32,
    core_numbers: &[u32],
    batch: &[Update],
) -> Result<Vec<u32>, NoMemory>
    requires indices { length batch.now ≤ INDICES }
    requires within { All (λ u. u.v < vertices) batch.now }
    ensures order { IfOk result (λ order. AreAllBelow (length batch.now) order.items) }
{
    let turns = turns_of(alloc, vertices, core_numbers, batch)?;
    let mut order = places(alloc, batch.len() as u32)?;
    order.sort_by_key(|place| turns.get(*place as usize).copied())?;
    Ok(order)
}
