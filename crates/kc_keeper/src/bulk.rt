//! Many edges are added in bulk: a graph is made anew of the edges that there are and those that come.
//!
//! Each update is looked at in the graph of before alone. That is the same as one after the other where no edge comes twice, and the new
//! graph tells it: it then has as many edges more as there were updates that change the graph of before.
ghost use Rattle.std.specs.Prelude.{◌≡◌, ◌+◌, ◌++◌, ◌↔◌, [], IfOk, IfSome, IsTrue, OnOk};
ghost use Rattle.kc_graph.specs.Neighbours.{edges_to_greater};
ghost use Rattle.kc_keeper.specs.Batches.{made_in_turn};
ghost use Rattle.kc_keeper.specs.Bulk.{AllAdd, AreEdgesFrom, IsToldAlone, applied_alone, pairs_of};
ghost use Rattle.kc_keeper.specs.Causes.{EndsAreWithin};
ghost use Rattle.kc_keeper.specs.Telling.{IsToldOf};

use crate::changes::Changes;
use kc_graph::{Graph, NoMemory, Update};
use std::alloc::Global;

/// Updates are many where there is one for so many edges of the graph.
const EDGES_FOR_ONE: usize = 4;

/// Whether a batch only adds, and has many updates for a graph of so many edges: making the graph anew is then faster than adding edge
/// after edge. It was measured; contracts say the same of both ways.
pub(crate) fn adds_many(edges: u64, updates: &[Update]) -> bool
    ensures { IsTrue result → AllAdd updates.now }
{
    let enough = updates.len().saturating_mul(EDGES_FOR_ONE) as u64 >= edges;
    enough && updates.iter().all(|update| update.add)
}

/// Puts the edges from a vertex to its greater neighbours behind the pairs.
fn push_greater(v: u32, neighbours: &[u32], pairs: &mut Vec<(u32, u32)>) -> Result<(), NoMemory>
    ensures { OnOk result (pairs.new.items ≡ pairs.old.items ++ edges_to_greater v neighbours.now) }
{
    for w in neighbours {
        if v < *w {
            pairs.push((v, *w))?;
        }
    }
    Ok(())
}

/// The edges of a graph as pairs, in a list that has room for so many more.
fn list_edges(alloc: Global, graph: &Graph, more: usize) -> Result<Vec<(u32, u32)>, NoMemory>
    ensures { IfOk result (λ pairs. AreEdgesFrom graph.now graph.now.size pairs.items) }
{
    let room = (graph.edges() as usize).saturating_add(more);
    let mut pairs = Vec::with_capacity(alloc, room)?;
    for v in 0..graph.vertices() {
        push_greater(v, graph.neighbours(v), &mut pairs)?;
    }
    Ok(pairs)
}

/// Puts the edges that the graph does not have behind the pairs, and tells of each update whether its edge is one of these.
fn push_added(
    graph: &Graph,
    updates: &[Update],
    pairs: &mut Vec<(u32, u32)>,
    changes: &mut Changes,
) -> Result<(), NoMemory>
    requires within { EndsAreWithin graph.now.size updates.now }
    requires adds { AllAdd updates.now }
    requires nothing { IsToldOf graph.now [] changes.old }
    ensures pairs { OnOk result (pairs.new.items ≡ pairs.old.items ++ pairs_of (applied_alone graph.now updates.now)) }
    ensures told { OnOk result (IsToldAlone graph.now updates.now changes.new) }
{
    for update in updates {
        changes.applied.reserve(1)?;
        let is_new = !graph.has(update.u, update.v);
        if is_new {
            pairs.push((update.u, update.v))?;
        }
        changes.tell(*update, is_new);
    }
    Ok(())
}

/// Whether one number is more than another by so many.
fn is_more_by(greater: u64, lesser: u64, count: usize) -> bool
    ensures { IsTrue result ↔ (greater ≡ lesser + count) }
{
    greater >= lesser && greater - lesser == count as u64
}

/// The graph after updates that add, made anew of all edges, with what each changed told; none where an edge is added twice, and what
/// `changes` tells means nothing then, as where there is no memory.
pub(crate) fn add_in_bulk(
    alloc: Global,
    graph: &Graph,
    updates: &[Update],
    changes: &mut Changes,
) -> Result<Option<Graph>, NoMemory>
    requires within { EndsAreWithin graph.now.size updates.now }
    requires adds { AllAdd updates.now }
    requires nothing { IsToldOf graph.now [] changes.old }
    ensures graph { IfOk result (λ made. IfSome made (λ next. next ≡ made_in_turn graph.now updates.now)) }
    ensures told { IfOk result (λ made. IfSome made (λ _. IsToldOf graph.now updates.now changes.new)) }
{
    let mut pairs = list_edges(alloc, graph, updates.len())?;
    push_added(graph, updates, &mut pairs, changes)?;
    let next = Graph::from_pairs(alloc, graph.vertices(), &pairs)?;
    if is_more_by(next.edges(), graph.edges(), changes.added) {
        Ok(Some(next))
    } else {
        Ok(None)
    }
}
