//! The updates of a batch.
ghost use Rattle.std.specs.Prelude.{◌≡◌, ◌<◌, IfSome};

use kc_graph::{Graph, NoMemory, Update};
use rand::RngExt;
use rand_xoshiro::Xoshiro256PlusPlus;
use std::alloc::Global;

/// The ends of an edge between any two vertices, the lesser one first. `None` where there are less than two vertices.
fn draw_ends(draws: &mut Xoshiro256PlusPlus, vertices: u32) -> Option<(u32, u32)>
    ensures ordered { IfSome result (λ ends. ends.0 < ends.1) }
    ensures within { IfSome result (λ ends. ends.1 < vertices) }
{
    if vertices < 2 {
        return None;
    }
    let first = draws.random_range(0..vertices);
    let other = draws.random_range(0..vertices - 1);
    if other < first {
        Some((other, first))
    } else {
        Some((first, other + 1))
    }
}

/// An update of an edge between any two vertices, seven times of eight one that changes the graph.
pub(crate) fn draw(draws: &mut Xoshiro256PlusPlus, graph: &Graph) -> Option<Update> {
    let (u, v) = draw_ends(draws, graph.vertices())?;
    let there = graph.has(u, v);
    let changes = draws.random_range(0u32..8) > 0;
    Some(Update {
        add: there != changes,
        u,
        v,
    })
}

/// Whether an update of the batch has the edge of this one.
fn has_edge_of(batch: &[Update], update: Update) -> bool {
    batch
        .iter()
        .any(|other| other.u == update.u && other.v == update.v)
}

/// At most so many updates of a graph, none of which has the edge of another.
pub(crate) fn draw_batch(
    alloc: Global,
    draws: &mut Xoshiro256PlusPlus,
    graph: &Graph,
    updates: u32,
) -> Result<Vec<Update>, NoMemory> {
    let mut batch = Vec::new(alloc);
    for _ in 0..updates {
        if let Some(update) = draw(draws, graph) {
            if !has_edge_of(&batch, update) {
                batch.push(update)?;
            }
        }
    }
    Ok(batch)
}

/// Whether an update changes a graph.
pub(crate) fn is_applied(graph: &Graph, update: Update) -> bool {
    let there = update.u < graph.vertices() && graph.has(update.u, update.v);
    there != update.add
}

/// Makes an update in a graph that has its vertices.
pub(crate) fn make(graph: &mut Graph, update: Update) -> Result<(), NoMemory> {
    if update.v < graph.vertices() {
        if update.add {
            graph.add(update.u, update.v)?;
        } else {
            graph.remove(update.u, update.v);
        }
    }
    Ok(())
}

/// Makes the updates of a batch.
pub(crate) fn make_all(graph: &mut Graph, batch: &[Update]) -> Result<(), NoMemory> {
    for update in batch {
        make(graph, *update)?;
    }
    Ok(())
}
