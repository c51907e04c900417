//! A large batch is made at once: its updates change a plain graph, whose core numbers are then computed anew.
ghost use Rattle.std.specs.Prelude.{◌≡◌, ◌<◌, ◌^◌, [], IfOk, OnOk, length};
ghost use Rattle.kc_graph.specs.Plans.{is_applied, updated};
ghost use Rattle.kc_keeper.specs.Batches.{made_in_turn};
ghost use Rattle.kc_keeper.specs.Causes.{EndsAreWithin};
ghost use Rattle.kc_keeper.specs.Cores.{AreCoreChanges};
ghost use Rattle.kc_keeper.specs.Telling.{IsToldOf};

use crate::bulk::{add_in_bulk, adds_many};
use crate::changes::{Changes, CoreChange};
use kc_graph::{Graph, NoMemory, Update};
use std::alloc::Global;

/// A batch of so few updates is never large.
const ALWAYS_SMALL: usize = 50;

/// A large batch has more than one update for so many vertices and edges.
const SIZE_FOR_ONE: u64 = 40;

/// Whether a batch of so many updates is large for a graph of so many vertices and edges: computing all anew is then faster than entering
/// each update. It was measured; contracts say the same of both ways.
pub(crate) fn is_large(vertices: u32, edges: u64, updates: usize) -> bool {
    let size = edges.saturating_add(u64::from(vertices));
    updates > ALWAYS_SMALL && updates as u64 > size / SIZE_FOR_ONE
}

/// Makes an update in a graph, and tells whether it changed it.
fn make_in(graph: &mut Graph, update: Update) -> Result<bool, NoMemory>
    requires { update.v < graph.old.size }
    ensures graph { OnOk result (graph.new ≡ updated update graph.old) }
    ensures applied { IfOk result (λ applied. applied ≡ is_applied update graph.old) }
{
    let Update { add, u, v } = update;
    if add {
        graph.add(u, v)
    } else {
        Ok(graph.remove(u, v))
    }
}

/// Makes updates one after the other in a graph, and tells which changed it. Where memory runs out on the way, what graph and `changes` hold
/// means nothing.
fn make_each_in(
    graph: &mut Graph,
    updates: &[Update],
    changes: &mut Changes,
) -> Result<(), NoMemory>
    requires within { EndsAreWithin graph.old.size updates.now }
    requires nothing { IsToldOf graph.old [] changes.old }
    ensures graph { OnOk result (graph.new ≡ made_in_turn graph.old updates.now) }
    ensures told { OnOk result (IsToldOf graph.old updates.now changes.new) }
{
    for update in updates {
        changes.applied.reserve(1)?;
        let applied = make_in(graph, *update)?;
        changes.tell(*update, applied);
    }
    Ok(())
}

/// Makes updates in turn in a graph, and tells which changed it: in bulk where they add many edges and none twice. Where memory runs out on
/// the way, what graph and `changes` hold means nothing.
pub(crate) fn make_all_in(
    alloc: Global,
    graph: &mut Graph,
    updates: &[Update],
    changes: &mut Changes,
) -> Result<(), NoMemory>
    requires within { EndsAreWithin graph.old.size updates.now }
    requires nothing { IsToldOf graph.old [] changes.old }
    ensures graph { OnOk result (graph.new ≡ made_in_turn graph.old updates.now) }
    ensures told { OnOk result (IsToldOf graph.old updates.now changes.new) }
{
    if !adds_many(graph.edges(), updates) {
        return make_each_in(graph, updates, changes);
    }
    if let Some(next) = add_in_bulk(alloc, graph, updates, changes)? {
        *graph = next;
        return Ok(());
    }
    changes.clear();
    make_each_in(graph, updates, changes)
}

/// Makes a list of the vertices whose number is another one than before, in ascending order, with both numbers. What the list held before is
/// forgotten. There are as many numbers as before, and a number's place is its vertex.
pub fn tell_cores(before: &[u32], now: &[u32], cores: &mut Vec<CoreChange>) -> Result<(), NoMemory>
    requires long { length before.now ≡ length now.now }
    requires few { length now.now < 2 ^ 32 }
    ensures { OnOk result (AreCoreChanges before.now now.now cores.new.items) }
{
    cores.clear();
    for (vertex, number) in now.iter().enumerate() {
        let earlier = before[vertex];
        if earlier != *number {
            cores.push(CoreChange {
                vertex: vertex as u32,
                before: earlier,
                now: *number,
            })?;
        }
    }
    Ok(())
}
