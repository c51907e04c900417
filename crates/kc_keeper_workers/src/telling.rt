//! What a batch changes, told from the graph before it.
ghost use Rattle.std.specs.Prelude.{◌≡◌, ◌<◌, ◌+◌, ◌&&◌, ◌++◌, ◌∷◌, [], not, OnOk, if◌then◌else◌};
ghost use Rattle.kc_graph.specs.Plans.{is_applied};
ghost use Rattle.kc_text.specs.Inputs.{IsBatch};
ghost use Rattle.kc_keeper.specs.Telling.{IsToldOf};

use kc_graph::{NoMemory, SharedGraph, Update};
use kc_keeper::Changes;

/// Whether an update changes the graph.
fn changes_graph(graph: &SharedGraph, update: Update) -> bool
    requires { update.v < graph.now.size }
    ensures { result ≡ is_applied update graph.now }
{
    let Update { add, u, v } = update;
    if add {
        !graph.has(u, v)
    } else {
        graph.has(u, v)
    }
}

/// Tells of an update more, and whether it changed the graph.
fn tell_one(changes: &mut Changes, update: Update, applied: bool) -> Result<(), NoMemory>
    requires { changes.old.added + changes.old.removed < usize.MAX }
    ensures added { OnOk result (changes.new.added ≡ changes.old.added + (if update.add && applied then 1 else 0)) }
    ensures removed { OnOk result (changes.new.removed ≡ changes.old.removed + (if not update.add && applied then 1 else 0)) }
    ensures applied { OnOk result (changes.new.applied.items
        ≡ (if applied then changes.old.applied.items ++ update ∷ [] else changes.old.applied.items)) }
{
    if !applied {
        return Ok(());
    }
    changes.applied.push(update)?;
    if update.add {
        changes.added += 1;
    } else {
        changes.removed += 1;
    }
    Ok(())
}

/// Tells which updates of a batch change the graph. No two are of one edge, so none meets what another one has changed.
pub(crate) fn tell_updates(
    graph: &SharedGraph,
    updates: &[Update],
    changes: &mut Changes,
) -> Result<(), NoMemory>
    requires { IsBatch graph.now.size updates.now }
    ensures { OnOk result (IsToldOf graph.now updates.now changes.new) }
{
    changes.clear();
    for update in updates {
        let applied = changes_graph(graph, *update);
        tell_one(changes, *update, applied)?;
    }
    Ok(())
}
