//! A batch of a keeper's updates, made by workers or by the keeper alone.
ghost use Rattle.std.specs.Prelude.{◌≡◌, ◌<◌, ◌≤◌, ◌^◌, true, false, not, IfErr, OnErr, OnOk, length};
ghost use Rattle.kc_queue.specs.declared.consumer.TheConstants.{WORKERS};
ghost use Rattle.kc_levels.specs.declared.levels.TheConstants.{LAST_NUMBER};
ghost use Rattle.kc_text.specs.LastUpdates.{last_of_edges};
ghost use Rattle.kc_graph.specs.Core.{AreCoreNumbers};
ghost use Rattle.kc_graph.specs.Lawful.{IsCertified};
ghost use Rattle.kc_keeper.specs.Batches.{applied_in_turn, count_applied, made_in_turn, updates_made};
ghost use Rattle.kc_keeper.specs.Causes.{EndsAreWithin, IsApplyCause};
ghost use Rattle.kc_keeper.specs.Cores.{AreCoreChanges};
ghost use Rattle.kc_keeper.specs.Telling.{HasMadeBatch};

use crate::paying::pays;
use crate::telling::tell_updates;
use crate::working::work;
use kc_batch_effects::decide;
use kc_graph::{NoMemory, Update};
use kc_keeper::{ApplyFault, Changes, Keeper, first_outside, tell_cores};
use kc_levels::LAST_NUMBER;
use kc_queue::WORKERS;
use std::alloc::{AllocError, Global};
use std::sync::Wait;
use std::thread::Threads;

/// Makes updates as `Keeper::apply` does, with its promise, by so many workers where it pays. By `pays` the keeper alone makes a batch for
/// fewer than four workers, one of few updates, and one that is small or large for its graph. So it does with a batch that names an edge
/// twice, where an end is no vertex, and where there is no memory for the workers' run. It starts no thread then.
///
/// What `changes` held before is forgotten. Where an end of an update is no vertex, none is made, and nothing has changed. Where there is no
/// memory for an update, those before it are made, it and the others are not, and `changes` tells of those that are. More than 64 workers are
/// taken for 64.
///
/// # Example
///
/// ```rust
/// use kc_graph::Update;
/// use kc_keeper::Changes;
/// use kc_keeper_workers::apply_with;
///
/// // The keeper has the path 0, 1, 2, and the vertex 3. No thread is started for two updates.
/// let batch = [Update { add: true, u: 0, v: 2 }, Update { add: true, u: 0, v: 1 }];
/// let mut changes = Changes::new(alloc);
/// apply_with(rt, alloc, &mut keeper, 4, &batch, &mut changes)?;
/// let added = changes.added; // 1: the edge of 0 and 1 was there
/// let moved = changes.cores.as_slice(); // 0, 1 and 2, each with 1 before and 2 now
/// ```
pub fn apply_with<R: Threads + Wait + Sync>(
    rt: &R,
    alloc: Global,
    keeper: &mut Keeper,
    workers: u32,
    updates: &[Update],
    changes: &mut Changes,
) -> Result<(), ApplyFault>
    ensures graph { keeper.new.graph ≡ made_in_turn keeper.old.graph (updates_made result updates.now) }
    ensures added { changes.new.added ≡ count_applied (λ u. u.add) keeper.old.graph (updates_made result updates.now) }
    ensures removed { changes.new.removed ≡ count_applied (λ u. not u.add) keeper.old.graph (updates_made result updates.now) }
    ensures applied { changes.new.applied.items ≡ applied_in_turn keeper.old.graph (updates_made result updates.now) }
    ensures cores { AreCoreChanges keeper.old.core keeper.new.core changes.new.cores.items }
    ensures cause { IfErr result (λ fault. IsApplyCause keeper.old updates.now keeper.new fault) }
    ensures certified { IsCertified keeper.new }
    ensures seidman { AreCoreNumbers keeper.new.graph keeper.new.core }
{
    let size = keeper
        .graph()
        .edges()
        .saturating_add(u64::from(keeper.vertices()));
    if pays(workers, size, updates.len()) {
        return apply_by_workers(rt, alloc, keeper, workers, updates, changes);
    }
    keeper.apply(alloc, updates, changes)
}

/// Makes updates as `Keeper::apply` does, with its promise, by so many workers, however few updates there are. Only where there are no
/// workers, where an end is no vertex, where two updates are of one edge, or where there is no memory for their run, the keeper makes them
/// alone. `kc_batch_effects::decide` makes a batch of any updates that names each edge once.
///
/// The workers' run is made for the call: it takes the time of two copies of the graph, and the memory of three graphs for a while, beside
/// what the updates cost. In it there are no more threads than updates. More than 64 workers are taken for 64.
///
/// # Example
///
/// ```rust
/// use kc_graph::Update;
/// use kc_keeper::Changes;
/// use kc_keeper_workers::apply_by_workers;
///
/// // The keeper has the edges 0 1 and 2 3. Two workers make a circle of them.
/// let batch = [Update { add: true, u: 0, v: 2 }, Update { add: true, u: 1, v: 3 }];
/// let mut changes = Changes::new(alloc);
/// apply_by_workers(rt, alloc, &mut keeper, 2, &batch, &mut changes)?;
/// let core = keeper.core_numbers(); // 2, 2, 2, 2
/// ```
pub fn apply_by_workers<R: Threads + Wait + Sync>(
    rt: &R,
    alloc: Global,
    keeper: &mut Keeper,
    workers: u32,
    updates: &[Update],
    changes: &mut Changes,
) -> Result<(), ApplyFault>
    ensures graph { keeper.new.graph ≡ made_in_turn keeper.old.graph (updates_made result updates.now) }
    ensures added { changes.new.added ≡ count_applied (λ u. u.add) keeper.old.graph (updates_made result updates.now) }
    ensures removed { changes.new.removed ≡ count_applied (λ u. not u.add) keeper.old.graph (updates_made result updates.now) }
    ensures applied { changes.new.applied.items ≡ applied_in_turn keeper.old.graph (updates_made result updates.now) }
    ensures cores { AreCoreChanges keeper.old.core keeper.new.core changes.new.cores.items }
    ensures cause { IfErr result (λ fault. IsApplyCause keeper.old updates.now keeper.new fault) }
    ensures certified { IsCertified keeper.new }
    ensures seidman { AreCoreNumbers keeper.new.graph keeper.new.core }
{
    if is_made_by_workers(rt, alloc, keeper, workers, updates, changes) {
        keeper.recall_certified();
        return Ok(());
    }
    keeper.apply(alloc, updates, changes)
}

/// Whether workers have made the updates: they can where there are some, each end is a vertex, no two updates are of one edge, and there is
/// memory.
fn is_made_by_workers<R: Threads + Wait + Sync>(
    rt: &R,
    alloc: Global,
    keeper: &mut Keeper,
    workers: u32,
    updates: &[Update],
    changes: &mut Changes,
) -> bool
    ensures made { result ≡ true → HasMadeBatch keeper.old updates.now keeper.new changes.new }
    ensures same { result ≡ false → keeper.new ≡ keeper.old }
{
    let count = workers.min(WORKERS as u32);
    if count == 0 || updates.len() > LAST_NUMBER as usize {
        return false;
    }
    let None = first_outside(updates, keeper.vertices()) else {
        return false;
    };
    if !names_each_edge_once(alloc, updates) {
        return false;
    }
    match make_by_workers(rt, alloc, keeper, count, updates, changes) {
        Ok(()) => true,
        Err(_) => false,
    }
}

/// Whether no two updates are of one edge. It is not found out where there is no memory for that.
fn names_each_edge_once(alloc: Global, updates: &[Update]) -> bool
    requires { length updates.now < 2 ^ 32 }
    ensures { result ≡ true → last_of_edges updates.now ≡ updates.now }
{
    match decide(alloc, updates) {
        Ok(deciding) => deciding.overruled == 0,
        Err(_) => false,
    }
}

/// Has workers make a batch in a copy of the keeper's state, and goes on from there. At `NoMemory` the keeper is as it was, and what `changes`
/// tells means nothing.
fn make_by_workers<R: Threads + Wait + Sync>(
    rt: &R,
    alloc: Global,
    keeper: &mut Keeper,
    count: u32,
    updates: &[Update],
    changes: &mut Changes,
) -> Result<(), NoMemory>
    requires workers { (0 < count) × (count ≤ WORKERS) }
    requires within { EndsAreWithin keeper.old.graph.size updates.now }
    requires once { last_of_edges updates.now ≡ updates.now }
    requires numbers { length updates.now ≤ LAST_NUMBER }
    ensures made { OnOk result (HasMadeBatch keeper.old updates.now keeper.new changes.new) }
    ensures same { OnErr result (keeper.new ≡ keeper.old) }
{
    let _vertices = keeper.vertices();
    tell_updates(keeper.graph(), updates, changes)?;
    let lawful = keeper.to_lawful(alloc)?;
    let after = work(rt, alloc, lawful, count, updates)?;
    tell_cores(keeper.core_numbers(), after.core(), &mut changes.cores)?;
    let Ok(next) = Keeper::open(alloc, after) else {
        return Err(AllocError);
    };
    *keeper = next;
    Ok(())
}
