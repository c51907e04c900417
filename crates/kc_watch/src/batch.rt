//! The updates of a batch are made, with the ids that came in it.
ghost use Rattle.std.specs.Prelude.{◌≡◌, ◌<◌, ◌≤◌, ℕ, All, IfOk, OnErr, OnOk};
ghost use Rattle.kc_graph.specs.Growing.{with_vertices};
ghost use Rattle.kc_text.specs.Deciding.{last_batch};
ghost use Rattle.kc_words.specs.declared.layout.TheConstants.{VERTICES};
ghost use Rattle.kc_batch_effects.specs.Batches.{added, graph_after_batch, kept, removed};
ghost use Rattle.kc_keeper.specs.Cores.{AreCoreChanges};
ghost use Rattle.kc_stream.specs.Gathering.{IsUpdateBelow};
ghost use Rattle.kc_watch.specs.Accounts.{core_numbers_of};
ghost use Rattle.kc_watch.specs.Effects.{AreEffects};
ghost use Rattle.kc_watch.specs.Room.{AreEdgesBelow};

use crate::NoMemory;
use kc_batch_effects::decide;
use kc_graph::Update;
use kc_keeper::{ApplyFault, BatchMaker, Changes, GrowFault, Keeper};
use kc_words::VERTICES;
use std::alloc::Global;

/// A keeper that grows has a spare vertex for so many that it needs: it grows again only once there are a quarter more. Growing makes nearly
/// all anew, in time linear in the vertices, and so costs each new id a constant number of steps over many batches.
const VERTICES_FOR_A_SPARE_ONE: u32 = 4;

/// What the updates of a batch did, and how many of its changes were overruled.
#[derive(Clone, Copy)]
pub(crate) struct Effects {
    pub(crate) added: u32,
    pub(crate) removed: u32,
    pub(crate) kept: u32,
    pub(crate) overruled: u32,
}

/// So many vertices, and behind them a spare one for each so many of them, as long as there are no more than a graph may have.
pub(crate) fn with_spare(vertices: u32, vertices_for_one: u32) -> u32
    requires few { vertices ≤ VERTICES }
    requires some { 0 < vertices_for_one }
    ensures more { vertices ≤ result }
    ensures few { result ≤ VERTICES }
{
    (vertices + vertices / vertices_for_one).min(VERTICES)
}

/// Gives a keeper so many vertices, as many as it has or more.
fn grow(alloc: Global, keeper: &mut Keeper, vertices: u32) -> Result<(), NoMemory>
    requires more { keeper.old.graph.size ≤ vertices }
    requires few { vertices ≤ VERTICES }
    ensures graph { OnOk result (keeper.new.graph ≡ with_vertices vertices keeper.old.graph) }
    ensures same { OnErr result (keeper.new.graph ≡ keeper.old.graph) }
{
    match keeper.grow(alloc, vertices) {
        Ok(()) => Ok(()),
        Err(GrowFault::NoMemory) => Err(NoMemory),
        Err(_) => unreachable!(),
    }
}

/// Sees to it that a keeper has so many vertices or more. One that has to grow gets spare ones too, unless there is no memory for them.
pub(crate) fn make_room(alloc: Global, keeper: &mut Keeper, vertices: u32) -> Result<(), NoMemory>
    requires { vertices ≤ VERTICES }
    ensures room { OnOk result (vertices ≤ keeper.new.graph.size) }
    ensures graph { keeper.new.graph ≡ with_vertices keeper.new.graph.size keeper.old.graph }
    ensures more { keeper.old.graph.size ≤ keeper.new.graph.size }
{
    if vertices <= keeper.vertices() {
        return Ok(());
    }
    match grow(
        alloc,
        keeper,
        with_spare(vertices, VERTICES_FOR_A_SPARE_ONE),
    ) {
        Ok(()) => Ok(()),
        Err(_) => grow(alloc, keeper, vertices),
    }
}

/// Has the updates of a batch that decide made, by so many workers or fewer, and tells what they did, and which core numbers changed. A batch of
/// 2^32 updates or more is too large for the memory.
pub(crate) fn make<M: BatchMaker>(
    alloc: Global,
    maker: &M,
    workers: u32,
    keeper: &mut Keeper,
    updates: &[Update],
    changes: &mut Changes,
) -> Result<Effects, NoMemory>
    requires { All (IsUpdateBelow keeper.old.graph.size) updates.now }
    ensures size { keeper.new.graph.size ≡ keeper.old.graph.size }
    ensures edges { (vertices : ℕ) → All (IsUpdateBelow vertices) updates.now → AreEdgesBelow vertices keeper.old.graph.edges
        → AreEdgesBelow vertices keeper.new.graph.edges }
    ensures graph { OnOk result (keeper.new.graph ≡ graph_after_batch keeper.old.graph (last_batch updates.now).updates) }
    ensures effects { IfOk result (λ effects. AreEffects keeper.old.graph (last_batch updates.now) effects) }
    ensures cores { OnOk result (AreCoreChanges (core_numbers_of keeper.old.graph) (core_numbers_of keeper.new.graph) changes.new.cores.items) }
{
    keeper.recall_certified();
    if updates.len() > u32::MAX as usize {
        return Err(NoMemory);
    }
    let batch = decide(alloc, updates)?;
    let count = batch.updates.len();
    match maker.make_batch(alloc, workers, keeper, &batch.updates, changes) {
        Ok(()) => Ok(Effects {
            added: changes.added as u32,
            removed: changes.removed as u32,
            kept: (count - changes.added - changes.removed) as u32,
            overruled: batch.overruled,
        }),
        Err(ApplyFault::NoMemory { .. }) => Err(NoMemory),
        Err(ApplyFault::NoVertex { .. }) => unreachable!(),
    }
}
