//! Who can be asked for workers, and the threads of a runtime as one of these.
ghost use Rattle.std.specs.Prelude.{◌≡◌, IfErr, not};
ghost use Rattle.std.specs.Thread.{IsSync};
ghost use Rattle.kc_graph.specs.Core.{AreCoreNumbers};
ghost use Rattle.kc_graph.specs.Lawful.{IsCertified};
ghost use Rattle.kc_keeper.specs.Batches.{applied_in_turn, count_applied, made_in_turn, updates_made};
ghost use Rattle.kc_keeper.specs.Causes.{IsApplyCause};
ghost use Rattle.kc_keeper.specs.Cores.{AreCoreChanges};

use crate::applying::apply_with;
use kc_graph::Update;
use kc_keeper::{ApplyFault, Changes, Keeper};
use std::alloc::Global;
use std::sync::Wait;
use std::thread::Threads;

/// Who can be asked for workers.
pub trait Workforce {
    /// That several threads may share it, as workers do.
    ghost shareable: { Self → Type 0 };

    /// Makes updates as [`apply_with`] does, with its promise.
    fn apply_with(
        &self,
        alloc: Global,
        workers: u32,
        keeper: &mut Keeper,
        updates: &[Update],
        changes: &mut Changes,
    ) -> Result<(), ApplyFault>
        requires shareable { ∥ Self.shareable self.now ∥₁ }
        ensures graph { keeper.new.graph ≡ made_in_turn keeper.old.graph (updates_made result updates.now) }
        ensures added { changes.new.added ≡ count_applied (λ u. u.add) keeper.old.graph (updates_made result updates.now) }
        ensures removed { changes.new.removed ≡ count_applied (λ u. not u.add) keeper.old.graph (updates_made result updates.now) }
        ensures applied { changes.new.applied.items ≡ applied_in_turn keeper.old.graph (updates_made result updates.now) }
        ensures cores { AreCoreChanges keeper.old.core keeper.new.core changes.new.cores.items }
        ensures cause { IfErr result (λ fault. IsApplyCause keeper.old updates.now keeper.new fault) }
        ensures certified { IsCertified keeper.new }
        ensures seidman { AreCoreNumbers keeper.new.graph keeper.new.core };
}

/// The threads of a runtime.
#[derive(Drop)]
pub struct RuntimeThreads<'a, R> {
    /// The runtime.
    pub rt: &'a R,
}

impl<R: Threads + Wait + Sync> Workforce for RuntimeThreads<'_, R> {
    ghost shareable = { λ _. IsSync R.row };

    fn apply_with(
        &self,
        alloc: Global,
        workers: u32,
        keeper: &mut Keeper,
        updates: &[Update],
        changes: &mut Changes,
    ) -> Result<(), ApplyFault> {
        apply_with(self.rt, alloc, keeper, workers, updates, changes)
    }
}
