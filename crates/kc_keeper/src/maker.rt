//! Who makes a batch of a keeper's updates.
ghost use Rattle.std.specs.Prelude.{◌≡◌, IfErr, not};
ghost use Rattle.kc_graph.specs.Core.{AreCoreNumbers};
ghost use Rattle.kc_graph.specs.Lawful.{IsCertified};
ghost use Rattle.kc_keeper.specs.Batches.{applied_in_turn, count_applied, made_in_turn, updates_made};
ghost use Rattle.kc_keeper.specs.Causes.{IsApplyCause};
ghost use Rattle.kc_keeper.specs.Cores.{AreCoreChanges};

use crate::changes::Changes;
use crate::fault::ApplyFault;
use crate::keeper::Keeper;
use kc_graph::Update;
use std::alloc::Global;

/// Who makes a batch of a keeper's updates: the keeper alone, or workers for it. Whoever it is, no clause tells: so the answer of a caller is the
/// same whoever it asks, and for any number of workers.
pub trait BatchMaker {
    /// Makes updates as `Keeper::apply` does, with its promise, by so many workers or fewer.
    ///
    /// What `changes` held before is forgotten. `NoVertex` comes where an end of an update is no vertex: none is made then, and nothing has changed.
    /// `NoMemory` comes where there is none for an update: those before it are made, and `changes` tells of them.
    fn make_batch(
        &self,
        alloc: Global,
        workers: u32,
        keeper: &mut Keeper,
        updates: &[Update],
        changes: &mut Changes,
    ) -> Result<(), ApplyFault>
        ensures graph { keeper.new.graph ≡ made_in_turn keeper.old.graph (updates_made result updates.now) }
        ensures added { changes.new.added ≡ count_applied (λ u. u.add) keeper.old.graph (updates_made result updates.now) }
        ensures removed { changes.new.removed ≡ count_applied (λ u. not u.add) keeper.old.graph (updates_made result updates.now) }
        ensures applied { changes.new.applied.items ≡ applied_in_turn keeper.old.graph (updates_made result updates.now) }
        ensures cores { AreCoreChanges keeper.old.core keeper.new.core changes.new.cores.items }
        ensures cause { IfErr result (λ fault. IsApplyCause keeper.old updates.now keeper.new fault) }
        ensures certified { IsCertified keeper.new }
        ensures seidman { AreCoreNumbers keeper.new.graph keeper.new.core };
}

/// The keeper makes each batch alone, however many workers there are. It starts no thread.
///
/// # Example
///
/// ```rust
/// use kc_graph::Update;
/// use kc_keeper::{BatchMaker, Changes, KeeperAlone};
///
/// // The keeper has the path 0, 1, 2.
/// let mut changes = Changes::new(alloc);
/// let batch = [Update { add: true, u: 0, v: 2 }];
/// KeeperAlone.make_batch(alloc, 1, &mut keeper, &batch, &mut changes)?;
/// let core = keeper.core_numbers(); // 2, 2, 2
/// ```
#[derive(Clone, Copy, Debug, Drop, PartialEq, Eq)]
pub struct KeeperAlone;

impl BatchMaker for KeeperAlone {
    fn make_batch(
        &self,
        alloc: Global,
        _workers: u32,
        keeper: &mut Keeper,
        updates: &[Update],
        changes: &mut Changes,
    ) -> Result<(), ApplyFault> {
        keeper.apply(alloc, updates, changes)
    }
}
