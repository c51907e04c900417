//! What updates that were made in turn changed.
ghost use Rattle.std.specs.Prelude.{◌≡◌, ◌<◌, ◌+◌, ◌&&◌, ◌++◌, [], ◌∷◌, IfOk, List, not, vec_capacity, vec_len, if◌then◌else◌};
ghost use Rattle.kc_graph.specs.SimpleGraph.{SimpleGraph};
ghost use Rattle.kc_graph.specs.declared.update.Update.{Update};
ghost use Rattle.kc_keeper.specs.Batches.{applied_in_turn, inverse_of, made_in_turn, opposite};

use kc_graph::{NoMemory, Update};
use std::alloc::Global;

/// A vertex whose core number is another one than before, with both numbers.
#[repr(C)]
#[derive(Clone, Copy, Debug, Drop, Eq, PartialEq)]
pub struct CoreChange {
    pub vertex: u32,
    pub before: u32,
    pub now: u32,
}

/// What a batch of updates changed. A caller may hand the same value to call after call: its lists keep their memory.
#[derive(Debug, Drop)]
pub struct Changes {
    /// How many updates added their edge.
    pub added: usize,
    /// How many removed it. The others changed nothing.
    pub removed: usize,
    /// The updates that changed the graph, in the order in which they were made.
    pub applied: Vec<Update>,
    /// Each vertex whose core number after the batch is another one than before it, in ascending order.
    pub cores: Vec<CoreChange>,
}

/// The update that removes the edge which this one adds, or adds the edge which this one removes.
fn opposite(update: Update) -> Update
    ensures { result ≡ opposite update }
{
    let Update { add, u, v } = update;
    Update { add: !add, u, v }
}

/// The opposite of each, from the last to the first.
fn opposites(alloc: Global, updates: &[Update]) -> Result<Vec<Update>, NoMemory>
    ensures { IfOk result (λ back. back.items ≡ inverse_of updates.now) }
{
    updates
        .iter()
        .rev()
        .map(|update| opposite(*update))
        .collect(alloc)
}

impl Changes {
    /// Nothing changed. It takes no memory.
    pub fn new(alloc: Global) -> Changes
        ensures added { result.added ≡ 0 }
        ensures removed { result.removed ≡ 0 }
        ensures applied { result.applied.items ≡ [] }
        ensures cores { result.cores.items ≡ [] }
    {
        Changes {
            added: 0,
            removed: 0,
            applied: Vec::new(alloc),
            cores: Vec::new(alloc),
        }
    }

    /// The updates that take back those that changed the graph: the newest first, each turned round. Whatever the batch held, they make the
    /// graph that was there before it of the one after it, with the core numbers of before.
    ///
    /// # Example
    ///
    /// ```rust
    /// use kc_graph::Update;
    /// use kc_keeper::Changes;
    ///
    /// // The keeper has the path 0, 1, 2.
    /// let batch = [Update { add: true, u: 0, v: 2 }, Update { add: false, u: 0, v: 1 }];
    /// let mut changes = Changes::new(alloc);
    /// keeper.apply(alloc, &batch, &mut changes)?;
    /// let back = changes.inverse(alloc)?; // + 0 1, - 0 2
    /// keeper.apply(alloc, &back, &mut changes)?;
    /// let edges = (keeper.graph().has(0, 1), keeper.graph().has(0, 2)); // (true, false): as before the batch
    /// ```
    pub fn inverse(&self, alloc: Global) -> Result<Vec<Update>, NoMemory>
        ensures list { IfOk result (λ back. back.items ≡ inverse_of self.now.applied.items) }
        ensures takes_back { IfOk result (λ back. (g : SimpleGraph) (us : List Update) → self.now.applied.items ≡ applied_in_turn g us
            → made_in_turn (made_in_turn g us) back.items ≡ g) }
    {
        opposites(alloc, &self.applied)
    }

    /// Forgets what it tells: nothing changed. The lists keep their memory.
    pub fn clear(&mut self)
        ensures added { self.new.added ≡ 0 }
        ensures removed { self.new.removed ≡ 0 }
        ensures applied { self.new.applied.items ≡ [] }
        ensures cores { self.new.cores.items ≡ [] }
    {
        self.added = 0;
        self.removed = 0;
        self.applied.clear();
        self.cores.clear();
    }

    /// Tells of an update more, and whether it changed the graph. There is room for it in the list.
    pub(crate) fn tell(&mut self, update: Update, applied: bool)
        requires fits { self.old.added + self.old.removed < usize.MAX }
        requires room { vec_len self.old.applied < vec_capacity self.old.applied }
        ensures added { self.new.added ≡ self.old.added + (if update.add && applied then 1 else 0) }
        ensures removed { self.new.removed ≡ self.old.removed + (if not update.add && applied then 1 else 0) }
        ensures applied { self.new.applied.items ≡ (if applied then self.old.applied.items ++ update ∷ [] else self.old.applied.items) }
    {
        if !applied {
            return;
        }
        if update.add {
            self.added += 1;
        } else {
            self.removed += 1;
        }
        if self.applied.push(update).is_err() {
            unreachable!();
        }
    }
}
