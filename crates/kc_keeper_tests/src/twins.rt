//! Two keepers that make the same batches: one alone, and the other one by workers.
use kc_graph::{Graph, Update, core_numbers, decompose_owned};
use kc_keeper::{Changes, Keeper};
use kc_keeper_workers::apply_by_workers;
use std::process::Abort;
use std::sync::Wait;
use std::thread::Threads;

/// Both keepers, each with what its last batch changed.
#[derive(Drop)]
pub(crate) struct Twins {
    pub(crate) alone: Keeper,
    pub(crate) worked: Keeper,
    pub(crate) by_itself: Changes,
    pub(crate) by_workers: Changes,
}

/// A keeper of so many vertices without edges.
pub(crate) fn open<R: Abort + AllocGlobal>(rt: &R, vertices: u32) -> Keeper {
    let graph = Graph::new(rt.alloc(), vertices).expect(rt, "no memory");
    let lawful = decompose_owned(rt.alloc(), graph).expect(rt, "no memory");
    Keeper::open(rt.alloc(), lawful).expect(rt, "no memory")
}

/// Whether both told the same.
fn are_alike(one: &Changes, other: &Changes) -> bool {
    one.added == other.added
        && one.removed == other.removed
        && one.applied.as_slice() == other.applied.as_slice()
        && one.cores.as_slice() == other.cores.as_slice()
}

impl Twins {
    /// Both with so many vertices and no edges.
    pub(crate) fn open<R: Abort + AllocGlobal>(rt: &R, vertices: u32) -> Twins {
        Twins {
            alone: open(rt, vertices),
            worked: open(rt, vertices),
            by_itself: Changes::new(rt.alloc()),
            by_workers: Changes::new(rt.alloc()),
        }
    }

    /// Whether both make a batch, one of them by so many workers, and are left alike.
    pub(crate) fn make<R: Threads + Wait + Sync + AllocGlobal>(
        &mut self,
        rt: &R,
        workers: u32,
        batch: &[Update],
    ) -> bool {
        let alloc = rt.alloc();
        let alone = self.alone.apply(alloc, batch, &mut self.by_itself);
        let changes = &mut self.by_workers;
        let worked = apply_by_workers(rt, alloc, &mut self.worked, workers, batch, changes);
        alone.is_ok() && worked.is_ok() && self.stay_alike()
    }

    /// Whether both have as many edges and the same core numbers, and told the same of their last batch.
    pub(crate) fn stay_alike(&self) -> bool {
        self.alone.graph().edges() == self.worked.graph().edges()
            && self.alone.core_numbers() == self.worked.core_numbers()
            && are_alike(&self.by_itself, &self.by_workers)
    }

    /// Whether the core numbers after the workers' batches are those of their graph computed anew.
    pub(crate) fn are_right<R: Abort + AllocGlobal>(&self, rt: &R) -> bool {
        let graph = self
            .worked
            .graph()
            .to_graph(rt.alloc())
            .expect(rt, "no memory");
        let numbers = core_numbers(rt.alloc(), &graph).expect(rt, "no memory");
        numbers.as_slice() == self.worked.core_numbers()
    }
}
