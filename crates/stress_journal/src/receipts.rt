//! The receipts and the entries of a batch beside its updates.
use crate::updates::{is_applied, make};
use anyhow::{Result, bail};
use kc_graph::{Graph, NoMemory, Update};
use kc_journal::Receipt;
use kc_table::Entry;
use kc_workers::WorkerShare;
use std::alloc::Global;

/// Which updates of a batch were taken, whose first one has this index.
#[derive(Drop)]
struct Taken {
    first: u32,
    marks: Vec<bool>,
}

impl Taken {
    /// No update is taken.
    fn none(alloc: Global, first: u32, batch: &[Update]) -> Result<Taken, NoMemory> {
        let marks = vec![in alloc; false; batch.len()]?;
        Ok(Taken { first, marks })
    }

    /// Takes the update of this index. `None` where the batch has none, and where it was taken before.
    fn take(&mut self, batch: &[Update], index: u32) -> Option<Update> {
        let at = index.checked_sub(self.first)? as usize;
        let mark = self.marks.get_mut(at)?;
        if *mark {
            return None;
        }
        *mark = true;
        batch.get(at).copied()
    }

    /// Whether each update was taken.
    fn has_all(&self) -> bool {
        self.marks.iter().all(|mark| *mark)
    }

    /// Takes the update of a receipt. It is an error where it was taken before, or where the receipt tells otherwise than the graph before
    /// the batch whether it was applied.
    fn see(&mut self, graph: &Graph, batch: &[Update], receipt: Receipt) -> Result<()> {
        let index = receipt.index;
        let Some(update) = self.take(batch, index) else {
            bail!("update {index} has two receipts, or is none of the batch");
        };
        if receipt.applied != is_applied(graph, update) {
            bail!("the receipt of update {index} tells otherwise whether it was applied");
        }
        Ok(())
    }

    /// The same for each receipt of a share. Answers how many plans were lost.
    fn see_share(&mut self, graph: &Graph, batch: &[Update], share: &WorkerShare) -> Result<u64> {
        let mut misses = 0u64;
        for done in &share.done {
            self.see(graph, batch, done.receipt)?;
            misses = misses.saturating_add(done.misses.len() as u64);
        }
        Ok(misses)
    }

    /// The same for all shares. It is an error too where an update has no receipt.
    fn see_shares(
        &mut self,
        graph: &Graph,
        batch: &[Update],
        shares: &[WorkerShare],
    ) -> Result<u64> {
        let mut misses = 0u64;
        for share in shares {
            misses = misses.saturating_add(self.see_share(graph, batch, share)?);
        }
        if !self.has_all() {
            bail!("an update has no receipt");
        }
        Ok(misses)
    }

    /// The same for each receipt of a share, also of an update that could not be told. Answers how many there are.
    fn see_part(&mut self, graph: &Graph, batch: &[Update], share: &WorkerShare) -> Result<usize> {
        self.see_share(graph, batch, share)?;
        let Some(receipt) = share.untold else {
            return Ok(share.done.len());
        };
        self.see(graph, batch, receipt)?;
        Ok(share.done.len().saturating_add(1))
    }

    /// Takes the update of an entry, and makes it in the graph. It is an error where it was taken before, or is another one.
    fn enter(&mut self, graph: &mut Graph, batch: &[Update], entry: &Entry) -> Result<()> {
        let index = entry.index;
        let Some(update) = self.take(batch, index) else {
            bail!("update {index} is entered twice, or is none of the batch");
        };
        if (entry.add, entry.u, entry.v) != (update.add, update.u, update.v) {
            bail!("update {index} is entered as another one");
        }
        make(graph, update)?;
        Ok(())
    }

    /// The same for all entries.
    fn enter_all(&mut self, graph: &mut Graph, batch: &[Update], entries: &[Entry]) -> Result<()> {
        for entry in entries {
            self.enter(graph, batch, entry)?;
        }
        Ok(())
    }
}

/// Looks at the receipts of a batch. It is an error where an update has none or two, or one that is wrong. Answers how many plans were lost.
pub(crate) fn look_at(
    alloc: Global,
    graph: &Graph,
    first: u32,
    batch: &[Update],
    shares: &[WorkerShare],
) -> Result<u64> {
    let mut taken = Taken::none(alloc, first, batch)?;
    taken.see_shares(graph, batch, shares)
}

/// Looks at the receipts of a batch that was cut short. It is an error where an update has two, or one that is wrong. Answers how many there
/// are.
pub(crate) fn look_at_part(
    alloc: Global,
    graph: &Graph,
    first: u32,
    batch: &[Update],
    shares: &[WorkerShare],
) -> Result<usize> {
    let mut taken = Taken::none(alloc, first, batch)?;
    let mut told = 0usize;
    for share in shares {
        told = told.saturating_add(taken.see_part(graph, batch, share)?);
    }
    Ok(told)
}

/// Makes the updates that were entered in the graph. It is an error where an entry is of no update of the batch, or of one that was entered
/// before.
pub(crate) fn make_entered(
    alloc: Global,
    graph: &mut Graph,
    first: u32,
    batch: &[Update],
    entries: &[Entry],
) -> Result<()> {
    let mut taken = Taken::none(alloc, first, batch)?;
    taken.enter_all(graph, batch, entries)
}
