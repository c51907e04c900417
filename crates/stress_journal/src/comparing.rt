//! A journal beside the graph that it is to have.
use anyhow::{Result, bail};
use kc_cert::check;
use kc_graph::{Graph, core_numbers};
use kc_journal::Journal;
use std::alloc::Global;

/// It is an error where the journal has another list of neighbours than the graph.
fn compare_lists(journal: &Journal, graph: &Graph) -> Result<()> {
    let vertices = graph.vertices();
    if journal.vertices() != vertices {
        bail!("the journal has other vertices");
    }
    for v in 0..vertices {
        if journal.graph().neighbours(v) != graph.neighbours(v) {
            bail!("the journal has other neighbours of vertex {v}");
        }
    }
    Ok(())
}

/// It is an error where the journal has other core numbers than these, or an order that does not certify them.
fn compare_numbers(alloc: Global, journal: &Journal, graph: &Graph, core: &[u32]) -> Result<()> {
    if journal.core_numbers() != core {
        bail!("the journal has other core numbers");
    }
    let order = journal.order(alloc)?;
    if !check(alloc, graph, core, &order)? {
        bail!("the order of the journal does not certify its core numbers");
    }
    Ok(())
}

/// It is an error where the journal has other edges or core numbers than the graph, or an order that does not certify them.
pub(crate) fn compare(alloc: Global, journal: &Journal, graph: &Graph) -> Result<()> {
    compare_lists(journal, graph)?;
    let core = core_numbers(alloc, graph)?;
    compare_numbers(alloc, journal, graph, &core)
}
