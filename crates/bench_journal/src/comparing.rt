//! A journal beside a plain graph that was changed in the same way, and beside itself.
use kc_cert::check;
use kc_graph::{Graph, NoMemory, core_numbers};
use kc_journal::Journal;
use kc_table::Entry;
use std::alloc::Global;

/// The core numbers of a journal with their order, and its totals.
#[derive(Drop, Eq, PartialEq)]
pub(crate) struct Numbers {
    core: Vec<u32>,
    order: Vec<u32>,
    edges: u64,
    top: u32,
}

impl Numbers {
    /// Those of a journal.
    pub(crate) fn of(alloc: Global, journal: &Journal) -> Result<Numbers, NoMemory> {
        let mut core = Vec::new(alloc);
        for v in 0..journal.vertices() {
            core.push(journal.core(v))?;
        }
        Ok(Numbers {
            core,
            order: journal.order(alloc)?,
            edges: journal.graph().edges(),
            top: journal.top(),
        })
    }

    /// Whether these are the core numbers of a graph as they are found anew, with an order that certifies them, and its totals.
    pub(crate) fn fit(&self, alloc: Global, graph: &Graph) -> Result<bool, NoMemory> {
        let fresh = core_numbers(alloc, graph)?;
        let certified = check(alloc, graph, &self.core, &self.order)?;
        let top = fresh.iter().copied().max().unwrap_or(0);
        Ok(certified && self.core == fresh && self.edges == graph.edges() && self.top == top)
    }
}

/// What a journal answers to whoever asks everything but its lists of neighbours.
#[derive(Drop, Eq, PartialEq)]
pub(crate) struct Answers {
    numbers: Numbers,
    edge_stamps: Vec<u32>,
    place_stamps: Vec<u32>,
    entries: Vec<Entry>,
}

impl Answers {
    /// Those of a journal.
    pub(crate) fn of(alloc: Global, journal: &Journal) -> Result<Answers, NoMemory> {
        let mut place_stamps = Vec::new(alloc);
        for v in 0..journal.vertices() {
            place_stamps.push(journal.place_stamp(v))?;
        }
        Ok(Answers {
            numbers: Numbers::of(alloc, journal)?,
            edge_stamps: Vec::from_slice(alloc, journal.edge_stamps())?,
            place_stamps,
            entries: Vec::from_slice(alloc, journal.entries())?,
        })
    }
}

/// Whether both have the same neighbours of each vertex.
pub(crate) fn has_edges_of(journal: &Journal, graph: &Graph) -> bool {
    let vertices = graph.vertices();
    if journal.vertices() != vertices {
        return false;
    }
    let mut same = true;
    for v in 0..vertices {
        same = same && journal.graph().neighbours(v) == graph.neighbours(v);
    }
    same
}
