//! All graphs of four and of five vertices, with all updates of each.
ghost use Rattle.std.specs.Prelude.{◌<◌};

use crate::loose::compare;
use kc_graph::{Graph, NoMemory, Update};
use std::alloc::Global;
use std::io;
use std::rt::Clock;
use std::sync::Wait;

/// What was compared.
#[derive(Clone, Copy, Default, Drop)]
pub(crate) struct Small {
    pub graphs: u64,
    pub plans: u64,
    pub differing: u64,
}

/// The pairs of five vertices, those of the first four before the others.
fn pairs() -> [(u32, u32); 10] {
    [
        (0, 1),
        (0, 2),
        (1, 2),
        (0, 3),
        (1, 3),
        (2, 3),
        (0, 4),
        (1, 4),
        (2, 4),
        (3, 4),
    ]
}

/// The graph that joins the pairs at whose places the number has a bit.
fn numbered_graph(alloc: Global, vertices: u32, number: u32) -> Result<Graph, NoMemory> {
    let mut graph = Graph::new(alloc, vertices)?;
    let mut bits = number;
    for (u, v) in pairs() {
        if bits % 2 == 1 && u < v && v < graph.vertices() {
            graph.add(u, v)?;
        }
        bits /= 2;
    }
    Ok(graph)
}

/// The updates that join and part each pair of the vertices.
fn updates_of(alloc: Global, vertices: u32) -> Result<Vec<Update>, NoMemory> {
    let mut updates = Vec::new(alloc);
    for (u, v) in pairs() {
        if u < v && v < vertices {
            updates.push(Update { add: true, u, v })?;
            updates.push(Update { add: false, u, v })?;
        }
    }
    Ok(updates)
}

impl Small {
    /// Compares the plans of the updates of a graph.
    fn compare_graph<R: Wait + AllocGlobal + Clock>(
        &mut self,
        rt: &R,
        graph: &Graph,
        updates: &[Update],
    ) -> io::Result<()> {
        let compared = compare(rt, graph, updates)?;
        self.graphs = self.graphs.wrapping_add(1);
        self.plans = self.plans.wrapping_add(compared.asked.plans);
        self.differing = self.differing.wrapping_add(compared.differing);
        Ok(())
    }

    /// Compares the plans of the updates of each graph of some vertices, up to this number.
    fn compare_graphs<R: Wait + AllocGlobal + Clock>(
        &mut self,
        rt: &R,
        vertices: u32,
        graphs: u32,
        updates: &[Update],
    ) -> io::Result<()> {
        for number in 0..graphs {
            let graph = numbered_graph(rt.alloc(), vertices, number)?;
            self.compare_graph(rt, &graph, updates)?;
        }
        Ok(())
    }

    /// Compares the plans of all updates of each graph of some vertices, up to this number.
    fn compare_all<R: Wait + AllocGlobal + Clock>(
        &mut self,
        rt: &R,
        vertices: u32,
        graphs: u32,
    ) -> io::Result<()> {
        let updates = updates_of(rt.alloc(), vertices)?;
        self.compare_graphs(rt, vertices, graphs, &updates)
    }
}

/// Compares the plans over loose views with those over a plain view, for all graphs of four and of five vertices: these have six and ten
/// pairs.
pub(crate) fn compare_small<R: Wait + AllocGlobal + Clock>(rt: &R) -> io::Result<Small> {
    let mut small = Small::default();
    small.compare_all(rt, 4, 1 << 6)?;
    small.compare_all(rt, 5, 1 << 10)?;
    Ok(small)
}
