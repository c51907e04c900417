//! The graph that is read, and the updates of it that are planned.
ghost use Rattle.std.specs.Prelude.{◌<◌, All};

use kc_graph::{Graph, NoMemory, Update};
use kc_text::{Limits, ParseFault, parse};
use rand::RngExt;
use rand_core::SeedableRng;
use rand_xoshiro::Xoshiro256PlusPlus;
use std::alloc::Global;
use std::io;
use std::io::Read;

/// The edges of a text, between numbers that stand for its ids.
#[derive(Drop)]
pub(crate) struct Edges {
    pub vertices: u32,
    pub pairs: Vec<(u32, u32)>,
    ghost within: { All (λ p. (p.0 < p.1) × (p.1 < vertices)) pairs.items },
}

/// These edges; `None` where a pair is none.
fn edges_of(vertices: u32, pairs: Vec<(u32, u32)>) -> Option<Edges> {
    if pairs.iter().all(|(u, v)| u < v && *v < vertices) {
        Some(Edges { vertices, pairs })
    } else {
        None
    }
}

/// Reads a text to its end; `None` where it is too long or is not that of a graph.
pub(crate) fn read_edges<R: Read>(alloc: Global, source: &mut R) -> io::Result<Option<Edges>> {
    let mut bytes = Vec::new(alloc);
    source.read_to_end(&mut bytes)?;
    match parse(alloc, Limits::KCORE, &bytes) {
        Ok(input) => Ok(edges_of(input.ids.len() as u32, input.start)),
        Err(ParseFault::Refused(_)) => Ok(None),
        Err(ParseFault::NoMemory) => Err(NoMemory.into()),
    }
}

/// The numbers that insertions and removals are drawn by.
const SEED: u64 = 1;

/// Updates that add random edges which the graph does not have.
pub(crate) fn insertions(
    alloc: Global,
    graph: &Graph,
    count: usize,
) -> Result<Vec<Update>, NoMemory> {
    let mut draws = Xoshiro256PlusPlus::seed_from_u64(SEED);
    let mut updates = Vec::new(alloc);
    let vertices = graph.vertices();
    if vertices == 0 {
        return Ok(updates);
    }
    for _ in 0..count.saturating_mul(8) {
        let u = draws.random_range(0..vertices);
        let v = draws.random_range(0..vertices);
        if updates.len() < count && u < v && !graph.has(u, v) {
            updates.push(Update { add: true, u, v })?;
        }
    }
    Ok(updates)
}

/// Updates that remove random edges of the graph.
pub(crate) fn removals(
    alloc: Global,
    edges: &Edges,
    count: usize,
) -> Result<Vec<Update>, NoMemory> {
    let mut draws = Xoshiro256PlusPlus::seed_from_u64(SEED);
    let mut updates = Vec::new(alloc);
    let pairs = edges.pairs.as_slice();
    for _ in 0..count {
        if pairs.is_empty() {
            break;
        }
        let (u, v) = pairs[draws.random_range(0..pairs.len())];
        if u < v {
            updates.push(Update { add: false, u, v })?;
        }
    }
    Ok(updates)
}
