//! Who reads a text and makes its graph.
ghost use Rattle.std.specs.Prelude.{◌≤◌, ◌<◌};
ghost use Rattle.kc_threads.specs.declared.crew.TheConstants.{MOST_THREADS};

use kc_flat::{FlatGraph, GraphMaker};
use kc_graph::NoMemory;
use kc_text::{Part, PartsReader};
use std::alloc::Global;

/// Who reads the parts of a text and makes its graph: each as one thread does.
///
/// No method of it has a type parameter of its own. What is known of one would be known to one thread alone, and can't be handed to others.
pub trait Hands: GraphMaker + PartsReader {
    /// How many threads are taken where nobody says how many: at least one, and at most [`MOST_THREADS`](crate::MOST_THREADS).
    fn threads(&self) -> u32
        ensures some { 0 < result }
        ensures few { result ≤ MOST_THREADS };
}

/// The thread that calls, which starts no other, however many are asked for.
///
/// # Example
///
/// ```rust
/// use kc_flat::GraphMaker;
/// use kc_threads::{CallerAlone, Hands};
///
/// let threads = CallerAlone.threads(); // 1
/// let graph = CallerAlone.make_graph(alloc, threads, 3, &[(0, 1), (1, 2), (2, 1)])?;
/// let edges = graph.edges(); // 2
/// ```
#[derive(Drop)]
pub struct CallerAlone;

impl GraphMaker for CallerAlone {
    fn make_graph(
        &self,
        alloc: Global,
        threads: u32,
        vertices: u32,
        pairs: &[(u32, u32)],
    ) -> Result<FlatGraph, NoMemory> {
        kc_flat::OneThread.make_graph(alloc, threads, vertices, pairs)
    }
}

impl PartsReader for CallerAlone {
    fn read_parts<'a>(
        &self,
        alloc: Global,
        threads: u32,
        bytes: &'a [u8],
    ) -> Result<Vec<Part<'a>>, NoMemory> {
        kc_text::OneThread.read_parts(alloc, threads, bytes)
    }
}

impl Hands for CallerAlone {
    fn threads(&self) -> u32 {
        1
    }
}
