//! Who can be asked for threads, and a runtime as one of these.
ghost use Rattle.std.specs.Prelude.{◌≡◌, ◌≤◌, ◌<◌, IfOk, map};
ghost use Rattle.std.specs.Thread.{IsSync};
ghost use Rattle.kc_graph.specs.Bulk.{graph_with};
ghost use Rattle.kc_graph.specs.Gathering.{edge_of};
ghost use Rattle.kc_flat.specs.Pairs.{AreWithin};
ghost use Rattle.kc_text.specs.Lines.{EndsLine};
ghost use Rattle.kc_text.specs.Parts.{ArePartsOf};

use kc_flat::{FlatGraph, from_pairs_in};
use kc_graph::NoMemory;
use kc_text::{Part, read_parts_in};
use rayon::current_num_threads;
use std::alloc::Global;
use std::thread::Threads;

/// The most threads that are asked for.
pub const MOST_THREADS: u32 = 64;

/// Who can be asked for threads.
///
/// Its methods have no type parameter of their own. For what a method is generic over is known to one thread alone, and can't be handed to
/// others.
pub trait Crew {
    /// That several threads may share it.
    ghost shareable: { Self → Type 0 };

    /// How many threads there are where nobody says how many: at least one, and at most [`MOST_THREADS`].
    fn processors(&self) -> u32
        ensures some { 0 < result }
        ensures few { result ≤ MOST_THREADS };

    /// The graph with these pairs as its edges, made by up to so many threads: just that of `FlatGraph::from_pairs`.
    fn make_graph(
        &self,
        alloc: Global,
        threads: u32,
        vertices: u32,
        pairs: &[(u32, u32)],
    ) -> Result<FlatGraph, NoMemory>
        requires shareable { ∥ Self.shareable self.now ∥₁ }
        requires within { AreWithin vertices pairs.now }
        ensures { IfOk result (λ g. g ≡ graph_with vertices (map edge_of pairs.now)) };

    /// Cuts whole lines into parts, and has these read by up to so many threads.
    fn read_parts<'a>(
        &self,
        alloc: Global,
        threads: u32,
        bytes: &'a [u8],
    ) -> Result<Vec<Part<'a>>, NoMemory>
        requires shareable { ∥ Self.shareable self.now ∥₁ }
        requires ended { EndsLine bytes.now }
        ensures { IfOk result (λ parts. ArePartsOf bytes.now parts.items) };
}

/// The threads of a runtime.
#[derive(Drop)]
pub struct RuntimeCrew<'a, R> {
    /// The runtime.
    pub rt: &'a R,
}

impl<R: Threads + Sync> Crew for RuntimeCrew<'_, R> {
    ghost shareable = { λ _. IsSync R.row };

    fn processors(&self) -> u32 {
        current_num_threads(self.rt).min(MOST_THREADS as usize) as u32
    }

    fn make_graph(
        &self,
        alloc: Global,
        threads: u32,
        vertices: u32,
        pairs: &[(u32, u32)],
    ) -> Result<FlatGraph, NoMemory> {
        from_pairs_in(self.rt, threads, alloc, vertices, pairs)
    }

    fn read_parts<'a>(
        &self,
        alloc: Global,
        threads: u32,
        bytes: &'a [u8],
    ) -> Result<Vec<Part<'a>>, NoMemory> {
        read_parts_in(self.rt, alloc, threads, bytes)
    }
}
