//! The threads of a crew, which read a text and make its graph.
use crate::crew::Crew;
use crate::hands::Hands;
use kc_flat::{FlatGraph, GraphMaker};
use kc_graph::NoMemory;
use kc_text::{Part, PartsReader};
use std::alloc::Global;

/// The threads of a crew.
///
/// A method of a trait does not know that threads may share a runtime. So they keep it as a fact.
/// The program `cores` shows their use: a function that is generic over its [`Crew`] makes them, over the [`RuntimeCrew`] that `main` hands
/// to it.
///
/// [`RuntimeCrew`]: crate::RuntimeCrew
#[derive(Drop)]
pub struct Threaded<'a, C: Crew> {
    crew: &'a C,
    ghost shareable: { ∥ C.shareable crew.now ∥₁ },
}

impl<'a, C: Crew> Threaded<'a, C> {
    /// The threads of this crew. None is started.
    pub fn new(crew: &'a C) -> Threaded<'a, C>
        requires shareable { ∥ C.shareable crew.now ∥₁ }
    {
        Threaded { crew }
    }
}

impl<C: Crew> GraphMaker for Threaded<'_, C> {
    fn make_graph(
        &self,
        alloc: Global,
        threads: u32,
        vertices: u32,
        pairs: &[(u32, u32)],
    ) -> Result<FlatGraph, NoMemory> {
        self.crew.make_graph(alloc, threads, vertices, pairs)
    }
}

impl<C: Crew> PartsReader for Threaded<'_, C> {
    fn read_parts<'a>(
        &self,
        alloc: Global,
        threads: u32,
        bytes: &'a [u8],
    ) -> Result<Vec<Part<'a>>, NoMemory> {
        self.crew.read_parts(alloc, threads, bytes)
    }
}

impl<C: Crew> Hands for Threaded<'_, C> {
    fn threads(&self) -> u32 {
        self.crew.processors()
    }
}
