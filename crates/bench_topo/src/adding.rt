//! The arcs that are drawn, and how they are added.
use crate::ordered::Ordered;
use kc_topo::{Added, NoMemory};
use rand::RngExt;
use rand::seq::SliceRandom;
use rand_core::SeedableRng;
use rand_xoshiro::Xoshiro256PlusPlus;
use std::alloc::Global;

/// What became of arcs.
#[derive(Clone, Copy, Drop)]
pub(crate) struct Counts {
    pub(crate) added: u64,
    pub(crate) there: u64,
    pub(crate) refused: u64,
}

/// The numbers below this one in a random order.
fn shuffled(
    alloc: Global,
    draws: &mut Xoshiro256PlusPlus,
    vertices: u32,
) -> Result<Vec<u32>, NoMemory> {
    let mut order = Vec::new(alloc);
    for v in 0..vertices {
        order.push(v)?;
    }
    order.as_mut_slice().shuffle(draws);
    Ok(order)
}

/// Random arcs along a hidden order of the vertices, each from an earlier to a later one.
pub(crate) fn drawn_arcs(
    alloc: Global,
    seed: u64,
    vertices: u32,
    count: u32,
) -> Result<Vec<(u32, u32)>, NoMemory> {
    let mut draws = Xoshiro256PlusPlus::seed_from_u64(seed);
    let order = shuffled(alloc, &mut draws, vertices)?;
    let mut arcs = Vec::new(alloc);
    for _ in 0..count {
        let x = draws.random_range(0..vertices.max(1)) as usize;
        let y = draws.random_range(0..vertices.max(1)) as usize;
        if let (Some(a), Some(b)) = (order.get(x.min(y)), order.get(x.max(y))) {
            if a != b {
                arcs.push((*a, *b))?;
            }
        }
    }
    Ok(arcs)
}

/// Adds each arc, and counts what became of it.
pub(crate) fn add_all(alloc: Global, ordered: &mut Ordered, drawn: &[(u32, u32)]) -> Counts {
    let mut counts = Counts {
        added: 0,
        there: 0,
        refused: 0,
    };
    for (a, b) in drawn {
        if *a < ordered.vertices() && *b < ordered.vertices() {
            match ordered.add(alloc, *a, *b) {
                Ok(Added::New) => counts.added = counts.added.wrapping_add(1),
                Ok(Added::There) => counts.there = counts.there.wrapping_add(1),
                Err(_) => counts.refused = counts.refused.wrapping_add(1),
            }
        }
    }
    counts
}
