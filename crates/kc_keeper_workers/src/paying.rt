//! Whether it pays to have workers make a batch.
//!
//! The bounds are chosen by the figures of `bench/README.md` ("Batches of a keeper by workers"). For each batch there that is beyond them, four
//! workers took 1.08 to 5.9 times as long as the keeper alone. Within them it was 0.6 to 1.03 times on graphs whose core numbers differ. Where
//! nearly all are equal, they still took 5.8 times as long. No rule by counts alone tells those graphs apart.
ghost use Rattle.std.specs.Prelude.{◌≡◌};
ghost use Rattle.kc_keeper_workers.specs.Paying.{pays};

/// Fewer workers are not asked: two took less time than the keeper alone on only two of the graphs that were measured.
pub const FEWEST_WORKERS: u32 = 4;

/// A batch of fewer updates is made by the keeper alone.
pub const FEWEST_UPDATES: usize = 10_000;

/// Workers are asked for a batch of at least one update for so many vertices and edges: their run begins with a copy of the graph.
pub const LEAST_SHARE: u64 = 50;

/// They are asked for no batch of more than one update for so many vertices and edges: the keeper computes all anew for such a one.
pub const MOST_SHARE: u64 = 40;

/// Whether several workers are asked to make a batch of so many updates, in a graph of this size, its vertices and edges counted together.
/// It goes by these numbers alone. Fewer than `FEWEST_WORKERS` workers are never asked, nor is any for fewer than `FEWEST_UPDATES` updates:
/// then no thread is started.
pub fn pays(workers: u32, size: u64, updates: usize) -> bool
    ensures { result ≡ pays workers size updates }
{
    let count = updates as u64;
    workers >= FEWEST_WORKERS
        && updates >= FEWEST_UPDATES
        && count >= size / LEAST_SHARE
        && count <= size / MOST_SHARE
}
