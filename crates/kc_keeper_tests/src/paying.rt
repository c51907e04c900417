//! `pays` at its bounds.
use kc_keeper_workers::{FEWEST_UPDATES, FEWEST_WORKERS, LEAST_SHARE, MOST_SHARE, pays};
use std::process::Abort;

/// The smallest graph for which the fewest updates are not too many.
const SMALLEST: u64 = FEWEST_UPDATES as u64 * MOST_SHARE;

/// A graph for which they are just many enough; they are too few for one that is larger by a share.
const LARGE: u64 = FEWEST_UPDATES as u64 * LEAST_SHARE;

/// Compares the answer for so many workers and updates in a graph of this size.
fn assert_pays<R: Abort>(rt: &R, workers: u32, size: u64, updates: usize, wanted: bool) {
    assert!(rt; pays(workers, size, updates) == wanted);
}

#[test]
fn no_worker_is_asked_beyond_the_bounds(rt: HostRuntime) {
    for (workers, size, updates, wanted) in [
        (0, SMALLEST, FEWEST_UPDATES, false),
        (1, SMALLEST, FEWEST_UPDATES, false),
        (FEWEST_WORKERS - 1, SMALLEST, FEWEST_UPDATES, false),
        (FEWEST_WORKERS, SMALLEST, FEWEST_UPDATES, true),
        (4, SMALLEST, FEWEST_UPDATES - 1, false),
        (4, SMALLEST - 1, FEWEST_UPDATES, false),
        (4, SMALLEST, FEWEST_UPDATES + 1, false),
        (4, LARGE + LEAST_SHARE - 1, FEWEST_UPDATES, true),
        (4, LARGE + LEAST_SHARE, FEWEST_UPDATES, false),
        (4, LARGE + LEAST_SHARE, FEWEST_UPDATES + 1, true),
    ] {
        assert_pays(&rt, workers, size, updates, wanted);
    }
}
