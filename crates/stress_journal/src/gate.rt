//! A gate that lets others overtake.
use kc_workers::Gate;
use std::sync::atomic::{AtomicU64, Ordering};
use std::thread;

/// Holds a worker up before each try, for some turns of the others, so that they may enter what makes its plan stale.
#[derive(Drop)]
pub(crate) struct Holding {
    calls: AtomicU64,
}

impl Holding {
    /// Nobody was held up so far.
    pub(crate) fn new() -> Holding {
        Holding {
            calls: AtomicU64::new(0),
        }
    }
}

impl Gate for Holding {
    fn before_enter(&self, _worker: u32, _index: u32) {
        let call = self.calls.fetch_add(1, Ordering::SeqCst);
        for _ in 0..call % 4 {
            thread::yield_now();
        }
    }
}
