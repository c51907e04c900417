//! A gate that finds by the clock in how many threads rounds are to run.
use kc_pace::Pace;
use kc_workers::Gate;
use std::sync::Mutex;
use std::sync::atomic::{AtomicU64, Ordering};
use std::thread::{Threads, available_parallelism};
use std::time::Clock;

/// What stands for no moment.
const NEVER: u64 = u64::MAX;

/// Lets a round run in one thread, or in one for each worker, update and processor, where that was found to be worth it. It lives as long
/// as the run whose batches it paces. Where there is one worker it asks for no time.
#[derive(Drop)]
pub(crate) struct Paced<'a, R> {
    rt: &'a R,
    pace: Mutex<Pace>,
    /// When the present round is to end. `NEVER` where its time is not taken.
    until: AtomicU64,
    /// How many processors there are. 0: nobody has asked yet, since the answer is read from files.
    processors: AtomicU64,
}

impl<'a, R: Threads + Clock> Paced<'a, R> {
    /// A gate by this clock. Nothing was found yet.
    pub(crate) fn new(rt: &'a R) -> Paced<'a, R> {
        Paced {
            rt,
            pace: Mutex::new(Pace::new(now(rt).unwrap_or(0))),
            until: AtomicU64::new(NEVER),
            processors: AtomicU64::new(0),
        }
    }

    /// How many processors there are: one where that is not known.
    fn processors(&self) -> u64 {
        let known = self.processors.load(Ordering::SeqCst);
        if known > 0 {
            return known;
        }
        let asked = match available_parallelism(self.rt) {
            Ok(count) => count.get() as u64,
            Err(_) => 1,
        };
        self.processors.store(asked, Ordering::SeqCst);
        asked
    }
}

/// The moment by the clock, in nanoseconds. None where it can't be read.
fn now(clock: &impl Clock) -> Option<u64> {
    let time = clock.monotonic().ok()?;
    u64::try_from(time.as_nanos()).ok()
}

impl<R: Threads + Clock> Gate for Paced<'_, R> {
    fn before_enter(&self, _worker: u32, _index: u32) {}

    fn begin_round(&self, workers: usize, updates: usize) -> usize {
        self.until.store(NEVER, Ordering::SeqCst);
        if workers <= 1 {
            return 1;
        }
        let (Some(now), Some(mut pace)) = (now(self.rt), self.pace.try_lock()) else {
            return 1;
        };
        let most = self.processors().min(workers as u64).min(updates as u64);
        let span = pace.begin(now, most, updates as u64);
        self.until.store(span.until, Ordering::SeqCst);
        span.threads as usize
    }

    fn ends_round(&self) -> bool {
        let until = self.until.load(Ordering::SeqCst);
        until != NEVER && now(self.rt).is_none_or(|now| now >= until)
    }

    fn end_round(&self, updates: usize) {
        if self.until.load(Ordering::SeqCst) == NEVER {
            return;
        }
        if let (Some(now), Some(mut pace)) = (now(self.rt), self.pace.try_lock()) {
            pace.end(now, updates as u64);
        }
    }
}
