//! Rounds by moments that are made up, with four threads to be had.
use kc_pace::Pace;

/// When the runs begin: their first second goes to something else.
const SECOND: u64 = 1_000_000_000;

/// How long a run took, and how many of its rounds had several threads.
#[derive(Drop)]
struct WorkedOff {
    took: u64,
    crowded: u32,
}

/// Works off batches of so many pieces. A piece takes so many nanoseconds in one thread, and so many of all threads together.
fn work_off(batches: u32, pieces: u64, alone: u64, together: u64) -> WorkedOff {
    let mut pace = Pace::new(0);
    let mut now = SECOND;
    let mut crowded: u32 = 0;
    for _ in 0..batches {
        let mut left = pieces;
        for _ in 0..pieces {
            let span = pace.begin(now, 4, left);
            let piece = if span.threads > 1 { together } else { alone };
            crowded = crowded.saturating_add(u32::from(span.threads > 1));
            let room = span.until.saturating_sub(now).checked_div(piece);
            let done = room.unwrap_or(1).max(1).min(left);
            now = now.saturating_add(done.saturating_mul(piece));
            pace.end(now, done);
            left = left.saturating_sub(done);
            if left == 0 {
                break;
            }
        }
    }
    WorkedOff {
        took: now.saturating_sub(SECOND),
        crowded,
    }
}

/// A second of work for one thread takes less than half a second.
#[test]
fn threads_that_are_worth_it_are_used(rt: HostRuntime) {
    let run = work_off(100, 1_000, 10_000, 2_700);
    assert!(rt; run.took < SECOND / 2 && run.crowded > 60);
}

/// A second of work for one thread, where four threads take twice as long, takes at most 1.05 seconds, though all threads are tried.
#[test]
fn threads_that_are_not_worth_it_are_tried_seldom(rt: HostRuntime) {
    let run = work_off(100, 1_000, 10_000, 20_000);
    assert!(rt; run.took <= SECOND / 20 * 21 && run.crowded > 0);
}

/// Where four threads gain a tenth, at more than three times the processor time, one thread does it.
#[test]
fn threads_that_gain_little_are_not_used(rt: HostRuntime) {
    let run = work_off(100, 1_000, 10_000, 9_000);
    assert!(rt; run.took > SECOND / 20 * 19 && run.crowded < 10);
}

#[test]
fn short_rounds_have_one_thread(rt: HostRuntime) {
    let run = work_off(1_000, 100, 10_000, 2_700);
    assert_eq!(rt; (run.crowded, run.took), (0, SECOND));
}
