//! The gate of a run.
use crate::checks::{NONE, sink_of, source_of};
use kc_run::Ran;
use kc_top::run::run;
use kc_top::{Status, Streams};
use kc_workers::Gate;
use std::process::Abort;
use std::sync::Wait;
use std::sync::atomic::{AtomicU64, Ordering};
use std::test::Fail;
use std::thread::Threads;

/// Counts its calls for the first update and for the second.
#[derive(Drop)]
struct Counting {
    first: AtomicU64,
    second: AtomicU64,
}

impl Gate for Counting {
    fn before_enter(&self, _worker: u32, index: u32) {
        let calls = if index == 0 {
            &self.first
        } else {
            &self.second
        };
        calls.fetch_add(1, Ordering::SeqCst);
    }
}

/// How often the gate is called for each of two updates, by a run on these words.
fn calls_for<R: Abort + AllocGlobal + Threads + Wait + Sync>(
    rt: &R,
    words: &[&str],
    input: &[u8],
) -> Result<(u64, u64), Fail> {
    let alloc = rt.alloc();
    let mut streams = Streams {
        source: source_of(alloc, Vec::from_slice(alloc, input)?, NONE.source)?,
        out: sink_of(alloc, 399, 10, NONE.out)?,
        err: sink_of(alloc, 200, 10, NONE.err)?,
    };
    let mut ran = Ran::new(alloc);
    let gate = Counting {
        first: AtomicU64::new(0),
        second: AtomicU64::new(0),
    };
    let status = run(rt, alloc, words, &mut streams, &gate, &mut ran);
    assert_eq!(rt; status, Status::Done);
    let first = gate.first.load(Ordering::SeqCst);
    let second = gate.second.load(Ordering::SeqCst);
    Ok((first, second))
}

#[test]
fn the_gate_of_a_run_is_called_before_each_try(rt: HostRuntime) -> Result<(), Fail> {
    for workers in ["1", "2", "8"] {
        let calls = calls_for(
            &rt,
            &["--workers", workers],
            b"batch\n+ 1 2\nbatch\n- 2 1\n",
        )?;
        assert_eq!(rt; calls, (1, 1));
    }
    Ok(())
}
