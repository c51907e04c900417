//! Measures a board of core numbers: reads of single numbers, and publishes where ten numbers change, by these places, by lists that are
//! looked at there, and by whole lists.
//!
//! Without a word it makes a small run and writes what was counted, which never varies. With the word `time` it makes a large one, on few
//! vertices and on many, and writes beside each count how long a call took. It runs on one thread.
#![tactic(auto)]

ghost use Rattle.std.specs.Prelude.{◌<◌};
ghost use Rattle.kc_snapshot.specs.declared.publisher.TheConstants.{MOST_LISTS as MOST_PUBLISHED};

mod boards;

use crate::boards::{How, measure_publishes, measure_reads};
use anyhow::Result;
use kc_snapshot::Blank;
use std::marker::Brand;
use std::rt::Clock;
use std::sync::Wait;
use std::time::Duration;
use std::{env, io};

/// How much is measured, and whether times are written.
#[derive(Clone, Copy, Drop)]
struct Size {
    timed: bool,
    vertices: u32,
    reads: u32,
    changes: u32,
    wholes: u32,
    ghost some: { 0 < vertices },
    ghost few: { (changes < MOST_PUBLISHED) × (wholes < MOST_PUBLISHED) },
}

const SMALL: Size = Size {
    timed: false,
    vertices: 100,
    reads: 1_000,
    changes: 100,
    wholes: 100,
};

const FEW: Size = Size {
    timed: true,
    vertices: 1_000,
    reads: 10_000_000,
    changes: 100_000,
    wholes: 10_000,
};

const MANY: Size = Size {
    timed: true,
    vertices: 1_000_000,
    reads: 10_000_000,
    changes: 100_000,
    wholes: 200,
};

/// Writes what was counted, and where times are wanted how long one of the calls took.
fn report(rt: &HostRuntime, size: &Size, what: &str, calls: u32, took: Duration) -> io::Result<()> {
    if size.timed {
        let nanoseconds = took.as_secs_f64() * 1e9 / f64::from(calls);
        println!(rt; "{what}: {calls}, {nanoseconds:.1} ns a call")
    } else {
        println!(rt; "{what}: {calls}")
    }
}

/// Measures boards of one size. The handle is that of the runtime, as what waits.
fn measure<R: Wait + AllocGlobal + Clock>(rt: &HostRuntime, handle: &R, size: &Size) -> Result<()> {
    println!(rt; "vertices: {}", size.vertices)?;
    let reads = measure_reads::<Brand, _>(handle, Blank::new(), size.vertices, size.reads)?;
    report(rt, size, "reads", size.reads, reads.took)?;
    println!(rt; "sum: {}", reads.sum)?;
    let took = measure_publishes::<Brand, _>(
        handle,
        Blank::new(),
        size.vertices,
        How::Places,
        size.changes,
    )?;
    report(rt, size, "publishes of ten places", size.changes, took)?;
    let took = measure_publishes::<Brand, _>(
        handle,
        Blank::new(),
        size.vertices,
        How::Among,
        size.changes,
    )?;
    report(
        rt,
        size,
        "publishes of lists at ten vertices",
        size.changes,
        took,
    )?;
    let took = measure_publishes::<Brand, _>(
        handle,
        Blank::new(),
        size.vertices,
        How::Whole,
        size.wholes,
    )?;
    report(rt, size, "publishes of whole lists", size.wholes, took)?;
    Ok(())
}

fn main(rt: HostRuntime) -> Result<()> {
    let word = env::args(&rt)?.nth(1);
    match word.as_ref().map(|word| word.as_str()) {
        Some("time") => {
            measure(&rt, &rt, &FEW)?;
            measure(&rt, &rt, &MANY)
        }
        _ => measure(&rt, &rt, &SMALL),
    }
}
