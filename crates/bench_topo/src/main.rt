//! Measures how arcs are added to an acyclic graph whose vertices stand in topological order, and compares it with a plain model.
//!
//! Without a word it makes a small run and writes what was counted, which never varies: arcs along a hidden order, none of which closes a
//! cycle; and arcs of any direction, each of which a table of what reaches what must answer alike, with the same order after it. Where one
//! differs it ends with status 1. With the word `time` it makes large runs of the first kind and writes beside each count how long it took.
//! It runs on one thread, and all arcs are drawn from a fixed seed.
#![tactic(auto)]

ghost use Rattle.std.specs.Prelude.{◌≤◌};
ghost use Rattle.kc_words.specs.declared.layout.TheConstants.{VERTICES};

mod adding;
mod agreeing;
mod model;
mod ordered;

use crate::adding::{Counts, add_all, drawn_arcs};
use crate::agreeing::agree;
use crate::ordered::Ordered;
use anyhow::{Result, bail};
use std::env;
use std::time::{Duration, Instant};

/// The seed of all draws.
const SEED: u64 = 1;

/// How many vertices there are, and how many arcs are drawn.
#[derive(Clone, Copy, Drop)]
struct Size {
    vertices: u32,
    arcs: u32,
    ghost some: { 1 ≤ vertices },
    ghost few: { vertices ≤ VERTICES },
}

const SMALL: Size = Size {
    vertices: 1_000,
    arcs: 2_000,
};

const COMPARED: Size = Size {
    vertices: 300,
    arcs: 10_000,
};

const LARGE: Size = Size {
    vertices: 100_000,
    arcs: 100_000,
};

const DENSER: Size = Size {
    vertices: 100_000,
    arcs: 400_000,
};

/// Adds arcs, and gives what came of it and how long it took.
fn time(
    rt: &HostRuntime,
    ordered: &mut Ordered,
    drawn: &[(u32, u32)],
) -> Result<(Counts, Duration)> {
    let start = Instant::now(rt)?;
    let counts = add_all(rt.alloc(), ordered, drawn);
    Ok((counts, start.elapsed(rt)?))
}

/// Adds the arcs of one size, and gives what came of it and how long it took.
fn measure(rt: &HostRuntime, size: Size) -> Result<(Counts, Duration)> {
    let drawn = drawn_arcs(rt.alloc(), SEED, size.vertices, size.arcs)?;
    let mut ordered = Ordered::new(rt.alloc(), size.vertices)?;
    time(rt, &mut ordered, &drawn)
}

/// Adds the arcs of one size, and writes what came of it.
fn report(rt: &HostRuntime, size: Size) -> Result<()> {
    let (counts, _) = measure(rt, size)?;
    let Counts {
        added,
        there,
        refused,
    } = counts;
    println!(rt; "arcs added: {added}, there already: {there}, refused: {refused}")?;
    Ok(())
}

/// Adds the arcs of one size, and writes what came of it and how long it took.
fn report_timed(rt: &HostRuntime, size: Size) -> Result<()> {
    let (counts, took) = measure(rt, size)?;
    let Counts {
        added,
        there,
        refused,
    } = counts;
    let milliseconds = took.as_secs_f64() * 1e3;
    println!(rt;
        "arcs added: {added}, there already: {there}, refused: {refused}, {milliseconds:.2} ms"
    )?;
    Ok(())
}

/// Adds arcs to the graph and to a plain model, and writes how many were answered alike.
fn compare(rt: &HostRuntime, size: Size) -> Result<()> {
    let Some(agreed) = agree(rt.alloc(), size.vertices, SEED, size.arcs)? else {
        bail!("an arc is not answered as the model says, or moves otherwise");
    };
    println!(rt;
        "as the model says: arcs added: {}, there already: {}, refused with a walk: {}",
        agreed.entered, agreed.there, agreed.cycles
    )?;
    Ok(())
}

/// Whether the first word is `time`.
fn is_timed(rt: &HostRuntime) -> Result<bool> {
    Ok(
        env::args(rt)?
            .nth(1)
            .is_some_and(|word| word.as_str() == "time"),
    )
}

fn main(rt: HostRuntime) -> Result<()> {
    if is_timed(&rt)? {
        report_timed(&rt, LARGE)?;
        report_timed(&rt, DENSER)
    } else {
        report(&rt, SMALL)?;
        compare(&rt, COMPARED)
    }
}
