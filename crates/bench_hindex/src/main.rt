//! Measures core numbers by rounds of h-indices beside those by buckets, on a graph that it reads from standard input as a SNAP edge list.
//!
//! Without a word it writes what was counted, which never varies for one graph. With the word `time` it makes five rounds of measuring and
//! writes beside each count how long it took. The rounds of h-indices run in a thread for each processor: `taskset` chooses
//! how many processors there are.
#![tactic(auto)]

use kc_graph::{Graph, core_numbers};
use kc_hindex::{lawful, peel};
use kc_io::source::read_all;
use kc_io::std_source::StdSource;
use kc_text::{Limits, parse};
use std::time::{Duration, Instant};
use std::{env, io};

/// How often each is measured where times are wanted.
const TURNS: u32 = 5;

/// Writes what was counted, and where times are wanted how long it took.
fn report(
    rt: &HostRuntime,
    timed: bool,
    what: &str,
    counted: u64,
    took: Duration,
) -> io::Result<()> {
    if timed {
        let milliseconds = took.as_secs_f64() * 1e3;
        println!(rt; "{what}: {counted}, {milliseconds:.2} ms")
    } else {
        println!(rt; "{what}: {counted}")
    }
}

/// The graph of the edges on standard input, or none where they are refused.
fn read_graph(rt: &HostRuntime) -> Option<Graph> {
    let mut source = StdSource::new(rt.stdin());
    let bytes = read_all(rt.alloc(), &mut source, Limits::KCORE.bytes).ok()?;
    let input = parse(rt.alloc(), Limits::KCORE, &bytes).ok()?;
    let vertices = input.ids.len() as u32;
    if !input.start.iter().all(|(u, v)| u < v && *v < vertices) {
        return None;
    }
    Graph::from_pairs(rt.alloc(), vertices, &input.start).ok()
}

/// Takes the time of an order for core numbers that are known.
fn measure_order(rt: &HostRuntime, timed: bool, graph: Graph) -> io::Result<()> {
    let core = core_numbers(rt.alloc(), &graph)?;
    let start = Instant::now(rt)?;
    let ranked = lawful(rt.alloc(), graph, core)?;
    let took = start.elapsed(rt)?;
    let vertices = ranked.order().len() as u64;
    report(rt, timed, "vertices in order", vertices, took)
}

/// Takes the time of the buckets.
fn measure_buckets(rt: &HostRuntime, timed: bool, graph: &Graph) -> io::Result<()> {
    let start = Instant::now(rt)?;
    let core = core_numbers(rt.alloc(), graph)?;
    let took = start.elapsed(rt)?;
    let top = core.iter().copied().max().unwrap_or(0);
    report(
        rt,
        timed,
        "greatest core number by buckets",
        u64::from(top),
        took,
    )
}

/// Whether the first word is `time`.
fn is_timed(rt: &HostRuntime) -> io::Result<bool> {
    Ok(
        env::args(rt)?
            .nth(1)
            .is_some_and(|word| word.as_str() == "time"),
    )
}

fn main(rt: HostRuntime) -> io::Result<()> {
    let timed = is_timed(&rt)?;
    let Some(graph) = read_graph(&rt) else {
        return println!(rt; "the edges are refused");
    };
    println!(rt;
        "graph vertices {} edges {}",
        graph.vertices(),
        graph.edges()
    )?;
    let turns = if timed { TURNS } else { 1 };
    for _ in 0..turns {
        measure_buckets(&rt, timed, &graph)?;
        let start = Instant::now(&rt)?;
        let peeled = peel(&rt, rt.alloc(), &graph)?;
        let took = start.elapsed(&rt)?;
        report(&rt, timed, "rounds of h-indices", peeled.rounds, took)?;
    }
    measure_order(&rt, timed, graph)
}
