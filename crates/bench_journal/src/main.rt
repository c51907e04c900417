//! Measures updates of a journal, each planned over the journal that is held and entered, on a graph that it reads from standard input as
//! a SNAP edge list. Half way the journal goes on in a fresh table, and has to answer all as before.
//!
//! The journal is compared with a plain graph that is changed beside it: the same neighbours, the core numbers that are found anew, and
//! an order that certifies them. Without a word that is done after each update, for small graphs without edges too, and what was counted
//! is written, which never varies for one graph. With the word `check` it is done after every hundredth, for large graphs. With the word
//! `time` it is done after the last one alone, so that the updates find the caches as others left them and not as a comparison did, and
//! how long an update took is written. With the word `open` the journal is opened beside the stripes of its table, and nothing else is
//! done, so that the memory of both can be measured.
//!
//! With the word `batches` and three numbers W, B and U it has W workers enter B batches of U random updates, each by one call of
//! `run_batch`, compares the journal after the last batch, and writes how long the calls took. Without a word small batches are entered by
//! 1, 2, 3, 8 and 64 workers, with a comparison after each.
//!
//! The program ends with status 1 where anything differs. But for batches of more than one worker it runs on one thread.
#![tactic(auto)]

mod both;
mod comparing;
mod crewed;
mod graphs;
mod opening;
mod run;

use crate::both::{Both, Step};
use crate::crewed::Crewed;
use crate::graphs::read_graph;
use crate::opening::open_alone;
use anyhow::{Result, bail};
use kc_graph::Graph;
use std::env;
use std::rt::Clock;
use std::sync::Wait;
use std::thread::Threads;
use std::time::Duration;

/// The seed of the updates.
const SEED: u64 = 1;

/// How many updates of a graph there are.
const UPDATES: u32 = 10_000;

/// How many updates there are from one comparison to the next on a large graph.
const BETWEEN: u32 = 100;

/// The numbers of vertices of the graphs that begin without edges.
const BARE: [u32; 3] = [2, 6, 16];

/// How many workers enter small batches.
const CREWS: [u32; 5] = [1, 2, 3, 8, 64];

/// How many vertices the graph of small batches has.
const CREW_VERTICES: u32 = 16;

/// How many small batches there are.
const SMALL_BATCHES: u32 = 25;

/// How many updates a small batch has.
const SMALL_BATCH: u32 = 40;

/// Batches of random updates that several workers enter.
#[derive(Clone, Copy, Drop, Eq, PartialEq)]
struct Load {
    workers: u32,
    batches: u32,
    updates: u32,
}

/// What is to be done, by the words.
#[derive(Clone, Copy, Drop, Eq, PartialEq)]
enum Mode {
    Compare,
    Check,
    Time,
    Open,
    Batches(Load),
}

/// What was counted.
#[derive(Clone, Copy, Default, Drop)]
struct Counted {
    applied: u32,
    compared: u32,
    took: Duration,
}

impl Counted {
    /// Counts an update.
    fn count(&mut self, step: Step) {
        self.applied = self.applied.saturating_add(u32::from(step.applied));
        self.took = self.took.saturating_add(step.took);
    }

    /// How long an update took on average.
    fn microseconds(self) -> f64 {
        self.took.as_secs_f64() * 1e6 / f64::from(UPDATES)
    }
}

/// Makes the updates one after another, and compares after every so many of them.
fn make_updates(rt: &HostRuntime, both: &mut Both, between: u32) -> Result<Counted> {
    let mut counted = Counted::default();
    for index in 0..UPDATES {
        counted.count(both.step(rt, index)?);
        if index == UPDATES / 2 {
            both.renew(rt)?;
        }
        if (index + 1).is_multiple_of(between) {
            both.compare(rt)?;
            counted.compared = counted.compared.saturating_add(1);
        }
    }
    Ok(counted)
}

/// Makes the updates, and writes what was counted.
fn measure_both(rt: &HostRuntime, both: &mut Both, between: u32) -> Result<Counted> {
    let counted = make_updates(rt, both, between)?;
    println!(rt;
        "updates {UPDATES}, applied {}, compared {}, edges {}, top {}",
        counted.applied,
        counted.compared,
        both.graph().edges(),
        both.top()
    )?;
    Ok(counted)
}

/// Measures updates of a graph, and writes what was counted.
fn measure(rt: &HostRuntime, graph: Graph, between: u32) -> Result<Counted> {
    println!(rt;
        "graph vertices {} edges {}",
        graph.vertices(),
        graph.edges()
    )?;
    let mut both = Both::open(rt, graph, SEED)?;
    measure_both(rt, &mut both, between)
}

/// Has the workers enter a batch, and compares after it where that is asked for.
fn enter_one<R: Threads + Wait + Sync + AllocGlobal + Clock>(
    rt: &R,
    crewed: Crewed,
    updates: u32,
    is_compared: bool,
) -> Result<(Crewed, Duration)> {
    let (crewed, took) = crewed.work(rt, updates)?;
    if is_compared {
        crewed.compare(rt.alloc())?;
    }
    Ok((crewed, took))
}

/// Has the workers enter the batches one after another, with a comparison after each so many of them. Answers how many updates were entered,
/// and how long the calls took.
fn enter_batches<R: Threads + Wait + Sync + AllocGlobal + Clock>(
    rt: &R,
    graph: Graph,
    load: Load,
    between: u32,
) -> Result<(usize, Duration)> {
    let mut crewed = Crewed::open(rt.alloc(), graph, load.workers, SEED)?;
    let mut took = Duration::ZERO;
    for batch in 0..load.batches {
        let is_compared = (batch + 1).is_multiple_of(between);
        let (worked, time) = enter_one(rt, crewed, load.updates, is_compared)?;
        crewed = worked;
        took = took.saturating_add(time);
    }
    Ok((crewed.entered(), took))
}

/// Has crews of each size enter small batches on a small graph that begins without edges.
fn compare_crews<R: Threads + Wait + Sync + AllocGlobal + Clock + Print>(rt: &R) -> Result<()> {
    for workers in CREWS {
        let load = Load {
            workers,
            batches: SMALL_BATCHES,
            updates: SMALL_BATCH,
        };
        let graph = Graph::new(rt.alloc(), CREW_VERTICES)?;
        let (entered, _) = enter_batches(rt, graph, load, 1)?;
        println!(rt; "workers {workers}: entered {entered}")?;
    }
    Ok(())
}

/// Compares after each update of a graph, and of small ones that begin without edges.
fn compare_all(rt: &HostRuntime, graph: Graph) -> Result<()> {
    measure(rt, graph, 1)?;
    for vertices in BARE {
        measure(rt, Graph::new(rt.alloc(), vertices)?, 1)?;
    }
    Ok(())
}

/// The number that a word says; an error where there is no such word.
fn number(word: Option<String>) -> Result<u32> {
    match word.and_then(|word| word.as_str().parse::<u32>().ok()) {
        Some(number) => Ok(number),
        None => bail!("the word batches wants three numbers after it"),
    }
}

/// What the words ask for; an error where they are others.
fn mode_of(rt: &HostRuntime) -> Result<Mode> {
    let mut words = env::args(rt)?;
    let word = words.nth(1);
    match word.as_ref().map(|word| word.as_str()) {
        None => Ok(Mode::Compare),
        Some("check") => Ok(Mode::Check),
        Some("time") => Ok(Mode::Time),
        Some("open") => Ok(Mode::Open),
        Some("batches") => Ok(Mode::Batches(Load {
            workers: number(words.next())?,
            batches: number(words.next())?,
            updates: number(words.next())?,
        })),
        Some(_) => bail!("the words are check, time, open and batches"),
    }
}

fn main(rt: HostRuntime) -> Result<()> {
    let mode = mode_of(&rt)?;
    let Some(graph) = read_graph(rt.alloc(), &mut rt.stdin())? else {
        bail!("not the text of a graph");
    };
    match mode {
        Mode::Compare => {
            compare_all(&rt, graph)?;
            compare_crews(&rt)?;
        }
        Mode::Check => {
            measure(&rt, graph, BETWEEN)?;
        }
        Mode::Time => {
            let counted = measure(&rt, graph, UPDATES)?;
            println!(rt; "{:.2} microseconds an update", counted.microseconds())?;
        }
        Mode::Open => open_alone(&rt, graph)?,
        Mode::Batches(load) => {
            let (entered, took) = enter_batches(&rt, graph, load, load.batches)?;
            let microseconds = took.as_secs_f64() * 1e6;
            println!(rt; "entered {entered} in {microseconds:.0} microseconds")?;
        }
    }
    Ok(())
}
