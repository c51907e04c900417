//! Stresses the journal: batches of random updates that up to 64 workers enter, where a gate holds their tries up so that others overtake
//! them, in tables whose versions run out after a few updates.
//!
//! Each batch names an edge at most once, so the graph after it is known beforehand. After each batch the journal has to have this graph's
//! neighbours and core numbers, an order that certifies them, and one receipt for each update, which tells rightly whether it was applied.
//!
//! Without a word there is one run for each of some numbers of workers, and what never varies is written. With the word `run` and two
//! numbers SECONDS and SEED there is one run after another for so long, most of them with 64 workers, and what was done is counted. With the
//! word `few` some updates are entered in one thread and some by two workers: so few that each request for memory can be refused in turn.
//! Where one is, the journal has to be as it was before the update, or to have just the updates of the batch that were entered. The program
//! ends with status 1 where anything is wrong, and says what, with the seed and the number of the run; and where there is no memory.
#![tactic(auto)]

mod comparing;
mod crew;
mod gate;
mod held;
mod receipts;
mod runs;
mod updates;

use crate::held::work_held;
use crate::runs::{Counted, Size, work_run};
use anyhow::{Result, bail};
use std::env::{self, Args};
use std::rt::Clock;
use std::sync::Wait;
use std::thread::Threads;
use std::time::{Duration, Instant};

/// The seed where none is given.
const SEED: u64 = 1;

/// The numbers of workers, of which one run after another takes the next.
const CREWS: [u32; 6] = [64, 2, 64, 8, 64, 3];

/// How many vertices a graph has whose journal is held by one thread, and how many updates.
const HELD_VERTICES: u32 = 16;

const HELD_UPDATES: u32 = 1_000;

/// What is to be done, by the words.
#[derive(Clone, Copy, Drop)]
enum Mode {
    Small,
    Few,
    Run { seconds: u64, seed: u64 },
}

/// A run of so many workers; an error with the seed and the number of the run where something is wrong.
fn try_run<R: Threads + Wait + Sync + AllocGlobal>(
    rt: &R,
    seed: u64,
    number: u64,
    workers: u32,
) -> Result<Counted> {
    let size = Size::drawn(seed.wrapping_add(number), workers);
    match work_run(rt, rt.alloc(), size) {
        Ok(counted) => Ok(counted),
        Err(wrong) => bail!("seed {seed}, run {number}, {workers} workers: {wrong}"),
    }
}

/// A run of each number of workers.
fn try_each_crew<R: Threads + Wait + Sync + AllocGlobal + Print>(rt: &R) -> Result<()> {
    work_held(rt.alloc(), HELD_VERTICES, HELD_UPDATES, SEED)?;
    println!(rt; "held: every state is right after {HELD_UPDATES} updates")?;
    for workers in [1, 2, 3, 8, 64] {
        let counted = try_run(rt, SEED, u64::from(workers), workers)?;
        println!(rt;
            "workers {workers}: every state is right after {} batches",
            counted.batches
        )?;
    }
    Ok(())
}

/// One run after another for so many seconds.
fn run_for<R: Threads + Wait + Sync + AllocGlobal + Clock + Print>(
    rt: &R,
    seconds: u64,
    seed: u64,
) -> Result<()> {
    let start = Instant::now(rt)?;
    let mut all = Counted::default();
    for number in 0..u64::MAX {
        if start.elapsed(rt)? >= Duration::from_secs(seconds) {
            break;
        }
        all.add(try_run(rt, seed, number, CREWS[(number % 6) as usize])?);
    }
    println!(rt;
        "seed {seed}: runs {}, batches {}, updates {}, misses {}, renewals {}",
        all.runs, all.batches, all.updates, all.misses, all.renewals
    )?;
    Ok(())
}

/// A few updates in one thread, and a few by two workers.
fn try_few<R: Threads + Wait + Sync + AllocGlobal + Print>(rt: &R) -> Result<()> {
    work_held(rt.alloc(), 5, 8, SEED)?;
    work_run(rt, rt.alloc(), Size::small(SEED, 2))?;
    println!(rt; "every state is right")?;
    Ok(())
}

/// The number that a word says; an error where there is no such word.
fn number(word: Option<String>) -> Result<u64> {
    match word.and_then(|word| word.as_str().parse::<u64>().ok()) {
        Some(number) => Ok(number),
        None => bail!("the word run wants two numbers after it: SECONDS and SEED"),
    }
}

/// The run that the words ask for that come next.
fn run_of(words: &mut Args) -> Result<Mode> {
    Ok(Mode::Run {
        seconds: number(words.next())?,
        seed: number(words.next())?,
    })
}

/// What the words ask for; an error where they are others.
fn mode_of(rt: &HostRuntime) -> Result<Mode> {
    let mut words = env::args(rt)?;
    let word = words.nth(1);
    match word.as_ref().map(|word| word.as_str()) {
        None => Ok(Mode::Small),
        Some("run") => run_of(&mut words),
        Some("few") => Ok(Mode::Few),
        Some(_) => bail!("the words are run SECONDS SEED, few, or none"),
    }
}

fn main(rt: HostRuntime) -> Result<()> {
    match mode_of(&rt)? {
        Mode::Small => try_each_crew(&rt),
        Mode::Few => try_few(&rt),
        Mode::Run { seconds, seed } => run_for(&rt, seconds, seed),
    }
}
