//! Stresses the order list that threads share: one thread puts, moves and takes items without a pause, through splits of groups and new
//! labels of all of them, and one to seven others compare items meanwhile.
//!
//! What was done is told to those who compare, so each of their answers has a right one: a sure answer is that, and an item of which they
//! were told that it is out is answered to be out. After the last store the list is that of one thread to which the same was done.
//!
//! Without a word there is one table for each number of threads, and what never varies is written. With the word `run` and two numbers
//! SECONDS and SEED there is one table after another for so long, and what was done is counted. The program ends with status 1 where an
//! answer is wrong, and says which, with the seed and the number of the table.
#![tactic(auto)]

mod board;
mod changing;
mod comparing;
mod rounds;
mod table;
mod wrong;

use crate::table::{Counted, work_table};
use anyhow::{Result, bail};
use std::env;
use std::rt::Clock;
use std::sync::Wait;
use std::thread::Threads;
use std::time::{Duration, Instant};

/// The least and the greatest number of threads.
const THREADS: (u32, u32) = (2, 8);

/// The seed where none is given.
const SEED: u64 = 1;

/// What is to be done, by the words.
#[derive(Clone, Copy, Drop)]
enum Mode {
    Small,
    Run { seconds: u64, seed: u64 },
}

/// A table with so many threads; an error with the seed and the number of the table where something is wrong.
fn try_table<R: Threads + Wait + Sync + AllocGlobal>(
    rt: &R,
    seed: u64,
    number: u64,
    threads: u32,
) -> Result<Counted> {
    let (counted, wrong) = work_table(rt, rt.alloc(), seed.wrapping_add(number), threads)?;
    if let Some(wrong) = wrong {
        bail!("seed {seed}, table {number}, {threads} threads: {wrong:?}");
    }
    Ok(counted)
}

/// A table for each number of threads.
fn try_each_number<R: Threads + Wait + Sync + AllocGlobal + Print>(rt: &R) -> Result<()> {
    let (least, most) = THREADS;
    for threads in least..=most {
        try_table(rt, SEED, u64::from(threads), threads)?;
        println!(rt; "threads {threads}: every answer is right")?;
    }
    Ok(())
}

/// The number of threads of a table: one after another.
fn threads_of(number: u64) -> u32 {
    let (least, most) = THREADS;
    least + (number % u64::from(most - least + 1)) as u32
}

/// One table after another for so many seconds.
fn run_for<R: Threads + Wait + Sync + AllocGlobal + Clock + Print>(
    rt: &R,
    seconds: u64,
    seed: u64,
) -> Result<()> {
    let start = Instant::now(rt)?;
    let mut all = Counted::default();
    for number in 0..u64::MAX {
        if start.elapsed(rt)? >= Duration::from_secs(seconds) {
            break;
        }
        all.add(try_table(rt, seed, number, threads_of(number))?);
    }
    println!(rt;
        "seed {seed}: tables {}, stores {}, comparisons {}, sure answers {}",
        all.tables, all.stores, all.comparisons, all.sure
    )?;
    Ok(())
}

/// The number that a word says; an error where there is no such word.
fn number(word: Option<String>) -> Result<u64> {
    match word.and_then(|word| word.as_str().parse::<u64>().ok()) {
        Some(number) => Ok(number),
        None => bail!("the word run wants two numbers after it: SECONDS and SEED"),
    }
}

/// What the words ask for; an error where they are others.
fn mode_of(rt: &HostRuntime) -> Result<Mode> {
    let mut words = env::args(rt)?;
    let word = words.nth(1);
    match word.as_ref().map(|word| word.as_str()) {
        None => Ok(Mode::Small),
        Some("run") => Ok(Mode::Run {
            seconds: number(words.next())?,
            seed: number(words.next())?,
        }),
        Some(_) => bail!("the words are run SECONDS SEED, or none"),
    }
}

fn main(rt: HostRuntime) -> Result<()> {
    match mode_of(&rt)? {
        Mode::Small => try_each_number(&rt),
        Mode::Run { seconds, seed } => run_for(&rt, seconds, seed),
    }
}
