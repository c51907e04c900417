//! Reads a graph and batches of updates from standard input, and makes one batch after another, while four watchers in threads of their own
//! read core numbers, without a lock and without waiting for a batch. At the end it writes the core numbers before the first batch and
//! after each, and whether all that the watchers read was right.
//!
//! It shows how `kc_snapshot` is used: who works publishes after each batch, a reader that is told of a publish sees it, and a reader that is
//! told nothing sees whole lists all the same, none after a later one. Which lists a watcher comes to see depends on the schedule; what the
//! program writes does not.
#![tactic(auto)]

ghost use Rattle.std.specs.Prelude.{◌≡◌, ◌≤◌, ◌∷◌, [], All, IfOk, length};
ghost use Rattle.kc_snapshot.specs.Histories.{member, width};
ghost use Rattle.kc_text.specs.declared.limits.TheConstants.{MOST_BATCHES, MOST_IDS};

mod watching;
mod working;

use crate::watching::{Watcher, one_of, watchers_of};
use crate::working::work;
use anyhow::{Result, bail};
use kc_graph::{Graph, core_numbers};
use kc_snapshot::{Blank, BoardName, Publisher, Reader, open};
use kc_text::{Batch, Input, Limits, parse};
use std::alloc::Global;
use std::io::Read as _;
use std::marker::Brand;
use std::sync::Wait;
use std::thread;
use std::thread::Threads;

/// How many watchers there are.
const WATCHERS: u32 = 4;

/// What was seen of a run.
#[derive(Drop)]
struct ReaderSeen {
    /// The core numbers before the first batch, and after each.
    lists: Vec<Vec<u32>>,
    /// Whether all that the watchers read was right.
    right: bool,
}

/// The graph and the batches of a text.
fn read_input(rt: &HostRuntime) -> Result<Input>
    ensures few { IfOk result (λ input. length input.ids.items ≤ MOST_IDS) }
    ensures few_batches { IfOk result (λ input. length input.batches.items ≤ MOST_BATCHES) }
{
    let mut bytes = Vec::new(rt.alloc());
    rt.stdin().read_to_end(&mut bytes)?;
    match parse(rt.alloc(), Limits::KCORE, &bytes) {
        Ok(input) => Ok(input),
        Err(_) => bail!("not the text of a graph, or no memory"),
    }
}

/// The graph with so many vertices and these edges.
fn graph_of(alloc: Global, vertices: u32, pairs: &[(u32, u32)]) -> Result<Graph> {
    if !pairs.iter().all(|(u, v)| u < v && *v < vertices) {
        bail!("an edge has no two vertices");
    }
    Ok(Graph::from_pairs(alloc, vertices, pairs)?)
}

/// Makes the batches in a graph whose core numbers were published, while the watchers read them.
fn see_batches<J: BoardName + Send + Sync, R: Threads + Wait + AllocGlobal + Sync>(
    rt: &R,
    graph: &mut Graph,
    publisher: &mut Publisher<J, &R>,
    told: &mut Reader<J>,
    watchers: &mut [Watcher<J>],
    batches: &[Batch],
) -> Result<ReaderSeen>
    requires opened { length publisher.old ≡ 1 }
    requires few { length batches.now ≤ MOST_BATCHES }
    requires vertices { (width publisher.old ≡ graph.old.size) × (width told.old ≡ graph.old.size) }
{
    let alloc = rt.alloc();
    let (worked, ()) = thread::join(
        rt,
        || work(rt, alloc, graph, publisher, told, batches),
        || thread::for_each_mut(
            rt,
            watchers,
            WATCHERS as usize,
            &|_, watcher| watcher.watch(rt),
        ),
    );
    let lists = worked?;
    let right = watchers.iter().all(|watcher| watcher.is_right(&lists));
    Ok(ReaderSeen { lists, right })
}

/// Makes the batches in a graph whose core numbers were published to these readers. One is told of each publish, and the others are watchers.
fn read_batches<J: BoardName + Send + Sync, R: Threads + Wait + AllocGlobal + Sync>(
    rt: &R,
    graph: &mut Graph,
    publisher: &mut Publisher<J, &R>,
    mut readers: Vec<Reader<J>>,
    first: &[u32],
    batches: &[Batch],
) -> Result<ReaderSeen>
    requires opened { publisher.old ≡ member first.now ∷ [] }
    requires readers { All (λ reader. reader ≡ member first.now ∷ []) readers.items }
    requires few { length batches.now ≤ MOST_BATCHES }
    requires vertices { length first.now ≡ graph.old.size }
{
    let Some(mut told) = one_of(&mut readers, first) else {
        bail!("there is no reader");
    };
    let mut watchers = watchers_of(rt.alloc(), readers, first, graph.vertices())?;
    see_batches(
        rt,
        graph,
        publisher,
        &mut told,
        watchers.as_mut_slice(),
        batches,
    )
}

/// Opens a board for a graph, and makes the batches in the graph while watchers read its core numbers.
fn watch_batches<J: BoardName + Send + Sync, R: Threads + Wait + AllocGlobal + Sync>(
    rt: &R,
    blank: Blank,
    graph: &mut Graph,
    batches: &[Batch],
) -> Result<ReaderSeen>
    requires blank { blank ≡ J.book }
    requires few { length batches.now ≤ MOST_BATCHES }
{
    let alloc = rt.alloc();
    let first = core_numbers(alloc, graph)?;
    let (mut publisher, readers) = open::<J, &R>(rt, alloc, blank, &first, WATCHERS + 1)?;
    let seen = read_batches(rt, graph, &mut publisher, readers, &first, batches);
    publisher.end();
    seen
}

/// Makes the batches of an input, while watchers read.
fn watch_input<R: Threads + Wait + AllocGlobal + Sync>(rt: &R, input: &Input) -> Result<ReaderSeen>
    requires few { length input.now.ids.items ≤ MOST_IDS }
    requires few_batches { length input.now.batches.items ≤ MOST_BATCHES }
{
    let mut graph = graph_of(rt.alloc(), input.ids.len() as u32, &input.start)?;
    watch_batches::<Brand, _>(rt, Blank::new(), &mut graph, &input.batches)
}

/// Writes each list of core numbers.
fn write_lists(rt: &HostRuntime, lists: &[Vec<u32>]) -> Result<()> {
    for (number, list) in lists.iter().enumerate() {
        print!(rt; "list {number}:")?;
        for core in list {
            print!(rt; " {core}")?;
        }
        println!(rt; "")?;
    }
    Ok(())
}

/// Writes what was seen of a run.
fn write_seen(rt: &HostRuntime, seen: &ReaderSeen) -> Result<()> {
    write_lists(rt, &seen.lists)?;
    if !seen.right {
        bail!("a watcher read what was not published");
    }
    println!(rt; "what the watchers read was right")?;
    Ok(())
}

fn main(rt: HostRuntime) -> Result<()> {
    let input = read_input(&rt)?;
    let seen = watch_input(&rt, &input)?;
    write_seen(&rt, &seen)
}
