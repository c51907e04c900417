//! Measures decompositions, their checks and plans over a graph, which it reads from standard input as a SNAP edge list.
//!
//! Without a word it makes a small run and writes what was counted, which never varies for one graph. With the word `time` it makes a
//! large run and writes beside each count how long it took. It runs on one thread.
//!
//! The updates are planned over a plain view, and over loose views of a table that opened with the graph and stays at rest. There each
//! plan must be the one over the plain view, list for list; so must it be for each update of each graph of four or five vertices. Where one
//! is not, the program says so and fails.
#![tactic(auto)]

ghost use Rattle.std.specs.Prelude.{◌≡◌};
ghost use Rattle.kc_view.specs.Answers.{nothing_answered};

mod graphs;
mod loose;
mod plans;
mod same;
mod small;

use crate::graphs::{Edges, insertions, read_edges, removals};
use crate::loose::compare;
use crate::plans::{Asked, plan_insertions, plan_removals};
use crate::small::compare_small;
use kc_cert::check;
use kc_graph::{Graph, Lawful, Update, decompose};
use kc_view::{PlainView, PlanFault};
use std::alloc::Global;
use std::rt::Clock;
use std::sync::Wait;
use std::time::{Duration, Instant};
use std::{env, io};

/// How much is measured, and whether times are written.
#[derive(Clone, Copy, Drop)]
struct Size {
    timed: bool,
    rounds: u32,
    plans: usize,
}

const SMALL: Size = Size {
    timed: false,
    rounds: 1,
    plans: 1_000,
};

const LARGE: Size = Size {
    timed: true,
    rounds: 5,
    plans: 10_000,
};

/// Writes what was counted, and where times are wanted how long it took.
fn report<R: Print>(
    rt: &R,
    size: &Size,
    what: &str,
    counted: u64,
    took: Duration,
) -> io::Result<()> {
    if size.timed {
        let milliseconds = took.as_secs_f64() * 1e3;
        println!(rt; "{what}: {counted}, {milliseconds:.2} ms")
    } else {
        println!(rt; "{what}: {counted}")
    }
}

/// Decomposes the graph, and checks what came of it.
fn measure_check<R: AllocGlobal + Clock + Print>(
    rt: &R,
    size: &Size,
    graph: &Graph,
) -> io::Result<()> {
    let start = Instant::now(rt)?;
    let state = decompose(rt.alloc(), graph)?;
    report_check(rt, size, graph, &state, start)
}

/// Writes how long a decomposition took that began then, and checks what came of it.
fn report_check<R: AllocGlobal + Clock + Print>(
    rt: &R,
    size: &Size,
    graph: &Graph,
    state: &Lawful,
    start: Instant,
) -> io::Result<()> {
    let took = start.elapsed(rt)?;
    let top = state.core().iter().copied().max().unwrap_or(0);
    report(
        rt,
        size,
        "greatest core number by decompose",
        u64::from(top),
        took,
    )?;
    let start = Instant::now(rt)?;
    let certified = check(rt.alloc(), graph, state.core(), state.order())?;
    report(
        rt,
        size,
        "certified by check",
        u64::from(certified),
        start.elapsed(rt)?,
    )
}

/// Writes what was asked by plans.
fn report_asked<R: Print>(
    rt: &R,
    size: &Size,
    what: &str,
    asked: &Asked,
    took: Duration,
) -> io::Result<()> {
    report(rt, size, what, asked.plans, took)?;
    println!(rt;
        "  lists asked: {}, the most of one plan: {}",
        asked.lists, asked.most_lists
    )?;
    println!(rt;
        "  core numbers asked: {}, orders asked: {}",
        asked.cores, asked.orders
    )
}

/// Writes what was asked by plans, or why they stopped.
fn report_plans<R: Print>(
    rt: &R,
    size: &Size,
    what: &str,
    asked: &Result<Asked, PlanFault>,
    took: Duration,
) -> io::Result<()> {
    let Ok(asked) = asked else {
        return println!(rt; "{what}: no memory");
    };
    report_asked(rt, size, what, asked, took)
}

/// The updates that are planned, drawn beforehand.
#[derive(Drop)]
struct Updates {
    added: Vec<Update>,
    removed: Vec<Update>,
}

/// Plans insertions over a view, and writes what they asked.
fn report_insertions<R: AllocGlobal + Clock + Print>(
    rt: &R,
    size: &Size,
    view: &mut PlainView,
    updates: &[Update],
) -> io::Result<()>
    requires { view.old.kept ≡ nothing_answered }
{
    let start = Instant::now(rt)?;
    let asked = plan_insertions(rt.alloc(), view, updates);
    report_plans(rt, size, "insertions planned", &asked, start.elapsed(rt)?)
}

/// Plans removals over a view, and writes what they asked.
fn report_removals<R: AllocGlobal + Clock + Print>(
    rt: &R,
    size: &Size,
    view: &mut PlainView,
    updates: &[Update],
) -> io::Result<()>
    requires { view.old.kept ≡ nothing_answered }
{
    let start = Instant::now(rt)?;
    let asked = plan_removals(rt.alloc(), view, updates);
    report_plans(rt, size, "removals planned", &asked, start.elapsed(rt)?)
}

/// Plans insertions and removals, each in the state of the graph.
fn measure_plans<R: AllocGlobal + Clock + Print>(
    rt: &R,
    size: &Size,
    updates: &Updates,
    state: &Lawful,
) -> io::Result<()> {
    let mut view = PlainView::new(rt.alloc(), state)?;
    report_insertions(rt, size, &mut view, &updates.added)?;
    let mut view = PlainView::new(rt.alloc(), state)?;
    report_removals(rt, size, &mut view, &updates.removed)
}

/// Plans updates over loose views of a table that opened with the graph. Gives how many of the plans are not those over a plain view.
fn measure_loosely<R: Wait + AllocGlobal + Clock + Print>(
    rt: &R,
    size: &Size,
    what: &str,
    graph: &Graph,
    updates: &[Update],
) -> io::Result<u64> {
    let compared = compare(rt, graph, updates)?;
    report(
        rt,
        size,
        "stripes opened",
        compared.stripes,
        compared.opening,
    )?;
    report_asked(rt, size, what, &compared.asked, compared.planning)?;
    Ok(compared.differing)
}

/// The same for insertions and removals.
fn measure_at_rest<R: Wait + AllocGlobal + Clock + Print>(
    rt: &R,
    size: &Size,
    graph: &Graph,
    updates: &Updates,
) -> io::Result<u64> {
    let added = measure_loosely(
        rt,
        size,
        "insertions planned loosely",
        graph,
        &updates.added,
    )?;
    let removed = measure_loosely(
        rt,
        size,
        "removals planned loosely",
        graph,
        &updates.removed,
    )?;
    Ok(added.saturating_add(removed))
}

/// Whether the first word is `time`.
fn is_timed(rt: &HostRuntime) -> io::Result<bool> {
    Ok(
        env::args(rt)?
            .nth(1)
            .is_some_and(|word| word.as_str() == "time"),
    )
}

/// Updates that are drawn for a graph with these edges.
fn draw_updates(alloc: Global, size: &Size, graph: &Graph, edges: &Edges) -> io::Result<Updates> {
    let added = insertions(alloc, graph, size.plans)?;
    let removed = removals(alloc, edges, size.plans)?;
    Ok(Updates { added, removed })
}

/// Decomposes the graph round by round, and checks what came of it.
fn measure_checks<R: AllocGlobal + Clock + Print>(
    rt: &R,
    size: &Size,
    graph: &Graph,
) -> io::Result<()> {
    for _ in 0..size.rounds {
        measure_check(rt, size, graph)?;
    }
    Ok(())
}

/// Plans the updates round by round. Gives how many of the loose plans are no plain ones.
fn measure_rounds<R: Wait + AllocGlobal + Clock + Print>(
    rt: &R,
    size: &Size,
    graph: &Graph,
    updates: &Updates,
    state: &Lawful,
) -> io::Result<u64> {
    let mut differing = 0u64;
    for _ in 0..size.rounds {
        measure_plans(rt, size, updates, state)?;
        let found = measure_at_rest(rt, size, graph, updates)?;
        differing = differing.saturating_add(found);
    }
    Ok(differing)
}

/// Draws updates of the graph, and plans them. Gives how many of the loose plans are no plain ones.
fn measure_updates<R: Wait + AllocGlobal + Clock + Print>(
    rt: &R,
    size: &Size,
    graph: &Graph,
    edges: &Edges,
) -> io::Result<u64> {
    let updates = draw_updates(rt.alloc(), size, graph, edges)?;
    let state = decompose(rt.alloc(), graph)?;
    measure_rounds(rt, size, graph, &updates, &state)
}

/// Measures all that there is of a graph. Gives how many of the loose plans are no plain ones.
fn measure_graph<R: Wait + AllocGlobal + Clock + Print>(
    rt: &R,
    size: &Size,
    graph: &Graph,
    edges: &Edges,
) -> io::Result<u64> {
    println!(rt;
        "graph vertices {} edges {}",
        graph.vertices(),
        graph.edges()
    )?;
    measure_checks(rt, size, graph)?;
    measure_updates(rt, size, graph, edges)
}

/// Compares plans for all small graphs. Gives how many of the loose plans are no plain ones.
fn report_small<R: Wait + AllocGlobal + Clock + Print>(rt: &R) -> io::Result<u64> {
    let small = compare_small(rt)?;
    println!(rt;
        "small graphs: {}, updates planned loosely: {}",
        small.graphs, small.plans
    )?;
    Ok(small.differing)
}

/// Measures all that there is of the graph with these edges. Gives how many of the loose plans are no plain ones.
fn measure_edges<R: Wait + AllocGlobal + Clock + Print>(
    rt: &R,
    size: &Size,
    edges: &Edges,
) -> io::Result<u64> {
    let graph = Graph::from_pairs(rt.alloc(), edges.vertices, &edges.pairs)?;
    measure_graph(rt, size, &graph, edges)
}

/// Measures the graph with these edges and all small graphs. It is an error where a loose plan is no plain one.
fn measure<R: Wait + AllocGlobal + Clock + Print>(
    rt: &R,
    size: &Size,
    edges: &Edges,
) -> io::Result<()> {
    let large = measure_edges(rt, size, edges)?;
    let differing = large.saturating_add(report_small(rt)?);
    println!(rt; "loose plans that are no plain ones: {differing}")?;
    if differing > 0 {
        return Err(io::ErrorKind::Other.into());
    }
    Ok(())
}

fn main(rt: HostRuntime) -> io::Result<()> {
    let size = if is_timed(&rt)? { LARGE } else { SMALL };
    match read_edges(rt.alloc(), &mut rt.stdin())? {
        Some(edges) => measure(&rt, &size, &edges),
        None => println!(rt; "not the text of a graph"),
    }
}
