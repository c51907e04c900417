//! Streams whose batches name new ids again and again, so that what is kept has to grow, and has room to spare in between.
ghost use Rattle.std.specs.Prelude.{◌<◌, ◌≤◌};
ghost use Rattle.kc_watch_tests.specs.declared.new_ids.TheConstants.{LONGEST};

use crate::streams::{CHANGES, check_dropped, check_with};
use std::alloc::Global;
use std::test::Fail;

/// How many batches make the path longer.
const BATCHES: u32 = 40;

/// With how many ids the longest path begins.
const LONGEST: u32 = 100;

/// A stream, and what it is answered.
#[derive(Drop)]
struct Example {
    stream: String,
    wanted: String,
}

/// Puts the edges of a path of so many ids.
fn put_path(stream: &mut String, ids: u32) -> Result<(), Fail> {
    for id in 1..ids {
        let next = id + 1;
        writeln!(stream, "{id} {next}")?;
    }
    Ok(())
}

/// A path of so many ids that gets longer by one a batch. Before each batch ends there are questions, which what has no id would change.
fn longer_path(alloc: Global, first: u32) -> Result<Example, Fail>
    requires { (1 < first) × (first ≤ LONGEST) }
{
    let mut stream = String::new(alloc);
    let mut wanted = String::new(alloc);
    put_path(&mut stream, first)?;
    stream.push_str("batch\n")?;
    let edges = first - 1;
    writeln!(wanted, "graph vertices {first} edges {edges} top 1")?;
    for batch in 1..BATCHES {
        let (last, new) = (batch + first - 1, batch + first);
        writeln!(
            stream,
            "? sizes\n? order 1 {last}\n? order {new} 1\n? {new}\n? order 1 2"
        )?;
        writeln!(
            wanted,
            "sizes 1 {last}\norder 1 {last} before\norder {new} 1 -\ncore {new} -\norder 1 2 before"
        )?;
        writeln!(stream, "+ {last} {new}\nbatch")?;
        writeln!(
            wanted,
            "batch {batch} added 1 removed 0 kept 0 edges {last} top 1\n{new} - 1"
        )?;
    }
    let edges = BATCHES + first - 2;
    writeln!(
        wanted,
        "batch {BATCHES} added 0 removed 0 kept 0 edges {edges} top 1"
    )?;
    Ok(Example { stream, wanted })
}

#[test]
fn a_path_gets_longer_in_each_batch(rt: HostRuntime) -> Result<(), Fail> {
    let Example { stream, wanted } = longer_path(rt.alloc(), 2)?;
    check_with(&rt, CHANGES, stream.as_bytes(), wanted.as_bytes());
    Ok(())
}

/// The graph of the start has room to spare for some of the ids that come.
#[test]
fn a_long_path_gets_longer_in_each_batch(rt: HostRuntime) -> Result<(), Fail> {
    let Example { stream, wanted } = longer_path(rt.alloc(), LONGEST)?;
    check_with(&rt, CHANGES, stream.as_bytes(), wanted.as_bytes());
    Ok(())
}

/// Ten ids that are named for the first time in one batch, and lose their edges in the next.
#[test]
fn ids_without_edges_are_no_room_to_spare(rt: HostRuntime) {
    check_with(
        &rt,
        CHANGES,
        b"batch\n+ 1 2\n+ 3 4\n+ 5 6\n+ 7 8\n+ 9 10\nbatch\n- 1 2\n- 11 12\n? core 0\nbatch\n? core 0\n? sizes\n? order 12 11\n? order 1 3\n? order 13 1\n",
        b"graph vertices 0 edges 0 top 0\n\
          batch 1 added 5 removed 0 kept 0 edges 5 top 1\n1 - 1\n2 - 1\n3 - 1\n4 - 1\n5 - 1\n6 - 1\n7 - 1\n8 - 1\n9 - 1\n10 - 1\n\
          members 0 1 2 3 4 5 6 7 8 9 10\n\
          batch 2 added 0 removed 1 kept 1 edges 4 top 1\n1 1 0\n2 1 0\n11 - 0\n12 - 0\n\
          members 0 1 2 3 4 5 6 7 8 9 10 11 12\nsizes 0 4 1 8\norder 12 11 after\norder 1 3 before\norder 13 1 -\n\
          batch 3 added 0 removed 0 kept 0 edges 4 top 1\n",
    );
}

/// What a dropped batch named is forgotten, and the order that was asked for before it stays.
#[test]
fn a_dropped_batch_leaves_the_order(rt: HostRuntime) {
    check_dropped(
        &rt,
        b"5 4\n4 3\n3 2\n2 1\nbatch\n? order 4 3\n+ 5 1\n+ 8 8\nbatch\n? order 4 3\n+ 5 1\nbatch\n? order 4 3\n? order 8 1\n",
        b"graph vertices 5 edges 4 top 1\norder 4 3 before\n\
          refused batch 1 line 8 kind 5 LoopInBatch\norder 4 3 before\n\
          batch 2 added 1 removed 0 kept 0 edges 5 top 2\n1 1 2\n2 1 2\n3 1 2\n4 1 2\n5 1 2\norder 4 3 after\norder 8 1 -\n\
          batch 3 added 0 removed 0 kept 0 edges 5 top 2\n",
        1,
    );
}
