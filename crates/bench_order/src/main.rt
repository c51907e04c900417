//! Measures the order list: puts through each of its forms, and comparisons in the shared one.
//!
//! Without a word it makes a small run and writes what was counted, which never varies. With the word `time` it makes a large run and
//! writes beside each count how long one call took. It runs on one thread.
#![tactic(auto)]

ghost use Rattle.std.specs.Prelude.{◌≡◌, ◌<◌, ◌≤◌};
ghost use Rattle.bench_order.specs.declared.TheConstants.{ROOM};

mod plain;
mod shared;

use crate::plain::{put_after_the_first, put_anywhere, put_at_the_end};
use crate::shared::{compare_pairs, draw_pairs, put_by_writer, put_under_lock};
use kc_list::PlainOrder;
use kc_order::Writer;
use kc_table::{Pass, Words};
use kc_words::{ITEMS, Shape};
use std::marker::Brand;
use std::sync::Wait;
use std::time::Instant;
use std::{env, io};

/// The items that a list of one thread has room for.
const ROOM: u32 = 262_144;

/// How much is measured, and whether times are written.
#[derive(Clone, Copy, Drop)]
struct Size {
    timed: bool,
    puts: u32,
    moves: u32,
    pairs: u32,
    rounds: u32,
    ghost few: { puts < ROOM },
}

const SMALL: Size = Size {
    timed: false,
    puts: 1_000,
    moves: 10_000,
    pairs: 10_000,
    rounds: 1,
};

const LARGE: Size = Size {
    timed: true,
    puts: 100_000,
    moves: 1_000_000,
    pairs: 1_000_000,
    rounds: 20,
};

/// A list or a table of so many items, none of which is a vertex.
fn shape(items: u32) -> Shape
    requires low { 1 ≤ items }
    requires high { items ≤ ITEMS }
    ensures { (result.items ≡ items) × (result.fixed ≡ 0) }
{
    Shape {
        items,
        fixed: 0,
        base: 0,
        version: 0,
    }
}

/// Writes what was counted, and where times are wanted how long one of the calls took.
fn report(
    rt: &HostRuntime,
    size: &Size,
    what: &str,
    counted: u64,
    calls: u32,
    start: Instant,
) -> io::Result<()> {
    let took = start.elapsed(rt)?;
    if size.timed {
        let nanoseconds = took.as_secs_f64() * 1e9 / f64::from(calls);
        println!(rt; "{what}: {counted}, {nanoseconds:.1} ns a call")
    } else {
        println!(rt; "{what}: {counted}")
    }
}

/// Puts right after the first item, in a list with room for so many.
fn measure_first(rt: &HostRuntime, size: &Size, items: u32) -> io::Result<()>
    requires enough { size.now.puts < items }
    requires few { items ≤ ITEMS }
{
    let mut order = PlainOrder::open(rt.alloc(), shape(items), &[0])?;
    let start = Instant::now(rt)?;
    let written = put_after_the_first(&mut order, size.puts);
    report(
        rt,
        size,
        "words written by puts after the first item",
        written,
        size.puts,
        start,
    )
}

/// Puts at the end.
fn measure_end(rt: &HostRuntime, size: &Size) -> io::Result<()> {
    let mut order = PlainOrder::open(rt.alloc(), shape(ROOM), &[0])?;
    let start = Instant::now(rt)?;
    let written = put_at_the_end(&mut order, size.puts);
    report(
        rt,
        size,
        "words written by puts at the end",
        written,
        size.puts,
        start,
    )
}

/// Moves of random items to random places, in a list that has all of them.
fn measure_moves(rt: &HostRuntime, size: &Size) -> io::Result<()> {
    let mut order = PlainOrder::open(rt.alloc(), shape(ROOM), &[0])?;
    put_at_the_end(&mut order, ROOM - 1);
    let start = Instant::now(rt)?;
    let written = put_anywhere(&mut order, ROOM, size.moves);
    report(
        rt,
        size,
        "words written by moves to random places",
        written,
        size.moves,
        start,
    )
}

/// Puts right after the first item, through a table's writer.
fn measure_writer(rt: &HostRuntime, size: &Size) -> io::Result<()> {
    let (words, mut writer, _) = Writer::open(rt.alloc(), shape(size.puts + 1), &[0], &[])?;
    let start = Instant::now(rt)?;
    let count = put_by_writer(&words, &mut writer, size.puts);
    report(
        rt,
        size,
        "puts after the first item, through Writer",
        count,
        size.puts,
        start,
    )
}

/// The same through the list that threads share.
fn measure_shared(rt: &HostRuntime, lock: &impl Wait, size: &Size) -> io::Result<()> {
    let (words, writer, pass) = Writer::open(rt.alloc(), shape(size.puts + 1), &[0], &[])?;
    let start = Instant::now(rt)?;
    let count = put_under_lock::<Brand, _>(lock, words, writer, pass, size.puts);
    report(
        rt,
        size,
        "puts after the first item, through SharedOrder",
        count,
        size.puts,
        start,
    )
}

/// Comparisons of random pairs below a bound, which are drawn before.
fn measure_pairs(
    rt: &HostRuntime,
    size: &Size,
    words: &Words,
    pass: &mut Pass,
    bound: u32,
) -> io::Result<()>
    requires table { pass.old.table ≡ words.now }
    requires some { 0 < bound }
    ensures { pass.new.table ≡ pass.old.table }
{
    let pairs = draw_pairs(rt.alloc(), bound, size.pairs)?;
    println!(rt; "pairs of {bound} items: {}", size.pairs)?;
    let start = Instant::now(rt)?;
    let before = compare_pairs(words, pass, &pairs, size.rounds);
    let calls = size.pairs.saturating_mul(size.rounds);
    report(
        rt,
        size,
        "  comparisons that find their order",
        before,
        calls,
        start,
    )
}

/// Comparisons of pairs of few items, of more and of all.
fn measure_all_pairs(
    rt: &HostRuntime,
    size: &Size,
    words: &Words,
    pass: &mut Pass,
) -> io::Result<()>
    requires table { pass.old.table ≡ words.now }
    requires items { 0 < words.now.shape.items }
{
    let items = kc_table::shape(words).items;
    measure_pairs(rt, size, words, pass, items.min(64))?;
    measure_pairs(rt, size, words, pass, items.min(1_000))?;
    measure_pairs(rt, size, words, pass, items.min(10_000))?;
    measure_pairs(rt, size, words, pass, items)
}

/// Comparisons in a list that was made by puts after the first item.
fn measure_comparisons(rt: &HostRuntime, size: &Size) -> io::Result<()> {
    let (words, mut writer, mut pass) = Writer::open(rt.alloc(), shape(size.puts + 1), &[0], &[])?;
    put_by_writer(&words, &mut writer, size.puts);
    writer.tell(&words, &mut pass);
    measure_all_pairs(rt, size, &words, &mut pass)
}

/// Whether the first word is `time`.
fn is_timed(rt: &HostRuntime) -> io::Result<bool> {
    Ok(
        env::args(rt)?
            .nth(1)
            .is_some_and(|word| word.as_str() == "time"),
    )
}

fn main(rt: HostRuntime) -> io::Result<()> {
    let size = if is_timed(&rt)? { LARGE } else { SMALL };
    measure_first(&rt, &size, ROOM)?;
    measure_end(&rt, &size)?;
    measure_moves(&rt, &size)?;
    measure_first(&rt, &size, size.puts + 1)?;
    measure_writer(&rt, &size)?;
    measure_shared(&rt, &rt, &size)?;
    measure_comparisons(&rt, &size)
}
