//! Puts and comparisons by way of a shared table, on one thread.
ghost use Rattle.std.specs.Prelude.{◌≡◌, ◌<◌};

use kc_order::{Answer, NoMemory, SharedOrder, Writer, precedes};
use kc_table::{Name, Pass, Words};
use kc_words::LAST_VERSION;
use rand::RngExt;
use rand_core::SeedableRng;
use rand_xoshiro::Xoshiro256PlusPlus;
use std::alloc::Global;
use std::sync::Wait;

/// Puts 1, 2 and so on, each right after 0, through the table's writer, and counts them.
pub(crate) fn put_by_writer(words: &Words, writer: &mut Writer, puts: u32) -> u64
    requires table { writer.old.table ≡ words.now }
    requires free { words.now.shape.fixed ≡ 0 }
    requires items { puts < words.now.shape.items }
    ensures { writer.new.table ≡ writer.old.table }
{
    let mut count: u64 = 0;
    for x in 1..=puts {
        if writer.present(0) && writer.highest() <= LAST_VERSION - 3 {
            writer.put_after(words, x, 0);
            count = count.wrapping_add(1);
        }
    }
    count
}

/// The same through the list that threads share, which takes its lock for each put.
pub(crate) fn put_under_lock<K: Name, R: Wait>(
    rt: &R,
    words: Words,
    writer: Writer,
    mut pass: Pass,
    puts: u32,
) -> u64
    requires table { (words ≡ K.opened.table) × (writer.table ≡ K.opened.table) × (pass.table ≡ K.opened.table) }
    requires free { K.opened.table.shape.fixed ≡ 0 }
    requires items { puts < K.opened.table.shape.items }
{
    let shared = SharedOrder::<K>::new(words, writer);
    let mut count: u64 = 0;
    for x in 1..=puts {
        if shared.put_after(rt, &mut pass, x, 0).is_ok() {
            count = count.wrapping_add(1);
        }
    }
    count
}

/// Random pairs of numbers below a bound.
pub(crate) fn draw_pairs(alloc: Global, bound: u32, count: u32) -> Result<Vec<(u32, u32)>, NoMemory>
    requires { 0 < bound }
{
    let mut draws = Xoshiro256PlusPlus::seed_from_u64(2);
    let mut pairs = Vec::new(alloc);
    for _ in 0..count {
        let x = draws.random_range(0..bound);
        let y = draws.random_range(0..bound);
        pairs.push((x, y))?;
    }
    Ok(pairs)
}

/// Compares each pair, and counts those that stand in their order.
fn compare_each(words: &Words, pass: &mut Pass, pairs: &[(u32, u32)]) -> u64
    requires { pass.old.table ≡ words.now }
    ensures { pass.new.table ≡ pass.old.table }
{
    let items = kc_table::shape(words).items;
    let mut before: u64 = 0;
    for (x, y) in pairs {
        if *x < items && *y < items && matches!(precedes(words, pass, *x, *y), Answer::Before) {
            before = before.wrapping_add(1);
        }
    }
    before
}

/// Compares all pairs as often as this, and counts those that stand in their order.
pub(crate) fn compare_pairs(
    words: &Words,
    pass: &mut Pass,
    pairs: &[(u32, u32)],
    rounds: u32,
) -> u64
    requires { pass.old.table ≡ words.now }
    ensures { pass.new.table ≡ pass.old.table }
{
    let mut before: u64 = 0;
    for _ in 0..rounds {
        before = before.wrapping_add(compare_each(words, pass, pairs));
    }
    before
}
