//! Puts into the list of one thread.
ghost use Rattle.std.specs.Prelude.{◌≡◌, ◌≢◌, ◌<◌, ◌≤◌};

use kc_list::PlainOrder;
use kc_words::LAST_VERSION;
use rand::RngExt;
use rand_core::SeedableRng;
use rand_xoshiro::Xoshiro256PlusPlus;

/// Puts `x` right after `p`, and says how many words it wrote; 0 where the list refuses it.
fn put(order: &mut PlainOrder, x: u32, p: u32) -> u64
    requires items { (x < order.old.items) × (p < order.old.items) }
    requires differ { x ≢ p }
    ensures { order.new.items ≡ order.old.items }
{
    if !order.present(p) || order.highest() > LAST_VERSION - 3 {
        return 0;
    }
    order.put_after(x, p);
    order.writes().len() as u64
}

/// Puts 1, 2 and so on, each right after 0, and counts the words that are written.
pub(crate) fn put_after_the_first(order: &mut PlainOrder, puts: u32) -> u64
    requires { puts < order.old.items }
    ensures { order.new.items ≡ order.old.items }
{
    let mut written: u64 = 0;
    for x in 1..=puts {
        written = written.wrapping_add(put(order, x, 0));
    }
    written
}

/// Puts 1, 2 and so on, each at the end, and counts the words that are written.
pub(crate) fn put_at_the_end(order: &mut PlainOrder, puts: u32) -> u64
    requires { puts < order.old.items }
    ensures { order.new.items ≡ order.old.items }
{
    let mut written: u64 = 0;
    for x in 1..=puts {
        written = written.wrapping_add(put(order, x, x - 1));
    }
    written
}

/// Moves random items of the list to random places, and counts the words that are written.
pub(crate) fn put_anywhere(order: &mut PlainOrder, items: u32, puts: u32) -> u64
    requires some { 1 < items }
    requires within { items ≤ order.old.items }
    ensures { order.new.items ≡ order.old.items }
{
    let mut draws = Xoshiro256PlusPlus::seed_from_u64(1);
    let mut written: u64 = 0;
    for _ in 0..puts {
        let x = draws.random_range(0..items);
        let p = draws.random_range(0..items);
        if x != p {
            written = written.wrapping_add(put(order, x, p));
        }
    }
    written
}
