//! How a list opens.
ghost use Rattle.std.specs.Prelude.{◌≡◌, ◌<◌, ◌≤◌, ◌+◌, ◌*◌, ◌/◌, ◌⊎◌, ◌∷◌, [], ◌^◌, ℕ, length, slice_index, map, true, IfOk};
ghost use Rattle.kc_words.specs.ItemWord.{item_of};
ghost use Rattle.kc_words.specs.GroupWord.{group_of};
ghost use Rattle.kc_lists.specs.Lists.{member, Distinct};
ghost use Rattle.kc_list.specs.Sheets.{ChangesOnly};
ghost use Rattle.kc_list.specs.Opening.{IsOpening, opening_item, opening_group, opening_groups};

use crate::NoMemory;
use crate::limits::OPENING_ITEMS;
use kc_links::Links;
use kc_relabel::spread;
use kc_words::{BOTTOM_ROOM, GroupWord, ITEMS, ItemWord, LAST_VERSION, TOP_ROOM};
use std::alloc::Global;

/// The items in their order, as linked places.
pub fn link(alloc: Global, size: u32, order: &[u32]) -> Result<Links, NoMemory>
    requires small { size ≤ ITEMS }
    requires distinct { Distinct order.now }
    requires within { (x : ℕ) → member x order.now ≡ true → x < size }
    ensures { IfOk result (λ a. a ≡ record { size = size; list = order.now }) }
{
    let mut links = Links::new(alloc, size)?;
    for x in order {
        links.push_back(*x);
    }
    Ok(links)
}

/// The words of all items and groups, by word number. Word 0 is not theirs, and 0.
pub fn opening_words(
    alloc: Global,
    items: u32,
    version: u32,
    order: &[u32],
) -> Result<Vec<u64>, NoMemory>
    requires small { items ≤ ITEMS }
    requires version { version ≤ LAST_VERSION }
    requires distinct { Distinct order.now }
    requires within { (x : ℕ) → member x order.now ≡ true → x < items }
    ensures { IfOk result (λ a. IsOpening items version order.now a.items) }
{
    let blank = ItemWord {
        version,
        group: 0,
        bottom: 0,
    };
    let mut words = vec![in alloc; blank.pack(); 2 * items as usize + 2]?;
    fill_words(items, version, order, &mut words);
    Ok(words)
}

/// Makes blank words those of the opening.
fn fill_words(items: u32, version: u32, order: &[u32], words: &mut [u64])
    requires small { items ≤ ITEMS }
    requires version { version ≤ LAST_VERSION }
    requires distinct { Distinct order.now }
    requires within { (x : ℕ) → member x order.now ≡ true → x < items }
    requires size { length words.old ≡ items + items + 2 }
    requires blank { (w : ℕ) → w < length words.old →
        item_of (slice_index words.old w) ≡ record { version = version; group = 0; bottom = 0 } }
    ensures { IsOpening items version order.now words.new }
{
    words[0] = 0;
    place_items(order, version, words);
    place_groups(
        items,
        order.len().div_ceil(OPENING_ITEMS as usize) as u32,
        version,
        words,
    );
}

/// Gives each item of the list its group and its label in the group.
fn place_items(order: &[u32], version: u32, words: &mut [u64])
    requires version { version ≤ LAST_VERSION }
    requires distinct { Distinct order.now }
    requires few { length order.now ≤ ITEMS }
    requires within { (x : ℕ) → member x order.now ≡ true → 1 + x < length words.old }
    ensures placed { (i : ℕ) → i < length order.now → item_of (slice_index words.new (1 + slice_index order.now i)) ≡
        opening_item version (length order.now) i }
    ensures only { ChangesOnly (map (λ x. 1 + x) order.now) words.old words.new }
{
    for i in 0..order.len() {
        let place = i % OPENING_ITEMS as usize;
        let count = (order.len() - (i - place)).min(OPENING_ITEMS as usize);
        let word = ItemWord {
            version,
            group: (1 + i / OPENING_ITEMS as usize) as u32,
            bottom: spread(count as u32, BOTTOM_ROOM, place as u32) as u32,
        };
        words[1 + order[i] as usize] = word.pack();
    }
}

/// Gives each group that has items its label.
fn place_groups(items: u32, count: u32, version: u32, words: &mut [u64])
    requires version { version ≤ LAST_VERSION }
    requires small { items ≤ ITEMS }
    requires count { count ≤ items + 1 }
    requires size { length words.old ≡ items + items + 2 }
    ensures tops { (j : ℕ) → j < count → group_of (slice_index words.new (items + (1 + j))) ≡
        record { version = version; top = (j + 1) * (TOP_ROOM / (count + 1)) } }
    ensures only { (w : ℕ) → (w ≤ items) ⊎ (items + count < w)
        → slice_index words.new w ≡ slice_index words.old w }
{
    for j in 0..count {
        let word = GroupWord {
            version,
            top: spread(count, TOP_ROOM, j),
        };
        words[(items + 1 + j) as usize] = word.pack();
    }
}
