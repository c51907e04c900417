//! Finds the place of an id among the ascending ids: in a table where the greatest id is small, and else among the few ids of a range.
ghost use Rattle.std.specs.Prelude.{◌≡◌, ◌<◌, ◌^◌, All, true, length, nat_eq, IfOk, IfSome};
ghost use Rattle.std.specs.List.Sorted.{IsStrictlyIncreasing};
ghost use Rattle.std.specs.Set.{is_member};
ghost use Rattle.kc_text.specs.Inputs.{place};
ghost use Rattle.kc_text.specs.Finding.{FindsPlaces, IsPlaceTable};

use crate::NoMemory;
use crate::buckets::Buckets;
use std::alloc::Global;

/// How much longer than the list of ids a table may be.
const MOST_SPREAD: usize = 16;

/// What finds the place of an id.
#[derive(Drop)]
pub(crate) enum Finder {
    /// The place of each id stands at the id.
    Table(Vec<u32>),
    /// The ids are far apart, and parted into ranges.
    Ranges(Buckets),
}

/// How long a table of the places is, where it is not too long.
fn table_len(ids: &[u32]) -> Option<usize>
    requires { IsStrictlyIncreasing ids.now }
    ensures { IfSome result (λ len. All (λ id. id < len) ids.now) }
{
    let greatest = *ids.last()? as usize;
    if greatest / MOST_SPREAD <= ids.len() {
        Some(greatest + 1)
    } else {
        None
    }
}

/// The table of the places.
fn table(alloc: Global, ids: &[u32], len: usize) -> Result<Vec<u32>, NoMemory>
    requires ascending { IsStrictlyIncreasing ids.now }
    requires few { length ids.now < 2 ^ 32 }
    requires long { All (λ id. id < len) ids.now }
    ensures { IfOk result (λ table. IsPlaceTable ids.now table.items) }
{
    let mut table = vec![in alloc; 0; len]?;
    for (i, id) in ids.iter().enumerate() {
        table[*id as usize] = i as u32;
    }
    Ok(table)
}

impl Finder {
    pub(crate) fn new(alloc: Global, ids: &[u32]) -> Result<Finder, NoMemory>
        requires ascending { IsStrictlyIncreasing ids.now }
        requires few { length ids.now < 2 ^ 32 }
        ensures { IfOk result (λ finder. FindsPlaces ids.now finder) }
    {
        match table_len(ids) {
            Some(len) => Ok(Finder::Table(table(alloc, ids, len)?)),
            None => Ok(Finder::Ranges(Buckets::new(alloc, ids)?)),
        }
    }

    /// The number that stands for an id.
    pub(crate) fn place(&self, ids: &[u32], id: u32) -> u32
        requires finder { FindsPlaces ids.now self.now }
        requires ascending { IsStrictlyIncreasing ids.now }
        requires there { is_member nat_eq ids.now id ≡ true }
        requires few { length ids.now < 2 ^ 32 }
        ensures { result ≡ place ids.now id }
    {
        match self {
            Finder::Table(table) => table[id as usize],
            Finder::Ranges(buckets) => buckets.place(ids, id),
        }
    }
}
