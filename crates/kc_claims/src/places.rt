//! Finds the place of an id among ascending ids, mostly without a search.
ghost use Rattle.std.specs.Prelude.{◌≡◌, ◌<◌, ◌^◌, IfOk, IfSome, false, is_none, length, true};
ghost use Rattle.std.specs.List.Sorted.{IsStrictlyIncreasing};
ghost use Rattle.kc_lists.specs.Lists.{member};
ghost use Rattle.kc_graph.specs.Peeling.{at};
ghost use Rattle.kc_claims.specs.Places.{ArePlaces, IsRow};

use crate::id_bits::IdBits;
use crate::taking::vertex_of;
use kc_graph::NoMemory;
use std::alloc::Global;

/// How many ids stand in a range, if they are spread evenly.
const IDS_A_RANGE: usize = 8;

/// How many ids are looked at before they are searched.
const MOST_STEPS: usize = 32;

/// Where an id stands among ids, or may stand: where it doesn't stand in its range it is searched.
#[derive(Drop)]
pub(crate) enum Places {
    /// The ids are numbers in a row, from this one on.
    Row(u32),
    /// The ids are many of the numbers up to the greatest of them, each of which has a bit.
    Bits(IdBits),
    /// The first place of each range of ids: those that are the same but for so many of their last bits.
    Ranges(u32, Vec<u32>),
}

/// How many of their last bits ids may differ in, so that their ranges are few beside them.
fn range_bits(greatest: u32, ids: usize) -> u32 {
    let mut ranges = greatest;
    for bits in 0..32 {
        if ranges as usize <= ids / IDS_A_RANGE {
            return bits;
        }
        ranges /= 2;
    }
    32
}

/// The range of an id, by how many of their last bits ids of a range differ in.
fn range_of(id: u32, bits: u32) -> usize {
    if bits < 32 { (id >> bits) as usize } else { 0 }
}

/// The first place of each range.
fn first_places(alloc: Global, ids: &[u32], bits: u32, ranges: usize) -> Result<Vec<u32>, NoMemory>
    requires { length ids.now < 2 ^ 32 }
{
    let mut firsts = vec![in alloc; 0u32; ranges]?;
    let mut last = ranges;
    for (v, id) in ids.iter().enumerate() {
        let range = range_of(*id, bits);
        if range != last && range < firsts.len() {
            firsts[range] = v as u32;
        }
        last = range;
    }
    Ok(firsts)
}

/// The place of an id, where it is one of the next few from a place on.
fn near(ids: &[u32], from: usize, id: u32) -> Option<usize>
    ensures { IfSome result (λ v. (v < length ids.now) × (at ids.now v ≡ id)) }
{
    let to = ids.len().min(from.saturating_add(MOST_STEPS));
    for v in from..to {
        if ids[v] == id {
            return Some(v);
        }
        if ids[v] > id {
            return None;
        }
    }
    None
}

/// The first of ids that are numbers in a row.
fn row_of(ids: &[u32]) -> Option<u32>
    requires { IsStrictlyIncreasing ids.now }
    ensures { IfSome result (λ first. IsRow ids.now first) }
{
    if ids.is_empty() {
        return None;
    }
    let first = ids[0];
    let greatest = ids[ids.len() - 1];
    if greatest.saturating_sub(first) as usize + 1 != ids.len() {
        return None;
    }
    Some(first)
}

/// The place of an id among numbers in a row, if it is one of these.
fn place_in_row(ids: &[u32], first: u32, id: u32) -> Option<u32>
    requires { IsRow ids.now first }
    ensures found { IfSome result (λ v. (v < length ids.now) × (at ids.now v ≡ id)) }
    ensures none { is_none result ≡ true → member id ids.now ≡ false }
{
    if id < first {
        return None;
    }
    let v = id - first;
    if v as usize >= ids.len() {
        return None;
    }
    Some(v)
}

/// The place of an id, if it is one of these. It is looked for from a place on, and then searched.
fn place_from(ids: &[u32], from: usize, id: u32) -> Option<u32>
    requires ascending { IsStrictlyIncreasing ids.now }
    requires few { length ids.now < 2 ^ 32 }
    ensures found { IfSome result (λ v. (v < length ids.now) × (at ids.now v ≡ id)) }
    ensures none { is_none result ≡ true → member id ids.now ≡ false }
{
    if let Some(v) = near(ids, from, id) {
        return Some(v as u32);
    }
    match vertex_of(ids, id) {
        Some(v) => Some(v as u32),
        None => None,
    }
}

/// The first place of a range.
fn start_of(firsts: &[u32], range: usize) -> usize {
    if range < firsts.len() {
        firsts[range] as usize
    } else {
        0
    }
}

impl Places {
    /// The places of these ids.
    pub(crate) fn new(alloc: Global, ids: &[u32]) -> Result<Places, NoMemory>
        requires ascending { IsStrictlyIncreasing ids.now }
        requires few { length ids.now < 2 ^ 32 }
        ensures { IfOk result (ArePlaces ids.now) }
    {
        if let Some(first) = row_of(ids) {
            return Ok(Places::Row(first));
        }
        let greatest = match ids.last() {
            Some(greatest) => *greatest,
            None => 0,
        };
        if let Some(bits) = IdBits::new(alloc, ids, greatest)? {
            return Ok(Places::Bits(bits));
        }
        let bits = range_bits(greatest, ids.len());
        let firsts = first_places(alloc, ids, bits, range_of(greatest, bits).saturating_add(1))?;
        Ok(Places::Ranges(bits, firsts))
    }

    /// The place of an id, if it is one of these.
    pub(crate) fn place(&self, ids: &[u32], id: u32) -> Option<u32>
        requires ascending { IsStrictlyIncreasing ids.now }
        requires few { length ids.now < 2 ^ 32 }
        requires placed { ArePlaces ids.now self.now }
        ensures found { IfSome result (λ v. (v < length ids.now) × (at ids.now v ≡ id)) }
        ensures none { is_none result ≡ true → member id ids.now ≡ false }
    {
        match self {
            Places::Row(first) => place_in_row(ids, *first, id),
            Places::Bits(bits) => bits.place(id),
            Places::Ranges(bits, firsts) => {
                place_from(ids, start_of(firsts, range_of(id, *bits)), id)
            }
        }
    }
}
