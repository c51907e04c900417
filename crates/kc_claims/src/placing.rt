//! Finds the vertices of ids, each of which is to stand for one of them alone.
ghost use Rattle.std.specs.Prelude.{◌≡◌, ◌≢◌, ◌≤◌, ◌<◌, ◌^◌, ◌↔◌, ℕ, IfOk, IsErrOf, IsTrue, OnOk, false, length, slice_index_or};
ghost use Rattle.std.specs.List.Sorted.{IsStrictlyIncreasing};
ghost use Rattle.kc_graph.specs.Peeling.{at};
ghost use Rattle.kc_claims.specs.Places.{ArePlaces};
ghost use Rattle.kc_claims.specs.Placing.{AreOwnPlaces, AreVertices, HasPlaced, IsSecond};
ghost use Rattle.kc_claims.specs.Taking.{is_marked};
ghost use Rattle.kc_claims.specs.declared.placing.Unplaced.{Unplaced};

use crate::places::Places;
use crate::taking::first_unmarked;
use kc_graph::NoMemory;
use std::alloc::Global;

/// Why ids have no vertices of their own.
#[derive(Clone, Copy)]
pub(crate) enum Unplaced {
    /// The id at this place is one of those before it.
    Second(usize),
    /// An id has no vertex, or a vertex no id.
    Unnamed,
    /// There is no memory for the marks.
    NoMemory,
}

impl From<NoMemory> for Unplaced {
    ghost use Rattle.std.specs.Prelude.{◌≡◌};
    ghost use Rattle.kc_claims.specs.declared.placing.Unplaced.{Unplaced};

    ghost from_gives = { λ _ fault. fault ≡ Unplaced.NoMemory };

    fn from(_: NoMemory) -> Unplaced {
        Unplaced::NoMemory
    }
}

/// Puts vertices in the place of ids, and marks them, up to one that is marked.
fn place_all(
    ids: &[u32],
    places: &Places,
    column: &mut [u32],
    named: &mut [bool],
) -> Result<(), Unplaced>
    requires ascending { IsStrictlyIncreasing ids.now }
    requires few { length ids.now < 2 ^ 32 }
    requires placed { ArePlaces ids.now places.now }
    requires marks { length named.old ≡ length ids.now }
    requires none { (v : ℕ) → is_marked named.old v ≡ false }
    ensures placed { OnOk result (HasPlaced ids.now column.old (length column.old) column.new named.new) }
    ensures second { (place : ℕ) → IsErrOf result (Unplaced.Second place) → IsSecond column.old place × (at column.new place ≡ at column.old place) }
    ensures one_each { length column.new ≡ length column.old }
{
    for place in 0..column.len() {
        let Some(v) = places.place(ids, column[place]) else {
            return Err(Unplaced::Unnamed);
        };
        if named[v as usize] {
            return Err(Unplaced::Second(place));
        }
        named[v as usize] = true;
        column[place] = v;
    }
    Ok(())
}

/// Puts vertices in the place of ids, where each vertex stands for just one of them.
pub(crate) fn place_each(alloc: Global, ids: &[u32], column: &mut [u32]) -> Result<(), Unplaced>
    requires ascending { IsStrictlyIncreasing ids.now }
    requires few { length ids.now < 2 ^ 32 }
    ensures placed { OnOk result (AreVertices ids.now column.old column.new) }
    ensures second { (place : ℕ) → IsErrOf result (Unplaced.Second place) → IsSecond column.old place × (at column.new place ≡ at column.old place) }
    ensures one_each { length column.new ≡ length column.old }
{
    let places = Places::new(alloc, ids)?;
    let mut named = vec![in alloc; false; ids.len()]?;
    place_all(ids, &places, column, &mut named)?;
    match first_unmarked(ids, &named) {
        Some(_) => Err(Unplaced::Unnamed),
        None => Ok(()),
    }
}

/// A column by vertices, where it stood in this order of theirs.
pub(crate) fn by_vertices<T: Copy>(
    alloc: Global,
    order: &[u32],
    column: Vec<T>,
) -> Result<Vec<T>, NoMemory>
    requires one_each { length column.items ≡ length order.now }
    requires vertices { (i : ℕ) → i < length order.now → at order.now i < length order.now }
    requires apart { (i j : ℕ) → i < j → j < length order.now → at order.now i ≢ at order.now j }
    ensures one_each { IfOk result (λ moved. length moved.items ≡ length order.now) }
    ensures moved { IfOk result (λ moved. (i : ℕ) (d : T) → i < length order.now
        → slice_index_or moved.items (at order.now i) d ≡ slice_index_or column.items i d) }
{
    let mut moved = Vec::from_slice(alloc, &column)?;
    for (place, v) in order.iter().enumerate() {
        moved[*v as usize] = column[place];
    }
    Ok(moved)
}

/// Whether each entry of a column is its own place.
pub(crate) fn are_own_places(column: &[u32]) -> bool
    ensures { IsTrue result ↔ AreOwnPlaces column.now }
{
    for (place, entry) in column.iter().enumerate() {
        if *entry as usize != place {
            return false;
        }
    }
    true
}

/// The place of each vertex in this order of all.
pub(crate) fn places_of(alloc: Global, order: &[u32]) -> Result<Vec<u32>, NoMemory>
    requires few { length order.now ≤ 2 ^ 32 }
    requires vertices { (i : ℕ) → i < length order.now → at order.now i < length order.now }
    requires apart { (i j : ℕ) → i < j → j < length order.now → at order.now i ≢ at order.now j }
    ensures one_each { IfOk result (λ places. length places.items ≡ length order.now) }
    ensures placed { IfOk result (λ places. (i : ℕ) → i < length order.now → at places.items (at order.now i) ≡ i) }
{
    let mut places = vec![in alloc; 0u32; order.len()]?;
    for (place, v) in order.iter().enumerate() {
        places[*v as usize] = place as u32;
    }
    Ok(places)
}
