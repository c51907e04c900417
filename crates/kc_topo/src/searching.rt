//! The search that adding an arc from a to b needs: from b along arcs, through the vertices that stand before a.
ghost use Rattle.std.specs.Prelude.{◌≡◌, ◌≢◌, ◌<◌, ℕ, [], true, false, length, slice_index, IfOk, IfErr, OnOk, MatchBool, MatchOption};
ghost use Rattle.std.specs.Ordering.{nat_cmp};
ghost use mathlib.Core.List.{IsPrefix};
ghost use Rattle.kc_lists.specs.Lists.{Distinct, member, place_of};
ghost use Rattle.kc_table.specs.Legal.{Legal};
ghost use Rattle.kc_order.specs.Runs.{InListOrder};
ghost use Rattle.kc_order.specs.Standing.{StandsBefore, list_after};
ghost use Rattle.kc_topo.specs.Arcs.{IsWalk, Reaches, arcs_after, has_arc};
ghost use Rattle.kc_topo.specs.Dags.{IsDag, IsRefused, IsRunFor, KeepsRows};
ghost use Rattle.kc_topo.specs.Searching.{AreSettled, IsSettled, IsTrail};

use crate::NoMemory;
use crate::fault::DagFault;
use crate::reached::Reached;
use crate::successors::Successors;
use kc_order::Writer;
use std::alloc::Global;
use std::cmp::Ordering;

/// The run that moves for an arc from `a` to `b`, which stands before `a`; or else the walk that leads from `b` to `a`.
pub(crate) fn find_run(
    alloc: Global,
    writer: &Writer,
    successors: &Successors,
    reached: &mut Reached,
    a: u32,
    b: u32,
) -> Result<Vec<u32>, DagFault>
    requires keeps { KeepsRows writer.now successors.now }
    requires none { reached.old ≡ record { vertices = []; parents = []; size = writer.now.table.shape.items } }
    requires before { StandsBefore b a (list_after writer.now.table writer.now.log) }
    requires fresh { has_arc (arcs_after writer.now.table writer.now.log) a b ≡ false }
    ensures size { reached.new.size ≡ reached.old.size }
    ensures run { IfOk result (λ run. IsRunFor writer.now a b run.items × (Reaches (arcs_after writer.now.table writer.now.log) b a → ⊥)) }
    ensures refused { IfErr result (IsRefused writer.now a b) }
{
    match search(writer, successors, reached, a, b)? {
        Some(place) => Err(DagFault::Cycle {
            walk: walk_to(alloc, writer, reached, a, b, place)?,
        }),
        None => Ok(in_list_order(alloc, writer, reached.size(), reached.vertices())?),
    }
}

/// Reaches the vertices that arcs lead to from `b` through vertices that stand before `a`, and the place of one of them from which an
/// arc leads to `a`, or none where there is none.
fn search(
    writer: &Writer,
    successors: &Successors,
    reached: &mut Reached,
    a: u32,
    b: u32,
) -> Result<Option<usize>, NoMemory>
    requires keeps { KeepsRows writer.now successors.now }
    requires none { reached.old ≡ record { vertices = []; parents = []; size = writer.now.table.shape.items } }
    requires before { StandsBefore b a (list_after writer.now.table writer.now.log) }
    ensures size { reached.new.size ≡ reached.old.size }
    ensures trail { IfOk result (λ _. IsTrail (arcs_after writer.now.table writer.now.log) (list_after writer.now.table writer.now.log) a b reached.new) }
    ensures found { IfOk result (λ found. MatchOption found
        (AreSettled (arcs_after writer.now.table writer.now.log) (list_after writer.now.table writer.now.log) a reached.new (length reached.new.vertices))
        (λ place. (place < length reached.new.vertices)
        × (has_arc (arcs_after writer.now.table writer.now.log) (slice_index reached.new.vertices place) a ≡ true))) }
{
    reached.push(b, 0)?;
    let mut place = 0;
    while place < reached.vertices().len() {
        let row = successors.of(reached.vertices()[place]);
        if look(writer, row, reached, a, b, place)? {
            return Ok(Some(place));
        }
        place += 1;
    }
    Ok(None)
}

/// Looks at the vertices that arcs lead to from the one at a place: those that stand before `a` are reached too. Whether one is `a`; then
/// the others are not looked at.
fn look(
    writer: &Writer,
    row: &[u32],
    reached: &mut Reached,
    a: u32,
    b: u32,
    place: usize,
) -> Result<bool, NoMemory>
    requires dag { IsDag writer.now.table writer.now.log }
    requires legal { Legal writer.now.table.shape writer.now.table.opening writer.now.log }
    requires trail { IsTrail (arcs_after writer.now.table writer.now.log) (list_after writer.now.table writer.now.log) a b reached.old }
    requires size { reached.old.size ≡ writer.now.table.shape.items }
    requires place { place < length reached.old.vertices }
    requires row { (w : ℕ) → member w row.now ≡ has_arc (arcs_after writer.now.table writer.now.log) (slice_index reached.old.vertices place) w }
    ensures size { reached.new.size ≡ reached.old.size }
    ensures trail { IsTrail (arcs_after writer.now.table writer.now.log) (list_after writer.now.table writer.now.log) a b reached.new }
    ensures grows { IsPrefix reached.old.vertices reached.new.vertices }
    ensures found { IfOk result (λ found. MatchBool found (member a row.now ≡ true)
        ((w : ℕ) → member w row.now ≡ true → IsSettled (list_after writer.now.table writer.now.log) a reached.new w)) }
{
    for next in row {
        if *next == a {
            return Ok(true);
        }
        consider(writer, reached, a, b, place, *next)?;
    }
    Ok(false)
}

/// Reaches a vertex to which an arc leads from the one at a place, where it was not reached before and stands before `a`.
fn consider(
    writer: &Writer,
    reached: &mut Reached,
    a: u32,
    b: u32,
    place: usize,
    next: u32,
) -> Result<(), NoMemory>
    requires dag { IsDag writer.now.table writer.now.log }
    requires legal { Legal writer.now.table.shape writer.now.table.opening writer.now.log }
    requires trail { IsTrail (arcs_after writer.now.table writer.now.log) (list_after writer.now.table writer.now.log) a b reached.old }
    requires size { reached.old.size ≡ writer.now.table.shape.items }
    requires place { place < length reached.old.vertices }
    requires arc { has_arc (arcs_after writer.now.table writer.now.log) (slice_index reached.old.vertices place) next ≡ true }
    requires other { next ≢ a }
    ensures size { reached.new.size ≡ reached.old.size }
    ensures trail { IsTrail (arcs_after writer.now.table writer.now.log) (list_after writer.now.table writer.now.log) a b reached.new }
    ensures grows { IsPrefix reached.old.vertices reached.new.vertices }
    ensures settled { OnOk result (IsSettled (list_after writer.now.table writer.now.log) a reached.new next) }
{
    if reached.has(next) {
        return Ok(());
    }
    if !writer.precedes(next, a) {
        return Ok(());
    }
    reached.push(next, place)?;
    Ok(())
}

/// The walk by which the vertex at a place was reached, and on to `a`, to which an arc leads from it.
fn walk_to(
    alloc: Global,
    writer: &Writer,
    reached: &Reached,
    a: u32,
    b: u32,
    place: usize,
) -> Result<Vec<u32>, NoMemory>
    requires trail { IsTrail (arcs_after writer.now.table writer.now.log) (list_after writer.now.table writer.now.log) a b reached.now }
    requires place { place < length reached.now.vertices }
    requires arc { has_arc (arcs_after writer.now.table writer.now.log) (slice_index reached.now.vertices place) a ≡ true }
    ensures { IfOk result (λ walk. IsWalk (arcs_after writer.now.table writer.now.log) b a walk.items) }
{
    let mut walk = Vec::new(alloc);
    walk.push(a)?;
    walk.push(reached.vertices()[place])?;
    let mut at = place;
    while at > 0 {
        at = reached.parent(at);
        walk.push(reached.vertices()[at])?;
    }
    walk.reverse();
    Ok(walk)
}

/// Vertices of the list, in its order. All vertices are below `size`.
fn in_list_order(
    alloc: Global,
    writer: &Writer,
    size: u32,
    vertices: &[u32],
) -> Result<Vec<u32>, NoMemory>
    requires dag { IsDag writer.now.table writer.now.log }
    requires legal { Legal writer.now.table.shape writer.now.table.opening writer.now.log }
    requires size { size ≡ writer.now.table.shape.items }
    requires listed { (v : ℕ) → member v vertices.now ≡ true → member v (list_after writer.now.table writer.now.log) ≡ true }
    requires distinct { Distinct vertices.now }
    ensures turn { IfOk result (λ run. InListOrder run.items (list_after writer.now.table writer.now.log)) }
    ensures members { IfOk result (λ run. (v : ℕ) → member v run.items ≡ member v vertices.now) }
{
    let mut run = Vec::from_slice(alloc, vertices)?;
    run.sort_unstable_by(|x, y| by_place(writer, size, *x, *y));
    Ok(run)
}

/// How the places of two numbers compare in the list. Numbers of no vertex come last.
fn by_place(writer: &Writer, size: u32, x: u32, y: u32) -> Ordering
    requires dag { IsDag writer.now.table writer.now.log }
    requires legal { Legal writer.now.table.shape writer.now.table.opening writer.now.log }
    requires size { size ≡ writer.now.table.shape.items }
    ensures { result ≡ nat_cmp (place_of x (list_after writer.now.table writer.now.log)) (place_of y (list_after writer.now.table writer.now.log)) }
{
    if x == y {
        return Ordering::Equal;
    }
    if x >= size && y >= size {
        return Ordering::Equal;
    }
    if x >= size {
        return Ordering::Greater;
    }
    if y >= size {
        return Ordering::Less;
    }
    if writer.precedes(x, y) {
        Ordering::Less
    } else {
        Ordering::Greater
    }
}
