//! Puts numbers for the ids: the edges at the start and the updates of the batches join the numbers that stand for them.
ghost use Rattle.std.specs.Prelude.{◌≡◌, ◌≢◌, ◌<◌, ◌^◌, All, true, length, map, nat_eq, IfOk};
ghost use Rattle.std.specs.List.{filter_map};
ghost use Rattle.std.specs.List.Sorted.{IsStrictlyIncreasing};
ghost use Rattle.std.specs.Set.{is_member};
ghost use Rattle.kc_text.specs.Finding.{FindsPlaces};
ghost use Rattle.kc_text.specs.Meaning.{ends, ends_of};
ghost use Rattle.kc_text.specs.Inputs.{AreAmong, AreEdges, AreUpdates, between, numbered, numbered_change, parts_of, start_graph};

use crate::NoMemory;
use crate::change::ChangeLine;
use crate::finder::Finder;
use kc_graph::Update;
use std::alloc::Global;

/// The pair with the lesser number first, and none for a loop.
fn between(u: u32, v: u32) -> Option<(u32, u32)>
    ensures { result ≡ between u v }
{
    if u < v {
        Some((u, v))
    } else if v < u {
        Some((v, u))
    } else {
        None
    }
}

/// The edges between the numbers that stand for their ends, without loops.
pub(crate) fn numbered(
    alloc: Global,
    ids: &[u32],
    finder: &Finder,
    edges: &[(u32, u32)],
) -> Result<Vec<(u32, u32)>, NoMemory>
    requires ascending { IsStrictlyIncreasing ids.now }
    requires few { length ids.now < 2 ^ 32 }
    requires finder { FindsPlaces ids.now finder.now }
    requires among { AreAmong ids.now (ends edges.now) }
    ensures { IfOk result (λ pairs. pairs.items ≡ filter_map (numbered ids.now) edges.now) }
{
    let mut pairs = Vec::with_capacity(alloc, edges.len())?;
    for (a, b) in edges {
        if let Some(pair) = between(finder.place(ids, *a), finder.place(ids, *b)) {
            pairs.push(pair)?;
        }
    }
    Ok(pairs)
}

/// The edges between the numbers that stand for their ends, ascending, each once.
pub(crate) fn start_of(
    alloc: Global,
    ids: &[u32],
    finder: &Finder,
    edges: &[(u32, u32)],
) -> Result<Vec<(u32, u32)>, NoMemory>
    requires ascending { IsStrictlyIncreasing ids.now }
    requires few { length ids.now < 2 ^ 32 }
    requires finder { FindsPlaces ids.now finder.now }
    requires among { AreAmong ids.now (ends edges.now) }
    ensures { IfOk result (λ pairs. AreEdges (start_graph ids.now edges.now) pairs.items) }
{
    let mut pairs = numbered(alloc, ids, finder, edges)?;
    pairs.sort_unstable();
    pairs.dedup();
    Ok(pairs)
}

/// The change between the numbers that stand for its ids.
fn update_of(ids: &[u32], finder: &Finder, change: ChangeLine) -> Update
    requires ascending { IsStrictlyIncreasing ids.now }
    requires few { length ids.now < 2 ^ 32 }
    requires finder { FindsPlaces ids.now finder.now }
    requires a { is_member nat_eq ids.now change.a ≡ true }
    requires b { is_member nat_eq ids.now change.b ≡ true }
    requires apart { change.a ≢ change.b }
    ensures { parts_of result ≡ numbered_change ids.now change }
{
    let a = finder.place(ids, change.a);
    let b = finder.place(ids, change.b);
    let (u, v) = (a.min(b), a.max(b));
    Update {
        add: change.add,
        u,
        v,
    }
}

/// The changes of a batch between the numbers that stand for their ids.
fn updates_of(
    alloc: Global,
    ids: &[u32],
    finder: &Finder,
    batch: &[ChangeLine],
) -> Result<Vec<Update>, NoMemory>
    requires ascending { IsStrictlyIncreasing ids.now }
    requires few { length ids.now < 2 ^ 32 }
    requires finder { FindsPlaces ids.now finder.now }
    requires among { AreAmong ids.now (ends (map ends_of batch.now)) }
    requires apart { All (λ c. c.a ≢ c.b) batch.now }
    ensures { IfOk result (λ updates. AreUpdates ids.now batch.now updates.items) }
{
    let mut updates = Vec::with_capacity(alloc, batch.len())?;
    for change in batch {
        updates.push(update_of(ids, finder, *change))?;
    }
    Ok(updates)
}

/// The batches between the numbers that stand for their ids.
pub(crate) fn batches_of(
    alloc: Global,
    ids: &[u32],
    finder: &Finder,
    batches: &[Vec<ChangeLine>],
) -> Result<Vec<Vec<Update>>, NoMemory>
    requires ascending { IsStrictlyIncreasing ids.now }
    requires few { length ids.now < 2 ^ 32 }
    requires finder { FindsPlaces ids.now finder.now }
    requires among { All (λ batch. AreAmong ids.now (ends (map ends_of batch.items))) batches.now }
    requires apart { All (λ batch. All (λ c. c.a ≢ c.b) batch.items) batches.now }
    ensures { IfOk result (λ updates. map (λ batch. map parts_of batch.items) updates.items
        ≡ map (λ batch. map (numbered_change ids.now) batch.items) batches.now) }
{
    let mut updates = Vec::with_capacity(alloc, batches.len())?;
    for batch in batches {
        updates.push(updates_of(alloc, ids, finder, batch)?)?;
    }
    Ok(updates)
}
