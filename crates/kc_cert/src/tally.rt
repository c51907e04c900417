//! What the certificate asks at a vertex, counted after an update and its moves.
ghost use Rattle.std.specs.Prelude.{◌≡◌, ◌≢◌, ◌↔◌, ◌<◌, ◌+◌, ◌^◌, ◌&&◌, ℕ, IsTrue, Option, None, Some, true, count_by, slice_index, nat_le, if◌then◌else◌};
ghost use Rattle.kc_lists.specs.Lists.{below};
ghost use Rattle.kc_graph.specs.SimpleGraph.{adjacent};
ghost use Rattle.kc_graph.specs.Neighbours.{neighbours_of};
ghost use Rattle.kc_graph.specs.Lawful.{Ranked, IsCertified};
ghost use Rattle.kc_graph.specs.Plans.{is_applied, updated, moved_by};
ghost use Rattle.kc_cert.specs.Local.{MovesFit, HoldsAt};
ghost use Rattle.kc_cert.specs.Stands.{stands_after, other_end, keeps, changed_by};

use crate::arrangement::Arrangement;
use crate::state::State;
use kc_graph::Update;

/// How many of some neighbours stand after a vertex, and how many have no lower core number.
#[derive(Clone, Copy)]
struct Tally {
    later: u64,
    high: u64,
}

/// The other end of an update's edge, where the vertex is one.
fn other_end(update: Update, z: u32) -> Option<u32>
    ensures { result ≡ other_end update z }
{
    if z == update.u {
        Some(update.v)
    } else if z == update.v {
        Some(update.u)
    } else {
        None
    }
}

/// A vertex with its core number after moves.
#[derive(Clone, Copy)]
struct Numbered {
    vertex: u32,
    number: u64,
}

/// The tally of a vertex with one neighbour more.
fn with_neighbour<S: State>(
    state: &S,
    arrangement: &Arrangement,
    z: Numbered,
    y: u32,
    tally: Tally,
) -> Tally
    requires certified { IsCertified (S.state state.now) }
    requires fit { MovesFit (S.state state.now) arrangement.now.moves.now }
    requires differ { z.vertex ≢ y }
    requires first { z.vertex < (S.state state.now).graph.size }
    requires second { y < (S.state state.now).graph.size }
    requires later_fits { tally.later + 1 < 2 ^ 64 }
    requires high_fits { tally.high + 1 < 2 ^ 64 }
    ensures later { result.later ≡ tally.later + (if stands_after arrangement.now.moves.now (S.state state.now) z.vertex y then 1 else 0) }
    ensures high { result.high ≡ tally.high + (if nat_le z.number (slice_index (moved_by arrangement.now.moves.now (S.state state.now)).core y) then 1 else 0) }
{
    let mut tally = tally;
    if arrangement.stands_after(state, z.vertex, y) {
        tally.later += 1;
    }
    if z.number <= arrangement.core(state, y) {
        tally.high += 1;
    }
    tally
}

/// Whether a neighbour of `z` stays one.
fn keeps(update: Update, z: u32, y: u32) -> bool
    ensures { result ≡ keeps update z y }
{
    update.add || other_end(update, z) != Some(y)
}

/// The tally of a vertex with one neighbour more, if it stays one.
fn with_kept<S: State>(
    state: &S,
    update: Update,
    arrangement: &Arrangement,
    z: Numbered,
    y: u32,
    tally: Tally,
) -> Tally
    requires certified { IsCertified (S.state state.now) }
    requires fit { MovesFit (S.state state.now) arrangement.now.moves.now }
    requires differ { z.vertex ≢ y }
    requires first { z.vertex < (S.state state.now).graph.size }
    requires second { y < (S.state state.now).graph.size }
    requires later_fits { tally.later + 1 < 2 ^ 64 }
    requires high_fits { tally.high + 1 < 2 ^ 64 }
    ensures later { result.later ≡ tally.later
        + (if keeps update z.vertex y && stands_after arrangement.now.moves.now (S.state state.now) z.vertex y then 1 else 0) }
    ensures high { result.high ≡ tally.high
        + (if keeps update z.vertex y && nat_le z.number (slice_index (moved_by arrangement.now.moves.now (S.state state.now)).core y) then 1 else 0) }
{
    if keeps(update, z.vertex, y) {
        with_neighbour(state, arrangement, z, y, tally)
    } else {
        tally
    }
}

/// The tally of the neighbours that a vertex has before the update and after it.
fn tally_kept<S: State>(state: &S, update: Update, arrangement: &Arrangement, z: Numbered) -> Tally
    requires certified { IsCertified (S.state state.now) }
    requires fit { MovesFit (S.state state.now) arrangement.now.moves.now }
    requires vertex { z.vertex < (S.state state.now).graph.size }
    ensures later { result.later ≡ count_by (λ y. keeps update z.vertex y && stands_after arrangement.now.moves.now (S.state state.now) z.vertex y)
        (neighbours_of (S.state state.now).graph z.vertex) }
    ensures high { result.high ≡ count_by (λ y. keeps update z.vertex y
        && nat_le z.number (slice_index (moved_by arrangement.now.moves.now (S.state state.now)).core y))
        (neighbours_of (S.state state.now).graph z.vertex) }
    ensures few { (result.later < 2 ^ 32) × (result.high < 2 ^ 32) }
{
    let mut tally = Tally { later: 0, high: 0 };
    for i in 0..state.degree(z.vertex) {
        let y = state.neighbour(z.vertex, i);
        tally = with_kept(state, update, arrangement, z, y, tally);
    }
    tally
}

/// The tally of the neighbours that a vertex has after the update.
fn tally_of<S: State>(state: &S, update: Update, arrangement: &Arrangement, z: Numbered) -> Tally
    requires certified { IsCertified (S.state state.now) }
    requires fit { MovesFit (S.state state.now) arrangement.now.moves.now }
    requires ends { update.v < (S.state state.now).graph.size }
    requires applied { is_applied update (S.state state.now).graph ≡ true }
    requires vertex { z.vertex < (S.state state.now).graph.size }
    ensures later { result.later ≡ count_by (λ y. adjacent (updated update (S.state state.now).graph) z.vertex y
        && stands_after arrangement.now.moves.now (S.state state.now) z.vertex y)
        (below (S.state state.now).graph.size) }
    ensures high { result.high ≡ count_by (λ y. adjacent (updated update (S.state state.now).graph) z.vertex y
        && nat_le z.number (slice_index (moved_by arrangement.now.moves.now (S.state state.now)).core y))
        (below (S.state state.now).graph.size) }
{
    let tally = tally_kept(state, update, arrangement, z);
    match other_end(update, z.vertex) {
        Some(y) if update.add => with_neighbour(state, arrangement, z, y, tally),
        _ => tally,
    }
}

/// Whether what the certificate asks holds at a vertex once the update and its moves are made.
pub(crate) fn holds_at<S: State>(
    state: &S,
    update: Update,
    arrangement: &Arrangement,
    z: u32,
) -> bool
    requires certified { IsCertified (S.state state.now) }
    requires fit { MovesFit (S.state state.now) arrangement.now.moves.now }
    requires ends { update.v < (S.state state.now).graph.size }
    requires applied { is_applied update (S.state state.now).graph ≡ true }
    requires vertex { z < (S.state state.now).graph.size }
    ensures { IsTrue result ↔ HoldsAt (changed_by update arrangement.now.moves.now (S.state state.now)) z }
{
    let number = arrangement.core(state, z);
    let numbered = Numbered { vertex: z, number };
    let tally = tally_of(state, update, arrangement, numbered);
    tally.later <= number && number <= tally.high
}
