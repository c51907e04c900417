//! The local test of a plan.
ghost use Rattle.std.specs.Prelude.{◌≡◌, ◌↔◌, ◌<◌, ℕ, IfOk, OnOk, IsTrue, true, nat_eq};
ghost use Rattle.std.specs.HashSet.{contains};
ghost use Rattle.kc_lists.specs.Lists.{member};
ghost use Rattle.kc_graph.specs.SimpleGraph.{adjacent};
ghost use Rattle.kc_graph.specs.Neighbours.{neighbours_of};
ghost use Rattle.kc_graph.specs.Lawful.{Ranked, IsCertified};
ghost use Rattle.kc_graph.specs.Plans.{is_applied, state_after};
ghost use Rattle.kc_cert.specs.Local.{MovesFit, HoldsAt, IsLocal, is_kept, moved_vertices};
ghost use Rattle.kc_cert.specs.Stands.{changed_by};
ghost use Rattle.kc_cert.specs.Looks.{HoldWhereSeen, HoldsAround, HoldsLocally};

use crate::NoMemory;
use crate::arrangement::Arrangement;
use crate::fitting::{moved_vertices, moves_fit};
use crate::state::State;
use crate::tally::holds_at;
use kc_graph::{Moves, Plan, Update};
use std::alloc::Global;
use std::collections::HashSet;

/// Whether two vertices are neighbours.
fn are_adjacent<S: State>(state: &S, u: u32, v: u32) -> bool
    requires first { u < (S.state state.now).graph.size }
    requires second { v < (S.state state.now).graph.size }
    ensures { result ≡ adjacent (S.state state.now).graph u v }
{
    for i in 0..state.degree(u) {
        if state.neighbour(u, i) == v {
            return true;
        }
    }
    false
}

/// Whether an update changes the graph.
fn is_applied<S: State>(state: &S, update: Update) -> bool
    requires { update.v < (S.state state.now).graph.size }
    ensures { result ≡ is_applied update (S.state state.now).graph }
{
    are_adjacent(state, update.u, update.v) != update.add
}

/// Whether moves leave all as it is.
fn is_kept(moves: &Moves) -> bool
    ensures { result ≡ is_kept moves.now }
{
    matches!(moves, Moves::Kept)
}

/// Whether what the certificate asks holds at a vertex after the update and its moves. It is counted once, and the vertex is seen then.
fn look<S: State>(
    seen: &mut HashSet<u32>,
    state: &S,
    update: Update,
    arrangement: &Arrangement,
    z: u32,
) -> Result<bool, NoMemory>
    requires certified { IsCertified (S.state state.now) }
    requires fit { MovesFit (S.state state.now) arrangement.now.moves.now }
    requires ends { update.v < (S.state state.now).graph.size }
    requires applied { is_applied update (S.state state.now).graph ≡ true }
    requires vertex { z < (S.state state.now).graph.size }
    requires seen { HoldWhereSeen (contains nat_eq seen.old) (changed_by update arrangement.now.moves.now (S.state state.now)) }
    ensures holds { IfOk result (λ yes. IsTrue yes ↔ HoldsAt (changed_by update arrangement.now.moves.now (S.state state.now)) z) }
    ensures seen { OnOk result (HoldWhereSeen (contains nat_eq seen.new) (changed_by update arrangement.now.moves.now (S.state state.now))) }
{
    if seen.contains(&z) {
        return Ok(true);
    }
    if !holds_at(state, update, arrangement, z) {
        return Ok(false);
    }
    seen.insert(z)?;
    Ok(true)
}

/// Whether it holds at a vertex and at each of its neighbours before the update.
fn look_around<S: State>(
    seen: &mut HashSet<u32>,
    state: &S,
    update: Update,
    arrangement: &Arrangement,
    x: u32,
) -> Result<bool, NoMemory>
    requires certified { IsCertified (S.state state.now) }
    requires fit { MovesFit (S.state state.now) arrangement.now.moves.now }
    requires ends { update.v < (S.state state.now).graph.size }
    requires applied { is_applied update (S.state state.now).graph ≡ true }
    requires vertex { x < (S.state state.now).graph.size }
    requires seen { HoldWhereSeen (contains nat_eq seen.old) (changed_by update arrangement.now.moves.now (S.state state.now)) }
    ensures holds { IfOk result (λ yes. IsTrue yes
        ↔ HoldsAround (S.state state.now).graph (changed_by update arrangement.now.moves.now (S.state state.now)) x) }
    ensures seen { OnOk result (HoldWhereSeen (contains nat_eq seen.new) (changed_by update arrangement.now.moves.now (S.state state.now))) }
{
    if !look(seen, state, update, arrangement, x)? {
        return Ok(false);
    }
    for i in 0..state.degree(x) {
        let y = state.neighbour(x, i);
        if !look(seen, state, update, arrangement, y)? {
            return Ok(false);
        }
    }
    Ok(true)
}

/// Whether it holds at the ends of the edge, at the vertices that move and at their neighbours.
fn holds_locally<S: State>(
    alloc: Global,
    state: &S,
    update: Update,
    arrangement: &Arrangement,
    moved: &[u32],
) -> Result<bool, NoMemory>
    requires certified { IsCertified (S.state state.now) }
    requires fit { MovesFit (S.state state.now) arrangement.now.moves.now }
    requires ends { update.v < (S.state state.now).graph.size }
    requires applied { is_applied update (S.state state.now).graph ≡ true }
    requires vertices { (x : ℕ) → member x moved.now ≡ true → x < (S.state state.now).graph.size }
    ensures { IfOk result (λ yes. IsTrue yes
        ↔ HoldsLocally (S.state state.now).graph (changed_by update arrangement.now.moves.now (S.state state.now)) update moved.now) }
{
    let mut seen = HashSet::new(alloc);
    if !look(&mut seen, state, update, arrangement, update.u)? {
        return Ok(false);
    }
    if !look(&mut seen, state, update, arrangement, update.v)? {
        return Ok(false);
    }
    for x in moved {
        if !look_around(&mut seen, state, update, arrangement, *x)? {
            return Ok(false);
        }
    }
    Ok(true)
}

/// Whether moves fit, and the certificate holds on where an applied update and they change something.
fn changes_locally<S: State>(
    alloc: Global,
    state: &S,
    update: Update,
    moves: &Moves,
) -> Result<bool, NoMemory>
    requires certified { IsCertified (S.state state.now) }
    requires ends { update.v < (S.state state.now).graph.size }
    requires applied { is_applied update (S.state state.now).graph ≡ true }
    ensures { IfOk result (λ yes. IsTrue yes
        ↔ MovesFit (S.state state.now) moves.now
        × HoldsLocally (S.state state.now).graph (changed_by update moves.now (S.state state.now)) update (moved_vertices moves.now)) }
{
    let moved = moved_vertices(alloc, moves)?;
    if !moves_fit(alloc, state, moves, &moved)? {
        return Ok(false);
    }
    let arrangement = Arrangement::of_moves(alloc, moves)?;
    holds_locally(alloc, state, update, &arrangement, &moved)
}

/// Whether a plan passes the local test in a state: its ends are vertices, it changes nothing exactly where its update is not applied,
/// each vertex moves once and in its level, and after it each end, each moved vertex and each neighbour of one has at most as many later
/// neighbours as its core number and at least as many neighbours of no lower core number. A certified state stays certified then.
///
/// Any plan can be asked. The time is in proportion to the neighbours of the vertices that are looked at, and not to the graph, where
/// each shift names the vertex that the one before it has moved, or one that none before it names, as the planners make them. `NoMemory`
/// comes where there is none for a few words for each vertex that moves or is looked at.
pub fn local_check<S: State>(alloc: Global, state: &S, plan: &Plan) -> Result<bool, NoMemory>
    ensures exact { IfOk result (λ yes. IsTrue yes ↔ IsLocal (S.state state.now) plan.now) }
    ensures certified { IfOk result (λ yes. IsTrue yes → IsCertified (state_after plan.now (S.state state.now))) }
{
    let update = plan.update;
    if update.v >= state.vertices() {
        return Ok(false);
    }
    let applied = is_applied(state, update);
    if is_kept(&plan.moves) == applied {
        return Ok(false);
    }
    if !applied {
        return Ok(true);
    }
    let passes = changes_locally(alloc, state, update, &plan.moves)?;
    Ok(passes)
}
