//! Whether moves fit a state: each vertex moves once, in its level.
ghost use Rattle.std.specs.Prelude.{◌≡◌, ◌↔◌, ◌≤◌, ◌<◌, ◌+◌, ◌++◌, ℕ, ⊤, IfOk, IsTrue, MatchOption, true, false, length};
ghost use Rattle.kc_lists.specs.Lists.{member, Distinct};
ghost use Rattle.kc_graph.specs.Lawful.{Ranked};
ghost use Rattle.kc_cert.specs.Local.{firsts, seconds, AreInTurn, IsOfLevel, MovesFit, moved_vertices};
ghost use Rattle.kc_cert.specs.Arrangements.{ArePlacesIn};

use crate::NoMemory;
use crate::places::Places;
use crate::state::State;
use kc_graph::Moves;
use std::alloc::Global;

/// The vertices that rise and then those that shifts move.
fn risen_and_shifted(
    alloc: Global,
    rise: &[u32],
    shifts: &[(u32, u32)],
) -> Result<Vec<u32>, NoMemory>
    ensures { IfOk result (λ moved. moved.items ≡ rise.now ++ firsts shifts.now) }
{
    let mut moved = Vec::from_slice(alloc, rise)?;
    for (x, _) in shifts {
        moved.push(*x)?;
    }
    Ok(moved)
}

/// All vertices that moves move.
pub(crate) fn moved_vertices(alloc: Global, moves: &Moves) -> Result<Vec<u32>, NoMemory>
    ensures { IfOk result (λ moved. moved.items ≡ moved_vertices moves.now) }
{
    match moves {
        Moves::Kept | Moves::Plain => Ok(Vec::new(alloc)),
        Moves::Rise { rise, shifts, .. } => risen_and_shifted(alloc, rise, shifts),
        Moves::Fall { fall, .. } => Vec::from_slice(alloc, fall),
    }
}

/// Whether the number is a vertex of this core number.
fn is_of_level<S: State>(state: &S, level: u32, x: u32) -> bool
    ensures { IsTrue result ↔ IsOfLevel (S.state state.now) level x }
{
    x < state.vertices() && state.core(x) == level
}

/// Whether all are vertices of this core number.
fn are_of_level<S: State>(state: &S, level: u32, vertices: &[u32]) -> bool
    ensures { IsTrue result ↔ ((x : ℕ) → member x vertices.now ≡ true → IsOfLevel (S.state state.now) level x) }
{
    for x in vertices {
        if !is_of_level(state, level, *x) {
            return false;
        }
    }
    true
}

/// Whether all are vertices of this core number, and have one below.
fn can_fall<S: State>(state: &S, level: u32, vertices: &[u32]) -> bool
    ensures { IsTrue result ↔ ((x : ℕ) → member x vertices.now ≡ true → IsOfLevel (S.state state.now) level x × (0 < level)) }
{
    if level == 0 {
        return vertices.is_empty();
    }
    are_of_level(state, level, vertices)
}

/// Whether a place among `risen` vertices and then the shifted ones is that of one of the first `turn` shifts, or there is none.
fn stays_from(place: Option<usize>, risen: usize, turn: usize) -> bool
    ensures { IsTrue result ↔ MatchOption place ⊤ (λ p. (risen ≤ p) × (p < risen + turn)) }
{
    match place {
        None => true,
        Some(place) => place >= risen && place - risen < turn,
    }
}

/// Whether shifts put their vertices after others of this core number that don't rise, and that either don't move or moved before.
/// The places are those of the vertices that rise and then of those that the shifts move.
fn are_put_right<S: State>(
    state: &S,
    level: u32,
    rise: &[u32],
    shifts: &[(u32, u32)],
    places: &Places,
) -> bool
    requires places { ArePlacesIn (rise.now ++ firsts shifts.now) places.now }
    requires once { Distinct (rise.now ++ firsts shifts.now) }
    ensures { IsTrue result
        ↔ ((w : ℕ) → member w (seconds shifts.now) ≡ true → IsOfLevel (S.state state.now) level w × (member w rise.now ≡ false)) × AreInTurn shifts.now }
{
    for (turn, (_, w)) in shifts.iter().enumerate() {
        let of_level = is_of_level(state, level, *w);
        let stays = stays_from(places.get(*w), rise.len(), turn);
        if !of_level || !stays {
            return false;
        }
    }
    true
}

/// Whether moves fit a state. `moved` has the vertices that they move.
pub(crate) fn moves_fit<S: State>(
    alloc: Global,
    state: &S,
    moves: &Moves,
    moved: &[u32],
) -> Result<bool, NoMemory>
    requires { moved.now ≡ moved_vertices moves.now }
    ensures { IfOk result (λ yes. IsTrue yes ↔ MovesFit (S.state state.now) moves.now) }
{
    let places = Places::in_list(alloc, moved)?;
    if !places.once() {
        return Ok(false);
    }
    match moves {
        Moves::Kept | Moves::Plain => Ok(true),
        Moves::Rise {
            level,
            rise,
            shifts,
        } => {
            let of_level = are_of_level(state, *level, moved);
            let right = are_put_right(state, *level, rise, shifts, &places);
            Ok(of_level && right)
        }
        Moves::Fall { level, .. } => Ok(can_fall(state, *level, moved)),
    }
}
