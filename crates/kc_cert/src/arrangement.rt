//! Core numbers and order after moves, asked a vertex at a time.
ghost use Rattle.std.specs.Prelude.{◌≡◌, ◌≢◌, ◌<◌, ℕ, IfOk, slice_index, false};
ghost use Rattle.kc_lists.specs.Lists.{member, Distinct};
ghost use Rattle.kc_graph.specs.Lawful.{Ranked, IsCertified};
ghost use Rattle.kc_graph.specs.Plans.{moved_by};
ghost use Rattle.kc_cert.specs.Local.{firsts, AreInTurn, MovesFit};
ghost use Rattle.kc_cert.specs.Stands.{leaving, next_level, shifts_of, is_low, stands_after};
ghost use Rattle.kc_cert.specs.Arrangements.{AreArranged};

use crate::NoMemory;
use crate::chains::Chains;
use crate::places::Places;
use crate::state::State;
use kc_graph::Moves;
use std::alloc::Global;

/// The level to which vertices go that leave theirs.
fn next_level(moves: &Moves) -> u64
    ensures { result ≡ next_level moves.now }
{
    match moves {
        Moves::Kept | Moves::Plain => 0,
        Moves::Rise { level, .. } => u64::from(*level) + 1,
        Moves::Fall { level, .. } => u64::from(*level).saturating_sub(1),
    }
}

/// Moves, with maps by which core numbers and order after them are asked.
#[derive(Drop)]
pub(crate) struct Arrangement<'a> {
    moves: &'a Moves,
    leaving: Places,
    chains: Chains,
    ghost shown: { AreArranged moves.now leaving chains },
}

impl<'a> Arrangement<'a> {
    /// The arrangement that moves make.
    pub(crate) fn of_moves(alloc: Global, moves: &'a Moves) -> Result<Arrangement<'a>, NoMemory>
        requires in_turn { AreInTurn (shifts_of moves.now) }
        requires once { Distinct (firsts (shifts_of moves.now)) }
        ensures { IfOk result (λ arrangement. arrangement.moves.now ≡ moves.now) }
    {
        let (front, shifts): (&[u32], &[(u32, u32)]) = match moves {
            Moves::Kept | Moves::Plain => (&[], &[]),
            Moves::Rise { rise, shifts, .. } => (rise, shifts),
            Moves::Fall { fall, .. } => (fall, &[]),
        };
        let leaving = Places::in_list(alloc, front)?;
        let chains = Chains::of_shifts(alloc, shifts)?;
        Ok(Arrangement {
            moves,
            leaving,
            chains,
        })
    }

    /// The core number of a vertex after the moves.
    pub(crate) fn core<S: State>(&self, state: &S, y: u32) -> u64
        requires certified { IsCertified (S.state state.now) }
        requires vertex { y < (S.state state.now).graph.size }
        ensures { result ≡ slice_index (moved_by self.now.moves.now (S.state state.now)).core y }
    {
        if self.leaving.get(y).is_some() {
            next_level(self.moves)
        } else {
            u64::from(state.core(y))
        }
    }

    /// Whether the level of a vertex stands before those that leave theirs.
    fn is_low<S: State>(&self, state: &S, y: u32) -> bool
        requires { y < (S.state state.now).graph.size }
        ensures { result ≡ is_low self.now.moves.now (S.state state.now).core y }
    {
        match self.moves {
            Moves::Kept | Moves::Plain => false,
            Moves::Rise { level, .. } => state.core(y) <= *level,
            Moves::Fall { level, .. } => state.core(y) < *level,
        }
    }

    /// Whether `y` stands after `z` once the moves are made.
    pub(crate) fn stands_after<S: State>(&self, state: &S, z: u32, y: u32) -> bool
        requires certified { IsCertified (S.state state.now) }
        requires fit { MovesFit (S.state state.now) self.now.moves.now }
        requires differ { z ≢ y }
        requires first { z < (S.state state.now).graph.size }
        requires second { y < (S.state state.now).graph.size }
        ensures { result ≡ stands_after self.now.moves.now (S.state state.now) z y }
    {
        match (self.leaving.get(z), self.leaving.get(y)) {
            (Some(first), Some(second)) => first < second,
            (Some(_), None) => !self.is_low(state, y),
            (None, Some(_)) => self.is_low(state, z),
            (None, None) => self.stays_after(state, z, y),
        }
    }

    /// The same of two that do not leave their level.
    fn stays_after<S: State>(&self, state: &S, z: u32, y: u32) -> bool
        requires certified { IsCertified (S.state state.now) }
        requires fit { MovesFit (S.state state.now) self.now.moves.now }
        requires differ { z ≢ y }
        requires first { z < (S.state state.now).graph.size }
        requires second { y < (S.state state.now).graph.size }
        requires first_stays { member z (leaving self.now.moves.now) ≡ false }
        requires second_stays { member y (leaving self.now.moves.now) ≡ false }
        ensures { result ≡ stands_after self.now.moves.now (S.state state.now) z y }
    {
        let (first_low, second_low) = (self.is_low(state, z), self.is_low(state, y));
        if first_low != second_low {
            return first_low;
        }
        self.chains.stands_after(state, z, y)
    }
}
