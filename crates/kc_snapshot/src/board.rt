//! What readers find: the list that was published last, and the history that ends with it.
ghost use Rattle.std.specs.Prelude.{◌≡◌, length, IfSome, IfNone};
ghost use mathlib.Core.List.{IsPrefix};
ghost use Rattle.kc_snapshot.specs.Histories.{changed, last_list, width};
ghost use Rattle.kc_snapshot.specs.Changes.{gone_on};

use crate::front::Front;
use crate::listing::{Place, write_all};
use crate::member::Member;
use crate::name::BoardName;
use left_right::Absorb;
use std::alloc::AllocError;
use std::marker::Model;

/// Contracts see the history up to the list that is shown.
#[derive(Drop)]
pub struct Board<J: BoardName> {
    core: Vec<u32>,
    front: Front<J>,
}

impl<J: BoardName> Model for Board<J> {
    ghost use Rattle.std.specs.Prelude.{◌≡◌, List};
    ghost use Rattle.kc_snapshot.specs.declared.member.Member.{Member};
    ghost use Rattle.kc_snapshot.specs.Histories.{changed, last_list};

    ghost Value = { List Member };

    ghost view = { λ b. b.front };

    ghost invariant = { λ b. b.core.items ≡ last_list b.front };
}

/// From one list to the next: the places that differ, and the history before and after. Contracts see these two.
#[derive(Drop)]
pub struct BoardChange<J: BoardName> {
    before: Front<J>,
    after: Front<J>,
    places: Vec<Place>,
}

impl<J: BoardName> Model for BoardChange<J> {
    ghost use Rattle.std.specs.Prelude.{◌≡◌};
    ghost use Rattle.kc_snapshot.specs.Histories.{changed, last_list};
    ghost use Rattle.kc_snapshot.specs.Changes.{Going};

    ghost Value = { Going };

    ghost view = { λ c. record { before = c.before; after = c.after } };

    ghost invariant = { λ c. last_list c.after ≡ changed (last_list c.before) c.places.items };
}

impl<J: BoardName> Board<J> {
    /// A board that shows the last list of a history.
    pub(crate) fn new(core: Vec<u32>, front: Front<J>) -> Board<J>
        requires { core.items ≡ last_list front }
        ensures { result ≡ front }
    {
        Board { core, front }
    }

    /// The list that is shown.
    pub(crate) fn core(&self) -> &Vec<u32>
        ensures list { result.now.items ≡ last_list self.now }
        ensures wide { length result.now.items ≡ width self.now }
    {
        self.front.measure();
        &self.core
    }

    /// The list that is shown, to one that has seen no more and has seen it then. None where it has seen more.
    pub(crate) fn show(&self, seen: &mut Front<J>) -> Option<&Vec<u32>>
        ensures later { IsPrefix seen.old seen.new }
        ensures width { width seen.new ≡ width seen.old }
        ensures list { IfSome result (λ core. core.now.items ≡ last_list seen.new) }
        ensures wide { IfSome result (λ core. length core.now.items ≡ width seen.old) }
        ensures none { IfNone result (seen.new ≡ seen.old) }
    {
        if self.front.is_shorter(seen) {
            return None;
        }
        seen.follow(&self.front);
        seen.measure();
        Some(&self.core)
    }
}

impl<J: BoardName> BoardChange<J> {
    /// The change of these places, from one list to the next.
    pub(crate) fn new(before: Front<J>, after: Front<J>, places: Vec<Place>) -> BoardChange<J>
        requires { last_list after ≡ changed (last_list before) places.items }
        ensures { result ≡ record { before = before; after = after } }
    {
        BoardChange {
            before,
            after,
            places,
        }
    }
}

/// A board that is not where the change begins stays as it is. No such change is made.
impl<J: BoardName> Absorb<BoardChange<J>> for Board<J> {
    type State = [Member; 0];

    ghost state = { λ board. board };

    ghost applied = { gone_on };

    ghost never_fails = { Unit {0} };

    fn absorb_first(
        &mut self,
        operation: &BoardChange<J>,
        _other: &Board<J>,
    ) -> Result<(), AllocError> {
        let BoardChange {
            before,
            after,
            places,
        } = operation;
        if self.front.is_same(before) {
            write_all(&mut self.core, places);
            self.front = after.again();
        }
        Ok(())
    }
}
