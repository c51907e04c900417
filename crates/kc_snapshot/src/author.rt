//! The one that adds to a board's history.
ghost use Rattle.std.specs.Prelude.{◌≡◌, ◌+◌, ◌<◌, ◌^◌, ◌++◌, ◌∷◌, [], length, IfOk, MatchResult};
ghost use mathlib.Core.List.{IsPrefix};
ghost use Rattle.kc_snapshot.specs.Histories.{changed, last_list, member, width};

use crate::NoMemory;
use crate::front::{Front, OpenedHistory, begin};
use crate::listing::Place;
use crate::name::BoardName;
use crate::rule::Draft;
use crate::steps::{Blank, Head};
use logbook::Pen;
use std::marker::Model;

/// What adds to the history. Contracts see the whole history. It has its length and its head, and no other bytes.
#[derive(Drop)]
pub struct Author<J: BoardName> {
    head: Head,
    pen: Pen,
    front: Front<J>,
}

impl<J: BoardName> Model for Author<J> {
    ghost use Rattle.std.specs.Prelude.{◌≡◌, List, length};
    ghost use Rattle.kc_snapshot.specs.declared.member.Member.{Member};
    ghost use Rattle.kc_snapshot.specs.Rules.{IsPen, head_of};

    ghost Value = { List Member };

    ghost view = { λ a. a.front };

    ghost invariant = { λ a. (a.head ≡ head_of J.book) × IsPen J.book (length a.front) a.pen.book a.pen.nib };
}

impl<J: BoardName> Author<J> {
    /// Begins the history with a list, changed at these places. `NoMemory`: not where nobody else has this blank.
    pub(crate) fn new(
        blank: Blank,
        core: &Vec<u32>,
        places: &Vec<Place>,
    ) -> Result<Author<J>, NoMemory>
        requires { blank ≡ J.book }
        ensures { IfOk result (λ a. a ≡ member (changed core.now.items places.now.items) ∷ []) }
    {
        let draft = Draft::of(core, places);
        let Some(OpenedHistory { head, pen, front }) = begin::<J>(blank, &draft) else {
            return Err(NoMemory);
        };
        Ok(Author { head, pen, front })
    }

    /// What the history is.
    pub(crate) fn front(&self) -> &Front<J>
        ensures { result.now ≡ self.now }
    {
        &self.front
    }

    /// Adds a list to the history: this one, changed at these places.
    pub(crate) fn add(&mut self, core: &Vec<u32>, places: &Vec<Place>) -> Result<(), NoMemory>
        requires room { length self.old + 1 < 2 ^ 32 }
        requires core { core.now.items ≡ last_list self.old }
        ensures added { MatchResult result
            (λ _. self.new ≡ self.old ++ member (changed core.now.items places.now.items) ∷ [])
            (λ _. self.new ≡ self.old) }
        ensures width { width self.new ≡ width self.old }
    {
        let draft = Draft::of(core, places);
        self.front.measure();
        let Some(next) = self.front.next_pen(&self.head) else {
            return Err(NoMemory);
        };
        if !self.front.extend(&self.head, &mut self.pen, &draft) {
            return Err(NoMemory);
        }
        self.pen = next;
        Ok(())
    }

    /// What another has seen begins the history.
    pub(crate) fn cover(&mut self, other: &Front<J>)
        ensures same { self.new ≡ self.old }
        ensures other { IsPrefix other.now self.new }
    {
        self.front.cover(&self.head, &mut self.pen, other);
    }
}
