//! The rule of a history, and what its steps tell.
//!
//! No value of a type of this module is made, but for `Draft`, which has no bytes.
ghost use Rattle.std.specs.Prelude.{◌≡◌, length};
ghost use Rattle.kc_snapshot.specs.Histories.{changed};

use crate::listing::Place;
use crate::member::Member;
use logbook::{Gain, Plain, Play, Rule};
use std::snapshot::Snapshot;

/// The rule: a member is added by who has the pen alone.
pub struct Law;

impl Rule<Member, u64> for Law {
    ghost use Rattle.std.specs.Prelude.{[]};
    ghost use base.Fml.{ftrue};
    ghost use Rattle.kc_snapshot.specs.Rules.{AreHistoryCells};

    ghost holds = { λ cells log. AreHistoryCells cells log };

    ghost first = { [] };

    ghost hinted = { λ n log. Unit {0} };

    ghost shows = { λ log. [] };

    ghost keeps = { λ names log. ftrue };

    ghost moves = { λ ask before after answer. Unit {0} };
}

/// Callers trade nothing.
pub struct Nothing;

impl Gain<Member, u64> for Nothing {
    ghost use base.Fml.{ftrue};

    ghost after = { λ names about answer. ftrue };
}

/// The list that is to be added: another one, changed at these places.
#[derive(Drop)]
pub struct Draft {
    pub core: Snapshot<Vec<u32>>,
    pub places: Snapshot<Vec<Place>>,
}

impl Draft {
    /// This list, changed at these places.
    #[tactic(auto, using(crate::proofs::Lists::length_changed))]
    pub(crate) fn of(core: &Vec<u32>, places: &Vec<Place>) -> Draft
        ensures list { changed result.core.value.items result.places.value.items ≡ changed core.now.items places.now.items }
        ensures wide { length (changed result.core.value.items result.places.value.items) ≡ length core.now.items }
    {
        Draft {
            core: Snapshot::of(core),
            places: Snapshot::of(places),
        }
    }
}

/// What a step asks for: the list that is to be added.
impl Plain<Draft, Member, u64> for AddsList {
    ghost use Rattle.std.specs.Prelude.{None};
    ghost use Rattle.kc_snapshot.specs.Histories.{changed, member};

    ghost ask = { λ draft. member (changed draft.core.value.items draft.places.value.items) };

    ghost state = { λ draft. None };
}

/// A step that makes the next pen.
pub struct Prepares;

/// What a step asks for that adds no list.
impl Plain<u64, Member, u64> for Prepares {
    ghost use Rattle.std.specs.Prelude.{None, []};
    ghost use Rattle.kc_snapshot.specs.Histories.{member};

    ghost ask = { λ members. member [] };

    ghost state = { λ members. None };
}

impl Play<Member, u64> for Prepares {
    ghost use Rattle.kc_snapshot.specs.Rules.{TellsPen};

    ghost then = { TellsPen };
}

/// A step that adds a list.
pub struct AddsList;

impl Play<Member, u64> for AddsList {
    ghost use Rattle.kc_snapshot.specs.Rules.{TellsAdded};

    ghost then = { TellsAdded };
}

/// A step that looks how long the history is, and changes nothing.
pub struct Checks;

impl Play<Member, u64> for Checks {
    ghost use Rattle.kc_snapshot.specs.Rules.{TellsLength};

    ghost then = { TellsLength };
}
