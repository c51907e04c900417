//! The steps at a book: to open it, to make the next pen, to add a list, and to look how many it has.
ghost use Rattle.std.specs.Prelude.{◌≡◌, ◌+◌, ◌*◌, ◌<◌, ◌≤◌, ◌^◌, ◌++◌, ◌∷◌, [], length, IfSome, MatchBool};
ghost use mathlib.Core.List.{IsPrefix};
ghost use Rattle.kc_snapshot.specs.Histories.{changed, member};
ghost use Rattle.kc_snapshot.specs.Rules.{IsPen, head_of};

use crate::member::Member;
use crate::rule::{AddsList, Checks, Draft, Law, Nothing, Prepares};
use logbook::{Offer, Pen, Seen, Start, Word};
use std::marker::Model;

/// The number of lists, and of pens that there are. It changes in single steps.
pub(crate) type Head = Word<Member, u64, Law>;

/// A beginning of the history. It has no bytes.
pub(crate) type Known = Seen<Member, u64, Law>;

type Ask = Offer<Member, u64, Law, Nothing>;

/// A board that is not open yet. Contracts see its name.
#[derive(Drop)]
pub struct Blank {
    pub(crate) head: Head,
    pub(crate) seen: Known,
}

impl Model for Blank {
    ghost use Rattle.std.specs.Prelude.{◌≡◌, length};
    ghost use Rattle.logbook.specs.Pages.{Book};
    ghost use Rattle.kc_snapshot.specs.Rules.{head_of};

    ghost Value = { Book };

    ghost view = { λ b. b.seen.book };

    ghost invariant = { λ b. (length b.seen.log ≡ 0) × (b.head ≡ head_of b.seen.book) };
}

impl Blank {
    /// A new name.
    pub fn new() -> Blank {
        let (seen, mut first, _second) = Known::open(Start::alone(), 0, 0);
        Blank {
            head: Word::tracked(0, &mut first),
            seen,
        }
    }
}

/// The pen for the next list but one, or for the first lists of a new book. None where another has it.
pub(crate) fn prepare(head: &Head, seen: &Known, members: u64, pens: u64) -> Option<Pen>
    requires head { head.now ≡ head_of seen.now.book }
    requires few { (pens < 2) × (members < 2 ^ 32) }
    ensures { IfSome result (λ pen. IsPen seen.now.book (members + pens) pen.book pen.nib) }
{
    let mut later = seen.again();
    let mut offer: Ask = later.plain::<Nothing, u64, Prepares>(&members);
    let mut pen = later.no_pen();
    let old = 3 * members + pens;
    let found = head.compare_exchange::<Prepares, Nothing>(
        old,
        old + 1,
        &mut later,
        &mut offer,
        &mut pen,
    );
    if found != old {
        return None;
    }
    let _cell: Head = Word::tracked(0, &mut pen);
    Some(pen)
}

/// Adds a list to the history, which has so many, and says whether it did. It did not where the next pen is not made.
pub(crate) fn add(head: &Head, seen: &mut Known, members: u64, pen: &mut Pen, draft: &Draft) -> bool
    requires head { head.now ≡ head_of seen.old.book }
    requires members { (members ≡ length seen.old.log) × (members < 2 ^ 32) }
    requires pen { IsPen seen.old.book members pen.old.book pen.old.nib }
    ensures book { seen.new.book ≡ seen.old.book }
    ensures log { MatchBool result
        (seen.new.log ≡ seen.old.log ++ member (changed draft.now.core.value.items draft.now.places.value.items) ∷ [])
        (seen.new.log ≡ seen.old.log) }
    ensures pen { MatchBool result (Unit {0}) (IsPen seen.old.book members pen.new.book pen.new.nib) }
{
    let mut offer: Ask = seen.plain::<Nothing, Draft, AddsList>(draft);
    let old = 3 * members + 2;
    let found = head.compare_exchange::<AddsList, Nothing>(old, old + 2, seen, &mut offer, pen);
    found == old
}

/// What was seen is no more than what the pen's owner knows, which is all.
pub(crate) fn check(head: &Head, mine: &Known, pen: &mut Pen, other: &Known, members: u64)
    requires head { head.now ≡ head_of mine.now.book }
    requires other { other.now.book ≡ mine.now.book }
    requires members { (members ≡ length mine.now.log) × (members < 2 ^ 32) }
    requires pen { IsPen mine.now.book members pen.old.book pen.old.nib }
    ensures other { IsPrefix other.now.log mine.now.log }
    ensures pen { IsPen mine.now.book members pen.new.book pen.new.nib }
{
    let mut both = mine.again();
    both.learn(other);
    let mut offer: Ask = both.plain::<Nothing, u64, Prepares>(&members);
    head.compare_exchange::<Checks, Nothing>(0, 0, &mut both, &mut offer, pen);
}
