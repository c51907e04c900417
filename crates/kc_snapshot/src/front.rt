//! What was seen of a board's history.
ghost use Rattle.std.specs.Prelude.{◌≡◌, ◌==◌, ◌+◌, ◌≤◌, ◌<◌, ◌^◌, ◌++◌, ◌∷◌, [], length, true, IfSome, MatchBool};
ghost use mathlib.Core.List.{IsPrefix};
ghost use Rattle.kc_snapshot.specs.Histories.{changed, is_history, last_list, member, width};
ghost use Rattle.kc_snapshot.specs.Rules.{IsPen, head_of};

use crate::name::BoardName;
use crate::rule::Draft;
use crate::steps::{Blank, Head, Known, add, check, prepare};
use logbook::Pen;
use std::marker::{Model, PhantomData};

/// A beginning of the history of the board that J names. Contracts see it as its lists, of which there is at least one. It has the number
/// of its lists, and no other bytes.
#[derive(Drop)]
pub struct Front<J: BoardName> {
    count: u32,
    seen: Known,
    of: PhantomData<J>,
}

/// What the publisher had seen, for a reader to learn.
pub type Note<J> = Front<J>;

impl<J: BoardName> Model for Front<J> {
    ghost use Rattle.std.specs.Prelude.{◌≡◌, List, length, true};
    ghost use Rattle.kc_snapshot.specs.declared.member.Member.{Member};
    ghost use Rattle.kc_snapshot.specs.Histories.{is_history};

    ghost Value = { List Member };

    ghost view = { λ f. f.seen.log };

    ghost invariant = { λ f. (f.count ≡ length f.seen.log) × (f.seen.book ≡ J.book) × (is_history f.seen.log ≡ true) };
}

/// What opens a history: the head of its book, the pen for the second list, and the history with the first one.
pub(crate) struct OpenedHistory<J: BoardName> {
    pub head: Head,
    pub pen: Pen,
    pub front: Front<J>,
}

/// Begins the history of a board. None where another has begun it.
pub(crate) fn begin<J: BoardName>(blank: Blank, draft: &Draft) -> Option<OpenedHistory<J>>
    requires { blank ≡ J.book }
    ensures head { IfSome result (λ b. b.head ≡ head_of J.book) }
    ensures pen { IfSome result (λ b. IsPen J.book 1 b.pen.book b.pen.nib) }
    ensures front { IfSome result (λ b. b.front ≡ member (changed draft.now.core.value.items draft.now.places.value.items) ∷ []) }
{
    let Blank { head, mut seen } = blank;
    let mut first = prepare(&head, &seen, 0, 0)?;
    let pen = prepare(&head, &seen, 0, 1)?;
    if !add(&head, &mut seen, 0, &mut first, draft) {
        return None;
    }
    let front = Front {
        count: 1,
        seen,
        of: PhantomData,
    };
    Some(OpenedHistory { head, pen, front })
}

impl<J: BoardName> Front<J> {
    /// The number of the last list.
    pub(crate) fn last(&self) -> u32
        ensures { result + 1 ≡ length self.now }
    {
        self.count - 1
    }

    /// The last list has as many vertices as the first. The call does nothing else.
    pub(crate) fn measure(&self)
        ensures { length (last_list self.now) ≡ width self.now }
    {
        let _ = &self.count;
    }

    /// Whether another front has more lists.
    pub(crate) fn is_shorter(&self, other: &Front<J>) -> bool
        ensures { MatchBool result (length self.now < length other.now) (length other.now ≤ length self.now) }
    {
        self.count < other.count
    }

    /// A copy.
    pub fn again(&self) -> Front<J>
        ensures { result ≡ self.now }
    {
        Front {
            count: self.count,
            seen: self.seen.again(),
            of: PhantomData,
        }
    }

    // Of two fronts the one that is no longer begins the other.
    fn compare(&self, other: &Front<J>)
        requires { length self.now ≤ length other.now }
        ensures prefix { IsPrefix self.now other.now }
        ensures width { width other.now ≡ width self.now }
    {
        let mut both = self.seen.again();
        both.learn(&other.seen);
        let _ = &self.count;
        let _ = &other.count;
    }

    /// Whether two fronts have as many lists. They are the same then.
    pub(crate) fn is_same(&self, other: &Front<J>) -> bool
        ensures same { result ≡ true → self.now ≡ other.now }
        ensures length { result ≡ (length self.now == length other.now) }
    {
        if self.count != other.count {
            return false;
        }
        self.compare(other);
        true
    }

    /// Goes on to another front, which is no shorter.
    pub(crate) fn follow(&mut self, other: &Front<J>)
        requires { length self.old ≤ length other.now }
        ensures this { IsPrefix self.old self.new }
        ensures that { self.new ≡ other.now }
        ensures width { width self.new ≡ width self.old }
    {
        self.compare(other);
        *self = other.again();
    }

    /// Takes in what another has seen.
    #[tactic(auto, using(crate::proofs::Prefixes::prefix_self))]
    pub(crate) fn take_in(&mut self, other: &Front<J>)
        ensures this { IsPrefix self.old self.new }
        ensures that { IsPrefix other.now self.new }
        ensures width { width self.new ≡ width self.old }
    {
        if self.is_shorter(other) {
            self.follow(other);
        } else {
            other.compare(self);
        }
    }

    /// Adds a list, and says whether it did.
    pub(crate) fn extend(&mut self, head: &Head, pen: &mut Pen, draft: &Draft) -> bool
        requires head { head.now ≡ head_of J.book }
        requires pen { IsPen J.book (length self.old) pen.old.book pen.old.nib }
        requires room { length self.old + 1 < 2 ^ 32 }
        requires wide { length (changed draft.now.core.value.items draft.now.places.value.items) ≡ width self.old }
        ensures added { MatchBool result
            (self.new ≡ self.old ++ member (changed draft.now.core.value.items draft.now.places.value.items) ∷ [])
            (self.new ≡ self.old) }
        ensures pen { MatchBool result (Unit {0}) (IsPen J.book (length self.old) pen.new.book pen.new.nib) }
        ensures width { width self.new ≡ width self.old }
    {
        let added = add(head, &mut self.seen, u64::from(self.count), pen, draft);
        if added {
            self.count += 1;
        }
        added
    }

    /// The pen for the next list but one.
    pub(crate) fn next_pen(&self, head: &Head) -> Option<Pen>
        requires { head.now ≡ head_of J.book }
        ensures { IfSome result (λ pen. IsPen J.book (length self.now + 1) pen.book pen.nib) }
    {
        prepare(head, &self.seen, u64::from(self.count), 1)
    }

    /// What another has seen begins what the pen's owner knows.
    pub(crate) fn cover(&self, head: &Head, pen: &mut Pen, other: &Front<J>)
        requires head { head.now ≡ head_of J.book }
        requires pen { IsPen J.book (length self.now) pen.old.book pen.old.nib }
        ensures other { IsPrefix other.now self.now }
        ensures pen { IsPen J.book (length self.now) pen.new.book pen.new.nib }
    {
        check(head, &self.seen, pen, &other.seen, u64::from(self.count));
        let _ = &other.count;
    }
}
