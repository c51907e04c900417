//! What the neighbours of a vertex lose that will not rise.
ghost use Rattle.std.specs.Prelude.{◌≡◌, ◌&&◌, not, false, Some, None, OnOk};
ghost use Rattle.kc_lists.specs.Lists.{Distinct};
ghost use Rattle.kc_marks.specs.Maps.{value_of};
ghost use Rattle.kc_marks.specs.SearchMarks.{MarksOne};
ghost use Rattle.kc_insert.specs.Rising.{IsOrderly};
ghost use Rattle.kc_insert.specs.Turns.{taken_from, recounted, LosesOne, Loses};
ghost use Rattle.kc_insert.specs.declared.rising.Mark.{Mark};

use crate::rising::{Mark, Rising};
use kc_graph::NoMemory;

/// What a vertex has come to that will not rise.
#[derive(Clone, Copy, Debug, Drop, Eq, PartialEq)]
pub(crate) enum Loss {
    /// It left the queue without becoming a candidate: the candidates beside it stand before it.
    Settled,
    /// It was a candidate and is put behind all that have left the queue. This was its turn.
    Evicted(usize),
}

impl Loss {
    /// The mark of a neighbour with the counts that it has then.
    fn taken_from(self, mark: Mark) -> Mark
        ensures { result ≡ taken_from self mark }
    {
        let is_before = match self {
            Loss::Settled => true,
            Loss::Evicted(turn) => mark.turn < turn,
        };
        if mark.is_candidate && is_before {
            let later = mark.later.saturating_sub(1);
            return Mark { later, ..mark };
        }
        match self {
            Loss::Settled => mark,
            Loss::Evicted(_) => {
                let earlier = mark.earlier.saturating_sub(1);
                Mark { earlier, ..mark }
            }
        }
    }
}

impl Rising {
    /// The mark of the neighbour `y`, if it was ever queued, loses what it loses. Whether `y` is too weak by that comes back.
    fn weaken(&mut self, y: u32, loss: Loss, level: u32) -> bool
        ensures marked { (mark : Mark) → value_of self.old.seen.marks y ≡ Some mark
            → MarksOne y (recounted level (taken_from loss mark)) self.old.seen self.new.seen
            × (result ≡ (not (taken_from loss mark).is_weak && (recounted level (taken_from loss mark)).is_weak)) }
        ensures unmarked { value_of self.old.seen.marks y ≡ None → (self.new ≡ self.old) × (result ≡ false) }
        ensures rest { (self.new.queue.items ≡ self.old.queue.items) × (self.new.turn ≡ self.old.turn)
            × (self.new.seen.weak.items ≡ self.old.seen.weak.items) × (self.new.shifts.items ≡ self.old.shifts.items) }
    {
        let Some(mark) = self.seen.find(y) else {
            return false;
        };
        let taken = loss.taken_from(mark);
        let is_found = !taken.is_weak && taken.is_too_weak(level);
        let recounted = Mark {
            is_weak: taken.is_weak || is_found,
            ..taken
        };
        self.seen.mark_again(y, recounted);
        is_found
    }

    /// What the neighbour `y` loses, if it was ever queued: where that makes a candidate too weak, it is put on the list of the weak.
    fn lose(&mut self, y: u32, loss: Loss, level: u32) -> Result<(), NoMemory>
        ensures { OnOk result (LosesOne level loss y self.old self.new) }
    {
        if self.weaken(y, loss, level) {
            self.seen.add_weak(y)?;
        }
        Ok(())
    }

    /// What each of the neighbours `row` loses.
    pub fn lose_each(&mut self, row: &[u32], loss: Loss, level: u32) -> Result<(), NoMemory>
        requires once { Distinct row.now }
        requires orderly { IsOrderly self.old }
        ensures orderly { OnOk result (IsOrderly self.new) }
        ensures loses { OnOk result (Loses level loss row.now self.old self.new) }
    {
        for y in row {
            self.lose(*y, loss, level)?;
        }
        Ok(())
    }
}
