//! A vertex that cannot rise leaves the queue, and the candidates that are too weak without it are evicted.
ghost use Rattle.std.specs.Prelude.{◌≡◌, ◌<◌, ◌≤◌, ◌+◌, ◌||◌, ℕ, true, length, slice_index, IfOk, OnOk, IfErr};
ghost use Rattle.kc_lists.specs.Lists.{member};
ghost use Rattle.kc_graph.specs.Lawful.{Ranked};
ghost use Rattle.kc_view.specs.Answers.{Agrees, has_list, list_of};
ghost use Rattle.kc_view.specs.Lists.{IsListOf};
ghost use Rattle.kc_view.specs.Views.{GoesOn, HasPlanCause};
ghost use Rattle.kc_insert.specs.Added.{search_with};
ghost use Rattle.kc_graph.specs.Plans.{joins};
ghost use Rattle.kc_insert.specs.Rising.{left, earlier_at, IsTidyRising};
ghost use Rattle.kc_insert.specs.Searching.{Widened, ahead};
ghost use Rattle.kc_insert.specs.Turns.{IsBetweenTurns, IsSettling};

use crate::losing::Loss;
use crate::rising::{Mark, Rising};
use crate::row::fill_row;
use kc_view::{PlanFault, Search, View};

impl Rising {
    /// Evicts the weak candidate whose turn it is, and puts it behind `anchor`.
    fn evict_next<V: View>(
        &mut self,
        view: &mut V,
        search: Search,
        anchor: u32,
        row: &mut Vec<u32>,
    ) -> Result<u32, PlanFault>
        requires ends { search.update.v < (V.shown view.old).size }
        requires some { length self.old.shifts.items < length self.old.seen.weak.items }
        requires anchor { member anchor (left self.old) ≡ true }
        requires read { has_list (V.shown view.old).kept anchor ≡ true }
        requires tidy { IsTidyRising search.update (V.shown view.old) self.old }
        ensures goes_on { GoesOn (V.shown view.old) (V.shown view.new) }
        ensures cause { IfErr result (λ fault. HasPlanCause (V.shown view.old) (V.shown view.new) fault) }
        ensures tidy { OnOk result (IsTidyRising search.update (V.shown view.new) self.new) }
        ensures evicted { IfOk result (λ x. member x (left self.new) ≡ true) }
        ensures read { IfOk result (λ x. has_list (V.shown view.new).kept x ≡ true) }
        ensures one { OnOk result (length self.new.shifts.items ≡ length self.old.shifts.items + 1) }
        ensures turn { OnOk result (self.new.turn ≡ self.old.turn) }
        ensures settling { IfOk result (λ x. (s : Ranked) (root : ℕ) → Agrees (V.shown view.new).kept s
            → Widened (search_with search.update search.level s) root → IsSettling (search_with search.update search.level s) root self.old anchor
            → IsSettling (search_with search.update search.level s) root self.new x) }
    {
        let x = self.seen.weak[self.shifts.len()];
        fill_row(view, search.update, x, row)?;
        let turn = self.evict(x, anchor)?;
        self.lose_each(row, Loss::Evicted(turn), search.level)?;
        Ok(x)
    }

    /// Evicts all candidates that are too weak, and those that are then, each right behind the one before. The first is put behind `w`.
    fn evict_weak<V: View>(
        &mut self,
        view: &mut V,
        search: Search,
        w: u32,
        row: &mut Vec<u32>,
    ) -> Result<(), PlanFault>
        requires ends { search.update.v < (V.shown view.old).size }
        requires anchor { member w (left self.old) ≡ true }
        requires read { has_list (V.shown view.old).kept w ≡ true }
        requires tidy { IsTidyRising search.update (V.shown view.old) self.old }
        ensures goes_on { GoesOn (V.shown view.old) (V.shown view.new) }
        ensures cause { IfErr result (λ fault. HasPlanCause (V.shown view.old) (V.shown view.new) fault) }
        ensures tidy { OnOk result (IsTidyRising search.update (V.shown view.new) self.new) }
        ensures turn { OnOk result (self.new.turn ≡ self.old.turn) }
        ensures settled { OnOk result ((s : Ranked) (root : ℕ) → Agrees (V.shown view.new).kept s → Widened (search_with search.update search.level s) root
            → IsSettling (search_with search.update search.level s) root self.old w → IsBetweenTurns (search_with search.update search.level s) root self.new) }
    {
        let mut anchor = w;
        while self.shifts.len() < self.seen.weak.len() {
            anchor = self.evict_next(view, search, anchor, row)?;
        }
        Ok(())
    }

    /// The vertex `w` that waits first leaves the queue and will not rise. Its neighbours are `row`, in which those of the evicted stand after
    /// that, one after the other.
    pub fn settle<V: View>(
        &mut self,
        view: &mut V,
        search: Search,
        w: u32,
        row: &mut Vec<u32>,
    ) -> Result<(), PlanFault>
        requires ends { search.update.v < (V.shown view.old).size }
        requires turn { self.old.turn < length self.old.queue.items }
        requires first { slice_index self.old.queue.items self.old.turn ≡ w }
        requires read { has_list (V.shown view.old).kept w ≡ true }
        requires row { IsListOf (V.shown view.old).size w row.old.items }
        requires has { (y : ℕ) → member y row.old.items ≡ (member y (list_of (V.shown view.old).kept w) || joins search.update w y) }
        requires tidy { IsTidyRising search.update (V.shown view.old) self.old }
        ensures goes_on { GoesOn (V.shown view.old) (V.shown view.new) }
        ensures cause { IfErr result (λ fault. HasPlanCause (V.shown view.old) (V.shown view.new) fault) }
        ensures tidy { OnOk result (IsTidyRising search.update (V.shown view.new) self.new) }
        ensures turn { OnOk result (self.new.turn ≡ self.old.turn + 1) }
        ensures settled { OnOk result ((s : Ranked) (root : ℕ) → Agrees (V.shown view.new).kept s → Widened (search_with search.update search.level s) root
            → earlier_at self.old w + ahead (search_with search.update search.level s) w ≤ search.level
            → IsBetweenTurns (search_with search.update search.level s) root self.old
            → IsBetweenTurns (search_with search.update search.level s) root self.new) }
    {
        self.leave(w, Mark::past())?;
        self.lose_each(row, Loss::Settled, search.level)?;
        self.evict_weak(view, search, w, row)
    }
}
