//! The turns of the queue.
ghost use Rattle.std.specs.Prelude.{◌≡◌, ◌<◌, ◌≤◌, ◌+◌, ℕ, length, OnOk, IfErr};
ghost use Rattle.kc_graph.specs.Lawful.{Ranked};
ghost use Rattle.kc_view.specs.Answers.{Agrees};
ghost use Rattle.kc_view.specs.Views.{GoesOn, HasPlanCause};
ghost use Rattle.kc_insert.specs.Added.{search_with};
ghost use Rattle.kc_insert.specs.Rising.{IsTidyRising};
ghost use Rattle.kc_insert.specs.Searching.{Widened};
ghost use Rattle.kc_insert.specs.Turns.{IsBetweenTurns};

use crate::ahead::Ahead;
use crate::rising::{Mark, Rising};
use crate::row::fill_row;
use kc_view::{PlanFault, Search, View};

impl Rising {
    /// Visits the vertex that waits first: it becomes a candidate, or is settled, or leaves the queue and changes nothing. What stands in
    /// `row` and `ahead` is of turns before, and is overwritten.
    fn visit<V: View>(
        &mut self,
        view: &mut V,
        search: Search,
        row: &mut Vec<u32>,
        ahead: &mut Ahead,
    ) -> Result<(), PlanFault>
        requires ends { search.update.v < (V.shown view.old).size }
        requires turn { self.old.turn < length self.old.queue.items }
        requires tidy { IsTidyRising search.update (V.shown view.old) self.old }
        ensures goes_on { GoesOn (V.shown view.old) (V.shown view.new) }
        ensures cause { IfErr result (λ fault. HasPlanCause (V.shown view.old) (V.shown view.new) fault) }
        ensures tidy { OnOk result (IsTidyRising search.update (V.shown view.new) self.new) }
        ensures turn { OnOk result (self.new.turn ≡ self.old.turn + 1) }
        ensures turns { OnOk result ((s : Ranked) (root : ℕ) → search.update.v < s.graph.size → Agrees (V.shown view.new).kept s
            → Widened (search_with search.update search.level s) root → IsBetweenTurns (search_with search.update search.level s) root self.old
            → IsBetweenTurns (search_with search.update search.level s) root self.new) }
    {
        let w = self.queue.get(self.turn);
        fill_row(view, search.update, w, row)?;
        ahead.look_from(view, search, w, row)?;
        let earlier = self.earlier_of(w);
        if earlier.saturating_add(ahead.count) > search.level as usize {
            return self.raise(view, w, earlier, ahead);
        }
        if earlier > 0 {
            return self.settle(view, search, w, row);
        }
        self.leave(w, Mark::past())?;
        Ok(())
    }

    /// The turn of the vertex that waits first. The root is visited, and whoever has candidates before it. Any other has no more neighbours
    /// ahead than before the edge came, so it leaves the queue and changes nothing, and its list is not asked.
    fn take_turn<V: View>(
        &mut self,
        view: &mut V,
        search: Search,
        row: &mut Vec<u32>,
        ahead: &mut Ahead,
    ) -> Result<(), PlanFault>
        requires ends { search.update.v < (V.shown view.old).size }
        requires turn { self.old.turn < length self.old.queue.items }
        requires tidy { IsTidyRising search.update (V.shown view.old) self.old }
        ensures goes_on { GoesOn (V.shown view.old) (V.shown view.new) }
        ensures cause { IfErr result (λ fault. HasPlanCause (V.shown view.old) (V.shown view.new) fault) }
        ensures tidy { OnOk result (IsTidyRising search.update (V.shown view.new) self.new) }
        ensures turn { OnOk result (self.new.turn ≡ self.old.turn + 1) }
        ensures turns { OnOk result ((s : Ranked) (root : ℕ) → search.update.v < s.graph.size → Agrees (V.shown view.new).kept s
            → Widened (search_with search.update search.level s) root → IsBetweenTurns (search_with search.update search.level s) root self.old
            → IsBetweenTurns (search_with search.update search.level s) root self.new) }
    {
        let w = self.queue.get(self.turn);
        if self.turn > 0 && self.earlier_of(w) == 0 {
            self.leave(w, Mark::past())?;
            return Ok(());
        }
        self.visit(view, search, row, ahead)
    }

    /// Takes the turns of all that wait, and of those that are queued meanwhile.
    pub fn take_turns<V: View>(&mut self, view: &mut V, search: Search) -> Result<(), PlanFault>
        requires ends { search.update.v < (V.shown view.old).size }
        requires tidy { IsTidyRising search.update (V.shown view.old) self.old }
        ensures goes_on { GoesOn (V.shown view.old) (V.shown view.new) }
        ensures cause { IfErr result (λ fault. HasPlanCause (V.shown view.old) (V.shown view.new) fault) }
        ensures tidy { OnOk result (IsTidyRising search.update (V.shown view.new) self.new) }
        ensures ended { OnOk result (self.new.turn ≡ length self.new.queue.items) }
        ensures turns { OnOk result ((s : Ranked) (root : ℕ) → search.update.v < s.graph.size → Agrees (V.shown view.new).kept s
            → Widened (search_with search.update search.level s) root → IsBetweenTurns (search_with search.update search.level s) root self.old
            → IsBetweenTurns (search_with search.update search.level s) root self.new) }
    {
        let mut row = Vec::new(search.alloc);
        let mut ahead = Ahead::none(search.alloc);
        while self.turn < self.queue.len() {
            self.take_turn(view, search, &mut row, &mut ahead)?;
        }
        Ok(())
    }
}
