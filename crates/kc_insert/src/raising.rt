//! A vertex becomes a candidate, and those behind it are queued.
ghost use Rattle.std.specs.Prelude.{◌≡◌, ◌≢◌, ◌<◌, ◌≤◌, ◌+◌, ◌&&◌, ℕ, List, [], true, false, length, slice_index, IfOk, OnOk, IfErr};
ghost use Rattle.kc_lists.specs.Lists.{member, Distinct};
ghost use Rattle.kc_graph.specs.Lawful.{Ranked};
ghost use Rattle.kc_graph.specs.declared.update.Update.{Update};
ghost use Rattle.kc_cert.specs.Ranks.{rank_in, AscendsBy};
ghost use Rattle.kc_view.specs.Answers.{Agrees, has_list, has_core};
ghost use Rattle.kc_view.specs.Search.{after};
ghost use Rattle.kc_view.specs.Views.{GoesOn, HasPlanCause};
ghost use Rattle.kc_insert.specs.Added.{search_with};
ghost use Rattle.kc_insert.specs.Rising.{is_queued, left, earlier_at, IsTidyRising};
ghost use Rattle.kc_insert.specs.Searching.{Widened, ahead};
ghost use Rattle.kc_insert.specs.Turns.{Passes, PassedOn, IsBetweenTurns, IsPlaceWithin, StandsBehindLeft, IsAheadOf};

use crate::ahead::Ahead;
use crate::rising::{Mark, Rising};
use kc_view::{PlanFault, View, stands_before};

impl Rising {
    /// The place of `x` among those that wait, which is looked for by halving.
    fn place_of<V: View>(&self, view: &mut V, x: u32) -> Result<usize, PlanFault>
        requires is_new { member x self.now.queue.items ≡ false }
        requires placed { has_core (V.shown view.old).kept x ≡ true }
        requires tidy { (update : Update) × IsTidyRising update (V.shown view.old) self.now }
        ensures goes_on { GoesOn (V.shown view.old) (V.shown view.new) }
        ensures cause { IfErr result (λ fault. HasPlanCause (V.shown view.old) (V.shown view.new) fault) }
        ensures tidy { OnOk result ((update : Update) → IsTidyRising update (V.shown view.old) self.now → IsTidyRising update (V.shown view.new) self.now) }
        ensures from { IfOk result (λ place. self.now.turn ≤ place) }
        ensures within { IfOk result (λ place. place ≤ length self.now.queue.items) }
        ensures place { IfOk result (λ place. (s : Ranked) → Agrees (V.shown view.new).kept s → AscendsBy (rank_in s.order) self.now.queue.items
            → ((z : ℕ) → member z (left self.now) ≡ true → rank_in s.order z < rank_in s.order x)
            → IsPlaceWithin (rank_in s.order) self.now.queue.items x place place) }
    {
        let mut low = self.turn;
        let mut high = self.queue.len();
        while low < high {
            let middle = low + (high - low) / 2;
            if stands_before(view, self.queue.get(middle), x)? {
                low = middle + 1;
            } else {
                high = middle;
            }
        }
        Ok(low)
    }

    /// Counts one candidate more before `x`, which is of the level, and queues `x` if it never was.
    fn pass<V: View>(&mut self, view: &mut V, x: u32) -> Result<(), PlanFault>
        requires vertex { x < (V.shown view.old).size }
        requires placed { has_core (V.shown view.old).kept x ≡ true }
        requires tidy { (update : Update) × IsTidyRising update (V.shown view.old) self.old }
        ensures goes_on { GoesOn (V.shown view.old) (V.shown view.new) }
        ensures cause { IfErr result (λ fault. HasPlanCause (V.shown view.old) (V.shown view.new) fault) }
        ensures tidy { OnOk result ((update : Update) → IsTidyRising update (V.shown view.old) self.old → IsTidyRising update (V.shown view.new) self.new) }
        ensures passes { OnOk result (Passes x self.old self.new) }
        ensures ascends { OnOk result ((s : Ranked) → Agrees (V.shown view.new).kept s → StandsBehindLeft (rank_in s.order) self.old [] x
            → AscendsBy (rank_in s.order) self.old.queue.items → AscendsBy (rank_in s.order) self.new.queue.items) }
    {
        let Some(mark) = self.seen.find(x) else {
            let place = self.place_of(view, x)?;
            self.enqueue(x, place)?;
            return Ok(());
        };
        self.count_candidate(x, mark)?;
        Ok(())
    }

    /// Counts one candidate more before each of `next`, which are of the level, and queues those that never were.
    fn pass_on<V: View>(&mut self, view: &mut V, next: &[u32]) -> Result<(), PlanFault>
        requires once { Distinct next.now }
        requires vertices { (y : ℕ) → member y next.now ≡ true → y < (V.shown view.old).size }
        requires placed { (y : ℕ) → member y next.now ≡ true → has_core (V.shown view.old).kept y ≡ true }
        requires tidy { (update : Update) × IsTidyRising update (V.shown view.old) self.old }
        ensures goes_on { GoesOn (V.shown view.old) (V.shown view.new) }
        ensures cause { IfErr result (λ fault. HasPlanCause (V.shown view.old) (V.shown view.new) fault) }
        ensures tidy { OnOk result ((update : Update) → IsTidyRising update (V.shown view.old) self.old → IsTidyRising update (V.shown view.new) self.new) }
        ensures passed { OnOk result (PassedOn next.now self.old self.new) }
        ensures ascends { OnOk result ((s : Ranked) → Agrees (V.shown view.new).kept s
            → ((y : ℕ) → member y next.now ≡ true → StandsBehindLeft (rank_in s.order) self.old next.now y)
            → AscendsBy (rank_in s.order) self.old.queue.items → AscendsBy (rank_in s.order) self.new.queue.items) }
    {
        for x in next {
            self.pass(view, *x)?;
        }
        Ok(())
    }

    /// The vertex `w` that waits first leaves the queue and becomes a candidate. It has `earlier` candidates before it.
    pub fn raise<V: View>(
        &mut self,
        view: &mut V,
        w: u32,
        earlier: usize,
        ahead: &Ahead,
    ) -> Result<(), PlanFault>
        requires turn { self.old.turn < length self.old.queue.items }
        requires first { slice_index self.old.queue.items self.old.turn ≡ w }
        requires earlier { earlier ≡ earlier_at self.old w }
        requires read { has_list (V.shown view.old).kept w ≡ true }
        requires once { Distinct ahead.now.next.items }
        requires vertices { (y : ℕ) → member y ahead.now.next.items ≡ true → y < (V.shown view.old).size }
        requires placed { (y : ℕ) → member y ahead.now.next.items ≡ true → has_core (V.shown view.old).kept y ≡ true }
        requires tidy { (update : Update) × IsTidyRising update (V.shown view.old) self.old }
        ensures goes_on { GoesOn (V.shown view.old) (V.shown view.new) }
        ensures cause { IfErr result (λ fault. HasPlanCause (V.shown view.old) (V.shown view.new) fault) }
        ensures tidy { OnOk result ((update : Update) → IsTidyRising update (V.shown view.old) self.old → IsTidyRising update (V.shown view.new) self.new) }
        ensures turn { OnOk result (self.new.turn ≡ self.old.turn + 1) }
        ensures raised { OnOk result ((update : Update) (level : ℕ) (s : Ranked) (root : ℕ) → Agrees (V.shown view.new).kept s
            → Widened (search_with update level s) root → level < earlier + ahead.now.count → IsAheadOf (search_with update level s) w ahead.now
            → IsBetweenTurns (search_with update level s) root self.old → IsBetweenTurns (search_with update level s) root self.new) }
    {
        prove!(self.turn < self.queue.len());
        self.leave(w, Mark::candidate(earlier, ahead.count, self.turn))?;
        self.pass_on(view, &ahead.next)?;
        Ok(())
    }
}
