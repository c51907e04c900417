//! The support of a vertex, counted as far as needed: neighbours that are as high, without the edge that goes and those that are gone.
ghost use Rattle.std.specs.Prelude.{◌≡◌, ◌≢◌, ◌<◌, ◌≤◌, ℕ, Bool, true, false, length, take, slice_index, IfOk, OnOk, IfErr};
ghost use Rattle.kc_lists.specs.Lists.{member};
ghost use Rattle.kc_marks.specs.Maps.{value_of};
ghost use Rattle.kc_graph.specs.SimpleGraph.{adjacent};
ghost use Rattle.kc_graph.specs.Edges.{without_edge};
ghost use Rattle.kc_graph.specs.Lawful.{Ranked};
ghost use Rattle.kc_view.specs.Answers.{Agrees, has_list, list_of};
ghost use Rattle.kc_view.specs.Views.{GoesOn, HasPlanCause};
ghost use Rattle.kc_remove.specs.Cascade.{taken};
ghost use Rattle.kc_remove.specs.Removed.{is_counted};
ghost use Rattle.kc_graph.specs.Plans.{joins};
ghost use Rattle.kc_remove.specs.Falling.{is_visited, IsNear, IsTidyFalling, FallsIn};
ghost use Rattle.kc_remove.specs.Visits.{IsBound, IsSupport};

use crate::falling::{Count, Falling, Supported};
use kc_graph::Update;
use kc_view::{PlanFault, Search, View, core_of, degree_of};

/// Whether the edge that goes joins the two.
pub(crate) fn joins(update: Update, x: u32, y: u32) -> bool
    ensures { result ≡ joins update x y }
{
    (x == update.u && y == update.v) || (x == update.v && y == update.u)
}

impl Falling {
    /// Whether the neighbour `z` supports `y`.
    fn supports<V: View>(
        &self,
        view: &mut V,
        search: Search,
        y: Supported,
        z: u32,
    ) -> Result<bool, PlanFault>
        requires vertex { z < (V.shown view.old).size }
        requires read { has_list (V.shown view.old).kept y.vertex ≡ true }
        requires neighbour { member z (list_of (V.shown view.old).kept y.vertex) ≡ true }
        requires tidy { IsTidyFalling search.update (V.shown view.old) self.now }
        ensures goes_on { GoesOn (V.shown view.old) (V.shown view.new) }
        ensures cause { IfErr result (λ fault. HasPlanCause (V.shown view.old) (V.shown view.new) fault) }
        ensures tidy { OnOk result (IsTidyFalling search.update (V.shown view.new) self.now) }
        ensures told { IfOk result (λ supports. (s : Ranked) → Agrees (V.shown view.new).kept s
            → ((x : ℕ) → member x self.now.seen.weak.items ≡ true → slice_index s.core x ≡ search.level)
            → supports ≡ is_counted search.update search.level s (take y.turns self.now.seen.weak.items) y.vertex z) }
    {
        if joins(search.update, y.vertex, z) {
            return Ok(false);
        }
        let core = core_of(view, z)?;
        if core != search.level {
            return Ok(core > search.level);
        }
        let gone = self.is_gone(z, y.turns);
        Ok(!gone)
    }

    /// Goes on with the count of the support of `y`, whose list was read: up to the level, or to the end of the list.
    fn look_on<V: View>(
        &self,
        view: &mut V,
        search: Search,
        y: Supported,
        count: Count,
    ) -> Result<Count, PlanFault>
        requires vertex { y.vertex < (V.shown view.old).size }
        requires read { has_list (V.shown view.old).kept y.vertex ≡ true }
        requires tidy { IsTidyFalling search.update (V.shown view.old) self.now }
        requires looked { IsBound (list_of (V.shown view.old).kept y.vertex) count.looked count.bound }
        ensures goes_on { GoesOn (V.shown view.old) (V.shown view.new) }
        ensures cause { IfErr result (λ fault. HasPlanCause (V.shown view.old) (V.shown view.new) fault) }
        ensures tidy { OnOk result (IsTidyFalling search.update (V.shown view.new) self.now) }
        ensures looked { IfOk result (λ found. IsBound (list_of (V.shown view.old).kept y.vertex) found.looked found.bound) }
        ensures all { IfOk result (λ found. found.support < search.level → length (list_of (V.shown view.old).kept y.vertex) ≤ found.looked) }
        ensures told { IfOk result (λ found. (s : Ranked) → Agrees (V.shown view.new).kept s
            → ((x : ℕ) → member x self.now.seen.weak.items ≡ true → slice_index s.core x ≡ search.level)
            → IsSupport search.update search.level s (take y.turns self.now.seen.weak.items) y.vertex count
            → IsSupport search.update search.level s (take y.turns self.now.seen.weak.items) y.vertex found) }
    {
        if count.support >= search.level {
            return Ok(count);
        }
        let degree = degree_of(view, y.vertex)?;
        let mut support = count.support;
        let mut looked = count.looked;
        let mut bound = count.bound;
        while support < search.level && looked < degree {
            let z = view.list(y.vertex)[looked as usize];
            if self.supports(view, search, y, z)? {
                support += 1;
            }
            looked += 1;
            bound = u64::from(z) + 1;
        }
        Ok(Count {
            support,
            looked,
            bound,
        })
    }

    /// Goes on with the count of the support of `y`, which has not fallen, and puts it on the list of the fallen if there is too little.
    pub(crate) fn count_on<V: View>(
        &mut self,
        view: &mut V,
        search: Search,
        y: Supported,
        count: Count,
    ) -> Result<(), PlanFault>
        requires vertex { y.vertex < (V.shown view.old).size }
        requires read { has_list (V.shown view.old).kept y.vertex ≡ true }
        requires out { member y.vertex self.old.seen.weak.items ≡ false }
        requires looked { IsBound (list_of (V.shown view.old).kept y.vertex) count.looked count.bound }
        requires tidy { IsTidyFalling search.update (V.shown view.old) self.old }
        ensures goes_on { GoesOn (V.shown view.old) (V.shown view.new) }
        ensures cause { IfErr result (λ fault. HasPlanCause (V.shown view.old) (V.shown view.new) fault) }
        ensures tidy { OnOk result (IsTidyFalling search.update (V.shown view.new) self.new) }
        ensures visited { OnOk result (is_visited self.new y.vertex ≡ true) }
        ensures still { OnOk result ((z : ℕ) → is_visited self.old z ≡ true → is_visited self.new z ≡ true) }
        ensures others { OnOk result ((z : ℕ) → z ≢ y.vertex → value_of self.new.seen.marks z ≡ value_of self.old.seen.marks z) }
        ensures further { OnOk result ((j : ℕ) → j < length self.old.seen.weak.items
            → (j < length self.new.seen.weak.items) × (slice_index self.new.seen.weak.items j ≡ slice_index self.old.seen.weak.items j)) }
        ensures falls { OnOk result ((s : Ranked) (turn : ℕ) (part later : ℕ → Bool) → Agrees (V.shown view.new).kept s
            → slice_index s.core y.vertex ≡ search.level
            → IsSupport search.update search.level s (take y.turns self.old.seen.weak.items) y.vertex count → y.turns ≡ taken later turn y.vertex
            → FallsIn search.update search.level s self.old turn part → ((z : ℕ) → z ≢ y.vertex → later z ≡ part z)
            → (later y.vertex ≡ true → (turn < length self.old.seen.weak.items)
            × (adjacent (without_edge s.graph search.update.u search.update.v) (slice_index self.old.seen.weak.items turn) y.vertex ≡ true))
            → FallsIn search.update search.level s self.new turn later) }
    {
        let found = self.look_on(view, search, y, count)?;
        self.settle(y.vertex, found, search.level)?;
        Ok(())
    }

    /// Visits `y` for the first time: asks its list, counts its support, and puts it on the list of the fallen if that is too little.
    pub(crate) fn visit<V: View>(
        &mut self,
        view: &mut V,
        search: Search,
        y: Supported,
    ) -> Result<(), PlanFault>
        requires vertex { y.vertex < (V.shown view.old).size }
        requires is_new { is_visited self.old y.vertex ≡ false }
        requires near { IsNear search.update (V.shown view.old).kept self.old.seen.weak.items y.vertex }
        requires tidy { IsTidyFalling search.update (V.shown view.old) self.old }
        ensures goes_on { GoesOn (V.shown view.old) (V.shown view.new) }
        ensures cause { IfErr result (λ fault. HasPlanCause (V.shown view.old) (V.shown view.new) fault) }
        ensures tidy { OnOk result (IsTidyFalling search.update (V.shown view.new) self.new) }
        ensures visited { OnOk result (is_visited self.new y.vertex ≡ true) }
        ensures still { OnOk result ((z : ℕ) → is_visited self.old z ≡ true → is_visited self.new z ≡ true) }
        ensures others { OnOk result ((z : ℕ) → z ≢ y.vertex → value_of self.new.seen.marks z ≡ value_of self.old.seen.marks z) }
        ensures further { OnOk result ((j : ℕ) → j < length self.old.seen.weak.items
            → (j < length self.new.seen.weak.items) × (slice_index self.new.seen.weak.items j ≡ slice_index self.old.seen.weak.items j)) }
        ensures falls { OnOk result ((s : Ranked) (turn : ℕ) (part later : ℕ → Bool) → Agrees (V.shown view.new).kept s
            → slice_index s.core y.vertex ≡ search.level
            → y.turns ≡ taken later turn y.vertex
            → FallsIn search.update search.level s self.old turn part → ((z : ℕ) → z ≢ y.vertex → later z ≡ part z)
            → (later y.vertex ≡ true → (turn < length self.old.seen.weak.items)
            × (adjacent (without_edge s.graph search.update.u search.update.v) (slice_index self.old.seen.weak.items turn) y.vertex ≡ true))
            → FallsIn search.update search.level s self.new turn later) }
    {
        degree_of(view, y.vertex)?;
        self.count_on(view, search, y, Count::new())?;
        Ok(())
    }
}
