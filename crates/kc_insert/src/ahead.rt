//! Where the neighbours of a vertex stand.
ghost use Rattle.std.specs.Prelude.{◌≡◌, ◌≢◌, ◌<◌, ◌+◌, ◌-◌, ◌^◌, ◌++◌, ◌&&◌, ◌||◌, ℕ, List, [], ◌∷◌, true, count_by, IfOk, OnOk, IfErr, if◌then◌else◌};
ghost use Rattle.kc_lists.specs.Lists.{member, Distinct};
ghost use Rattle.kc_graph.specs.Lawful.{Ranked};
ghost use Rattle.kc_view.specs.Answers.{Agrees, has_list, list_of, has_core};
ghost use Rattle.kc_view.specs.Lists.{IsListOf};
ghost use Rattle.kc_view.specs.Views.{GoesOn, HasPlanCause};
ghost use Rattle.kc_insert.specs.Added.{search_with};
ghost use Rattle.kc_graph.specs.Plans.{joins};
ghost use Rattle.kc_insert.specs.Rising.{AsksQueued};
ghost use Rattle.kc_insert.specs.Turns.{side_in, is_ahead, is_next};

use kc_graph::NoMemory;
use kc_view::{PlanFault, Search, View, core_of, stands_before};
use std::alloc::Global;

/// Where a neighbour stands, as seen from a vertex of the level.
#[derive(Clone, Copy, Debug, Drop, Eq, PartialEq)]
pub(crate) enum Side {
    /// It has a greater core number.
    Higher,
    /// It is of the level, and stands behind the vertex.
    Next,
    /// It stands before the vertex.
    Before,
}

/// The neighbours that are higher than a vertex of the level or stand behind it there.
#[derive(Drop)]
pub(crate) struct Ahead {
    /// How many these are.
    pub count: usize,
    /// Those of the level, ascending.
    pub next: Vec<u32>,
}

impl Ahead {
    /// None, with no memory taken.
    pub fn none(alloc: Global) -> Ahead
        ensures count { result.count ≡ 0 }
        ensures next { result.next.items ≡ [] }
    {
        Ahead {
            count: 0,
            next: Vec::new(alloc),
        }
    }

    /// Forgets all, and keeps the memory for those of the level.
    fn clear(&mut self)
        ensures count { self.new.count ≡ 0 }
        ensures next { self.new.next.items ≡ [] }
    {
        self.count = 0;
        self.next.clear();
    }

    /// Counts a neighbour that stands so.
    fn add(&mut self, x: u32, side: Side) -> Result<(), NoMemory>
        requires { self.old.count < 2 ^ 64 - 1 }
        ensures count { OnOk result (self.new.count ≡ self.old.count + (if is_ahead side then 1 else 0)) }
        ensures next { OnOk result (self.new.next.items ≡ (if is_next side then self.old.next.items ++ x ∷ [] else self.old.next.items)) }
    {
        match side {
            Side::Higher => self.count += 1,
            Side::Next => {
                self.count += 1;
                self.next.push(x)?;
            }
            Side::Before => {}
        }
        Ok(())
    }

    /// Finds the neighbours that are higher than `w` or stand behind it on the level, among `row`, the neighbours of `w` once the edge is
    /// there. What was ahead of another vertex is forgotten.
    pub fn look_from<V: View>(
        &mut self,
        view: &mut V,
        search: Search,
        w: u32,
        row: &[u32],
    ) -> Result<(), PlanFault>
        requires row { IsListOf (V.shown view.old).size w row.now }
        requires has { (y : ℕ) → member y row.now ≡ (member y (list_of (V.shown view.old).kept w) || joins search.update w y) }
        requires placed { has_core (V.shown view.old).kept w ≡ true }
        requires read { has_list (V.shown view.old).kept w ≡ true }
        ensures goes_on { GoesOn (V.shown view.old) (V.shown view.new) }
        ensures cause { IfErr result (λ fault. HasPlanCause (V.shown view.old) (V.shown view.new) fault) }
        ensures asks { OnOk result ((queue : List ℕ) → AsksQueued search.update (V.shown view.old).kept queue
            → AsksQueued search.update (V.shown view.new).kept queue) }
        ensures from { OnOk result ((y : ℕ) → member y self.new.next.items ≡ true → (member y row.now ≡ true) × (has_core (V.shown view.new).kept y ≡ true)) }
        ensures once { OnOk result (Distinct self.new.next.items) }
        ensures count { OnOk result ((s : Ranked) → Agrees (V.shown view.new).kept s
            → self.new.count ≡ count_by (λ y. is_ahead (side_in (search_with search.update search.level s) w y)) row.now) }
        ensures next { OnOk result ((s : Ranked) → Agrees (V.shown view.new).kept s → (y : ℕ)
            → member y self.new.next.items ≡ (member y row.now && is_next (side_in (search_with search.update search.level s) w y))) }
    {
        self.clear();
        for x in row {
            let side = side_of(view, search, w, *x)?;
            self.add(*x, side)?;
        }
        Ok(())
    }
}

/// Where the neighbour `x` stands, as seen from `w`.
fn side_of<V: View>(view: &mut V, search: Search, w: u32, x: u32) -> Result<Side, PlanFault>
    requires vertex { x < (V.shown view.old).size }
    requires differ { w ≢ x }
    requires placed { has_core (V.shown view.old).kept w ≡ true }
    requires read { has_list (V.shown view.old).kept w ≡ true }
    requires neighbour { (member x (list_of (V.shown view.old).kept w) || joins search.update w x) ≡ true }
    ensures goes_on { GoesOn (V.shown view.old) (V.shown view.new) }
    ensures cause { IfErr result (λ fault. HasPlanCause (V.shown view.old) (V.shown view.new) fault) }
    ensures asks { OnOk result ((queue : List ℕ) → AsksQueued search.update (V.shown view.old).kept queue
        → AsksQueued search.update (V.shown view.new).kept queue) }
    ensures placed { OnOk result (has_core (V.shown view.new).kept x ≡ true) }
    ensures told { IfOk result (λ side. (s : Ranked) → Agrees (V.shown view.new).kept s → side ≡ side_in (search_with search.update search.level s) w x) }
{
    let core = core_of(view, x)?;
    if core > search.level {
        return Ok(Side::Higher);
    }
    if core < search.level {
        return Ok(Side::Before);
    }
    if stands_before(view, w, x)? {
        Ok(Side::Next)
    } else {
        Ok(Side::Before)
    }
}
