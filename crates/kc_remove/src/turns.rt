//! The turns of the fallen: what each takes from its neighbours.
ghost use Rattle.std.specs.Prelude.{◌≡◌, ◌<◌, ◌++◌, ◌+◌, ℕ, List, [], ◌∷◌, true, false, length, slice_index, OnOk, IfErr};
ghost use Rattle.kc_lists.specs.Lists.{member};
ghost use Rattle.kc_graph.specs.Lawful.{Ranked};
ghost use Rattle.kc_view.specs.Answers.{Agrees, has_list, list_of};
ghost use Rattle.kc_view.specs.Views.{KeepsLists, GoesOn, HasPlanCause};
ghost use Rattle.kc_remove.specs.Cascade.{nobody};
ghost use Rattle.kc_remove.specs.Removed.{has_come};
ghost use Rattle.kc_remove.specs.Falling.{is_visited, IsTidyFalling, FallsIn};

use crate::falling::{Falling, Supported};
use crate::support::joins;
use kc_view::{PlanFault, Search, View, core_of, degree_of};

/// The turn of a vertex that fell: the vertex, and its place on the list of the fallen.
#[derive(Clone, Copy, Drop)]
struct Turn {
    vertex: u32,
    place: usize,
}

impl Falling {
    /// The vertex whose turn it is comes to its neighbour `y`: this is visited now, or has one less if it had looked at that vertex.
    /// If it has not looked there yet, it loses nothing: it will find that the vertex is gone.
    fn come_to<V: View>(
        &mut self,
        view: &mut V,
        search: Search,
        turn: Turn,
        y: u32,
    ) -> Result<(), PlanFault>
        requires vertex { y < (V.shown view.old).size }
        requires turn { turn.place < length self.old.seen.weak.items }
        requires at { slice_index self.old.seen.weak.items turn.place ≡ turn.vertex }
        requires read { has_list (V.shown view.old).kept turn.vertex ≡ true }
        requires neighbour { member y (list_of (V.shown view.old).kept turn.vertex) ≡ true }
        requires tidy { IsTidyFalling search.update (V.shown view.old) self.old }
        ensures goes_on { GoesOn (V.shown view.old) (V.shown view.new) }
        ensures cause { IfErr result (λ fault. HasPlanCause (V.shown view.old) (V.shown view.new) fault) }
        ensures tidy { OnOk result (IsTidyFalling search.update (V.shown view.new) self.new) }
        ensures still { OnOk result ((z : ℕ) → is_visited self.old z ≡ true → is_visited self.new z ≡ true) }
        ensures longer { OnOk result (turn.place < length self.new.seen.weak.items) }
        ensures at { OnOk result (slice_index self.new.seen.weak.items turn.place ≡ turn.vertex) }
        ensures falls { OnOk result ((s : Ranked) (row : List ℕ) → Agrees (V.shown view.new).kept s → member y row ≡ false
            → FallsIn search.update search.level s self.old turn.place (has_come search.update s turn.vertex row)
            → FallsIn search.update search.level s self.new turn.place (has_come search.update s turn.vertex (row ++ y ∷ []))) }
    {
        if joins(search.update, turn.vertex, y) {
            return Ok(());
        }
        let supported = Supported {
            vertex: y,
            turns: turn.place + 1,
        };
        let core = core_of(view, y)?;
        if core != search.level {
            return Ok(());
        }
        let Some(found) = self.seen.find(y) else {
            self.visit(view, search, supported)?;
            return Ok(());
        };
        if found.has_looked(turn.vertex) {
            self.count_on(view, search, supported, found.count.less())?;
        }
        Ok(())
    }

    /// The vertex whose turn it is, and whose list was read and is of this length, comes to each of its neighbours.
    fn come_to_each<V: View>(
        &mut self,
        view: &mut V,
        search: Search,
        turn: Turn,
        degree: u32,
    ) -> Result<(), PlanFault>
        requires turn { turn.place < length self.old.seen.weak.items }
        requires at { slice_index self.old.seen.weak.items turn.place ≡ turn.vertex }
        requires read { has_list (V.shown view.old).kept turn.vertex ≡ true }
        requires degree { degree ≡ length (list_of (V.shown view.old).kept turn.vertex) }
        requires lists { KeepsLists (V.shown view.old) }
        requires tidy { IsTidyFalling search.update (V.shown view.old) self.old }
        ensures goes_on { GoesOn (V.shown view.old) (V.shown view.new) }
        ensures cause { IfErr result (λ fault. HasPlanCause (V.shown view.old) (V.shown view.new) fault) }
        ensures tidy { OnOk result (IsTidyFalling search.update (V.shown view.new) self.new) }
        ensures still { OnOk result ((z : ℕ) → is_visited self.old z ≡ true → is_visited self.new z ≡ true) }
        ensures longer { OnOk result (turn.place < length self.new.seen.weak.items) }
        ensures falls { OnOk result ((s : Ranked) → Agrees (V.shown view.new).kept s → FallsIn search.update search.level s self.old turn.place nobody
            → FallsIn search.update search.level s self.new (turn.place + 1) nobody) }
    {
        for i in 0..degree {
            let y = view.list(turn.vertex)[i as usize];
            self.come_to(view, search, turn, y)?;
        }
        Ok(())
    }

    /// The turn of the fallen vertex at this place of the list.
    fn take_turn<V: View>(
        &mut self,
        view: &mut V,
        search: Search,
        place: usize,
    ) -> Result<(), PlanFault>
        requires turn { place < length self.old.seen.weak.items }
        requires tidy { IsTidyFalling search.update (V.shown view.old) self.old }
        ensures goes_on { GoesOn (V.shown view.old) (V.shown view.new) }
        ensures cause { IfErr result (λ fault. HasPlanCause (V.shown view.old) (V.shown view.new) fault) }
        ensures tidy { OnOk result (IsTidyFalling search.update (V.shown view.new) self.new) }
        ensures still { OnOk result ((z : ℕ) → is_visited self.old z ≡ true → is_visited self.new z ≡ true) }
        ensures longer { OnOk result (place < length self.new.seen.weak.items) }
        ensures falls { OnOk result ((s : Ranked) → Agrees (V.shown view.new).kept s → FallsIn search.update search.level s self.old place nobody
            → FallsIn search.update search.level s self.new (place + 1) nobody) }
    {
        let vertex = self.seen.weak[place];
        let degree = degree_of(view, vertex)?;
        let turn = Turn { vertex, place };
        self.come_to_each(view, search, turn, degree)
    }

    /// Goes through the list of the fallen from the front, as it grows.
    pub(crate) fn take_turns<V: View>(
        &mut self,
        view: &mut V,
        search: Search,
    ) -> Result<(), PlanFault>
        requires tidy { IsTidyFalling search.update (V.shown view.old) self.old }
        ensures goes_on { GoesOn (V.shown view.old) (V.shown view.new) }
        ensures cause { IfErr result (λ fault. HasPlanCause (V.shown view.old) (V.shown view.new) fault) }
        ensures tidy { OnOk result (IsTidyFalling search.update (V.shown view.new) self.new) }
        ensures still { OnOk result ((z : ℕ) → is_visited self.old z ≡ true → is_visited self.new z ≡ true) }
        ensures falls { OnOk result ((s : Ranked) → Agrees (V.shown view.new).kept s → FallsIn search.update search.level s self.old 0 nobody
            → FallsIn search.update search.level s self.new (length self.new.seen.weak.items) nobody) }
    {
        let mut place = 0;
        while place < self.seen.weak.len() {
            self.take_turn(view, search, place)?;
            place += 1;
        }
        Ok(())
    }
}
