//! The plan of an update that removes an edge.
ghost use Rattle.std.specs.Prelude.{◌≡◌, ◌≢◌, ◌<◌, ◌⊎◌, ℕ, min, [], true, false, slice_index, IfOk, OnOk, IfErr, OnErr};
ghost use Rattle.kc_marks.specs.Maps.{value_of};
ghost use Rattle.kc_graph.specs.Lawful.{Ranked};
ghost use Rattle.kc_cert.specs.Local.{moved_vertices};
ghost use Rattle.kc_view.specs.Answers.{Agrees, nothing_answered, answers_in};
ghost use Rattle.kc_view.specs.Lists.{AreLists};
ghost use Rattle.kc_view.specs.Sure.{AreSure, AsksFallen, IsPlanFor, WereNamedRead};
ghost use Rattle.kc_view.specs.Views.{GoesOn, HandsOut, HasPlanCause};
ghost use Rattle.kc_remove.specs.Cascade.{nobody};
ghost use Rattle.kc_remove.specs.Falling.{is_visited, AsksNear, IsTidyFalling, FallsIn, HasEnded};

use crate::falling::{Falling, Supported};
use kc_graph::{Moves, Plan, Update};
use kc_marks::SearchMarks;
use kc_view::{PlanFault, Search, View, core_of, has_edge};
use std::alloc::Global;

/// The lesser core number of the two ends.
fn level_of<V: View>(view: &mut V, update: Update) -> Result<u32, PlanFault>
    requires vertex { update.v < (V.shown view.old).size }
    requires asks { AsksNear update (V.shown view.old).kept [] }
    ensures goes_on { GoesOn (V.shown view.old) (V.shown view.new) }
    ensures cause { IfErr result (λ fault. HasPlanCause (V.shown view.old) (V.shown view.new) fault) }
    ensures asks { OnOk result (AsksNear update (V.shown view.new).kept []) }
    ensures told { IfOk result (λ level. (s : Ranked) → Agrees (V.shown view.new).kept s
        → level ≡ min (slice_index s.core update.u) (slice_index s.core update.v)) }
{
    let first = core_of(view, update.u)?;
    let second = core_of(view, update.v)?;
    Ok(first.min(second))
}

impl Falling {
    /// Visits an end of the edge, if its core number is that of the level.
    fn visit_end<V: View>(
        &mut self,
        view: &mut V,
        search: Search,
        end: u32,
    ) -> Result<(), PlanFault>
        requires vertex { end < (V.shown view.old).size }
        requires is_end { (end ≡ search.update.u) ⊎ (end ≡ search.update.v) }
        requires is_new { is_visited self.old end ≡ false }
        requires tidy { IsTidyFalling search.update (V.shown view.old) self.old }
        ensures goes_on { GoesOn (V.shown view.old) (V.shown view.new) }
        ensures cause { IfErr result (λ fault. HasPlanCause (V.shown view.old) (V.shown view.new) fault) }
        ensures tidy { OnOk result (IsTidyFalling search.update (V.shown view.new) self.new) }
        ensures others { OnOk result ((z : ℕ) → z ≢ end → value_of self.new.seen.marks z ≡ value_of self.old.seen.marks z) }
        ensures visited { OnOk result ((s : Ranked) → Agrees (V.shown view.new).kept s → slice_index s.core end ≡ search.level
            → is_visited self.new end ≡ true) }
        ensures falls { OnOk result ((s : Ranked) → Agrees (V.shown view.new).kept s → FallsIn search.update search.level s self.old 0 nobody
            → FallsIn search.update search.level s self.new 0 nobody) }
    {
        let core = core_of(view, end)?;
        if core == search.level {
            let supported = Supported {
                vertex: end,
                turns: 0,
            };
            self.visit(view, search, supported)?;
        }
        Ok(())
    }
}

/// All vertices that fall, from those of the two ends that do.
fn find_fallen<V: View>(view: &mut V, search: Search) -> Result<Falling, PlanFault>
    requires vertex { search.update.v < (V.shown view.old).size }
    requires asks { AsksNear search.update (V.shown view.old).kept [] }
    ensures goes_on { GoesOn (V.shown view.old) (V.shown view.new) }
    ensures cause { IfErr result (λ fault. HasPlanCause (V.shown view.old) (V.shown view.new) fault) }
    ensures tidy { IfOk result (λ falling. IsTidyFalling search.update (V.shown view.new) falling) }
    ensures ended { IfOk result (λ falling. (s : Ranked) → Agrees (V.shown view.new).kept s → HasEnded search.update search.level s falling) }
{
    let mut falling = Falling::new(search.alloc);
    falling.visit_end(view, search, search.update.u)?;
    falling.visit_end(view, search, search.update.v)?;
    falling.take_turns(view, search)?;
    Ok(falling)
}

/// The moves that keep core numbers and order right when the edge goes.
fn moves_of<V: View>(alloc: Global, view: &mut V, update: Update) -> Result<Moves, PlanFault>
    requires removes { update.add ≡ false }
    requires vertex { update.v < (V.shown view.old).size }
    requires fresh { (V.shown view.old).kept ≡ nothing_answered }
    ensures goes_on { GoesOn (V.shown view.old) (V.shown view.new) }
    ensures cause { IfErr result (λ fault. HasPlanCause (V.shown view.old) (V.shown view.new) fault) }
    ensures asks { IfOk result (λ moves. AsksNear update (V.shown view.new).kept (moved_vertices moves)) }
    ensures named { IfOk result (WereNamedRead (V.shown view.new).kept) }
    ensures sure { IfOk result (AreSure update (V.shown view.new).kept) }
{
    if !has_edge(view, update)? {
        return Ok(Moves::Kept);
    }
    let level = level_of(view, update)?;
    if level == 0 {
        return Ok(Moves::Plain);
    }
    let search = Search {
        alloc,
        update,
        level,
    };
    let Falling {
        seen: SearchMarks { weak, .. },
    } = find_fallen(view, search)?;
    if weak.is_empty() {
        return Ok(Moves::Plain);
    }
    Ok(Moves::Fall { level, fall: weak })
}

/// The plan of an update that removes an edge: which vertices lose one from their core number, in the order in which they then stand
/// behind all of the level below. It asks the lists of the lesser end, of the ends that may fall, and of neighbours of those that do.
///
/// `Miss` comes only where a call on the view missed, and `NoMemory` where there is no memory, for the view or for the search. At `Ok` the
/// view has handed out, once, all that this call asked, and keeps nothing; after a fault it has handed out nothing, and keeps what it was
/// asked.
pub fn plan<V: View>(alloc: Global, view: &mut V, update: Update) -> Result<Plan, PlanFault>
    requires removes { update.add ≡ false }
    requires vertex { update.v < (V.shown view.old).size }
    requires fresh { (V.shown view.old).kept ≡ nothing_answered }
    ensures hands_out { OnOk result (HandsOut (V.shown view.old) (V.shown view.new)) }
    ensures goes_on { OnErr result (GoesOn (V.shown view.old) (V.shown view.new)) }
    ensures plan { IfOk result (IsPlanFor update) }
    ensures asked { IfOk result AsksFallen }
    ensures given { IfOk result (λ plan. (V.shown view.new).is_given (answers_in plan.used)) }
    ensures lists { IfOk result (λ plan. AreLists (V.shown view.new).size plan.used.edges.items) }
    ensures cause { IfErr result (λ fault. HasPlanCause (V.shown view.old) (V.shown view.new) fault) }
{
    let moves = moves_of(alloc, view, update)?;
    let used = view.used();
    Ok(Plan {
        update,
        used,
        moves,
    })
}
