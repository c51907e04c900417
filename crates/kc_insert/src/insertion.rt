//! The plan of an update that adds an edge.
ghost use Rattle.std.specs.Prelude.{◌≡◌, ◌<◌, ◌⊎◌, min, [], true, slice_index, IfOk, OnOk, IfErr, OnErr, length};
ghost use Rattle.kc_graph.specs.Lawful.{Ranked};
ghost use Rattle.kc_view.specs.Answers.{Agrees, nothing_answered, answers_in, has_core};
ghost use Rattle.kc_view.specs.Answers.{core_of as core_told};
ghost use Rattle.kc_view.specs.Lists.{AreLists};
ghost use Rattle.kc_view.specs.Sure.{AreSure, AsksCores, AsksForward, IsPlanFor, WereNamedRead, root_of};
ghost use Rattle.kc_view.specs.Views.{GoesOn, HandsOut, HasPlanCause};
ghost use Rattle.kc_insert.specs.Added.{search_with};
ghost use Rattle.kc_insert.specs.Rising.{AsksQueued, IsTidyRising};
ghost use Rattle.kc_insert.specs.Searching.{Widened};
ghost use Rattle.kc_insert.specs.Sure.{AskForward};
ghost use Rattle.kc_insert.specs.Turns.{IsBetweenTurns};

use crate::rising::Rising;
use kc_graph::{Moves, Plan, Update};
use kc_view::{PlanFault, Search, View, core_of, has_edge, stands_before};
use std::alloc::Global;

/// The end from which the search goes, and its core number.
#[derive(Clone, Copy, Debug, Drop)]
struct Root {
    vertex: u32,
    level: u32,
}

/// Of the two ends, whose core numbers these are, the one of the lesser, or where these are equal the one that stands first.
fn first_end<V: View>(
    view: &mut V,
    update: Update,
    first: u32,
    second: u32,
) -> Result<u32, PlanFault>
    requires first { (has_core (V.shown view.old).kept update.u ≡ true) × (first ≡ core_told (V.shown view.old).kept update.u) }
    requires second { (has_core (V.shown view.old).kept update.v ≡ true) × (second ≡ core_told (V.shown view.old).kept update.v) }
    requires asks { AsksQueued update (V.shown view.old).kept [] }
    ensures goes_on { GoesOn (V.shown view.old) (V.shown view.new) }
    ensures cause { IfErr result (λ fault. HasPlanCause (V.shown view.old) (V.shown view.new) fault) }
    ensures asks { OnOk result (AsksQueued update (V.shown view.new).kept []) }
    ensures end { IfOk result (λ end. (end ≡ update.u) ⊎ (end ≡ update.v)) }
    ensures root { IfOk result (λ end. (s : Ranked) → Agrees (V.shown view.new).kept s → end ≡ root_of s update) }
{
    if first < second {
        return Ok(update.u);
    }
    if second < first {
        return Ok(update.v);
    }
    if stands_before(view, update.u, update.v)? {
        Ok(update.u)
    } else {
        Ok(update.v)
    }
}

/// The end from which the search goes, and its core number, which is the lesser of the two.
fn find_root<V: View>(view: &mut V, update: Update) -> Result<Root, PlanFault>
    requires vertex { update.v < (V.shown view.old).size }
    requires asks { AsksQueued update (V.shown view.old).kept [] }
    ensures goes_on { GoesOn (V.shown view.old) (V.shown view.new) }
    ensures cause { IfErr result (λ fault. HasPlanCause (V.shown view.old) (V.shown view.new) fault) }
    ensures asks { OnOk result (AsksQueued update (V.shown view.new).kept []) }
    ensures placed { OnOk result ((has_core (V.shown view.new).kept update.u ≡ true) × (has_core (V.shown view.new).kept update.v ≡ true)) }
    ensures end { IfOk result (λ root. (root.vertex ≡ update.u) ⊎ (root.vertex ≡ update.v)) }
    ensures level { IfOk result (λ root. (s : Ranked) → Agrees (V.shown view.new).kept s
        → root.level ≡ min (slice_index s.core update.u) (slice_index s.core update.v)) }
    ensures root { IfOk result (λ root. (s : Ranked) → Agrees (V.shown view.new).kept s → root.vertex ≡ root_of s update) }
{
    let first = core_of(view, update.u)?;
    let second = core_of(view, update.v)?;
    let level = first.min(second);
    let vertex = first_end(view, update, first, second)?;
    Ok(Root { vertex, level })
}

/// The search for the vertices that rise, from the root to its end.
fn find_rising<V: View>(view: &mut V, search: Search, root: u32) -> Result<Rising, PlanFault>
    requires ends { search.update.v < (V.shown view.old).size }
    requires end { (root ≡ search.update.u) ⊎ (root ≡ search.update.v) }
    requires placed { has_core (V.shown view.old).kept root ≡ true }
    requires asks { AsksQueued search.update (V.shown view.old).kept [] }
    ensures goes_on { GoesOn (V.shown view.old) (V.shown view.new) }
    ensures cause { IfErr result (λ fault. HasPlanCause (V.shown view.old) (V.shown view.new) fault) }
    ensures tidy { IfOk result (λ rising. IsTidyRising search.update (V.shown view.new) rising) }
    ensures ended { IfOk result (λ rising. rising.turn ≡ length rising.queue.items) }
    ensures turns { IfOk result (λ rising. (s : Ranked) → search.update.v < s.graph.size → Agrees (V.shown view.new).kept s
        → Widened (search_with search.update search.level s) root → IsBetweenTurns (search_with search.update search.level s) root rising) }
{
    let mut rising = Rising::start(search.alloc, root)?;
    rising.take_turns(view, search)?;
    Ok(rising)
}

/// The moves that keep core numbers and order right when the edge comes.
fn moves_of<V: View>(alloc: Global, view: &mut V, update: Update) -> Result<Moves, PlanFault>
    requires adds { update.add ≡ true }
    requires vertex { update.v < (V.shown view.old).size }
    requires fresh { (V.shown view.old).kept ≡ nothing_answered }
    ensures goes_on { GoesOn (V.shown view.old) (V.shown view.new) }
    ensures cause { IfErr result (λ fault. HasPlanCause (V.shown view.old) (V.shown view.new) fault) }
    ensures cores { OnOk result (AsksCores update (V.shown view.new).kept) }
    ensures asked { OnOk result (AskForward update (V.shown view.new).kept) }
    ensures named { IfOk result (WereNamedRead (V.shown view.new).kept) }
    ensures sure { IfOk result (AreSure update (V.shown view.new).kept) }
{
    if has_edge(view, update)? {
        return Ok(Moves::Kept);
    }
    let root = find_root(view, update)?;
    let level = root.level;
    let search = Search {
        alloc,
        update,
        level,
    };
    let rising = find_rising(view, search, root.vertex)?;
    let rise = rising.candidates(alloc)?;
    if rise.is_empty() && rising.shifts.is_empty() {
        return Ok(Moves::Plain);
    }
    let Rising { shifts, .. } = rising;
    Ok(Moves::Rise {
        level,
        rise,
        shifts,
    })
}

/// The plan of an update that adds an edge: which vertices gain one in their core number, in the order in which they then stand in front
/// of the next level, and which are put behind others of their level.
///
/// Where its answers are those of one certified state, the plan passes the local test there, so who rises is fixed. It moves each vertex
/// at most once, and only vertices that walks along the order reach from the end that stands first. That each of these moves is needed
/// is said by no clause: a plan may also put some of them behind others where nothing asks for it. Lists are asked only of the lesser end
/// and of vertices that such walks reach.
///
/// `Miss` comes only where a call on the view missed, and `NoMemory` where there is no memory, for the view or for the search. At `Ok` the
/// view has handed out, once, all that this call asked, and keeps nothing; after a fault it has handed out nothing, and keeps what it was
/// asked.
pub fn plan<V: View>(alloc: Global, view: &mut V, update: Update) -> Result<Plan, PlanFault>
    requires adds { update.add ≡ true }
    requires vertex { update.v < (V.shown view.old).size }
    requires fresh { (V.shown view.old).kept ≡ nothing_answered }
    ensures hands_out { OnOk result (HandsOut (V.shown view.old) (V.shown view.new)) }
    ensures goes_on { OnErr result (GoesOn (V.shown view.old) (V.shown view.new)) }
    ensures plan { IfOk result (IsPlanFor update) }
    ensures asked { IfOk result AsksForward }
    ensures given { IfOk result (λ plan. (V.shown view.new).is_given (answers_in plan.used)) }
    ensures lists { IfOk result (λ plan. AreLists (V.shown view.new).size plan.used.edges.items) }
    ensures cause { IfErr result (λ fault. HasPlanCause (V.shown view.old) (V.shown view.new) fault) }
{
    let moves = moves_of(alloc, view, update)?;
    let used = view.used();
    Ok(Plan {
        update,
        used,
        moves,
    })
}
