//! Questions to a view, with the planner's faults.
ghost use Rattle.std.specs.Prelude.{◌≡◌, ◌≢◌, ◌<◌, ℕ, true, length, IfOk, OnOk, IfErr};
ghost use Rattle.kc_lists.specs.Lists.{member};
ghost use Rattle.kc_view.specs.Answers.{nothing_answered, has_list, list_of, has_core, core_of, with_order};
ghost use Rattle.kc_view.specs.Sure.{AsksOneList};
ghost use Rattle.kc_view.specs.Views.{KeepsLists, GoesOn, TellsList, TellsCore, HasPlanCause};

use crate::fault::PlanFault;
use crate::view::View;
use kc_graph::Update;

/// The number of neighbours of `w`, as `View::degree` tells it.
pub fn degree_of<V: View>(view: &mut V, w: u32) -> Result<u32, PlanFault>
    requires { w < (V.shown view.old).size }
    ensures goes_on { GoesOn (V.shown view.old) (V.shown view.new) }
    ensures told { OnOk result (TellsList (V.shown view.old).kept (V.shown view.new).kept w) }
    ensures lists { KeepsLists (V.shown view.new) }
    ensures length { IfOk result (λ n. n ≡ length (list_of (V.shown view.new).kept w)) }
    ensures cause { IfErr result (λ fault. HasPlanCause (V.shown view.old) (V.shown view.new) fault) }
{
    Ok(view.degree(w)?)
}

/// The core number of `w`, as `View::core` tells it.
pub fn core_of<V: View>(view: &mut V, w: u32) -> Result<u32, PlanFault>
    requires { w < (V.shown view.old).size }
    ensures goes_on { GoesOn (V.shown view.old) (V.shown view.new) }
    ensures told { OnOk result (TellsCore (V.shown view.old).kept (V.shown view.new).kept w) }
    ensures lists { KeepsLists (V.shown view.new) }
    ensures core { IfOk result (λ k. k ≡ core_of (V.shown view.new).kept w) }
    ensures cause { IfErr result (λ fault. HasPlanCause (V.shown view.old) (V.shown view.new) fault) }
{
    Ok(view.core(w)?)
}

/// Whether `x` stands before `y`, as `View::precedes` tells it.
pub fn stands_before<V: View>(view: &mut V, x: u32, y: u32) -> Result<bool, PlanFault>
    requires differ { x ≢ y }
    requires first { has_core (V.shown view.old).kept x ≡ true }
    requires second { has_core (V.shown view.old).kept y ≡ true }
    ensures goes_on { GoesOn (V.shown view.old) (V.shown view.new) }
    ensures lists { KeepsLists (V.shown view.new) }
    ensures told { IfOk result (λ before. (V.shown view.new).kept ≡ with_order (V.shown view.old).kept (record { x = x; y = y; before = before })) }
    ensures cause { IfErr result (λ fault. HasPlanCause (V.shown view.old) (V.shown view.new) fault) }
{
    Ok(view.precedes(x, y)?)
}

/// Whether the list of `x`, which was read, has `y`. It is looked for by halving.
pub fn is_neighbour<V: View>(view: &V, x: u32, y: u32) -> bool
    requires read { has_list (V.shown view.now).kept x ≡ true }
    requires lists { KeepsLists (V.shown view.now) }
    ensures { result ≡ member y (list_of (V.shown view.now).kept x) }
{
    view.list(x).binary_search(&y).is_ok()
}

/// Whether the list of the lesser end has the other one: whether the edge is there. It is what a planner asks first.
pub fn has_edge<V: View>(view: &mut V, update: Update) -> Result<bool, PlanFault>
    requires vertex { update.v < (V.shown view.old).size }
    requires fresh { (V.shown view.old).kept ≡ nothing_answered }
    ensures goes_on { GoesOn (V.shown view.old) (V.shown view.new) }
    ensures cause { IfErr result (λ fault. HasPlanCause (V.shown view.old) (V.shown view.new) fault) }
    ensures asks { OnOk result (AsksOneList (V.shown view.new).kept update.u) }
    ensures read { OnOk result (has_list (V.shown view.new).kept update.u ≡ true) }
    ensures told { IfOk result (λ there. there ≡ member update.v (list_of (V.shown view.new).kept update.u)) }
{
    degree_of(view, update.u)?;
    Ok(is_neighbour(view, update.u, update.v))
}
