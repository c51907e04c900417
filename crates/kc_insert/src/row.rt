//! The neighbours of a vertex once the edge is there.
ghost use Rattle.std.specs.Prelude.{◌≡◌, ◌≢◌, ◌<◌, ◌||◌, ◌⊎◌, ℕ, List, true, false, nat_eq, MatchOption, OnOk, IfErr};
ghost use Rattle.std.specs.List.Sorted.{IsStrictlyIncreasing};
ghost use Rattle.kc_lists.specs.Lists.{member};
ghost use Rattle.kc_graph.specs.Rows.{IsPlace};
ghost use Rattle.kc_view.specs.Answers.{has_list, list_of};
ghost use Rattle.kc_view.specs.Lists.{IsListOf};
ghost use Rattle.kc_view.specs.Views.{KeepsLists, GoesOn, TellsList, HasPlanCause};
ghost use Rattle.kc_graph.specs.Plans.{joins};
ghost use Rattle.kc_insert.specs.Rising.{AsksQueued};

use kc_graph::{NoMemory, Update};
use kc_view::{PlanFault, View, degree_of};

/// The other end of the edge, where `w` is one.
fn other_end(update: Update, w: u32) -> Option<u32>
    ensures { MatchOption result ((y : ℕ) → joins update w y ≡ false) (λ other. ((y : ℕ) → joins update w y ≡ nat_eq y other)
        × ((other ≡ update.u) ⊎ (other ≡ update.v)) × (other ≢ w)) }
{
    if w == update.u {
        Some(update.v)
    } else if w == update.v {
        Some(update.u)
    } else {
        None
    }
}

/// Fills the row with the list of `w`, which was read.
fn copy_to<V: View>(view: &V, w: u32, row: &mut Vec<u32>) -> Result<(), NoMemory>
    requires read { has_list (V.shown view.now).kept w ≡ true }
    requires lists { KeepsLists (V.shown view.now) }
    ensures same { OnOk result (row.new.items ≡ list_of (V.shown view.now).kept w) }
    ensures list { OnOk result (IsListOf (V.shown view.now).size w row.new.items) }
{
    row.clear();
    row.extend_from_slice(view.list(w))?;
    Ok(())
}

/// Where a vertex stands in an ascending list, or else where it has to go.
fn place_in(row: &[u32], other: u32) -> Result<usize, usize>
    requires { IsStrictlyIncreasing row.now }
    ensures { IsPlace row.now other result }
{
    row.binary_search(&other)
}

/// Puts a vertex into an ascending list, if it is not there.
fn put_in(row: &mut Vec<u32>, other: u32) -> Result<(), NoMemory>
    requires { IsStrictlyIncreasing row.old.items }
    ensures ascends { OnOk result (IsStrictlyIncreasing row.new.items) }
    ensures has { OnOk result ((y : ℕ) → member y row.new.items ≡ (member y row.old.items || nat_eq y other)) }
{
    if let Err(place) = place_in(row, other) {
        row.insert(place, other)?;
    }
    Ok(())
}

/// Fills the row with the neighbours of `w` once the edge is there, ascending: its list, with the other end where `w` is one. What stood
/// in the row before is gone; a search keeps one row for all its vertices, which takes memory only where a list is longer than any before.
pub(crate) fn fill_row<V: View>(
    view: &mut V,
    update: Update,
    w: u32,
    row: &mut Vec<u32>,
) -> Result<(), PlanFault>
    requires vertex { w < (V.shown view.old).size }
    requires ends { update.v < (V.shown view.old).size }
    ensures goes_on { GoesOn (V.shown view.old) (V.shown view.new) }
    ensures cause { IfErr result (λ fault. HasPlanCause (V.shown view.old) (V.shown view.new) fault) }
    ensures told { OnOk result (TellsList (V.shown view.old).kept (V.shown view.new).kept w) }
    ensures asks { OnOk result ((queue : List ℕ) → AsksQueued update (V.shown view.old).kept queue → (w ≡ update.u) ⊎ (member w queue ≡ true)
        → AsksQueued update (V.shown view.new).kept queue) }
    ensures row { OnOk result (IsListOf (V.shown view.new).size w row.new.items) }
    ensures has { OnOk result ((y : ℕ) → member y row.new.items ≡ (member y (list_of (V.shown view.new).kept w) || joins update w y)) }
{
    degree_of(view, w)?;
    copy_to(view, w, row)?;
    if let Some(other) = other_end(update, w) {
        put_in(row, other)?;
    }
    Ok(())
}
