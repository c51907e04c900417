//! How an update is looked at, planned over a journal, and entered.
ghost use Rattle.std.specs.Prelude.{◌≡◌, ◌<◌, IfErr, IfOk, MatchOption, OnErr, OnOk};
ghost use Rattle.kc_levels.specs.Levels.{size_of};
ghost use Rattle.kc_journal.specs.Journals.{ranked};
ghost use Rattle.kc_keeper.specs.Causes.{EndsAreWithin, IsFirstOutside};
ghost use Rattle.kc_keeper.specs.Earlier.{AreKept, KeepsEarlier, Renumbers};
ghost use Rattle.kc_keeper.specs.Keepers.{IsPlanned, IsUpdated, MayRefuse};

use crate::earlier::EarlierNumbers;
use kc_graph::{NoMemory, Plan, Update};
use kc_journal::{EnterFault, Journal, plan_held};
use kc_table::{Pass, Words};
use kc_view::Scratch;
use std::alloc::Global;
use std::mem;

/// The first update of a batch whose greater end is no vertex, with its place and that end; none where each end is a vertex.
pub fn first_outside(updates: &[Update], vertices: u32) -> Option<(usize, u32)>
    ensures { MatchOption result (EndsAreWithin vertices updates.now) (λ first. IsFirstOutside vertices updates.now first.0 first.1) }
{
    for (place, update) in updates.iter().enumerate() {
        if update.v >= vertices {
            return Some((place, update.v));
        }
    }
    None
}

/// Plans an update over a journal, and keeps the numbers that vertices have before the plan's moves.
pub(crate) fn plan_update(
    alloc: Global,
    journal: &Journal,
    scratch: &mut Scratch,
    earlier: &mut EarlierNumbers,
    update: Update,
) -> Result<Plan, NoMemory>
    requires marks { scratch.old ≡ size_of journal.now.levels }
    requires vertex { update.v < size_of journal.now.levels }
    ensures marks { scratch.new ≡ scratch.old }
    ensures planned { IfOk result (IsPlanned journal.now update) }
    ensures kept { KeepsEarlier journal.now.levels.core journal.now.levels.core earlier.old earlier.new }
    ensures moved { IfOk result (λ plan. AreKept plan.moves earlier.new) }
{
    journal.recall_stands();
    let lent = mem::replace(scratch, Scratch::none(alloc));
    let (planned, lent) = plan_held(alloc, journal, lent, update);
    *scratch = lent;
    let plan = planned?;
    earlier.keep_moved(&plan.moves, journal.core_numbers())?;
    Ok(plan)
}

/// Enters a plan that was made of the journal as it is, and tells whether the edge changed.
pub(crate) fn enter_plan(
    words: &Words,
    journal: &mut Journal,
    pass: &mut Pass,
    plan: &Plan,
) -> Result<bool, EnterFault>
    requires table { journal.old.levels.table ≡ words.now }
    requires told { pass.old.table ≡ words.now }
    requires planned { IsPlanned journal.old plan.now.update plan.now }
    ensures table { journal.new.levels.table ≡ words.now }
    ensures told { pass.new.table ≡ words.now }
    ensures size { size_of journal.new.levels ≡ size_of journal.old.levels }
    ensures made { IfOk result (λ applied. IsUpdated plan.now.update (ranked journal.old) (ranked journal.new) applied) }
    ensures moved { OnOk result (Renumbers plan.now.moves journal.old.levels.core journal.new.levels.core) }
    ensures same { OnErr result (journal.new ≡ journal.old) }
    ensures cause { IfErr result (λ fault. MayRefuse journal.old fault) }
{
    journal.recall_stands();
    match journal.enter(words, pass, 0, plan, None) {
        Ok(entered) => Ok(entered.receipt.applied),
        Err(fault) => Err(fault),
    }
}
