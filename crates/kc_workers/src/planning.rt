//! One plan over a loose view that is made for it.
ghost use Rattle.std.specs.Prelude.{◌≡◌, ◌<◌, IfErr, IfOk};
ghost use Rattle.kc_view.specs.Answers.{answers_in, nothing_answered};
ghost use Rattle.kc_view.specs.Sure.{IsPlanFor};
ghost use Rattle.kc_view.specs.Views.{HasPlanCause};
ghost use Rattle.kc_table.specs.Legal.{Continues};
ghost use Rattle.kc_agree.specs.Reads.{From};
ghost use Rattle.kc_stripes.specs.Reads.{HasLooseCause, WereReadSince};

use crate::worker::Worker;
use kc_graph::{Plan, Update};
use kc_stripes::{Loose, Moment, Stripes};
use kc_table::{Name, Words, meet, split};
use kc_view::{PlanFault, Scratch, View};
use std::alloc::Global;
use std::marker::Brand;
use std::mem;
use std::sync::Wait;

/// The plan of an update over a view, by the planner that it is for.
fn plan_over<V: View>(alloc: Global, view: &mut V, update: Update) -> Result<Plan, PlanFault>
    requires vertex { update.v < (V.shown view.old).size }
    requires fresh { (V.shown view.old).kept ≡ nothing_answered }
    ensures plan { IfOk result (IsPlanFor update) }
    ensures given { IfOk result (λ plan. (V.shown view.new).is_given (answers_in plan.used)) }
    ensures cause { IfErr result (λ fault. HasPlanCause (V.shown view.old) (V.shown view.new) fault) }
{
    if update.add {
        kc_insert::plan(alloc, view, update)
    } else {
        kc_remove::plan(alloc, view, update)
    }
}

/// A plan that is read while others change what it reads. `S` is what the worker has seen.
fn plan_since<K: Name, S: Moment, R: Wait>(
    rt: &R,
    alloc: Global,
    words: &Words,
    stripes: &Stripes<K>,
    worker: &mut Worker,
    update: Update,
) -> Result<Plan, PlanFault>
    requires table { (words.now ≡ K.opened.table) × (worker.old.table ≡ K.opened.table) }
    requires start { worker.old.log ≡ S.log }
    requires vertex { update.v < K.opened.table.shape.fixed }
    ensures continues { Continues K.opened.table S.log worker.new.table worker.new.log }
    ensures plan { IfOk result (IsPlanFor update) }
    ensures read { IfOk result (λ plan. WereReadSince K.opened S.log worker.new.log (answers_in plan.used)) }
    ensures cause { IfErr result (λ fault. HasLooseCause K.opened.table S.log worker.new.log fault) }
{
    let Worker { pass, scratch } = worker;
    let own = split(words, pass);
    let lent = mem::replace(scratch, Scratch::none(alloc));
    let mut view = Loose::<K, S, R>::new(rt, alloc, words, stripes, own, lent);
    let planned = plan_over(alloc, &mut view, update);
    let (own, lent) = view.end();
    *scratch = lent;
    meet(words, pass, own);
    planned
}

/// A plan of an update, read over a loose view while others change what it reads. It takes locks of stripes, and the worker's marks, which
/// it leaves clear.
///
/// The plan is sure, and what it rests on was so of the log that the worker has seen then, each place since the call began. `Miss` comes
/// only where two loads of a word since then differed, and `NoMemory` where there is none, for the view or for the planner. Whatever it
/// answers, the worker has seen what it had seen, and all that it has seen is legal.
pub fn plan<K: Name, R: Wait>(
    rt: &R,
    alloc: Global,
    words: &Words,
    stripes: &Stripes<K>,
    worker: &mut Worker,
    update: Update,
) -> Result<Plan, PlanFault>
    requires table { (words.now ≡ K.opened.table) × (worker.old.table ≡ K.opened.table) }
    requires vertex { update.v < K.opened.table.shape.fixed }
    ensures continues { Continues K.opened.table worker.old.log worker.new.table worker.new.log }
    ensures plan { IfOk result (IsPlanFor update) }
    ensures from { IfOk result (λ plan. From plan K.opened.table K.opened.edges worker.new.log) }
    ensures since { IfOk result (λ plan. WereReadSince K.opened worker.old.log worker.new.log
        (answers_in plan.used)) }
    ensures cause { IfErr result (λ fault. HasLooseCause K.opened.table worker.old.log worker.new.log fault) }
{
    plan_since::<K, Brand, R>(rt, alloc, words, stripes, worker, update)
}
