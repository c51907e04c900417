//! One update, on its way into the journal.
ghost use Rattle.std.specs.Prelude.{◌≡◌, ◌<◌, ◌≤◌, ◌+◌, [], All, IfErr, IfOk, MatchOption, MatchResult, OnOk, length};
ghost use mathlib.Core.List.{IsPrefix};
ghost use Rattle.kc_words.specs.declared.layout.TheConstants.{INDICES};
ghost use Rattle.kc_table.specs.Legal.{Continues};
ghost use Rattle.kc_shared.specs.Answers.{IsReceipt, IsToldEntry, MayBeToldIf, entered_at};
ghost use Rattle.kc_shared.specs.Misses.{IsTrueMiss};
ghost use Rattle.kc_workers.specs.Updates.{HasRefusalCause, HasUpdateCause, IsAttempt, entered_in, entered_of};

use crate::assignment::Assignment;
use crate::attempt::{Attempt, attempt_of};
use crate::gate::Gate;
use crate::planning::plan;
use crate::worker::Worker;
use crate::workplace::Workplace;
use kc_journal::{EnterFault, Entered, Receipt, plan_held};
use kc_shared::{Kept, MISSES, Missed, PlannedUpdate, Shared, SharedFault};
use kc_table::{Name, Pass};
use kc_view::{PlanFault, Scratch};
use std::mem;
use std::sync::Wait;
use std::sync::ledger::{Ledger, Share};

/// An update that a worker is to enter at its workplace.
#[derive(Drop)]
pub(crate) struct Entering<'a, K: Name + Ledger, G: Gate, R: Wait> {
    pub(crate) rt: &'a R,
    pub(crate) workplace: Workplace<'a, K, G>,
    pub(crate) assignment: Assignment,
    ghost index_fits: { assignment.index < INDICES },
    ghost within: { assignment.update.v < K.opened.table.shape.fixed },
}

impl<K: Name + Ledger, G: Gate, R: Wait> Entering<'_, K, G, R> {
    /// Makes a plan while others change what it reads, and tries to enter it. A word that changed between two loads of the plan is a miss,
    /// and so is a stamp that is stale by then. Each other refusal of the plan is answered. The memory of the plan's answers goes back to the
    /// worker.
    fn attempt(&self, worker: &mut Worker, part: &mut Share<K>) -> Result<Attempt, SharedFault>
        requires table { worker.old.table ≡ K.opened.table }
        requires part { 0 < part.old.parts }
        ensures continues { Continues K.opened.table worker.old.log worker.new.table worker.new.log }
        ensures attempt { IfOk result (λ attempt. IsAttempt K.opened
            worker.old.log worker.new.log self.now.assignment.index self.now.assignment.update attempt) }
        ensures cause { IfErr result (λ fault. HasUpdateCause K.opened
            worker.old.log worker.new.log self.now.assignment.index self.now.assignment.update fault) }
        ensures amount { MatchResult result
            (λ attempt. part.new.amount ≡ part.old.amount + entered_in attempt) (λ fault. part.new.amount ≡ part.old.amount + entered_at fault) }
        ensures parts { part.new.parts ≡ part.old.parts }
    {
        let Workplace {
            shared,
            gate,
            alloc,
        } = self.workplace;
        let Assignment {
            worker: number,
            index,
            update,
        } = self.assignment;
        let Shared { words, stripes, .. } = shared;
        match plan(self.rt, alloc, words, stripes, worker, update) {
            Ok(plan) => {
                gate.before_enter(number, index);
                let Worker { pass, scratch } = worker;
                let entered = shared.enter(self.rt, pass, part, index, &plan);
                scratch.take_back(plan.used);
                match entered {
                    Ok(receipt) => Ok(Attempt::Entered(receipt)),
                    Err(fault) => attempt_of(fault),
                }
            }
            Err(PlanFault::Miss(again)) => Ok(Attempt::Missed(Missed::Order(again))),
            Err(PlanFault::NoMemory) => Err(SharedFault::Enter(EnterFault::NoMemory)),
        }
    }

    /// Makes attempts until one is entered, or `MISSES` were lost. Each miss is kept. Where memory runs out for keeping one, nothing was
    /// entered yet.
    pub(crate) fn without_lock(
        &self,
        worker: &mut Worker,
        part: &mut Share<K>,
        misses: &mut Vec<Missed>,
    ) -> Result<Option<Receipt>, SharedFault>
        requires table { worker.old.table ≡ K.opened.table }
        requires part { 0 < part.old.parts }
        requires none { misses.old.items ≡ [] }
        ensures continues { Continues K.opened.table worker.old.log worker.new.table worker.new.log }
        ensures few { OnOk result (length misses.new.items ≤ MISSES) }
        ensures misses { OnOk result (All (IsTrueMiss K.opened
            worker.old.log worker.new.log) misses.new.items) }
        ensures entered { IfOk result (λ entered. MatchOption entered (length misses.new.items ≡ MISSES) (λ receipt.
            IsReceipt K.opened worker.old.log worker.new.log self.now.assignment.index self.now.assignment.update
            receipt)) }
        ensures cause { IfErr result (λ fault. HasUpdateCause K.opened
            worker.old.log worker.new.log self.now.assignment.index self.now.assignment.update fault) }
        ensures amount { MatchResult result
            (λ entered. part.new.amount ≡ part.old.amount + entered_of entered) (λ fault. part.new.amount ≡ part.old.amount + entered_at fault) }
        ensures parts { part.new.parts ≡ part.old.parts }
    {
        'attempts: while misses.len() < MISSES {
            match self.attempt(worker, part)? {
                Attempt::Entered(receipt) => return Ok(Some(receipt)),
                Attempt::Missed(missed) => misses.push(missed)?,
            }
        }
        Ok(None)
    }

    /// Plans under the lock and enters there, and publishes before it gives the lock back. It is for one who shows `MISSES` true misses.
    pub(crate) fn under_lock(
        &self,
        worker: &mut Worker,
        part: &mut Share<K>,
        since: &Pass,
        misses: &[Missed],
    ) -> Result<Receipt, SharedFault>
        requires table { (worker.old.table ≡ K.opened.table) × (since.now.table ≡ K.opened.table) }
        requires part { 0 < part.old.parts }
        requires longer { IsPrefix since.now.log worker.old.log }
        requires count { length misses.now ≡ MISSES }
        requires misses { All (IsTrueMiss K.opened since.now.log worker.old.log) misses.now }
        ensures continues { Continues K.opened.table worker.old.log worker.new.table worker.new.log }
        ensures entered { IfOk result (λ receipt. IsReceipt K.opened
            worker.old.log worker.new.log self.now.assignment.index self.now.assignment.update receipt) }
        ensures cause { IfErr result (λ fault. HasUpdateCause K.opened
            worker.old.log worker.new.log self.now.assignment.index self.now.assignment.update fault) }
        ensures amount { MatchResult result
            (λ _. part.new.amount ≡ part.old.amount + 1) (λ fault. part.new.amount ≡ part.old.amount + entered_at fault) }
        ensures parts { part.new.parts ≡ part.old.parts }
    {
        let Workplace { shared, gate, .. } = self.workplace;
        gate.before_enter(self.assignment.worker, self.assignment.index);
        let mut kept = shared.hold(self.rt, since, &worker.pass, misses);
        let entered = self.enter_held(&mut *kept, worker, part)?;
        self.publish(worker, entered)
    }

    /// Plans over the journal that is held, and enters the plan. No stamp of it can be stale. The worker is told the whole log.
    fn enter_held(
        &self,
        kept: &mut Kept<K>,
        worker: &mut Worker,
        part: &mut Share<K>,
    ) -> Result<Entered, EnterFault>
        requires table { worker.old.table ≡ K.opened.table }
        requires part { 0 < part.old.parts }
        ensures continues { Continues K.opened.table worker.old.log worker.new.table worker.new.log }
        ensures entered { IfOk result (λ entered. IsToldEntry K.opened
            worker.old.log worker.new.log self.now.assignment.index self.now.assignment.update entered) }
        ensures cause { IfErr result (HasRefusalCause K.opened worker.new.log) }
        ensures amount { MatchResult result (λ _. part.new.amount ≡ part.old.amount + 1) (λ _. part.new.amount ≡ part.old.amount) }
        ensures parts { part.new.parts ≡ part.old.parts }
    {
        let Workplace { shared, alloc, .. } = self.workplace;
        let Assignment { index, update, .. } = self.assignment;
        let Worker { pass, scratch } = worker;
        let lent = mem::replace(scratch, Scratch::none(alloc));
        let (planned, lent) = plan_held(alloc, kept.journal(), lent, update);
        *scratch = lent;
        let Ok(plan) = planned else {
            kept.tell(&shared.words, pass);
            return Err(EnterFault::NoMemory);
        };
        let planned = PlannedUpdate { index, plan: &plan };
        kept.enter_and_tell(&shared.words, pass, part, planned, None)
    }

    /// Publishes the lists of both ends of what was entered, where the edge changed.
    fn publish(&self, worker: &mut Worker, entered: Entered) -> Result<Receipt, SharedFault>
        requires table { worker.old.table ≡ K.opened.table }
        requires told { MayBeToldIf K.opened
            worker.old.log self.now.assignment.update entered.receipt.place entered.receipt.applied entered.lists }
        ensures same { worker.new ≡ worker.old }
        ensures receipt { IfOk result (λ receipt. receipt ≡ entered.receipt) }
        ensures cause { IfErr result (λ fault. fault ≡ SharedFault.Untold entered.receipt) }
    {
        let Entered { receipt, lists } = entered;
        let Some(lists) = lists else {
            return Ok(receipt);
        };
        let Workplace { shared, .. } = self.workplace;
        let Worker { pass, .. } = worker;
        match shared.publish(self.rt, pass, self.assignment.update, receipt.place, lists) {
            Ok(()) => Ok(receipt),
            Err(_) => Err(SharedFault::Untold(receipt)),
        }
    }
}
