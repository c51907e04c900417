//! One who enters updates into the state that is shared.
ghost use Rattle.std.specs.Prelude.{◌≡◌, ◌<◌, IfSome};
ghost use mathlib.Core.List.{IsPrefix};
ghost use Rattle.kc_view.specs.Sure.{IsSure};
ghost use Rattle.kc_shared.specs.Answers.{WasReadBy};

use kc_graph::{Plan, Update};
use kc_journal::{EnterFault, Receipt};
use kc_shared::{Shared, SharedFault};
use kc_table::{Name, Pass, Words, shape};
use kc_view::PlanFault;
use kc_words::INDICES;
use kc_workers::{Worker, plan};
use std::process::Abort;
use std::sync::Wait;
use std::sync::ledger::{Ledger, Share};

/// How often a worker goes over its edges. It is odd, so at the end all of them are there.
const ROUNDS: u32 = 101;

/// One who enters updates: a worker, and its part of the ledger.
#[derive(Drop)]
pub(crate) struct Entrant<K: Name + Ledger> {
    worker: Worker,
    pub(crate) part: Share<K>,
    ghost table: { worker.table ≡ K.opened.table },
    ghost one_part: { part.parts ≡ 1 },
}

impl<K: Name + Ledger> Entrant<K> {
    /// One who has this part of the ledger, and has seen what the pass has.
    pub(crate) fn hire<R: Abort + AllocGlobal>(
        rt: &R,
        words: &Words,
        pass: Pass,
        part: Share<K>,
    ) -> Entrant<K>
        requires table { (words.now ≡ K.opened.table) × (pass.table ≡ K.opened.table) }
        requires part { part.parts ≡ 1 }
    {
        match Worker::new(rt.alloc(), words, pass) {
            Ok(worker) => Entrant { worker, part },
            Err(_) => panic!(rt; "no memory"),
        }
    }

    /// What it has seen, and its part of the ledger.
    pub(crate) fn end(self) -> (Pass, Share<K>)
        ensures { (result.0.table ≡ K.opened.table) × (result.1.parts ≡ 1) }
    {
        let Entrant { worker, part } = self;
        (worker.pass, part)
    }

    /// A plan of an update, made of what the pass has seen then. There is none where a word changed beneath it.
    fn plan<R: Wait + Abort + AllocGlobal>(
        &mut self,
        rt: &R,
        shared: &Shared<K>,
        update: Update,
    ) -> Option<Plan>
        requires { update.v < K.opened.table.shape.fixed }
        ensures longer { IsPrefix self.old.worker.log self.new.worker.log }
        ensures update { IfSome result (λ plan. plan.update ≡ update) }
        ensures sure { IfSome result IsSure }
        ensures read { IfSome result (WasReadBy K.opened self.new.worker.log) }
    {
        let (words, stripes) = (&shared.words, &shared.stripes);
        match plan(rt, rt.alloc(), words, stripes, &mut self.worker, update) {
            Ok(plan) => Some(plan),
            Err(PlanFault::Miss(_)) => None,
            Err(PlanFault::NoMemory) => panic!(rt; "no memory"),
        }
    }

    /// A plan of an update while nobody stores, so that no word changes beneath it.
    pub(crate) fn plan_alone<R: Wait + Abort + AllocGlobal>(
        &mut self,
        rt: &R,
        shared: &Shared<K>,
        update: Update,
    ) -> Plan
        requires { update.v < K.opened.table.shape.fixed }
        ensures longer { IsPrefix self.old.worker.log self.new.worker.log }
        ensures update { result.update ≡ update }
        ensures sure { IsSure result }
        ensures read { WasReadBy K.opened self.new.worker.log result }
    {
        match self.plan(rt, shared, update) {
            Some(plan) => plan,
            None => panic!(rt; "a word changed beneath a plan"),
        }
    }

    /// Enters a plan.
    pub(crate) fn enter<R: Wait>(
        &mut self,
        rt: &R,
        shared: &Shared<K>,
        index: u32,
        plan: &Plan,
    ) -> Result<Receipt, SharedFault>
        requires index { index < INDICES }
        requires within { plan.now.update.v < K.opened.table.shape.fixed }
        requires sure { IsSure plan.now }
        requires read { WasReadBy K.opened self.old.worker.log plan.now }
        ensures { IsPrefix self.old.worker.log self.new.worker.log }
    {
        let Entrant { worker, part } = self;
        shared.enter(rt, &mut worker.pass, part, index, plan)
    }

    /// Enters an update, by as many tries as it takes.
    pub(crate) fn enter_at_last<R: Wait + Abort + AllocGlobal>(
        &mut self,
        rt: &R,
        shared: &Shared<K>,
        index: u32,
        update: Update,
    ) -> Receipt
        requires index { index < INDICES }
        requires within { update.v < K.opened.table.shape.fixed }
    {
        for _ in rt.forever() {
            let Some(plan) = self.plan(rt, shared, update) else {
                continue;
            };
            match self.enter(rt, shared, index, &plan) {
                Ok(receipt) => return receipt,
                Err(SharedFault::Enter(EnterFault::Stale { .. })) => {}
                Err(fault) => panic!(rt; "{fault}"),
            }
        }
        unreachable!()
    }

    /// Adds these edges and removes them in turn, while others do so with theirs.
    pub(crate) fn go_over<R: Wait + Abort + AllocGlobal>(
        mut self,
        rt: &R,
        shared: &Shared<K>,
        edges: &[(u32, u32)],
    ) -> Entrant<K> {
        let vertices = shape(&shared.words).fixed;
        for round in 0..ROUNDS {
            for (u, v) in edges {
                assert!(rt; *u < *v && *v < vertices);
                let update = Update {
                    add: round % 2 == 0,
                    u: *u,
                    v: *v,
                };
                let receipt = self.enter_at_last(rt, shared, round, update);
                assert_eq!(rt; (receipt.index, receipt.applied), (round, true));
            }
        }
        self
    }
}
