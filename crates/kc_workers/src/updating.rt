//! How an update is entered, whatever others do meanwhile.
ghost use Rattle.std.specs.Prelude.{◌≡◌, ◌<◌, ◌+◌, IfErr, IfOk, MatchResult};
ghost use Rattle.kc_table.specs.Legal.{Continues};
ghost use Rattle.kc_shared.specs.Answers.{entered_at};
ghost use Rattle.kc_workers.specs.Updates.{HasUpdateCause, IsUpdateDone};

use crate::assignment::Assignment;
use crate::done::Done;
use crate::entering::Entering;
use crate::gate::Gate;
use crate::worker::Worker;
use crate::workplace::Workplace;
use kc_shared::SharedFault;
use kc_table::{Name, split};
use kc_words::INDICES;
use std::sync::Wait;
use std::sync::ledger::{Ledger, Share};

/// Enters an update. The gate is called before each try with no lock held.
///
/// The worker makes at most `MISSES` plans without the journal's lock, and tries to enter each. Where all are lost it takes the lock, and
/// plans and enters under it. In either case the lists of both ends are published under the lock, where the edge changed.
///
/// At Ok the new `seen`, but not the old one, has the entry that the receipt names; which vertices it moved, the puts of its section tell.
/// There are at most `MISSES` misses, each true from the old `seen` to the new one. `Untold` has entered the update too. After each other
/// fault nothing of it is entered. `Full`: the entries after the new `seen`, together with those before the table, can't be numbered
/// further. `Spent`: the greatest version after the new `seen` leaves no room for the moves. `Stale` never comes: that is a miss. `part`
/// counts one more exactly where the update was entered, and no fault makes what the worker has seen shorter.
pub fn update<K: Name + Ledger, G: Gate, R: Wait>(
    rt: &R,
    workplace: Workplace<'_, K, G>,
    worker: &mut Worker,
    part: &mut Share<K>,
    assignment: Assignment,
) -> Result<Done, SharedFault>
    requires table { worker.old.table ≡ K.opened.table }
    requires part { 0 < part.old.parts }
    requires index { assignment.index < INDICES }
    requires within { assignment.update.v < K.opened.table.shape.fixed }
    ensures continues { Continues K.opened.table worker.old.log worker.new.table worker.new.log }
    ensures done { IfOk result (λ done. IsUpdateDone K.opened
        worker.old.log worker.new.log assignment.index assignment.update done) }
    ensures cause { IfErr result (λ fault. HasUpdateCause K.opened
        worker.old.log worker.new.log assignment.index assignment.update fault) }
    ensures amount { MatchResult result
        (λ _. part.new.amount ≡ part.old.amount + 1) (λ fault. part.new.amount ≡ part.old.amount + entered_at fault) }
    ensures parts { part.new.parts ≡ part.old.parts }
{
    let Workplace { shared, alloc, .. } = workplace;
    let since = split(&shared.words, &mut worker.pass);
    let entering = Entering {
        rt,
        workplace,
        assignment,
    };
    let mut misses = Vec::new(alloc);
    if let Some(receipt) = entering.without_lock(worker, part, &mut misses)? {
        return Ok(Done { receipt, misses });
    }
    let receipt = entering.under_lock(worker, part, &since, misses.as_slice())?;
    Ok(Done { receipt, misses })
}
