//! The state of a batch between two rounds, and what comes after a round.
ghost use Rattle.std.specs.Prelude.{◌≡◌, ◌<◌, ◌≤◌, ◌+◌, ◌++◌, ◌∷◌, [], All, IfOk, OnErr, OnOk, length, map, true, false, vec_len};
ghost use Rattle.kc_table.specs.Log.{PassSeen};
ghost use Rattle.kc_journal.specs.Journals.{Journalled, Stands};
ghost use Rattle.kc_levels.specs.declared.levels.TheConstants.{LAST_NUMBER};
ghost use Rattle.kc_queue.specs.Shares.{AreAllBelow};
ghost use Rattle.kc_shared.specs.States.{opened_by};
ghost use Rattle.kc_batch.specs.Batches.{Gives, IsStateOfBatch};
ghost use Rattle.kc_batch.specs.Desks.{KeepsOneOf, at_turns};
ghost use Rattle.kc_batch.specs.Runs.{IsNearlySpent, IsRenewal};
ghost use Rattle.kc_batch.specs.Seats.{AreTurnsOf, KeepsIfSpent};

use crate::desk::Desk;
use crate::left::Left;
use crate::standing::{Standing, standing_of};
use crate::turns::TurnQueue;
use kc_graph::NoMemory;
use kc_queue::Consumer;
use kc_shared::Parts;
use kc_table::Pass;
use std::alloc::{AllocError, Global};
use std::sync::Wait;

/// The parts of the run, the desks of its workers, and what was taken of the queue. The consumer has all parts of the queue.
#[derive(Drop)]
pub(crate) struct BatchState {
    pub parts: Parts,
    pub desks: Vec<Desk>,
    pub consumer: Consumer,
}

impl BatchState {
    /// What comes after a round. Where updates are kept, the run goes on in a fresh table, and they are entered there; where none is, what
    /// is left of the queue. Gives whether another round is needed. Memory may be wanted for a renewal, or may have run out in the round: then
    /// nothing changes.
    pub(crate) fn go_on<R: Wait>(
        &mut self,
        rt: &R,
        alloc: Global,
        turns: &TurnQueue<'_>,
        ended: &mut Vec<Pass>,
    ) -> Result<bool, NoMemory>
        ghost began: { Journalled }
        requires state { IsStateOfBatch began turns.now ended.old.items self.old }
        requires spent { All (λ d. KeepsIfSpent (opened_by self.old.parts.journal) self.old.parts.journal.levels.log d.work.left)
            self.old.desks.items }
        requires stands { Stands self.old.parts.journal }
        requires numbers { length began.entries + length turns.now.batch.updates.now ≤ LAST_NUMBER }
        requires turns { AreTurnsOf turns.now }
        requires some { 0 < vec_len self.old.desks }
        ensures as_many { vec_len self.new.desks ≡ vec_len self.old.desks }
        ensures size { self.new.parts.words.shape.fixed ≡ self.old.parts.words.shape.fixed }
        ensures state { IsStateOfBatch began turns.now ended.new.items self.new }
        ensures keeps { IfOk result (λ again. again ≡ true → All (λ d. KeepsOneOf turns.now.queue.count d.work.left) self.new.desks.items) }
        ensures whole { IfOk result (λ again. again ≡ false → AreAllBelow turns.now.queue.count
            (at_turns turns.now.order.items self.new.consumer.taken) × All (λ d. d.work.left ≡ Left.Nothing) self.new.desks.items) }
    {
        match standing_of(&self.desks) {
            Standing::Short => return Err(AllocError),
            Standing::Keeping => self.renew(alloc, ended)?,
            Standing::Free => {
                let Some(place) = turns.take(rt, &mut self.consumer) else {
                    return Ok(false);
                };
                self.give(place);
            }
        }
        Ok(true)
    }

    /// Gives the first worker the update at this place, which it keeps.
    fn give(&mut self, place: u32)
        requires some { 0 < vec_len self.old.desks }
        requires free { All (λ d. d.work.left ≡ Left.Nothing) self.old.desks.items }
        ensures parts { (self.new.parts ≡ self.old.parts) × (self.new.consumer ≡ self.old.consumer) }
        ensures as_many { vec_len self.new.desks ≡ vec_len self.old.desks }
        ensures given { Gives place self.old.desks.items self.new.desks.items }
    {
        let desk = &mut self.desks[0];
        desk.left = Left::Kept { place };
    }

    /// Goes on in a fresh table, and keeps a pass that has seen the whole log of the one that is ended. Where there is no memory for it
    /// nothing changes.
    fn renew(&mut self, alloc: Global, ended: &mut Vec<Pass>) -> Result<(), NoMemory>
        requires some { 0 < vec_len self.old.desks }
        requires table { All (λ d. d.seen.table ≡ self.old.parts.words) self.old.desks.items }
        requires spent { IsNearlySpent self.old.parts.journal.levels.table self.old.parts.journal.levels.log }
        ensures renewed { IfOk result (λ _. (last : PassSeen) × (ended.new.items ≡ ended.old.items ++ last ∷ [])
            × IsRenewal self.old.parts.journal last self.old.parts.journal self.new.parts.journal) }
        ensures of_words { OnOk result (self.new.parts.journal.levels.table ≡ self.new.parts.words) }
        ensures told { IfOk result (λ _. All (λ d. d.seen ≡ record { table = self.new.parts.words; log = [] }) self.new.desks.items) }
        ensures size { self.new.parts.words.shape.fixed ≡ self.old.parts.words.shape.fixed }
        ensures same { OnErr result ((self.new.parts ≡ self.old.parts) × (self.new.desks.items ≡ self.old.desks.items)
            × (ended.new.items ≡ ended.old.items)) }
        ensures works { map (λ d. d.work) self.new.desks.items ≡ map (λ d. d.work) self.old.desks.items }
        ensures consumer { self.new.consumer ≡ self.old.consumer }
    {
        self.parts.journal.recall_stands();
        ended.reserve(1)?;
        let mut passes = Vec::with_capacity(alloc, 1)?;
        let desk = &mut self.desks[0];
        passes.push_reserved(desk.split(&self.parts.words));
        let last = self.parts.renew(alloc, &mut passes)?;
        ended.push_reserved(last);
        let Some(mut fresh) = passes.pop() else {
            unreachable!()
        };
        move_all(&self.parts, &mut fresh, &mut self.desks);
        Ok(())
    }
}

/// Lets each worker go on in the table of the parts, of which it has seen what `fresh` has.
fn move_all(parts: &Parts, fresh: &mut Pass, desks: &mut Vec<Desk>)
    requires table { fresh.old.table ≡ parts.now.words }
    requires size { All (λ d. parts.now.words.shape.fixed ≡ d.seen.table.shape.fixed) desks.old.items }
    ensures works { map (λ d. d.work) desks.new.items ≡ map (λ d. d.work) desks.old.items }
    ensures seen { All (λ d. d.seen ≡ record { table = parts.now.words; log = fresh.old.log }) desks.new.items }
{
    for desk in desks.iter_mut() {
        desk.move_to(&parts.words, fresh);
    }
}
