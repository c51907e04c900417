//! A worker's desk in one round.
ghost use Rattle.std.specs.Prelude.{◌≡◌, ◌<◌, All, IfNone, IfSome, is_ok, length, true, vec_len, vec_capacity};
ghost use Rattle.kc_batch.specs.Seats.{AreTurnsOf, CanGoOn, KeepsIfSpent, WorksOn, noted};

use crate::desk::Desk;
use crate::left::Left;
use crate::turns::TurnQueue;
use kc_journal::EnterFault;
use kc_queue::Consumer;
use kc_shared::SharedFault;
use kc_table::Name;
use kc_workers::{Assignment, Done, Gate, Workplace, update};
use std::marker::Model;
use std::sync::Wait;
use std::sync::ledger::{Ledger, Share};

/// The words of two lines of a cache.
pub(crate) const APART: usize = 16;

/// A desk for one round, with one part of the ledger and one of the queue of turns.
#[derive(Drop)]
pub(crate) struct Seat<K: Name + Ledger> {
    pub desk: Desk,
    pub part: Share<K>,
    pub consumer: Consumer,
    pub number: u32,
    /// Keeps the seat apart from the next one, which another thread changes.
    pub apart: [u64; APART],
}

impl<K: Name + Ledger> Model for Seat<K> {
    ghost use Rattle.std.specs.Prelude.{◌≡◌};
    ghost use Rattle.kc_batch.specs.Seats.{Seated};

    ghost Value = { Seated };

    ghost view = { λ s. record {
      seen = s.desk.seen;
      work = s.desk.work;
      amount = s.part.amount;
      consumer = s.consumer;
      number = s.number;
    } };

    ghost invariant = { λ s. (s.desk.seen.table ≡ K.opened.table) × (s.part.parts ≡ 1) };
}

impl<K: Name + Ledger> Seat<K> {
    /// Enters updates until none is left, until the gate ends the round, or until it can't go on: what it has kept first, then what it takes
    /// of the queue. Where the versions of the table are spent, or the entries can't be numbered further, it keeps the update that it could
    /// not enter.
    pub(crate) fn work<G: Gate, R: Wait>(
        &mut self,
        rt: &R,
        workplace: &Workplace<'_, K, G>,
        turns: &TurnQueue<'_>,
    )
        requires queue { self.old.consumer.queue ≡ turns.now.queue }
        requires turns { AreTurnsOf turns.now }
        requires ready { CanGoOn K.opened K.log (length turns.now.batch.updates.now) self.old }
        requires within { All (λ u. u.v < K.opened.table.shape.fixed) turns.now.batch.updates.now }
        ensures works { WorksOn K.opened K.log turns.now self.old self.new }
        ensures spent { KeepsIfSpent K.opened self.new.seen.log self.new.work.left }
    {
        for _ in rt.forever() {
            let Some(place) = self.pick(rt, turns) else {
                return;
            };
            if !self.enter(rt, workplace, turns, place) {
                return;
            }
            if workplace.gate.ends_round() {
                return;
            }
        }
        unreachable!()
    }

    /// The place of the update that is to be entered next: the one that is kept, or else the next of the queue, which is kept from then on.
    /// There is none where the queue was found empty.
    fn pick<R: Wait>(&mut self, rt: &R, turns: &TurnQueue<'_>) -> Option<u32>
        requires queue { self.old.consumer.queue ≡ turns.now.queue }
        requires turns { AreTurnsOf turns.now }
        requires ready { CanGoOn K.opened K.log (length turns.now.batch.updates.now) self.old }
        ensures works { WorksOn K.opened K.log turns.now self.old self.new }
        ensures kept { IfSome result (λ place. self.new.work.left ≡ Left.Kept place) }
        ensures below { IfSome result (λ place. place < length turns.now.batch.updates.now) }
        ensures none { IfNone result (self.new.work.left ≡ Left.Nothing) }
    {
        let Seat { desk, consumer, .. } = self;
        let Desk { left, .. } = desk;
        if let Left::Kept { place } = *left {
            return Some(place);
        }
        let place = turns.take(rt, consumer)?;
        *left = Left::Kept { place };
        Some(place)
    }

    /// Enters the update at this place, which is kept until then. Gives whether the worker may go on.
    fn enter<G: Gate, R: Wait>(
        &mut self,
        rt: &R,
        workplace: &Workplace<'_, K, G>,
        turns: &TurnQueue<'_>,
        place: u32,
    ) -> bool
        requires kept { self.old.work.left ≡ Left.Kept place }
        requires place { place < length turns.now.batch.updates.now }
        requires turns { AreTurnsOf turns.now }
        requires ready { CanGoOn K.opened K.log (length turns.now.batch.updates.now) self.old }
        requires within { All (λ u. u.v < K.opened.table.shape.fixed) turns.now.batch.updates.now }
        ensures works { WorksOn K.opened K.log turns.now self.old self.new }
        ensures goes_on { result ≡ true → self.new.work.left ≡ Left.Nothing }
        ensures spent { KeepsIfSpent K.opened self.new.seen.log self.new.work.left }
    {
        let Seat {
            desk,
            part,
            number,
            ..
        } = self;
        let Desk { worker, done, left } = desk;
        if done.reserve(1).is_err() {
            *left = Left::Dropped { place };
            return false;
        }
        let batch = turns.batch;
        let assignment = Assignment {
            worker: *number,
            index: batch.first + place,
            update: batch.updates[place as usize],
        };
        let Workplace {
            shared,
            gate,
            alloc,
        } = *workplace;
        let workplace = Workplace {
            shared,
            gate,
            alloc,
        };
        let outcome = update(rt, workplace, worker, part, assignment);
        note(done, left, place, outcome)
    }
}

/// Notes what became of the update at this place. Gives whether it is entered and told.
fn note(
    done: &mut Vec<Done>,
    left: &mut Left,
    place: u32,
    outcome: Result<Done, SharedFault>,
) -> bool
    requires room { vec_len done.old < vec_capacity done.old }
    ensures noted { noted place outcome (record { done = done.old.items; left = left.old })
        ≡ record { done = done.new.items; left = left.new } }
    ensures result { result ≡ is_ok outcome }
{
    match outcome {
        Ok(one) => {
            done.push_reserved(one);
            *left = Left::Nothing;
            true
        }
        Err(SharedFault::Untold(receipt)) => {
            *left = Left::Untold { receipt };
            false
        }
        Err(SharedFault::Enter(EnterFault::NoMemory)) => {
            *left = Left::Dropped { place };
            false
        }
        Err(SharedFault::Enter(_)) => false,
    }
}
