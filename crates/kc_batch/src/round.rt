//! One round of workers, in as many threads as their gate says.
ghost use Rattle.std.specs.Prelude.{◌≡◌, ◌<◌, ◌≤◌, ◌+◌, ◌++◌, ℕ, [], All, IfErr, IfOk, length, map, slice_index_or, vec_len, vec_capacity};
ghost use Rattle.std.specs.List.{AllZip};
ghost use mathlib.Core.List.{IsPrefix};
ghost use Rattle.kc_queue.specs.declared.consumer.TheConstants.{PARTS, WORKERS};
ghost use Rattle.kc_queue.specs.Shares.{IsShare};
ghost use Rattle.kc_batch.specs.Desks.{KeepsOneOf};
ghost use Rattle.kc_batch.specs.Runs.{StaysIn};
ghost use Rattle.kc_batch.specs.Seats.{AreTurnsOf, CanGoOn, IsFreshSeat, KeepsIfSpent, RoundsOn, Seated, WorksOn};
ghost use Rattle.kc_batch.specs.Seats.{all_taken, amounts, desk_of};

use crate::desk::Desk;
use crate::seat::{APART, Seat};
use crate::state::BatchState;
use crate::turns::TurnQueue;
use kc_queue::{Consumer, WorkQueue};
use kc_shared::{Parts, Shared};
use kc_table::Name;
use kc_workers::{Gate, Workplace};
use std::alloc::Global;
use std::sync::Wait;
use std::sync::ledger::{Blank, Ledger, Share};
use std::thread;
use std::thread::Threads;

/// Gives each desk one part of the ledger and one of the queue, and the number of its place. The list of desks keeps its room.
fn take_seats<K: Name + Ledger>(
    queue: &WorkQueue,
    consumer: &mut Consumer,
    part: &mut Share<K>,
    desks: &mut Vec<Desk>,
    mut seats: Vec<Seat<K>>,
) -> Vec<Seat<K>>
    requires table { All (λ d. d.seen.table ≡ K.opened.table) desks.old.items }
    requires queue { consumer.old.queue ≡ queue.now }
    requires parts { (vec_len desks.old ≡ part.old.parts) × (part.old.amount ≡ 0) × (vec_len desks.old < consumer.old.parts) }
    requires room { (seats.items ≡ []) × (vec_len desks.old ≤ vec_capacity seats) }
    requires few { vec_len desks.old ≤ WORKERS }
    ensures seated { map desk_of result.items ≡ desks.old.items }
    ensures fresh { All (IsFreshSeat queue.now) result.items }
    ensures numbered { (i : ℕ) (d : Seated) → i < length result.items → (slice_index_or result.items i d).number ≡ i }
    ensures part { (part.new.parts ≡ 0) × (part.new.amount ≡ 0) }
    ensures left { (consumer.new.queue ≡ queue.now) × (consumer.new.parts + vec_len desks.old ≡ consumer.old.parts)
        × (consumer.new.taken ≡ consumer.old.taken) }
    ensures desks { (desks.new.items ≡ []) × (vec_len desks.old ≤ vec_capacity desks.new) }
{
    for desk in desks.drain(..) {
        let own = queue.split(consumer);
        let number = seats.len() as u32;
        seats.push_reserved(Seat {
            desk,
            part: part.split_off(1, 0),
            consumer: own,
            number,
            apart: [0; APART],
        });
    }
    seats
}

/// How many updates those who are seated have entered in this call.
fn entered_by<K: Name + Ledger>(seats: &[Seat<K>]) -> usize {
    let mut entered: usize = 0;
    for seat in seats {
        entered = entered.saturating_add(seat.desk.done.len());
    }
    entered
}

/// Lets each worker work, in as many threads as the gate says where they can be made, but no more than there are updates left.
fn work_all<K: Name + Ledger + Send + Sync, G: Gate + Sync, R: Threads + Wait + Sync>(
    rt: &R,
    workplace: &Workplace<'_, K, G>,
    turns: &TurnQueue<'_>,
    seats: &mut [Seat<K>],
)
    requires queue { All (λ s. s.consumer.queue ≡ turns.now.queue) seats.old }
    requires turns { AreTurnsOf turns.now }
    requires ready { All (CanGoOn K.opened K.log (length turns.now.batch.updates.now)) seats.old }
    requires within { All (λ u. u.v < K.opened.table.shape.fixed) turns.now.batch.updates.now }
    requires some { 0 < length seats.old }
    ensures works { AllZip (λ a b. WorksOn K.opened K.log turns.now a b × KeepsIfSpent K.opened b.seen.log b.work.left)
        seats.old seats.new }
{
    let gate = workplace.gate;
    let before = entered_by(seats);
    let left = turns.batch.updates.len().saturating_sub(before);
    let threads = gate.begin_round(seats.len(), left).min(left).max(1);
    thread::for_each_mut(
        rt,
        seats,
        threads,
        &|_, seat|
            requires { (seat.old.consumer.queue ≡ turns.now.queue) × AreTurnsOf turns.now
                × CanGoOn K.opened K.log (length turns.now.batch.updates.now) seat.old
                × All (λ u. u.v < K.opened.table.shape.fixed) turns.now.batch.updates.now }
            ensures { WorksOn K.opened K.log turns.entry.now seat.old seat.new
                × KeepsIfSpent K.opened seat.new.seen.log seat.new.work.left }
        { seat.work(rt, workplace, turns) },
    );
    gate.end_round(entered_by(seats).saturating_sub(before));
}

/// Takes each desk back, and joins the parts of the ledger and of the queue.
fn leave_seats<K: Name + Ledger>(
    queue: &WorkQueue,
    consumer: &mut Consumer,
    part: &mut Share<K>,
    seats: Vec<Seat<K>>,
    desks: &mut Vec<Desk>,
)
    requires queue { consumer.old.queue ≡ queue.now }
    requires seats { All (λ s. (s.consumer.queue ≡ queue.now) × (s.consumer.parts ≡ 1)) seats.items }
    requires room { (desks.old.items ≡ []) × (vec_len seats ≤ vec_capacity desks.old) }
    requires share { IsShare queue.now.count consumer.old.taken }
    ensures desks { desks.new.items ≡ map desk_of seats.items }
    ensures table { All (λ d. d.seen.table ≡ K.opened.table) desks.new.items }
    ensures part { (part.new.parts ≡ part.old.parts + vec_len seats) × (part.new.amount ≡ part.old.amount + amounts seats.items) }
    ensures all { (consumer.new.queue ≡ queue.now) × (consumer.new.parts ≡ consumer.old.parts + vec_len seats)
        × (consumer.new.taken ≡ consumer.old.taken ++ all_taken seats.items) }
    ensures share { IsShare queue.now.count consumer.new.taken }
{
    for seat in seats {
        let Seat {
            desk,
            part: own,
            consumer: taken,
            ..
        } = seat;
        part.merge(own);
        queue.join(consumer, taken);
        desks.push_reserved(desk);
    }
}

/// Tells each worker the whole log of the journal.
pub(crate) fn tell_all(parts: &mut Parts, desks: &mut Vec<Desk>)
    requires table { All (λ d. d.seen.table ≡ parts.old.words) desks.old.items }
    ensures same { parts.new ≡ parts.old }
    ensures works { map (λ d. d.work) desks.new.items ≡ map (λ d. d.work) desks.old.items }
    ensures told { All (λ d. d.seen ≡ record { table = parts.old.words; log = parts.old.journal.levels.log }) desks.new.items }
    ensures longer { All (λ d. IsPrefix d.seen.log parts.old.journal.levels.log) desks.old.items }
{
    for desk in desks.iter_mut() {
        desk.tell(parts);
    }
}

/// One round: each worker enters what it has kept, and what it takes of the queue, until none is left there, the gate ends the round, or it
/// can't go on. Where there is no memory for the round, all is given back as it was.
pub(crate) fn run_round<K: Name + Ledger + Send + Sync, G: Gate + Sync, R: Threads + Wait + Sync>(
    rt: &R,
    alloc: Global,
    blank: Blank,
    state: BatchState,
    turns: &TurnQueue<'_>,
    gate: &G,
) -> Result<BatchState, BatchState>
    requires words { state.parts.words ≡ K.opened.table }
    requires opened { (state.parts.journal.opened ≡ K.opened.edges) × (state.parts.journal.opening_stamps ≡ K.opened.stamps) }
    requires started { state.parts.journal.started ≡ K.start_edges }
    requires now { (state.parts.journal.levels.log ≡ K.log) × (state.parts.journal.entries ≡ K.entries) }
    requires ledger { (blank.name ≡ K.name) × (blank.parts ≡ K.parts) × (K.parts ≡ vec_len state.desks) }
    requires some { (0 < vec_len state.desks) × (vec_len state.desks ≤ WORKERS) }
    requires told { All (λ d. d.seen ≡ record { table = K.opened.table; log = K.log }) state.desks.items }
    requires keeps { All (λ d. KeepsOneOf (length turns.now.batch.updates.now) d.work.left) state.desks.items }
    requires consumer { (state.consumer.queue ≡ turns.now.queue) × (state.consumer.parts ≡ PARTS)
        × IsShare turns.now.queue.count state.consumer.taken }
    requires turns { AreTurnsOf turns.now }
    requires within { All (λ u. u.v < K.opened.table.shape.fixed) turns.now.batch.updates.now }
    ensures same { IfErr result (λ back. back ≡ state) }
    ensures words { IfOk result (λ after. after.parts.words ≡ K.opened.table) }
    ensures stays { IfOk result (λ after. StaysIn state.parts.journal after.parts.journal) }
    ensures quiet { IfOk result (λ after. length after.parts.journal.entries ≡ length state.parts.journal.entries
        → after.parts.journal.levels.log ≡ state.parts.journal.levels.log) }
    ensures told { IfOk result (λ after.
        All (λ d. d.seen ≡ record { table = K.opened.table; log = after.parts.journal.levels.log }) after.desks.items) }
    ensures rounds { IfOk result (λ after. (made : ℕ) × (length after.parts.journal.entries ≡ length state.parts.journal.entries + made)
        × RoundsOn K.opened K.log after.parts.journal.levels.log turns.now
        (map (λ d. d.work) state.desks.items) (map (λ d. d.work) after.desks.items) state.consumer.taken after.consumer.taken made) }
    ensures consumer { IfOk result (λ after. (after.consumer.queue ≡ turns.now.queue) × (after.consumer.parts ≡ PARTS)
        × IsShare turns.now.queue.count after.consumer.taken) }
{
    state.parts.journal.recall_stands();
    let count = state.desks.len();
    let Ok(seats) = Vec::with_capacity(alloc, count) else {
        return Err(state);
    };
    let BatchState {
        parts,
        mut desks,
        mut consumer,
    } = state;
    let (shared, mut part) = match Shared::<K>::new(alloc, parts, blank) {
        Ok(opened) => opened,
        Err((parts, _)) => {
            return Err(BatchState {
                parts,
                desks,
                consumer,
            });
        }
    };
    let mut seats = take_seats(&turns.queue, &mut consumer, &mut part, &mut desks, seats);
    let workplace = Workplace {
        shared: &shared,
        gate,
        alloc,
    };
    work_all(rt, &workplace, turns, &mut seats);
    leave_seats(&turns.queue, &mut consumer, &mut part, seats, &mut desks);
    let mut parts = shared.into_parts(part);
    parts.journal.recall_stands();
    tell_all(&mut parts, &mut desks);
    Ok(BatchState {
        parts,
        desks,
        consumer,
    })
}
