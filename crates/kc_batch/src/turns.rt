//! The updates of a batch, in the order in which they are taken.
ghost use Rattle.std.specs.Prelude.{◌≡◌, ◌<◌, ◌++◌, ◌∷◌, [], IfNone, IfSome};
ghost use Rattle.kc_queue.specs.declared.consumer.TheConstants.{PARTS};
ghost use Rattle.kc_queue.specs.Shares.{IsShare, AreAllBelow};
ghost use Rattle.kc_batch.specs.Desks.{at_turns};

use crate::indexed::IndexedBatch;
use kc_queue::{Consumer, WorkQueue};
use std::sync::Wait;

/// A batch with a queue of turns, one for each of its updates, and for each turn the place of the update that is taken then.
#[derive(Drop)]
pub(crate) struct TurnQueue<'a> {
    pub batch: IndexedBatch<'a>,
    pub queue: WorkQueue,
    pub order: Vec<u32>,
}

impl TurnQueue<'_> {
    /// Takes the next turn, and gives the place that has it. There is none where the queue was found empty.
    pub(crate) fn take<R: Wait>(&self, rt: &R, consumer: &mut Consumer) -> Option<u32>
        requires queue { consumer.old.queue ≡ self.now.queue }
        requires order { AreAllBelow self.now.queue.count self.now.order.items }
        ensures same { (consumer.new.queue ≡ consumer.old.queue) × (consumer.new.parts ≡ consumer.old.parts) }
        ensures taken { IfSome result (λ place. at_turns self.now.order.items consumer.new.taken
            ≡ at_turns self.now.order.items consumer.old.taken ++ place ∷ []) }
        ensures below { IfSome result (λ place. place < self.now.queue.count) }
        ensures none { IfNone result (consumer.new ≡ consumer.old) }
        ensures all { IfNone result (consumer.old.parts ≡ PARTS
            → AreAllBelow self.now.queue.count (at_turns self.now.order.items consumer.old.taken)) }
        ensures share { IsShare self.now.queue.count consumer.new.taken }
    {
        let turn = self.queue.take(rt, consumer)?;
        Some(self.order[turn as usize])
    }
}
