//! The queue itself: filled once, then emptied by its consumers.
ghost use Rattle.std.specs.Prelude.{◌≡◌, ◌<◌, ◌+◌, ◌-◌, ◌++◌, ◌∷◌, [], ℕ, true, IfOk, IfSome, IfNone};
ghost use Rattle.crossbeam_queue.specs.Passes.{view, IsPassOf, ruled_capacity};
ghost use Rattle.kc_lists.specs.Lists.{member};
ghost use Rattle.kc_queue.specs.declared.consumer.TheConstants.{PARTS};
ghost use Rattle.kc_queue.specs.Dealt.{hand};
ghost use Rattle.kc_queue.specs.Shares.{IsShare, AreAllBelow};

use crate::NoMemory;
use crate::consumer::Consumer;
use crate::dealing::{Dealing, Hand, Owns, Part, PutsNumber, TakesNumber};
use crossbeam_queue::{Pass, RuledArrayQueue};
use std::alloc::Global;
use std::marker::Model;
use std::sync::Wait;

type RuledQueue = RuledArrayQueue<u32, Hand, Dealing>;

/// The numbers 0 to `count - 1`, in order, each to be taken once. Contracts see which queue it is, and `count`.
#[derive(Drop)]
pub struct WorkQueue {
    line: RuledQueue,
}

impl Model for WorkQueue {
    ghost use Rattle.kc_queue.specs.Shares.{FilledQueue};

    ghost Value = { FilledQueue };

    ghost view = { λ q. record { id = q.line.table.shared.table_id; count = q.line.cap } };
}

impl WorkQueue {
    /// A queue of the numbers 0 to `count - 1`, and its first consumer, which has all parts and has taken nothing. A batch without updates
    /// has no queue.
    pub fn filled<R: Wait>(
        rt: &R,
        alloc: Global,
        count: u32,
    ) -> Result<(WorkQueue, Consumer), NoMemory>
        requires some { 0 < count }
        ensures count { IfOk result (λ r. r.0.count ≡ count) }
        ensures consumer { IfOk result (λ r. r.1 ≡ record { queue = r.0; parts = PARTS; taken = [] }) }
    {
        let (line, mut pass) = RuledQueue::ruled(alloc, count as usize)?;
        fill(rt, &line, &mut pass, count);
        Ok((WorkQueue { line }, Consumer { pass }))
    }

    /// A consumer with one of the parts, for another worker. It has taken nothing.
    pub fn split(&self, consumer: &mut Consumer) -> Consumer
        requires queue { consumer.old.queue ≡ self.now }
        requires parts { 1 < consumer.old.parts }
        ensures left { consumer.new ≡ record consumer.old { parts = consumer.old.parts - 1 } }
        ensures result { result ≡ record { queue = self.now; parts = 1; taken = [] } }
    {
        let pass = self.line.another::<Part>(&mut consumer.pass);
        Consumer { pass }
    }

    /// Takes the next number. A consumer takes in the queue's order: the number is above all that it has taken itself.
    ///
    /// `None` tells that the queue was empty at one moment of the call, and who has all parts has then taken all numbers. To others it tells
    /// nothing, since nobody knows what others have taken.
    pub fn take<R: Wait>(&self, rt: &R, consumer: &mut Consumer) -> Option<u32>
        requires queue { consumer.old.queue ≡ self.now }
        ensures taken { IfSome result (λ x. consumer.new ≡ record consumer.old { taken = consumer.old.taken ++ x ∷ [] }) }
        ensures below { IfSome result (λ x. x < self.now.count) }
        ensures next { IfSome result (λ x. (y : ℕ) → member y consumer.old.taken ≡ true → y < x) }
        ensures none { IfNone result (consumer.new ≡ consumer.old) }
        ensures all { IfNone result (consumer.old.parts ≡ PARTS → AreAllBelow self.now.count consumer.old.taken) }
        ensures share { IsShare self.now.count consumer.new.taken }
    {
        self.line.pop_as::<TakesNumber, R>(rt, &mut consumer.pass)
    }

    /// Gives one consumer the parts and the numbers of another. No number comes twice in what the two have taken.
    pub fn join(&self, consumer: &mut Consumer, other: Consumer)
        requires queue { consumer.old.queue ≡ self.now }
        requires other { other.queue ≡ self.now }
        ensures both { consumer.new ≡ record consumer.old { parts = consumer.old.parts + other.parts; taken = consumer.old.taken ++ other.taken } }
        ensures share { IsShare self.now.count consumer.new.taken }
    {
        self.line.absorb::<Part>(&mut consumer.pass, other.pass);
        self.line.learn_as::<Owns>(&mut consumer.pass);
    }
}

// Puts the numbers 0 to `count - 1`. The queue has room for just these.
fn fill<R: Wait>(rt: &R, line: &RuledQueue, pass: &mut Pass<u32, Hand>, count: u32)
    requires pass { IsPassOf line.now pass.old × (view pass.old ≡ hand PARTS 0 []) }
    requires room { ruled_capacity line.now ≡ count }
    ensures { IsPassOf line.now pass.new × (view pass.new ≡ hand PARTS count []) }
{
    for number in 0..count {
        let Ok(()) = line.push_as::<PutsNumber, R>(rt, pass, number) else {
            unreachable!()
        };
    }
}
