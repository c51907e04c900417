//! A worker's desk, which lives over the rounds of a call.
ghost use Rattle.std.specs.Prelude.{◌≡◌};
ghost use mathlib.Core.List.{IsPrefix};

use crate::left::Left;
use kc_shared::Parts;
use kc_table::{Pass, Words, split};
use kc_workers::{Done, Worker};
use std::marker::Model;

/// A worker with what it has entered in this call and what it has left of what it took.
#[derive(Drop)]
pub(crate) struct Desk {
    pub worker: Worker,
    pub done: Vec<Done>,
    pub left: Left,
}

impl Model for Desk {
    ghost use Rattle.kc_batch.specs.Desks.{Desked};

    ghost Value = { Desked };

    ghost view = { λ d. record { seen = d.worker; work = record { done = d.done.items; left = d.left } } };
}

impl Desk {
    /// Tells the worker the whole log, of which it had seen a prefix.
    pub(crate) fn tell(&mut self, parts: &mut Parts)
        requires table { self.old.seen.table ≡ parts.old.words }
        ensures same { parts.new ≡ parts.old }
        ensures work { self.new.work ≡ self.old.work }
        ensures told { self.new.seen ≡ record { table = parts.old.words; log = parts.old.journal.levels.log } }
        ensures longer { IsPrefix self.old.seen.log parts.old.journal.levels.log }
    {
        let Parts { words, journal, .. } = parts;
        journal.tell(words, &mut self.worker.pass);
    }

    /// Another pass that has seen what the worker has.
    pub(crate) fn split(&mut self, words: &Words) -> Pass
        requires table { self.old.seen.table ≡ words.now }
        ensures same { self.new ≡ self.old }
        ensures result { (result.table ≡ words.now) × (result.log ≡ self.old.seen.log) }
    {
        split(words, &mut self.worker.pass)
    }

    /// Goes on in another table of as many vertices, of which the worker has seen what `fresh` has.
    pub(crate) fn move_to(&mut self, words: &Words, fresh: &mut Pass)
        requires table { fresh.old.table ≡ words.now }
        requires size { words.now.shape.fixed ≡ self.old.seen.table.shape.fixed }
        ensures work { self.new.work ≡ self.old.work }
        ensures seen { self.new.seen ≡ record { table = words.now; log = fresh.old.log } }
        ensures fresh { (fresh.new.table ≡ words.now) × (fresh.new.log ≡ fresh.old.log) }
    {
        self.worker.pass = split(words, fresh);
    }
}
