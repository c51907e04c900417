//! A worker's right to take, and what it has taken.
use crate::dealing::Hand;
use crossbeam_queue::Pass;
use std::marker::Model;

/// The most workers that may take from one queue at a time.
pub const WORKERS: u64 = 64;

/// The parts of a queue's first consumer: one for each worker, and one that it keeps.
pub const PARTS: u64 = WORKERS + 1;

/// The right to take from one queue. Contracts see which queue it is, how many parts of that right the consumer has, and the numbers that
/// it has taken, in the order in which they were taken. It has no bytes.
///
/// Of the numbers of a consumer none comes twice, and each is below the queue's count. A consumer that is dropped takes its parts with it:
/// nobody then learns that all numbers were taken.
#[derive(Drop)]
pub struct Consumer {
    pub(crate) pass: Pass<u32, Hand>,
}

impl Model for Consumer {
    ghost use Rattle.std.specs.Prelude.{◌≡◌, ◌<◌, []};
    ghost use Rattle.crossbeam_queue.specs.Passes.{view as hand_of};
    ghost use Rattle.kc_queue.specs.Shares.{Consuming, IsShare};

    ghost Value = { Consuming };

    ghost view = { λ c. record {
      queue = record { id = c.pass.table_id; count = (hand_of c.pass).filled };
      parts = (hand_of c.pass).parts;
      taken = (hand_of c.pass).taken;
    } };

    ghost invariant = { λ c. (c.pass.me.1 ≡ []) × (0 < (hand_of c.pass).parts) × IsShare (hand_of c.pass).filled (hand_of c.pass).taken };
}
