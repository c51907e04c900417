//! What a worker keeps from one update to the next.
ghost use Rattle.std.specs.Prelude.{◌≡◌, IfErr, IfOk};

use kc_table::{Pass, Words, shape};
use kc_view::Scratch;
use std::alloc::Global;
use std::marker::Model;

/// What a worker has seen of its table, and the marks that it lends to its views. It lives over all updates that it enters, so that none
/// costs the size of the graph.
///
/// Contracts see the table and the log that the worker has seen. By its type the marks are of as many vertices as the table has.
#[derive(Drop)]
pub struct Worker {
    pub pass: Pass,
    pub scratch: Scratch,
}

impl Model for Worker {
    ghost use Rattle.std.specs.Prelude.{◌≡◌};
    ghost use Rattle.kc_table.specs.Log.{Seen};

    ghost Value = { Seen };

    ghost view = { λ w. record { table = w.pass.table; log = w.pass.log } };

    ghost invariant = { λ w. w.scratch ≡ w.pass.table.shape.fixed };
}

impl Worker {
    /// A worker that has seen what the pass has, with clear marks. The error is want of memory, and gives the pass back.
    pub fn new(alloc: Global, words: &Words, pass: Pass) -> Result<Worker, Pass>
        requires { pass.table ≡ words.now }
        ensures seen { IfOk result (λ worker. worker ≡ record { table = pass.table; log = pass.log }) }
        ensures same { IfErr result (λ back. back ≡ pass) }
    {
        match Scratch::new(alloc, shape(words).fixed) {
            Ok(scratch) => Ok(Worker { pass, scratch }),
            Err(_) => Err(pass),
        }
    }
}
