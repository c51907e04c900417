//! A batch of updates, entered by several workers, over as many tables as it takes.
//!
//! Each *worker* has a *desk*, over all of the batch: what it has entered, and what it has left of what it took. For a *round* each desk
//! becomes a *seat*, in one of the threads of the round: the desk with a part of the ledger, which counts what is entered, and a part of the
//! *queue of turns*. That queue gives the places of the batch's updates, each once, in the order in which they are taken. Workers, desks,
//! seats and shares stand in one order, by the worker's number.
//!
//! The *gate* says how many threads a round has, and may end it early, so that the next one has another number. A round of one thread makes
//! none: the first worker takes what there is.
//!
//! A worker that finds the versions of the table nearly spent keeps its update and ends its round; between two rounds the run goes on in a
//! fresh table, and what was kept is entered first. Who has dropped an update for want of memory ends the batch. Then `CutShort` has the
//! receipts of all that was entered, and the tables that were ended; the run stands, and what has no receipt can be entered by another
//! call.
//!
//! What all parts of the ledger have counted, and what all have taken of the queue, shows at the end that each update was entered once and
//! that nothing else was.
//!
//! `specs/Receipts.antt` says what the updates have become, `specs/Runs.antt` how a run goes on over tables, `specs/Batches.antt` what a
//! batch leaves behind; `specs/Desks.antt` and `specs/Seats.antt` are of the work itself.
#![tactic(auto)]

mod batch;
mod desk;
mod done;
mod indexed;
mod left;
mod order;
mod round;
mod seat;
mod standing;
mod state;
mod turns;

pub use batch::run_batch;
pub use done::{BatchDone, CutShort};
pub use indexed::IndexedBatch;
