//! The work queue of a batch: the places of its updates, each of which is taken once, by whichever worker comes first.
//!
//! `WorkQueue::filled` puts the numbers 0 to `count - 1`, in order, before any worker starts, and nothing is put later. Each worker has a
//! `Consumer` of its own, which contracts see as the list of numbers that it has taken. No number stands in two consumers' lists, nor
//! twice in one. Who has joined all consumers into one and then finds the queue empty knows that its list is all numbers, each once.
//!
//! A worker that finds the queue empty learns nothing from it: others may still hold what they have taken. So consumers are joined first,
//! and the one that is left takes what is left. Consumers may be kept over rounds of workers, or joined and split anew.
//!
//! `filled` alone takes memory. No call takes a lock: a call that may wait for others tries its step again, and its promise holds if it
//! returns. The crate stands on the ruled queue of `crossbeam_queue`; the rule that all its steps keep is in `specs/Dealt.antt`, and what
//! contracts say in `specs/Shares.antt`.
#![tactic(auto)]

mod consumer;
mod dealing;
mod queue;
mod queued;

pub use consumer::{Consumer, PARTS, WORKERS};
pub use queue::WorkQueue;
pub use queued::Queued;
pub use std::alloc::AllocError as NoMemory;
