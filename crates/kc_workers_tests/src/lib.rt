//! Tests of `kc_shared`, `kc_workers`, `kc_batch` and `kc_run`.
//!
//! Updates that are entered behind the lock, by one worker and by two at once, what is refused there, and how a run goes on in a fresh table.
//! Updates that one worker enters, alone and while another enters its own before each try, and a plan over stripes and words that nobody
//! changes. Batches of random updates, and some that are worked out by hand. Courses of a few batches, and what they leave.
//!
//! The crate has no code but its tests. They stand apart from those crates, whose own functions would be proved once more beside them.
#![tactic(auto)]

#[cfg(test)]
mod alone;
#[cfg(test)]
mod batch_runs;
#[cfg(test)]
mod closing;
#[cfg(test)]
mod courses;
#[cfg(test)]
mod cut;
#[cfg(test)]
mod entrant;
#[cfg(test)]
mod examples;
#[cfg(test)]
mod meddled;
#[cfg(test)]
mod overtaking;
#[cfg(test)]
mod plans;
#[cfg(test)]
mod random;
#[cfg(test)]
mod shared_runs;
#[cfg(test)]
mod two_workers;
#[cfg(test)]
mod worker_runs;
