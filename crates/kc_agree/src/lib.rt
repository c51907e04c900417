//! What was read of a table at different moments, and when all of it is true of one.
//!
//! A planner reads lists of neighbours, core numbers and orders while others change the state, and takes no lock. Each answer comes with
//! a *stamp* of its vertex, and was so after some prefix of the table's log: `specs/Reads.antt`. A list has the vertex's *edge stamp*,
//! the number of the last entry that changed its edges; a core number has its *place stamp*, the number of the last section that put
//! it; an order rests on the places of its two vertices: `specs/Stamps.antt`.
//!
//! Where no stamp is less than that of now, all the answers are true of the state now, though they were read at different moments. That
//! is the theorem of agreement, `laws::what_was_read_is_true_now`. So whoever holds the state looks at stamps alone: `first_stale` tells
//! the first that is less. `read_core` and `read_order` each load one answer, and `read_again` looks whether a core number and its stamp are
//! still what they were. Nothing else here is code; the rest of the crate is laws.
#![tactic(auto)]

pub mod laws;
mod reading;
mod stale;

pub use reading::{read_again, read_core, read_order};
pub use stale::{Stale, first_stale};
pub use std::alloc::AllocError as NoMemory;
