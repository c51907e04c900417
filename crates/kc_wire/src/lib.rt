//! The outside of a dialogue: one wire with both directions.
//!
//! Who answers requests as they come is read and written to in turn, and what matters is the order of the two. So a [`wire::Wire`] has
//! one history of both: which bytes a read gave, and which bytes were taken, flushed, in the order in which that happened. A contract can
//! then say what had been answered at each moment at which more input was asked for. The wire in memory ([`mem_wire`]) tells its history.
//! The one over a reader and a writer of std ([`std_wire`]) tells none: what the streams of the operating system give and take is trusted.
//! Both count their faults: reads that failed, writes that failed, and writes that failed since the reader went away.
//!
//! What hinders a wire in memory is a value of [`hindrances`].
//! The crate stands on `kc_io`, which has the two directions apart.
#![tactic(auto)]

pub mod event;
pub mod faults;
pub mod hindrances;
pub mod mem_wire;
pub mod std_wire;
pub mod wire;
