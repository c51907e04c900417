//! How far a long run is, told while it runs.
//!
//! Whoever reads and peels tells a [`Progress`] so, and need not know what becomes of that. [`Silent`] does nothing. [`TerminalProgress`]
//! writes a line to a terminal now and then. It writes over it, and clears it at the end.
//!
//! No contract says what a `Progress` does. So what it writes is no part of the text that a program promises.
#![tactic(auto)]

mod progress;
mod silent;
mod terminal;

pub use progress::Progress;
pub use silent::Silent;
pub use terminal::TerminalProgress;
