//! The state that a lock guards: a graph, its core numbers and their order, and the log of all entries.
//!
//! `Journal` is certified by its type. An update is planned elsewhere, from what was read at different moments, and entered here by a
//! look at stamps alone: where none that the plan has used is less than the present one, all that it has read is true now, and its moves
//! are made. Nothing is computed anew.
//!
//! `specs/Journals.antt` has what contracts see of a `Journal` and what holds of every one, `specs/Sections.antt` what the sections of
//! its log keep, `specs/Entering.antt` and `specs/Answers.antt` what `enter` does and answers. The laws have no code: the head of them
//! says that a journal stands after an entry.
#![tactic(auto)]

mod ahead;
mod answer;
mod change;
mod held;
mod journal;
pub mod laws;
mod planning;
mod renewal;

pub use ahead::ListsAhead;
pub use answer::{EnterFault, Entered, Receipt};
pub use held::{Held, Of};
pub use journal::Journal;
pub use planning::plan_held;
