//! What a planner of updates asks of a graph, and what it is answered.
//!
//! A `View` shows a graph with core numbers and an order by single answers: the list of a vertex, its core number, and which of two
//! vertices stands first. It keeps each answer, so that a plan can be handed on with all that it rests on. The answers need not be
//! those of one state, and a call may miss.
//!
//! `Search` is what each step of a planner goes by.
//!
//! `Memo` is how a view keeps what it was answered: with the marks of a `Scratch`, which a worker makes once and lends to each of its views.
//!
//! `specs/Answers.antt` says what was asked and answered, and when a state agrees with it; `Views.antt` says what each call leaves;
//! `Sure.antt` says when a plan is right wherever its answers are. `PlainView` is a view of a graph at rest: it never misses, and all
//! its answers are true of that graph. The crate stands on `kc_graph`, and its definitions on `kc_lists`, `kc_words` and `kc_cert`.
#![tactic(auto)]

mod asking;
mod fault;
mod keep;
mod memo;
mod plain;
mod scratch;
mod search;
mod view;

pub use asking::{core_of, degree_of, has_edge, is_neighbour, stands_before};
pub use fault::{PlanFault, ViewFault};
pub use keep::{keep_list, keep_order, keep_place};
pub use memo::Memo;
pub use plain::PlainView;
pub use scratch::Scratch;
pub use search::Search;
pub use view::View;
