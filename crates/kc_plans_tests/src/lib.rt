//! Tests of `kc_view`, `kc_remove` and `kc_insert`, and of sections of `kc_levels` that make what they plan.
//!
//! Views of graphs at rest and plans over them, with answers worked out by hand. Then both planners over long sequences of updates: each plan
//! is judged by what knows nothing of the planner that made it: the local test and the whole check of `kc_cert`, a decomposition of the graph
//! after it, and moves that are made here by what `Moves` says. What the planners were answered is compared with the state itself. Over a
//! `WhimView`, which answers what it likes, they have to return.
//!
//! The crate has no code but its tests. They stand apart from those crates, whose own functions would be proved once more beside them.
#![tactic(auto)]

#[cfg(test)]
mod draws;
#[cfg(test)]
mod insertions;
#[cfg(test)]
mod levels;
#[cfg(test)]
mod planning;
#[cfg(test)]
mod removals;
#[cfg(test)]
mod sections;
#[cfg(test)]
mod sequences;
#[cfg(test)]
mod shapes;
#[cfg(test)]
mod small_sections;
#[cfg(test)]
mod states;
#[cfg(test)]
mod tally;
#[cfg(test)]
mod views;
#[cfg(test)]
mod whim_answers;
#[cfg(test)]
mod whim_view;
#[cfg(test)]
mod whims;
