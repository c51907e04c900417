//! Tests of `kc_io`, `kc_lines`, `kc_files`, `kc_queue` and `kc_pace`, and of `kc_wire` and `kc_dialogue`.
//!
//! Sources and sinks that fail, lines in both formats, files that are replaced whole, a queue that workers empty, and rounds by made up
//! moments. A replier that echoes, over wires in memory whose input is cut everywhere and whose calls fail in turn, and over readers and
//! writers of std that are interrupted or go away.
//!
//! The crate has no code but its tests. They stand apart from those crates, whose own functions would be proved once more beside them.
#![tactic(auto)]

#[cfg(test)]
mod dialogues;
#[cfg(test)]
mod echo;
#[cfg(test)]
mod folders;
#[cfg(test)]
mod paces;
#[cfg(test)]
mod queues;
#[cfg(test)]
mod std_wires;
#[cfg(test)]
mod streams;
#[cfg(test)]
mod written_lines;
