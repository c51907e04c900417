//! Tests of `kc_reply`, `kc_watch`, `kc_state`, `kc_saving` and `kc_loading`. Of a reply: each of its lines, in both formats. Of a stream: what it is
//! answered, fed whole and in pieces, and which line of it is refused. Of a kept state: its text, written and read, when it is saved, and how a stream goes on
//! from it.
//!
//! The crate has no code but its tests. They stand apart from those crates, whose own functions would be proved once more beside them.
#![tactic(auto)]

#[cfg(test)]
mod loads;
#[cfg(test)]
mod new_ids;
#[cfg(test)]
mod reply_lines;
#[cfg(test)]
mod saves;
#[cfg(test)]
mod states;
#[cfg(test)]
mod streams;
