//! Tests of `kc_text`, `kc_report`, `kc_dialect`, `kc_names`, `kc_dialect_read` and `kc_head`.
//!
//! What texts give, also where their lines are read in parts, which line is refused, and the bytes of lines and of a generated text. The
//! plain texts of files as people hold them, their bad lines, the numbers of names, and what the first bytes of a file tell.
//!
//! The crate has no code but its tests. They stand apart from those crates, whose own functions would be proved once more beside them.
#![tactic(auto)]

#[cfg(test)]
mod files;
#[cfg(test)]
mod heads;
#[cfg(test)]
mod names;
#[cfg(test)]
mod parts;
#[cfg(test)]
mod reports;
#[cfg(test)]
mod signatures;
#[cfg(test)]
mod texts;
