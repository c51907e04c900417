//! Numbers names, so that a text of names is read as one of numbers.
//!
//! [`Names`] are byte strings, each once, in the order of their first coming; the number of a name is its place. A plain text of names, two a
//! line, stands for a text of numbers: the number of each name in its place, line for line (`specs/Names`). So whatever is promised of a text
//! of numbers is promised of the text of names that stands for it, and line numbers stay. [`IdReader`] reads a plain text of numbers or of
//! names as its bytes come, and keeps the names.
//!
//! The crate stands on `kc_text`, which reads the numbers, on `kc_dialect`, which says whether ids are numbers or names, on `indexmap` for the
//! table of names, and on `itoa` for digits. Finding a name takes one hash of it. The hash has a fixed seed, so whoever chooses all names can
//! make it slow.
#![tactic(auto)]

mod id_reader;
mod names;
mod pairs;

pub use id_reader::{IdEdges, IdReader};
pub use names::Names;
