//! Edge lists as people hold them, rewritten as the plain text that `kc_text` reads.
//!
//! A [`Dialect`] says how the lines are to be read: which columns hold the two ids, what parts the fields, how many lines at the top say
//! nothing, whether bad lines end the reading or are passed over, and whether the ids are numbers or names. A text in a dialect stands for
//! a plain text: each line for one line of the two ids as they stand, or for an empty one where it says nothing. So line numbers stay, and
//! whatever is promised of a plain text is promised of the text that stands for it. Where the ids are names, `kc_names` numbers them in the
//! plain text. `specs/Dialects` defines both that text and the bad lines, and `specs/Columns` the fields of a line.
//!
//! [`Rewriter`] does this with a text that comes in pieces, cut anywhere. [`signature_of`] tells by the first bytes of a file what no
//! dialect reads: compressed files, UTF-16, and the matrices of MatrixMarket. [`separator_of_name`] tells the separator from a file's name,
//! and [`edge_fault`] where a line is wrong in a list of two ids a line.
//!
//! Rewriting is linear, and allocates nothing for a line. Lines of two short numbers alone are found in one scan, 64 bytes at a time
//! (`gaps`), and as many as follow one another are copied at once (`plain_runs`). The crate stands on `kc_text`, whose lines, blanks, comments
//! and numbers it takes.
#![tactic(auto)]

mod bad_line;
mod bytes;
mod columns;
mod dialect;
mod edge_faults;
mod fault;
mod first_pairs;
mod gaps;
mod ids;
pub mod laws;
mod line_rewriter;
mod names;
mod pairs;
mod plain_runs;
mod rewriter;
mod signatures;
mod skipped;

pub use bad_line::{BadField, BadKind, BadLine};
pub use dialect::{BadLines, Dialect, Ids, Separator};
pub use edge_faults::{EdgeFault, edge_fault, kind_of_bad};
pub use fault::RewriteFault;
pub use first_pairs::first_pair;
pub use names::separator_of_name;
pub use pairs::without_mark;
pub use rewriter::{MOST_BYTES, Rewriter};
pub use signatures::{Signature, signature_of};
pub use skipped::{MOST_KEPT, SkippedLines};
