//! The head of a text: its first bytes, which tell what a text is that is no edge list, and where a line of it is wrong.
//!
//! [`read_head`] takes at most [`HEAD_BYTES`] bytes from a source. [`foreign_in`] tells by them that a text is compressed, in UTF-16, a
//! matrix, of JSON objects, or has lines that end in carriage returns alone. [`wrong_column`] gives the column of the field for which a line is refused
//! that stands in the head, and [`show_place`] writes the line with a caret under a column. So whoever reads a text piece by piece can say
//! where it is wrong, and holds no more of it than its head.
//!
//! [`may_be_sizes`] tells of the first pair of a text whether it may be a line of sizes, once all edges are known.
//!
//! The crate stands on `kc_io`, `kc_lines`, `kc_text` and `kc_dialect`.
#![tactic(auto)]

mod foreign;
mod head;
mod places;
mod shown;
mod sizes;

pub use foreign::{Foreign, foreign_in};
pub use head::{HEAD_BYTES, HeadFault, read_head};
pub use places::{line_in, wrong_column};
pub use shown::show_place;
pub use sizes::may_be_sizes;
