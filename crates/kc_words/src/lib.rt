//! The words of the shared table: what each of them packs into 64 bits, and where each of them
//! stands in the table.
//!
//! Each of `ItemWord`, `GroupWord`, `VertexWord` and `NoteWord` promises that `of` reads back what
//! `pack` packs, and says for which words `pack` gives back what `of` reads. `Shape` numbers the
//! words of a table. No call takes memory. `specs/Order.antt` says when the words order a list: the
//! order list keeps that, and the table's log is legal only where it holds. The crate stands on the
//! words of `kc_lists`.
#![tactic(auto)]

pub mod again;
pub mod group;
pub mod item;
pub mod laws;
pub mod layout;
pub mod note;
pub mod shape;
pub mod version;
pub mod vertex;

pub use again::Again;
pub use group::GroupWord;
pub use item::ItemWord;
pub use layout::{BOTTOM_ROOM, INDICES, ITEMS, LAST_VERSION, TOP_ROOM, VERTICES};
pub use note::NoteWord;
pub use shape::Shape;
pub use version::next_version;
pub use vertex::VertexWord;
