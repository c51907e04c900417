//! The neighbours of all vertices in stripes that several threads share, and a view that reads them while others change them.
//!
//! A planner that takes no lock of the state reads the list of a vertex here. Each list comes with a number: it was the vertex's list
//! after so many entries of the run. `Stripe` keeps the records of every 1,024th vertex with a pass that has seen the entries they speak
//! of, and every record is true by its type. `Stripes` puts a lock round each stripe, for a table that its type names: `read` hands out
//! a list and tells the reader's pass what it rests on, and `publish` puts a list that is of a later entry in its vertex's place. A
//! list is counted and never changed, so nothing is copied under a lock.
//!
//! `Loose` is a view of `kc_view` over stripes and the words of the table. What it has answered was so at moments since it was made, and
//! need not be so of one; where an order finds a word changed it misses, and says which loads differed;
//! and so does a long plan that looks back at a core number which has changed.
//!
//! `specs/Records.antt` says what a stripe keeps and when a record is true, `specs/Reads.antt` what a loose view has answered and what
//! its misses mean, `specs/Loose.antt` what it keeps true. The crate stands on `kc_view`, `kc_table`, `kc_order` and `kc_agree`, whose
//! words for what was read are `WereRead` and `WasList`.
#![tactic(auto)]

mod loose;
mod start;
mod stripe;
mod stripes;

pub use loose::Loose;
pub use start::Moment;
pub use stripe::{STRIPES, Stripe, open_stripes};
pub use stripes::Stripes;
