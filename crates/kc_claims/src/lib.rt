//! Checks a file of claims: whether it is a certificate of the core numbers of a graph.
//!
//! A line claims a core number of an id, and may tell the rank of the id; [`claims_of`] reads the lines. [`check_claims`] tells whether the
//! claims name each id of a graph just once, and certify their numbers: each vertex has at most as many neighbours behind it as its
//! number, and at least as many whose number is no less. It tells the first fault where they are none. `specs/Claims.antt` says what
//! lines claim, and `specs/Certificates.antt` when claims are a certificate and what the first fault is.
//!
//! Claims that are a certificate tell the core numbers (Seidman 1983), whatever their ranks. The laws below have no code. [`check_stream`]
//! tells the same of a graph whose edges come in ascending order from a source, and makes no graph. [`check_ascending`] insists on that order,
//! and tells the first line that breaks it (`specs/LineFaults.antt`).
//!
//! The crate stands on `kc_text` for lines, fields and numbers, on `kc_flat` and `kc_graph` for graphs, on `kc_tally` for keys and counts, on
//! `kc_io` for sources, and on `kc_stream` for where the last line of a piece ends.
#![tactic(auto)]

mod ascending;
mod checking;
mod claim;
mod claim_line;
mod claimed;
mod counting;
mod edge_line;
mod fault;
mod feeding;
mod gathering;
mod id_bits;
mod insisting;
mod judging;
mod looking;
mod places;
mod placing;
mod reading;
mod stream;
mod stretch;
mod sweep;
mod table;
mod taking;

ghost use Rattle.std.specs.Prelude.{◌≡◌, ℕ, List, length};
ghost use Rattle.std.specs.List.Sorted.{IsStrictlyIncreasing};
ghost use Rattle.kc_graph.specs.SimpleGraph.{SimpleGraph};
ghost use Rattle.kc_claims.specs.Certificates.{AreCertificate, IsFirstFault};
ghost use Rattle.kc_claims.specs.declared.claim.Claim.{Claim};
ghost use Rattle.kc_claims.specs.declared.fault.ClaimFault.{ClaimFault};

pub use ascending::{AscendingCheck, check_ascending};
pub use checking::check_claims;
pub use claim::Claim;
pub use fault::{
    CheckFault, ClaimFault, FaultyLine, LineFault, SourceFault, StreamFault, TextFault,
};
pub use gathering::claims_from;
pub use reading::claims_of;
pub use stream::{SweptClaims, check_stream};
pub use table::ClaimTable;

/// A certificate has no fault. So where a check finds one, the claims are none.
pub fn a_certificate_has_no_fault()
    ensures { (ids : List ℕ) (g : SimpleGraph) (claims : List Claim) (fault : ClaimFault) → IsStrictlyIncreasing ids → length ids ≡ g.size
        → AreCertificate ids g claims → IsFirstFault ids g claims fault → ⊥ }
{}
