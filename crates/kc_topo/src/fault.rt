//! Why an arc is not added. Each fault is tied to its cause by the contracts of `Arcs` and `Dag`.
use std::alloc::AllocError;
use thiserror::Error;

/// Why an arc is not added: arcs and list are then as they were.
#[derive(Debug, Drop, Error)]
pub enum DagFault {
    /// The arc would close a cycle: this walk leads from its end back to its beginning.
    #[error("cycle")]
    Cycle { walk: Vec<u32> },
    /// The greatest version of a word leaves no room for the stores that the moves may need.
    #[error("spent: highest version {highest}, needed {needed}")]
    Spent { highest: u32, needed: u32 },
    /// There was no memory for the search or for the arc.
    #[error("no memory")]
    NoMemory,
}

impl From<AllocError> for DagFault {
    ghost use Rattle.std.specs.Prelude.{◌≡◌};
    ghost use Rattle.kc_topo.specs.declared.fault.DagFault.{DagFault};

    ghost from_gives = { λ _ fault. fault ≡ DagFault.NoMemory };

    fn from(_: AllocError) -> DagFault {
        DagFault::NoMemory
    }
}
