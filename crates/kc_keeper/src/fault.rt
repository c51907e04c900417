//! Why a keeper refuses what it is asked. Each answer is tied to its cause by the contract of the call.
use std::alloc::AllocError;
use thiserror::Error;

/// Why no keeper was opened.
#[derive(Clone, Copy, Debug, Drop, Eq, Error, PartialEq)]
pub enum OpenFault {
    /// There are more than `VERTICES` vertices.
    #[error("too many vertices: {vertices}")]
    TooManyVertices { vertices: u32 },
    /// There is no memory for what is kept.
    #[error("no memory")]
    NoMemory,
}

impl From<AllocError> for OpenFault {
    ghost use Rattle.std.specs.Prelude.{◌≡◌};
    ghost use Rattle.kc_keeper.specs.declared.fault.OpenFault.{OpenFault};

    ghost from_gives = { λ _ fault. fault ≡ OpenFault.NoMemory };

    fn from(_: AllocError) -> OpenFault {
        OpenFault::NoMemory
    }
}

/// Why no vertices were added.
#[derive(Clone, Copy, Debug, Drop, Eq, Error, PartialEq)]
pub enum GrowFault {
    /// There would be more than `VERTICES` vertices.
    #[error("too many vertices: {vertices}")]
    TooManyVertices { vertices: u32 },
    /// There are more vertices already than are asked for.
    #[error("fewer vertices than there are: {vertices}, now {now}")]
    FewerVertices { vertices: u32, now: u32 },
    /// There is no memory for what is kept.
    #[error("no memory")]
    NoMemory,
}

impl From<AllocError> for GrowFault {
    ghost use Rattle.std.specs.Prelude.{◌≡◌};
    ghost use Rattle.kc_keeper.specs.declared.fault.GrowFault.{GrowFault};

    ghost from_gives = { λ _ fault. fault ≡ GrowFault.NoMemory };

    fn from(_: AllocError) -> GrowFault {
        GrowFault::NoMemory
    }
}

/// Why an update was not made.
#[derive(Clone, Copy, Debug, Drop, Eq, Error, PartialEq)]
pub enum UpdateFault {
    /// Its greater end is no vertex.
    #[error("no vertex: {vertex}")]
    NoVertex { vertex: u32 },
    /// There is no memory for it.
    #[error("no memory")]
    NoMemory,
}

impl From<AllocError> for UpdateFault {
    ghost use Rattle.std.specs.Prelude.{◌≡◌};
    ghost use Rattle.kc_keeper.specs.declared.fault.UpdateFault.{UpdateFault};

    ghost from_gives = { λ _ fault. fault ≡ UpdateFault.NoMemory };

    fn from(_: AllocError) -> UpdateFault {
        UpdateFault::NoMemory
    }
}

/// Why a batch was not made, or not the whole of it.
#[derive(Clone, Copy, Debug, Drop, Eq, Error, PartialEq)]
pub enum ApplyFault {
    /// The greater end of the update at this place of the batch, counted from 0, is no vertex; it is the first such one. Nothing was made.
    #[error("no vertex: {vertex}, in update {place}")]
    NoVertex { place: usize, vertex: u32 },
    /// There was no memory for an update. So many before it were made, and it and those behind it were not.
    #[error("no memory: {made} updates were made")]
    NoMemory { made: usize },
}
