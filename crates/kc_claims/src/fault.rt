//! Why a text is no certificate.
ghost use Rattle.std.specs.Prelude.{◌≡◌, ◌≢◌};
ghost use Rattle.kc_claims.specs.Certificates.{id_of};

use crate::claim::Claim;
use kc_graph::NoMemory;
use kc_io::Failed;
use kc_text::{Kind, Refusal};

/// Why a text gives no claims.
#[derive(Clone, Copy, Debug, PartialEq, Eq)]
pub enum TextFault {
    /// A line is refused.
    Refused(Refusal),
    /// There is no memory for the claims.
    NoMemory,
}

impl From<NoMemory> for TextFault {
    ghost use Rattle.std.specs.Prelude.{◌≡◌};
    ghost use Rattle.kc_claims.specs.declared.fault.TextFault.{TextFault};

    ghost from_gives = { λ _ fault. fault ≡ TextFault.NoMemory };

    fn from(_: NoMemory) -> TextFault {
        TextFault::NoMemory
    }
}

/// Why a source gives no claims.
#[derive(Clone, Copy, Debug, PartialEq, Eq)]
pub enum SourceFault {
    /// A line is refused.
    Refused(Refusal),
    /// The source failed.
    ReadFault,
    /// There is no memory for the claims.
    NoMemory,
}

/// What shows that claims are no certificate, as the first that applies.
#[derive(Clone, Copy, Debug, PartialEq, Eq)]
pub enum ClaimFault {
    /// The id is not one of the graph.
    Unknown(Claim),
    /// An earlier line has the id too.
    Repeated(Claim),
    /// No line has this id of the graph.
    Missing(u32),
    /// The id has so many neighbours behind it, more than the number that it is told.
    ManyLater(Claim, u64),
    /// The id has only so many neighbours that are told its number or more.
    FewSupporters(Claim, u64),
}

impl ClaimFault {
    /// The id that is at fault.
    pub fn id(self) -> u32
        ensures { result ≡ id_of self }
    {
        match self {
            ClaimFault::Unknown(claim)
            | ClaimFault::Repeated(claim)
            | ClaimFault::ManyLater(claim, _)
            | ClaimFault::FewSupporters(claim, _) => claim.id,
            ClaimFault::Missing(id) => id,
        }
    }
}

/// What is wrong with a line of a stream whose edges are to ascend between ids that are claimed.
#[derive(Clone, Copy, Debug, PartialEq, Eq)]
pub enum LineFault {
    /// It is no line of a graph without batches, for this cause.
    Refused(Kind),
    /// Its edge has not the lesser id first, or is not above the one before it.
    Descends,
    /// It names this id, of which there is no claim.
    Unclaimed(u32),
}

/// A line of a stream, and what is wrong with it.
#[derive(Clone, Copy, Debug, PartialEq, Eq)]
pub struct FaultyLine {
    /// The number of the line, from 1.
    pub line: u64,
    pub fault: LineFault,
}

/// Why a stream tells nothing of claims.
#[derive(Clone, Copy, Debug, PartialEq, Eq)]
pub enum StreamFault {
    /// A line is wrong.
    Line(FaultyLine),
    /// The source failed.
    ReadFault,
    /// There is no memory for the counts.
    NoMemory,
}

/// Why lines are not taken.
#[derive(Clone, Copy, Debug, PartialEq, Eq)]
pub(crate) enum Untaken {
    /// They are not such lines.
    Unfit,
    /// There is no memory for them.
    NoMemory,
}

impl From<NoMemory> for Untaken {
    ghost use Rattle.std.specs.Prelude.{◌≡◌};
    ghost use Rattle.kc_claims.specs.declared.fault.Untaken.{Untaken};

    ghost from_gives = { λ _ fault. fault ≡ Untaken.NoMemory };

    fn from(_: NoMemory) -> Untaken {
        Untaken::NoMemory
    }
}

impl Untaken {
    /// Why the stream is not swept.
    pub(crate) fn unswept(self) -> Unswept
        ensures { result ≢ Unswept.ReadFault }
    {
        match self {
            Untaken::Unfit => Unswept::Unfit,
            Untaken::NoMemory => Unswept::NoMemory,
        }
    }
}

/// Why claims are not taken for a certificate.
#[derive(Clone, Copy, Debug, PartialEq, Eq)]
pub enum CheckFault {
    /// They are none.
    Faulty(ClaimFault),
    /// There is no memory for the check.
    NoMemory,
}

impl From<NoMemory> for CheckFault {
    ghost use Rattle.std.specs.Prelude.{◌≡◌};
    ghost use Rattle.kc_claims.specs.declared.fault.CheckFault.{CheckFault};

    ghost from_gives = { λ _ fault. fault ≡ CheckFault.NoMemory };

    fn from(_: NoMemory) -> CheckFault {
        CheckFault::NoMemory
    }
}

/// Why not all of a source was handed on.
#[derive(Clone, Copy, Debug, PartialEq, Eq)]
pub(crate) enum Unswept {
    /// There are more bytes or lines than may come.
    Unfit,
    /// The source failed.
    ReadFault,
    /// There is no memory for the counts.
    NoMemory,
}

impl From<NoMemory> for Unswept {
    ghost use Rattle.std.specs.Prelude.{◌≡◌};
    ghost use Rattle.kc_claims.specs.declared.fault.Unswept.{Unswept};

    ghost from_gives = { λ _ fault. fault ≡ Unswept.NoMemory };

    fn from(_: NoMemory) -> Unswept {
        Unswept::NoMemory
    }
}

impl From<Failed> for Unswept {
    ghost use Rattle.std.specs.Prelude.{◌≡◌};
    ghost use Rattle.kc_claims.specs.declared.fault.Unswept.{Unswept};

    ghost from_gives = { λ _ fault. fault ≡ Unswept.ReadFault };

    fn from(_: Failed) -> Unswept {
        Unswept::ReadFault
    }
}
