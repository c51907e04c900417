//! Why a text in a dialect gives no edges.
use kc_io::Failed;
use kc_text::{NoMemory, Refusal};

/// The line that is refused, and the column of the field that is wrong, where one is meant.
#[derive(Clone, Copy, Debug, PartialEq, Eq)]
pub struct PlacedRefusal {
    pub refusal: Refusal,
    /// The place of the field's first byte in its line, from 1. There is none where the text is refused for what it tells as a whole.
    pub column: Option<u64>,
}

/// Why `read_edges_in` gives no edges.
#[derive(Debug, Drop, PartialEq, Eq)]
pub enum DialectFault {
    /// The source failed.
    ReadFault,
    /// The text has too many bytes, or a line of it is refused.
    Refused(PlacedRefusal),
    /// There is no memory to read the text.
    NoMemory,
}

impl From<Failed> for DialectFault {
    ghost use Rattle.std.specs.Prelude.{◌≡◌};
    ghost use Rattle.kc_dialect_read.specs.declared.fault.DialectFault.{DialectFault};

    ghost from_gives = { λ _ fault. fault ≡ DialectFault.ReadFault };

    fn from(_: Failed) -> DialectFault {
        DialectFault::ReadFault
    }
}

impl From<NoMemory> for DialectFault {
    ghost use Rattle.std.specs.Prelude.{◌≡◌};
    ghost use Rattle.kc_dialect_read.specs.declared.fault.DialectFault.{DialectFault};

    ghost from_gives = { λ _ fault. fault ≡ DialectFault.NoMemory };

    fn from(_: NoMemory) -> DialectFault {
        DialectFault::NoMemory
    }
}
