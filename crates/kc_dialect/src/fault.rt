//! Why a text can't be rewritten.
use crate::bad_line::BadLine;
use kc_text::NoMemory;

/// Why a text can't be rewritten.
#[derive(Debug, Drop, PartialEq, Eq)]
pub enum RewriteFault {
    /// This is the first line that is bad, and bad lines end the reading.
    Bad(BadLine),
    /// The text has more than [`MOST_BYTES`](crate::MOST_BYTES) bytes.
    TooLong,
    /// There is no memory for the lines.
    NoMemory,
}

impl From<NoMemory> for RewriteFault {
    ghost use Rattle.std.specs.Prelude.{◌≡◌};
    ghost use Rattle.kc_dialect.specs.declared.fault.RewriteFault.{RewriteFault};

    ghost from_gives = { λ _ fault. fault ≡ RewriteFault.NoMemory };

    fn from(_: NoMemory) -> RewriteFault {
        RewriteFault::NoMemory
    }
}
