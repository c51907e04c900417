//! Why `parse` gives no input.
use crate::NoMemory;
use crate::refusal::Refusal;

/// Why a text gives no input.
#[derive(Debug, Drop, PartialEq, Eq)]
pub enum ParseFault {
    /// A line is refused.
    Refused(Refusal),
    /// There is no memory to read the text.
    NoMemory,
}

impl From<NoMemory> for ParseFault {
    ghost use Rattle.std.specs.Prelude.{◌≡◌};
    ghost use Rattle.kc_text.specs.declared.fault.ParseFault.{ParseFault};

    ghost from_gives = { λ _ fault. fault ≡ ParseFault.NoMemory };

    fn from(_: NoMemory) -> ParseFault {
        ParseFault::NoMemory
    }
}
