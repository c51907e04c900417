//! Why a text opens no dialogue.
use kc_io::{Failed, NoMemory};

/// Why a text opens no dialogue.
#[derive(Clone, Copy, Debug, PartialEq, Eq)]
pub enum OpeningFault {
    /// The source of the text failed.
    ReadFault,
    /// There was no memory.
    NoMemory,
    /// So many reads were made that no count of a `u64` is left.
    Exhausted,
}

impl From<Failed> for OpeningFault {
    ghost use Rattle.std.specs.Prelude.{◌≡◌};
    ghost use Rattle.kc_dialogue.specs.declared.opening_fault.OpeningFault.TheVariants as fault;

    ghost from_gives = { λ _ found. found ≡ fault.ReadFault };

    fn from(_: Failed) -> OpeningFault {
        OpeningFault::ReadFault
    }
}

impl From<NoMemory> for OpeningFault {
    ghost use Rattle.std.specs.Prelude.{◌≡◌};
    ghost use Rattle.kc_dialogue.specs.declared.opening_fault.OpeningFault.TheVariants as fault;

    ghost from_gives = { λ _ found. found ≡ fault.NoMemory };

    fn from(_: NoMemory) -> OpeningFault {
        OpeningFault::NoMemory
    }
}
