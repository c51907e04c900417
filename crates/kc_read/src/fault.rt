//! Why a source gives no input.
use kc_io::Failed;
use kc_text::{NoMemory, ParseFault, Refusal};

/// Why `read_input` gives no input.
#[derive(Debug, Drop, PartialEq, Eq)]
pub enum InputFault {
    /// The source failed.
    ReadFault,
    /// The text has too many bytes, or a line of it is refused.
    Refused(Refusal),
    /// There is no memory to read the text.
    NoMemory,
}

impl From<Failed> for InputFault {
    ghost use Rattle.std.specs.Prelude.{◌≡◌};
    ghost use Rattle.kc_read.specs.declared.fault.InputFault.{InputFault};

    ghost from_gives = { λ _ fault. fault ≡ InputFault.ReadFault };

    fn from(_: Failed) -> InputFault {
        InputFault::ReadFault
    }
}

impl From<NoMemory> for InputFault {
    ghost use Rattle.std.specs.Prelude.{◌≡◌};
    ghost use Rattle.kc_read.specs.declared.fault.InputFault.{InputFault};

    ghost from_gives = { λ _ fault. fault ≡ InputFault.NoMemory };

    fn from(_: NoMemory) -> InputFault {
        InputFault::NoMemory
    }
}

impl From<ParseFault> for InputFault {
    ghost use Rattle.std.specs.Prelude.{◌≡◌};
    ghost use Rattle.kc_read.specs.Reading.{fault_of};

    ghost from_gives = { λ fault found. found ≡ fault_of fault };

    fn from(fault: ParseFault) -> InputFault {
        match fault {
            ParseFault::Refused(refusal) => InputFault::Refused(refusal),
            ParseFault::NoMemory => InputFault::NoMemory,
        }
    }
}
