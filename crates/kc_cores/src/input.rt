//! An input that is standard input, or a file that is opened by its name.
ghost use Rattle.std.specs.Prelude.{◌≡◌, ℕ, IfSome, List, Option, OnErr, OnOk, Some};
ghost use Rattle.std.specs.Io.KnownBytes.{prepend_known};
ghost use Rattle.kc_io.specs.Causes.{HasCause};
ghost use Rattle.kc_cores.specs.Sentences.{fault_sentence};

use kc_io::NoMemory;
use kc_io::source::Source;
use kc_progress::Progress;
use std::alloc::Global;
use std::io;
use std::io::ErrorKind;

/// Why a file was not opened.
#[derive(Clone, Copy, Debug, PartialEq, Eq)]
pub enum FileFault {
    /// There is no file of this name.
    Missing,
    /// It is a folder.
    Folder,
    /// It may not be read.
    Forbidden,
    /// Any other cause.
    Other,
}

impl FileFault {
    /// The cause in the words of the operating system.
    pub fn sentence(self) -> &'static str
        ensures { result.now ≡ fault_sentence self }
    {
        match self {
            FileFault::Missing => "No such file or directory",
            FileFault::Folder => "Is a directory",
            FileFault::Forbidden => "Permission denied",
            FileFault::Other => "The file can not be opened",
        }
    }
}

impl From<io::Error> for FileFault {
    fn from(error: io::Error) -> FileFault {
        match error.kind() {
            ErrorKind::NotFound => FileFault::Missing,
            ErrorKind::IsADirectory => FileFault::Folder,
            ErrorKind::PermissionDenied => FileFault::Forbidden,
            _ => FileFault::Other,
        }
    }
}

/// A source that can be turned to a file. It is told how far a run is, and may tell that on.
pub trait FileInput: Source + Progress {
    /// A file that is read beside it.
    type Beside: Source + Drop;

    /// The bytes of the file with this name, where the input tells them.
    ghost behind: { Self → List ℕ → Option (List ℕ) };

    /// Turns to the file: what is left from then on are its bytes, from the first one on. Where it was not opened, what is left stays, and
    /// the count of faults rises. At any other call the count stays.
    fn open(&mut self, name: &str) -> Result<(), FileFault>
        ensures bytes { OnOk result (Self.left self.new ≡ behind self.old name.now) }
        ensures stays { OnErr result (Self.left self.new ≡ Self.left self.old) }
        ensures cause { HasCause (Self.faults self.old) (Self.faults self.new) result };

    /// Puts bytes in front of what is left, so that they are read next. Where there is no memory for them, the input is as it was.
    fn put_back(&mut self, alloc: Global, bytes: &[u8]) -> Result<(), NoMemory>
        ensures bytes { OnOk result (Self.left self.new ≡ prepend_known bytes.now (Self.left self.old)) }
        ensures stays { OnErr result (Self.left self.new ≡ Self.left self.old) }
        ensures faultless { Self.faults self.new ≡ Self.faults self.old };

    /// The file by itself, from its first byte on, where it can be read beside the input. The input stays as it is.
    fn beside(&self, name: &str) -> Option<Self::Beside>
        ensures { IfSome result (λ file. IfSome (behind self.now name.now) (λ all. Self.Beside.Source.left file ≡ Some all)) };
}
