//! Why a file was not written.
ghost use Rattle.std.specs.Prelude.{◌≡◌};
ghost use Rattle.kc_files.specs.Faults.{fault_sentence};

use std::io;
use std::io::ErrorKind;

/// Why a part was not begun or not put in place.
#[derive(Clone, Copy, Debug, PartialEq, Eq)]
pub enum FolderFault {
    /// There is no such folder.
    Missing,
    /// The name is that of a folder.
    Folder,
    /// The name is that of a link, a pipe or a device.
    Special,
    /// The folder may not be written.
    Forbidden,
    /// A part of this file is there already.
    Begun,
    /// There is no room.
    Full,
    /// A write to the part failed.
    Cut,
    /// Any other cause.
    Other,
}

impl FolderFault {
    /// The cause, and how it is mended where that is not plain.
    pub fn sentence(self) -> &'static str
        ensures { result.now ≡ fault_sentence self }
    {
        match self {
            FolderFault::Missing => "No such file or directory",
            FolderFault::Folder => "Is a directory",
            FolderFault::Special => {
                "it is a link, a pipe or a device, and is not replaced; name another file, or write the output to it with >"
            }
            FolderFault::Forbidden => "Permission denied",
            FolderFault::Begun => {
                "a file of this name with .part behind it is there, of a run that goes on or was cut off; remove it if no run goes on"
            }
            FolderFault::Full => "No space left on device",
            FolderFault::Cut => "the output could not be written to its end",
            FolderFault::Other => "the file could not be written",
        }
    }
}

impl From<io::Error> for FolderFault {
    fn from(error: io::Error) -> FolderFault {
        match error.kind() {
            ErrorKind::NotFound => FolderFault::Missing,
            ErrorKind::IsADirectory => FolderFault::Folder,
            ErrorKind::PermissionDenied => FolderFault::Forbidden,
            ErrorKind::AlreadyExists => FolderFault::Begun,
            ErrorKind::StorageFull => FolderFault::Full,
            _ => FolderFault::Other,
        }
    }
}
