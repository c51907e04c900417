//! Where files are replaced whole.
ghost use Rattle.std.specs.Prelude.{◌≡◌, ◌<◌, ◌≤◌, ℕ, List, None, IfOk, OnErr, OnOk};
ghost use Rattle.kc_io.specs.Causes.{HasCause, Rose};
ghost use Rattle.kc_files.specs.Folders.{Held, IsBegun, TellsNothing, held_as};

use crate::fault::FolderFault;
use kc_io::sink::Sink;

/// A part was not put in place.
#[derive(Clone, Copy, Debug, PartialEq, Eq)]
pub struct Unplaced {
    pub fault: FolderFault,
    /// Whether the part could not be taken away, and so is left beside the file.
    pub is_left: bool,
}

/// Where files are replaced whole.
pub trait Folder {
    /// What becomes a file: it stands beside it until it is put in its place.
    type Part: Sink + Drop;

    /// What the folder holds as the file of this name, where it tells that.
    ghost holds: { Self → List ℕ → Held };

    /// How many calls have failed, up to the last value of a `u64`.
    ghost failed: { Self → ℕ };

    /// Begins a part of the file with this name: it has no bytes, and no call of it has failed. Where a part does not tell its bytes, the
    /// folder tells nothing. Files stay as they are. The count of faults rises where no part was begun, and else it stays.
    fn begin(&mut self, name: &str) -> Result<Self::Part, FolderFault>
        ensures begun { IfOk result (λ part. IsBegun (Self.Part.taken part) (holds self.new) × (Self.Part.faults part ≡ 0)) }
        ensures holds { (file : List ℕ) → holds self.new file ≡ holds self.old file }
        ensures cause { HasCause (failed self.old) (failed self.new) result };

    /// Puts a part in the place of the file with this name, which has the bytes of the part then. No other file changes. Where that fails all
    /// files are as they were, the count of faults rises, and the part is taken away if that can be done. A folder that tells nothing goes on
    /// to tell nothing.
    fn put_in_place(&mut self, name: &str, part: Self::Part) -> Result<(), Unplaced>
        ensures placed { OnOk result (holds self.new name.now ≡ held_as (Self.Part.taken part)) }
        ensures untold { TellsNothing (holds self.old) → holds self.new name.now ≡ None }
        ensures others { (file : List ℕ) → (file ≡ name.now → ⊥) → holds self.new file ≡ holds self.old file }
        ensures stays { OnErr result ((file : List ℕ) → holds self.new file ≡ holds self.old file) }
        ensures cause { HasCause (failed self.old) (failed self.new) result };

    /// Takes away a part of which a call has failed, and tells whether it is left as that could not be done. Files stay as they are, and the
    /// count of faults rises.
    fn give_up(&mut self, part: Self::Part) -> bool
        requires { 0 < Self.Part.faults part }
        ensures holds { (file : List ℕ) → holds self.new file ≡ holds self.old file }
        ensures later { failed self.old ≤ failed self.new }
        ensures failed { Rose (failed self.old) (failed self.new) };
}
