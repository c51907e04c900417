//! The files of a runtime as a folder.
ghost use Rattle.std.specs.Prelude.{◌≡◌, ◌<◌, ◌≤◌, ℕ, List, None, IfOk, OnErr, OnOk, length};
ghost use Rattle.std.specs.Io.KnownBytes.{WriteAppends};
ghost use Rattle.kc_io.specs.Causes.{HasCause, Rose};
ghost use Rattle.kc_io.specs.FirstPiece.{KeepsFirst};
ghost use Rattle.kc_io.specs.Offers.{IsOffered, amount};
ghost use Rattle.kc_files.specs.Folders.{IsBegun, TellsNothing, held_as, untold};

use crate::fault::FolderFault;
use crate::folder::{Folder, Unplaced};
use kc_io::sink::Sink;
use kc_io::std_sink::StdSink;
use kc_io::{Failed, NoMemory};
use std::alloc::Global;
use std::fs;
use std::fs::{File, OpenFile};
use std::io::Write;
use std::marker::Model;
use std::rt::Files;

/// A file that stands beside another one: a sink that tells its faults and no bytes.
#[derive(Drop)]
pub struct StdPart<F: Write> {
    sink: StdSink<F>,
    name: String,
}

impl<F: Write> Model for StdPart<F> {
    ghost use Rattle.kc_files.specs.Folders.{UntoldFolder};

    ghost Value = { UntoldFolder };

    ghost view = { λ s. record { failed = s.sink.failed } };
}

impl<F: Write> Sink for StdPart<F> {
    ghost taken = { λ _. None };

    ghost first = { λ _. None };

    ghost offers = { λ _. None };

    ghost faults = { λ s. s.failed };

    fn write(&mut self, piece: &[u8]) -> Result<usize, Failed>
        requires { 0 < length piece.now }
        ensures bound { IfOk result (λ n. (0 < n) × (n ≤ length piece.now)) }
        ensures bytes { WriteAppends None None result piece.now }
        ensures first { KeepsFirst None None piece.now }
        ensures offers { IsOffered None None (length piece.now) (amount result) }
        ensures cause { HasCause self.old.failed self.new.failed result }
    {
        self.sink.write(piece)
    }
}

/// The files of a runtime. The part of a file stands beside it under its name with `.part` behind it, and is no file that is there already.
///
/// Contracts see how many calls have failed: each fault raises the count by one, up to the last value of a `u64`, and nothing else does.
/// They see no bytes: what the operating system does is trusted.
#[derive(Drop)]
pub struct StdFolder<'a, R: Files> {
    files: &'a R,
    alloc: Global,
    failed: u64,
}

impl<'a, R: Files> Model for StdFolder<'a, R> {
    ghost use Rattle.kc_files.specs.Folders.{UntoldFolder};

    ghost Value = { UntoldFolder };

    ghost view = { λ s. record { failed = s.failed } };
}

impl From<NoMemory> for FolderFault {
    ghost use Rattle.std.specs.Prelude.{◌≡◌};
    ghost use Rattle.kc_files.specs.declared.fault.FolderFault.{FolderFault};

    ghost from_gives = { λ _ fault. fault ≡ FolderFault.Other };

    fn from(_: NoMemory) -> FolderFault {
        FolderFault::Other
    }
}

/// Whether something of this name can be replaced: a plain file can, and so can nothing.
fn replaceable<R: Files>(files: &R, name: &str) -> Result<(), FolderFault> {
    let Ok(found) = fs::symlink_metadata(files, name) else {
        return Ok(());
    };
    if found.is_dir() {
        return Err(FolderFault::Folder);
    }
    if found.is_file() {
        Ok(())
    } else {
        Err(FolderFault::Special)
    }
}

/// Begins the part of a file that can be replaced.
fn begin_part<R: Files>(
    alloc: Global,
    files: &R,
    name: &str,
) -> Result<StdPart<R::File>, FolderFault>
    ensures { IfOk result (λ part. part.failed ≡ 0) }
{
    replaceable(files, name)?;
    let beside = format!(in alloc; "{name}.part")?;
    let file = File::create_new(files, beside.as_str())?;
    Ok(StdPart {
        sink: StdSink::new(file),
        name: beside,
    })
}

/// Waits until the bytes of a part are kept, and gives it the name of the file.
fn rename_part<R: Files>(files: &R, part: &str, name: &str) -> Result<(), FolderFault> {
    fs::open(files, part)?.sync_all()?;
    fs::rename(files, part, name)?;
    Ok(())
}

impl<'a, R: Files> StdFolder<'a, R> {
    /// The files of the runtime, of which no call has failed.
    pub fn new(files: &'a R, alloc: Global) -> StdFolder<'a, R>
        ensures { result ≡ record { failed = 0 } }
    {
        StdFolder {
            files,
            alloc,
            failed: 0,
        }
    }

    /// Counts a call that has failed.
    fn fail(&mut self)
        ensures later { self.old.failed ≤ self.new.failed }
        ensures failed { Rose self.old.failed self.new.failed }
    {
        self.failed = self.failed.saturating_add(1);
    }

    /// Takes away the part of this name after a call has failed, and tells whether it is left.
    fn give_up_named(&mut self, part: &str) -> bool
        ensures later { self.old.failed ≤ self.new.failed }
        ensures failed { Rose self.old.failed self.new.failed }
    {
        self.fail();
        fs::remove_file(self.files, part).is_err()
    }
}

impl<'a, R: Files> Folder for StdFolder<'a, R> {
    type Part = StdPart<R::File>;

    ghost holds = { λ _ _. untold };

    ghost failed = { λ s. s.failed };

    fn begin(&mut self, name: &str) -> Result<StdPart<R::File>, FolderFault>
        ensures begun { IfOk result (λ part. IsBegun None (λ _. untold) × (part.failed ≡ 0)) }
        ensures holds { (file : List ℕ) → untold ≡ untold }
        ensures cause { HasCause self.old.failed self.new.failed result }
    {
        match begin_part(self.alloc, self.files, name) {
            Ok(part) => Ok(part),
            Err(fault) => {
                self.fail();
                Err(fault)
            }
        }
    }

    fn put_in_place(&mut self, name: &str, part: StdPart<R::File>) -> Result<(), Unplaced>
        ensures placed { OnOk result (untold ≡ held_as None) }
        ensures untold { TellsNothing (λ _. untold) → untold ≡ None }
        ensures others { (file : List ℕ) → (file ≡ name.now → ⊥) → untold ≡ untold }
        ensures stays { OnErr result ((file : List ℕ) → untold ≡ untold) }
        ensures cause { HasCause self.old.failed self.new.failed result }
    {
        match rename_part(self.files, part.name.as_str(), name) {
            Ok(()) => Ok(()),
            Err(fault) => {
                let is_left = self.give_up_named(part.name.as_str());
                Err(Unplaced { fault, is_left })
            }
        }
    }

    fn give_up(&mut self, part: StdPart<R::File>) -> bool
        requires { 0 < part.failed }
        ensures holds { (file : List ℕ) → untold ≡ untold }
        ensures later { self.old.failed ≤ self.new.failed }
        ensures failed { Rose self.old.failed self.new.failed }
    {
        self.give_up_named(part.name.as_str())
    }
}
