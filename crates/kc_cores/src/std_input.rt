//! A reader of std, and the files of the runtime, as an input. It tells a progress of what is read.
ghost use Rattle.std.specs.Prelude.{◌≡◌, ◌<◌, OnErr, OnOk, length};
ghost use Rattle.std.specs.Io.{ReadsAtMost};
ghost use Rattle.std.specs.Io.KnownBytes.{ReadConsumes};
ghost use Rattle.kc_io.specs.Causes.{HasCause, faults_after};
ghost use Rattle.kc_cores.specs.Inputs.{no_bytes};

use crate::front::{Front, read_front, with_front};
use crate::input::{FileFault, FileInput};
use kc_io::source::Source;
use kc_io::std_source::StdSource;
use kc_io::{Failed, NoMemory};
use kc_progress::Progress;
use std::alloc::Global;
use std::fs;
use std::fs::OpenFile;
use std::io::Read;
use std::marker::Model;
use std::rt::Files;

/// A reader, which stands for standard input, and the files of the runtime.
///
/// Contracts see how many calls have failed: each fault raises the count by one, up to the last value of a `u64`, and nothing else does.
/// They see no bytes: what the operating system gives is trusted.
#[derive(Drop)]
pub struct StdInput<'a, R: Files, S: Read, P: Progress> {
    files: &'a R,
    progress: P,
    /// The bytes that were put back.
    front: Option<Front>,
    standard: StdSource<S>,
    file: Option<StdSource<R::File>>,
    failed: u64,
}

impl<'a, R: Files, S: Read, P: Progress> Model for StdInput<'a, R, S, P> {
    ghost use Rattle.kc_cores.specs.Inputs.{Untold};

    ghost Value = { Untold };

    ghost view = { λ s. record { failed = s.failed } };
}

/// Opens a file, and no folder.
fn open_file<R: Files>(files: &R, name: &str) -> Result<R::File, FileFault> {
    let file = fs::open(files, name)?;
    if file.metadata()?.is_dir() {
        return Err(FileFault::Folder);
    }
    Ok(file)
}

/// Opens a file that may be opened again: a pipe is not opened.
fn file_beside<R: Files>(files: &R, name: &str) -> Result<R::File, FileFault> {
    if !fs::metadata(files, name)?.is_file() {
        return Err(FileFault::Other);
    }
    open_file(files, name)
}

/// What a call has read, once the progress is told of it.
fn told<P: Progress>(progress: &P, read: Result<usize, Failed>) -> Result<usize, Failed>
    ensures { result ≡ read }
{
    if let Ok(n) = &read {
        progress.has_read(*n);
    }
    read
}

impl<'a, R: Files, S: Read, P: Progress> StdInput<'a, R, S, P> {
    /// The reader, of which no call has failed, and no file. The progress is told how many bytes come.
    pub fn new(files: &'a R, standard: S, progress: P) -> StdInput<'a, R, S, P>
        ensures { result ≡ record { failed = 0 } }
    {
        StdInput {
            files,
            progress,
            front: None,
            standard: StdSource::new(standard),
            file: None,
            failed: 0,
        }
    }

    /// Reads what was put back, and else from the file, where one is open, or from the reader.
    fn read_on(&mut self, into: &mut [u8]) -> Result<usize, Failed>
        requires { 0 < length into.old }
        ensures bound { ReadsAtMost result into.new }
        ensures kept { self.new ≡ self.old }
    {
        let n = read_front(&mut self.front, into);
        if n > 0 {
            return Ok(n);
        }
        match &mut self.file {
            Some(file) => told(&self.progress, file.read(into)),
            None => told(&self.progress, self.standard.read(into)),
        }
    }
}

impl<'a, R: Files, S: Read, P: Progress> Source for StdInput<'a, R, S, P> {
    ghost left = { λ _. no_bytes };

    ghost faults = { λ s. s.failed };

    fn read(&mut self, into: &mut [u8]) -> Result<usize, Failed>
        requires { 0 < length into.old }
        ensures bound { ReadsAtMost result into.new }
        ensures bytes { ReadConsumes no_bytes no_bytes result into.new }
        ensures cause { HasCause self.old.failed self.new.failed result }
        ensures counted { self.new.failed ≡ faults_after self.old.failed result }
    {
        match self.read_on(into) {
            Ok(n) => Ok(n),
            Err(Failed) => {
                self.failed = self.failed.saturating_add(1);
                Err(Failed)
            }
        }
    }
}

impl<'a, R: Files, S: Read, P: Progress> Progress for StdInput<'a, R, S, P> {
    fn begin(&self) {
        self.progress.begin()
    }

    fn has_read(&self, bytes: usize) {
        self.progress.has_read(bytes)
    }

    fn peeled(&self, core: u32) {
        self.progress.peeled(core)
    }

    fn end(&self) {
        self.progress.end()
    }
}

impl<'a, R: Files, S: Read, P: Progress> FileInput for StdInput<'a, R, S, P> {
    type Beside = StdSource<R::File>;

    ghost behind = { λ _ _. no_bytes };

    fn open(&mut self, name: &str) -> Result<(), FileFault>
        ensures bytes { OnOk result (no_bytes ≡ no_bytes) }
        ensures stays { OnErr result (no_bytes ≡ no_bytes) }
        ensures cause { HasCause self.old.failed self.new.failed result }
        ensures counted { self.new.failed ≡ faults_after self.old.failed result }
    {
        match open_file(self.files, name) {
            Ok(file) => {
                self.front = None;
                self.file = Some(StdSource::new(file));
                Ok(())
            }
            Err(fault) => {
                self.failed = self.failed.saturating_add(1);
                Err(fault)
            }
        }
    }

    fn put_back(&mut self, alloc: Global, bytes: &[u8]) -> Result<(), NoMemory>
        ensures bytes { OnOk result (no_bytes ≡ no_bytes) }
        ensures stays { OnErr result (no_bytes ≡ no_bytes) }
        ensures faultless { self.new.failed ≡ self.old.failed }
    {
        let front = with_front(alloc, bytes, self.front.as_ref())?;
        self.front = Some(front);
        Ok(())
    }

    /// The file is opened once more. What is no file on a disk, as a pipe, is not, since it can be read just once.
    fn beside(&self, name: &str) -> Option<StdSource<R::File>> {
        match file_beside(self.files, name) {
            Ok(file) => Some(StdSource::new(file)),
            Err(_) => None,
        }
    }
}
