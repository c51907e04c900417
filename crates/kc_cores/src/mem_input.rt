//! An input in memory, with one file.
ghost use Rattle.std.specs.Prelude.{◌≡◌, ◌<◌, ◌++◌, Some, OnErr, OnOk, is_err, is_none, length, string_bytes};
ghost use Rattle.std.specs.Io.{ReadsAtMost};
ghost use Rattle.std.specs.Io.KnownBytes.{ReadConsumes};
ghost use Rattle.kc_io.specs.Causes.{HasCause, faults_after};
ghost use Rattle.kc_cores.specs.Inputs.{bytes_behind};

use crate::front::{Front, read_front, with_front};
use crate::input::{FileFault, FileInput};
use kc_io::mem_source::MemSource;
use kc_io::source::Source;
use kc_io::{Failed, NoMemory};
use kc_progress::Progress;
use std::alloc::Global;
use std::marker::Model;

/// Bytes in memory that stand for standard input, and a file in memory that it can be turned to once. It tells the bytes of both.
#[derive(Drop)]
pub struct MemInput {
    /// The bytes that were put back.
    front: Option<Front>,
    source: MemSource,
    name: String,
    file: Option<MemSource>,
    failed: u64,
}

impl Model for MemInput {
    ghost use Rattle.std.specs.Prelude.{◌++◌, option_map, string_bytes};
    ghost use Rattle.kc_cores.specs.Inputs.{InputState, MemFile, front_bytes};

    ghost Value = { InputState };

    ghost view = { λ s. record {
      source = record s.source { left = front_bytes s.front ++ s.source.left };
      file = option_map (λ f. record { name = string_bytes s.name; source = f }) s.file;
      failed = s.failed;
    } };
}

impl MemInput {
    /// The bytes of `source` stand for standard input, and `file` is the file of this name. No call has failed.
    pub fn new(source: MemSource, name: String, file: MemSource) -> MemInput
        ensures { result ≡ record { source = source; file = Some (record { name = string_bytes name; source = file }); failed = 0 } }
    {
        MemInput {
            front: None,
            source,
            name,
            file: Some(file),
            failed: 0,
        }
    }
}

impl Source for MemInput {
    ghost left = { λ s. Some s.source.left };

    ghost faults = { λ s. s.failed };

    fn read(&mut self, into: &mut [u8]) -> Result<usize, Failed>
        requires { 0 < length into.old }
        ensures bound { ReadsAtMost result into.new }
        ensures bytes { ReadConsumes (Some self.old.source.left) (Some self.new.source.left) result into.new }
        ensures cause { HasCause self.old.failed self.new.failed result }
        ensures counted { self.new.failed ≡ faults_after self.old.failed result }
    {
        let n = read_front(&mut self.front, into);
        if n > 0 {
            return Ok(n);
        }
        match self.source.read(into) {
            Ok(n) => Ok(n),
            Err(Failed) => {
                self.failed = self.failed.saturating_add(1);
                Err(Failed)
            }
        }
    }
}

/// It does nothing with what it is told.
impl Progress for MemInput {
    fn begin(&self) {}

    fn has_read(&self, _bytes: usize) {}

    fn peeled(&self, _core: u32) {}

    fn end(&self) {}
}

impl FileInput for MemInput {
    type Beside = MemSource;

    ghost behind = { bytes_behind };

    fn open(&mut self, name: &str) -> Result<(), FileFault>
        ensures bytes { OnOk result (Some self.new.source.left ≡ bytes_behind self.old name.now) }
        ensures stays { OnErr result (self.new.source ≡ self.old.source) }
        ensures cause { HasCause self.old.failed self.new.failed result }
        ensures missing { is_err result ≡ is_none (bytes_behind self.old name.now) }
        ensures counted { self.new.failed ≡ faults_after self.old.failed result }
    {
        if self.name.as_str() == name {
            if let Some(file) = self.file.take() {
                self.front = None;
                self.source = file;
                return Ok(());
            }
        }
        self.failed = self.failed.saturating_add(1);
        Err(FileFault::Missing)
    }

    fn put_back(&mut self, alloc: Global, bytes: &[u8]) -> Result<(), NoMemory>
        ensures bytes { OnOk result (Some self.new.source.left ≡ Some (bytes.now ++ self.old.source.left)) }
        ensures stays { OnErr result (self.new.source ≡ self.old.source) }
        ensures faultless { self.new.failed ≡ self.old.failed }
    {
        let front = with_front(alloc, bytes, self.front.as_ref())?;
        self.front = Some(front);
        Ok(())
    }

    /// There is none: its file is read once.
    fn beside(&self, _: &str) -> Option<MemSource> {
        None
    }
}
