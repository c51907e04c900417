//! A folder in memory, with one file.
ghost use Rattle.std.specs.Prelude.{◌≡◌, ◌<◌, ◌≤◌, ℕ, List, None, Some, IfOk, OnErr, OnOk, option_map, string_bytes};
ghost use Rattle.kc_io.specs.Causes.{HasCause, Rose, one_more};
ghost use Rattle.kc_files.specs.Folders.{IsBegun, IsFresh, TellsNothing, held_as, held_in};

use crate::fault::FolderFault;
use crate::folder::{Folder, Unplaced};
use kc_io::mem_sink::MemSink;
use kc_io::sink::Sink;
use std::marker::Model;

/// What a folder in memory refuses.
#[derive(Clone, Copy, Debug, PartialEq, Eq)]
pub struct Refusals {
    /// Why a part is not begun.
    pub unbegun: Option<FolderFault>,
    /// Why a part is not put in place.
    pub unplaced: Option<FolderFault>,
    /// Whether a part can't be taken away.
    pub sticks: bool,
}

/// A folder that has one file at most, and takes one part of it. It tells the bytes of the file.
#[derive(Drop)]
pub struct MemFolder {
    name: String,
    before: Option<Vec<u8>>,
    placed: Option<MemSink>,
    part: Option<MemSink>,
    refusals: Refusals,
    failed: u64,
}

impl Model for MemFolder {
    ghost use Rattle.std.specs.Prelude.{IfSome, option_map, string_bytes};
    ghost use Rattle.kc_files.specs.Folders.{FolderState, IsFresh, bytes_after};

    ghost Value = { FolderState };

    ghost view = { λ s. record {
      name = string_bytes s.name;
      bytes = bytes_after (option_map (λ sink. sink.taken) s.placed) (option_map (λ v. v.items) s.before);
      part = s.part;
      unbegun = s.refusals.unbegun;
      unplaced = s.refusals.unplaced;
      sticks = s.refusals.sticks;
      failed = s.failed;
    } };

    ghost invariant = { λ s. IfSome s.part (λ sink. IsFresh sink) };
}

impl MemFolder {
    /// The folder has the file of this name with these bytes, or none, and `part` is what becomes its part.
    pub fn new(name: String, bytes: Option<Vec<u8>>, part: MemSink, refusals: Refusals) -> MemFolder
        requires { IsFresh part }
        ensures { result ≡ record {
          name = string_bytes name;
          bytes = option_map (λ v. v.items) bytes;
          part = Some part;
          unbegun = refusals.unbegun;
          unplaced = refusals.unplaced;
          sticks = refusals.sticks;
          failed = 0;
        } }
    {
        MemFolder {
            name,
            before: bytes,
            placed: None,
            part: Some(part),
            refusals,
            failed: 0,
        }
    }

    /// The bytes of the file, if it is there.
    pub fn bytes(&self) -> Option<&[u8]>
        ensures { option_map (λ t. t.now) result ≡ self.now.bytes }
    {
        match (&self.placed, &self.before) {
            (Some(sink), _) => Some(sink.taken()),
            (None, Some(bytes)) => Some(bytes),
            (None, None) => None,
        }
    }

    /// Counts a call that has failed.
    fn fail(&mut self)
        ensures counted { self.new ≡ record self.old { failed = one_more self.old.failed } }
        ensures later { self.old.failed ≤ self.new.failed }
    {
        self.failed = self.failed.saturating_add(1);
    }
}

impl Folder for MemFolder {
    type Part = MemSink;

    ghost holds = { held_in };

    ghost failed = { λ s. s.failed };

    fn begin(&mut self, name: &str) -> Result<MemSink, FolderFault>
        ensures begun { IfOk result (λ part. IsBegun (Some part.taken) (held_in self.new) × (part.calls.failed ≡ 0)) }
        ensures holds { (file : List ℕ) → held_in self.new file ≡ held_in self.old file }
        ensures cause { HasCause self.old.failed self.new.failed result }
    {
        if self.name.as_str() != name {
            self.fail();
            return Err(FolderFault::Missing);
        }
        if let Some(fault) = self.refusals.unbegun {
            self.fail();
            return Err(fault);
        }
        match self.part.take() {
            Some(part) => Ok(part),
            None => {
                self.fail();
                Err(FolderFault::Begun)
            }
        }
    }

    fn put_in_place(&mut self, name: &str, part: MemSink) -> Result<(), Unplaced>
        ensures placed { OnOk result (held_in self.new name.now ≡ held_as (Some part.taken)) }
        ensures untold { TellsNothing (held_in self.old) → held_in self.new name.now ≡ None }
        ensures others { (file : List ℕ) → (file ≡ name.now → ⊥) → held_in self.new file ≡ held_in self.old file }
        ensures stays { OnErr result ((file : List ℕ) → held_in self.new file ≡ held_in self.old file) }
        ensures cause { HasCause self.old.failed self.new.failed result }
    {
        let refusal = if self.name.as_str() == name {
            self.refusals.unplaced
        } else {
            Some(FolderFault::Missing)
        };
        match refusal {
            None => {
                self.placed = Some(part);
                Ok(())
            }
            Some(fault) => {
                self.fail();
                Err(Unplaced {
                    fault,
                    is_left: self.refusals.sticks,
                })
            }
        }
    }

    fn give_up(&mut self, _part: MemSink) -> bool
        requires { 0 < _part.calls.failed }
        ensures holds { (file : List ℕ) → held_in self.new file ≡ held_in self.old file }
        ensures later { self.old.failed ≤ self.new.failed }
        ensures failed { Rose self.old.failed self.new.failed }
    {
        self.fail();
        self.refusals.sticks
    }
}
