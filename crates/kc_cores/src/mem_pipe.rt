//! A sink in memory whose reader goes away.
ghost use Rattle.std.specs.Prelude.{◌≡◌, ◌<◌, ◌≤◌, [], Some, IfOk, false, is_err, length, nat_eq, if◌then◌else◌};
ghost use Rattle.std.specs.Io.KnownBytes.{WriteAppends};
ghost use Rattle.kc_io.specs.Causes.{HasCause};
ghost use Rattle.kc_io.specs.FirstPiece.{KeepsFirst};
ghost use Rattle.kc_io.specs.Offers.{IsOffered, amount};

use crate::pipe::PipeSink;
use kc_io::mem_sink::MemSink;
use kc_io::sink::Sink;
use kc_io::{Failed, NoMemory};
use std::alloc::Global;
use std::marker::Model;

/// Bytes that are kept in memory, up to those after which the reader goes away. It tells them.
#[derive(Drop)]
pub struct MemPipe {
    sink: MemSink,
    most: usize,
    gone: bool,
}

impl Model for MemPipe {
    ghost use Rattle.std.specs.Prelude.{◌≡◌};
    ghost use Rattle.kc_cores.specs.Outputs.{PipeState};

    ghost Value = { PipeState };

    ghost view = { λ s. record { sink = s.sink; gone = s.gone } };

    ghost invariant = { λ s. s.most ≡ s.sink.most };
}

impl MemPipe {
    /// A sink as `MemSink::new` makes it, whose reader goes away after it took `most` bytes. So a call fails where its number, from 1,
    /// stands in `fails`, and where the reader is gone.
    pub fn new(
        alloc: Global,
        most: usize,
        per_write: usize,
        fails: Vec<u32>,
    ) -> Result<MemPipe, NoMemory>
        requires { 0 < per_write }
        ensures { IfOk result (λ pipe. pipe ≡ record {
          sink = record {
            taken = [];
            first = 0;
            offers = record { begun = 0; rest = 0 };
            most = most;
            per_write = per_write;
            calls = record { fails = fails.items; made = 0; failed = 0 };
          };
          gone = false;
        }) }
    {
        let sink = MemSink::new(alloc, most, per_write, fails)?;
        Ok(MemPipe {
            sink,
            most,
            gone: false,
        })
    }

    /// The bytes that were taken.
    pub fn taken(&self) -> &[u8]
        ensures { result.now ≡ self.now.sink.taken }
    {
        self.sink.taken()
    }
}

impl Sink for MemPipe {
    ghost taken = { λ s. Some s.sink.taken };

    ghost first = { λ s. Some s.sink.first };

    ghost offers = { λ s. Some s.sink.offers };

    ghost faults = { λ s. s.sink.calls.failed };

    fn write(&mut self, piece: &[u8]) -> Result<usize, Failed>
        requires { 0 < length piece.now }
        ensures bound { IfOk result (λ n. (0 < n) × (n ≤ length piece.now)) }
        ensures bytes { WriteAppends (Some self.old.sink.taken) (Some self.new.sink.taken) result piece.now }
        ensures first { KeepsFirst (Some self.old.sink.first) (Some self.new.sink.first) piece.now }
        ensures offers { IsOffered (Some self.old.sink.offers) (Some self.new.sink.offers) (length piece.now) (amount result) }
        ensures cause { HasCause self.old.sink.calls.failed self.new.sink.calls.failed result }
        ensures gone { self.new.gone ≡ (if is_err result then nat_eq (length self.old.sink.taken) self.old.sink.most else self.old.gone) }
        ensures same { (self.new.sink.most ≡ self.old.sink.most) × (self.new.sink.per_write ≡ self.old.sink.per_write) }
    {
        let full = self.sink.taken().len() == self.most;
        let written = self.sink.write(piece);
        if written.is_err() {
            self.gone = full;
        }
        written
    }
}

impl PipeSink for MemPipe {
    ghost gone = { λ s. s.gone };

    fn is_reader_gone(&self) -> bool
        ensures { result ≡ self.now.gone }
    {
        self.gone
    }
}
