//! A sink in memory, some of whose calls fail.
ghost use Rattle.std.specs.Prelude.{◌≡◌, ◌<◌, ◌≤◌, ◌-◌, ◌||◌, [], ℕ, Some, IfOk, is_err, length, min, nat_eq};
ghost use Rattle.std.specs.Io.KnownBytes.{WriteAppends};
ghost use Rattle.kc_io.specs.Calls.{after_call, is_next_named};
ghost use Rattle.kc_io.specs.Causes.{HasCause};
ghost use Rattle.kc_io.specs.FirstPiece.{KeepsFirst};
ghost use Rattle.kc_io.specs.Offers.{IsOffered, amount};

use crate::calls::Calls;
use crate::pieces::Pieces;
use crate::sink::Sink;
use crate::{Failed, NoMemory};
use std::alloc::Global;
use std::marker::Model;

/// Bytes that are kept in memory. It tells them.
#[derive(Drop)]
pub struct MemSink {
    kept: Vec<u8>,
    pieces: Pieces,
    most: usize,
    per_write: usize,
    calls: Calls,
}

impl Model for MemSink {
    ghost use Rattle.std.specs.Prelude.{◌<◌, ◌≤◌, vec_capacity, vec_len};
    ghost use Rattle.kc_io.specs.Memory.{SinkState};

    ghost Value = { SinkState };

    ghost view = { λ s. record {
      taken = s.kept.items;
      first = s.pieces.first;
      offers = record { begun = s.pieces.begun; rest = s.pieces.rest };
      most = s.most;
      per_write = s.per_write;
      calls = s.calls;
    } };

    ghost invariant = { λ s. (vec_len s.kept ≤ s.most) × (s.most ≤ vec_capacity s.kept) × (0 < s.per_write) };
}

impl MemSink {
    /// A sink that takes `most` bytes in all, and at most `per_write` in a call. A call fails, and raises the count
    /// of faults, exactly where its number, from 1, stands in `fails` or `most` bytes were taken already. Room for
    /// all bytes is reserved here.
    pub fn new(
        alloc: Global,
        most: usize,
        per_write: usize,
        fails: Vec<u32>,
    ) -> Result<MemSink, NoMemory>
        requires { 0 < per_write }
        ensures { IfOk result (λ sink. sink ≡ record {
          taken = [];
          first = 0;
          offers = record { begun = 0; rest = 0 };
          most = most;
          per_write = per_write;
          calls = record { fails = fails.items; made = 0; failed = 0 };
        }) }
    {
        let kept = Vec::with_capacity(alloc, most)?;
        Ok(MemSink {
            kept,
            pieces: Pieces::new(),
            most,
            per_write,
            calls: Calls::new(fails),
        })
    }

    /// The bytes that were taken.
    pub fn taken(&self) -> &[u8]
        ensures { result.now ≡ self.now.taken }
    {
        &self.kept
    }
}

impl Sink for MemSink {
    ghost taken = { λ s. Some s.taken };

    ghost first = { λ s. Some s.first };

    ghost offers = { λ s. Some s.offers };

    ghost faults = { λ s. s.calls.failed };

    fn write(&mut self, piece: &[u8]) -> Result<usize, Failed>
        requires { 0 < length piece.now }
        ensures bound { IfOk result (λ n. (0 < n) × (n ≤ length piece.now)) }
        ensures bytes { WriteAppends (Some self.old.taken) (Some self.new.taken) result piece.now }
        ensures first { KeepsFirst (Some self.old.first) (Some self.new.first) piece.now }
        ensures offers { IsOffered (Some self.old.offers) (Some self.new.offers) (length piece.now) (amount result) }
        ensures cause { HasCause self.old.calls.failed self.new.calls.failed result }
        ensures fails { is_err result ≡ (is_next_named self.old.calls || nat_eq (length self.old.taken) self.old.most) }
        ensures counted { self.new.calls ≡ after_call self.old.calls (is_err result) }
        ensures taken { IfOk result (λ n. n ≡ min (min (length piece.now) self.old.per_write) (self.old.most - length self.old.taken)) }
        ensures same { (self.new.most ≡ self.old.most) × (self.new.per_write ≡ self.old.per_write) }
    {
        self.pieces.offer(piece.len());
        if self.calls.begin() || self.kept.len() == self.most {
            return Err(self.calls.fail());
        }
        let n = piece
            .len()
            .min(self.per_write)
            .min(self.most - self.kept.len());
        self.kept.extend_from_slice(&piece[..n]).unwrap();
        self.pieces.rest -= n;
        Ok(n)
    }
}
