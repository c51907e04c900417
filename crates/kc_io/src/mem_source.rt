//! A source in memory, some of whose calls fail.
ghost use Rattle.std.specs.Prelude.{◌≡◌, ◌<◌, Some, IfOk, is_err, length, min};
ghost use Rattle.std.specs.Io.{ReadsAtMost};
ghost use Rattle.std.specs.Io.KnownBytes.{ReadConsumes};
ghost use Rattle.kc_io.specs.Calls.{after_call, is_next_named};
ghost use Rattle.kc_io.specs.Causes.{HasCause};

use crate::Failed;
use crate::calls::Calls;
use crate::source::Source;
use std::marker::Model;

/// Bytes in memory that are read in order. It tells them.
#[derive(Drop)]
pub struct MemSource {
    bytes: Vec<u8>,
    done: usize,
    per_read: usize,
    calls: Calls,
}

impl Model for MemSource {
    ghost use Rattle.std.specs.Prelude.{◌<◌, ◌≤◌, drop, vec_len};
    ghost use Rattle.kc_io.specs.Memory.{SourceState};

    ghost Value = { SourceState };

    ghost view = { λ s. record { left = drop s.done s.bytes.items; per_read = s.per_read; calls = s.calls } };

    ghost invariant = { λ s. (s.done ≤ vec_len s.bytes) × (0 < s.per_read) };
}

impl MemSource {
    /// A source of `bytes`. A read gives at most `per_read` of them. A call fails, and raises the count of faults,
    /// exactly where its number, from 1, stands in `fails`.
    pub fn new(bytes: Vec<u8>, per_read: usize, fails: Vec<u32>) -> MemSource
        requires { 0 < per_read }
        ensures { result ≡ record { left = bytes.items; per_read = per_read; calls = record { fails = fails.items; made = 0; failed = 0 } } }
    {
        MemSource {
            bytes,
            done: 0,
            per_read,
            calls: Calls::new(fails),
        }
    }
}

impl Source for MemSource {
    ghost left = { λ s. Some s.left };

    ghost faults = { λ s. s.calls.failed };

    fn read(&mut self, into: &mut [u8]) -> Result<usize, Failed>
        requires { 0 < length into.old }
        ensures bound { ReadsAtMost result into.new }
        ensures bytes { ReadConsumes (Some self.old.left) (Some self.new.left) result into.new }
        ensures cause { HasCause self.old.calls.failed self.new.calls.failed result }
        ensures fails { is_err result ≡ is_next_named self.old.calls }
        ensures counted { self.new.calls ≡ after_call self.old.calls (is_err result) }
        ensures amount { IfOk result (λ n. n ≡ min (min (length into.old) self.old.per_read) (length self.old.left)) }
        ensures same { self.new.per_read ≡ self.old.per_read }
    {
        if self.calls.begin() {
            return Err(self.calls.fail());
        }
        let left = &self.bytes[self.done..];
        let n = into.len().min(self.per_read).min(left.len());
        into[..n].copy_from_slice(&left[..n]);
        self.done += n;
        Ok(n)
    }
}
