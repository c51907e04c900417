//! Where bytes come from.
ghost use Rattle.std.specs.Prelude.{◌≡◌, ◌≢◌, ◌<◌, ◌≤◌, ◌+◌, ℕ, List, Option, Result, IfSome, IfOk, OnOk, IsErrOf, length, take, drop};
ghost use Rattle.std.specs.Io.{ReadsAtMost};
ghost use Rattle.std.specs.Io.KnownBytes.{ReadConsumes, Consumes, IsAtEnd};
ghost use Rattle.kc_io.specs.Causes.{HasCause, Rose};
ghost use Rattle.kc_io.specs.declared.source.ReadAllFault.TheVariants as fault;

use crate::{Failed, NoMemory};
use std::alloc::Global;
use thiserror::Error;

/// Where bytes come from, in order, until there are none left.
pub trait Source {
    /// The bytes that are left, where the source tells them.
    ghost left: { Self → Option (List ℕ) };

    /// How many calls have failed, up to the last value of a `u64`.
    ghost faults: { Self → ℕ };

    /// Puts the next bytes at the front of `into` and gives their number; 0 is the end of the input.
    /// A call that fails takes no byte, and the count of faults rises. At any other call the count stays.
    fn read(&mut self, into: &mut [u8]) -> Result<usize, Failed>
        requires { 0 < length into.old }
        ensures bound { ReadsAtMost result into.new }
        ensures bytes { ReadConsumes (left self.old) (left self.new) result into.new }
        ensures cause { HasCause (faults self.old) (faults self.new) result };
}

/// Why [`read_all`] gives no bytes.
#[derive(Clone, Copy, Debug, PartialEq, Eq, Drop, Error)]
pub enum ReadAllFault {
    /// The source failed.
    #[error("read fault")]
    ReadFault,
    /// There are more bytes than were asked for.
    #[error("too long")]
    TooLong,
    /// There was no memory for the bytes.
    #[error("no memory")]
    NoMemory,
}

impl From<Failed> for ReadAllFault {
    ghost from_gives = { λ _ e. e ≡ fault.ReadFault };

    fn from(_: Failed) -> ReadAllFault {
        ReadAllFault::ReadFault
    }
}

impl From<NoMemory> for ReadAllFault {
    ghost from_gives = { λ _ e. e ≡ fault.NoMemory };

    fn from(_: NoMemory) -> ReadAllFault {
        ReadAllFault::NoMemory
    }
}

/// How many bytes of room are made at once.
const PIECE_BYTES: usize = 65_536;

/// Makes room behind the first `done` bytes where there is none: for a piece, or for as much of it as keeps the
/// whole at one byte above `most`. Each byte of room is cleared once.
fn make_room(bytes: &mut Vec<u8>, done: usize, most: usize) -> Result<(), NoMemory>
    requires { (done ≤ most) × (done ≤ length bytes.old.items) × (length bytes.old.items ≤ most + 1) }
    ensures kept { take done bytes.new.items ≡ take done bytes.old.items }
    ensures within { done ≤ length bytes.new.items }
    ensures room { OnOk result (done < length bytes.new.items) }
    ensures fits { length bytes.new.items ≤ most + 1 }
{
    if done < bytes.len() {
        return Ok(());
    }
    let room = PIECE_BYTES.min(most.saturating_add(1) - done);
    bytes.resize(done + room, 0)
}

/// Reads once into the room behind the first `done` bytes.
fn read_behind<S: Source>(source: &mut S, bytes: &mut Vec<u8>, done: usize) -> Result<usize, Failed>
    requires { done < length bytes.old.items }
    ensures bound { IfOk result (λ n. done + n ≤ length bytes.new.items) }
    ensures bytes { ReadConsumes (S.left source.old) (S.left source.new) result (drop done bytes.new.items) }
    ensures cause { HasCause (S.faults source.old) (S.faults source.new) result }
    ensures kept { take done bytes.new.items ≡ take done bytes.old.items }
    ensures room { length bytes.new.items ≡ length bytes.old.items }
{
    source.read(&mut bytes[done..])
}

/// All bytes of the source, up to its end, where there are at most `most`. They are read straight into the vector that is
/// given back.
///
/// `ReadFault` comes only where the source's count of faults rose in this call; at each other answer no call of the
/// source has failed. `TooLong` comes only where the source gave more bytes than `most`. After each answer the source
/// has lost just the bytes that it gave in this call, and they are at most one more than `most`.
pub fn read_all<S: Source>(
    alloc: Global,
    source: &mut S,
    most: usize,
) -> Result<Vec<u8>, ReadAllFault>
    ensures whole { IfOk result (λ bytes. IfSome (S.left source.old) (λ told. bytes.items ≡ told)) }
    ensures ended { OnOk result (IsAtEnd (S.left source.new)) }
    ensures fits { IfOk result (λ bytes. length bytes.items ≤ most) }
    ensures given { (given : List ℕ) × Consumes (S.left source.old) (S.left source.new) given
        × IfOk result (λ bytes. bytes.items ≡ given)
        × (IsErrOf result ReadAllFault.TooLong → most < length given)
        × (length given ≤ most + 1) }
    ensures faultless { result ≢ Err ReadAllFault.ReadFault → S.faults source.new ≡ S.faults source.old }
    ensures later { S.faults source.old ≤ S.faults source.new }
    ensures read_fault { IsErrOf result ReadAllFault.ReadFault → Rose (S.faults source.old) (S.faults source.new) }
    ensures too_long { IsErrOf result ReadAllFault.TooLong → IfSome (S.left source.old) (λ told. most < length told) }
{
    let mut bytes = Vec::new(alloc);
    let mut done = 0;
    while done <= most {
        make_room(&mut bytes, done, most)?;
        let n = read_behind(source, &mut bytes, done)?;
        if n == 0 {
            bytes.truncate(done);
            return Ok(bytes);
        }
        done += n;
    }
    Err(ReadAllFault::TooLong)
}
