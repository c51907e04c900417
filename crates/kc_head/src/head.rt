//! Reads the head of a text.
ghost use Rattle.std.specs.Prelude.{◌≡◌, ◌≢◌, ◌≤◌, ◌<◌, ◌+◌, ◌⊎◌, Err, IfOk, IsErrOf, drop, length, take};
ghost use Rattle.std.specs.Io.KnownBytes.{Consumes, IsAtEnd, ReadConsumes};
ghost use Rattle.kc_io.specs.Causes.{HasCause, Rose};
ghost use Rattle.kc_head.specs.Heads.{IsFrontOf, IsHeadOf};

use kc_io::source::Source;
use kc_io::{Failed, NoMemory};
use std::alloc::Global;

/// The most bytes of a head.
pub const HEAD_BYTES: usize = 1_048_576;

/// Why there is no head.
#[derive(Clone, Copy, Debug, Drop, PartialEq, Eq)]
pub enum HeadFault {
    /// The source failed.
    ReadFault,
    /// There is no memory for the head.
    NoMemory,
}

impl From<Failed> for HeadFault {
    ghost use Rattle.std.specs.Prelude.{◌≡◌};
    ghost use Rattle.kc_head.specs.declared.head.HeadFault.{HeadFault};

    ghost from_gives = { λ _ fault. fault ≡ HeadFault.ReadFault };

    fn from(_: Failed) -> HeadFault {
        HeadFault::ReadFault
    }
}

impl From<NoMemory> for HeadFault {
    ghost use Rattle.std.specs.Prelude.{◌≡◌};
    ghost use Rattle.kc_head.specs.declared.head.HeadFault.{HeadFault};

    ghost from_gives = { λ _ fault. fault ≡ HeadFault.NoMemory };

    fn from(_: NoMemory) -> HeadFault {
        HeadFault::NoMemory
    }
}

/// Reads once into the room behind so many bytes.
fn read_behind<S: Source>(source: &mut S, room: &mut [u8], done: usize) -> Result<usize, Failed>
    requires { done < length room.old }
    ensures bound { IfOk result (λ n. done + n ≤ length room.new) }
    ensures bytes { ReadConsumes (S.left source.old) (S.left source.new) result (drop done room.new) }
    ensures cause { HasCause (S.faults source.old) (S.faults source.new) result }
    ensures kept { take done room.new ≡ take done room.old }
{
    source.read(&mut room[done..])
}

/// Reads into a room until it is full or the source is at its end, and gives how many bytes were read.
fn fill<S: Source>(source: &mut S, room: &mut [u8]) -> Result<usize, Failed>
    ensures within { IfOk result (λ n. n ≤ length room.new) }
    ensures given { IfOk result (λ n. Consumes (S.left source.old) (S.left source.new) (take n room.new)) }
    ensures whole { IfOk result (λ n. IsAtEnd (S.left source.new) ⊎ (n ≡ length room.new)) }
    ensures cause { HasCause (S.faults source.old) (S.faults source.new) result }
{
    let mut done = 0;
    while done < room.len() {
        let n = read_behind(source, room, done)?;
        if n == 0 {
            return Ok(done);
        }
        done += n;
    }
    Ok(done)
}

/// The next bytes of a source, as many as are asked for, or all where there are fewer.
fn first_bytes<S: Source>(alloc: Global, source: &mut S, most: usize) -> Result<Vec<u8>, HeadFault>
    ensures front { IfOk result (λ front. IsFrontOf most (S.left source.old) (S.left source.new) front.items) }
    ensures faultless { result ≢ Err HeadFault.ReadFault → S.faults source.new ≡ S.faults source.old }
    ensures read_fault { IsErrOf result HeadFault.ReadFault → Rose (S.faults source.old) (S.faults source.new) }
{
    let mut front = vec![in alloc; 0u8; most]?;
    let done = fill(source, &mut front)?;
    front.truncate(done);
    Ok(front)
}

/// The next bytes of a source, as many as a head has, or all where there are fewer.
///
/// `ReadFault` comes only where the source's count of faults rose in this call; at each other answer no call of the source has failed.
/// `NoMemory` comes where there is no memory for the head.
pub fn read_head<S: Source>(alloc: Global, source: &mut S) -> Result<Vec<u8>, HeadFault>
    ensures head { IfOk result (λ head. IsHeadOf (S.left source.old) (S.left source.new) head.items) }
    ensures faultless { result ≢ Err HeadFault.ReadFault → S.faults source.new ≡ S.faults source.old }
    ensures read_fault { IsErrOf result HeadFault.ReadFault → Rose (S.faults source.old) (S.faults source.new) }
{
    first_bytes(alloc, source, HEAD_BYTES)
}
