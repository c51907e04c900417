//! Bytes that are read before what an input has left.
ghost use Rattle.std.specs.Prelude.{◌≡◌, ◌≤◌, ◌<◌, ◌++◌, [], IfOk, length, option_map, take};
ghost use Rattle.kc_cores.specs.Inputs.{front_bytes};

use kc_io::NoMemory;
use std::alloc::Global;
use std::marker::Model;

/// Bytes that are read one after another.
#[derive(Drop)]
pub(crate) struct Front {
    bytes: Vec<u8>,
    done: usize,
}

impl Model for Front {
    ghost use Rattle.std.specs.Prelude.{◌≤◌, ℕ, List, drop, vec_len};

    ghost Value = { List ℕ };

    ghost view = { λ f. drop f.done f.bytes.items };

    ghost invariant = { λ f. f.done ≤ vec_len f.bytes };
}

impl Front {
    /// All these bytes are left.
    fn new(bytes: Vec<u8>) -> Front
        ensures { result ≡ bytes.items }
    {
        Front { bytes, done: 0 }
    }

    /// The bytes that are left.
    fn left(&self) -> &[u8]
        ensures { result.now ≡ self.now }
    {
        &self.bytes[self.done..]
    }

    /// Puts the next bytes at the front of `into`, and gives their number; 0 where none are left.
    pub(crate) fn read(&mut self, into: &mut [u8]) -> usize
        requires { 0 < length into.old }
        ensures within { result ≤ length into.new }
        ensures bytes { self.old ≡ take result into.new ++ self.new }
        ensures ended { result ≡ 0 → self.old ≡ [] }
    {
        let left = &self.bytes[self.done..];
        let n = into.len().min(left.len());
        into[..n].copy_from_slice(&left[..n]);
        self.done += n;
        n
    }
}

/// Puts bytes before those that are left of a front, if there is one.
pub(crate) fn with_front(
    alloc: Global,
    bytes: &[u8],
    front: Option<&Front>,
) -> Result<Front, NoMemory>
    ensures { IfOk result (λ new. new ≡ bytes.now ++ front_bytes (option_map (λ f. f.now) front.entry)) }
{
    let mut all = Vec::from_slice(alloc, bytes)?;
    if let Some(front) = front {
        all.extend_from_slice(front.left())?;
    }
    Ok(Front::new(all))
}

/// Reads from a front, if there is one, and gives how many bytes were read; 0 where none are left.
pub(crate) fn read_front(front: &mut Option<Front>, into: &mut [u8]) -> usize
    requires { 0 < length into.old }
    ensures within { result ≤ length into.new }
    ensures bytes { front_bytes front.old ≡ take result into.new ++ front_bytes front.new }
    ensures ended { result ≡ 0 → front_bytes front.old ≡ [] }
{
    match front {
        Some(front) => front.read(into),
        None => 0,
    }
}
