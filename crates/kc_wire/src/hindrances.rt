//! What hinders a wire in memory.
ghost use Rattle.std.specs.Prelude.{◌≡◌, ◌<◌, ◌≤◌, OnOk};

use crate::faults::WriteFault;

/// What hinders a wire in memory.
#[derive(Drop)]
pub struct Hindrances {
    /// The most bytes that each read gives, in turn; 0 is taken for 1. The reads behind these give all that fits.
    pub cuts: Vec<usize>,
    /// The numbers, from 1, of the reads that fail.
    pub reads: Vec<usize>,
    /// The numbers, from 1, of the writes that fail. Such a write takes half of its text.
    pub writes: Vec<usize>,
    /// After how many bytes the reader at the other end goes away. The write that would pass them takes what is left of them.
    pub room: usize,
}

impl Hindrances {
    /// The most bytes that a read gives before which there were so many, at least one.
    pub(crate) fn most(&self, before: usize) -> usize
        ensures { 0 < result }
    {
        match self.cuts.get(before) {
            Some(cut) => (*cut).max(1),
            None => usize::MAX,
        }
    }

    /// Whether the read of this number, from 1, fails.
    pub(crate) fn fails_read(&self, number: usize) -> bool {
        self.reads.contains(&number)
    }

    /// How many bytes of a text the write of this number, from 1, takes where the reader stays for `room` bytes more, and how it ends.
    pub(crate) fn outcome(
        &self,
        number: usize,
        length: usize,
        room: usize,
    ) -> (usize, Result<(), WriteFault>)
        ensures within { (result.0 ≤ length) × (result.0 ≤ room) }
        ensures whole { OnOk (result.1) (result.0 ≡ length) }
    {
        if self.writes.contains(&number) {
            (room.min(length / 2), Err(WriteFault::Failed))
        } else if room < length {
            (room, Err(WriteFault::ReaderGone))
        } else {
            (length, Ok(()))
        }
    }
}
