//! Why a wire does not take a text, and how often its calls have failed.

/// Why a text was not taken as a whole.
#[derive(Clone, Copy, Debug, PartialEq, Eq)]
pub enum WriteFault {
    /// The reader at the other end went away.
    ReaderGone,
    /// The write, or the flush behind it, failed for another reason.
    Failed,
}

/// How many calls of a wire have failed, each count up to the last value of a `u64`.
#[derive(Clone, Copy, Debug, PartialEq, Eq)]
pub struct WireFaults {
    /// The reads that failed.
    pub reads: u64,
    /// The writes that failed for another reason than the next.
    pub writes: u64,
    /// The writes that failed since the reader went away.
    pub departures: u64,
}

impl WireFaults {
    ghost use Rattle.std.specs.Prelude.{◌≡◌};
    ghost use Rattle.kc_wire.specs.Faults.{no_fault, one_read_more, one_write_more};

    /// No call has failed.
    pub const NONE: WireFaults = WireFaults {
        reads: 0,
        writes: 0,
        departures: 0,
    };

    /// Counts a read that failed.
    pub fn count_read(&mut self)
        ensures { self.new ≡ one_read_more self.old }
    {
        self.reads = self.reads.saturating_add(1);
    }

    /// Counts a write that failed so.
    pub fn count_write(&mut self, fault: WriteFault)
        ensures { self.new ≡ one_write_more fault self.old }
    {
        match fault {
            WriteFault::ReaderGone => self.departures = self.departures.saturating_add(1),
            WriteFault::Failed => self.writes = self.writes.saturating_add(1),
        }
    }
}
