//! A wire with both directions.
ghost use Rattle.std.specs.Prelude.{◌≡◌, ◌<◌, List, Option, length};
ghost use Rattle.std.specs.Io.{ReadsAtMost};
ghost use Rattle.kc_wire.specs.Events.{TellsRead, TellsWrite, WireEvent};
ghost use Rattle.kc_wire.specs.Faults.{after_read, after_write};
ghost use Rattle.kc_wire.specs.declared.faults.WireFaults.{WireFaults};

use crate::faults::WriteFault;
use kc_io::Failed;

/// Where bytes come from, in order, until there are none left, and where bytes go, in order.
pub trait Wire {
    /// All that happened so far, where the wire tells it: the bytes that each read gave, and those that were taken.
    ghost history: { Self → Option (List WireEvent) };

    /// How many calls have failed.
    ghost faults: { Self → WireFaults };

    /// Puts the next bytes at the front of `into` and gives their number; 0 is the end of the input.
    /// A call that fails takes no byte, and is counted. No other call is.
    fn read(&mut self, into: &mut [u8]) -> Result<usize, Failed>
        requires { 0 < length into.old }
        ensures bound { ReadsAtMost result into.new }
        ensures history { TellsRead (history self.old) (history self.new) result into.new }
        ensures cause { faults self.new ≡ after_read (faults self.old) result };

    /// Puts out a whole text, and flushes it: at `Ok` all of it has left.
    /// A call that fails is counted by its fault, and then a prefix of the text was taken. No other call is counted.
    /// Of an empty text nothing is put out.
    fn write_all(&mut self, text: &[u8]) -> Result<(), WriteFault>
        ensures history { TellsWrite (history self.old) (history self.new) result text.now }
        ensures cause { faults self.new ≡ after_write (faults self.old) result };
}
