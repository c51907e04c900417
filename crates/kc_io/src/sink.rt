//! Where bytes go.
ghost use Rattle.std.specs.Prelude.{◌≡◌, ◌<◌, ◌≤◌, ℕ, List, Option, Result, IfOk, OnOk, OnErr, length, take};
ghost use Rattle.std.specs.Io.KnownBytes.{WriteAppends, Appends};
ghost use Rattle.kc_io.specs.Causes.{HasCause};
ghost use Rattle.kc_io.specs.FirstPiece.{KeepsFirst};
ghost use Rattle.kc_io.specs.Offers.{Offers, IsOffered, amount};

use crate::Failed;

/// Where bytes go, in order.
pub trait Sink {
    /// The bytes that were taken, where the sink tells them.
    ghost taken: { Self → Option (List ℕ) };

    /// How long the first piece was that was offered, or 0 before any, where the sink tells it.
    ghost first: { Self → Option ℕ };

    /// The pieces that were offered, where the sink tells it: how many texts were begun, and what is left of the last piece.
    /// A piece that is as long as what was left of the one before goes on with its text, and any other begins one.
    ghost offers: { Self → Option Offers };

    /// How many calls have failed, up to the last value of a `u64`.
    ghost faults: { Self → ℕ };

    /// Takes some bytes of the front of `piece`, at least one, and gives their number.
    /// A call that fails takes no byte, and the count of faults rises. The piece was offered then too.
    /// At any other call the count stays.
    fn write(&mut self, piece: &[u8]) -> Result<usize, Failed>
        requires { 0 < length piece.now }
        ensures bound { IfOk result (λ n. (0 < n) × (n ≤ length piece.now)) }
        ensures bytes { WriteAppends (taken self.old) (taken self.new) result piece.now }
        ensures first { KeepsFirst (first self.old) (first self.new) piece.now }
        ensures offers { IsOffered (offers self.old) (offers self.new) (length piece.now) (amount result) }
        ensures cause { HasCause (faults self.old) (faults self.new) result };
}

/// Puts out a whole text. At each turn all that is left of it is offered: for a sink that tells its pieces the call
/// is as one write of the whole text, which begins one text and leaves of it what was not taken, nothing at `Ok`.
///
/// `Failed` comes only where the sink's count of faults rose in this call; then a prefix of the text was taken. At
/// `Ok` no call of the sink has failed.
/// Of an empty text nothing is offered.
pub fn write_all<O: Sink>(sink: &mut O, text: &[u8]) -> Result<(), Failed>
    ensures whole { OnOk result (Appends (O.taken sink.old) (O.taken sink.new) text.now) }
    ensures prefix { OnErr result ((n : ℕ) × (n ≤ length text.now) × Appends (O.taken sink.old) (O.taken sink.new) (take n text.now)) }
    ensures first { 0 < length text.now → KeepsFirst (O.first sink.old) (O.first sink.new) text.now }
    ensures offered { 0 < length text.now → (n : ℕ) × (n ≤ length text.now) × Appends (O.taken sink.old) (O.taken sink.new) (take n text.now)
        × IsOffered (O.offers sink.old) (O.offers sink.new) (length text.now) n × OnOk result (n ≡ length text.now) }
    ensures empty { length text.now ≡ 0 → sink.new ≡ sink.old }
    ensures cause { HasCause (O.faults sink.old) (O.faults sink.new) result }
{
    let mut done = 0;
    while done < text.len() {
        done += sink.write(&text[done..])?;
    }
    Ok(())
}
