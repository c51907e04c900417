//! A sink that takes a text that is known, and nothing else.
ghost use Rattle.std.specs.Prelude.{◌≡◌, ◌≤◌, ◌<◌, Some, None, IfOk, length, take};
ghost use Rattle.std.specs.Io.KnownBytes.{WriteAppends};
ghost use Rattle.kc_io.specs.Causes.{HasCause};

use kc_io::Failed;
use kc_io::sink::Sink;

/// How many bytes two texts have in common, from the first on.
fn common_len(text: &[u8], piece: &[u8]) -> usize
    ensures in_text { result ≤ length text.now }
    ensures in_piece { result ≤ length piece.now }
    ensures same { take result text.now ≡ take result piece.now }
{
    for (i, byte) in piece.iter().enumerate() {
        if i >= text.len() || text[i] != *byte {
            return i;
        }
    }
    piece.len()
}

/// A sink that takes the bytes of a text, in their order, and fails where it is handed others.
#[derive(Drop)]
pub(crate) struct Comparing<'a> {
    text: &'a [u8],
    /// How many of its bytes were taken.
    done: usize,
    faults: u64,
    ghost within: { done ≤ length text.now },
}

impl<'a> Comparing<'a> {
    /// No byte was taken.
    pub(crate) fn new(text: &'a [u8]) -> Comparing<'a>
        ensures text { result.text.now ≡ text.now }
        ensures done { result.done ≡ 0 }
        ensures faults { result.faults ≡ 0 }
    {
        Comparing {
            text,
            done: 0,
            faults: 0,
        }
    }

    /// The bytes that were taken.
    pub(crate) fn taken(&self) -> &[u8]
        ensures { result.now ≡ take self.now.done self.now.text.now }
    {
        &self.text[..self.done]
    }
}

impl<'a> Sink for Comparing<'a> {
    ghost taken = { λ s. Some (take s.done s.text.now) };

    ghost first = { λ s. None };

    ghost offers = { λ s. None };

    ghost faults = { λ s. s.faults };

    fn write(&mut self, piece: &[u8]) -> Result<usize, Failed> {
        let amount = common_len(&self.text[self.done..], piece);
        if amount == 0 {
            self.faults = self.faults.saturating_add(1);
            return Err(Failed);
        }
        self.done += amount;
        Ok(amount)
    }
}
