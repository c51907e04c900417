//! A write, as it is kept until it is stored: a number and two halves, 12 bytes where a number beside a value takes 16.
ghost use Rattle.std.specs.Prelude.{◌≡◌};

use std::marker::Model;

/// By how much the upper half of a value counts more than the lower.
const HALF: u64 = 1 << 32;

/// What is to be stored to a word of the table: the word's number, and the value.
///
/// ```text
/// let write = Write::new(2, value);
/// table[write.word() as usize] = write.value();
/// ```
#[derive(Clone, Copy, Drop)]
pub struct Write {
    word: u32,
    low: u32,
    high: u32,
}

impl Model for Write {
    ghost use Rattle.std.specs.Prelude.{◌+◌, ◌*◌, ◌/◌, ◌%◌, ◌^◌, ◌<◌};
    ghost use Rattle.std.proofs.lemmas.Nat.{mod_low, shr_high};
    ghost use Rattle.kc_list.specs.Writes.{Write as WordAndValue};

    ghost Value = { WordAndValue };

    ghost view = { λ a. record { word = a.word; value = a.high * 2 ^ 32 + a.low } };

    ghost invariant = { λ a. a.low < 2 ^ 32 };

    ghost inverse = { λ w. record { word = w.word; low = w.value % 2 ^ 32; high = w.value / 2 ^ 32 } };

    ghost inverse_ok = { λ a h i. record {
      word = a.word;
      low = mod_low a.high 32 a.low h i;
      high = shr_high a.high 32 a.low h i;
    } };
}

impl Write {
    /// A value for the word with a number.
    pub fn new(word: u32, value: u64) -> Self
        ensures { result ≡ record { word = word; value = value } }
    {
        Write {
            word,
            low: (value % HALF) as u32,
            high: (value / HALF) as u32,
        }
    }

    /// The number of the word.
    pub fn word(self) -> u32
        ensures { result ≡ self.word }
    {
        self.word
    }

    /// What is to be stored.
    pub fn value(self) -> u64
        ensures { result ≡ self.value }
    {
        u64::from(self.high) * HALF + u64::from(self.low)
    }
}
