//! A page with the check sum of all that was put on it.
ghost use Rattle.std.specs.Prelude.{◌≡◌, ◌<◌, ◌++◌, [], ◌∷◌, decimal, OnErr, OnOk};
ghost use Rattle.kc_io.specs.Causes.{HasCause};
ghost use Rattle.kc_lines.specs.Pages.{PassesPart};
ghost use Rattle.kc_state.specs.SummedPages.{HasPut};
ghost use Rattle.kc_state.specs.Texts.{ended_by, pair_text, sum_from, with_byte, named_line};

use itoa::Buffer;
use kc_io::Failed;
use kc_io::sink::Sink;
use kc_lines::page::Page;

/// The check sum times this, and the next byte: the last 64 bits are the check sum then.
pub(crate) const SUM_FACTOR: u64 = 1_099_511_628_211;

/// A page, and the check sum of all texts that were put on it.
#[derive(Drop)]
pub(crate) struct SummedPage {
    pub(crate) page: Page,
    pub(crate) sum: u64,
}

/// The check sum with one byte more.
fn with_byte(sum: u64, byte: u8) -> u64
    ensures { result ≡ with_byte sum byte }
{
    sum.wrapping_mul(SUM_FACTOR).wrapping_add(u64::from(byte))
}

/// The check sum with a text more.
pub(crate) fn sum_from(sum: u64, text: &[u8]) -> u64
    ensures { result ≡ sum_from sum text.now }
{
    let mut sum = sum;
    for byte in text {
        sum = with_byte(sum, *byte);
    }
    sum
}

impl SummedPage {
    /// Nothing was put on the page.
    pub(crate) fn new(page: Page) -> SummedPage
        ensures page { result.page ≡ page }
        ensures sum { result.sum ≡ 0 }
    {
        SummedPage { page, sum: 0 }
    }

    /// Puts a text.
    pub(crate) fn put<O: Sink>(&mut self, out: &mut O, text: &[u8]) -> Result<(), Failed>
        ensures put { OnOk result (HasPut (O.taken out.old) (O.taken out.new) self.old self.new text.now) }
        ensures part { OnErr result (PassesPart (O.taken out.old) (O.taken out.new) self.old.page text.now) }
        ensures cause { HasCause (O.faults out.old) (O.faults out.new) result }
    {
        self.page.put(out, text)?;
        self.sum = sum_from(self.sum, text);
        Ok(())
    }

    /// Puts the digits of a number.
    fn put_digits<O: Sink>(&mut self, out: &mut O, number: u64) -> Result<(), Failed>
        ensures put { OnOk result (HasPut (O.taken out.old) (O.taken out.new) self.old self.new (decimal number)) }
        ensures part { OnErr result (PassesPart (O.taken out.old) (O.taken out.new) self.old.page (decimal number)) }
        ensures cause { HasCause (O.faults out.old) (O.faults out.new) result }
    {
        self.put(out, Buffer::new().format(number).as_bytes())
    }

    /// Puts a number, and a byte behind it.
    pub(crate) fn put_number<O: Sink>(
        &mut self,
        out: &mut O,
        number: u64,
        byte: u8,
    ) -> Result<(), Failed>
        ensures put { OnOk result (HasPut (O.taken out.old) (O.taken out.new) self.old self.new (ended_by byte number)) }
        ensures part { OnErr result (PassesPart (O.taken out.old) (O.taken out.new) self.old.page (ended_by byte number)) }
        ensures cause { HasCause (O.faults out.old) (O.faults out.new) result }
    {
        self.put_digits(out, number)?;
        self.put(out, &[byte])
    }

    /// Puts two numbers, with a blank between them and the end of a line behind.
    pub(crate) fn put_pair<O: Sink>(
        &mut self,
        out: &mut O,
        first: u64,
        second: u64,
    ) -> Result<(), Failed>
        ensures put { OnOk result (HasPut (O.taken out.old) (O.taken out.new) self.old self.new (pair_text first second)) }
        ensures part { OnErr result (PassesPart (O.taken out.old) (O.taken out.new) self.old.page (pair_text first second)) }
        ensures cause { HasCause (O.faults out.old) (O.faults out.new) result }
    {
        self.put_number(out, first, b' ')?;
        self.put_number(out, second, b'\n')
    }

    /// Puts a line of a word and a number.
    pub(crate) fn put_named<O: Sink>(
        &mut self,
        out: &mut O,
        word: &str,
        number: u64,
    ) -> Result<(), Failed>
        ensures put { OnOk result (HasPut (O.taken out.old) (O.taken out.new) self.old self.new (named_line word.now number)) }
        ensures part { OnErr result (PassesPart (O.taken out.old) (O.taken out.new) self.old.page (named_line word.now number)) }
        ensures cause { HasCause (O.faults out.old) (O.faults out.new) result }
    {
        self.put(out, word.as_bytes())?;
        self.put_number(out, number, b'\n')
    }
}
