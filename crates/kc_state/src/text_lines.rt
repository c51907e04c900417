//! The lines of a text, one after another.
ghost use Rattle.std.specs.Prelude.{◌≡◌, ◌≤◌, length};

use crate::fault::{ReadFault, StateFault, StateKind};
use crate::state_line::{cut_line, number_behind};

/// What is left of the lines of a text.
#[derive(Drop)]
pub(crate) struct TextLines<'a> {
    pub(crate) rest: &'a [u8],
    /// The number of the last line that was cut off, from 1; 0 before any.
    pub(crate) line: u64,
}

impl<'a> TextLines<'a> {
    /// No line was cut off.
    pub(crate) fn new(text: &'a [u8]) -> TextLines<'a>
        ensures { result.rest.now ≡ text.now }
    {
        TextLines {
            rest: text,
            line: 0,
        }
    }

    /// What is wrong with the last line that was cut off.
    pub(crate) fn fault(&self, kind: StateKind) -> ReadFault {
        ReadFault::Faulty(StateFault {
            line: self.line,
            kind,
        })
    }

    /// Cuts off the next line.
    pub(crate) fn next_line(&mut self) -> Result<&'a [u8], ReadFault>
        ensures { length self.new.rest.now ≤ length self.old.rest.now }
    {
        self.line = self.line.saturating_add(1);
        match cut_line(self.rest) {
            Some((line, rest)) => {
                self.rest = rest;
                Ok(line)
            }
            None => Err(self.fault(StateKind::Cut)),
        }
    }

    /// Cuts off the next line, which is to tell a count behind a word.
    pub(crate) fn next_count(&mut self, word: &[u8]) -> Result<u64, ReadFault>
        ensures { length self.new.rest.now ≤ length self.old.rest.now }
    {
        let line = self.next_line()?;
        match number_behind(word, line) {
            Some(number) => Ok(number),
            None => Err(self.fault(StateKind::NotACount)),
        }
    }
}
