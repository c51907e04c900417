//! Rewrites whole lines, one after another.
ghost use Rattle.std.specs.Prelude.{◌++◌, IfOk, IsTrue, ◌≡◌, ◌≢◌, ◌∷◌, ◌≤◌, ◌<◌, ◌+◌, ◌^◌, [], Err, List, ℕ, IsErrOf, OnOk, length};
ghost use Rattle.kc_text.specs.Lines.{lines};
ghost use Rattle.kc_dialect.specs.declared.bad_line.BadLine.{BadLine};
ghost use Rattle.kc_dialect.specs.declared.dialect.Ids.TheVariants.{Numbers};
ghost use Rattle.kc_dialect.specs.declared.fault.RewriteFault.TheVariants.{Bad, TooLong};
ghost use Rattle.kc_dialect.specs.Dialects.{said_after};
ghost use Rattle.kc_dialect.specs.Skipped.{AreSkipped};
ghost use Rattle.kc_dialect.specs.Steps.{TookLines, StopsAt};

use crate::bad_line::{BadField, BadLine};
use crate::dialect::{BadLines, Dialect, Ids};
use crate::fault::RewriteFault;
use crate::pairs::{said_after, write_plain};
use crate::plain_runs::{may_be_plain, plain_run, write_spaced};
use crate::skipped::SkippedLines;
use kc_text::{NoMemory, cut_line};
use std::alloc::Global;

/// What rewrites the lines of a text, one after another.
#[derive(Drop)]
pub(crate) struct LineRewriter {
    pub(crate) dialect: Dialect,
    /// How many lines were read.
    pub(crate) lines: u64,
    pub(crate) skipped: SkippedLines,
}

impl LineRewriter {
    /// A rewriter that has read no line.
    pub(crate) fn new(alloc: Global, dialect: Dialect) -> LineRewriter
        ensures dialect { result.dialect ≡ dialect }
        ensures lines { result.lines ≡ 0 }
        ensures none { AreSkipped result.skipped [] }
        ensures count { result.skipped.count ≡ 0 }
    {
        LineRewriter {
            dialect,
            lines: 0,
            skipped: SkippedLines::new(alloc),
        }
    }

    /// Takes the next line, which is bad: an empty one stands for it, or it ends the reading.
    fn take_bad(&mut self, bad: BadField, out: &mut Vec<u8>) -> Result<(), RewriteFault>
        requires few { self.old.lines + 1 < 2 ^ 64 }
        requires fewer { self.old.skipped.count ≤ self.old.lines }
        ensures read { OnOk result ((line : List ℕ) → said_after self.old.dialect self.old.lines line ≡ Err bad
            → TookLines self.old self.new out.old.items out.new.items (line ∷ [])) }
        ensures stopped { (at : BadLine) (line : List ℕ) → IsErrOf result (Bad at) → said_after self.old.dialect self.old.lines line ≡ Err bad
            → StopsAt self.old.dialect self.old.lines (line ∷ []) at }
        ensures short { result ≢ Err TooLong }
    {
        let line = BadLine {
            line: self.lines + 1,
            column: bad.column,
            kind: bad.kind,
        };
        match self.dialect.bad_lines {
            BadLines::Stop => Err(RewriteFault::Bad(line)),
            BadLines::Skip => {
                self.skipped.add(line)?;
                write_plain(out, None)?;
                self.lines += 1;
                Ok(())
            }
        }
    }

    /// Takes the next line.
    fn take(&mut self, line: &[u8], out: &mut Vec<u8>) -> Result<(), RewriteFault>
        requires few { self.old.lines + 1 < 2 ^ 64 }
        requires fewer { self.old.skipped.count ≤ self.old.lines }
        ensures read { OnOk result (TookLines self.old self.new out.old.items out.new.items (line.now ∷ [])) }
        ensures stopped { (at : BadLine) → IsErrOf result (Bad at) → StopsAt self.old.dialect self.old.lines (line.now ∷ []) at }
        ensures short { result ≢ Err TooLong }
    {
        match said_after(&self.dialect, self.lines, line) {
            Ok(said) => {
                write_plain(out, said)?;
                self.lines += 1;
                Ok(())
            }
            Err(bad) => self.take_bad(bad, out),
        }
    }

    /// Whether plain lines may be copied: the numbers of their first two columns are taken, and none is skipped.
    fn copies(&self) -> bool
        ensures columns { IsTrue result → self.now.dialect.columns ≡ (1, 2) }
        ensures skip { IsTrue result → self.now.dialect.skip ≤ self.now.lines }
        ensures ids { IsTrue result → self.now.dialect.ids ≡ Numbers }
    {
        self.dialect.columns.0 == 1
            && self.dialect.columns.1 == 2
            && self.dialect.skip <= self.lines
            && self.dialect.ids == Ids::Numbers
    }

    /// Copies the plain lines at the front of some bytes, and gives what follows them.
    fn copy_run<'a>(&mut self, bytes: &'a [u8], out: &mut Vec<u8>) -> Result<&'a [u8], NoMemory>
        requires columns { self.old.dialect.columns ≡ (1, 2) }
        requires skip { self.old.dialect.skip ≤ self.old.lines }
        requires ids { self.old.dialect.ids ≡ Numbers }
        requires few { self.old.lines + length bytes.now < 2 ^ 64 }
        ensures read { IfOk result (λ rest. (read : List (List ℕ)) × TookLines self.old self.new out.old.items out.new.items read
            × (read ++ lines rest.now ≡ lines bytes.now)) }
        ensures few { IfOk result (λ rest. self.new.lines + length rest.now ≤ self.old.lines + length bytes.now) }
    {
        let (len, lines) = plain_run(self.dialect.separator, bytes);
        let (run, rest) = bytes.split_at(len);
        write_spaced(out, self.dialect.separator, run)?;
        self.lines += lines as u64;
        Ok(rest)
    }

    /// Takes the plain lines at the front of some bytes at once, where they may be copied, and gives what follows them.
    fn take_run<'a>(&mut self, bytes: &'a [u8], out: &mut Vec<u8>) -> Result<&'a [u8], NoMemory>
        requires few { self.old.lines + length bytes.now < 2 ^ 64 }
        ensures read { IfOk result (λ rest. (read : List (List ℕ)) × TookLines self.old self.new out.old.items out.new.items read
            × (read ++ lines rest.now ≡ lines bytes.now)) }
        ensures few { IfOk result (λ rest. self.new.lines + length rest.now ≤ self.old.lines + length bytes.now) }
    {
        if !self.copies() || !may_be_plain(bytes) {
            return Ok(bytes);
        }
        self.copy_run(bytes, out)
    }

    /// Takes all lines of some bytes.
    pub(crate) fn read(&mut self, bytes: &[u8], out: &mut Vec<u8>) -> Result<(), RewriteFault>
        requires few { self.old.lines + length bytes.now < 2 ^ 64 }
        requires fewer { self.old.skipped.count ≤ self.old.lines }
        ensures read { OnOk result (TookLines self.old self.new out.old.items out.new.items (lines bytes.now)) }
        ensures few { OnOk result (self.new.lines ≤ self.old.lines + length bytes.now) }
        ensures stopped { (at : BadLine) → IsErrOf result (Bad at) → StopsAt self.old.dialect self.old.lines (lines bytes.now) at }
        ensures short { result ≢ Err TooLong }
    {
        let mut rest = self.take_run(bytes, out)?;
        while let Some((line, more)) = cut_line(rest) {
            self.take(line, out)?;
            rest = self.take_run(more, out)?;
        }
        Ok(())
    }
}
