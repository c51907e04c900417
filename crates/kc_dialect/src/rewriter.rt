//! Rewrites a text in a dialect as its bytes come: lines are rewritten when they are whole, and only what stands behind the last line
//! end is kept.
ghost use Rattle.std.specs.Prelude.{◌≡◌, ◌≢◌, ◌∷◌, ◌≤◌, ◌<◌, ◌+◌, ◌^◌, ◌++◌, [], Err, List, ℕ, IfOk, IsErrOf, OnOk, length};
ghost use Rattle.kc_text.specs.Lines.{EndsLine, lines};
ghost use Rattle.kc_dialect.specs.declared.bad_line.BadLine.{BadLine};
ghost use Rattle.kc_dialect.specs.declared.dialect.BadLines.TheVariants.{Stop};
ghost use Rattle.kc_dialect.specs.declared.fault.RewriteFault.TheVariants.{Bad, TooLong};
ghost use Rattle.kc_dialect.specs.declared.rewriter.TheConstants.{MOST_BYTES};
ghost use Rattle.kc_dialect.specs.Dialects.{bad_lines, plain_text};
ghost use Rattle.kc_dialect.specs.Rewritten.{HasFirstBad, HasRewritten};
ghost use Rattle.kc_dialect.specs.Skipped.{AreSkipped};
ghost use Rattle.kc_dialect.specs.Steps.{TookLines, StopsAt};

use crate::bytes::whole_len;
use crate::dialect::Dialect;
use crate::fault::RewriteFault;
use crate::line_rewriter::LineRewriter;
use crate::skipped::SkippedLines;
use std::alloc::Global;

/// The most bytes of a text that is rewritten: as many as a graph's text may have.
pub const MOST_BYTES: usize = 9_223_372_036_854_775_807;

/// What rewrites a text that is fed piece by piece. It holds the bytes behind the last line end, and the first bad lines.
#[derive(Drop)]
pub struct Rewriter {
    pub(crate) lines: LineRewriter,
    /// The bytes behind the last line end.
    pub(crate) carry: Vec<u8>,
    /// How many bytes were fed.
    pub(crate) bytes: usize,
}

impl Rewriter {
    /// A rewriter that was fed nothing.
    pub fn new(alloc: Global, dialect: Dialect) -> Rewriter
        ensures fed { HasRewritten result [] [] }
        ensures dialect { result.lines.dialect ≡ dialect }
    {
        Rewriter {
            lines: LineRewriter::new(alloc, dialect),
            carry: Vec::new(alloc),
            bytes: 0,
        }
    }

    /// Takes the bytes that are kept, and others behind them, to the end of a line.
    fn take_whole(&mut self, whole: &[u8], out: &mut Vec<u8>) -> Result<(), RewriteFault>
        requires few { self.old.lines.lines + length self.old.carry.items + length whole.now < 2 ^ 64 }
        requires fewer { self.old.lines.skipped.count ≤ self.old.lines.lines }
        ensures read { OnOk result (TookLines self.old.lines self.new.lines out.old.items out.new.items (lines (self.old.carry.items ++ whole.now))) }
        ensures few { OnOk result (self.new.lines.lines ≤ self.old.lines.lines + length self.old.carry.items + length whole.now) }
        ensures carry { OnOk result (self.new.carry.items ≡ []) }
        ensures bytes { self.new.bytes ≡ self.old.bytes }
        ensures stopped { (at : BadLine) → IsErrOf result (Bad at)
            → StopsAt self.old.lines.dialect self.old.lines.lines (lines (self.old.carry.items ++ whole.now)) at }
        ensures short { result ≢ Err TooLong }
    {
        if self.carry.is_empty() {
            return self.lines.read(whole, out);
        }
        self.carry.extend_from_slice(whole)?;
        self.lines.read(&self.carry, out)?;
        self.carry.clear();
        Ok(())
    }

    /// Takes the next bytes of the text, and writes the plain lines of the lines that end in them.
    ///
    /// `Bad` comes exactly where a line that ends in them is bad and bad lines end the reading; it is then the first bad line of the text,
    /// whatever follows. `TooLong` comes exactly where the bytes are too many with those before. After a fault the rewriter is of no more
    /// use.
    pub fn feed(&mut self, piece: &[u8], out: &mut Vec<u8>) -> Result<(), RewriteFault>
        requires { (fed written : List ℕ) × HasRewritten self.old fed written }
        ensures fed { OnOk result ((added : List ℕ) × (out.new.items ≡ out.old.items ++ added)
            × ((fed written : List ℕ) → HasRewritten self.old fed written → HasRewritten self.new (fed ++ piece.now) (written ++ added))) }
        ensures dialect { OnOk result (self.new.lines.dialect ≡ self.old.lines.dialect) }
        ensures bad { (bad : BadLine) (fed written rest : List ℕ) → IsErrOf result (Bad bad) → HasRewritten self.old fed written
            → HasFirstBad self.old.lines.dialect ((fed ++ piece.now) ++ rest) bad }
        ensures too_long { (fed written : List ℕ) → IsErrOf result TooLong → HasRewritten self.old fed written → MOST_BYTES < length (fed ++ piece.now) }
    {
        if piece.len() > MOST_BYTES - self.bytes {
            return Err(RewriteFault::TooLong);
        }
        let (whole, rest) = piece.split_at(whole_len(piece));
        if !whole.is_empty() {
            self.take_whole(whole, out)?;
        }
        self.carry.extend_from_slice(rest)?;
        self.bytes += piece.len();
        Ok(())
    }

    /// Writes the plain line of the bytes behind the last line end, if there are any, and tells which bad lines were passed over.
    ///
    /// What was written is then the plain text of all that was fed. `Bad` comes exactly where that last line is bad and bad lines end the
    /// reading; it is then the first bad line of the text. `TooLong` never comes.
    pub fn finish(self, out: &mut Vec<u8>) -> Result<SkippedLines, RewriteFault>
        requires { (fed written : List ℕ) × HasRewritten self fed written }
        ensures text { OnOk result ((added : List ℕ) × (out.new.items ≡ out.old.items ++ added)
            × ((fed written : List ℕ) → HasRewritten self fed written → written ++ added ≡ plain_text self.lines.dialect fed)) }
        ensures skipped { IfOk result (λ skipped. (fed written : List ℕ) → HasRewritten self fed written
            → AreSkipped skipped (bad_lines self.lines.dialect fed)) }
        ensures unbroken { OnOk result ((fed written : List ℕ) → HasRewritten self fed written → self.lines.dialect.bad_lines ≡ Stop
            → bad_lines self.lines.dialect fed ≡ []) }
        ensures bad { (bad : BadLine) (fed written : List ℕ) → IsErrOf result (Bad bad) → HasRewritten self fed written
            → HasFirstBad self.lines.dialect fed bad }
        ensures short { result ≢ Err TooLong }
    {
        let Rewriter {
            mut lines,
            carry,
            bytes: _,
        } = self;
        lines.read(&carry, out)?;
        Ok(lines.skipped)
    }
}
