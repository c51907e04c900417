//! Reads a text in a dialect as its bytes come, up to a bad line that ends the reading.
ghost use Rattle.std.specs.Prelude.{◌≡◌, ◌≢◌, ◌≤◌, ◌<◌, ◌++◌, ℕ, [], All, Err, List, IfOk, IsErrOf, OnOk, length};
ghost use Rattle.kc_dialect.specs.Dialects.{bad_lines};
ghost use Rattle.kc_dialect.specs.Skipped.{AreSkipped};
ghost use Rattle.kc_text.specs.Inputs.{IsNamedEdges};
ghost use Rattle.kc_text.specs.Meaning.{Means, Told};
ghost use Rattle.kc_text.specs.declared.limits.TheConstants.Limits.{GRAPH};
ghost use Rattle.kc_dialect_read.specs.Meanings.{IsRefusedAt, dialect_meaning, names_told};
ghost use Rattle.kc_dialect_read.specs.Reading.{WasGiven};
ghost use Rattle.kc_dialect_read.specs.declared.fault.DialectFault.TheVariants.{ReadFault, Refused};
ghost use Rattle.kc_dialect_read.specs.declared.fault.PlacedRefusal.{PlacedRefusal};

use crate::fault::{DialectFault, PlacedRefusal};
use crate::plain_reader::{DialectEdges, PlainReader, refused_bad};
use kc_dialect::{BadLine, Dialect, RewriteFault};
use kc_text::{Kind, Limits, NoMemory, Refusal};
use std::alloc::Global;

/// The text as a whole is refused.
const TOO_LONG: PlacedRefusal = PlacedRefusal {
    refusal: Refusal {
        line: 0,
        kind: Kind::TooLong,
    },
    column: None,
};

/// What reads a text in a dialect that is fed piece by piece. Behind a bad line that ends the reading it only counts.
#[derive(Drop)]
pub(crate) struct DialectReader {
    pub(crate) inner: PlainReader,
    /// How many bytes more there may be; none where there were too many.
    pub(crate) left: Option<usize>,
    /// The bad line that has ended the reading.
    pub(crate) bad: Option<BadLine>,
}

impl DialectReader {
    /// A reader that was fed nothing.
    pub(crate) fn new(alloc: Global, dialect: Dialect) -> DialectReader
        ensures fed { WasGiven result [] }
        ensures dialect { result.inner.dialect ≡ dialect }
    {
        DialectReader {
            inner: PlainReader::new(alloc, dialect),
            left: Some(Limits::GRAPH.bytes),
            bad: None,
        }
    }

    /// Takes the next bytes of the text. After `NoMemory` the reader is of no more use.
    pub(crate) fn feed(&mut self, alloc: Global, piece: &[u8]) -> Result<(), NoMemory>
        requires { (fed : List ℕ) × WasGiven self.old fed }
        ensures fed { OnOk result ((fed : List ℕ) → WasGiven self.old fed → WasGiven self.new (fed ++ piece.now)) }
        ensures dialect { self.new.inner.dialect ≡ self.old.inner.dialect }
    {
        let Some(left) = self.left else {
            return Ok(());
        };
        if left < piece.len() {
            self.left = None;
            return Ok(());
        }
        self.left = Some(left - piece.len());
        if self.bad.is_some() {
            return Ok(());
        }
        match self.inner.feed(alloc, piece) {
            Ok(()) => Ok(()),
            Err(RewriteFault::Bad(bad)) => {
                self.bad = Some(bad);
                Ok(())
            }
            Err(RewriteFault::TooLong) => {
                self.left = None;
                Ok(())
            }
            Err(RewriteFault::NoMemory) => Err(NoMemory),
        }
    }

    /// The ids and edges that the text tells which was fed, as they were told, and its bad lines.
    ///
    /// `Refused` comes exactly where the text is too long, or else where a bad line ends the reading, or else where the plain text is
    /// refused; `NoMemory` where there is no memory to read the text.
    pub(crate) fn finish(self, alloc: Global) -> Result<DialectEdges, DialectFault>
        requires { (fed : List ℕ) × WasGiven self fed }
        ensures edges { IfOk result (λ found. (fed : List ℕ) → WasGiven self fed
            → (told : Told) × (dialect_meaning self.inner.dialect fed ≡ Means told) × IsNamedEdges told found.named
            × AreSkipped found.skipped (bad_lines self.inner.dialect fed) × (found.names ≡ names_told self.inner.dialect fed)) }
        ensures few { IfOk result (λ found. length found.named.ids.items ≤ GRAPH.ids) }
        ensures within { IfOk result (λ found. All (λ p. (p.0 < p.1) × (p.1 < length found.named.ids.items)) found.named.edges.items) }
        ensures refused { (r : PlacedRefusal) (fed : List ℕ) → IsErrOf result (Refused r) → WasGiven self fed → IsRefusedAt self.inner.dialect fed r }
        ensures unread { result ≢ Err ReadFault }
    {
        let Some(_left) = self.left else {
            return Err(DialectFault::Refused(TOO_LONG));
        };
        if let Some(bad) = self.bad {
            return Err(DialectFault::Refused(refused_bad(bad)));
        }
        self.inner.finish(alloc)
    }
}
