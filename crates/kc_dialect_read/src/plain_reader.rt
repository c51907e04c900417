//! Reads the plain text of a text in a dialect as its bytes come, whether its ids are numbers or names.
ghost use Rattle.std.specs.Prelude.{◌≡◌, ◌≢◌, ◌≤◌, ◌<◌, ◌++◌, ℕ, [], All, Err, List, None, Some, IfOk, IsErrOf, OnOk, length};
ghost use Rattle.kc_dialect.specs.Dialects.{bad_lines};
ghost use Rattle.kc_dialect.specs.EdgeFaults.{kind_of_bad};
ghost use Rattle.kc_dialect.specs.Rewritten.{HasFirstBad};
ghost use Rattle.kc_dialect.specs.Skipped.{AreSkipped};
ghost use Rattle.kc_dialect.specs.declared.bad_line.BadLine.{BadLine};
ghost use Rattle.kc_dialect.specs.declared.fault.RewriteFault.TheVariants.{Bad, TooLong};
ghost use Rattle.kc_dialect.specs.declared.dialect.Ids.{Ids};
ghost use Rattle.kc_names.specs.Names.{names_of, as_numbers};
ghost use Rattle.kc_names.specs.Reading.{WasFedIds};
ghost use Rattle.kc_text.specs.Inputs.{IsNamedEdges};
ghost use Rattle.kc_text.specs.Meaning.{Means, Refuses, Told, meaning};
ghost use Rattle.kc_text.specs.declared.limits.TheConstants.Limits.{GRAPH};
ghost use Rattle.kc_dialect_read.specs.Meanings.{IsRefusedAt, dialect_meaning, names_told};
ghost use Rattle.kc_dialect_read.specs.Reading.{Rewrites};
ghost use Rattle.kc_dialect_read.specs.declared.fault.DialectFault.TheVariants.{ReadFault, Refused};
ghost use Rattle.kc_dialect_read.specs.declared.fault.PlacedRefusal.{PlacedRefusal};

use crate::fault::{DialectFault, PlacedRefusal};
use kc_dialect::{BadLine, Dialect, RewriteFault, Rewriter, SkippedLines, kind_of_bad};
use kc_names::{IdEdges, IdReader, Names};
use kc_text::{Limits, NamedEdges, ParseFault, Refusal};
use std::alloc::Global;

/// The ids and edges of a text in a dialect, and the bad lines that were passed over. Where its ids are names, they are numbered.
#[derive(Drop)]
pub struct DialectEdges {
    pub named: NamedEdges,
    pub skipped: SkippedLines,
    /// The names for which the numbers stand, where the ids are names.
    pub names: Option<Names>,
}

/// What has a text in a dialect rewritten, and reads the plain text.
#[derive(Drop)]
pub(crate) struct PlainReader {
    pub(crate) dialect: Dialect,
    pub(crate) rewriter: Rewriter,
    pub(crate) reader: IdReader,
    /// The plain text of a piece.
    pub(crate) plain: Vec<u8>,
}

/// The refusal of a bad line.
pub(crate) fn refused_bad(bad: BadLine) -> PlacedRefusal
    ensures line { result.refusal.line ≡ bad.line }
    ensures kind { result.refusal.kind ≡ kind_of_bad bad.kind }
    ensures column { result.column ≡ Some bad.column }
{
    PlacedRefusal {
        refusal: Refusal {
            line: bad.line,
            kind: kind_of_bad(bad.kind),
        },
        column: Some(bad.column),
    }
}

/// The ids and edges of the plain text that a reader was fed.
fn told_edges(
    alloc: Global,
    reader: IdReader,
    skipped: SkippedLines,
) -> Result<DialectEdges, DialectFault>
    requires fed { (ids : Ids) × (fed : List ℕ) × WasFedIds ids reader fed }
    ensures edges { IfOk result (λ found. (ids : Ids) (fed : List ℕ) → WasFedIds ids reader fed
        → (told : Told) × (meaning reader.reader.limits (as_numbers ids fed) ≡ Means told) × IsNamedEdges told found.named
        × (found.names ≡ names_of ids fed)) }
    ensures skipped { IfOk result (λ found. found.skipped ≡ skipped) }
    ensures few { IfOk result (λ found. length found.named.ids.items ≤ reader.reader.limits.ids) }
    ensures within { IfOk result (λ found. All (λ p. (p.0 < p.1) × (p.1 < length found.named.ids.items)) found.named.edges.items) }
    ensures refused { (r : PlacedRefusal) (ids : Ids) (fed : List ℕ) → IsErrOf result (Refused r) → WasFedIds ids reader fed
        → (meaning reader.reader.limits (as_numbers ids fed) ≡ Refuses r.refusal.line r.refusal.kind) × (r.column ≡ None) }
    ensures unread { result ≢ Err ReadFault }
{
    match reader.finish_edges(alloc) {
        Ok(IdEdges { named, names }) => Ok(DialectEdges {
            named,
            skipped,
            names,
        }),
        Err(ParseFault::Refused(refusal)) => Err(DialectFault::Refused(PlacedRefusal {
            refusal,
            column: None,
        })),
        Err(ParseFault::NoMemory) => Err(DialectFault::NoMemory),
    }
}

impl PlainReader {
    /// A reader that was fed nothing.
    pub(crate) fn new(alloc: Global, dialect: Dialect) -> PlainReader
        ensures fed { Rewrites result [] }
        ensures dialect { result.dialect ≡ dialect }
    {
        PlainReader {
            dialect,
            rewriter: Rewriter::new(alloc, dialect),
            reader: IdReader::new(alloc, Limits::GRAPH, dialect.ids),
            plain: Vec::new(alloc),
        }
    }

    /// Has the next bytes rewritten, and reads the plain text.
    ///
    /// `Bad` comes where a bad line ends the reading that ends in them, `TooLong` where they are too many with those before.
    pub(crate) fn feed(&mut self, alloc: Global, piece: &[u8]) -> Result<(), RewriteFault>
        requires { (fed : List ℕ) × Rewrites self.old fed }
        ensures rewrites { OnOk result ((fed : List ℕ) → Rewrites self.old fed → Rewrites self.new (fed ++ piece.now)) }
        ensures bad { (bad : BadLine) (fed rest : List ℕ) → IsErrOf result (Bad bad) → Rewrites self.old fed
            → HasFirstBad self.old.dialect ((fed ++ piece.now) ++ rest) bad }
        ensures too_long { (fed : List ℕ) → IsErrOf result TooLong → Rewrites self.old fed → GRAPH.bytes < length (fed ++ piece.now) }
        ensures dialect { self.new.dialect ≡ self.old.dialect }
    {
        self.plain.clear();
        self.rewriter.feed(piece, &mut self.plain)?;
        self.reader.feed(alloc, &self.plain)?;
        Ok(())
    }

    /// What the bytes tell that were fed, where they are not too many. `Refused` comes where their last line is bad and ends the reading, or
    /// where the plain text is refused.
    pub(crate) fn finish(self, alloc: Global) -> Result<DialectEdges, DialectFault>
        requires { (fed : List ℕ) × (length fed ≤ GRAPH.bytes) × Rewrites self fed }
        ensures edges { IfOk result (λ found. (fed : List ℕ) → length fed ≤ GRAPH.bytes → Rewrites self fed
            → (told : Told) × (dialect_meaning self.dialect fed ≡ Means told) × IsNamedEdges told found.named
            × AreSkipped found.skipped (bad_lines self.dialect fed) × (found.names ≡ names_told self.dialect fed)) }
        ensures few { IfOk result (λ found. length found.named.ids.items ≤ GRAPH.ids) }
        ensures within { IfOk result (λ found. All (λ p. (p.0 < p.1) × (p.1 < length found.named.ids.items)) found.named.edges.items) }
        ensures refused { (r : PlacedRefusal) (fed : List ℕ) → IsErrOf result (Refused r) → length fed ≤ GRAPH.bytes → Rewrites self fed
            → IsRefusedAt self.dialect fed r }
        ensures unread { result ≢ Err ReadFault }
    {
        let PlainReader {
            dialect: _,
            rewriter,
            mut reader,
            mut plain,
        } = self;
        plain.clear();
        match rewriter.finish(&mut plain) {
            Ok(skipped) => {
                reader.feed(alloc, &plain)?;
                told_edges(alloc, reader, skipped)
            }
            Err(RewriteFault::Bad(bad)) => Err(DialectFault::Refused(refused_bad(bad))),
            Err(_) => Err(DialectFault::NoMemory),
        }
    }
}
