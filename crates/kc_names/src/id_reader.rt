//! Reads a plain text whose ids are numbers or names.
ghost use Rattle.std.specs.Prelude.{◌≡◌, ◌≤◌, ◌<◌, ◌++◌, [], ℕ, List, All, IfOk, IsErrOf, OnOk, length};
ghost use Rattle.kc_dialect.specs.declared.dialect.Ids.{Ids};
ghost use Rattle.kc_text.specs.Inputs.{IsNamedEdges};
ghost use Rattle.kc_text.specs.Lines.{EndsLine};
ghost use Rattle.kc_text.specs.Meaning.{Means, Refuses, Told, meaning};
ghost use Rattle.kc_text.specs.declared.refusal.Refusal.{Refusal};
ghost use Rattle.kc_names.specs.Names.{names_of, as_numbers};
ghost use Rattle.kc_names.specs.Reading.{WasFedIds};

use crate::names::Names;
use kc_dialect::Ids;
use kc_text::{Limits, NamedEdges, NoMemory, ParseFault, TextReader};
use std::alloc::Global;

/// The edges of a text of ids.
#[derive(Drop)]
pub struct IdEdges {
    /// The ids and the edges of the text of numbers.
    pub named: NamedEdges,
    /// The names for which the numbers stand, where the ids are names.
    pub names: Option<Names>,
}

/// What reads a plain text of numbers or of names that is fed piece by piece.
///
/// # Example
///
/// ```rust
/// use kc_dialect::Ids;
/// use kc_names::{IdEdges, IdReader};
/// use kc_text::Limits;
///
/// let mut reader = IdReader::new(alloc, Limits::GRAPH, Ids::Names);
/// reader.feed(alloc, b"bob eve\n")?;
/// reader.feed(alloc, b"eve ann\n")?;
/// let IdEdges { named, names } = reader.finish_edges(alloc)?;
/// let edges = named.edges.as_slice(); // (0, 1), (1, 2): 0 stands for bob, 1 for eve, 2 for ann
/// ```
#[derive(Drop)]
pub struct IdReader {
    pub(crate) reader: TextReader,
    /// The names so far, where the ids are names.
    pub(crate) names: Option<Names>,
    /// The text of numbers for which a piece stands.
    numbered: Vec<u8>,
}

/// No names, where the ids are names.
fn no_names(alloc: Global, ids: Ids) -> Option<Names>
    ensures { result ≡ names_of ids [] }
{
    match ids {
        Ids::Numbers => None,
        Ids::Names => Some(Names::new(alloc)),
    }
}

impl IdReader {
    /// A reader that was fed nothing.
    pub fn new(alloc: Global, limits: Limits, ids: Ids) -> IdReader
        ensures fed { WasFedIds ids result [] }
        ensures limits { result.reader.limits ≡ limits }
    {
        IdReader {
            reader: TextReader::new(alloc, limits),
            names: no_names(alloc, ids),
            numbered: Vec::new(alloc),
        }
    }

    /// Takes the next bytes of the text, where those before end with a line. After `NoMemory` the reader is of no more use.
    pub fn feed(&mut self, alloc: Global, piece: &[u8]) -> Result<(), NoMemory>
        requires { (ids : Ids) × (fed : List ℕ) × EndsLine fed × WasFedIds ids self.old fed }
        ensures fed { OnOk result ((ids : Ids) (fed : List ℕ) → EndsLine fed → WasFedIds ids self.old fed → WasFedIds ids self.new (fed ++ piece.now)) }
        ensures limits { OnOk result (self.new.reader.limits ≡ self.old.reader.limits) }
    {
        let Some(names) = &mut self.names else {
            return self.reader.feed(alloc, piece);
        };
        self.numbered.clear();
        names.number_lines(alloc, piece, &mut self.numbered)?;
        self.reader.feed(alloc, &self.numbered)
    }

    /// The ids and edges of the text that was fed, and its names where the ids are names.
    ///
    /// `Refused` comes exactly where the text of numbers is too long, or else where a line of it is refused, with the first such line and the
    /// first check that it fails; `NoMemory` where there is no memory for the edges.
    pub fn finish_edges(self, alloc: Global) -> Result<IdEdges, ParseFault>
        requires { (ids : Ids) × (fed : List ℕ) × WasFedIds ids self fed }
        ensures named { IfOk result (λ found. (ids : Ids) (fed : List ℕ) → WasFedIds ids self fed
            → (told : Told) × (meaning self.reader.limits (as_numbers ids fed) ≡ Means told) × IsNamedEdges told found.named) }
        ensures names { IfOk result (λ found. (ids : Ids) (fed : List ℕ) → WasFedIds ids self fed → found.names ≡ names_of ids fed) }
        ensures few { IfOk result (λ found. length found.named.ids.items ≤ self.reader.limits.ids) }
        ensures within { IfOk result (λ found. All (λ p. (p.0 < p.1) × (p.1 < length found.named.ids.items)) found.named.edges.items) }
        ensures refused { (r : Refusal) (ids : Ids) (fed : List ℕ) → IsErrOf result (ParseFault.Refused r) → WasFedIds ids self fed
            → meaning self.reader.limits (as_numbers ids fed) ≡ Refuses r.line r.kind }
    {
        let IdReader {
            reader,
            names,
            numbered: _,
        } = self;
        let named = reader.finish_edges(alloc)?;
        Ok(IdEdges { named, names })
    }
}
