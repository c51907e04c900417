//! Reads the edges of a text in a dialect from a source, in pieces, so that its text is never held.
//!
//! [`read_edges_in`] asks the source for at most [`PIECE_BYTES`] bytes at a time, has `kc_dialect` rewrite them as plain text and feeds a
//! reader of texts with that. Where ids are names, `kc_names` puts their numbers in their place. `specs/Meanings` says what a text means in
//! a dialect: what its text of numbers means, unless a bad line ends the reading. Behind a line that is refused it reads on to the end, so
//! that a read that fails there is still told as such.
//!
//! The crate stands on `kc_io`, `kc_text`, `kc_dialect` and `kc_names`.
#![tactic(auto)]

mod fault;
mod plain_reader;
mod reader;

ghost use Rattle.std.specs.Prelude.{◌≡◌, ◌≢◌, ◌≤◌, ◌<◌, ◌++◌, ◌⊎◌, [], ℕ, Err, List, All, IfOk, IfSome, IsErrOf, OnOk, length};
ghost use Rattle.std.specs.Io.KnownBytes.{Consumes, IsAtEnd};
ghost use Rattle.kc_io.specs.Causes.{Rose};
ghost use Rattle.kc_text.specs.declared.limits.TheConstants.Limits.{GRAPH};
ghost use Rattle.kc_dialect_read.specs.Meanings.{IsRefusedAt};
ghost use Rattle.kc_dialect_read.specs.Reading.{AreEdgesIn, WasGiven};
ghost use Rattle.kc_dialect_read.specs.declared.fault.PlacedRefusal.{PlacedRefusal};

pub use fault::{DialectFault, PlacedRefusal};
use kc_dialect::Dialect;
use kc_io::source::Source;
use kc_text::Limits;
pub use plain_reader::DialectEdges;
use reader::DialectReader;
use std::alloc::Global;

/// The most bytes that are asked for at once.
const PIECE_BYTES: usize = 1_048_576;

/// Reads the next bytes of the source into `piece`, and feeds the reader with them. Gives their number; 0 is the end of the source.
fn feed_next<S: Source>(
    alloc: Global,
    source: &mut S,
    piece: &mut [u8],
    reader: &mut DialectReader,
) -> Result<usize, DialectFault>
    requires room { 0 < length piece.old }
    requires fed { (fed : List ℕ) × WasGiven reader.old fed }
    ensures given { (given : List ℕ) × Consumes (S.left source.old) (S.left source.new) given × (length given ≤ length piece.old)
        × IfOk result (λ n. (length given ≡ n) × ((fed : List ℕ) → WasGiven reader.old fed → WasGiven reader.new (fed ++ given))) }
    ensures ended { IfOk result (λ n. n ≡ 0 → IsAtEnd (S.left source.new)) }
    ensures dialect { reader.new.inner.dialect ≡ reader.old.inner.dialect }
    ensures faultless { result ≢ Err DialectFault.ReadFault → S.faults source.new ≡ S.faults source.old }
    ensures read_fault { IsErrOf result DialectFault.ReadFault → Rose (S.faults source.old) (S.faults source.new) }
    ensures unjudged { (r : PlacedRefusal) → result ≢ Err (DialectFault.Refused r) }
{
    let n = source.read(piece)?;
    reader.feed(alloc, &piece[..n])?;
    Ok(n)
}

/// Feeds a new reader with all bytes of the source, or with more than there may be, in pieces that fill the room or less.
fn feed_all<S: Source>(
    alloc: Global,
    source: &mut S,
    room: &mut [u8],
    reader: &mut DialectReader,
) -> Result<(), DialectFault>
    requires room { 0 < length room.old }
    requires none { WasGiven reader.old [] }
    ensures given { OnOk result ((given : List ℕ) × Consumes (S.left source.old) (S.left source.new) given × WasGiven reader.new given
        × (IsAtEnd (S.left source.new) ⊎ (GRAPH.bytes < length given))) }
    ensures dialect { reader.new.inner.dialect ≡ reader.old.inner.dialect }
    ensures faultless { result ≢ Err DialectFault.ReadFault → S.faults source.new ≡ S.faults source.old }
    ensures read_fault { IsErrOf result DialectFault.ReadFault → Rose (S.faults source.old) (S.faults source.new) }
    ensures unjudged { (r : PlacedRefusal) → result ≢ Err (DialectFault.Refused r) }
{
    let mut left = Limits::GRAPH.bytes;
    loop {
        let most = left.min(room.len() - 1) + 1;
        let n = feed_next(alloc, source, &mut room[..most], reader)?;
        if n == 0 || left < n {
            return Ok(());
        }
        left -= n;
    }
}

/// A reader that was fed with all bytes of the source, or with more than there may be.
fn fed_reader<S: Source>(
    alloc: Global,
    source: &mut S,
    dialect: Dialect,
) -> Result<DialectReader, DialectFault>
    ensures given { IfOk result (λ reader. (given : List ℕ) × Consumes (S.left source.old) (S.left source.new) given × WasGiven reader given
        × (IsAtEnd (S.left source.new) ⊎ (GRAPH.bytes < length given))) }
    ensures dialect { IfOk result (λ reader. reader.inner.dialect ≡ dialect) }
    ensures faultless { result ≢ Err DialectFault.ReadFault → S.faults source.new ≡ S.faults source.old }
    ensures read_fault { IsErrOf result DialectFault.ReadFault → Rose (S.faults source.old) (S.faults source.new) }
    ensures unjudged { (r : PlacedRefusal) → result ≢ Err (DialectFault.Refused r) }
{
    let mut reader = DialectReader::new(alloc, dialect);
    let mut room = vec![in alloc; 0u8; PIECE_BYTES]?;
    feed_all(alloc, source, &mut room, &mut reader)?;
    Ok(reader)
}

/// The ids and the edges that all bytes of the source tell in a dialect, as they were told, and the bad lines that were passed over. Where
/// the ids are names, the ids are their numbers, and the names come with them.
///
/// `Refused` comes exactly where the bytes are too many, or else where a bad line ends the reading, or else where a line of their text of
/// numbers is refused, with the first such line and the first check that it fails. `ReadFault` comes only where the source's count of faults
/// rose in this call; at each other answer no call of the source has failed. `NoMemory` comes where there is no memory to read.
pub fn read_edges_in<S: Source>(
    alloc: Global,
    source: &mut S,
    dialect: Dialect,
) -> Result<DialectEdges, DialectFault>
    ensures edges { IfOk result (AreEdgesIn dialect (S.left source.old)) }
    ensures ended { OnOk result (IsAtEnd (S.left source.new)) }
    ensures few { IfOk result (λ found. length found.named.ids.items ≤ GRAPH.ids) }
    ensures within { IfOk result (λ found. All (λ p. (p.0 < p.1) × (p.1 < length found.named.ids.items)) found.named.edges.items) }
    ensures refused { (r : PlacedRefusal) → IsErrOf result (DialectFault.Refused r) → IfSome (S.left source.old) (λ all. IsRefusedAt dialect all r) }
    ensures faultless { result ≢ Err DialectFault.ReadFault → S.faults source.new ≡ S.faults source.old }
    ensures read_fault { IsErrOf result DialectFault.ReadFault → Rose (S.faults source.old) (S.faults source.new) }
{
    let reader = fed_reader(alloc, source, dialect)?;
    reader.finish(alloc)
}
