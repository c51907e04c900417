//! Reads an input from a source, in pieces, so that its text is never held.
//!
//! [`read_input`] asks the source for at most [`PIECE_BYTES`] bytes at a time and feeds a reader of texts with them. The source's contract
//! says which bytes it gave, and the reader's what they mean. So the input is what all bytes of the source mean, where the source tells
//! them. Behind a line that is refused it reads on to the end, so that a read that fails there is still told as such. [`read_edges`] does
//! so for whom the batches don't concern: the ids and the edges come as they were told, and nothing is sorted.
//!
//! [`read_input_by`] and [`read_edges_by`] give the same, and have the lines of a piece read in parts, which several threads may do. They
//! ask for larger pieces then.
//!
//! The crate stands on `kc_io` and `kc_text`.
#![tactic(auto)]

mod fault;

ghost use Rattle.std.specs.Prelude.{◌≡◌, ◌≢◌, ◌≤◌, ◌<◌, ◌+◌, ◌++◌, ◌⊎◌, [], ℕ, Err, List, All, IfOk, IfSome, IsErrOf, OnOk, length};
ghost use Rattle.std.specs.Io.KnownBytes.{Consumes, IsAtEnd};
ghost use Rattle.kc_io.specs.Causes.{Rose};
ghost use Rattle.kc_text.specs.Feeding.{WasFed};
ghost use Rattle.kc_text.specs.Inputs.{IsBatch};
ghost use Rattle.kc_text.specs.Meaning.{Refuses, meaning};
ghost use Rattle.kc_text.specs.declared.refusal.Refusal.{Refusal};
ghost use Rattle.kc_read.specs.Reading.{AreEdgesWithin, IsInputWithin};

pub use fault::InputFault;
use kc_io::source::Source;
use kc_text::{Input, Limits, NamedEdges, OneThread, PartsReader, TextReader};
use std::alloc::Global;

/// The most bytes that are asked for at once.
const PIECE_BYTES: usize = 1_048_576;

/// The most bytes that are asked for at once where several threads read them. Room for more costs each short run some milliseconds.
const SHARED_PIECE_BYTES: usize = 2_097_152;

/// How many bytes are asked for at once, by how many threads read them.
fn piece_bytes(threads: u32) -> usize
    ensures { 0 < result }
{
    if threads > 1 {
        SHARED_PIECE_BYTES
    } else {
        PIECE_BYTES
    }
}

/// Reads the next bytes of the source into `piece`, and feeds the reader with them. Gives their number; 0 is the end of the source.
fn feed_next<P: PartsReader, S: Source>(
    alloc: Global,
    hands: &P,
    threads: u32,
    source: &mut S,
    piece: &mut [u8],
    reader: &mut TextReader,
) -> Result<usize, InputFault>
    requires room { 0 < length piece.old }
    requires fed { (fed : List ℕ) × WasFed reader.old fed }
    ensures given { (given : List ℕ) × Consumes (S.left source.old) (S.left source.new) given × (length given ≤ length piece.old)
        × IfOk result (λ n. (length given ≡ n) × ((fed : List ℕ) → WasFed reader.old fed → WasFed reader.new (fed ++ given))) }
    ensures ended { IfOk result (λ n. n ≡ 0 → IsAtEnd (S.left source.new)) }
    ensures limits { OnOk result (reader.new.limits ≡ reader.old.limits) }
    ensures faultless { result ≢ Err InputFault.ReadFault → S.faults source.new ≡ S.faults source.old }
    ensures later { S.faults source.old ≤ S.faults source.new }
    ensures read_fault { IsErrOf result InputFault.ReadFault → Rose (S.faults source.old) (S.faults source.new) }
    ensures unjudged { (r : Refusal) → result ≢ Err (InputFault.Refused r) }
{
    let n = source.read(piece)?;
    reader.feed_by(alloc, hands, threads, &piece[..n])?;
    Ok(n)
}

/// Feeds a new reader with all bytes of the source, or with more than its limits allow, in pieces that fill the room or less.
fn feed_all<P: PartsReader, S: Source>(
    alloc: Global,
    hands: &P,
    threads: u32,
    source: &mut S,
    room: &mut [u8],
    reader: &mut TextReader,
) -> Result<(), InputFault>
    requires room { 0 < length room.old }
    requires none { WasFed reader.old [] }
    ensures given { (given : List ℕ) × Consumes (S.left source.old) (S.left source.new) given × (length given ≤ reader.old.limits.bytes + 1)
        × OnOk result (WasFed reader.new given × (IsAtEnd (S.left source.new) ⊎ (reader.old.limits.bytes < length given))) }
    ensures limits { OnOk result (reader.new.limits ≡ reader.old.limits) }
    ensures faultless { result ≢ Err InputFault.ReadFault → S.faults source.new ≡ S.faults source.old }
    ensures later { S.faults source.old ≤ S.faults source.new }
    ensures read_fault { IsErrOf result InputFault.ReadFault → Rose (S.faults source.old) (S.faults source.new) }
    ensures unjudged { (r : Refusal) → result ≢ Err (InputFault.Refused r) }
{
    let mut left = reader.limits.bytes;
    loop {
        let most = left.min(room.len() - 1) + 1;
        let n = feed_next(alloc, hands, threads, source, &mut room[..most], reader)?;
        if n == 0 || left < n {
            return Ok(());
        }
        left -= n;
    }
}

/// A reader that was fed with all bytes of the source, or with more than the limits allow.
fn fed_reader<P: PartsReader, S: Source>(
    alloc: Global,
    hands: &P,
    threads: u32,
    source: &mut S,
    limits: Limits,
) -> Result<TextReader, InputFault>
    ensures given { (given : List ℕ) × Consumes (S.left source.old) (S.left source.new) given × (length given ≤ limits.bytes + 1)
        × IfOk result (λ reader. WasFed reader given × (IsAtEnd (S.left source.new) ⊎ (limits.bytes < length given))) }
    ensures limits { IfOk result (λ reader. reader.limits ≡ limits) }
    ensures faultless { result ≢ Err InputFault.ReadFault → S.faults source.new ≡ S.faults source.old }
    ensures later { S.faults source.old ≤ S.faults source.new }
    ensures read_fault { IsErrOf result InputFault.ReadFault → Rose (S.faults source.old) (S.faults source.new) }
    ensures unjudged { (r : Refusal) → result ≢ Err (InputFault.Refused r) }
{
    let mut reader = TextReader::new(alloc, limits);
    let mut room = vec![in alloc; 0u8; piece_bytes(threads)]?;
    feed_all(alloc, hands, threads, source, &mut room, &mut reader)?;
    Ok(reader)
}

/// The input that all bytes of the source mean within limits.
///
/// `Refused` comes exactly where they are too many, or else where a line is refused, with the first such line and the first check that it
/// fails. `ReadFault` comes only where the source's count of faults rose in this call; at each other answer no call of the source has
/// failed. `NoMemory` comes where there is no memory to read. After each answer the source has lost just the bytes that it gave in this
/// call, and they are at most one more than the limits allow.
///
/// # Example
///
/// ```rust
/// use kc_io::mem_source::MemSource;
/// use kc_read::read_input;
/// use kc_text::Limits;
///
/// let text = Vec::from_slice(alloc, b"1 2\nbatch\n+ 2 3\n")?;
/// let mut source = MemSource::new(text, 4, Vec::new(alloc)); // four bytes at a time
/// let input = read_input(alloc, &mut source, Limits::KCORE)?;
/// let ids = input.ids.as_slice(); // 1, 2, 3
/// let start = input.start.as_slice(); // (0, 1)
/// let batches = input.batches.len(); // 1
/// ```
pub fn read_input<S: Source>(
    alloc: Global,
    source: &mut S,
    limits: Limits,
) -> Result<Input, InputFault>
    ensures input { IfOk result (IsInputWithin limits (S.left source.old)) }
    ensures ended { OnOk result (IsAtEnd (S.left source.new)) }
    ensures few { IfOk result (λ input. length input.ids.items ≤ limits.ids) }
    ensures few_batches { IfOk result (λ input. length input.batches.items ≤ limits.batches) }
    ensures short { IfOk result (λ input. All (λ batch. length batch.updates.items ≤ limits.updates) input.batches.items) }
    ensures counts { IfOk result (λ input. All (λ batch. batch.overruled ≤ limits.updates) input.batches.items) }
    ensures batches { IfOk result (λ input. All (λ batch. IsBatch (length input.ids.items) batch.updates.items) input.batches.items) }
    ensures refused { (r : Refusal) → IsErrOf result (InputFault.Refused r)
        → IfSome (S.left source.old) (λ all. meaning limits all ≡ Refuses r.line r.kind) }
    ensures given { (given : List ℕ) × Consumes (S.left source.old) (S.left source.new) given × (length given ≤ limits.bytes + 1) }
    ensures faultless { result ≢ Err InputFault.ReadFault → S.faults source.new ≡ S.faults source.old }
    ensures later { S.faults source.old ≤ S.faults source.new }
    ensures read_fault { IsErrOf result InputFault.ReadFault → Rose (S.faults source.old) (S.faults source.new) }
{
    read_input_by(alloc, &OneThread, 1, source, limits)
}

/// The input that all bytes of the source mean within limits, as of `read_input`. Where `threads` is 2 or more, `hands` reads the lines
/// of each piece in parts first, as for so many threads. The answer hangs on neither.
///
/// # Example
///
/// ```rust
/// use kc_io::mem_source::MemSource;
/// use kc_read::read_input_by;
/// use kc_text::{Limits, OneThread};
///
/// let text = Vec::from_slice(alloc, b"1 2\nbatch\n+ 2 3\n")?;
/// let mut source = MemSource::new(text, 4, Vec::new(alloc)); // four bytes at a time
/// let input = read_input_by(alloc, &OneThread, 2, &mut source, Limits::KCORE)?;
/// let ids = input.ids.as_slice(); // 1, 2, 3
/// ```
pub fn read_input_by<P: PartsReader, S: Source>(
    alloc: Global,
    hands: &P,
    threads: u32,
    source: &mut S,
    limits: Limits,
) -> Result<Input, InputFault>
    ensures input { IfOk result (IsInputWithin limits (S.left source.old)) }
    ensures ended { OnOk result (IsAtEnd (S.left source.new)) }
    ensures few { IfOk result (λ input. length input.ids.items ≤ limits.ids) }
    ensures few_batches { IfOk result (λ input. length input.batches.items ≤ limits.batches) }
    ensures short { IfOk result (λ input. All (λ batch. length batch.updates.items ≤ limits.updates) input.batches.items) }
    ensures counts { IfOk result (λ input. All (λ batch. batch.overruled ≤ limits.updates) input.batches.items) }
    ensures batches { IfOk result (λ input. All (λ batch. IsBatch (length input.ids.items) batch.updates.items) input.batches.items) }
    ensures refused { (r : Refusal) → IsErrOf result (InputFault.Refused r)
        → IfSome (S.left source.old) (λ all. meaning limits all ≡ Refuses r.line r.kind) }
    ensures given { (given : List ℕ) × Consumes (S.left source.old) (S.left source.new) given × (length given ≤ limits.bytes + 1) }
    ensures faultless { result ≢ Err InputFault.ReadFault → S.faults source.new ≡ S.faults source.old }
    ensures later { S.faults source.old ≤ S.faults source.new }
    ensures read_fault { IsErrOf result InputFault.ReadFault → Rose (S.faults source.old) (S.faults source.new) }
{
    let reader = fed_reader(alloc, hands, threads, source, limits)?;
    Ok(reader.finish(alloc)?)
}

/// The ids and the edges that all bytes of the source tell within limits, as they were told. `Refused`, `ReadFault` and `NoMemory` come as
/// of `read_input`, and the source has then lost as much.
///
/// # Example
///
/// ```rust
/// use kc_io::mem_source::MemSource;
/// use kc_read::read_edges;
/// use kc_text::Limits;
///
/// let text = Vec::from_slice(alloc, b"7 5\n5 9\n9 5\n")?;
/// let mut source = MemSource::new(text, 4, Vec::new(alloc)); // four bytes at a time
/// let named = read_edges(alloc, &mut source, Limits::GRAPH)?;
/// let ids = named.ids.as_slice(); // 5, 7, 9
/// let edges = named.edges.as_slice(); // (0, 1), (0, 2), (0, 2): as they were told
/// ```
pub fn read_edges<S: Source>(
    alloc: Global,
    source: &mut S,
    limits: Limits,
) -> Result<NamedEdges, InputFault>
    ensures edges { IfOk result (AreEdgesWithin limits (S.left source.old)) }
    ensures ended { OnOk result (IsAtEnd (S.left source.new)) }
    ensures few { IfOk result (λ named. length named.ids.items ≤ limits.ids) }
    ensures within { IfOk result (λ named. All (λ p. (p.0 < p.1) × (p.1 < length named.ids.items)) named.edges.items) }
    ensures refused { (r : Refusal) → IsErrOf result (InputFault.Refused r)
        → IfSome (S.left source.old) (λ all. meaning limits all ≡ Refuses r.line r.kind) }
    ensures given { (given : List ℕ) × Consumes (S.left source.old) (S.left source.new) given × (length given ≤ limits.bytes + 1) }
    ensures faultless { result ≢ Err InputFault.ReadFault → S.faults source.new ≡ S.faults source.old }
    ensures later { S.faults source.old ≤ S.faults source.new }
    ensures read_fault { IsErrOf result InputFault.ReadFault → Rose (S.faults source.old) (S.faults source.new) }
{
    read_edges_by(alloc, &OneThread, 1, source, limits)
}

/// The ids and the edges that all bytes of the source tell within limits, as of `read_edges`. Where `threads` is 2 or more, `hands` reads the
/// lines of each piece in parts first, as for so many threads. The answer hangs on neither.
///
/// # Example
///
/// ```rust
/// use kc_io::mem_source::MemSource;
/// use kc_read::read_edges_by;
/// use kc_text::{Limits, OneThread};
///
/// let text = Vec::from_slice(alloc, b"7 5\n5 9\n9 5\n")?;
/// let mut source = MemSource::new(text, 4, Vec::new(alloc)); // four bytes at a time
/// let named = read_edges_by(alloc, &OneThread, 2, &mut source, Limits::GRAPH)?;
/// let edges = named.edges.as_slice(); // (0, 1), (0, 2), (0, 2): as they were told
/// ```
pub fn read_edges_by<P: PartsReader, S: Source>(
    alloc: Global,
    hands: &P,
    threads: u32,
    source: &mut S,
    limits: Limits,
) -> Result<NamedEdges, InputFault>
    ensures edges { IfOk result (AreEdgesWithin limits (S.left source.old)) }
    ensures ended { OnOk result (IsAtEnd (S.left source.new)) }
    ensures few { IfOk result (λ named. length named.ids.items ≤ limits.ids) }
    ensures within { IfOk result (λ named. All (λ p. (p.0 < p.1) × (p.1 < length named.ids.items)) named.edges.items) }
    ensures refused { (r : Refusal) → IsErrOf result (InputFault.Refused r)
        → IfSome (S.left source.old) (λ all. meaning limits all ≡ Refuses r.line r.kind) }
    ensures given { (given : List ℕ) × Consumes (S.left source.old) (S.left source.new) given × (length given ≤ limits.bytes + 1) }
    ensures faultless { result ≢ Err InputFault.ReadFault → S.faults source.new ≡ S.faults source.old }
    ensures later { S.faults source.old ≤ S.faults source.new }
    ensures read_fault { IsErrOf result InputFault.ReadFault → Rose (S.faults source.old) (S.faults source.new) }
{
    let reader = fed_reader(alloc, hands, threads, source, limits)?;
    Ok(reader.finish_edges(alloc)?)
}
