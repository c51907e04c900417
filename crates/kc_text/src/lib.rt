//! Reads the text of a graph: the edges of a SNAP edge list (Leskovec and Krevl 2014), two ids a line with comment lines between
//! them, and behind them batches of changes. A line `batch` begins a batch, and its changes are lines as `+ 5 9` and `- 5 9`.
//!
//! [`parse`] gives the input that a text means, or the first line that is refused, with the first check that it fails. What a text
//! means is defined in `specs/`: `Lines` cuts it into lines and fields, `Forms` says what one line says, `Meaning` judges each line
//! after what the lines before it have told, and `Inputs` numbers the ids. The other files there serve the crate's own proofs.
//!
//! [`TextReader`] gives the same of a text that comes in pieces, cut anywhere. It reads each line as soon as the line is whole, so
//! nobody has to hold the text. Where the batches are of no concern, it gives the ids and the edges as they come, and sorts nothing.
//!
//! [`TextReader::feed_by`] does so with the help of a [`PartsReader`], which reads the lines of a piece in parts, as [`read_parts_in`] does by
//! several threads. Line numbers, limits and refusals stay with the one reader.
//!
//! A batch may name a pair again. Then the last line that names it decides, as `specs/Overruling` says, and the others are counted.
//! [`decide`] does the same for a list of updates, as `specs/LastUpdates` says.
//!
//! [`cut_line`], [`cut_field`], [`number`] and [`read_line`] are the steps of that reading, for whoever reads lines of other forms.
//!
//! Reading is linear but for sorts. A plain line is read in one scan (`plain`), any other is cut off and into fields. Ids that are not
//! far apart are marked and listed, and far ones sorted (`ids`). The different ids are counted at the end. Only where there are too
//! many are the edges and batches that were told taken again, line by line, to find the line (`reading`). The text itself is read
//! once, but for parts with other lines than plain edge lines, which are looked at before. The crate stands on `kc_graph`, for a graph's
//! edges as a set of pairs and for its updates.
#![tactic(auto)]

mod batch;
mod buckets;
mod bytes;
mod change;
mod digits;
mod fault;
mod fields;
mod finder;
mod ids;
mod input;
mod kind;
pub mod laws;
mod limits;
mod line;
mod line_numbers;
mod look;
mod named_edges;
mod numbering;
mod overruling;
mod part;
mod plain;
mod reader;
mod reading;
mod refusal;
mod text_reader;

ghost use Rattle.std.specs.Prelude.{◌≡◌, ◌≢◌, ◌≤◌, ◌<◌, ◌+◌, ◌^◌, ◌↔◌, ℕ, List, All, IfOk, IsErrOf, length, map};
ghost use Rattle.std.specs.List.{filter_map, list_any};
ghost use Rattle.std.specs.List.Sorted.{IsStrictlyIncreasing};
ghost use Rattle.kc_text.specs.Batches.{NamesOnce};
ghost use Rattle.kc_text.specs.Inputs.{AreAmong, AreEdges, IsBatch, IsInput, numbered, numbered_batch, parts_of_batch, start_graph};
ghost use Rattle.kc_text.specs.Meaning.{Means, Refuses, Told, batches, ends, ends_of, meaning, name_same};
ghost use Rattle.kc_text.specs.NamedOnce.{Ends, IsRefused, Tells, strict_meaning};
ghost use Rattle.kc_text.specs.Overruling.{deciding, overruled};
ghost use Rattle.kc_text.specs.declared.change.ChangeLine as change;
ghost use Rattle.kc_text.specs.declared.kind.Kind.{Kind};
ghost use Rattle.kc_text.specs.declared.refusal.Refusal.{Refusal};
ghost use Rattle.kc_text.specs.declared.limits.Limits.{Limits};

use crate::finder::Finder;
use crate::numbering::{batches_of, numbered, start_of};
use crate::overruling::decide_batches;
pub use batch::Batch;
pub use bytes::cut_line;
pub use change::ChangeLine;
pub use digits::number;
pub use fault::ParseFault;
pub use fields::cut_field;
pub use input::Input;
pub use kind::Kind;
pub use limits::{Limits, MOST_BATCHES, MOST_BYTES, MOST_EDGE_LINES, MOST_IDS, MOST_UPDATES};
pub use line::{TextLine, read_line};
pub use named_edges::NamedEdges;
pub use overruling::decide;
pub use part::{OneThread, Part, PartsReader, cut_lines, read_part, read_parts_in};
pub use refusal::Refusal;
pub use std::alloc::AllocError as NoMemory;
use std::alloc::Global;
pub use text_reader::TextReader;

/// The input between the numbers that stand for the ids.
fn input_of(
    alloc: Global,
    ids: Vec<u32>,
    edges: &[(u32, u32)],
    batches: &[Vec<ChangeLine>],
) -> Result<Input, NoMemory>
    requires ascending { IsStrictlyIncreasing ids.items }
    requires few { length ids.items < 2 ^ 32 }
    requires edges { AreAmong ids.items (ends edges.now) }
    requires batches { All (λ batch. AreAmong ids.items (ends (map ends_of batch.items))) batches.now }
    requires apart { All (λ batch. All (λ c. c.a ≢ c.b) batch.items) batches.now }
    requires short { All (λ batch. length batch.items < 2 ^ 32) batches.now }
    ensures ids { IfOk result (λ input. input.ids.items ≡ ids.items) }
    ensures start { IfOk result (λ input. AreEdges (start_graph ids.items edges.now) input.start.items) }
    ensures batches { IfOk result (λ input. map parts_of_batch input.batches.items ≡ map (λ batch. numbered_batch ids.items batch.items) batches.now) }
{
    let finder = Finder::new(alloc, &ids)?;
    let start = start_of(alloc, &ids, &finder, edges)?;
    let updates = batches_of(alloc, &ids, &finder, batches)?;
    let batches = decide_batches(alloc, &updates)?;
    Ok(Input {
        ids,
        start,
        batches,
    })
}

/// The ids, and the edges between the numbers that stand for them, as they were told.
fn edges_of(alloc: Global, ids: Vec<u32>, edges: &[(u32, u32)]) -> Result<NamedEdges, NoMemory>
    requires ascending { IsStrictlyIncreasing ids.items }
    requires few { length ids.items < 2 ^ 32 }
    requires among { AreAmong ids.items (ends edges.now) }
    ensures ids { IfOk result (λ named. named.ids.items ≡ ids.items) }
    ensures edges { IfOk result (λ named. named.edges.items ≡ filter_map (numbered ids.items) edges.now) }
    ensures within { IfOk result (λ named. All (λ p. (p.0 < p.1) × (p.1 < length ids.items)) named.edges.items) }
{
    let finder = Finder::new(alloc, &ids)?;
    let edges = numbered(alloc, &ids, &finder, edges)?;
    Ok(NamedEdges { ids, edges })
}

/// The input that a text means within limits.
///
/// `Refused` comes exactly where the text is too long, or else where a line is refused, with the first such line and the first check
/// that it fails; `NoMemory` where there is no memory to read the text. No two updates of a batch are of one edge, so it doesn't matter
/// in which order they are applied.
///
/// # Example
///
/// ```rust
/// use kc_text::{Limits, parse};
///
/// let input = parse(alloc, Limits::KCORE, b"5 9\nbatch\n+ 7 5\n- 9 5\n")?;
/// let ids = input.ids.as_slice(); // 5, 7, 9
/// let start = input.start.as_slice(); // (0, 2): 0 stands for the id 5, and 2 for 9
/// let batches = input.batches.as_slice(); // one batch, with the updates + 0 1 and - 0 2
/// let fault = parse(alloc, Limits::KCORE, b"1 2\n1 x\n").err(); // Refused, line 2, Kind::NotANumber
/// ```
pub fn parse(alloc: Global, limits: Limits, bytes: &[u8]) -> Result<Input, ParseFault>
    ensures input { IfOk result (λ input. (told : Told) × (meaning limits bytes.now ≡ Means told) × IsInput told input) }
    ensures few { IfOk result (λ input. length input.ids.items ≤ limits.ids) }
    ensures few_batches { IfOk result (λ input. length input.batches.items ≤ limits.batches) }
    ensures short { IfOk result (λ input. All (λ batch. length batch.updates.items ≤ limits.updates) input.batches.items) }
    ensures counts { IfOk result (λ input. All (λ batch. batch.overruled ≤ limits.updates) input.batches.items) }
    ensures batches { IfOk result (λ input. All (λ batch. IsBatch (length input.ids.items) batch.updates.items) input.batches.items) }
    ensures refused { (r : Refusal) → IsErrOf result (ParseFault.Refused r) → meaning limits bytes.now ≡ Refuses r.line r.kind }
{
    let mut reader = TextReader::new(alloc, limits);
    reader.feed(alloc, bytes)?;
    reader.finish(alloc)
}

/// As [`parse`]. Where `threads` is 2 or more, `reader` reads the lines in parts first, as for so many threads. Whoever reads them, the
/// input is the same, and so is what is refused.
pub fn parse_by<P: PartsReader>(
    alloc: Global,
    limits: Limits,
    reader: &P,
    threads: u32,
    bytes: &[u8],
) -> Result<Input, ParseFault>
    ensures input { IfOk result (λ input. (told : Told) × (meaning limits bytes.now ≡ Means told) × IsInput told input) }
    ensures few { IfOk result (λ input. length input.ids.items ≤ limits.ids) }
    ensures few_batches { IfOk result (λ input. length input.batches.items ≤ limits.batches) }
    ensures short { IfOk result (λ input. All (λ batch. length batch.updates.items ≤ limits.updates) input.batches.items) }
    ensures counts { IfOk result (λ input. All (λ batch. batch.overruled ≤ limits.updates) input.batches.items) }
    ensures batches { IfOk result (λ input. All (λ batch. IsBatch (length input.ids.items) batch.updates.items) input.batches.items) }
    ensures refused { (r : Refusal) → IsErrOf result (ParseFault.Refused r) → meaning limits bytes.now ≡ Refuses r.line r.kind }
{
    let mut text = TextReader::new(alloc, limits);
    text.feed_pieces(alloc, reader, threads, bytes)?;
    text.finish(alloc)
}

/// The changes of a batch that decide name each pair that the batch names, and none twice, and all its other changes are overruled.
pub fn a_batch_decides_each_pair_once()
    ensures once { (batch : List change.ChangeLine) → NamesOnce (deciding batch) }
    ensures each { (c : change.ChangeLine) (batch : List change.ChangeLine) → list_any (name_same c) (deciding batch) ≡ list_any (name_same c) batch }
    ensures others { (batch : List change.ChangeLine) → length (deciding batch) + overruled batch ≡ length batch }
{}

/// A text means what it means by a stricter rule, by which a line that names a pair of its batch again ends the reading: just where no
/// batch names a pair twice does that rule come to the end, and then each change decides. What is refused by that rule is refused.
pub fn what_names_each_edge_once_means_the_same()
    ensures same { (limits : Limits) (bytes : List ℕ) (told : Told)
        → (strict_meaning limits bytes ≡ Tells told) ↔ ((meaning limits bytes ≡ Means told) × All NamesOnce (batches told)) }
    ensures all_decide { (limits : Limits) (bytes : List ℕ) (told : Told) → strict_meaning limits bytes ≡ Tells told
        → All (λ batch. (deciding batch ≡ batch) × (overruled batch ≡ 0)) (batches told) }
    ensures refused { (limits : Limits) (bytes : List ℕ) (line : ℕ) (kind : Kind)
        → strict_meaning limits bytes ≡ Ends line (IsRefused kind) → meaning limits bytes ≡ Refuses line kind }
{}
