//! Reads a text as its bytes come: lines are read when they are whole, and only what stands behind the last line end is kept.
ghost use Rattle.std.specs.Prelude.{◌≡◌, ◌≤◌, ◌<◌, ◌+◌, ◌^◌, ◌++◌, [], ℕ, None, Some, List, All, IfOk, IfSome, IsErrOf, IsTrue, OnOk, length};
ghost use Rattle.kc_text.specs.declared.line.TextLine.{TextLine};
ghost use Rattle.kc_text.specs.declared.refusal.Refusal.{Refusal};
ghost use Rattle.kc_text.specs.declared.text_reader.TheConstants.{TOO_LONG};
ghost use Rattle.kc_text.specs.Forms.{all_said};
ghost use Rattle.kc_text.specs.Feeding.{CanTake, KeepsUp, WasFed};
ghost use Rattle.kc_text.specs.Lines.{EndsLine};
ghost use Rattle.kc_text.specs.Inputs.{IsBatch, IsInput, IsNamedEdges};
ghost use Rattle.kc_text.specs.Meaning.{Means, Refuses, Told, meaning, nothing_told};
ghost use Rattle.kc_text.specs.Readers.{outcome};
ghost use Rattle.kc_text.specs.Parts.{IsPart, bytes_of};
ghost use Rattle.kc_text.specs.Readings.{CanRead, IsReading, Reads};
ghost use Rattle.kc_text.specs.TellingLines.{edge_lines};

use crate::bytes::{first_len, whole_len};
use crate::fault::ParseFault;
use crate::input::Input;
use crate::kind::Kind;
use crate::limits::Limits;
use crate::look::Look;
use crate::named_edges::NamedEdges;
use crate::part::{Part, PartsReader};
use crate::reading::{LineReader, Reading};
use crate::refusal::Refusal;
use crate::{NoMemory, edges_of, input_of};
use std::alloc::Global;

/// How many bytes of a text that is held are read in parts at once.
const PIECE_BYTES: usize = 8_388_608;

/// The whole text is refused, and no line is meant.
const TOO_LONG: Refusal = Refusal {
    line: 0,
    kind: Kind::TooLong,
};

/// What reads a text that is fed piece by piece. It holds what the lines tell, and the bytes behind the last line end.
///
/// # Example
///
/// ```rust
/// use kc_text::{Limits, NamedEdges, TextReader};
///
/// let mut reader = TextReader::new(alloc, Limits::GRAPH);
/// reader.feed(alloc, b"1 2\n2 ")?;
/// reader.feed(alloc, b"3\n3 1\n")?;
/// let NamedEdges { ids, edges } = reader.finish_edges(alloc)?;
/// let ids = ids.as_slice(); // 1, 2, 3
/// let edges = edges.as_slice(); // (0, 1), (1, 2), (0, 2)
/// ```
#[derive(Drop)]
pub struct TextReader {
    pub limits: Limits,
    lines: LineReader,
    /// The bytes behind the last line end.
    carry: Vec<u8>,
    /// How many bytes more the limits allow; none where the text is too long already.
    left: Option<usize>,
}

/// What is known of a text that is too long.
fn too_long(alloc: Global) -> Reading
    ensures reads { IsReading nothing_told result }
    ensures refused { result.refusal ≡ Some TOO_LONG }
{
    Reading {
        edges: Vec::new(alloc),
        batches: Vec::new(alloc),
        ids: Vec::new(alloc),
        refusal: Some(TOO_LONG),
    }
}

impl TextReader {
    /// A reader that was fed nothing.
    pub fn new(alloc: Global, limits: Limits) -> TextReader
        ensures fed { WasFed result [] }
        ensures limits { result.limits ≡ limits }
    {
        TextReader {
            limits,
            lines: LineReader::new(alloc, Look::Quick),
            carry: Vec::new(alloc),
            left: Some(limits.bytes),
        }
    }

    /// Reads the lines that end in some bytes behind those that are kept.
    fn read_lines(&mut self, alloc: Global, bytes: &[u8]) -> Result<(), NoMemory>
        requires can { CanRead self.old.lines }
        requires few { self.old.lines.numbers.lines + length self.old.carry.items + length bytes.now < 2 ^ 64 }
        ensures reads { OnOk result ((before : List TextLine) → Reads self.old.limits self.old.lines before
            → Reads self.old.limits self.new.lines (before ++ all_said (self.old.carry.items ++ bytes.now))) }
        ensures can { OnOk result (CanRead self.new.lines) }
        ensures carry { OnOk result (self.new.carry.items ≡ []) }
        ensures lines { OnOk result (self.new.lines.numbers.lines ≤ self.old.lines.numbers.lines + length self.old.carry.items + length bytes.now) }
        ensures limits { OnOk result (self.new.limits ≡ self.old.limits) }
        ensures left { OnOk result (self.new.left ≡ self.old.left) }
    {
        if self.carry.is_empty() {
            return self.lines.read(alloc, &self.limits, bytes);
        }
        self.carry.extend_from_slice(bytes)?;
        self.lines.read(alloc, &self.limits, &self.carry)?;
        self.carry.clear();
        Ok(())
    }

    /// Takes bytes that are none or end with a line end.
    fn take_whole(&mut self, alloc: Global, whole: &[u8]) -> Result<(), NoMemory>
        requires ended { EndsLine whole.now }
        requires keeps_up { (left : ℕ) × (fed : List ℕ) × KeepsUp self.old (left + length whole.now) fed }
        ensures keeps_up { OnOk result ((left : ℕ) (fed : List ℕ) → KeepsUp self.old (left + length whole.now) fed
            → KeepsUp self.new left (fed ++ whole.now)) }
        ensures limits { OnOk result (self.new.limits ≡ self.old.limits) }
        ensures left { OnOk result (self.new.left ≡ self.old.left) }
    {
        if whole.is_empty() {
            return Ok(());
        }
        self.read_lines(alloc, whole)?;
        Ok(())
    }

    /// Takes the next bytes of the text. After `NoMemory` the reader is of no more use.
    pub fn feed(&mut self, alloc: Global, piece: &[u8]) -> Result<(), NoMemory>
        requires { (fed : List ℕ) × WasFed self.old fed }
        ensures fed { OnOk result ((fed : List ℕ) → WasFed self.old fed → WasFed self.new (fed ++ piece.now)) }
        ensures limits { OnOk result (self.new.limits ≡ self.old.limits) }
    {
        let Some(left) = self.left else {
            return Ok(());
        };
        if left < piece.len() {
            self.left = None;
            return Ok(());
        }
        self.left = Some(left - piece.len());
        let (whole, rest) = piece.split_at(whole_len(piece));
        self.take_whole(alloc, whole)?;
        self.carry.extend_from_slice(rest)?;
        Ok(())
    }

    /// Whether so many bytes more are allowed, and no line is refused so far. Otherwise nothing hangs on what they tell.
    fn may_read(&self, bytes: usize) -> bool
        ensures { IsTrue result → IfSome self.now.left (λ left. bytes ≤ left) × (self.now.lines.refusal ≡ None) }
    {
        match self.left {
            Some(left) => bytes <= left && self.lines.goes_on(),
            None => false,
        }
    }

    /// How many bytes more are allowed behind bytes that tell so many edges and no more, where these may be taken in one go.
    fn room_behind(&self, bytes: &[u8], edge_lines: usize) -> Option<usize>
        ensures { IfSome result (CanTake self.now (length bytes.now) edge_lines) }
    {
        let left = self.left?;
        if left < bytes.len() || bytes.is_empty() || !self.carry.is_empty() {
            return None;
        }
        if !self.lines.has_room(&self.limits, edge_lines) {
            return None;
        }
        Some(left - bytes.len())
    }

    /// Takes the next bytes of the text, which end with a line end and tell just these edges, in one go where that is the same.
    fn feed_plain(
        &mut self,
        alloc: Global,
        bytes: &[u8],
        edges: &[(u32, u32)],
    ) -> Result<(), NoMemory>
        requires fed { (fed : List ℕ) × WasFed self.old fed }
        requires ended { EndsLine bytes.now }
        requires told { all_said bytes.now ≡ edge_lines edges.now }
        ensures fed { OnOk result ((fed : List ℕ) → WasFed self.old fed → WasFed self.new (fed ++ bytes.now)) }
        ensures limits { OnOk result (self.new.limits ≡ self.old.limits) }
    {
        let Some(left) = self.room_behind(bytes, edges.len()) else {
            return self.feed(alloc, bytes);
        };
        self.left = Some(left);
        self.lines.take_plain(&self.limits, edges)?;
        Ok(())
    }

    /// Takes a part of the text.
    fn feed_part(&mut self, alloc: Global, part: &Part) -> Result<(), NoMemory>
        requires fed { (fed : List ℕ) × WasFed self.old fed }
        requires part { IsPart part.now }
        ensures fed { OnOk result ((fed : List ℕ) → WasFed self.old fed → WasFed self.new (fed ++ part.now.bytes.now)) }
        ensures limits { OnOk result (self.new.limits ≡ self.old.limits) }
    {
        match &part.edges {
            Some(edges) => self.feed_plain(alloc, part.bytes, edges),
            None => self.feed(alloc, part.bytes),
        }
    }

    /// Takes parts of the text, one after the other.
    fn feed_parts(&mut self, alloc: Global, parts: &[Part]) -> Result<(), NoMemory>
        requires fed { (fed : List ℕ) × WasFed self.old fed }
        requires parts { All IsPart parts.now }
        ensures fed { OnOk result ((fed : List ℕ) → WasFed self.old fed → WasFed self.new (fed ++ bytes_of parts.now)) }
        ensures limits { OnOk result (self.new.limits ≡ self.old.limits) }
    {
        for part in parts {
            self.feed_part(alloc, part)?;
        }
        Ok(())
    }

    /// Takes the next bytes of the text, of which the whole lines are read in parts first.
    fn feed_lines<P: PartsReader>(
        &mut self,
        alloc: Global,
        reader: &P,
        threads: u32,
        piece: &[u8],
    ) -> Result<(), NoMemory>
        requires { (fed : List ℕ) × WasFed self.old fed }
        ensures fed { OnOk result ((fed : List ℕ) → WasFed self.old fed → WasFed self.new (fed ++ piece.now)) }
        ensures limits { OnOk result (self.new.limits ≡ self.old.limits) }
    {
        let (whole, rest) = piece.split_at(whole_len(piece));
        let parts = reader.read_parts(alloc, threads, whole)?;
        self.feed_parts(alloc, &parts)?;
        self.feed(alloc, rest)
    }

    /// How many bytes of a piece belong to the line that was begun before.
    fn begun_len(&self, piece: &[u8]) -> usize
        ensures { result ≤ length piece.now }
    {
        if self.carry.is_empty() {
            0
        } else {
            first_len(piece)
        }
    }

    /// Takes the next bytes of the text, as `feed` does. Where `threads` is 2 or more, `reader` reads the whole lines of the bytes in parts
    /// first. The text means the same then, and a line that is refused has the same number. After `NoMemory` the reader is of no more use.
    ///
    /// # Example
    ///
    /// ```rust
    /// use kc_text::{Limits, OneThread, TextReader};
    ///
    /// let mut reader = TextReader::new(alloc, Limits::GRAPH);
    /// reader.feed_by(alloc, &OneThread, 2, b"1 2\n2 3\n3 ")?;
    /// reader.feed_by(alloc, &OneThread, 2, b"1\n")?;
    /// let edges = reader.finish_edges(alloc)?.edges.len(); // 3
    /// ```
    pub fn feed_by<P: PartsReader>(
        &mut self,
        alloc: Global,
        reader: &P,
        threads: u32,
        piece: &[u8],
    ) -> Result<(), NoMemory>
        requires { (fed : List ℕ) × WasFed self.old fed }
        ensures fed { OnOk result ((fed : List ℕ) → WasFed self.old fed → WasFed self.new (fed ++ piece.now)) }
        ensures limits { OnOk result (self.new.limits ≡ self.old.limits) }
    {
        if threads <= 1 || !self.may_read(piece.len()) {
            return self.feed(alloc, piece);
        }
        let (begun, others) = piece.split_at(self.begun_len(piece));
        self.feed(alloc, begun)?;
        self.feed_lines(alloc, reader, threads, others)
    }

    /// Takes the next bytes of the text by [`feed_by`](TextReader::feed_by), in pieces, so that what `reader` reads ahead stays small.
    pub(crate) fn feed_pieces<P: PartsReader>(
        &mut self,
        alloc: Global,
        reader: &P,
        threads: u32,
        bytes: &[u8],
    ) -> Result<(), NoMemory>
        requires { (fed : List ℕ) × WasFed self.old fed }
        ensures fed { OnOk result ((fed : List ℕ) → WasFed self.old fed → WasFed self.new (fed ++ bytes.now)) }
        ensures limits { OnOk result (self.new.limits ≡ self.old.limits) }
    {
        let mut rest = bytes;
        while !rest.is_empty() {
            let (piece, more) = rest.split_at(rest.len().min(PIECE_BYTES));
            self.feed_by(alloc, reader, threads, piece)?;
            rest = more;
        }
        Ok(())
    }

    /// What the bytes that were fed tell, with the first line that is refused.
    fn reading(self, alloc: Global) -> Result<Reading, NoMemory>
        requires { (fed : List ℕ) × WasFed self fed }
        ensures { IfOk result (λ found. (fed : List ℕ) → WasFed self fed
            → (told : Told) × IsReading told found × (meaning self.limits fed ≡ outcome told found.refusal)) }
    {
        let Some(_left) = self.left else {
            return Ok(too_long(alloc));
        };
        let TextReader {
            limits,
            mut lines,
            carry,
            left: _,
        } = self;
        lines.read(alloc, &limits, &carry)?;
        lines.finish(alloc, &limits)
    }

    /// The input that the text means which was fed.
    ///
    /// `Refused` comes exactly where the text is too long, or else where a line is refused, with the first such line and the first
    /// check that it fails; `NoMemory` where there is no memory to read the text. No two updates of a batch are of one edge, so it
    /// doesn't matter in which order they are applied.
    pub fn finish(self, alloc: Global) -> Result<Input, ParseFault>
        requires { (fed : List ℕ) × WasFed self fed }
        ensures input { IfOk result (λ input. (fed : List ℕ) → WasFed self fed
            → (told : Told) × (meaning self.limits fed ≡ Means told) × IsInput told input) }
        ensures few { IfOk result (λ input. length input.ids.items ≤ self.limits.ids) }
        ensures few_batches { IfOk result (λ input. length input.batches.items ≤ self.limits.batches) }
        ensures short { IfOk result (λ input. All (λ batch. length batch.updates.items ≤ self.limits.updates) input.batches.items) }
        ensures counts { IfOk result (λ input. All (λ batch. batch.overruled ≤ self.limits.updates) input.batches.items) }
        ensures batches { IfOk result (λ input. All (λ batch. IsBatch (length input.ids.items) batch.updates.items) input.batches.items) }
        ensures refused { (r : Refusal) (fed : List ℕ) → IsErrOf result (ParseFault.Refused r) → WasFed self fed
            → meaning self.limits fed ≡ Refuses r.line r.kind }
    {
        let reading = self.reading(alloc)?;
        if let Some(refusal) = reading.refusal {
            return Err(ParseFault::Refused(refusal));
        }
        Ok(input_of(alloc, reading.ids, &reading.edges, &reading.batches)?)
    }

    /// The ids of the text that was fed, and the edges of its edge lines. They are not sorted, and of a batch nothing is told but its ids,
    /// so this takes less time than `finish` where the batches are of no concern. `Refused` and `NoMemory` come as they do there.
    pub fn finish_edges(self, alloc: Global) -> Result<NamedEdges, ParseFault>
        requires { (fed : List ℕ) × WasFed self fed }
        ensures named { IfOk result (λ named. (fed : List ℕ) → WasFed self fed
            → (told : Told) × (meaning self.limits fed ≡ Means told) × IsNamedEdges told named) }
        ensures few { IfOk result (λ named. length named.ids.items ≤ self.limits.ids) }
        ensures within { IfOk result (λ named. All (λ p. (p.0 < p.1) × (p.1 < length named.ids.items)) named.edges.items) }
        ensures refused { (r : Refusal) (fed : List ℕ) → IsErrOf result (ParseFault.Refused r) → WasFed self fed
            → meaning self.limits fed ≡ Refuses r.line r.kind }
    {
        let reading = self.reading(alloc)?;
        if let Some(refusal) = reading.refusal {
            return Err(ParseFault::Refused(refusal));
        }
        Ok(edges_of(alloc, reading.ids, &reading.edges)?)
    }
}
