//! Reads lines up to the first that is refused, which is named by number and kind, and gives what they told.
//!
//! The different ids are counted when all is read. Only where there are too many, the lines that tell something are read again, and
//! then the ids are counted at each, to find the first line that is refused.
ghost use Rattle.std.specs.Prelude.{◌≡◌, ◌≤◌, ◌<◌, ◌+◌, ◌-◌, ◌++◌, ◌∷◌, ◌^◌, [], None, Some, List, IfOk, IfSome, IsTrue, OnOk, is_some, length, map, nat_eq};
ghost use Rattle.std.specs.List.{flat_map};
ghost use Rattle.kc_text.specs.declared.limits.Limits.{Limits};
ghost use Rattle.kc_text.specs.declared.line.TextLine.{TextLine};
ghost use Rattle.kc_text.specs.declared.line.TextLine.TheVariants.{Change};
ghost use Rattle.kc_text.specs.Forms.{all_said};
ghost use Rattle.kc_text.specs.Looks.{is_exact};
ghost use Rattle.kc_text.specs.Meaning.{Told, nothing_told, reading};
ghost use Rattle.kc_text.specs.Readers.{HasRoom, outcome};
ghost use Rattle.kc_text.specs.Readings.{CanRead, IsFound, IsReading, Reads, refusal_at};
ghost use Rattle.std.specs.Set.{distinct_count};
ghost use Rattle.kc_text.specs.TellingLines.{lines_of_batch, edge_lines, lines_of, named_by, skipped_at};

use crate::NoMemory;
use crate::change::ChangeLine;
use crate::ids::ids_of;
use crate::kind::Kind;
use crate::limits::Limits;
use crate::line::{TextLine, next_line};
use crate::line_numbers::LineNumbers;
use crate::look::Look;
use crate::reader::Reader;
use crate::refusal::Refusal;
use std::alloc::Global;

/// What a reading of a text has found, up to the line that is refused or to the end.
#[derive(Drop)]
pub(crate) struct Reading {
    /// The ends of the edge lines, in their order.
    pub(crate) edges: Vec<(u32, u32)>,
    /// The batches, with their changes, in their order.
    pub(crate) batches: Vec<Vec<ChangeLine>>,
    /// The different ids, ascending.
    pub(crate) ids: Vec<u32>,
    /// The first line that is refused, if one is.
    pub(crate) refusal: Option<Refusal>,
}

/// What reads lines, up to the first that is refused.
#[derive(Drop)]
pub(crate) struct LineReader {
    reader: Reader,
    pub(crate) numbers: LineNumbers,
    /// The first line that is refused, if one is. By a quick look it is not the first where there are too many ids.
    refusal: Option<Refusal>,
}

/// The refusal of a line, where there is a cause.
fn refusal_at(cause: Option<Kind>, line: u64) -> Option<Refusal>
    ensures { result ≡ refusal_at cause line }
{
    match cause {
        Some(kind) => Some(Refusal { line, kind }),
        None => None,
    }
}

/// The first line that is refused of those that tell edges and batches, by its number among these. The ids are counted at each line.
fn refused_again(
    alloc: Global,
    limits: &Limits,
    edges: &[(u32, u32)],
    batches: &[Vec<ChangeLine>],
) -> Result<Option<Refusal>, NoMemory>
    requires { length (lines_of edges.now (map (λ batch. batch.items) batches.now)) < 2 ^ 64 }
    ensures refused { IfOk result (λ refusal. (told : Told)
        × (reading limits.now 0 nothing_told (lines_of edges.now (map (λ batch. batch.items) batches.now)) ≡ outcome told refusal)) }
    ensures few { IfOk result (λ refusal. refusal ≡ None
        → distinct_count nat_eq (named_by (lines_of edges.now (map (λ batch. batch.items) batches.now))) ≤ limits.now.ids) }
{
    let mut again = LineReader::new(alloc, Look::Exact);
    again.take_edges(alloc, limits, edges)?;
    again.take_batches(alloc, limits, batches)?;
    Ok(again.refusal)
}

/// A refusal by the number of its line in the text, where its number among the lines that tell something is given.
fn renumbered(numbers: &LineNumbers, refusal: Refusal) -> Refusal
    requires some { 0 < refusal.line }
    requires few { refusal.line + skipped_at numbers.now.steps.items (refusal.line - 1) < 2 ^ 64 }
    ensures line { result.line ≡ refusal.line + skipped_at numbers.now.steps.items (refusal.line - 1) }
    ensures kind { result.kind ≡ refusal.kind }
{
    Refusal {
        line: numbers.number_at(refusal.line - 1),
        kind: refusal.kind,
    }
}

impl Reading {
    /// What was found, with the first line that is refused also where there are too many ids.
    fn settled(
        self,
        alloc: Global,
        limits: &Limits,
        numbers: &LineNumbers,
    ) -> Result<Reading, NoMemory>
        requires { (lines : List TextLine) × IsFound limits.now numbers.now self lines }
        ensures { IfOk result (λ found. (lines : List TextLine) → IsFound limits.now numbers.now self lines
            → (told : Told) × IsReading told found × (reading limits.now 0 nothing_told lines ≡ outcome told found.refusal)) }
    {
        if self.ids.len() <= limits.ids as usize {
            return Ok(self);
        }
        let (_lines, _telling) = (numbers.lines, numbers.telling);
        let Some(first) = refused_again(alloc, limits, &self.edges, &self.batches)? else {
            return Ok(self);
        };
        Ok(Reading {
            edges: self.edges,
            batches: self.batches,
            ids: self.ids,
            refusal: Some(renumbered(numbers, first)),
        })
    }
}

impl LineReader {
    pub(crate) fn new(alloc: Global, look: Look) -> LineReader
        ensures reads { (limits : Limits) → Reads limits result [] }
        ensures can { CanRead result }
        ensures looks { is_some result.reader.ids ≡ is_exact look }
        ensures lines { result.numbers.lines ≡ 0 }
    {
        LineReader {
            reader: Reader::new(alloc, look),
            numbers: LineNumbers::new(alloc),
            refusal: None,
        }
    }

    /// Takes one line more, where none is refused so far.
    fn take(&mut self, alloc: Global, limits: &Limits, line: TextLine) -> Result<(), NoMemory>
        requires going { self.old.refusal ≡ None }
        requires can { CanRead self.old }
        requires few { self.old.numbers.lines + 1 < 2 ^ 64 }
        ensures reads { OnOk result ((before : List TextLine) → Reads limits.now self.old before → Reads limits.now self.new (before ++ line ∷ [])) }
        ensures can { OnOk result (CanRead self.new) }
        ensures looks { OnOk result (is_some self.new.reader.ids ≡ is_some self.old.reader.ids) }
        ensures lines { OnOk result (self.new.numbers.lines ≡ self.old.numbers.lines + 1) }
    {
        let cause = self.reader.take(alloc, limits, line)?;
        self.numbers.count(line)?;
        self.refusal = refusal_at(cause, self.numbers.lines);
        Ok(())
    }

    /// Takes one line more. Behind a line that is refused it is passed over.
    fn take_next(&mut self, alloc: Global, limits: &Limits, line: TextLine) -> Result<(), NoMemory>
        requires can { CanRead self.old }
        requires few { self.old.numbers.lines + 1 < 2 ^ 64 }
        ensures reads { OnOk result ((before : List TextLine) → Reads limits.now self.old before → Reads limits.now self.new (before ++ line ∷ [])) }
        ensures can { OnOk result (CanRead self.new) }
        ensures looks { OnOk result (is_some self.new.reader.ids ≡ is_some self.old.reader.ids) }
        ensures lines { OnOk result (self.new.numbers.lines ≤ self.old.numbers.lines + 1) }
    {
        if self.refusal.is_some() {
            return Ok(());
        }
        self.take(alloc, limits, line)
    }

    /// Takes all lines of some bytes, up to the first that is refused.
    pub(crate) fn read(
        &mut self,
        alloc: Global,
        limits: &Limits,
        bytes: &[u8],
    ) -> Result<(), NoMemory>
        requires can { CanRead self.old }
        requires few { self.old.numbers.lines + length bytes.now < 2 ^ 64 }
        ensures reads { OnOk result ((before : List TextLine) → Reads limits.now self.old before
            → Reads limits.now self.new (before ++ all_said bytes.now)) }
        ensures can { OnOk result (CanRead self.new) }
        ensures lines { OnOk result (self.new.numbers.lines ≤ self.old.numbers.lines + length bytes.now) }
    {
        let mut rest = bytes;
        while self.refusal.is_none() {
            let Some((line, more)) = next_line(rest) else {
                return Ok(());
            };
            self.take(alloc, limits, line)?;
            rest = more;
        }
        Ok(())
    }

    /// Takes the lines that tell edges.
    fn take_edges(
        &mut self,
        alloc: Global,
        limits: &Limits,
        edges: &[(u32, u32)],
    ) -> Result<(), NoMemory>
        requires can { CanRead self.old }
        requires few { self.old.numbers.lines + length edges.now < 2 ^ 64 }
        ensures reads { OnOk result ((before : List TextLine) → Reads limits.now self.old before
            → Reads limits.now self.new (before ++ edge_lines edges.now)) }
        ensures can { OnOk result (CanRead self.new) }
        ensures looks { OnOk result (is_some self.new.reader.ids ≡ is_some self.old.reader.ids) }
        ensures lines { OnOk result (self.new.numbers.lines ≤ self.old.numbers.lines + length edges.now) }
    {
        for (a, b) in edges {
            self.take_next(alloc, limits, TextLine::Edge(*a, *b))?;
        }
        Ok(())
    }

    /// Whether no line is refused so far.
    pub(crate) fn goes_on(&self) -> bool
        ensures { IsTrue result → self.now.refusal ≡ None }
    {
        self.refusal.is_none()
    }

    /// Whether so many edge lines may come in one go, where none is refused.
    pub(crate) fn has_room(&self, limits: &Limits, edge_lines: usize) -> bool
        ensures { IsTrue result → (self.now.refusal ≡ None) × HasRoom limits.now self.now.reader edge_lines }
    {
        self.refusal.is_none() && self.reader.has_room(limits, edge_lines)
    }

    /// Takes the lines that tell edges in one go. None of them is refused.
    pub(crate) fn take_plain(
        &mut self,
        limits: &Limits,
        edges: &[(u32, u32)],
    ) -> Result<(), NoMemory>
        requires can { CanRead self.old }
        requires going { self.old.refusal ≡ None }
        requires room { HasRoom limits.now self.old.reader (length edges.now) }
        requires few { self.old.numbers.lines + length edges.now < 2 ^ 64 }
        ensures reads { OnOk result ((before : List TextLine) → Reads limits.now self.old before
            → Reads limits.now self.new (before ++ edge_lines edges.now)) }
        ensures can { OnOk result (CanRead self.new) }
        ensures lines { OnOk result (self.new.numbers.lines ≡ self.old.numbers.lines + length edges.now) }
    {
        self.reader.take_edges(edges)?;
        self.numbers.count_edges(edges.len() as u64)?;
        Ok(())
    }

    /// Takes the lines that tell the changes of a batch.
    fn take_changes(
        &mut self,
        alloc: Global,
        limits: &Limits,
        batch: &[ChangeLine],
    ) -> Result<(), NoMemory>
        requires can { CanRead self.old }
        requires few { self.old.numbers.lines + length batch.now < 2 ^ 64 }
        ensures reads { OnOk result ((before : List TextLine) → Reads limits.now self.old before
            → Reads limits.now self.new (before ++ map (λ c. Change c) batch.now)) }
        ensures can { OnOk result (CanRead self.new) }
        ensures looks { OnOk result (is_some self.new.reader.ids ≡ is_some self.old.reader.ids) }
        ensures lines { OnOk result (self.new.numbers.lines ≤ self.old.numbers.lines + length batch.now) }
    {
        for change in batch {
            self.take_next(alloc, limits, TextLine::Change(*change))?;
        }
        Ok(())
    }

    /// Takes the lines that tell batches.
    fn take_batches(
        &mut self,
        alloc: Global,
        limits: &Limits,
        batches: &[Vec<ChangeLine>],
    ) -> Result<(), NoMemory>
        requires can { CanRead self.old }
        requires few { self.old.numbers.lines + length (flat_map lines_of_batch (map (λ batch. batch.items) batches.now)) < 2 ^ 64 }
        ensures reads { OnOk result ((before : List TextLine) → Reads limits.now self.old before
            → Reads limits.now self.new (before ++ flat_map lines_of_batch (map (λ batch. batch.items) batches.now))) }
        ensures looks { OnOk result (is_some self.new.reader.ids ≡ is_some self.old.reader.ids) }
    {
        for batch in batches {
            self.take_next(alloc, limits, TextLine::Batch)?;
            self.take_changes(alloc, limits, batch)?;
        }
        Ok(())
    }

    /// What was read, with the first line that is refused.
    pub(crate) fn finish(self, alloc: Global, limits: &Limits) -> Result<Reading, NoMemory>
        requires { (lines : List TextLine) × Reads limits.now self lines }
        ensures { IfOk result (λ found. (lines : List TextLine) → Reads limits.now self lines
            → (told : Told) × IsReading told found × (reading limits.now 0 nothing_told lines ≡ outcome told found.refusal)) }
    {
        let LineReader {
            reader,
            numbers,
            refusal,
        } = self;
        let (edges, batches) = reader.into_lists()?;
        let ids = ids_of(alloc, &edges, &batches)?;
        let found = Reading {
            edges,
            batches,
            ids,
            refusal,
        };
        found.settled(alloc, limits, &numbers)
    }
}
