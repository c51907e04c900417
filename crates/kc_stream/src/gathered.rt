//! What is kept of the lines of a stream: the edges of the start until a batch begins, and then the updates of one batch at a time.
ghost use Rattle.std.specs.Prelude.{◌≡◌, ◌≢◌, ◌<◌, ◌++◌, ℕ, [], true, All, None, Some, IfOk, OnOk, is_some, max, min, not};
ghost use Rattle.std.specs.List.{cons_option};
ghost use Rattle.kc_io.specs.Causes.{one_more};
ghost use Rattle.kc_text.specs.Inputs.{between};
ghost use Rattle.kc_text.specs.Meaning.{Told, with_line};
ghost use Rattle.kc_text.specs.declared.line.TextLine.TheVariants as said;
ghost use Rattle.kc_stream.specs.Gathering.{Gathers, Holds, IsPairBelow, IsSpoilt, RefusesNext};
ghost use Rattle.kc_stream.specs.Hearing.{Heard, emptied, ends_reading, hear, nothing_heard, passed, refuse, refused, told_by};

use crate::NoMemory;
use crate::bad_lines::BadLines;
use crate::ids::Ids;
use crate::stream_line::StreamLine;
use kc_graph::Update;
use kc_text::{ChangeLine, Kind, Refusal, TextLine};
use std::alloc::Global;

/// What the lines of a stream have told that is still of use: the ids, the edges of the start until a batch begins, and then the updates
/// of the batch that is open. Edges and updates are between the numbers that stand for the ids.
#[derive(Drop)]
pub struct Gathered {
    ids: Ids,
    edges: Vec<(u32, u32)>,
    updates: Vec<Update>,
    in_batch: bool,
    /// How many ids were named before the batch that is open.
    known: u32,
    /// How many lines were read, up to the greatest number.
    lines: u64,
    /// The refused line that ends the reading, if one does.
    refusal: Option<Refusal>,
    /// The first refused line of the batch that is open, where that is dropped.
    dropped: Option<Refusal>,
    /// How many batches were dropped, up to the greatest number.
    refused_batches: u64,
}

impl Gathered {
    /// Nothing was read. It takes no memory.
    pub fn new(alloc: Global) -> Gathered
        ensures { Gathers result nothing_heard }
    {
        Gathered {
            ids: Ids::new(alloc),
            edges: Vec::new(alloc),
            updates: Vec::new(alloc),
            in_batch: false,
            known: 0,
            lines: 0,
            refusal: None,
            dropped: None,
            refused_batches: 0,
        }
    }

    /// The ids that were named, in the order of their first coming.
    pub fn ids(&self) -> &Ids
        ensures { result.now ≡ self.now.ids }
    {
        &self.ids
    }

    /// The edges that were told before any batch line, as pairs of numbers with the lesser one first, without loops.
    pub fn edges(&self) -> &[(u32, u32)]
        ensures { result.now ≡ self.now.edges.items }
    {
        &self.edges
    }

    /// The updates of the batch that is open, one for each of its changes.
    pub fn updates(&self) -> &[Update]
        ensures { result.now ≡ self.now.updates.items }
    {
        &self.updates
    }

    /// How many lines were read, up to the greatest number.
    pub fn lines(&self) -> u64
        ensures { result ≡ self.now.lines }
    {
        self.lines
    }

    /// Whether there was a batch line.
    pub fn in_batch(&self) -> bool
        ensures { result ≡ self.now.in_batch }
    {
        self.in_batch
    }

    /// The refused line that ends the reading, with the first check that it fails.
    pub fn refusal(&self) -> Option<Refusal>
        ensures { result ≡ self.now.refusal }
    {
        self.refusal
    }

    /// The first refused line of the batch that is open, with the first check that it fails, where that batch is dropped.
    pub fn dropped(&self) -> Option<Refusal>
        ensures { result ≡ self.now.dropped }
    {
        self.dropped
    }

    /// How many batches were dropped.
    pub fn refused_batches(&self) -> u64
        ensures { result ≡ self.now.refused_batches }
    {
        self.refused_batches
    }

    /// Reads one line more. Behind one that ends the reading none is read, and in a batch that is dropped a line is passed over up to the next
    /// batch line. A question is counted, and changes nothing else; before any batch line it is refused. After `NoMemory` what is gathered is
    /// of no more use.
    pub fn take(
        &mut self,
        alloc: Global,
        bad_lines: BadLines,
        line: StreamLine,
    ) -> Result<(), NoMemory>
        ensures { OnOk result ((heard : Heard) → Gathers self.old heard → Gathers self.new (hear bad_lines heard line)) }
    {
        if self.refusal.is_some() {
            return Ok(());
        }
        let told = self.told_by(line);
        if self.dropped.is_some() {
            self.pass(alloc, told);
            return Ok(());
        }
        let cause = self.take_line(alloc, told)?;
        self.lines = self.lines.saturating_add(1);
        if let Some(kind) = cause {
            self.refuse(bad_lines, kind);
        }
        Ok(())
    }

    /// Passes over a line of a batch that is dropped, unless it begins the next batch.
    fn pass(&mut self, alloc: Global, line: TextLine)
        ensures { (heard : Heard) → heard.refusal ≡ None → is_some heard.dropped ≡ true → Gathers self.old heard → Gathers self.new (passed heard line) }
    {
        self.lines = self.lines.saturating_add(1);
        if let TextLine::Batch = line {
            self.begin_batch(alloc);
            self.dropped = None;
        }
    }

    /// Refuses the line that was read last, which ends the reading or drops the batch that is open.
    fn refuse(&mut self, bad_lines: BadLines, kind: Kind)
        ensures { (heard : Heard) → RefusesNext self.old heard
            → Gathers self.new (refuse bad_lines heard (record { line = one_more heard.lines; kind = kind })) }
    {
        let refusal = Refusal {
            line: self.lines,
            kind,
        };
        if self.drops(bad_lines) {
            self.drop_batch(refusal);
        } else {
            self.refusal = Some(refusal);
        }
    }

    /// Whether a refused line drops the batch that is open.
    fn drops(&self, bad_lines: BadLines) -> bool
        ensures { (told : Told) → self.now.in_batch ≡ is_some told.last → result ≡ not (ends_reading bad_lines told) }
    {
        match bad_lines {
            BadLines::Stop => false,
            BadLines::Batch => self.in_batch,
        }
    }

    /// Drops the batch that is open: its changes are forgotten, and the ids that came in it.
    fn drop_batch(&mut self, refusal: Refusal)
        ensures holds { (told : Told) → is_some told.last ≡ true → IsSpoilt self.old told → Holds self.new (emptied told) }
        ensures dropped { self.new.dropped ≡ Some refusal }
        ensures refused_batches { self.new.refused_batches ≡ one_more self.old.refused_batches }
        ensures lines { self.new.lines ≡ self.old.lines }
        ensures refusal { self.new.refusal ≡ self.old.refusal }
    {
        self.ids.forget_behind(self.known);
        self.updates.truncate(0);
        self.dropped = Some(refusal);
        self.refused_batches = self.refused_batches.saturating_add(1);
    }

    /// What a line tells: a question tells nothing, or that it stands before any batch line.
    fn told_by(&self, line: StreamLine) -> TextLine
        ensures { (told : Told) → Holds self.now told → result ≡ told_by told line }
    {
        match line {
            StreamLine::Tells(told) => told,
            StreamLine::Asks(_) => {
                if self.in_batch {
                    TextLine::Nothing
                } else {
                    TextLine::Wrong(Kind::UpdateOutsideBatch)
                }
            }
        }
    }

    /// Takes what one line tells, or gives the cause if it is refused.
    fn take_line(&mut self, alloc: Global, line: TextLine) -> Result<Option<Kind>, NoMemory>
        ensures refused { IfOk result (λ cause. (told : Told) → Holds self.old told → cause ≡ refused told line) }
        ensures holds { IfOk result (λ cause. cause ≡ None → (told : Told) → Holds self.old told → Holds self.new (with_line told line)) }
        ensures spoilt { IfOk result (λ cause. is_some cause ≡ true → (told : Told) → Holds self.old told → IsSpoilt self.new told) }
        ensures lines { OnOk result (self.new.lines ≡ self.old.lines) }
        ensures refusal { OnOk result (self.new.refusal ≡ self.old.refusal) }
        ensures dropped { OnOk result (self.new.dropped ≡ self.old.dropped) }
        ensures refused_batches { OnOk result (self.new.refused_batches ≡ self.old.refused_batches) }
    {
        match line {
            TextLine::Nothing => Ok(None),
            TextLine::Edge(a, b) => self.take_edge(a, b),
            TextLine::Batch => {
                self.begin_batch(alloc);
                Ok(None)
            },
            TextLine::Change(change) => self.take_change(change),
            TextLine::Wrong(kind) => Ok(Some(kind)),
        }
    }

    /// Takes an edge of the start. A loop names its id, and is no edge.
    fn take_edge(&mut self, a: u32, b: u32) -> Result<Option<Kind>, NoMemory>
        ensures refused { IfOk result (λ cause. (told : Told) → Holds self.old told → cause ≡ refused told (said.Edge a b)) }
        ensures holds { IfOk result (λ cause. cause ≡ None → (told : Told) → Holds self.old told → Holds self.new (with_line told (said.Edge a b))) }
        ensures spoilt { IfOk result (λ cause. is_some cause ≡ true → (told : Told) → Holds self.old told → IsSpoilt self.new told) }
        ensures lines { OnOk result (self.new.lines ≡ self.old.lines) }
        ensures refusal { OnOk result (self.new.refusal ≡ self.old.refusal) }
        ensures dropped { OnOk result (self.new.dropped ≡ self.old.dropped) }
        ensures refused_batches { OnOk result (self.new.refused_batches ≡ self.old.refused_batches) }
    {
        if self.in_batch {
            return Ok(Some(Kind::EdgeLineInBatch));
        }
        let Some((u, v)) = self.ids.name_both(a, b)? else {
            return Ok(Some(Kind::TooManyVertices));
        };
        push_between(&mut self.edges, u, v)?;
        Ok(None)
    }

    /// Begins a batch. The edges of the start, or the updates of the batch before, are forgotten.
    fn begin_batch(&mut self, alloc: Global)
        ensures holds { (told : Told) → Holds self.old told → Holds self.new (with_line told said.Batch) }
        ensures lines { self.new.lines ≡ self.old.lines }
        ensures refusal { self.new.refusal ≡ self.old.refusal }
        ensures dropped { self.new.dropped ≡ self.old.dropped }
        ensures refused_batches { self.new.refused_batches ≡ self.old.refused_batches }
    {
        if !self.in_batch {
            self.in_batch = true;
            self.edges = Vec::new(alloc);
        }
        self.known = self.ids.count();
        self.updates.clear();
    }

    /// Takes a change into the batch that is open.
    fn take_change(&mut self, change: ChangeLine) -> Result<Option<Kind>, NoMemory>
        ensures refused { IfOk result (λ cause. (told : Told) → Holds self.old told → cause ≡ refused told (said.Change change)) }
        ensures holds { IfOk result (λ cause. cause ≡ None → (told : Told) → Holds self.old told
            → Holds self.new (with_line told (said.Change change))) }
        ensures spoilt { IfOk result (λ cause. is_some cause ≡ true → (told : Told) → Holds self.old told → IsSpoilt self.new told) }
        ensures lines { OnOk result (self.new.lines ≡ self.old.lines) }
        ensures refusal { OnOk result (self.new.refusal ≡ self.old.refusal) }
        ensures dropped { OnOk result (self.new.dropped ≡ self.old.dropped) }
        ensures refused_batches { OnOk result (self.new.refused_batches ≡ self.old.refused_batches) }
    {
        if !self.in_batch {
            return Ok(Some(Kind::UpdateOutsideBatch));
        }
        if change.a == change.b {
            return Ok(Some(Kind::LoopInBatch));
        }
        let Some((u, v)) = self.ids.name_both(change.a, change.b)? else {
            return Ok(Some(Kind::TooManyVertices));
        };
        self.updates.push(update_between(change.add, u, v))?;
        Ok(None)
    }
}

/// Puts the pair of two numbers behind the others, with the lesser one first, and nothing where they are one number.
fn push_between(edges: &mut Vec<(u32, u32)>, u: u32, v: u32) -> Result<(), NoMemory>
    ensures pair { OnOk result (edges.new.items ≡ edges.old.items ++ cons_option (between u v) []) }
    ensures within { OnOk result ((bound : ℕ) → u < bound → v < bound → All (IsPairBelow bound) edges.old.items
        → All (IsPairBelow bound) edges.new.items) }
{
    if u < v {
        edges.push((u, v))?;
    } else if v < u {
        edges.push((v, u))?;
    }
    Ok(())
}

/// The update of the edge between two different numbers.
fn update_between(add: bool, u: u32, v: u32) -> Update
    requires { u ≢ v }
    ensures add { result.add ≡ add }
    ensures least { result.u ≡ min u v }
    ensures most { result.v ≡ max u v }
{
    Update {
        add,
        u: u.min(v),
        v: u.max(v),
    }
}
