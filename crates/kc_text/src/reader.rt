//! Takes one line after another and keeps what they tell, or gives the first check that a line fails.
ghost use Rattle.std.specs.Prelude.{◌≡◌, ◌≤◌, ◌<◌, ◌+◌, ◌^◌, ◌++◌, [], None, Some, length, map, IfOk, OnOk, IfSome, IsSome, IsTrue, is_some, true, nat_eq};
ghost use Rattle.std.specs.Prelude.{unwrap_or, ◌∷◌};
ghost use Rattle.std.specs.HashSet.{IsUnique};
ghost use Rattle.std.specs.Option.{option_map, option_to_list};
ghost use Rattle.kc_text.specs.declared.line.TextLine.TheVariants as said;
ghost use Rattle.kc_text.specs.Looks.{is_exact};
ghost use Rattle.kc_text.specs.Meaning.{batches, first_limit, nothing_told, passed_limit, refusal, unfit, with_line};
ghost use Rattle.kc_text.specs.Readers.{told_by, Gains, HasIds, HasRoom, IsExact, IsTold, ReaderKeeps, is_over};

use crate::NoMemory;
use crate::change::ChangeLine;
use crate::kind::Kind;
use crate::limits::Limits;
use crate::line::TextLine;
use crate::look::Look;
use std::alloc::Global;
use std::collections::HashSet;

/// What the lines so far have told.
#[derive(Drop)]
pub(crate) struct Reader {
    edges: Vec<(u32, u32)>,
    /// The batches before the last.
    earlier: Vec<Vec<ChangeLine>>,
    last: Option<Vec<ChangeLine>>,
    /// How many changes there are in all batches.
    changes: usize,
    /// The different ids, where they are counted line by line.
    ids: Option<HashSet<u32>>,
}

/// The set of no ids, where they are counted line by line.
fn no_ids(alloc: Global, look: Look) -> Option<HashSet<u32>>
    ensures looks { is_some result ≡ is_exact look }
    ensures ids { HasIds result [] }
{
    match look {
        Look::Quick => None,
        Look::Exact => Some(HashSet::new(alloc)),
    }
}

/// Counts two ids, where they are counted line by line.
fn count_ids(ids: &mut Option<HashSet<u32>>, a: u32, b: u32) -> Result<(), NoMemory>
    ensures looks { OnOk result (is_some ids.new ≡ is_some ids.old) }
    ensures gains { OnOk result (Gains ids.old ids.new a b) }
{
    if let Some(ids) = ids {
        ids.insert(a)?;
        ids.insert(b)?;
    }
    Ok(())
}

/// Whether ids are counted line by line and there are more than the limit.
fn are_over(limit: u32, ids: &Option<HashSet<u32>>) -> bool
    ensures over { result ≡ is_over limit ids.now }
    ensures unique { IfSome ids.now (IsUnique nat_eq) }
{
    match ids {
        None => false,
        Some(ids) => ids.len() > limit as usize,
    }
}

/// The first of the limits that is passed.
fn first_limit(ids: bool, edge_lines: bool, updates: bool, batches: bool) -> Option<Kind>
    ensures { result ≡ first_limit ids edge_lines updates batches }
{
    if ids {
        Some(Kind::TooManyVertices)
    } else if edge_lines {
        Some(Kind::TooManyEdgeLines)
    } else if updates {
        Some(Kind::TooManyUpdates)
    } else if batches {
        Some(Kind::TooManyBatches)
    } else {
        None
    }
}

/// Takes a change into the last batch, or gives the cause if it doesn't fit.
fn take_into(
    last: &mut Option<Vec<ChangeLine>>,
    change: ChangeLine,
) -> Result<Option<Kind>, NoMemory>
    ensures refused { IfOk result (λ cause. cause ≡ unfit (option_map (λ batch. batch.items) last.old) change) }
    ensures changes { IfOk result (λ cause. cause ≡ None → option_map (λ batch. batch.items) last.new
        ≡ Some (unwrap_or (option_map (λ batch. batch.items) last.old) [] ++ change ∷ [])) }
    ensures same { IfOk result (λ cause. IsSome cause → last.new ≡ last.old) }
{
    let Some(batch) = last else {
        return Ok(Some(Kind::UpdateOutsideBatch));
    };
    if change.a == change.b {
        return Ok(Some(Kind::LoopInBatch));
    }
    batch.push(change)?;
    Ok(None)
}

/// Puts a batch that is read behind the earlier ones.
fn close(earlier: &mut Vec<Vec<ChangeLine>>, last: Option<Vec<ChangeLine>>) -> Result<(), NoMemory>
    ensures { OnOk result (map (λ batch. batch.items) earlier.new.items ≡ map (λ batch. batch.items) earlier.old.items
        ++ option_to_list (option_map (λ batch. batch.items) last)) }
{
    if let Some(batch) = last {
        earlier.push(batch)?;
    }
    Ok(())
}

impl Reader {
    pub(crate) fn new(alloc: Global, look: Look) -> Reader
        ensures told { told_by result ≡ nothing_told }
        ensures kept { ReaderKeeps result }
        ensures looks { is_some result.ids ≡ is_exact look }
    {
        Reader {
            edges: Vec::new(alloc),
            earlier: Vec::new(alloc),
            last: None,
            changes: 0,
            ids: no_ids(alloc, look),
        }
    }

    /// Takes what one line says, or gives the cause if the line is refused.
    pub(crate) fn take(
        &mut self,
        alloc: Global,
        limits: &Limits,
        line: TextLine,
    ) -> Result<Option<Kind>, NoMemory>
        requires kept { ReaderKeeps self.old }
        requires few { self.old.changes + 1 < 2 ^ 64 }
        ensures kept { IfOk result (λ cause. cause ≡ None → ReaderKeeps self.new) }
        ensures told { IfOk result (λ cause. cause ≡ None → told_by self.new ≡ with_line (told_by self.old) line) }
        ensures refused { IfOk result (λ cause. IsExact limits.now self.new → cause ≡ refusal limits.now (told_by self.old) line) }
        ensures tells { IfOk result (λ cause. IsTold cause (told_by self.old) line (told_by self.new)) }
        ensures exact { OnOk result (IsExact limits.now self.new → IsExact limits.now self.old) }
        ensures looks { OnOk result (is_some self.new.ids ≡ is_some self.old.ids) }
        ensures grows { OnOk result (self.new.changes ≤ self.old.changes + 1) }
    {
        match line {
            TextLine::Nothing => Ok(None),
            TextLine::Edge(a, b) => self.take_edge(limits, a, b),
            TextLine::Batch => self.take_batch(alloc, limits),
            TextLine::Change(change) => self.take_change(limits, change),
            TextLine::Wrong(kind) => Ok(Some(kind)),
        }
    }

    fn take_edge(&mut self, limits: &Limits, a: u32, b: u32) -> Result<Option<Kind>, NoMemory>
        requires { ReaderKeeps self.old }
        ensures kept { IfOk result (λ cause. cause ≡ None → ReaderKeeps self.new) }
        ensures told { IfOk result (λ cause. cause ≡ None → told_by self.new ≡ with_line (told_by self.old) (said.Edge a b)) }
        ensures refused { IfOk result (λ cause. IsExact limits.now self.new → cause ≡ refusal limits.now (told_by self.old) (said.Edge a b)) }
        ensures tells { IfOk result (λ cause. IsTold cause (told_by self.old) (said.Edge a b) (told_by self.new)) }
        ensures exact { OnOk result (IsExact limits.now self.new → IsExact limits.now self.old) }
        ensures looks { OnOk result (is_some self.new.ids ≡ is_some self.old.ids) }
        ensures same { OnOk result (self.new.changes ≡ self.old.changes) }
    {
        if self.last.is_some() {
            return Ok(Some(Kind::EdgeLineInBatch));
        }
        self.edges.push((a, b))?;
        count_ids(&mut self.ids, a, b)?;
        Ok(self.passed_limit(limits))
    }

    /// Whether so many edge lines may come in one go: no batch line came, no ids are counted, and the lines are not too many.
    pub(crate) fn has_room(&self, limits: &Limits, edge_lines: usize) -> bool
        ensures { IsTrue result → HasRoom limits.now self.now edge_lines }
    {
        self.last.is_none()
            && self.ids.is_none()
            && edge_lines <= limits.edge_lines.saturating_sub(self.edges.len())
            && self.edges.len() <= limits.edge_lines
    }

    /// Takes edge lines in one go.
    pub(crate) fn take_edges(&mut self, edges: &[(u32, u32)]) -> Result<(), NoMemory>
        ensures edges { OnOk result (self.new.edges.items ≡ self.old.edges.items ++ edges.now) }
        ensures earlier { self.new.earlier ≡ self.old.earlier }
        ensures last { self.new.last ≡ self.old.last }
        ensures changes { self.new.changes ≡ self.old.changes }
        ensures ids { self.new.ids ≡ self.old.ids }
    {
        self.edges.extend_from_slice(edges)
    }

    fn take_batch(&mut self, alloc: Global, limits: &Limits) -> Result<Option<Kind>, NoMemory>
        requires { ReaderKeeps self.old }
        ensures kept { OnOk result (ReaderKeeps self.new) }
        ensures told { OnOk result (told_by self.new ≡ with_line (told_by self.old) said.Batch) }
        ensures refused { IfOk result (λ cause. IsExact limits.now self.new → cause ≡ refusal limits.now (told_by self.old) said.Batch) }
        ensures tells { IfOk result (λ cause. IsTold cause (told_by self.old) said.Batch (told_by self.new)) }
        ensures exact { OnOk result (IsExact limits.now self.new → IsExact limits.now self.old) }
        ensures looks { OnOk result (is_some self.new.ids ≡ is_some self.old.ids) }
        ensures same { OnOk result (self.new.changes ≡ self.old.changes) }
    {
        let before = self.last.replace(Vec::new(alloc));
        close(&mut self.earlier, before)?;
        Ok(self.passed_limit(limits))
    }

    fn take_change(&mut self, limits: &Limits, change: ChangeLine) -> Result<Option<Kind>, NoMemory>
        requires kept { ReaderKeeps self.old }
        requires few { self.old.changes + 1 < 2 ^ 64 }
        ensures kept { IfOk result (λ cause. cause ≡ None → ReaderKeeps self.new) }
        ensures told { IfOk result (λ cause. cause ≡ None → told_by self.new ≡ with_line (told_by self.old) (said.Change change)) }
        ensures refused { IfOk result (λ cause. IsExact limits.now self.new → cause ≡ refusal limits.now (told_by self.old) (said.Change change)) }
        ensures tells { IfOk result (λ cause. IsTold cause (told_by self.old) (said.Change change) (told_by self.new)) }
        ensures exact { OnOk result (IsExact limits.now self.new → IsExact limits.now self.old) }
        ensures looks { OnOk result (is_some self.new.ids ≡ is_some self.old.ids) }
        ensures grows { OnOk result (self.new.changes ≤ self.old.changes + 1) }
    {
        if let Some(kind) = take_into(&mut self.last, change)? {
            return Ok(Some(kind));
        }
        self.changes += 1;
        count_ids(&mut self.ids, change.a, change.b)?;
        Ok(self.passed_limit(limits))
    }

    /// The edges of the edge lines and the changes of the batches.
    pub(crate) fn into_lists(self) -> Result<(Vec<(u32, u32)>, Vec<Vec<ChangeLine>>), NoMemory>
        ensures edges { IfOk result (λ lists. lists.0.items ≡ (told_by self).edges) }
        ensures batches { IfOk result (λ lists. map (λ batch. batch.items) lists.1.items ≡ batches (told_by self)) }
    {
        let mut batches = self.earlier;
        close(&mut batches, self.last)?;
        Ok((self.edges, batches))
    }

    fn batches(&self) -> usize
        ensures { result ≡ length (batches (told_by self.now)) }
    {
        self.earlier.len() + usize::from(self.last.is_some())
    }

    /// The first limit that is passed.
    fn passed_limit(&self, limits: &Limits) -> Option<Kind>
        requires { ReaderKeeps self.now }
        ensures { IsExact limits.now self.now → result ≡ passed_limit limits.now (told_by self.now) }
    {
        first_limit(
            are_over(limits.ids, &self.ids),
            self.edges.len() > limits.edge_lines,
            self.changes > limits.updates as usize,
            self.batches() > limits.batches as usize,
        )
    }
}
