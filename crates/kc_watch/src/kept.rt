//! The graph behind the batches that have ended, and what ends one more.
ghost use Rattle.std.specs.Prelude.{◌≡◌, ◌≤◌, ◌++◌, ◌∷◌, true, Some, All, IfOk, OnErr, OnOk, length, take};
ghost use Rattle.std.specs.Io.{StartsWith};
ghost use Rattle.kc_graph.specs.SimpleGraph.{SimpleGraph};
ghost use Rattle.kc_text.specs.Deciding.{last_batch};
ghost use Rattle.kc_text.specs.Inputs.{EdgeBatch};
ghost use Rattle.kc_reply.specs.Facts as fact;
ghost use Rattle.kc_reply.specs.Texts.{fact_text, facts_text};
ghost use Rattle.kc_answers.specs.Answers.{answer_to, needs_layers};
ghost use Rattle.kc_changes.specs.Changed.{facts_behind};
ghost use Rattle.kc_stream.specs.Gathering.{IsUpdateBelow};
ghost use Rattle.kc_watch.specs.Accounts.{Account, core_number_in, core_numbers_of, entered, graph_with, layers_of};
ghost use Rattle.kc_watch.specs.Effects.{AreEffects};
ghost use Rattle.kc_watch.specs.Endings.{AreMoves, HasEndedBetween, IsAccountBefore};
ghost use Rattle.kc_watch.specs.Text.{batch_text, line_about};

use crate::NoMemory;
use crate::batch::Effects;
use crate::listing::changes_of;
use crate::options::WatchOptions;
use crate::roomy::RoomyKeeper;
use crate::state::WatchedState;
use kc_answers::{Numbers, needs_layers, put_answer};
use kc_changes::put_changes;
use kc_keeper::{BatchMaker, Changes};
use kc_reply::{ReplyFormat, ReplyLine, put_reply_line};
use kc_report::Line;
use kc_stream::{Gathered, Ids, Question};
use std::alloc::Global;

/// The graph behind the batches that have ended, and what the last one changed.
#[derive(Drop)]
pub(crate) struct Kept {
    keeper: RoomyKeeper,
    /// What the last batch changed, whose memory the next one takes.
    changes: Changes,
}

/// A batch that ends: its number, and what was gathered of it.
#[derive(Clone, Copy)]
pub(crate) struct BatchPart<'a> {
    pub(crate) number: u32,
    pub(crate) gathered: &'a Gathered,
}

/// The line of a batch that has ended, and how many ids were known before it.
#[derive(Clone, Copy)]
struct BatchEnd {
    line: Line,
    known: u32,
}

/// The first so many of some numbers, or all where there are no more.
fn front(numbers: &[u32], count: u32) -> &[u32]
    ensures { result.now ≡ take count numbers.now }
{
    let count = count as usize;
    if count < numbers.len() {
        &numbers[..count]
    } else {
        numbers
    }
}

impl Kept {
    /// Keeps the graph of the start.
    pub(crate) fn new(alloc: Global, keeper: RoomyKeeper) -> Kept
        ensures { result.keeper ≡ keeper }
    {
        Kept {
            keeper,
            changes: Changes::new(alloc),
        }
    }

    /// Has the updates of a batch made, with the ids that came in it, by so many workers or fewer, and tells what they did.
    fn enter<M: BatchMaker>(
        &mut self,
        alloc: Global,
        maker: &M,
        workers: u32,
        gathered: &Gathered,
    ) -> Result<Effects, NoMemory>
        requires more { self.old.keeper.graph.size ≤ length gathered.now.ids }
        requires within { All (IsUpdateBelow (length gathered.now.ids)) gathered.now.updates.items }
        ensures graph { OnOk result
            (self.new.keeper.graph ≡ graph_with self.old.keeper.graph gathered.now.ids (last_batch gathered.now.updates.items)) }
        ensures effects { IfOk result (λ effects. AreEffects self.old.keeper.graph (last_batch gathered.now.updates.items) effects) }
        ensures moves { OnOk result (AreMoves self.old.keeper.graph.size (core_numbers_of self.old.keeper.graph)
            (core_numbers_of self.new.keeper.graph) self.new.changes.cores.items) }
    {
        self.keeper.grow_to(alloc, gathered.ids().count())?;
        self.keeper.make(alloc, maker, workers, gathered.updates(), &mut self.changes)
    }

    /// The line of a batch with this number, which did this.
    fn line(&self, number: u32, effects: Effects) -> Line
        ensures { (g : SimpleGraph) (batch : EdgeBatch) → AreEffects g batch effects
            → result ≡ line_about number g batch self.now.keeper.graph }
    {
        Line::Batch {
            number,
            added: effects.added,
            removed: effects.removed,
            kept: effects.kept,
            overruled: effects.overruled,
            edges: self.keeper.edges(),
            top: self.keeper.top(),
        }
    }

    /// Puts what is asked for of the ids whose core numbers the last batch changed, where so many were known before it.
    fn put_behind(
        &self,
        alloc: Global,
        options: WatchOptions,
        known: u32,
        ids: &[u32],
        out: &mut Vec<u8>,
    ) -> Result<(), NoMemory>
        requires known { known ≤ length ids.now }
        requires size { self.now.keeper.graph.size ≡ length ids.now }
        ensures ok { OnOk result ((before after : Account)
            → HasEndedBetween before after known ids.now (core_numbers_of self.now.keeper.graph) self.now.changes.cores.items
            → out.new.items ≡ out.old.items
            ++ facts_text options.format (facts_behind options.show options.enter (core_number_in before) (core_number_in after) after.ids)) }
        ensures kept { StartsWith out.new.items out.old.items }
    {
        if options.is_brief() {
            return Ok(());
        }
        let core = self.keeper.core_numbers();
        let mut listed = changes_of(alloc, ids, known, core, &self.changes.cores)?;
        put_changes(
            out,
            options.format,
            options.show,
            options.enter,
            &mut listed,
        )
    }

    /// Puts the line of the last batch, and what is asked for behind it.
    fn put_end(
        &self,
        alloc: Global,
        options: WatchOptions,
        end: &BatchEnd,
        ids: &[u32],
        out: &mut Vec<u8>,
    ) -> Result<(), NoMemory>
        requires known { end.now.known ≤ length ids.now }
        requires size { self.now.keeper.graph.size ≡ length ids.now }
        ensures ok { OnOk result ((before after : Account)
            → HasEndedBetween before after end.now.known ids.now (core_numbers_of self.now.keeper.graph) self.now.changes.cores.items
            → out.new.items ≡ out.old.items ++ facts_text options.format (fact.Summary end.now.line
            ∷ facts_behind options.show options.enter (core_number_in before) (core_number_in after) after.ids)) }
        ensures kept { StartsWith out.new.items out.old.items }
    {
        put_reply_line(out, options.format, ReplyLine::Summary(end.line))?;
        self.put_behind(alloc, options, end.known, ids, out)
    }

    /// Puts the same, or nothing where there is no memory.
    fn put_end_or_nothing(
        &self,
        alloc: Global,
        options: WatchOptions,
        end: &BatchEnd,
        ids: &[u32],
        out: &mut Vec<u8>,
    ) -> Result<(), NoMemory>
        requires known { end.now.known ≤ length ids.now }
        requires size { self.now.keeper.graph.size ≡ length ids.now }
        ensures ok { OnOk result ((before after : Account)
            → HasEndedBetween before after end.now.known ids.now (core_numbers_of self.now.keeper.graph) self.now.changes.cores.items
            → out.new.items ≡ out.old.items ++ facts_text options.format (fact.Summary end.now.line
            ∷ facts_behind options.show options.enter (core_number_in before) (core_number_in after) after.ids)) }
        ensures err { OnErr result (out.new.items ≡ out.old.items) }
    {
        let before = out.len();
        let put = self.put_end(alloc, options, end, ids, out);
        if put.is_err() {
            out.truncate(before);
        }
        put
    }

    /// Ends a batch: makes its updates, with the ids that came in it, and puts its text. Where there is no memory, nothing is put.
    pub(crate) fn end_batch<M: BatchMaker>(
        &mut self,
        alloc: Global,
        maker: &M,
        options: WatchOptions,
        part: BatchPart<'_>,
        out: &mut Vec<u8>,
    ) -> Result<(), NoMemory>
        requires more { self.old.keeper.graph.size ≤ length part.gathered.now.ids }
        requires within { All (IsUpdateBelow (length part.gathered.now.ids)) part.gathered.now.updates.items }
        ensures graph { OnOk result
            (self.new.keeper.graph ≡ graph_with self.old.keeper.graph part.entry.gathered.now.ids (last_batch part.entry.gathered.now.updates.items)) }
        ensures put { OnOk result ((before : Account) → IsAccountBefore before part.entry.number self.old.keeper.graph part.entry.gathered.now.ids
            → out.new.items ≡ out.old.items ++ batch_text options before (last_batch part.entry.gathered.now.updates.items)
            (entered before part.entry.gathered.now.ids (last_batch part.entry.gathered.now.updates.items))) }
        ensures err { OnErr result (out.new.items ≡ out.old.items) }
    {
        let BatchPart { number, gathered } = part;
        let known = self.keeper.vertices();
        let effects = self.enter(alloc, maker, options.workers, gathered)?;
        let line = self.line(number, effects);
        let end = BatchEnd { line, known };
        self.put_end_or_nothing(alloc, options, &end, gathered.ids().names(), out)
    }

    /// What is kept, where so many batches have ended and the vertices stand for the first of these ids.
    pub(crate) fn state(
        &self,
        alloc: Global,
        batches: u32,
        ids: &[u32],
    ) -> Result<WatchedState, NoMemory>
        ensures batches { IfOk result (λ state. state.batches ≡ batches) }
        ensures ids { IfOk result (λ state. state.ids.items ≡ take self.now.keeper.graph.size ids.now) }
        ensures graph { IfOk result (λ state. state.lawful.graph ≡ self.now.keeper.graph) }
    {
        let ids = Vec::from_slice(alloc, front(ids, self.keeper.vertices()))?;
        let lawful = self.keeper.to_lawful(alloc)?;
        Ok(WatchedState {
            batches,
            ids,
            lawful,
        })
    }

    /// Keeps the layers of the graph where the answer to a question needs them.
    fn keep_layers_for(&mut self, alloc: Global, question: Question) -> Result<(), NoMemory>
        ensures graph { self.new.keeper.graph ≡ self.old.keeper.graph }
        ensures layers { OnOk result (needs_layers question ≡ true → self.new.keeper.layers ≡ Some (layers_of self.new.keeper.graph)) }
    {
        if !needs_layers(question) {
            return Ok(());
        }
        self.keeper.keep_layers(alloc)
    }

    /// Puts the line that answers a question about the graph, whose vertices stand for the first of these ids. Where there is no memory,
    /// nothing is put.
    pub(crate) fn answer(
        &mut self,
        alloc: Global,
        ids: &Ids,
        question: Question,
        format: ReplyFormat,
        out: &mut Vec<u8>,
    ) -> Result<(), NoMemory>
        requires { self.old.keeper.graph.size ≤ length ids.now }
        ensures same { self.new.keeper.graph ≡ self.old.keeper.graph }
        ensures ok { OnOk result (out.new.items ≡ out.old.items ++ fact_text format
            (answer_to question (take self.old.keeper.graph.size ids.now) (core_numbers_of self.old.keeper.graph)
            (layers_of self.old.keeper.graph))) }
        ensures err { OnErr result (out.new.items ≡ out.old.items) }
    {
        self.keep_layers_for(alloc, question)?;
        let core = self.keeper.core_numbers();
        let numbers = Numbers {
            core,
            layer: self.keeper.layers(),
        };
        put_answer(alloc, ids, numbers, question, format, out)
    }
}
