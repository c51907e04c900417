//! What is kept of a stream from line to line: what was gathered, and the keeper of the graph behind the batches that have ended.
ghost use Rattle.std.specs.Prelude.{◌≡◌, ◌++◌, [], None, Some, IfOk, List, ℕ, OnErr, OnOk};
ghost use Rattle.kc_dialogue.specs.Replies.{IsPrefixOf};
ghost use Rattle.kc_text.specs.Meaning.{Told, with_line};
ghost use Rattle.kc_text.specs.declared.line.TextLine.TheVariants as said;
ghost use Rattle.kc_stream.specs.Asking.{stream_lines};
ghost use Rattle.kc_stream.specs.Gathering.{Holds};
ghost use Rattle.kc_stream.specs.Hearing.{Heard, hear, hear_all, nothing_heard};
ghost use Rattle.kc_stream.specs.declared.stream_line.StreamLine.TheVariants as says;
ghost use Rattle.kc_reply.specs.Texts.{fact_text};
ghost use Rattle.kc_stream.specs.Ids.{ids_of};
ghost use Rattle.kc_watch.specs.States.{IsStateFor, account_told};
ghost use Rattle.kc_watch.specs.Text.{answer_behind, answers_behind, ending_text, open_text, question_answer, refused_fact};
ghost use Rattle.kc_watch.specs.Accounts.{account_of, one_ended};
ghost use Rattle.kc_watch.specs.Watching.{KeepsAccount, StandsAt};
ghost use Rattle.kc_watch.specs.declared.options.WatchOptions.{WatchOptions};

use crate::NoMemory;
use crate::kept::{BatchPart, Kept};
use crate::options::WatchOptions;
use crate::start::end_start;
use crate::state::WatchedState;
use kc_keeper::BatchMaker;
use kc_reply::{ReplyFormat, ReplyLine, put_reply_line};
use kc_stream::{Gathered, Question, StreamLine, read_stream_line};
use kc_text::{Refusal, TextLine, cut_line};
use std::alloc::Global;

/// What is kept of a stream from line to line.
#[derive(Drop)]
pub(crate) struct Course {
    gathered: Gathered,
    /// The graph behind the batches that have ended, once there was a batch line.
    kept: Option<Kept>,
    /// How many batches have ended, refused ones among them, up to the greatest number.
    ended: u32,
}

impl Course {
    pub(crate) fn new(alloc: Global) -> Course
        ensures { StandsAt result nothing_heard }
    {
        Course {
            gathered: Gathered::new(alloc),
            kept: None,
            ended: 0,
        }
    }

    /// How many lines were read.
    pub(crate) fn lines(&self) -> u64
        ensures { result ≡ self.now.gathered.lines }
    {
        self.gathered.lines()
    }

    /// The refused line that ends the reading.
    pub(crate) fn refusal(&self) -> Option<Refusal>
        ensures { result ≡ self.now.gathered.refusal }
    {
        self.gathered.refusal()
    }

    /// How many batches were dropped.
    pub(crate) fn refused_batches(&self) -> u64
        ensures { result ≡ self.now.gathered.refused_batches }
    {
        self.gathered.refused_batches()
    }

    /// How many batches have ended.
    pub(crate) fn ended_batches(&self) -> u32
        ensures { result ≡ self.now.ended }
    {
        self.ended
    }

    /// What is kept behind the batches that have ended; none before any batch line.
    pub(crate) fn state(&self, alloc: Global) -> Result<Option<WatchedState>, NoMemory>
        ensures { IfOk result (λ state. (told : Told) → self.now.gathered.ids ≡ ids_of told
            → KeepsAccount self.now.kept self.now.ended told → IsStateFor (account_told told) state) }
    {
        let Some(kept) = &self.kept else {
            return Ok(None);
        };
        let state = kept.state(alloc, self.ended, self.gathered.ids().names())?;
        Ok(Some(state))
    }

    /// Ends what is open, the start or a batch, and puts its text. Where there is no memory, nothing is put.
    fn end_part<M: BatchMaker>(
        &mut self,
        alloc: Global,
        maker: &M,
        options: WatchOptions,
        out: &mut Vec<u8>,
    ) -> Result<(), NoMemory>
        requires { (told : Told) × Holds self.old.gathered told × KeepsAccount self.old.kept self.old.ended told }
        ensures gathered { self.new.gathered ≡ self.old.gathered }
        ensures keeps { OnOk result ((told : Told) → Holds self.old.gathered told → KeepsAccount self.old.kept self.old.ended told
            → KeepsAccount self.new.kept self.new.ended (with_line told said.Batch)) }
        ensures put { (put : List ℕ) × (out.new.items ≡ out.old.items ++ put)
            × ((told : Told) → Holds self.old.gathered told → KeepsAccount self.old.kept self.old.ended told
            → OnOk result (put ≡ open_text options told) × OnErr result (IsPrefixOf (open_text options told) put)) }
    {
        let Some(kept) = &mut self.kept else {
            let keeper = end_start(alloc, &self.gathered, options.format, out)?;
            self.kept = Some(Kept::new(alloc, keeper));
            return Ok(());
        };
        let number = self.ended.saturating_add(1);
        let part = BatchPart {
            number,
            gathered: &self.gathered,
        };
        kept.end_batch(alloc, maker, options, part, out)?;
        self.ended = number;
        Ok(())
    }

    /// Ends a batch that is dropped, and puts the line about it. Where there is no memory, nothing is put.
    fn end_dropped(
        &mut self,
        format: ReplyFormat,
        refusal: Refusal,
        out: &mut Vec<u8>,
    ) -> Result<(), NoMemory>
        ensures gathered { self.new.gathered ≡ self.old.gathered }
        ensures keeps { OnOk result ((told : Told) → told.last ≡ Some [] → KeepsAccount self.old.kept self.old.ended told
            → KeepsAccount self.new.kept self.new.ended (with_line told said.Batch)) }
        ensures put { (put : List ℕ) × (out.new.items ≡ out.old.items ++ put)
            × ((told : Told) → told.last ≡ Some [] → KeepsAccount self.old.kept self.old.ended told
            → OnOk result (put ≡ fact_text format (refused_fact told refusal)) × OnErr result (put ≡ [])) }
    {
        let batch = self.ended.saturating_add(1);
        put_reply_line(out, format, ReplyLine::Refused { batch, refusal })?;
        self.ended = batch;
        Ok(())
    }

    /// Ends what is open, and puts its text, or the line about a batch that is dropped. Where there is no memory, nothing is put.
    pub(crate) fn end_open<M: BatchMaker>(
        &mut self,
        alloc: Global,
        maker: &M,
        options: WatchOptions,
        out: &mut Vec<u8>,
    ) -> Result<(), NoMemory>
        requires going { self.old.gathered.refusal ≡ None }
        requires stands { (heard : Heard) × StandsAt self.old heard }
        ensures gathered { self.new.gathered ≡ self.old.gathered }
        ensures keeps { OnOk result ((heard : Heard) → StandsAt self.old heard
            → KeepsAccount self.new.kept self.new.ended (with_line heard.told said.Batch)) }
        ensures put { (put : List ℕ) × (out.new.items ≡ out.old.items ++ put) × ((heard : Heard) → StandsAt self.old heard
            → OnOk result (put ≡ ending_text options heard.dropped heard.told)
            × OnErr result (IsPrefixOf (ending_text options heard.dropped heard.told) put)) }
    {
        match self.gathered.dropped() {
            None => self.end_part(alloc, maker, options, out),
            Some(refusal) => self.end_dropped(options.format, refusal, out),
        }
    }

    /// Reads a batch line, which ends what stands before it.
    fn take_batch<M: BatchMaker>(
        &mut self,
        alloc: Global,
        maker: &M,
        options: WatchOptions,
        out: &mut Vec<u8>,
    ) -> Result<(), NoMemory>
        requires going { self.old.gathered.refusal ≡ None }
        requires stands { (heard : Heard) × StandsAt self.old heard }
        ensures stands { OnOk result ((heard : Heard) → StandsAt self.old heard → StandsAt self.new (hear options.bad_lines heard (says.Tells said.Batch))) }
        ensures put { (put : List ℕ) × (out.new.items ≡ out.old.items ++ put) × ((heard : Heard) → StandsAt self.old heard
            → OnOk result (put ≡ answer_behind options heard (says.Tells said.Batch))
            × OnErr result (IsPrefixOf (answer_behind options heard (says.Tells said.Batch)) put)) }
    {
        self.end_open(alloc, maker, options, out)?;
        self.gathered.take(alloc, options.bad_lines, StreamLine::Tells(TextLine::Batch))
    }

    /// Reads a line that tells, and puts what it is answered.
    fn take_told<M: BatchMaker>(
        &mut self,
        alloc: Global,
        maker: &M,
        options: WatchOptions,
        told: TextLine,
        out: &mut Vec<u8>,
    ) -> Result<(), NoMemory>
        requires going { self.old.gathered.refusal ≡ None }
        requires stands { (heard : Heard) × StandsAt self.old heard }
        ensures stands { OnOk result ((heard : Heard) → StandsAt self.old heard → StandsAt self.new (hear options.bad_lines heard (says.Tells told))) }
        ensures put { (put : List ℕ) × (out.new.items ≡ out.old.items ++ put) × ((heard : Heard) → StandsAt self.old heard
            → OnOk result (put ≡ answer_behind options heard (says.Tells told))
            × OnErr result (IsPrefixOf (answer_behind options heard (says.Tells told)) put)) }
    {
        match told {
            TextLine::Batch => self.take_batch(alloc, maker, options, out),
            _ => self
                .gathered
                .take(alloc, options.bad_lines, StreamLine::Tells(told)),
        }
    }

    /// Puts the line that answers a question about what has ended, where there was a batch line, and else nothing. Where there is no memory,
    /// nothing is put.
    fn answer(
        &mut self,
        alloc: Global,
        options: WatchOptions,
        question: Question,
        out: &mut Vec<u8>,
    ) -> Result<(), NoMemory>
        requires { (told : Told) × Holds self.old.gathered told × KeepsAccount self.old.kept self.old.ended told }
        ensures gathered { self.new.gathered ≡ self.old.gathered }
        ensures keeps { (told : Told) → KeepsAccount self.old.kept self.old.ended told → KeepsAccount self.new.kept self.new.ended told }
        ensures put { (put : List ℕ) × (out.new.items ≡ out.old.items ++ put)
            × ((told : Told) → Holds self.old.gathered told → KeepsAccount self.old.kept self.old.ended told
            → OnOk result (put ≡ question_answer options told question) × OnErr result (put ≡ [])) }
    {
        if let Some(kept) = &mut self.kept {
            kept.answer(alloc, self.gathered.ids(), question, options.format, out)?;
        }
        Ok(())
    }

    /// Reads a question, and puts the line that answers it.
    fn take_question(
        &mut self,
        alloc: Global,
        options: WatchOptions,
        question: Question,
        out: &mut Vec<u8>,
    ) -> Result<(), NoMemory>
        requires going { self.old.gathered.refusal ≡ None }
        requires stands { (heard : Heard) × StandsAt self.old heard }
        ensures stands { OnOk result ((heard : Heard) → StandsAt self.old heard → StandsAt self.new (hear options.bad_lines heard (says.Asks question))) }
        ensures put { (put : List ℕ) × (out.new.items ≡ out.old.items ++ put) × ((heard : Heard) → StandsAt self.old heard
            → OnOk result (put ≡ answer_behind options heard (says.Asks question))
            × OnErr result (IsPrefixOf (answer_behind options heard (says.Asks question)) put)) }
    {
        self.answer(alloc, options, question, out)?;
        self.gathered
            .take(alloc, options.bad_lines, StreamLine::Asks(question))
    }

    /// Reads one line more, and puts what it is answered. Behind a line that ends the reading none is read.
    fn take<M: BatchMaker>(
        &mut self,
        alloc: Global,
        maker: &M,
        options: WatchOptions,
        line: StreamLine,
        out: &mut Vec<u8>,
    ) -> Result<(), NoMemory>
        requires stands { (heard : Heard) × StandsAt self.old heard }
        ensures stands { OnOk result ((heard : Heard) → StandsAt self.old heard → StandsAt self.new (hear options.bad_lines heard line)) }
        ensures put { (put : List ℕ) × (out.new.items ≡ out.old.items ++ put) × ((heard : Heard) → StandsAt self.old heard
            → OnOk result (put ≡ answer_behind options heard line) × OnErr result (IsPrefixOf (answer_behind options heard line) put)) }
    {
        if self.gathered.refusal().is_some() {
            return Ok(());
        }
        match line {
            StreamLine::Tells(told) => self.take_told(alloc, maker, options, told, out),
            StreamLine::Asks(question) => self.take_question(alloc, options, question, out),
        }
    }

    /// Reads all lines of some bytes, and puts what they are answered.
    pub(crate) fn read<M: BatchMaker>(
        &mut self,
        alloc: Global,
        maker: &M,
        options: WatchOptions,
        bytes: &[u8],
        out: &mut Vec<u8>,
    ) -> Result<(), NoMemory>
        requires stands { (heard : Heard) × StandsAt self.old heard }
        ensures stands { OnOk result ((heard : Heard) → StandsAt self.old heard
            → StandsAt self.new (hear_all options.bad_lines heard (stream_lines bytes.now))) }
        ensures put { (put : List ℕ) × (out.new.items ≡ out.old.items ++ put) × ((heard : Heard) → StandsAt self.old heard
            → OnOk result (put ≡ answers_behind options heard (stream_lines bytes.now))
            × OnErr result (IsPrefixOf (answers_behind options heard (stream_lines bytes.now)) put)) }
    {
        let mut rest = bytes;
        while let Some((line, more)) = cut_line(rest) {
            self.take(alloc, maker, options, read_stream_line(line), out)?;
            rest = more;
        }
        Ok(())
    }
}
