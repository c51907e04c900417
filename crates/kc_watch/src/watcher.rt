//! What is fed a stream, and answers it.
ghost use Rattle.std.specs.Prelude.{◌≡◌, ◌++◌, [], None, Some, true, IfOk, List, ℕ, is_some, OnErr, OnOk};
ghost use Rattle.kc_dialogue.specs.Replies.{IsPrefixOf, StaysFrom};
ghost use Rattle.kc_dialogue.specs.declared.flow.Flow.{Flow};
ghost use Rattle.kc_text.specs.Lines.{EndsLine};
ghost use Rattle.kc_stream.specs.Hearing.{heard_at_end, heard_so_far};
ghost use Rattle.kc_watch.specs.States.{IsStateFor, account_at_end, account_so_far, ended_in};
ghost use Rattle.kc_watch.specs.Text.{reply, reply_at_end};
ghost use Rattle.kc_watch.specs.Watching.{HasEnded, WasFed};

use crate::NoMemory;
use crate::course::Course;
use crate::options::WatchOptions;
use crate::state::WatchedState;
use kc_dialogue::flow::Flow;
use kc_dialogue::replier::Replier;
use kc_keeper::{BatchMaker, KeeperAlone};
use kc_stream::ended_len;
use kc_text::Refusal;
use std::alloc::Global;

/// What is fed a stream, and answers it with the lines of its graph and of its batches, each as soon as its part of the stream has ended. Its
/// batches are made by the keeper alone; those of a `WatcherWith` may be made by others.
#[derive(Drop)]
pub struct Watcher {
    options: WatchOptions,
    course: Course,
    /// The bytes of the line that has begun and not ended.
    begun: Vec<u8>,
}

impl Watcher {
    /// A watcher that was fed nothing, and answers what these options ask for. It takes no memory.
    ///
    /// # Example
    ///
    /// ```rust
    /// use kc_dialogue::replier::Replier;
    /// use kc_watch::{BadLines, ReplyFormat, Show, WatchOptions, Watcher};
    ///
    /// let format = ReplyFormat::Words;
    /// let options = WatchOptions { show: Show::Changes, enter: Some(2), bad_lines: BadLines::Stop, format, workers: 1 };
    /// let mut watcher = Watcher::new(alloc, options);
    /// let mut out = Vec::new(alloc);
    /// watcher.feed(alloc, b"1 2\n2 3\nbatch\n+ 1 3\n", &mut out)?; // "graph vertices 3 edges 2 top 1\n"
    /// watcher.end(alloc, &mut out)?; // and "batch 1 added 1 .. top 2\n1 1 2\n2 1 2\n3 1 2\nenter 1\nenter 2\nenter 3\n"
    /// ```
    pub fn new(alloc: Global, options: WatchOptions) -> Watcher
        ensures fed { WasFed result [] }
        ensures options { result.options ≡ options }
    {
        Watcher {
            options,
            course: Course::new(alloc),
            begun: Vec::new(alloc),
        }
    }

    /// How many lines that have ended were read, the refused one that ends the reading among them, up to the greatest number.
    pub fn lines(&self) -> u64
        ensures { (fed : List ℕ) → WasFed self.now fed → result ≡ (heard_so_far self.now.options.bad_lines fed).lines }
    {
        self.course.lines()
    }

    /// The refused line that ends the reading, with the first check that it fails. Nothing behind it is answered. Bytes behind the last
    /// newline are a line once the stream has ended.
    pub fn refusal(&self) -> Option<Refusal>
        ensures so_far { (fed : List ℕ) → WasFed self.now fed → result ≡ (heard_so_far self.now.options.bad_lines fed).refusal }
        ensures at_end { (fed : List ℕ) → HasEnded self.now fed → result ≡ (heard_at_end self.now.options.bad_lines fed).refusal }
    {
        self.course.refusal()
    }

    /// How many batches were dropped, as a line in them is refused.
    pub fn refused_batches(&self) -> u64
        ensures so_far { (fed : List ℕ) → WasFed self.now fed → result ≡ (heard_so_far self.now.options.bad_lines fed).refused_batches }
        ensures at_end { (fed : List ℕ) → HasEnded self.now fed → result ≡ (heard_at_end self.now.options.bad_lines fed).refused_batches }
    {
        self.course.refused_batches()
    }

    /// How many batches have ended, refused ones among them, up to the greatest number.
    pub fn ended_batches(&self) -> u32
        ensures { (fed : List ℕ) → WasFed self.now fed → (heard_so_far self.now.options.bad_lines fed).refusal ≡ None
            → result ≡ ended_in (account_so_far self.now.options.bad_lines fed) }
    {
        self.course.ended_batches()
    }

    /// What is kept behind the batches that have ended, copied: how many these are, the ids, and the graph with its core numbers and an order
    /// that certifies them. There is none before any batch line, unless the stream has ended. Where a line has ended the reading, nothing is
    /// promised of it.
    ///
    /// `NoMemory` comes where there is none for the copy.
    pub fn state(&self, alloc: Global) -> Result<Option<WatchedState>, NoMemory>
        ensures so_far { IfOk result (λ state. (fed : List ℕ) → WasFed self.now fed
            → (heard_so_far self.now.options.bad_lines fed).refusal ≡ None
            → IsStateFor (account_so_far self.now.options.bad_lines fed) state) }
        ensures at_end { IfOk result (λ state. (fed : List ℕ) → HasEnded self.now fed
            → (heard_at_end self.now.options.bad_lines fed).refusal ≡ None
            → IsStateFor (Some (account_at_end self.now.options.bad_lines fed)) state) }
    {
        self.course.state(alloc)
    }

    fn flow(&self) -> Flow
        ensures { result ≡ Flow.Ended → is_some self.now.course.gathered.refusal ≡ true }
    {
        if self.course.refusal().is_some() {
            Flow::Ended
        } else {
            Flow::Open
        }
    }

    /// Reads the lines that end in some bytes behind those that are kept. No line has ended the reading so far.
    fn read_ended<M: BatchMaker>(
        &mut self,
        alloc: Global,
        maker: &M,
        whole: &[u8],
        out: &mut Vec<u8>,
    ) -> Result<(), NoMemory>
        requires going { self.old.course.gathered.refusal ≡ None }
        requires ended { EndsLine whole.now }
        requires fed { (fed : List ℕ) × WasFed self.old fed }
        ensures fed { OnOk result ((fed : List ℕ) → WasFed self.old fed → WasFed self.new (fed ++ whole.now)) }
        ensures put { (put : List ℕ) × (out.new.items ≡ out.old.items ++ put) × ((fed : List ℕ) → WasFed self.old fed
            → OnOk result (reply self.old.options (fed ++ whole.now) ≡ reply self.old.options fed ++ put)
            × OnErr result (IsPrefixOf (reply self.old.options (fed ++ whole.now)) (reply self.old.options fed ++ put))) }
        ensures same { self.new.options ≡ self.old.options }
    {
        if whole.is_empty() {
            return Ok(());
        }
        if self.begun.is_empty() {
            return self.course.read(alloc, maker, self.options, whole, out);
        }
        self.begun.extend_from_slice(whole)?;
        self.course
            .read(alloc, maker, self.options, &self.begun, out)?;
        self.begun.clear();
        Ok(())
    }

    /// Takes the next bytes, as `feed` does, and has batches made by `maker`.
    pub(crate) fn feed_by<M: BatchMaker>(
        &mut self,
        alloc: Global,
        maker: &M,
        piece: &[u8],
        out: &mut Vec<u8>,
    ) -> Result<Flow, NoMemory>
        requires { (fed : List ℕ) × WasFed self.old fed }
        ensures fed { OnOk result ((fed : List ℕ) → WasFed self.old fed → WasFed self.new (fed ++ piece.now)) }
        ensures put { (put : List ℕ) × (out.new.items ≡ out.old.items ++ put) × ((fed : List ℕ) → WasFed self.old fed
            → OnOk result (reply self.old.options (fed ++ piece.now) ≡ reply self.old.options fed ++ put)
            × OnErr result (IsPrefixOf (reply self.old.options (fed ++ piece.now)) (reply self.old.options fed ++ put))) }
        ensures ended { IfOk result (λ flow. flow ≡ Flow.Ended → (fed : List ℕ) → WasFed self.old fed
            → StaysFrom (reply self.old.options) (reply_at_end self.old.options) (fed ++ piece.now)) }
        ensures settings { self.new.options ≡ self.old.options }
    {
        if self.course.refusal().is_some() {
            return Ok(Flow::Ended);
        }
        let (whole, rest) = piece.split_at(ended_len(piece));
        self.read_ended(alloc, maker, whole, out)?;
        self.begun.extend_from_slice(rest)?;
        Ok(self.flow())
    }

    /// The input has ended, as `end` says; a batch that is open is made by `maker`.
    pub(crate) fn end_by<M: BatchMaker>(
        &mut self,
        alloc: Global,
        maker: &M,
        out: &mut Vec<u8>,
    ) -> Result<(), NoMemory>
        requires { (fed : List ℕ) × WasFed self.old fed }
        ensures ended { OnOk result ((fed : List ℕ) → WasFed self.old fed → HasEnded self.new fed) }
        ensures put { (put : List ℕ) × (out.new.items ≡ out.old.items ++ put) × ((fed : List ℕ) → WasFed self.old fed
            → OnOk result (reply_at_end self.old.options fed ≡ reply self.old.options fed ++ put)
            × OnErr result (IsPrefixOf (reply_at_end self.old.options fed) (reply self.old.options fed ++ put))) }
        ensures settings { self.new.options ≡ self.old.options }
    {
        if self.course.refusal().is_some() {
            return Ok(());
        }
        self.course
            .read(alloc, maker, self.options, &self.begun, out)?;
        if self.course.refusal().is_some() {
            return Ok(());
        }
        self.course.end_open(alloc, maker, self.options, out)
    }
}

impl Replier for Watcher {
    type Settings = WatchOptions;

    ghost settings = { λ watcher. watcher.options };

    ghost reply = { λ watcher. reply watcher.options };

    ghost reply_at_end = { λ watcher. reply_at_end watcher.options };

    ghost was_fed = { WasFed };

    ghost has_ended = { HasEnded };

    fn feed(&mut self, alloc: Global, piece: &[u8], out: &mut Vec<u8>) -> Result<Flow, NoMemory> {
        self.feed_by(alloc, &KeeperAlone, piece, out)
    }

    fn end(&mut self, alloc: Global, out: &mut Vec<u8>) -> Result<(), NoMemory> {
        self.end_by(alloc, &KeeperAlone, out)
    }
}
