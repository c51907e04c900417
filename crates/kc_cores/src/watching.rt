//! The answer to a stream: the dialogue on the wire, behind the text of a file where one is named, and how the run ends then.
ghost use Rattle.std.specs.Prelude.{◌≡◌, ◌++◌, [], ℕ, List, IfErr, IfOk, IfSome, None, OnOk, Option, Some, option_map, string_bytes};
ghost use Rattle.std.specs.Io.KnownBytes.{IsAtEnd};
ghost use Rattle.kc_io.specs.LineEnds.{with_end};
ghost use Rattle.kc_dialogue.specs.Openings.{HasOpened};
ghost use Rattle.kc_watch.specs.Text.{reply, reply_at_end};
ghost use Rattle.kc_watch.specs.Watching.{WasFed};
ghost use Rattle.kc_wishes.specs.Requests.{start_of, stream_of_request};
ghost use Rattle.kc_wishes.specs.Wishes.{BegunFrom, Unbegun};
ghost use Rattle.kc_cores.specs.Endings.{HasNoFront, line_of};
ghost use Rattle.kc_cores.specs.Sentences.{at_line, refused_batches_line, refused_behind, stream_refused_line};
ghost use Rattle.kc_cores.specs.WatchEnded.{HasEndedBy, HasEndedSo, StandsInFront, StreamAnswered, WasReadInFront, WatchEnded};

use crate::CoresStatus;
use crate::ending::{Ending, in_file, unopened};
use crate::input::FileInput;
use crate::loading::open_state;
use crate::message::Message;
use crate::sentences::stream_sentence;
use kc_dialogue::answer::answer_opened;
use kc_dialogue::end::DialogueEnd;
use kc_dialogue::flow::Flow;
use kc_dialogue::open::open_with;
use kc_dialogue::opening::Opening;
use kc_dialogue::opening_fault::OpeningFault;
use kc_graph::NoMemory;
use kc_keeper::BatchMaker;
use kc_text::Refusal;
use kc_watch::{Watcher, WatcherWith};
use kc_wire::wire::Wire;
use kc_wishes::{StreamStart, WatchRequest};
use std::alloc::Global;

/// What stands in front of a stream: the file, if there is one, and how many of its lines were read.
#[derive(Clone, Copy)]
pub(crate) struct StreamFront<'a> {
    pub(crate) file: Option<&'a str>,
    pub(crate) lines: u64,
}

/// The line of this number, or the input as a whole where none is meant.
fn at_line(alloc: Global, line: u64) -> Result<String, NoMemory>
    ensures { IfOk result (λ text. string_bytes text ≡ at_line line) }
{
    if line == 0 {
        String::from_str(alloc, "input")
    } else {
        format!(in alloc; "line {line}")
    }
}

/// Which line of the stream, or of a file, is refused, and why.
fn stream_refused_line(
    alloc: Global,
    file: Option<&str>,
    refusal: Refusal,
) -> Result<String, NoMemory>
    ensures { IfOk result (λ line. string_bytes line ≡ stream_refused_line (option_map (λ t. t.now) file.entry) refusal) }
{
    let Refusal { line, kind } = refusal;
    let sentence = stream_sentence(kind);
    let front = in_file(alloc, file)?;
    let place = at_line(alloc, line)?;
    format!(in alloc; "cores: {front}{place}: {sentence}\n")
}

/// Which line is refused of a stream that stands behind this, and why.
fn refused_behind(
    alloc: Global,
    front: StreamFront<'_>,
    refusal: Refusal,
) -> Result<String, NoMemory>
    ensures { IfOk result (λ line. string_bytes line
        ≡ refused_behind (option_map (λ t. t.now) front.entry.file) front.entry.lines refusal) }
{
    let Refusal { line, kind } = refusal;
    if line <= front.lines {
        return stream_refused_line(alloc, front.file, refusal);
    }
    let line = line - front.lines;
    stream_refused_line(alloc, None, Refusal { line, kind })
}

/// How many batches were refused.
fn refused_batches_line(alloc: Global, count: u64) -> Result<String, NoMemory>
    ensures { IfOk result (λ line. string_bytes line ≡ refused_batches_line count) }
{
    if count == 1 {
        return String::from_str(alloc, "cores: 1 batch was refused\n");
    }
    format!(in alloc; "cores: {count} batches were refused\n")
}

/// The end of a run that has answered all and met no line that ends the reading, of whose batches so many were refused.
fn done_by(alloc: Global, refused_batches: u64) -> Ending
    ensures { (file : Option (List ℕ)) (lines : ℕ) → HasEndedBy file lines None refused_batches result.status (line_of result) }
{
    if refused_batches == 0 {
        return Ending {
            status: CoresStatus::Done,
            message: Message::Fixed(""),
        };
    }
    match refused_batches_line(alloc, refused_batches) {
        Ok(line) => Ending {
            status: CoresStatus::Done,
            message: Message::Made(line),
        },
        Err(_) => Ending::no_memory(),
    }
}

/// The end of a run whose reading this line has ended.
fn refused_by(alloc: Global, front: StreamFront<'_>, refusal: Refusal) -> Ending
    ensures { (count : ℕ)
        → HasEndedBy (option_map (λ t. t.now) front.entry.file) front.entry.lines (Some refusal) count result.status (line_of result) }
{
    match refused_behind(alloc, front, refusal) {
        Ok(line) => Ending {
            status: CoresStatus::Refused,
            message: Message::Made(line),
        },
        Err(_) => Ending::no_memory(),
    }
}

/// The end of a run that has answered all, of whose lines this one has ended the reading, if one has, and of whose batches so many were refused.
fn end_by(
    alloc: Global,
    front: StreamFront<'_>,
    refusal: Option<Refusal>,
    refused_batches: u64,
) -> Ending
    ensures { HasEndedBy (option_map (λ t. t.now) front.entry.file) front.entry.lines refusal refused_batches result.status (line_of result) }
{
    match refusal {
        None => done_by(alloc, refused_batches),
        Some(refusal) => refused_by(alloc, front, refusal),
    }
}

/// The end of a run whose dialogue has ended so, and which tells this of its stream.
pub(crate) fn end_so(
    alloc: Global,
    front: StreamFront<'_>,
    how: DialogueEnd,
    refusal: Option<Refusal>,
    refused_batches: u64,
) -> Ending
    ensures { HasEndedSo (option_map (λ t. t.now) front.entry.file) front.entry.lines how (refusal, refused_batches) (refusal, refused_batches)
        result.status (line_of result) }
{
    match how {
        DialogueEnd::Done | DialogueEnd::Ended => end_by(alloc, front, refusal, refused_batches),
        DialogueEnd::ReadFault | DialogueEnd::Exhausted => Ending::read_fault(),
        DialogueEnd::ReaderGone => Ending::reader_gone(),
        DialogueEnd::WriteFault => Ending::unwritten(),
        DialogueEnd::NoMemory => Ending::no_memory(),
    }
}

/// Feeds a watcher that was fed nothing with all that the input has left, which is the file of this name.
fn open_left<I: FileInput>(
    alloc: Global,
    name: &str,
    input: &mut I,
    watcher: &mut Watcher,
) -> Result<Opening, Ending>
    requires { WasFed watcher.old [] }
    ensures opened { IfOk result (λ opening. (bytes : List ℕ) × IfSome (I.left input.old) (λ all. bytes ≡ all)
        × HasOpened (reply watcher.new.options) (reply_at_end watcher.new.options) (WasFed watcher.new) (with_end bytes) opening.flow opening.text.items) }
    ensures read { OnOk result (IsAtEnd (I.left input.new)) }
    ensures options { watcher.new.options ≡ watcher.old.options }
    ensures faultless { OnOk result (I.faults input.new ≡ I.faults input.old) }
    ensures stopped { IfErr result (λ ending. HasNoFront ending (λ _. I.left input.old) (BegunFrom name.now) (I.faults input.old) (I.faults input.new)) }
{
    match open_with(alloc, input, watcher) {
        Ok(opening) => Ok(opening),
        Err(OpeningFault::ReadFault) => Err(Ending::read_fault()),
        Err(OpeningFault::Exhausted) => Err(Ending::read_fault()),
        Err(OpeningFault::NoMemory) => Err(Ending::no_memory()),
    }
}

/// Feeds a watcher that was fed nothing with the file of this name.
fn open_from<I: FileInput>(
    alloc: Global,
    name: &str,
    input: &mut I,
    watcher: &mut Watcher,
) -> Result<Opening, Ending>
    requires { WasFed watcher.old [] }
    ensures opened { IfOk result (λ opening. (bytes : List ℕ) × IfSome (I.behind input.old name.now) (λ all. bytes ≡ all)
        × HasOpened (reply watcher.new.options) (reply_at_end watcher.new.options) (WasFed watcher.new) (with_end bytes) opening.flow opening.text.items) }
    ensures read { OnOk result (IsAtEnd (I.left input.new)) }
    ensures options { watcher.new.options ≡ watcher.old.options }
    ensures faultless { OnOk result (I.faults input.new ≡ I.faults input.old) }
    ensures stopped { IfErr result (λ ending. HasNoFront ending (I.behind input.old) (BegunFrom name.now) (I.faults input.old) (I.faults input.new)) }
{
    match input.open(name) {
        Ok(()) => open_left(alloc, name, input, watcher),
        Err(fault) => Err(unopened(alloc, name, fault)),
    }
}

/// Feeds a watcher that was fed nothing with what stands in front of a stream.
pub(crate) fn open<I: FileInput>(
    alloc: Global,
    start: StreamStart<'_>,
    input: &mut I,
    watcher: &mut Watcher,
) -> Result<Opening, Ending>
    requires { WasFed watcher.old [] }
    ensures opened { IfOk result (λ opening. (front : List ℕ) × StandsInFront (I.behind input.old) (start_of start.entry) front
        × HasOpened (reply watcher.new.options) (reply_at_end watcher.new.options) (WasFed watcher.new) front opening.flow opening.text.items) }
    ensures read { OnOk result (WasReadInFront (start_of start.entry) (I.left input.new)) }
    ensures options { watcher.new.options ≡ watcher.old.options }
    ensures faultless { OnOk result (I.faults input.new ≡ I.faults input.old) }
    ensures stopped { IfErr result (λ ending. HasNoFront ending (I.behind input.old) (start_of start.entry) (I.faults input.old) (I.faults input.new)) }
    ensures untouched { start_of start.entry ≡ Unbegun → input.new ≡ input.old }
{
    match start {
        StreamStart::From(name) => open_from(alloc, name, input, watcher),
        StreamStart::Load(name) => open_state(alloc, name, input, watcher),
        StreamStart::Nothing => Ok(Opening {
            text: Vec::new(alloc),
            flow: Flow::Open,
        }),
    }
}

/// Answers the stream of a wire behind what a watcher was fed, each part as soon as it has ended, until it ends, a refused line ends the reading or
/// a call fails.
fn answer_behind<L: Wire, M: BatchMaker>(
    alloc: Global,
    file: Option<&str>,
    opening: &Opening,
    made: &mut WatcherWith<'_, M>,
    wire: &mut L,
) -> Ending
    requires { (start : List ℕ) × HasOpened (reply made.old.watcher.options) (reply_at_end made.old.watcher.options) (WasFed made.old.watcher) start
        opening.now.flow opening.now.text.items }
    ensures { (start : List ℕ) → HasOpened (reply made.old.watcher.options) (reply_at_end made.old.watcher.options) (WasFed made.old.watcher) start
        opening.now.flow opening.now.text.items → StreamAnswered L.Wire made.old.watcher.options (option_map (λ t. t.now) file.entry) start result.status
        (line_of result) wire.old wire.new }
{
    let front = StreamFront {
        file,
        lines: made.watcher.lines(),
    };
    let how = answer_opened(alloc, wire, made, opening);
    end_so(
        alloc,
        front,
        how,
        made.watcher.refusal(),
        made.watcher.refused_batches(),
    )
}

/// Answers the stream of a wire, behind the text of a file where one is named. Batches of the wire are made by `maker`, and those of the file by
/// the keeper alone.
pub(crate) fn watch<I: FileInput, L: Wire, M: BatchMaker>(
    alloc: Global,
    maker: &M,
    request: WatchRequest<'_>,
    input: &mut I,
    wire: &mut L,
) -> Ending
    ensures { WatchEnded I.Source I.behind L.Wire (stream_of_request request.entry) result.status (line_of result) input.old input.new
        wire.old wire.new }
{
    let mut watcher = Watcher::new(alloc, request.options);
    match open(alloc, request.start, input, &mut watcher) {
        Ok(opening) => {
            let mut made = WatcherWith { watcher, maker };
            answer_behind(alloc, request.start.file(), &opening, &mut made, wire)
        }
        Err(ending) => ending,
    }
}
