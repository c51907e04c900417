//! A stream that goes on from the graph of a state, which is read from its file.
ghost use Rattle.std.specs.Prelude.{◌≡◌, ◌++◌, [], ℕ, List, Option, IfErr, IfOk, IfSome, OnOk, string_bytes};
ghost use Rattle.std.specs.Io.KnownBytes.{IsAtEnd};
ghost use Rattle.kc_dialogue.specs.Openings.{HasOpened};
ghost use Rattle.kc_state.specs.Reading.{IsStateText};
ghost use Rattle.kc_state.specs.Starts.{start_text};
ghost use Rattle.kc_state.specs.Texts.{KeptParts};
ghost use Rattle.kc_watch.specs.Text.{reply, reply_at_end};
ghost use Rattle.kc_watch.specs.Watching.{WasFed};
ghost use Rattle.kc_wishes.specs.Wishes.{BegunFromState};
ghost use Rattle.kc_cores.specs.Endings.{HasNoFront};
ghost use Rattle.kc_cores.specs.Sentences.{state_refused_line};
ghost use Rattle.kc_cores.specs.WatchEnded.{StandsInFront};

use crate::CoresStatus;
use crate::ending::{Ending, unopened};
use crate::input::FileInput;
use crate::message::Message;
use kc_dialogue::opening::Opening;
use kc_graph::NoMemory;
use kc_io::source::{ReadAllFault, Source, read_all};
use kc_state::{ReadFault, StateFault};
use kc_watch::Watcher;
use std::alloc::Global;

/// Which line of the file of a state is wrong, and how, and what to do.
fn state_refused_line(alloc: Global, name: &str, fault: StateFault) -> Result<String, NoMemory>
    ensures { IfOk result (λ line. string_bytes line ≡ state_refused_line name.now fault) }
{
    let StateFault { line, kind } = fault;
    let sentence = kind.sentence();
    format!(in alloc;
        "cores: {name}: line {line}: {sentence}; load a state as --save wrote it, or begin with edges by --from\n"
    )
}

/// The text in the file of this name is no state's.
fn state_refused(alloc: Global, name: &str, fault: StateFault) -> Ending
    ensures { (known : List ℕ → Option (List ℕ)) (faults : ℕ) → HasNoFront result known (BegunFromState name.now) faults faults }
{
    match state_refused_line(alloc, name, fault) {
        Ok(line) => Ending {
            status: CoresStatus::Refused,
            message: Message::Made(line),
        },
        Err(_) => Ending::no_memory(),
    }
}

/// All that a source has left, which is the file of this name.
fn text_left<S: Source>(alloc: Global, name: &str, source: &mut S) -> Result<Vec<u8>, Ending>
    ensures whole { IfOk result (λ text. IfSome (S.left source.old) (λ all. text.items ≡ all)) }
    ensures read { OnOk result (IsAtEnd (S.left source.new)) }
    ensures faultless { OnOk result (S.faults source.new ≡ S.faults source.old) }
    ensures stopped { IfErr result (λ ending. (known : List ℕ → Option (List ℕ))
        → HasNoFront ending known (BegunFromState name.now) (S.faults source.old) (S.faults source.new)) }
{
    match read_all(alloc, source, usize::MAX - 1) {
        Ok(text) => Ok(text),
        Err(ReadAllFault::ReadFault) => Err(Ending::read_fault()),
        Err(ReadAllFault::TooLong | ReadAllFault::NoMemory) => Err(Ending::no_memory()),
    }
}

/// Feeds a watcher that was fed nothing with the graph of the state that a text tells, which is that of the file of this name.
fn open_text(
    alloc: Global,
    name: &str,
    text: Vec<u8>,
    watcher: &mut Watcher,
) -> Result<Opening, Ending>
    requires { WasFed watcher.old [] }
    ensures opened { IfOk result (λ opening. (state : KeptParts) × IsStateText text.items state
        × HasOpened (reply watcher.new.options) (reply_at_end watcher.new.options) (WasFed watcher.new) (start_text state) opening.flow
        opening.text.items) }
    ensures options { watcher.new.options ≡ watcher.old.options }
    ensures stopped { IfErr result (λ ending. (known : List ℕ → Option (List ℕ)) (faults : ℕ)
        → HasNoFront ending known (BegunFromState name.now) faults faults) }
{
    match kc_loading::open_state(alloc, text, watcher) {
        Ok(opening) => Ok(opening),
        Err(ReadFault::NoMemory) => Err(Ending::no_memory()),
        Err(ReadFault::Faulty(fault)) => Err(state_refused(alloc, name, fault)),
    }
}

/// Feeds a watcher that was fed nothing with the graph of the state in the file of this name.
pub(crate) fn open_state<I: FileInput>(
    alloc: Global,
    name: &str,
    input: &mut I,
    watcher: &mut Watcher,
) -> Result<Opening, Ending>
    requires { WasFed watcher.old [] }
    ensures opened { IfOk result (λ opening. (front : List ℕ) × StandsInFront (I.behind input.old) (BegunFromState name.now) front
        × HasOpened (reply watcher.new.options) (reply_at_end watcher.new.options) (WasFed watcher.new) front opening.flow opening.text.items) }
    ensures read { OnOk result (IsAtEnd (I.left input.new)) }
    ensures options { watcher.new.options ≡ watcher.old.options }
    ensures faultless { OnOk result (I.faults input.new ≡ I.faults input.old) }
    ensures stopped { IfErr result (λ ending. HasNoFront ending (I.behind input.old) (BegunFromState name.now) (I.faults input.old) (I.faults input.new)) }
{
    if let Err(fault) = input.open(name) {
        return Err(unopened(alloc, name, fault));
    }
    let text = text_left(alloc, name, input)?;
    open_text(alloc, name, text, watcher)
}
