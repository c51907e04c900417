//! Answers a stream on a wire, and saves its states.
ghost use Rattle.std.specs.Prelude.{◌≡◌, ◌<◌, ◌++◌, [], ℕ, List, None, OnErr, OnOk, length};
ghost use Rattle.kc_files.specs.Folders.{AllStay, Held};
ghost use Rattle.kc_wire.specs.Events.{TellsMore, WireEvent, read_in};
ghost use Rattle.kc_dialogue.specs.Endings.{reads_in};
ghost use Rattle.kc_dialogue.specs.Openings.{HasOpened, behind};
ghost use Rattle.kc_dialogue.specs.Turns.{IsGoing};
ghost use Rattle.kc_watch.specs.Text.{reply, reply_at_end};
ghost use Rattle.kc_watch.specs.Watching.{HasEnded, WasFed};
ghost use Rattle.kc_saving.specs.Saving.{FolderFaultsAt, HasKept, HoldsSave, IsKeptAtEnd, wire_faults_at};
ghost use Rattle.kc_saving.specs.Steps.{HasSaveCause, HasTurnedSaving, end_by_fault, faults_after_turns};

use crate::end::SavingEnd;
use crate::fault::SaveFault;
use crate::save::{save, save_if_due};
use crate::saves::Saves;
use kc_dialogue::answer::{PIECE_BYTES, answer_next, end_at};
use kc_dialogue::end::DialogueEnd;
use kc_dialogue::flow::Flow;
use kc_dialogue::opening::Opening;
use kc_files::folder::Folder;
use kc_keeper::BatchMaker;
use kc_watch::{Watcher, WatcherWith};
use kc_wire::wire::Wire;
use std::alloc::Global;

/// Answers a wire turn by turn, by reads into `room`, and saves a state before a turn where it is time. The dialogue goes on already, with events
/// in which nothing was read.
fn answer_turns<W: Wire, M: BatchMaker, P: Folder>(
    alloc: Global,
    wire: &mut W,
    made: &mut WatcherWith<'_, M>,
    saves: Saves<'_>,
    folder: &mut P,
    room: &mut [u8],
) -> Result<DialogueEnd, SaveFault>
    requires room { 0 < length room.old }
    requires going { (start : List ℕ) × (first : List WireEvent)
        × IsGoing (behind (reply made.old.watcher.options) start) (λ read. WasFed made.old.watcher (start ++ read)) first × (reads_in first ≡ 0) }
    ensures turned { (start : List ℕ) (first : List WireEvent)
        → IsGoing (behind (reply made.old.watcher.options) start) (λ read. WasFed made.old.watcher (start ++ read)) first → reads_in first ≡ 0
        → (events : List WireEvent) × TellsMore (W.history wire.old) (W.history wire.new) events
        × HasTurnedSaving made.old.watcher.options saves.entry.file.now saves.entry.every (P.holds folder.old) (P.holds folder.new) start made.new.watcher
        (first ++ events) result }
    ensures options { made.new.watcher.options ≡ made.old.watcher.options }
    ensures faults { W.faults wire.new ≡ faults_after_turns (W.faults wire.old) result }
    ensures cause { HasSaveCause (P.failed folder.old) (P.failed folder.new) result }
{
    let mut out = Vec::new(alloc);
    let mut saved = 0;
    'turns: for _ in 0..u64::MAX {
        saved = match save_if_due(alloc, &made.watcher, saves, saved, folder) {
            Ok(now) => now,
            Err(fault) => return Err(fault),
        };
        match answer_next(alloc, wire, made, room, &mut out) {
            None => {}
            Some(end) => return Ok(end),
        }
    }
    Ok(DialogueEnd::Exhausted)
}

/// Saves the last state of a stream that has ended, unless a line has ended the reading.
fn save_last<P: Folder>(
    alloc: Global,
    watcher: &Watcher,
    file: &str,
    folder: &mut P,
) -> Result<(), SaveFault>
    requires { (fed : List ℕ) × HasEnded watcher.now fed }
    ensures kept { OnOk result ((before : List ℕ → Held) (fed : List ℕ) (saved : ℕ) → HasEnded watcher.now fed
        → HoldsSave file.now watcher.now.options.bad_lines before (P.holds folder.old) fed saved
        → IsKeptAtEnd file.now watcher.now.options.bad_lines before (P.holds folder.new) fed) }
    ensures stays { OnErr result (AllStay P.holds folder.old folder.new) }
    ensures cause { HasSaveCause (P.failed folder.old) (P.failed folder.new) result }
{
    if watcher.refusal().is_some() {
        return Ok(());
    }
    save(alloc, watcher, file, folder)
}

/// The end that a fault of a save brings.
fn end_by_fault(fault: SaveFault) -> SavingEnd
    ensures { result ≡ end_by_fault fault }
{
    match fault {
        SaveFault::NoMemory => SavingEnd::Dialogue(DialogueEnd::NoMemory),
        SaveFault::Unplaced(unplaced) => SavingEnd::Unsaved(unplaced),
    }
}

/// Answers a wire turn by turn, with saves, by reads into `room`, and saves the last state. The dialogue goes on already, with events in which
/// nothing was read.
fn answer_and_end<W: Wire, M: BatchMaker, P: Folder>(
    alloc: Global,
    wire: &mut W,
    made: &mut WatcherWith<'_, M>,
    saves: Saves<'_>,
    folder: &mut P,
    room: &mut [u8],
) -> SavingEnd
    requires room { 0 < length room.old }
    requires going { (start : List ℕ) × (first : List WireEvent)
        × IsGoing (behind (reply made.old.watcher.options) start) (λ read. WasFed made.old.watcher (start ++ read)) first × (reads_in first ≡ 0) }
    ensures kept { (start : List ℕ) (first : List WireEvent)
        → IsGoing (behind (reply made.old.watcher.options) start) (λ read. WasFed made.old.watcher (start ++ read)) first → reads_in first ≡ 0
        → (events : List WireEvent) × TellsMore (W.history wire.old) (W.history wire.new) events
        × HasKept made.old.watcher.options saves.entry.file.now saves.entry.every (P.holds folder.old) (P.holds folder.new) start made.new.watcher
        (first ++ events) result }
    ensures options { made.new.watcher.options ≡ made.old.watcher.options }
    ensures faults { W.faults wire.new ≡ wire_faults_at (W.faults wire.old) result }
    ensures cause { FolderFaultsAt (P.failed folder.old) (P.failed folder.new) result }
{
    match answer_turns(alloc, wire, made, saves, folder, room) {
        Err(fault) => end_by_fault(fault),
        Ok(DialogueEnd::Done) => match save_last(alloc, &made.watcher, saves.file, folder) {
            Ok(()) => SavingEnd::Dialogue(DialogueEnd::Done),
            Err(fault) => end_by_fault(fault),
        },
        Ok(how) => SavingEnd::Dialogue(how),
    }
}

/// Answers a wire turn by turn, with saves, and saves the last state. The dialogue goes on already, with events in which nothing was read.
fn answer_open<W: Wire, M: BatchMaker, P: Folder>(
    alloc: Global,
    wire: &mut W,
    made: &mut WatcherWith<'_, M>,
    saves: Saves<'_>,
    folder: &mut P,
) -> SavingEnd
    requires { (start : List ℕ) × (first : List WireEvent)
        × IsGoing (behind (reply made.old.watcher.options) start) (λ read. WasFed made.old.watcher (start ++ read)) first × (reads_in first ≡ 0) }
    ensures kept { (start : List ℕ) (first : List WireEvent)
        → IsGoing (behind (reply made.old.watcher.options) start) (λ read. WasFed made.old.watcher (start ++ read)) first → reads_in first ≡ 0
        → (events : List WireEvent) × TellsMore (W.history wire.old) (W.history wire.new) events
        × HasKept made.old.watcher.options saves.entry.file.now saves.entry.every (P.holds folder.old) (P.holds folder.new) start made.new.watcher
        (first ++ events) result }
    ensures options { made.new.watcher.options ≡ made.old.watcher.options }
    ensures faults { W.faults wire.new ≡ wire_faults_at (W.faults wire.old) result }
    ensures cause { FolderFaultsAt (P.failed folder.old) (P.failed folder.new) result }
{
    let Ok(mut room) = vec![in alloc; 0u8; PIECE_BYTES] else {
        return SavingEnd::Dialogue(DialogueEnd::NoMemory);
    };
    answer_and_end(alloc, wire, made, saves, folder, &mut room)
}

/// Answers a wire as `answer_opened` of `kc_dialogue` does, behind what the watcher was fed before, and saves states: each time that so many
/// batches have ended since the last save, before more is asked for, and the last state when the stream has ended and no line has ended the
/// reading.
///
/// The clauses say of each end what was answered, and that the file has the text of the state that a front of the stream means, or is as before
/// where none was saved; at `Done` it is the last state. Where more was asked for, no more batches had ended since the last save. At `Unsaved` the
/// folder's count of failed calls rose, all that was read is answered, and the file is as the last save left it. It is so at `NoMemory`, too.
pub fn answer_and_save<W: Wire, M: BatchMaker, P: Folder>(
    alloc: Global,
    wire: &mut W,
    made: &mut WatcherWith<'_, M>,
    opening: &Opening,
    saves: Saves<'_>,
    folder: &mut P,
) -> SavingEnd
    requires { (start : List ℕ) × HasOpened (reply made.old.watcher.options) (reply_at_end made.old.watcher.options) (WasFed made.old.watcher) start
        opening.now.flow opening.now.text.items }
    ensures kept { (start : List ℕ) → HasOpened (reply made.old.watcher.options) (reply_at_end made.old.watcher.options) (WasFed made.old.watcher) start
        opening.now.flow opening.now.text.items
        → (events : List WireEvent) × TellsMore (W.history wire.old) (W.history wire.new) events
        × HasKept made.old.watcher.options saves.entry.file.now saves.entry.every (P.holds folder.old) (P.holds folder.new) start made.new.watcher
        events result }
    ensures options { made.new.watcher.options ≡ made.old.watcher.options }
    ensures faults { W.faults wire.new ≡ wire_faults_at (W.faults wire.old) result }
    ensures cause { FolderFaultsAt (P.failed folder.old) (P.failed folder.new) result }
{
    if let Err(fault) = wire.write_all(&opening.text) {
        return SavingEnd::Dialogue(end_at(fault));
    }
    match opening.flow {
        Flow::Ended => SavingEnd::Dialogue(DialogueEnd::Ended),
        Flow::Open => answer_open(alloc, wire, made, saves, folder),
    }
}
