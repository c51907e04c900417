//! The answer to a stream whose states are saved: the dialogue on the wire and the saves, and how the run ends then.
ghost use Rattle.std.specs.Prelude.{◌≡◌, ℕ, List, option_map};
ghost use Rattle.kc_dialogue.specs.Openings.{HasOpened};
ghost use Rattle.kc_watch.specs.Text.{reply, reply_at_end};
ghost use Rattle.kc_watch.specs.Watching.{WasFed};
ghost use Rattle.kc_wishes.specs.Requests.{plan_of, stream_of_request};
ghost use Rattle.kc_cores.specs.Endings.{line_of};
ghost use Rattle.kc_cores.specs.WatchSaved.{HasEndedSaving, StreamSaved, WatchSaved};

use crate::ending::Ending;
use crate::input::FileInput;
use crate::saving::unsaved;
use crate::watching::{StreamFront, end_so, open};
use kc_dialogue::opening::Opening;
use kc_files::folder::Folder;
use kc_keeper::BatchMaker;
use kc_saving::{Saves, SavingEnd, answer_and_save};
use kc_text::Refusal;
use kc_watch::{Watcher, WatcherWith};
use kc_wire::wire::Wire;
use kc_wishes::{SavePlan, WatchRequest};
use std::alloc::Global;

/// A stream whose states are saved: the file in front of it, if there is one, and where its states are saved.
#[derive(Clone, Copy)]
struct SavedStream<'a> {
    file: Option<&'a str>,
    plan: SavePlan<'a>,
}

/// A stream that is to be answered, and who makes its batches.
#[derive(Drop)]
pub(crate) struct StreamTask<'a, M> {
    pub(crate) request: WatchRequest<'a>,
    pub(crate) maker: &'a M,
}

/// What the saves of a plan are.
fn saves_of(plan: SavePlan<'_>) -> Saves<'_>
    ensures file { result.file.now ≡ plan.entry.file.now }
    ensures every { result.every ≡ plan.entry.every }
{
    let every = match plan.every {
        None => None,
        Some(every) => Some(u64::from(every)),
    };
    Saves {
        file: plan.file,
        every,
    }
}

/// The end of a run whose dialogue with saves has ended so, and which tells this of its stream.
fn end_saving(
    alloc: Global,
    front: StreamFront<'_>,
    name: &str,
    how: SavingEnd,
    refusal: Option<Refusal>,
    refused_batches: u64,
) -> Ending
    ensures { HasEndedSaving (option_map (λ t. t.now) front.entry.file) front.entry.lines name.now how (refusal, refused_batches)
        (refusal, refused_batches) result.status (line_of result) }
{
    match how {
        SavingEnd::Dialogue(how) => end_so(alloc, front, how, refusal, refused_batches),
        SavingEnd::Unsaved(unplaced) => unsaved(alloc, name, unplaced),
    }
}

/// Answers the stream of a wire behind what a watcher was fed, and saves its states.
fn save_behind<L: Wire, M: BatchMaker, P: Folder>(
    alloc: Global,
    stream: SavedStream<'_>,
    opening: &Opening,
    made: &mut WatcherWith<'_, M>,
    wire: &mut L,
    folder: &mut P,
) -> Ending
    requires { (start : List ℕ) × HasOpened (reply made.old.watcher.options) (reply_at_end made.old.watcher.options) (WasFed made.old.watcher) start
        opening.now.flow opening.now.text.items }
    ensures { (start : List ℕ) → HasOpened (reply made.old.watcher.options) (reply_at_end made.old.watcher.options) (WasFed made.old.watcher) start
        opening.now.flow opening.now.text.items → StreamSaved L.Wire P.holds P.failed made.old.watcher.options (plan_of stream.entry.plan)
        (option_map (λ t. t.now) stream.entry.file) start result.status (line_of result) wire.old wire.new folder.old folder.new }
{
    let front = StreamFront {
        file: stream.file,
        lines: made.watcher.lines(),
    };
    let saves = saves_of(stream.plan);
    let how = answer_and_save(alloc, wire, made, opening, saves, folder);
    end_saving(
        alloc,
        front,
        stream.plan.file,
        how,
        made.watcher.refusal(),
        made.watcher.refused_batches(),
    )
}

/// Answers the stream of a wire, behind the text of a file where one is named, and saves its states. Batches of the wire are made by the maker of
/// the task, and those of the file by the keeper alone.
pub(crate) fn watch_saving<I: FileInput, L: Wire, M: BatchMaker, P: Folder>(
    alloc: Global,
    task: StreamTask<'_, M>,
    plan: SavePlan<'_>,
    input: &mut I,
    wire: &mut L,
    folder: &mut P,
) -> Ending
    ensures { WatchSaved I.Source I.behind L.Wire P.holds P.failed (stream_of_request task.entry.request) (plan_of plan.entry) result.status
        (line_of result) input.old input.new wire.old wire.new folder.old folder.new }
{
    let StreamTask { request, maker } = task;
    let mut watcher = Watcher::new(alloc, request.options);
    let stream = SavedStream {
        file: request.start.file(),
        plan,
    };
    match open(alloc, request.start, input, &mut watcher) {
        Ok(opening) => {
            let mut made = WatcherWith { watcher, maker };
            save_behind(alloc, stream, &opening, &mut made, wire, folder)
        }
        Err(ending) => ending,
    }
}
