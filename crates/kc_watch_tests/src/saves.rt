//! Streams whose states are saved in a folder in memory, which takes one part.
use kc_dialogue::end::DialogueEnd;
use kc_dialogue::flow::Flow;
use kc_dialogue::opening::Opening;
use kc_files::fault::FolderFault;
use kc_files::folder::Unplaced;
use kc_files::mem_folder::{MemFolder, Refusals};
use kc_io::mem_sink::MemSink;
use kc_keeper::KeeperAlone;
use kc_saving::{Saves, SavingEnd, answer_and_save};
use kc_watch::{BadLines, ReplyFormat, Show, WatchOptions, Watcher, WatcherWith};
use kc_wire::hindrances::Hindrances;
use kc_wire::mem_wire::MemWire;
use std::process::Abort;

/// Nothing but the lines of the graph and of the batches; a refused line ends the answers.
const BRIEF: WatchOptions = WatchOptions {
    show: Show::Summary,
    enter: None,
    bad_lines: BadLines::Stop,
    format: ReplyFormat::Words,
    workers: 1,
};

/// A triangle of 8, 5 and 7, and then 9, which hangs on 8.
const STREAM: &[u8] = b"8 5\n8 7\n5 7\nbatch\n+ 9 8\nbatch\n";

/// How many bytes of it come first: the start and its end.
const FIRST: usize = 18;

/// What is saved: by a wire whose first read gives the start, and whose read of this number fails.
#[derive(Clone, Copy)]
struct Case<'a> {
    stream: &'a [u8],
    failing: usize,
    every: Option<u64>,
    refusals: Refusals,
}

/// Nothing fails, and a state is saved at the end alone.
const PLAIN: Case<'static> = Case {
    stream: STREAM,
    failing: 0,
    every: None,
    refusals: Refusals {
        unbegun: None,
        unplaced: None,
        sticks: false,
    },
};

/// A wire with a stream, of which the first read gives the start.
fn wire_of<R: Abort + AllocGlobal>(rt: &R, case: Case<'_>) -> MemWire {
    let alloc = rt.alloc();
    let input = Vec::from_slice(alloc, case.stream).expect(rt, "no memory");
    let cuts = vec![in alloc; FIRST; 1].expect(rt, "no memory");
    let reads = vec![in alloc; case.failing; 1].expect(rt, "no memory");
    let hindrances = Hindrances {
        cuts,
        reads,
        writes: Vec::new(alloc),
        room: usize::MAX,
    };
    MemWire::new(alloc, input, hindrances)
}

/// A folder without the file, which takes one part.
fn folder_of<R: Abort + AllocGlobal>(rt: &R, refusals: Refusals) -> MemFolder {
    let alloc = rt.alloc();
    let name = String::from_str(alloc, "state").expect(rt, "no memory");
    let part = MemSink::new(alloc, 4096, 4096, Vec::new(alloc)).expect(rt, "no memory");
    MemFolder::new(name, None, part, refusals)
}

/// Answers the stream of a case, and saves its states.
fn saved<R: Abort + AllocGlobal>(rt: &R, case: Case<'_>, folder: &mut MemFolder) -> SavingEnd {
    let alloc = rt.alloc();
    let opening = Opening {
        text: Vec::new(alloc),
        flow: Flow::Open,
    };
    let saves = Saves {
        file: "state",
        every: case.every,
    };
    let mut made = WatcherWith {
        watcher: Watcher::new(alloc, BRIEF),
        maker: &KeeperAlone,
    };
    answer_and_save(
        alloc,
        &mut wire_of(rt, case),
        &mut made,
        &opening,
        saves,
        folder,
    )
}

/// Checks how a dialogue ends, and how many bytes of a text the file begins with; none where there is no file.
fn check<R: Abort + AllocGlobal>(rt: &R, case: Case<'_>, wanted: (SavingEnd, Option<&[u8]>)) {
    let mut folder = folder_of(rt, case.refusals);
    let end = saved(rt, case, &mut folder);
    let front = match (folder.bytes(), wanted.1) {
        (Some(bytes), Some(text)) => bytes.get(..text.len()),
        (bytes, _) => bytes,
    };
    assert_eq!(rt; (end, front), wanted);
}

#[test]
fn the_state_is_saved_as_the_stream_ends(rt: HostRuntime) {
    let text = b"kcore-state 1\nbatches 2\nvertices 4\nedges 4\n";
    check(
        &rt,
        PLAIN,
        (SavingEnd::Dialogue(DialogueEnd::Done), Some(text)),
    );
}

#[test]
fn a_state_is_saved_between_two_reads(rt: HostRuntime) {
    let case = Case {
        every: Some(1),
        failing: 3,
        stream: b"8 5\n8 7\n5 7\nbatch\nbatch\n+ 9 8\n",
        ..PLAIN
    };
    let text = b"kcore-state 1\nbatches 1\nvertices 3\nedges 3\n";
    check(
        &rt,
        case,
        (SavingEnd::Dialogue(DialogueEnd::ReadFault), Some(text)),
    );
}

#[test]
fn a_save_that_fails_ends_the_dialogue(rt: HostRuntime) {
    let fault = FolderFault::Full;
    let refusals = Refusals {
        unbegun: Some(fault),
        unplaced: None,
        sticks: false,
    };
    let case = Case { refusals, ..PLAIN };
    let unsaved = Unplaced {
        fault,
        is_left: false,
    };
    check(&rt, case, (SavingEnd::Unsaved(unsaved), None));
}

#[test]
fn where_a_line_ends_the_reading_no_last_state_is_saved(rt: HostRuntime) {
    let case = Case {
        stream: b"8 5\n8 7\n5 7\nbatch\n+ 9\n",
        ..PLAIN
    };
    check(&rt, case, (SavingEnd::Dialogue(DialogueEnd::Ended), None));
}
