//! Streams that go on from the text of a state.
use kc_dialogue::replier::Replier;
use kc_loading::open_state;
use kc_state::{ReadFault, StateFault, StateKind};
use kc_watch::{BadLines, ReplyFormat, Show, WatchOptions, Watcher};
use std::process::Abort;

/// The lines of the graph and of the batches, with each change; a refused line ends the answers.
const CHANGES: WatchOptions = WatchOptions {
    show: Show::Changes,
    enter: None,
    bad_lines: BadLines::Stop,
    format: ReplyFormat::Words,
    workers: 1,
};

/// The ids 8, 5, 7 and 9, and 6 without an edge: a triangle of the first three, and 9 that hangs on 8. Another program worked out the check sum.
const STATE: &[u8] = b"kcore-state 1\nbatches 3\nvertices 5\nedges 4\n\
    8 2 4\n5 2 2\n7 2 3\n9 1 1\n6 0 0\n8 5\n8 7\n8 9\n5 7\nsum 11035937507628921235\n";

/// What a stream is answered that goes on from the state of a text.
fn answered<R: Abort + AllocGlobal>(
    rt: &R,
    text: &[u8],
    stream: &[u8],
) -> Result<Vec<u8>, ReadFault> {
    let alloc = rt.alloc();
    let mut watcher = Watcher::new(alloc, CHANGES);
    let text = Vec::from_slice(alloc, text).expect(rt, "no memory");
    let mut out = open_state(alloc, text, &mut watcher)?.text;
    watcher.feed(alloc, stream, &mut out)?;
    watcher.end(alloc, &mut out)?;
    Ok(out)
}

/// Checks what a stream is answered behind the state.
fn check<R: Abort + AllocGlobal>(rt: &R, stream: &[u8], wanted: &[u8]) {
    let out = answered(rt, STATE, stream).expect(rt, "refused");
    assert_eq!(rt; out.as_slice(), wanted);
}

#[test]
fn a_stream_goes_on_from_a_state(rt: HostRuntime) {
    check(&rt, b"", b"graph vertices 5 edges 4 top 2\n");
    check(
        &rt,
        b"batch\n+ 9 5\n",
        b"graph vertices 5 edges 4 top 2\nbatch 1 added 1 removed 0 kept 0 edges 5 top 2\n9 1 2\n",
    );
    check(
        &rt,
        b"6 9\nbatch\n",
        b"graph vertices 5 edges 5 top 2\nbatch 1 added 0 removed 0 kept 0 edges 5 top 2\n",
    );
}

#[test]
fn a_text_that_is_no_state_is_refused(rt: HostRuntime) {
    let cut = STATE.get(..60).expect(&rt, "too short");
    let fault = answered(&rt, cut, b"batch\n").err();
    let kind = StateKind::Cut;
    assert_eq!(&rt;
        fault,
        Some(ReadFault::Faulty(StateFault { line: 7, kind }))
    );
}
