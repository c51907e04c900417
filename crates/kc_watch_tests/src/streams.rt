//! Streams, with what they are answered.
ghost use Rattle.std.specs.Prelude.{List, ℕ};
ghost use Rattle.kc_watch.specs.Watching.{WasFed};

use kc_dialogue::replier::Replier;
use kc_text::{Kind, Refusal};
use kc_watch::{BadLines, ReplyFormat, Show, WatchOptions, Watcher};
use std::alloc::Global;
use std::process::Abort;

/// Nothing but the lines of the graph and of the batches.
const BRIEF: WatchOptions = WatchOptions {
    show: Show::Summary,
    enter: None,
    bad_lines: BadLines::Stop,
    format: ReplyFormat::Words,
    workers: 1,
};

/// And each core number that changes.
pub(crate) const CHANGES: WatchOptions = WatchOptions {
    show: Show::Changes,
    enter: None,
    bad_lines: BadLines::Stop,
    format: ReplyFormat::Words,
    workers: 1,
};

/// And who comes into the 2-core or leaves it.
const ENTER: WatchOptions = WatchOptions {
    show: Show::Summary,
    enter: Some(2),
    bad_lines: BadLines::Stop,
    format: ReplyFormat::Words,
    workers: 1,
};

/// And both.
const BOTH: WatchOptions = WatchOptions {
    show: Show::Changes,
    enter: Some(1),
    bad_lines: BadLines::Stop,
    format: ReplyFormat::Words,
    workers: 1,
};

/// A refused line drops its batch, and the next ones have each core number that changes.
const DROPS: WatchOptions = WatchOptions {
    show: Show::Changes,
    enter: None,
    bad_lines: BadLines::Batch,
    format: ReplyFormat::Words,
    workers: 1,
};

/// Each core number that changes, and who comes into the 2-core or leaves it, as JSON objects. A refused line drops its batch.
const OBJECTS: WatchOptions = WatchOptions {
    show: Show::Changes,
    enter: Some(2),
    bad_lines: BadLines::Batch,
    format: ReplyFormat::Json,
    workers: 1,
};

/// What a stream is answered, the refused line that ends the answers, and how many batches are dropped.
#[derive(Drop)]
struct Reply {
    text: Vec<u8>,
    refusal: Option<Refusal>,
    refused_batches: u64,
}

/// Feeds a watcher a stream to its end, in pieces of a size, or of one byte where that is 0.
fn feed_all(
    alloc: Global,
    watcher: &mut Watcher,
    stream: &[u8],
    size: usize,
    out: &mut Vec<u8>,
) -> Result<(), &'static str>
    requires { (fed : List ℕ) × WasFed watcher.old fed }
{
    let mut rest = stream;
    while !rest.is_empty() {
        let (piece, more) = rest.split_at(rest.len().min(size.max(1)));
        watcher.feed(alloc, piece, out).map_err(|_| "no memory")?;
        rest = more;
    }
    watcher.end(alloc, out).map_err(|_| "no memory")
}

/// What a stream is answered that comes in pieces of a size.
fn answered<R: Abort + AllocGlobal>(
    rt: &R,
    options: WatchOptions,
    stream: &[u8],
    size: usize,
) -> Reply {
    let mut watcher = Watcher::new(rt.alloc(), options);
    let mut text = Vec::new(rt.alloc());
    feed_all(rt.alloc(), &mut watcher, stream, size, &mut text).expect(rt, "it has to end");
    Reply {
        text,
        refusal: watcher.refusal(),
        refused_batches: watcher.refused_batches(),
    }
}

/// Checks what a stream is answered that comes in pieces of a size.
fn check_pieces<R: Abort + AllocGlobal>(
    rt: &R,
    options: WatchOptions,
    stream: &[u8],
    size: usize,
    wanted: &[u8],
    ending: (Option<Refusal>, u64),
) {
    let got = answered(rt, options, stream, size);
    assert_eq!(rt; got.text.as_slice(), wanted);
    assert_eq!(rt; (got.refusal, got.refused_batches), ending);
}

/// Checks what a stream is answered, in pieces of several sizes: its text, the refused line that ends it, and how many batches are dropped.
fn check_reply<R: Abort + AllocGlobal>(
    rt: &R,
    options: WatchOptions,
    stream: &[u8],
    wanted: &[u8],
    ending: (Option<Refusal>, u64),
) {
    for size in [1, 2, 7, 1000] {
        check_pieces(rt, options, stream, size, wanted, ending);
    }
}

/// Checks what a stream is answered of which no line is refused.
pub(crate) fn check_with<R: Abort + AllocGlobal>(
    rt: &R,
    options: WatchOptions,
    stream: &[u8],
    wanted: &[u8],
) {
    check_reply(rt, options, stream, wanted, (None, 0));
}

/// Checks what a stream is answered where refused lines drop their batches, so many in all.
pub(crate) fn check_dropped<R: Abort + AllocGlobal>(
    rt: &R,
    stream: &[u8],
    wanted: &[u8],
    count: u64,
) {
    check_reply(rt, DROPS, stream, wanted, (None, count));
}

/// Checks what a stream is answered where nothing more is asked for.
fn check<R: Abort + AllocGlobal>(rt: &R, stream: &[u8], wanted: &[u8]) {
    check_with(rt, BRIEF, stream, wanted);
}

/// Checks what a stream is answered of which this line is refused and ends the answers.
fn check_ended<R: Abort + AllocGlobal>(
    rt: &R,
    options: WatchOptions,
    stream: &[u8],
    wanted: &[u8],
    refusal: Refusal,
) {
    check_reply(rt, options, stream, wanted, (Some(refusal), 0));
}

/// Checks what a stream is answered of which a line is refused.
fn check_refused<R: Abort + AllocGlobal>(
    rt: &R,
    stream: &[u8],
    wanted: &[u8],
    line: u64,
    kind: Kind,
) {
    check_ended(rt, CHANGES, stream, wanted, Refusal { line, kind });
}

#[test]
fn starts(rt: HostRuntime) {
    check(&rt, b"", b"graph vertices 0 edges 0 top 0\n");
    check(&rt, b"7 7", b"graph vertices 1 edges 0 top 0\n");
    check(&rt, b"1 2\n2 3\r\n3 1", b"graph vertices 3 edges 3 top 2\n");
}

#[test]
fn batches(rt: HostRuntime) {
    check(
        &rt,
        b"1 2\n2 3\nbatch\n+ 1 3\nbatch\n- 3 1\n- 1 3\n# no change\n+ 2 3\nbatch\n",
        b"graph vertices 3 edges 2 top 1\n\
          batch 1 added 1 removed 0 kept 0 edges 3 top 2\n\
          batch 2 added 0 removed 1 kept 1 overruled 1 edges 2 top 1\n\
          batch 3 added 0 removed 0 kept 0 edges 2 top 1\n",
    );
    check(
        &rt,
        b"batch\n+ 5 9\nbatch\n+ 9 7\n+ 7 5\n",
        b"graph vertices 0 edges 0 top 0\n\
          batch 1 added 1 removed 0 kept 0 edges 1 top 1\n\
          batch 2 added 2 removed 0 kept 0 edges 3 top 2\n",
    );
}

#[test]
fn refused_lines(rt: HostRuntime) {
    let start = b"graph vertices 2 edges 1 top 1\n";
    check_refused(&rt, b"1 2\n1\nbatch\n", b"", 2, Kind::MissingField);
    check_refused(&rt, b"+ 1 2\n", b"", 1, Kind::UpdateOutsideBatch);
    check_refused(&rt, b"1 2\nbatch\n3 4", start, 3, Kind::EdgeLineInBatch);
    check_refused(
        &rt,
        b"1 2\nbatch\n+ 3 3\nbatch\n",
        start,
        3,
        Kind::LoopInBatch,
    );
}

/// A path of ids in another order than they come in, a triangle of them with a new id on it, and then the path without its end.
const TRIANGLE: &[u8] =
    b"30 20\n20 10\nbatch\n+ 10 30\n+ 5 30\nbatch\n- 20 10\nbatch\n- 20 30\n+ 7 5\n- 5 7\n";

#[test]
fn changed_core_numbers(rt: HostRuntime) {
    check_with(
        &rt,
        CHANGES,
        TRIANGLE,
        b"graph vertices 3 edges 2 top 1\n\
          batch 1 added 2 removed 0 kept 0 edges 4 top 2\n5 - 1\n10 1 2\n20 1 2\n30 1 2\n\
          batch 2 added 0 removed 1 kept 0 edges 3 top 1\n10 2 1\n20 2 1\n30 2 1\n\
          batch 3 added 0 removed 1 kept 1 overruled 1 edges 2 top 1\n7 - 0\n20 1 0\n",
    );
    check_with(
        &rt,
        CHANGES,
        b"1 2\nbatch\nbatch\n+ 2 1\n",
        b"graph vertices 2 edges 1 top 1\n\
          batch 1 added 0 removed 0 kept 0 edges 1 top 1\n\
          batch 2 added 0 removed 0 kept 1 edges 1 top 1\n",
    );
}

#[test]
fn who_comes_into_a_core_and_leaves_it(rt: HostRuntime) {
    check_with(
        &rt,
        ENTER,
        TRIANGLE,
        b"graph vertices 3 edges 2 top 1\n\
          batch 1 added 2 removed 0 kept 0 edges 4 top 2\nenter 10\nenter 20\nenter 30\n\
          batch 2 added 0 removed 1 kept 0 edges 3 top 1\nleave 10\nleave 20\nleave 30\n\
          batch 3 added 0 removed 1 kept 1 overruled 1 edges 2 top 1\n",
    );
    check_with(
        &rt,
        BOTH,
        TRIANGLE,
        b"graph vertices 3 edges 2 top 1\n\
          batch 1 added 2 removed 0 kept 0 edges 4 top 2\n5 - 1\n10 1 2\n20 1 2\n30 1 2\nenter 5\n\
          batch 2 added 0 removed 1 kept 0 edges 3 top 1\n10 2 1\n20 2 1\n30 2 1\n\
          batch 3 added 0 removed 1 kept 1 overruled 1 edges 2 top 1\n7 - 0\n20 1 0\nleave 20\n",
    );
}

#[test]
fn questions(rt: HostRuntime) {
    let start = b"graph vertices 4 edges 4 top 2\n";
    check(
        &rt,
        b"30 20\n20 10\n10 30\n7 10\nbatch\n? 10\n? 7\n? 99\n? core 2\n?  core\t1\n? core 3\n? sizes\n",
        b"graph vertices 4 edges 4 top 2\n\
          core 10 2\ncore 7 1\ncore 99 -\nmembers 2 10 20 30\nmembers 1 7 10 20 30\nmembers 3\nsizes 1 1 2 3\n\
          batch 1 added 0 removed 0 kept 0 edges 4 top 2\n",
    );
    // A question speaks of the last batch that has ended, and ends none.
    check(
        &rt,
        b"1 2\nbatch\n+ 2 3\n? 3\n? sizes\n+ 1 3\n? core 0\nbatch\n? 3\n? sizes\n- 3 1\n- 3 2\nbatch\n? 3\n? sizes\n? core 0",
        b"graph vertices 2 edges 1 top 1\n\
          core 3 -\nsizes 1 2\nmembers 0 1 2\n\
          batch 1 added 2 removed 0 kept 0 edges 3 top 2\n\
          core 3 2\nsizes 2 3\n\
          batch 2 added 0 removed 2 kept 0 edges 1 top 1\n\
          core 3 0\nsizes 0 1 1 2\nmembers 0 1 2 3\n\
          batch 3 added 0 removed 0 kept 0 edges 1 top 1\n",
    );
    // Who is asked for is not named: the graph has no vertex more.
    check(
        &rt,
        b"batch\n? 5\n? sizes\n? core 0\n? core 4294967295\nbatch\n? 5\n",
        b"graph vertices 0 edges 0 top 0\n\
          core 5 -\nsizes\nmembers 0\nmembers 4294967295\n\
          batch 1 added 0 removed 0 kept 0 edges 0 top 0\n\
          core 5 -\n\
          batch 2 added 0 removed 0 kept 0 edges 0 top 0\n",
    );
    check_refused(&rt, b"1 2\n? 1\nbatch\n", b"", 2, Kind::UpdateOutsideBatch);
    check_refused(
        &rt,
        b"30 20\n20 10\n10 30\n7 10\nbatch\n?\n",
        start,
        6,
        Kind::MissingField,
    );
}

#[test]
fn orders(rt: HostRuntime) {
    // A path, whose ends go first. The batch that is open makes it a ring, of which all go at once.
    check(
        &rt,
        b"5 4\n4 3\n3 2\n2 1\nbatch\n? order 5 1\n? order 1 2\n? order 3 4\n? order\t3  3\n+ 1 5\n? order 4 3\nbatch\n? order 4 3\n? order 1 5\n",
        b"graph vertices 5 edges 4 top 1\n\
          order 5 1 after\norder 1 2 before\norder 3 4 after\norder 3 3 same\norder 4 3 before\n\
          batch 1 added 1 removed 0 kept 0 edges 5 top 2\n\
          order 4 3 after\norder 1 5 before\n\
          batch 2 added 0 removed 0 kept 0 edges 5 top 2\n",
    );
    // A triangle that an id of core number 1 hangs on, and ids that are not known yet.
    check(
        &rt,
        b"1 2\n2 3\n3 1\n3 9\nbatch\n? order 9 1\n? order 3 9\n? order 2 3\n+ 9 7\n? order 7 9\n? order 9 7\n? order 7 7\nbatch\n? order 7 9\n",
        b"graph vertices 4 edges 4 top 2\n\
          order 9 1 before\norder 3 9 after\norder 2 3 before\norder 7 9 -\norder 9 7 -\norder 7 7 -\n\
          batch 1 added 1 removed 0 kept 0 edges 5 top 2\n\
          order 7 9 before\n\
          batch 2 added 0 removed 0 kept 0 edges 5 top 2\n",
    );
    check_refused(&rt, b"1 2\n? order 1 2\n", b"", 2, Kind::UpdateOutsideBatch);
}

/// A stream of which a line is refused, what it is answered, which line that is, and what is wrong.
type Refused = (&'static [u8], &'static [u8], u64, Kind);

/// What a batch on no edges is answered before it ends.
const NO_EDGES: &[u8] = b"graph vertices 0 edges 0 top 0\n";

/// Wrong questions about the order.
const FAULTY_ORDERS: [Refused; 6] = [
    (b"batch\n? order", NO_EDGES, 2, Kind::MissingField),
    (b"batch\n? order 1\n", NO_EDGES, 2, Kind::MissingField),
    (b"batch\n? order x 1 2\n", NO_EDGES, 2, Kind::NotANumber),
    (b"batch\n? order 1 x 2\n", NO_EDGES, 2, Kind::NotANumber),
    (b"batch\n? order 1 2 x\n", NO_EDGES, 2, Kind::ExtraField),
    (
        b"batch\n? order 1 4294967296\n",
        NO_EDGES,
        2,
        Kind::NumberTooLarge,
    ),
];

#[test]
fn wrong_orders(rt: HostRuntime) {
    for (stream, wanted, line, kind) in &FAULTY_ORDERS {
        check_refused(&rt, stream, wanted, *line, *kind);
    }
}

/// Other wrong questions.
const FAULTY_QUESTIONS: [Refused; 8] = [
    (b"batch\n? x y z\n? 1\n", NO_EDGES, 2, Kind::NotANumber),
    (b"batch\n? 1 2", NO_EDGES, 2, Kind::ExtraField),
    (b"batch\n? core", NO_EDGES, 2, Kind::MissingField),
    (b"batch\n? core 1 2", NO_EDGES, 2, Kind::ExtraField),
    (b"batch\n? sizes 1", NO_EDGES, 2, Kind::ExtraField),
    (b"batch\n? 4294967296", NO_EDGES, 2, Kind::NumberTooLarge),
    (b"? x\n", b"", 1, Kind::NotANumber),
    (b"batch\n?1\n", NO_EDGES, 2, Kind::NotANumber),
];

#[test]
fn wrong_questions(rt: HostRuntime) {
    for (stream, wanted, line, kind) in &FAULTY_QUESTIONS {
        check_refused(&rt, stream, wanted, *line, *kind);
    }
}

#[test]
fn refused_batches(rt: HostRuntime) {
    // Nothing of the batch is entered: no edge, and no id that it named. What follows it is told of the graph of before.
    check_dropped(
        &rt,
        b"1 2\nbatch\n+ 2 3\n+ 7 8\n+ 1 1\n+ 1 3\nbatch\n? 7\n? 3\n+ 2 3\n+ 1 3\nbatch\n- 1 2\n",
        b"graph vertices 2 edges 1 top 1\n\
          refused batch 1 line 5 kind 5 LoopInBatch\ncore 7 -\ncore 3 -\n\
          batch 2 added 2 removed 0 kept 0 edges 3 top 2\n1 1 2\n2 1 2\n3 - 2\n\
          batch 3 added 0 removed 1 kept 0 edges 2 top 1\n1 2 1\n2 2 1\n3 2 1\n",
        1,
    );
    // The first refused line is told. What follows it is passed over, but for questions and the next batch.
    check_dropped(
        &rt,
        b"1 2\nbatch\n+ 2 3\n? 3\nx\n? 1\n? 1 x\n? core 1\n+ 4294967296 1\n1 2\nbatch 2\nbatch\n+ 2 3\n1 3\n",
        b"graph vertices 2 edges 1 top 1\n\
          core 3 -\ncore 1 1\nmembers 1 1 2\n\
          refused batch 1 line 5 kind 1 NotANumber\n\
          refused batch 2 line 14 kind 8 EdgeLineInBatch\n",
        2,
    );
    // A wrong question drops its batch, too, and the end of the stream ends one.
    check_dropped(
        &rt,
        b"batch\n? x\n+ 1 2\nbatch\n\nbatch\n+ 1 2\n? core",
        b"graph vertices 0 edges 0 top 0\n\
          refused batch 1 line 2 kind 1 NotANumber\n\
          batch 2 added 0 removed 0 kept 0 edges 0 top 0\n\
          refused batch 3 line 8 kind 2 MissingField\n",
        2,
    );
    // In the edges of the start there is no batch that could be dropped.
    check_ended(
        &rt,
        DROPS,
        b"1 2\n1 x\nbatch\n",
        b"",
        Refusal {
            line: 2,
            kind: Kind::NotANumber,
        },
    );
    check_ended(
        &rt,
        DROPS,
        b"1 2\n? 1\nbatch\n",
        b"",
        Refusal {
            line: 2,
            kind: Kind::UpdateOutsideBatch,
        },
    );
    // Where no line is refused, all is as it is otherwise.
    check_dropped(
        &rt,
        b"1 2\nbatch\n",
        b"graph vertices 2 edges 1 top 1\nbatch 1 added 0 removed 0 kept 0 edges 1 top 1\n",
        0,
    );
}

#[test]
fn answers_as_json_objects(rt: HostRuntime) {
    check_reply(
        &rt,
        OBJECTS,
        b"1 2\n2 3\nbatch\n+ 1 3\nbatch\n? 1\n? 9\n? core 2\n? core 3\n? sizes\n? order 1 2\n? order 1 9\n+ 3 9\n- 1 2\n- 2 1\nbatch\n+ 4 4\n",
        b"{\"event\":\"graph\",\"vertices\":3,\"edges\":2,\"top\":1}\n\
          {\"event\":\"batch\",\"batch\":1,\"added\":1,\"removed\":0,\"kept\":0,\"edges\":3,\"top\":2}\n\
          {\"event\":\"change\",\"id\":1,\"old\":1,\"new\":2}\n\
          {\"event\":\"change\",\"id\":2,\"old\":1,\"new\":2}\n\
          {\"event\":\"change\",\"id\":3,\"old\":1,\"new\":2}\n\
          {\"event\":\"enter\",\"id\":1}\n{\"event\":\"enter\",\"id\":2}\n{\"event\":\"enter\",\"id\":3}\n\
          {\"event\":\"core\",\"id\":1,\"core\":2}\n\
          {\"event\":\"core\",\"id\":9,\"core\":null}\n\
          {\"event\":\"members\",\"core\":2,\"ids\":[1,2,3]}\n\
          {\"event\":\"members\",\"core\":3,\"ids\":[]}\n\
          {\"event\":\"sizes\",\"sizes\":[{\"core\":2,\"vertices\":3}]}\n\
          {\"event\":\"order\",\"first\":1,\"second\":2,\"order\":\"before\"}\n\
          {\"event\":\"order\",\"first\":1,\"second\":9,\"order\":null}\n\
          {\"event\":\"batch\",\"batch\":2,\"added\":1,\"removed\":1,\"kept\":0,\"overruled\":1,\"edges\":3,\"top\":1}\n\
          {\"event\":\"change\",\"id\":1,\"old\":2,\"new\":1}\n\
          {\"event\":\"change\",\"id\":2,\"old\":2,\"new\":1}\n\
          {\"event\":\"change\",\"id\":3,\"old\":2,\"new\":1}\n\
          {\"event\":\"change\",\"id\":9,\"old\":null,\"new\":1}\n\
          {\"event\":\"leave\",\"id\":1}\n{\"event\":\"leave\",\"id\":2}\n{\"event\":\"leave\",\"id\":3}\n\
          {\"event\":\"refused\",\"batch\":3,\"line\":17,\"kind\":5,\"name\":\"LoopInBatch\"}\n",
        (None, 1),
    );
}
