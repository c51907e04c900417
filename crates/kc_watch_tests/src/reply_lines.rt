//! Each line of a reply, in both formats.
use kc_reply::{LevelSize, ReplyFormat, ReplyLine, Standing, put_reply_line};
use kc_report::Line;
use kc_text::{Kind, Refusal};
use std::process::Abort;

/// Checks a line in words, and as a JSON object behind it.
fn check<R: Abort + AllocGlobal>(rt: &R, line: ReplyLine<'_>, wanted: &[u8]) {
    let mut text = Vec::new(rt.alloc());
    put_reply_line(&mut text, ReplyFormat::Words, line).expect(rt, "the words have to be put");
    put_reply_line(&mut text, ReplyFormat::Json, line).expect(rt, "the object has to be put");
    assert_eq!(rt; text.as_slice(), wanted);
}

/// A batch, some of whose changes were overruled if so many were.
fn batch(overruled: u32) -> ReplyLine<'static> {
    ReplyLine::Summary(Line::Batch {
        number: 4294967295,
        added: 1,
        removed: 2,
        kept: 3,
        overruled,
        edges: 1099511627776,
        top: 6,
    })
}

#[test]
fn lines_of_a_run(rt: HostRuntime) {
    check(
        &rt,
        ReplyLine::Summary(Line::Graph {
            vertices: 3,
            edges: 2,
            top: 1,
        }),
        b"graph vertices 3 edges 2 top 1\n{\"event\":\"graph\",\"vertices\":3,\"edges\":2,\"top\":1}\n",
    );
    check(
        &rt,
        ReplyLine::Summary(Line::Rounds { rounds: 5 }),
        b"hindex rounds 5\n{\"event\":\"rounds\",\"rounds\":5}\n",
    );
    check(
        &rt,
        batch(0),
        b"batch 4294967295 added 1 removed 2 kept 3 edges 1099511627776 top 6\n\
          {\"event\":\"batch\",\"batch\":4294967295,\"added\":1,\"removed\":2,\"kept\":3,\"edges\":1099511627776,\"top\":6}\n",
    );
    check(
        &rt,
        batch(4),
        b"batch 4294967295 added 1 removed 2 kept 3 overruled 4 edges 1099511627776 top 6\n\
          {\"event\":\"batch\",\"batch\":4294967295,\"added\":1,\"removed\":2,\"kept\":3,\"overruled\":4,\"edges\":1099511627776,\"top\":6}\n",
    );
}

#[test]
fn lines_about_ids(rt: HostRuntime) {
    check(
        &rt,
        ReplyLine::Change {
            id: 1,
            before: None,
            now: 2,
        },
        b"1 - 2\n{\"event\":\"change\",\"id\":1,\"old\":null,\"new\":2}\n",
    );
    check(
        &rt,
        ReplyLine::Change {
            id: 1,
            before: Some(3),
            now: 0,
        },
        b"1 3 0\n{\"event\":\"change\",\"id\":1,\"old\":3,\"new\":0}\n",
    );
    check(
        &rt,
        ReplyLine::Enter { id: 7 },
        b"enter 7\n{\"event\":\"enter\",\"id\":7}\n",
    );
    check(
        &rt,
        ReplyLine::Leave { id: 0 },
        b"leave 0\n{\"event\":\"leave\",\"id\":0}\n",
    );
}

#[test]
fn a_batch_that_is_refused(rt: HostRuntime) {
    check(
        &rt,
        ReplyLine::Refused {
            batch: 1,
            refusal: Refusal {
                line: 7,
                kind: Kind::LoopInBatch,
            },
        },
        b"refused batch 1 line 7 kind 5 LoopInBatch\n\
          {\"event\":\"refused\",\"batch\":1,\"line\":7,\"kind\":5,\"name\":\"LoopInBatch\"}\n",
    );
}

#[test]
fn answers_about_one_id(rt: HostRuntime) {
    check(
        &rt,
        ReplyLine::Core {
            id: 1,
            core: Some(2),
        },
        b"core 1 2\n{\"event\":\"core\",\"id\":1,\"core\":2}\n",
    );
    check(
        &rt,
        ReplyLine::Core { id: 1, core: None },
        b"core 1 -\n{\"event\":\"core\",\"id\":1,\"core\":null}\n",
    );
}

#[test]
fn answers_about_many_ids(rt: HostRuntime) {
    check(
        &rt,
        ReplyLine::Members { level: 3, ids: &[] },
        b"members 3\n{\"event\":\"members\",\"core\":3,\"ids\":[]}\n",
    );
    check(
        &rt,
        ReplyLine::Members {
            level: 2,
            ids: &[1, 20, 30],
        },
        b"members 2 1 20 30\n{\"event\":\"members\",\"core\":2,\"ids\":[1,20,30]}\n",
    );
    check(
        &rt,
        ReplyLine::Sizes { sizes: &[] },
        b"sizes\n{\"event\":\"sizes\",\"sizes\":[]}\n",
    );
    check(
        &rt,
        ReplyLine::Sizes {
            sizes: &[
                LevelSize {
                    core: 1,
                    vertices: 10,
                },
                LevelSize {
                    core: 2,
                    vertices: 3,
                },
            ],
        },
        b"sizes 1 10 2 3\n{\"event\":\"sizes\",\"sizes\":[{\"core\":1,\"vertices\":10},{\"core\":2,\"vertices\":3}]}\n",
    );
}

/// What is asked where one id stands to another, and its lines.
type Asked = (Option<Standing>, &'static [u8]);

/// Each answer to where 8 stands to 9.
const ORDERS: [Asked; 4] = [
    (
        None,
        b"order 8 9 -\n{\"event\":\"order\",\"first\":8,\"second\":9,\"order\":null}\n",
    ),
    (
        Some(Standing::Before),
        b"order 8 9 before\n{\"event\":\"order\",\"first\":8,\"second\":9,\"order\":\"before\"}\n",
    ),
    (
        Some(Standing::After),
        b"order 8 9 after\n{\"event\":\"order\",\"first\":8,\"second\":9,\"order\":\"after\"}\n",
    ),
    (
        Some(Standing::Same),
        b"order 8 9 same\n{\"event\":\"order\",\"first\":8,\"second\":9,\"order\":\"same\"}\n",
    ),
];

#[test]
fn answers_about_two_ids(rt: HostRuntime) {
    for (standing, wanted) in &ORDERS {
        let line = ReplyLine::Order {
            first: 8,
            second: 9,
            standing: *standing,
        };
        check(&rt, line, wanted);
    }
}
