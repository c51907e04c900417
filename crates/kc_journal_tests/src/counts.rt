//! Counts of a small batch that is entered in several orders.
use kc_batch_effects::{Counts, Outcome, count};
use kc_graph::{Graph, Update};
use kc_text::MOST_UPDATES;
use std::process::Abort;

/// The index of the first update.
const FIRST: u32 = 10;

/// The edges before the batch are 0 1 and 2 3, so these are kept, added, removed, kept and added.
const BATCH: [Update; 5] = [
    Update {
        add: true,
        u: 0,
        v: 1,
    },
    Update {
        add: true,
        u: 1,
        v: 2,
    },
    Update {
        add: false,
        u: 2,
        v: 3,
    },
    Update {
        add: false,
        u: 0,
        v: 3,
    },
    Update {
        add: true,
        u: 0,
        v: 2,
    },
];

/// Enters an update, and tells whether the graph changed.
fn enter<R: Abort>(rt: &R, graph: &mut Graph, update: Update) -> bool {
    assert!(rt; update.v < graph.vertices());
    if update.add {
        graph.add(update.u, update.v).expect(rt, "no memory")
    } else {
        graph.remove(update.u, update.v)
    }
}

/// Enters the batch in this order, and notes what came of each update.
fn enter_all<R: Abort>(rt: &R, graph: &mut Graph, outcomes: &mut Vec<Outcome>, places: [u32; 5]) {
    let batch = BATCH;
    for place in places {
        assert!(rt; place < 5);
        let outcome = Outcome {
            index: FIRST + place,
            applied: enter(rt, graph, batch[place as usize]),
        };
        outcomes.push(outcome).expect(rt, "no memory");
    }
}

/// Counts what is told, whose indices are those of the batch.
fn counted<R: Abort>(rt: &R, outcomes: &[Outcome]) -> Counts {
    let batch = BATCH;
    assert!(rt; outcomes.len() <= MOST_UPDATES as usize);
    for outcome in outcomes {
        assert!(rt; FIRST <= outcome.index && outcome.index < FIRST + 5);
    }
    count(FIRST, &batch, outcomes)
}

/// The batch that is entered in this order adds two edges, removes one and leaves two as they are.
fn assert_counts<R: Abort + AllocGlobal>(rt: &R, places: [u32; 5]) {
    let graph = Graph::from_pairs(rt.alloc(), 4, &[(0, 1), (2, 3)]);
    let mut graph = graph.expect(rt, "no memory");
    let mut outcomes = Vec::new(rt.alloc());
    enter_all(rt, &mut graph, &mut outcomes, places);
    let wanted = Counts {
        added: 2,
        removed: 1,
        kept: 2,
    };
    assert_eq!(rt; counted(rt, outcomes.as_slice()), wanted);
    assert_eq!(rt; graph.edges(), 3);
}

#[test]
fn a_batch_counts_alike_in_any_order(rt: HostRuntime) {
    assert_counts(&rt, [0, 1, 2, 3, 4]);
    assert_counts(&rt, [4, 3, 2, 1, 0]);
    assert_counts(&rt, [2, 0, 4, 1, 3]);
}

#[test]
fn no_outcome_counts_nothing(rt: HostRuntime) {
    let wanted = Counts {
        added: 0,
        removed: 0,
        kept: 0,
    };
    assert_eq!(rt; counted(&rt, &[]), wanted);
}
