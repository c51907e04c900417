//! Updates that name edges again, and the updates of them that decide.
use kc_batch_effects::{Batch, decide};
use kc_graph::{Graph, Update};
use std::process::Abort;

/// The edge between 0 and 1 is named three times, the one between 1 and 2 twice, and the other two once.
const UPDATES: [Update; 7] = [
    Update {
        add: true,
        u: 0,
        v: 1,
    },
    Update {
        add: false,
        u: 1,
        v: 2,
    },
    Update {
        add: false,
        u: 0,
        v: 1,
    },
    Update {
        add: true,
        u: 2,
        v: 3,
    },
    Update {
        add: true,
        u: 0,
        v: 1,
    },
    Update {
        add: false,
        u: 0,
        v: 3,
    },
    Update {
        add: true,
        u: 1,
        v: 2,
    },
];

/// The last update of each edge.
const LAST: [Update; 4] = [
    Update {
        add: true,
        u: 2,
        v: 3,
    },
    Update {
        add: true,
        u: 0,
        v: 1,
    },
    Update {
        add: false,
        u: 0,
        v: 3,
    },
    Update {
        add: true,
        u: 1,
        v: 2,
    },
];

/// The updates that decide, of some that are few.
fn decided<R: Abort + AllocGlobal>(rt: &R, updates: &[Update]) -> Batch {
    assert!(rt; updates.len() <= UPDATES.len());
    decide(rt.alloc(), updates).expect(rt, "no memory")
}

/// Of some updates these decide, and overrule so many.
fn assert_decided<R: Abort + AllocGlobal>(
    rt: &R,
    updates: &[Update],
    last: &[Update],
    overruled: u32,
) {
    let batch = decided(rt, updates);
    assert_eq!(rt;
        (batch.updates.as_slice(), batch.overruled),
        (last, overruled)
    );
}

/// Makes an update.
fn make<R: Abort>(rt: &R, graph: &mut Graph, update: Update) {
    assert!(rt; update.v < graph.vertices());
    if update.add {
        let _added = graph.add(update.u, update.v).expect(rt, "no memory");
    } else {
        let _removed = graph.remove(update.u, update.v);
    }
}

/// The graph has the edges that all updates leave: the one between 0 and 3 is gone.
fn assert_left<R: Abort>(rt: &R, graph: &Graph) {
    assert!(rt; graph.vertices() == 4);
    let has = [graph.has(0, 1), graph.has(1, 2), graph.has(2, 3)];
    assert_eq!(rt; (graph.edges(), has), (3, [true; 3]));
}

#[test]
fn the_last_update_of_an_edge_decides(rt: HostRuntime) {
    let updates = UPDATES;
    let last = LAST;
    assert_decided(&rt, &updates, &last, 3);
    assert_decided(&rt, &[], &[], 0);
}

/// The graph that the updates begin with.
fn beginning<R: Abort + AllocGlobal>(rt: &R) -> Graph {
    Graph::from_pairs(rt.alloc(), 4, &[(0, 3), (1, 2)]).expect(rt, "no memory")
}

/// Makes all updates, in their order.
fn make_all<R: Abort>(rt: &R, graph: &mut Graph, updates: &[Update]) {
    for update in updates {
        make(rt, graph, *update);
    }
}

/// Makes those that decide, in the other order.
fn make_last<R: Abort + AllocGlobal>(rt: &R, graph: &mut Graph, updates: &[Update]) {
    let batch = decided(rt, updates);
    for update in batch.updates.iter().rev() {
        make(rt, graph, *update);
    }
}

#[test]
fn the_last_updates_leave_what_all_leave(rt: HostRuntime) {
    let updates = UPDATES;
    let mut graph = beginning(&rt);
    make_all(&rt, &mut graph, &updates);
    assert_left(&rt, &graph);
    let mut other = beginning(&rt);
    make_last(&rt, &mut other, &updates);
    assert_left(&rt, &other);
}
