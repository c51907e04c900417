//! Small graphs, with answers worked out by hand.
ghost use Rattle.std.specs.Prelude.{◌<◌};

use kc_graph::{Graph, Lawful, Neighbours, SharedGraph, Update, core_numbers, decompose};
use std::process::Abort;

/// Adds or removes the edge between `u` and `v`, and tells whether it changed the graph.
fn change<R: Abort>(rt: &R, graph: &mut Graph, add: bool, u: u32, v: u32) -> bool {
    assert!(rt; u < v && v < graph.vertices());
    if add {
        return graph.add(v, u).expect(rt, "no memory");
    }
    graph.remove(v, u)
}

/// An update of a graph, whether it changes the graph, and how many edges it leaves.
type Change = ((bool, u32, u32), bool, u64);

/// An update changes the graph or not, and leaves so many edges.
fn assert_change<R: Abort>(rt: &R, graph: &mut Graph, update: &Change) {
    let ((add, u, v), changes, edges) = *update;
    let changed = change(rt, graph, add, u, v);
    assert!(rt; u < graph.vertices());
    let left = (changed, graph.has(u, v), graph.edges());
    assert_eq!(rt; left, (changes, add, edges), "at {u} {v}");
}

/// Updates of four vertices without edges, in this order.
const CHANGES: [Change; 7] = [
    ((true, 0, 1), true, 1),
    ((true, 2, 3), true, 2),
    ((true, 0, 1), false, 2),
    ((true, 1, 2), true, 3),
    ((false, 0, 3), false, 3),
    ((false, 0, 1), true, 2),
    ((false, 0, 1), false, 2),
];

/// Each update changes the graph or not.
fn assert_changes<R: Abort>(rt: &R, graph: &mut Graph) {
    for update in &CHANGES {
        assert_change(rt, graph, update);
    }
    assert!(rt; 2 < graph.vertices());
    assert_eq!(rt; graph.neighbours(2), [1, 3].as_slice());
}

#[test]
fn updates_tell_whether_they_changed_the_graph(rt: HostRuntime) {
    let mut graph = Graph::new(rt.alloc(), 4).expect(&rt, "no memory");
    assert_changes(&rt, &mut graph);
}

/// A decomposition has these core numbers, so many edges, and a place for each vertex.
fn assert_decomposition<R: Abort>(rt: &R, lawful: &Lawful, core: &[u32], edges: u64) {
    assert_eq!(rt; (lawful.core(), lawful.graph().edges()), (core, edges));
    for v in 0..lawful.graph().vertices() {
        assert_eq!(rt;
            lawful.order().get(lawful.place(v) as usize).copied(),
            Some(v)
        );
    }
}

/// The core numbers of a graph are these, and so are those of its decomposition.
fn assert_numbers<R: Abort + AllocGlobal>(rt: &R, graph: &Graph, core: &[u32], edges: u64) {
    let numbers = core_numbers(rt.alloc(), graph).expect(rt, "no memory");
    assert_eq!(rt; numbers.as_slice(), core);
    let lawful = decompose(rt.alloc(), graph).expect(rt, "no memory");
    assert_decomposition(rt, &lawful, core, edges);
}

/// The graph with these edges, each with its lesser end first.
pub(crate) fn graph_of<R: Abort + AllocGlobal>(
    rt: &R,
    vertices: u32,
    edges: &[(u32, u32)],
) -> Graph {
    assert!(rt; edges.iter().all(|(u, v)| u < v && *v < vertices));
    Graph::from_pairs(rt.alloc(), vertices, edges).expect(rt, "no memory")
}

/// How many vertices a graph has, its edges and its core numbers.
type Numbered = (u32, &'static [(u32, u32)], &'static [u32]);

/// The core numbers of this graph are these, and its decomposition has its edges and a place for each vertex.
fn check<R: Abort + AllocGlobal>(rt: &R, numbered: &Numbered) {
    let (vertices, edges, core) = *numbered;
    let graph = graph_of(rt, vertices, edges);
    assert_numbers(rt, &graph, core, edges.len() as u64);
}

const NUMBERED: [Numbered; 5] = [
    (0, &[], &[]),
    (2, &[], &[0, 0]),
    // a triangle with a tail
    (
        6,
        &[(0, 1), (0, 2), (1, 2), (2, 3), (3, 4)],
        &[2, 2, 2, 1, 1, 0],
    ),
    // triangles with a common edge
    (4, &[(1, 2), (0, 2), (1, 3), (0, 1), (2, 3)], &[2, 2, 2, 2]),
    // all of four, and one more
    (
        5,
        &[
            (0, 1),
            (0, 2),
            (0, 3),
            (1, 2),
            (1, 3),
            (2, 3),
            (0, 4),
            (1, 4),
        ],
        &[3, 3, 3, 3, 2],
    ),
];

#[test]
fn core_numbers_of_small_graphs(rt: HostRuntime) {
    for numbered in &NUMBERED {
        check(&rt, numbered);
    }
}

/// A list that was shared, and whose first owner is gone.
fn shared_list<R: Abort + AllocGlobal>(rt: &R) -> Neighbours {
    let list = Neighbours::copy_of(rt.alloc(), &[1, 3, 7]).expect(rt, "no memory");
    list.share().expect(rt, "no memory")
}

/// A list that was a vector.
fn list_of_one<R: Abort + AllocGlobal>(rt: &R) -> Neighbours {
    let items = Vec::from_slice(rt.alloc(), &[5u32]).expect(rt, "no memory");
    Neighbours::from_vec(items).expect(rt, "no memory")
}

#[test]
fn a_list_of_neighbours_is_shared_and_stays(rt: HostRuntime) {
    let shared = shared_list(&rt);
    assert_eq!(rt; shared.as_slice(), [1, 3, 7].as_slice());
    drop(shared);
    let one = list_of_one(&rt);
    assert_eq!(rt; one.as_slice(), [5].as_slice());
}

/// A value that other threads may see and get.
fn goes_between_threads<T: Send + Sync>(_value: &T) {}

/// A square less one edge, as a shared graph.
fn shared_graph<R: Abort + AllocGlobal>(rt: &R) -> SharedGraph {
    let graph = Graph::from_pairs(rt.alloc(), 4, &[(0, 1), (0, 2), (2, 3)]);
    let graph = graph.expect(rt, "no memory");
    goes_between_threads(&graph);
    SharedGraph::from_graph(graph).expect(rt, "no memory")
}

/// Puts the two lists of an update.
fn update<R: Abort>(rt: &R, graph: &mut SharedGraph, update: Update) {
    let Update { add, u, v } = update;
    assert!(rt; u < v && v < graph.vertices() && graph.has(u, v) != add);
    let lists = graph.lists_after(update).expect(rt, "no memory");
    graph.put_lists(update, lists);
}

/// An update leaves these neighbours of vertex 0 and so many edges.
fn assert_update<R: Abort>(
    rt: &R,
    graph: &mut SharedGraph,
    change: (bool, u32, u32),
    neighbours: &[u32],
    edges: u64,
)
    requires { change.1 < change.2 }
{
    let (add, u, v) = change;
    update(rt, graph, Update { add, u, v });
    assert!(rt; 0 < graph.vertices());
    assert_eq!(rt; (graph.neighbours(0), graph.edges()), (neighbours, edges));
}

/// Updates change the neighbours of vertex 0 and the number of edges.
fn assert_updates<R: Abort>(rt: &R, graph: &mut SharedGraph) {
    assert_update(rt, graph, (true, 0, 3), &[1, 2, 3], 4);
    assert_update(rt, graph, (false, 0, 1), &[2, 3], 3);
    assert_update(rt, graph, (false, 2, 3), &[2, 3], 2);
}

/// The list of vertex 0 as it was shared, after updates.
fn list_before_updates<R: Abort>(rt: &R, graph: &mut SharedGraph) -> Neighbours {
    assert!(rt; graph.vertices() == 4);
    let before = graph.share_neighbours(0).expect(rt, "no memory");
    goes_between_threads(graph);
    goes_between_threads(&before);
    assert_updates(rt, graph);
    before
}

#[test]
fn a_shared_list_stays_while_its_graph_changes(rt: HostRuntime) {
    let mut graph = shared_graph(&rt);
    assert_eq!(rt;
        list_before_updates(&rt, &mut graph).as_slice(),
        [1, 2].as_slice()
    );
}
