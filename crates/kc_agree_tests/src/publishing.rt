//! Lists that one thread publishes while another reads, each list with the number of entries after which it was so.
ghost use Rattle.std.specs.Prelude.{◌≡◌, ◌<◌, ◌≤◌, vec_len, All};
ghost use Rattle.kc_graph.specs.Neighbours.{AreNeighbours};

use kc_graph::{Graph, Neighbours, SharedGraph, UsedEdges};
use kc_order::Writer;
use kc_stripes::{STRIPES, Stripe, Stripes, open_stripes};
use kc_table::{Name, Pass, Words, split};
use kc_words::{Shape, VertexWord};
use std::alloc::Global;
use std::marker::Brand;
use std::process::Abort;
use std::sync::Wait;
use std::test::Fail;
use std::thread;
use std::thread::Threads;

/// How many entries were made before the table, so that the opening lists may be told under any number up to it.
const BASE: u32 = 20_000;

/// A copy of the list of a vertex.
fn list_of<R: Abort + AllocGlobal>(rt: &R, graph: &SharedGraph, vertex: u32) -> Neighbours
    requires { vertex < graph.now.size }
    ensures { AreNeighbours graph.now vertex result }
{
    let Ok(neighbours) = Neighbours::copy_of(rt.alloc(), graph.neighbours(vertex)) else {
        panic!(rt; "no memory")
    };
    neighbours
}

/// Publishes the opening list of each vertex, as that after so many entries.
fn publish_each<K: Name, R: Wait + Abort + AllocGlobal>(
    rt: &R,
    words: &Words,
    stripes: &Stripes<K>,
    pass: &mut Pass,
    graph: &SharedGraph,
    at: u32,
)
    requires table { (words.now ≡ K.opened.table) × (pass.old.table ≡ K.opened.table) }
    requires graph { (graph.now ≡ K.opened.edges) × (graph.now.size ≡ K.opened.table.shape.fixed) }
    requires at { at ≤ K.opened.table.shape.base }
    ensures { pass.new.table ≡ K.opened.table }
{
    for vertex in 0..graph.vertices() {
        let neighbours = list_of(rt, graph, vertex);
        let used = UsedEdges {
            vertex,
            at,
            neighbours,
        };
        assert!(rt; stripes.publish(rt, words, pass, used).is_ok());
    }
}

/// Publishes the list of each vertex under each number.
fn publish_all<K: Name, R: Wait + Abort + AllocGlobal>(
    rt: &R,
    words: &Words,
    stripes: &Stripes<K>,
    mut pass: Pass,
    graph: &SharedGraph,
)
    requires table { (words.now ≡ K.opened.table) × (pass.table ≡ K.opened.table) }
    requires graph { (graph.now ≡ K.opened.edges) × (graph.now.size ≡ K.opened.table.shape.fixed) }
    requires base { BASE ≤ K.opened.table.shape.base }
{
    for at in 1..=BASE {
        publish_each(rt, words, stripes, &mut pass, graph, at);
    }
}

/// Reads the list of a vertex: it is the vertex's. Gives the number of entries after which it was so.
fn read_one<K: Name, R: Wait + Abort>(
    rt: &R,
    words: &Words,
    stripes: &Stripes<K>,
    pass: &mut Pass,
    graph: &SharedGraph,
    vertex: u32,
) -> u32
    requires table { (words.now ≡ K.opened.table) × (pass.old.table ≡ K.opened.table) }
    requires vertex { vertex < graph.now.size }
    ensures { pass.new.table ≡ K.opened.table }
{
    let Ok((list, at)) = stripes.read(rt, words, pass, vertex) else {
        panic!(rt; "no stripe has {vertex}")
    };
    assert_eq!(rt; list.as_slice(), graph.neighbours(vertex));
    at
}

/// Reads the list of a vertex until the last one comes: none is older than the one before.
fn read_all<K: Name, R: Wait + Abort>(
    rt: &R,
    words: &Words,
    stripes: &Stripes<K>,
    mut pass: Pass,
    graph: &SharedGraph,
    vertex: u32,
)
    requires table { (words.now ≡ K.opened.table) × (pass.table ≡ K.opened.table) }
    requires vertex { vertex < graph.now.size }
{
    let mut at = 0;
    for _ in rt.forever() {
        let next = read_one(rt, words, stripes, &mut pass, graph, vertex);
        assert!(rt; at <= next, "{vertex} after {at} entries, and then {next}");
        at = next;
        if at == BASE {
            break;
        }
    }
}

/// Publishes and reads at once, in two threads, and then reads each vertex once more.
fn publish_and_read<K: Name + Send + Sync, R: Threads + Wait + Abort + AllocGlobal + Sync>(
    rt: &R,
    words: &Words,
    stripes: Vec<Stripe>,
    mut pass: Pass,
    graph: &SharedGraph,
    at: &Vec<u32>,
)
    requires table { (words.now ≡ K.opened.table) × (pass.table ≡ K.opened.table) }
    requires graph { (graph.now ≡ K.opened.edges) × (at.now.items ≡ K.opened.stamps) × (graph.now.size ≡ K.opened.table.shape.fixed) }
    requires few { 3 < graph.now.size }
    requires base { BASE ≤ K.opened.table.shape.base }
    requires count { vec_len stripes ≡ STRIPES }
    requires opened { All (λ s. s.opened ≡ K.opened) stripes.items }
{
    let Ok(shared) = Stripes::<K>::new(rt.alloc(), stripes) else {
        panic!(rt; "no memory")
    };
    let shared = &shared;
    let first = split(words, &mut pass);
    let second = split(words, &mut pass);
    thread::join(
        rt,
        move ||
            requires { (words.now ≡ K.opened.table) × (second.table ≡ K.opened.table) × (3 < graph.now.size) }
        { read_all(rt, words, shared, second, graph, 3) },
        move ||
            requires { (words.now ≡ K.opened.table) × (first.table ≡ K.opened.table) × (graph.now ≡ K.opened.edges)
                × (graph.now.size ≡ K.opened.table.shape.fixed) × (BASE ≤ K.opened.table.shape.base) }
        { publish_all(rt, words, shared, first, graph) },
    );
    for vertex in 0..4u32 {
        assert_eq!(rt; read_one(rt, words, shared, &mut pass, graph, vertex), BASE);
    }
}

#[test]
fn no_list_that_is_read_is_older_than_one_read_before(rt: HostRuntime) -> Result<(), Fail> {
    let alloc = rt.alloc();
    let mut graph = Graph::new(alloc, 4)?;
    graph.add(0, 3)?;
    graph.add(2, 3)?;
    let graph = SharedGraph::from_graph(graph)?;
    let shape = Shape {
        items: 4,
        fixed: 4,
        base: BASE,
        version: 0,
    };
    let word = VertexWord { stamp: 0, core: 1 }.pack();
    let (words, _writer, mut pass) = Writer::open(alloc, shape, &[0, 1, 2, 3], &[word; 4])?;
    let at = vec![in alloc; 0; 4]?;
    let stripes = open_stripes(alloc, &words, &mut pass, &graph, &at)?;
    publish_and_read::<Brand, _>(&rt, &words, stripes, pass, &graph, &at);
    Ok(())
}
