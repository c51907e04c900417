//! Runs on small graphs, and what their journals have.
ghost use Rattle.std.specs.Prelude.{◌≡◌, ◌≤◌};

use kc_graph::{Graph, Lawful, decompose_owned};
use kc_journal::Journal;
use kc_shared::Parts;
use kc_table::Pass;
use kc_words::VERTICES;
use std::process::Abort;

/// A run that begins with these edges.
pub(crate) fn run_of<R: Abort + AllocGlobal>(
    rt: &R,
    vertices: u32,
    edges: &[(u32, u32)],
) -> (Parts, Pass)
    requires { vertices ≤ VERTICES }
    ensures { result.1.table ≡ result.0.words }
{
    let lawful = decomposed(rt, vertices, edges);
    Parts::open(rt.alloc(), lawful, 0).expect(rt, "no memory")
}

/// The graph with these edges, each with its lesser end first, and its core numbers.
fn decomposed<R: Abort + AllocGlobal>(rt: &R, vertices: u32, edges: &[(u32, u32)]) -> Lawful
    ensures { result.graph.size ≡ vertices }
{
    assert!(rt; edges.iter().all(|(u, v)| u < v && *v < vertices));
    let graph = Graph::from_pairs(rt.alloc(), vertices, edges).expect(rt, "no memory");
    decompose_owned(rt.alloc(), graph).expect(rt, "no memory")
}

/// The journal has these edges, and the core numbers that `decompose` finds for them.
pub(crate) fn assert_decomposed<R: Abort + AllocGlobal>(
    rt: &R,
    journal: &Journal,
    vertices: u32,
    edges: &[(u32, u32)],
) {
    let lawful = decomposed(rt, vertices, edges);
    assert_eq!(rt; journal.graph().vertices(), vertices);
    assert_same(rt, journal, &lawful);
}

/// Graph and core numbers are those.
fn assert_same<R: Abort>(rt: &R, journal: &Journal, lawful: &Lawful) {
    journal.recall_stands();
    let vertices = journal.graph().vertices();
    assert_eq!(rt; lawful.graph().vertices(), vertices);
    for v in 0..vertices {
        assert_eq!(rt; journal.graph().neighbours(v), lawful.graph().neighbours(v));
        assert_eq!(rt; journal.core(v), lawful.core()[v as usize]);
    }
}
