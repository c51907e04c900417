//! The graph that is read, and the updates of it.
use kc_graph::{Graph, NoMemory, Update};
use kc_text::{Input, Limits, ParseFault, parse};
use rand::RngExt;
use rand_xoshiro::Xoshiro256PlusPlus;
use std::alloc::Global;
use std::cmp::Ordering;
use std::io;
use std::io::Read;

/// What a text says, which is dropped; `None` where it is not that of a graph.
fn parsed(alloc: Global, bytes: Vec<u8>) -> Result<Option<Input>, NoMemory> {
    match parse(alloc, Limits::KCORE, &bytes) {
        Ok(input) => Ok(Some(input)),
        Err(ParseFault::Refused(_)) => Ok(None),
        Err(ParseFault::NoMemory) => Err(NoMemory),
    }
}

/// The graph with these edges; `None` where a pair is none.
fn graph_of(alloc: Global, vertices: u32, pairs: &[(u32, u32)]) -> Result<Option<Graph>, NoMemory> {
    if pairs.iter().all(|(u, v)| u < v && *v < vertices) {
        Ok(Some(Graph::from_pairs(alloc, vertices, pairs)?))
    } else {
        Ok(None)
    }
}

/// Reads a graph from a text to its end; `None` where it is too long or is not that of a graph.
pub(crate) fn read_graph<R: Read>(alloc: Global, source: &mut R) -> io::Result<Option<Graph>> {
    let mut bytes = Vec::new(alloc);
    source.read_to_end(&mut bytes)?;
    let Some(input) = parsed(alloc, bytes)? else {
        return Ok(None);
    };
    let Ok(vertices) = u32::try_from(input.ids.len()) else {
        return Ok(None);
    };
    Ok(graph_of(alloc, vertices, &input.start)?)
}

/// An update of the edge between two vertices; none where they are one.
fn update_of(add: bool, first: u32, second: u32) -> Option<Update> {
    match first.cmp(&second) {
        Ordering::Less => Some(Update {
            add,
            u: first,
            v: second,
        }),
        Ordering::Equal => None,
        Ordering::Greater => Some(Update {
            add,
            u: second,
            v: first,
        }),
    }
}

/// Any update of a graph: one edge in two comes between any two vertices, and else one of a vertex goes. A vertex without neighbours gets
/// an edge. There is none where the graph has less than two vertices.
pub(crate) fn draw(draws: &mut Xoshiro256PlusPlus, graph: &Graph) -> Option<Update> {
    let vertices = graph.vertices();
    if vertices < 2 {
        return None;
    }
    let first = draws.random_range(0..vertices);
    let list = graph.neighbours(first);
    if list.is_empty() || draws.random::<bool>() {
        let other = draws.random_range(0..vertices - 1);
        let second = if other < first { other } else { other + 1 };
        return update_of(true, first, second);
    }
    update_of(false, first, list[draws.random_range(0..list.len())])
}

/// Makes an update in a graph that has its vertices.
pub(crate) fn change(graph: &mut Graph, update: Update) -> Result<(), NoMemory> {
    if update.v < graph.vertices() {
        if update.add {
            graph.add(update.u, update.v)?;
        } else {
            graph.remove(update.u, update.v);
        }
    }
    Ok(())
}
