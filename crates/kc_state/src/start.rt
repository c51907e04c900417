//! The text that a stream begins with whose start is the graph of a state.
ghost use Rattle.std.specs.Prelude.{◌≡◌, ◌<◌, ◌++◌, [], ◌∷◌, All, IfOk, OnOk, decimal, length};
ghost use Rattle.std.specs.List.{flat_map};
ghost use Rattle.kc_state.specs.Reading.{parts_of_state};
ghost use Rattle.kc_state.specs.Starts.{loop_line, loops_text, start_text};
ghost use Rattle.kc_state.specs.Texts.{edges_text, ended_by, greater_line, lines_to_greater, pair_text};

use crate::NoMemory;
use crate::kept_state::KeptState;
use itoa::Buffer;
use kc_graph::Graph;
use std::alloc::Global;

/// Puts a number, and a byte behind it.
fn put_number(out: &mut Vec<u8>, number: u32, byte: u8) -> Result<(), NoMemory>
    ensures { OnOk result (out.new.items ≡ out.old.items ++ ended_by byte number) }
{
    out.extend_from_slice(Buffer::new().format(number).as_bytes())?;
    out.push(byte)?;
    Ok(())
}

/// Puts a line of two numbers.
fn put_pair(out: &mut Vec<u8>, first: u32, second: u32) -> Result<(), NoMemory>
    ensures { OnOk result (out.new.items ≡ out.old.items ++ pair_text first second) }
{
    put_number(out, first, b' ')?;
    put_number(out, second, b'\n')
}

/// Puts a line for each id, which names it twice.
fn put_loops(out: &mut Vec<u8>, ids: &[u32]) -> Result<(), NoMemory>
    ensures { OnOk result (out.new.items ≡ out.old.items ++ loops_text ids.now) }
{
    for id in ids {
        put_pair(out, *id, *id)?;
    }
    Ok(())
}

/// Puts the line of the edge between two vertices, where the second is the greater one.
fn put_greater(out: &mut Vec<u8>, ids: &[u32], v: u32, w: u32) -> Result<(), NoMemory>
    requires first { v < length ids.now }
    requires second { w < length ids.now }
    ensures { OnOk result (out.new.items ≡ out.old.items ++ greater_line ids.now v w) }
{
    if v < w {
        put_pair(out, ids[v as usize], ids[w as usize])
    } else {
        Ok(())
    }
}

/// Puts the lines of the edges between a vertex and those of its neighbours that are greater.
fn put_all_greater(
    out: &mut Vec<u8>,
    ids: &[u32],
    v: u32,
    neighbours: &[u32],
) -> Result<(), NoMemory>
    requires first { v < length ids.now }
    requires others { All (λ w. w < length ids.now) neighbours.now }
    ensures { OnOk result (out.new.items ≡ out.old.items ++ lines_to_greater ids.now v neighbours.now) }
{
    for w in neighbours {
        put_greater(out, ids, v, *w)?;
    }
    Ok(())
}

/// Puts the lines of all edges.
fn put_edges(out: &mut Vec<u8>, ids: &[u32], graph: &Graph) -> Result<(), NoMemory>
    requires { length ids.now ≡ graph.now.size }
    ensures { OnOk result (out.new.items ≡ out.old.items ++ edges_text ids.now graph.now) }
{
    for v in 0..graph.vertices() {
        put_all_greater(out, ids, v, graph.neighbours(v))?;
    }
    Ok(())
}

/// The text that a stream begins with whose start is the graph of a state: a line `ID ID` for each id, in the order of their coming, which names
/// it and tells no edge, and then a line `A B` for each edge. Before any line `batch` a stream may go on with more edges.
pub fn start_text(alloc: Global, state: &KeptState) -> Result<Vec<u8>, NoMemory>
    requires { length state.now.ids ≡ state.now.lawful.graph.size }
    ensures { IfOk result (λ text. text.items ≡ start_text (parts_of_state state.now)) }
{
    let mut out = Vec::new(alloc);
    put_loops(&mut out, state.ids.names())?;
    put_edges(&mut out, state.ids.names(), state.lawful.graph())?;
    Ok(out)
}
