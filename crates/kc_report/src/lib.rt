//! The lines that a run writes: one line about the graph, one about the rounds of h-indices and one about each batch, a
//! line for each vertex with its core number, and the members of a level's core. And a text that is generated for a
//! number, to be read as an input.
//!
//! The calls for lines append to a text that grows, take no memory but that text's, and leave it as it was where there
//! is none. The bytes are pinned by the definitions of `specs/Lines.antt` and `specs/Generator.antt`. The crate stands
//! on `itoa`, which prints a number into a buffer on the stack, and on `kc_text` for what a line of an input says.
#![tactic(auto)]

mod drawing;
mod draws;
mod generator;
pub mod laws;
mod pieces;
mod sizes;

ghost use Rattle.std.specs.Prelude.{◌≡◌, ◌++◌, length, OnErr, OnOk};
ghost use Rattle.kc_report.specs.Lines.{core_lines, level_lines, line_text};

use crate::pieces::{put_core_lines, put_level_lines, put_line};
pub use generator::{
    a_generated_batch_names_each_pair_once, a_generated_text_is_an_input, generate,
};
pub use std::alloc::AllocError as NoMemory;

/// A line about the graph, about rounds of h-indices, or about a batch of updates.
#[derive(Clone, Copy, Debug, PartialEq, Eq)]
pub enum Line {
    /// The graph at the start: how many vertices and edges it has, and its greatest core number (0 for no vertices).
    Graph {
        vertices: u32,
        edges: u64,
        top: u32,
    },
    /// The first round of h-indices that changes no number: its number, from 1.
    Rounds {
        rounds: u64,
    },
    /// A batch: its number from 1, how many of its updates added an edge, removed one or changed nothing, how many of
    /// its changes were overruled by a later one of the same edge (the line says so only where some were), and then
    /// the edges and the greatest core number after it.
    Batch {
        number: u32,
        added: u32,
        removed: u32,
        kept: u32,
        overruled: u32,
        edges: u64,
        top: u32,
    },
}

/// Appends the line. Where there is no memory for it, `out` stays as it was.
pub fn summary(out: &mut Vec<u8>, line: &Line) -> Result<(), NoMemory>
    ensures ok { OnOk result (out.new.items ≡ out.old.items ++ line_text line.now) }
    ensures err { OnErr result (out.new.items ≡ out.old.items) }
{
    let before = out.len();
    let written = put_line(out, line);
    if written.is_err() {
        out.truncate(before);
    }
    written
}

/// Appends a line for each vertex: its id and its core number. Both lists go by the dense numbers of the vertices.
/// Where there is no memory for all lines, `out` stays as it was.
pub fn core_lines(out: &mut Vec<u8>, ids: &[u32], core: &[u32]) -> Result<(), NoMemory>
    requires { length ids.now ≡ length core.now }
    ensures ok { OnOk result (out.new.items ≡ out.old.items ++ core_lines ids.now core.now) }
    ensures err { OnErr result (out.new.items ≡ out.old.items) }
{
    let before = out.len();
    let written = put_core_lines(out, ids, core);
    if written.is_err() {
        out.truncate(before);
    }
    written
}

/// Appends how many vertices the core of a level has, and a line for each of them: its id. The core of a level (Seidman
/// 1983) has the vertices whose core number is at least the level. Both lists go by the dense numbers of the vertices.
/// Where there is no memory for all lines, `out` stays as it was.
pub fn member_lines(
    out: &mut Vec<u8>,
    ids: &[u32],
    core: &[u32],
    level: u32,
) -> Result<(), NoMemory>
    requires { length ids.now ≡ length core.now }
    ensures ok { OnOk result (out.new.items ≡ out.old.items ++ level_lines ids.now core.now level) }
    ensures err { OnErr result (out.new.items ≡ out.old.items) }
{
    let before = out.len();
    let written = put_level_lines(out, ids, core, level);
    if written.is_err() {
        out.truncate(before);
    }
    written
}
