//! A text that is generated for a number: edge lines and batches of changes, which look random and are the same in each run.
ghost use Rattle.std.specs.Prelude.{◌≡◌, ◌≤◌, ◌++◌, ℕ, length, All, IfOk, OnOk};
ghost use Rattle.std.specs.Io.{StartsWith};
ghost use Rattle.std.specs.List.{flat_map};
ghost use Rattle.kc_text.specs.Batches.{NamesOnce};
ghost use Rattle.kc_text.specs.declared.limits.TheConstants.Limits.{KCORE};
ghost use Rattle.kc_text.specs.Meaning.{Means, Told, batches, meaning};
ghost use Rattle.kc_text.specs.declared.limits.TheConstants.{MOST_BYTES};
ghost use Rattle.kc_report.specs.declared.sizes.TheConstants.{BATCHES, EDGE_LINES, TURNS};
ghost use Rattle.kc_report.specs.Generator.{batch_lines, change_line, drawn_batch, generated, generated_batches, generated_edges, state_after_turns};
ghost use Rattle.kc_report.specs.Lines.{pair_line};

use crate::NoMemory;
use crate::drawing::{draw_batch, draw_edges};
use crate::draws::TextDraws;
use crate::pieces::put_pair;
use crate::sizes::BATCHES;
use kc_text::ChangeLine;
use std::alloc::Global;

/// Puts a line for each edge.
fn put_edges(out: &mut Vec<u8>, edges: &[(u32, u32)]) -> Result<(), NoMemory>
    ensures { OnOk result (out.new.items ≡ out.old.items ++ flat_map pair_line edges.now) }
{
    for (a, b) in edges {
        put_pair(out, *a, *b)?;
    }
    Ok(())
}

/// Puts the line of a change.
fn put_change(out: &mut Vec<u8>, change: ChangeLine) -> Result<(), NoMemory>
    ensures { OnOk result (out.new.items ≡ out.old.items ++ change_line change) }
{
    let sign = if change.add { b"+ " } else { b"- " };
    out.extend_from_slice(sign)?;
    put_pair(out, change.a, change.b)
}

/// Puts the line `batch`, and a line for each change.
fn put_batch(out: &mut Vec<u8>, changes: &[ChangeLine]) -> Result<(), NoMemory>
    ensures { OnOk result (out.new.items ≡ out.old.items ++ batch_lines changes.now) }
{
    out.extend_from_slice(b"batch\n")?;
    for change in changes {
        put_change(out, *change)?;
    }
    Ok(())
}

/// Puts the lines of a batch that is drawn.
fn put_drawn_batch(
    alloc: Global,
    out: &mut Vec<u8>,
    edges: &[(u32, u32)],
    draws: &mut TextDraws,
) -> Result<(), NoMemory>
    requires { length edges.now ≡ EDGE_LINES }
    ensures text { OnOk result (out.new.items ≡ out.old.items ++ batch_lines (drawn_batch edges.now draws.old.state)) }
    ensures state { OnOk result (draws.new.state ≡ state_after_turns TURNS draws.old.state) }
{
    let changes = draw_batch(alloc, edges, draws)?;
    put_batch(out, &changes)
}

/// The text that is generated for a number, the same in each run: 50,000 edge lines between ids below 10,000, and then
/// four batches of at most 1,000 changes each. A batch names no loop, and no pair of ids twice. A remove names the pair
/// of an edge line. `NoMemory` where there is no memory for the text.
pub fn generate(alloc: Global, number: u32) -> Result<Vec<u8>, NoMemory>
    ensures { IfOk result (λ text. text.items ≡ generated number) }
{
    let mut draws = TextDraws::new(number);
    let edges = draw_edges(alloc, &mut draws)?;
    let mut text = Vec::new(alloc);
    put_edges(&mut text, &edges)?;
    for _ in 0..BATCHES {
        put_drawn_batch(alloc, &mut text, &edges, &mut draws)?;
    }
    Ok(text)
}

/// Every generated text is an input: no line of it is refused. It tells the edges and the batches that were drawn.
pub fn a_generated_text_is_an_input()
    ensures input { (number : ℕ) → (told : Told) × (meaning KCORE (generated number) ≡ Means told)
        × (told.edges ≡ generated_edges number) × (batches told ≡ generated_batches number) }
    ensures short { (number : ℕ) → length (generated number) ≤ MOST_BYTES }
{}

/// A generated text has all its edge lines and batches, and no batch names a pair of ids twice.
pub fn a_generated_batch_names_each_pair_once()
    ensures edges { (number : ℕ) → length (generated_edges number) ≡ EDGE_LINES }
    ensures batches { (number : ℕ) → length (generated_batches number) ≡ BATCHES }
    ensures turns { (number : ℕ) → All (λ batch. length batch ≤ TURNS) (generated_batches number) }
    ensures once { (number : ℕ) → All NamesOnce (generated_batches number) }
{}
