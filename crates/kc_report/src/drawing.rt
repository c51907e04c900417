//! What a generated text says, drawn one thing after another.
ghost use Rattle.std.specs.Prelude.{◌≡◌, ◌||◌, length, nat_eq, not, IfOk, OnOk};
ghost use Rattle.std.specs.HashSet.{contains};
ghost use Rattle.kc_text.specs.Batches.{is_pair, pair_of};
ghost use Rattle.kc_report.specs.declared.sizes.TheConstants.{EDGE_LINES, TURNS};
ghost use Rattle.kc_report.specs.TextDraws.{next_state};
ghost use Rattle.kc_report.specs.Generator.{drawn_batch, drawn_change, drawn_edges, drawn_pair, state_after_edges, state_after_turn, state_after_turns};
ghost use Rattle.kc_report.specs.Pairs.{GainsPair};

use crate::NoMemory;
use crate::draws::TextDraws;
use crate::sizes::{EDGE_LINES, IDS, TURNS};
use kc_text::ChangeLine;
use std::alloc::Global;
use std::collections::HashSet;

/// Draws two ids.
fn draw_pair(draws: &mut TextDraws) -> (u32, u32)
    ensures pair { result ≡ drawn_pair draws.old.state }
    ensures state { draws.new.state ≡ next_state (next_state draws.old.state) }
{
    let first = draws.below(IDS);
    (first, draws.below(IDS))
}

/// Draws the edges of all edge lines.
pub(crate) fn draw_edges(alloc: Global, draws: &mut TextDraws) -> Result<Vec<(u32, u32)>, NoMemory>
    ensures edges { IfOk result (λ edges. edges.items ≡ drawn_edges EDGE_LINES draws.old.state) }
    ensures state { OnOk result (draws.new.state ≡ state_after_edges EDGE_LINES draws.old.state) }
{
    let mut edges = Vec::with_capacity(alloc, EDGE_LINES as usize)?;
    for _ in 0..EDGE_LINES {
        edges.push(draw_pair(draws))?;
    }
    Ok(edges)
}

/// Draws a turn's change: an add of two ids, or a remove of an edge of the edge lines.
fn draw_change(edges: &[(u32, u32)], draws: &mut TextDraws) -> ChangeLine
    requires { length edges.now ≡ EDGE_LINES }
    ensures change { result ≡ drawn_change edges.now draws.old.state }
    ensures state { draws.new.state ≡ state_after_turn draws.old.state }
{
    if draws.below(2) == 0 {
        let (a, b) = draw_pair(draws);
        ChangeLine { add: true, a, b }
    } else {
        let (a, b) = edges[draws.below(EDGE_LINES) as usize];
        ChangeLine { add: false, a, b }
    }
}

/// Whether a change is the first of its pair, and no loop. Then its pair is put in.
fn is_new(pairs: &mut HashSet<(u32, u32)>, change: ChangeLine) -> Result<bool, NoMemory>
    ensures new { IfOk result (λ new. not new ≡ (nat_eq change.a change.b || contains is_pair pairs.old (pair_of change))) }
    ensures pairs { IfOk result (λ new. GainsPair pairs.old pairs.new change new) }
{
    if change.a == change.b {
        return Ok(false);
    }
    Ok(pairs.insert((change.a.min(change.b), change.a.max(change.b)))?)
}

/// Draws the changes of a batch.
pub(crate) fn draw_batch(
    alloc: Global,
    edges: &[(u32, u32)],
    draws: &mut TextDraws,
) -> Result<Vec<ChangeLine>, NoMemory>
    requires { length edges.now ≡ EDGE_LINES }
    ensures changes { IfOk result (λ changes. changes.items ≡ drawn_batch edges.now draws.old.state) }
    ensures state { OnOk result (draws.new.state ≡ state_after_turns TURNS draws.old.state) }
{
    let mut changes = Vec::new(alloc);
    let mut pairs = HashSet::new(alloc);
    for _ in 0..TURNS {
        let change = draw_change(edges, draws);
        if is_new(&mut pairs, change)? {
            changes.push(change)?;
        }
    }
    Ok(changes)
}
