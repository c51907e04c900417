//! The edges of a state, taken from their lines.
ghost use Rattle.std.specs.Prelude.{◌≡◌, ◌<◌, ◌≤◌, All, IfOk, OnOk, length};

use crate::fault::{ReadFault, StateKind};
use crate::state_line::pair_in;
use crate::text_lines::TextLines;
use kc_stream::Ids;
use std::alloc::Global;

/// Whether an edge is above the one before it.
fn ascends(before: Option<(u32, u32)>, edge: (u32, u32)) -> bool {
    match before {
        None => true,
        Some((u, v)) => u < edge.0 || (u == edge.0 && v < edge.1),
    }
}

/// The edge between two vertices behind another edge, or what is wrong with it.
fn edge_behind(before: Option<(u32, u32)>, u: u32, v: u32) -> Result<(u32, u32), StateKind>
    ensures { IfOk result (λ edge. (edge ≡ (u, v)) × (u < v)) }
{
    if u == v {
        return Err(StateKind::Loop);
    }
    if u < v && ascends(before, (u, v)) {
        Ok((u, v))
    } else {
        Err(StateKind::NotAscending)
    }
}

/// The edge that a line tells behind another edge, or what is wrong with it.
fn edge_in(ids: &Ids, before: Option<(u32, u32)>, line: &[u8]) -> Result<(u32, u32), StateKind>
    ensures { IfOk result (λ edge. (edge.0 < edge.1) × (edge.1 < length ids.now)) }
{
    let Some((a, b)) = pair_in(line) else {
        return Err(StateKind::NotAnEdge);
    };
    match (ids.number(a), ids.number(b)) {
        (Some(u), Some(v)) => edge_behind(before, u, v),
        _ => Err(StateKind::UnknownId),
    }
}

/// The edges of the next lines, so many.
pub(crate) fn read_edges(
    alloc: Global,
    lines: &mut TextLines,
    ids: &Ids,
    count: u64,
) -> Result<Vec<(u32, u32)>, ReadFault>
    ensures within { IfOk result (λ edges. All (λ e. (e.0 < e.1) × (e.1 < length ids.now)) edges.items) }
    ensures shorter { OnOk result (length lines.new.rest.now ≤ length lines.old.rest.now) }
{
    let mut edges = Vec::new(alloc);
    let mut before = None;
    for _ in 0..count {
        let line = lines.next_line()?;
        let edge = match edge_in(ids, before, line) {
            Ok(edge) => edge,
            Err(kind) => return Err(lines.fault(kind)),
        };
        if edges.push(edge).is_err() {
            return Err(ReadFault::NoMemory);
        }
        before = Some(edge);
    }
    Ok(edges)
}
