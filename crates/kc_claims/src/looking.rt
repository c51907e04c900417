//! Looks lines through that are to tell edges that ascend between ids that are claimed, and puts these edges.
ghost use Rattle.std.specs.Prelude.{◌≡◌, ◌≤◌, ◌<◌, ◌+◌, ◌++◌, ◌∷◌, ◌^◌, ℕ, [], IfErr, IfOk, IfSome, List, None, OnOk, Some, is_none, is_some, length, true};
ghost use Rattle.std.specs.List.Sorted.{IsStrictlyIncreasing};
ghost use Rattle.kc_lists.specs.Lists.{member};
ghost use Rattle.kc_graph.specs.Peeling.{at};
ghost use Rattle.kc_graph.specs.declared.bulk.Edge.{Edge};
ghost use Rattle.kc_text.specs.Forms.{all_said};
ghost use Rattle.kc_claims.specs.LineFaults.{ascends, fault_or, first_line_fault, last_pair, line_fault, pair_after, pair_fault};
ghost use Rattle.kc_claims.specs.Places.{ArePlaces};
ghost use Rattle.kc_claims.specs.Sweeping.{AreToldBy, named};

use crate::edge_line::next_line;
use crate::fault::LineFault;
use crate::places::Places;
use kc_graph::{Edge, NoMemory};
use kc_text::{Kind, TextLine};

/// What was found in lines, up to the first that is wrong.
#[derive(Clone, Copy)]
pub(crate) struct Looked {
    /// How many lines were looked at.
    pub(crate) lines: usize,
    /// The pair that came last.
    pub(crate) last: Option<(u32, u32)>,
    /// What is wrong with the last line that was looked at.
    pub(crate) fault: Option<LineFault>,
}

/// Whether a pair has its lesser id first and is above the one before it.
fn ascends(before: Option<(u32, u32)>, a: u32, b: u32) -> bool
    ensures { result ≡ ascends before a b }
{
    match before {
        None => a < b,
        Some((c, d)) => a < b && (c < a || (c == a && d < b)),
    }
}

/// The place of an id, which has one where it is one of these.
fn place_among(ids: &[u32], places: &Places, id: u32) -> Option<u32>
    requires ascending { IsStrictlyIncreasing ids.now }
    requires few { length ids.now < 2 ^ 32 }
    requires placed { ArePlaces ids.now places.now }
    ensures among { is_some result ≡ member id ids.now }
    ensures place { IfSome result (λ v. at ids.now v ≡ id) }
{
    match places.place(ids, id) {
        Some(v) => Some(v),
        None => None,
    }
}

/// The edge between the places of a pair's ids, or what is wrong with the pair.
fn edge_between(
    ids: &[u32],
    places: &Places,
    before: Option<(u32, u32)>,
    a: u32,
    b: u32,
) -> Result<Edge, LineFault>
    requires ascending { IsStrictlyIncreasing ids.now }
    requires few { length ids.now < 2 ^ 32 }
    requires placed { ArePlaces ids.now places.now }
    ensures wrong { IfErr result (λ fault. pair_fault ids.now before a b ≡ Some fault) }
    ensures clean { OnOk result (pair_fault ids.now before a b ≡ None) }
    ensures edge { IfOk result (λ edge. named ids.now edge ≡ (a, b)) }
{
    if !ascends(before, a, b) {
        return Err(LineFault::Descends);
    }
    let Some(u) = place_among(ids, places, a) else {
        return Err(LineFault::Unclaimed(a));
    };
    let Some(v) = place_among(ids, places, b) else {
        return Err(LineFault::Unclaimed(b));
    };
    Ok(Edge { u, v })
}

/// Puts the edge that a line tells behind others, if it tells one. Gives what is wrong with the line.
fn look_at(
    ids: &[u32],
    places: &Places,
    before: Option<(u32, u32)>,
    line: TextLine,
    edges: &mut Vec<Edge>,
) -> Result<Option<LineFault>, NoMemory>
    requires ascending { IsStrictlyIncreasing ids.now }
    requires few { length ids.now < 2 ^ 32 }
    requires placed { ArePlaces ids.now places.now }
    ensures fault { IfOk result (λ fault. fault ≡ line_fault ids.now before line) }
    ensures told { IfOk result (λ fault. is_none fault ≡ true
        → (told : List Edge) × AreToldBy ids.now (line ∷ []) told × (edges.new.items ≡ edges.old.items ++ told)) }
{
    match line {
        TextLine::Nothing => Ok(None),
        TextLine::Edge(a, b) => match edge_between(ids, places, before, a, b) {
            Ok(edge) => {
                edges.push(edge)?;
                Ok(None)
            }
            Err(fault) => Ok(Some(fault)),
        },
        TextLine::Batch => Ok(Some(LineFault::Refused(Kind::TooManyBatches))),
        TextLine::Change(_) => Ok(Some(LineFault::Refused(Kind::UpdateOutsideBatch))),
        TextLine::Wrong(kind) => Ok(Some(LineFault::Refused(kind))),
    }
}

/// The last pair, once a line has come behind this one.
fn pair_after(before: Option<(u32, u32)>, line: TextLine) -> Option<(u32, u32)>
    ensures { result ≡ pair_after before line }
{
    match line {
        TextLine::Edge(a, b) => Some((a, b)),
        _ => before,
    }
}

/// Looks lines through that come behind this pair, up to the first that is wrong, and puts their edges behind others.
pub(crate) fn look(
    ids: &[u32],
    places: &Places,
    before: Option<(u32, u32)>,
    lines: &[u8],
    edges: &mut Vec<Edge>,
) -> Result<Looked, NoMemory>
    requires ascending { IsStrictlyIncreasing ids.now }
    requires few { length ids.now < 2 ^ 32 }
    requires placed { ArePlaces ids.now places.now }
    ensures first { IfOk result (λ looked. (done : ℕ) → first_line_fault ids.now done before (all_said lines.now)
        ≡ fault_or (done + looked.lines) looked.fault None) }
    ensures last { IfOk result (λ looked. is_none looked.fault ≡ true → looked.last ≡ last_pair before (all_said lines.now)) }
    ensures counted { IfOk result (λ looked. is_none looked.fault ≡ true → looked.lines ≡ length (all_said lines.now)) }
    ensures few_lines { IfOk result (λ looked. looked.lines ≤ length lines.now) }
    ensures told { IfOk result (λ looked. is_none looked.fault ≡ true
        → (told : List Edge) × AreToldBy ids.now (all_said lines.now) told × (edges.new.items ≡ edges.old.items ++ told)) }
{
    let mut last = before;
    let mut seen = 0;
    let mut rest = lines;
    while let Some((line, more)) = next_line(rest) {
        seen += 1;
        let wrong = look_at(ids, places, last, line, edges)?;
        if let Some(fault) = wrong {
            return Ok(Looked {
                lines: seen,
                last,
                fault: Some(fault),
            });
        }
        last = pair_after(last, line);
        rest = more;
    }
    Ok(Looked {
        lines: seen,
        last,
        fault: None,
    })
}
