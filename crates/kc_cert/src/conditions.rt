//! The conditions of the certificate, one function for each.
ghost use Rattle.std.specs.Prelude.{◌≡◌, ◌↔◌, ◌<◌, ℕ, IfOk, IsTrue, All, length, not, false, nat_le, slice_index, slice_index_or, count_by};
ghost use Rattle.kc_graph.specs.Certificate.{Enumerates};
ghost use Rattle.kc_cert.specs.Conditions.{NeverFalls, HasFewLater, HasEnoughAsHigh};

use crate::NoMemory;
use kc_graph::Graph;
use std::alloc::Global;

/// Whether the list has each number below `n` once, and nothing else.
pub(crate) fn is_enumeration(alloc: Global, n: u32, order: &[u32]) -> Result<bool, NoMemory>
    ensures { IfOk result (λ yes. IsTrue yes ↔ Enumerates n order.now) }
{
    if order.len() != n as usize {
        return Ok(false);
    }
    let mut seen = vec![in alloc; false; n as usize]?;
    for v in order {
        if *v >= n || seen[*v as usize] {
            return Ok(false);
        }
        seen[*v as usize] = true;
    }
    Ok(true)
}

/// Whether the numbers never fall along the order.
pub(crate) fn never_falls(core: &[u32], order: &[u32]) -> bool
    requires { All (λ v. v < length core.now) order.now }
    ensures { IsTrue result ↔ NeverFalls core.now order.now }
{
    let mut last = 0;
    for v in order {
        let number = core[*v as usize];
        if number < last {
            return false;
        }
        last = number;
    }
    true
}

/// How many of the vertices are not marked.
fn unmarked(vertices: &[u32], marks: &[bool]) -> usize
    requires { All (λ w. w < length marks.now) vertices.now }
    ensures { result ≡ count_by (λ w. not (slice_index_or marks.now w false)) vertices.now }
{
    vertices.iter().filter(|w| !marks[**w as usize]).count()
}

/// Whether each vertex has at most as many later neighbours as its number.
pub(crate) fn has_few_later(
    alloc: Global,
    graph: &Graph,
    core: &[u32],
    order: &[u32],
) -> Result<bool, NoMemory>
    requires one_each { length core.now ≡ graph.now.size }
    requires enumerates { Enumerates graph.now.size order.now }
    ensures { IfOk result (λ yes. IsTrue yes ↔ HasFewLater graph.now core.now order.now) }
{
    let mut passed = vec![in alloc; false; graph.vertices() as usize]?;
    for v in order {
        passed[*v as usize] = true;
        if unmarked(graph.neighbours(*v), &passed) > core[*v as usize] as usize {
            return Ok(false);
        }
    }
    Ok(true)
}

/// How many of the vertices have at least this number.
fn at_least(number: u32, vertices: &[u32], core: &[u32]) -> usize
    requires { All (λ w. w < length core.now) vertices.now }
    ensures { result ≡ count_by (λ w. nat_le number (slice_index core.now w)) vertices.now }
{
    vertices
        .iter()
        .filter(|w| core[**w as usize] >= number)
        .count()
}

/// Whether each vertex has at least as many neighbours whose number is no less as its number.
pub(crate) fn has_enough_as_high(graph: &Graph, core: &[u32]) -> bool
    requires { length core.now ≡ graph.now.size }
    ensures { IsTrue result ↔ HasEnoughAsHigh graph.now core.now }
{
    for v in 0..graph.vertices() {
        let number = core[v as usize];
        if at_least(number, graph.neighbours(v), core) < number as usize {
            return false;
        }
    }
    true
}
