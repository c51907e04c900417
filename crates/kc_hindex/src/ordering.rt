//! An order that certifies core numbers which are known.
//!
//! A vertex may be taken once it has no more neighbours left than its core number; those that may wait in a row for each level. Level by
//! level they are taken, and each neighbour of one that is taken has one less left. No level keeps a vertex: those that were left would
//! each have more neighbours among them than the level, so they would be in a higher core (Batagelj and Zaversnik 2003 take vertices so
//! to find the numbers).
ghost use Rattle.std.specs.Prelude.{◌≡◌, ◌<◌, ◌≤◌, ◌+◌, ◌-◌, ◌^◌, ℕ, true, [], ◌∷◌, ◌++◌, IfOk, OnOk, IfSome, IfNone, length, slice_set};
ghost use Rattle.kc_lists.specs.Lists.{Distinct, member};
ghost use Rattle.kc_graph.specs.Core.{AreCoreNumbers};
ghost use Rattle.kc_graph.specs.Certificate.{Certifies};
ghost use Rattle.kc_graph.specs.Peeling.{at};
ghost use Rattle.kc_graph.specs.Rows.{lists, row};
ghost use Rattle.kc_hindex.specs.Rounds.{HasRound};
ghost use Rattle.kc_hindex.specs.Ordering.{IsNext, Orders, Released, Sorted};

use crate::degrees::degrees_of;
use kc_graph::{Graph, Lawful, NoMemory};
use std::alloc::Global;

/// Puts a vertex at the end of a row.
fn push_into(rows: &mut [Vec<u32>], b: u32, w: u32) -> Result<(), NoMemory>
    requires { b < length rows.old }
    ensures { OnOk result (lists rows.new ≡ slice_set (lists rows.old) b (row (lists rows.old) b ++ w ∷ [])) }
{
    let row = &mut rows[b as usize];
    row.push(w)?;
    Ok(())
}

/// Takes the last vertex out of a row.
fn pop_from(rows: &mut [Vec<u32>], b: u32) -> Option<u32>
    requires { b < length rows.old }
    ensures some { IfSome result (λ v. lists rows.old ≡ slice_set (lists rows.new) b (row (lists rows.new) b ++ v ∷ [])) }
    ensures none { IfNone result ((lists rows.new ≡ lists rows.old) × (row (lists rows.new) b ≡ [])) }
{
    let row = &mut rows[b as usize];
    row.pop()
}

/// One neighbour less is left to `w`, which waits if it has no more than its core number now.
fn release(w: u32, core: &[u32], left: &mut [u32], waiting: &mut [Vec<u32>]) -> Result<(), NoMemory>
    requires w_in { w < length left.old }
    requires one_each { length left.old ≡ length core.now }
    requires more { at core.now w < at left.old w }
    requires level_in { at core.now w < length waiting.old }
    ensures left { OnOk result (left.new ≡ slice_set left.old w (at left.old w - 1)) }
    ensures waits { OnOk result (at left.old w ≡ at core.now w + 1 → let b = at core.now w in
        lists waiting.new ≡ slice_set (lists waiting.old) b (row (lists waiting.old) b ++ w ∷ [])) }
    ensures stays { OnOk result ((at left.old w ≡ at core.now w + 1 → ⊥) → lists waiting.new ≡ lists waiting.old) }
{
    let level = core[w as usize];
    let fewer = left[w as usize] - 1;
    left[w as usize] = fewer;
    if fewer == level {
        push_into(waiting, level, w)?;
    }
    Ok(())
}

/// One neighbour less is left to each of these that has more left than its core number.
fn release_each(
    neighbours: &[u32],
    core: &[u32],
    left: &mut [u32],
    waiting: &mut [Vec<u32>],
) -> Result<(), NoMemory>
    requires distinct { Distinct neighbours.now }
    requires within { (w : ℕ) → member w neighbours.now ≡ true → w < length left.old }
    requires one_each { length left.old ≡ length core.now }
    requires levels { (v : ℕ) → v < length core.now → at core.now v < length waiting.old }
    ensures { OnOk result (Released core.now neighbours.now left.old (lists waiting.old) left.new (lists waiting.new)) }
{
    for w in neighbours {
        if left[*w as usize] > core[*w as usize] {
            release(*w, core, left, waiting)?;
        }
    }
    Ok(())
}

/// Takes a vertex that has no more neighbours left than its core number.
fn take_vertex(
    graph: &Graph,
    v: u32,
    core: &[u32],
    left: &mut [u32],
    order: &mut Vec<u32>,
    waiting: &mut [Vec<u32>],
) -> Result<(), NoMemory>
    requires next { IsNext graph.now core.now (at core.now v) v left.old order.old.items (lists waiting.old) }
    requires levels { (v : ℕ) → v < length core.now → at core.now v < length waiting.old }
    ensures orders { OnOk result (Orders graph.now core.now (at core.now v) left.new order.new.items (lists waiting.new)) }
    ensures longer { OnOk result (length order.new.items ≡ length order.old.items + 1) }
    ensures one_row { OnOk result (length waiting.new ≡ length waiting.old) }
{
    order.push(v)?;
    release_each(graph.neighbours(v), core, left, waiting)
}

/// Takes all vertices of a level.
fn take_level(
    graph: &Graph,
    core: &[u32],
    level: u32,
    left: &mut [u32],
    order: &mut Vec<u32>,
    waiting: &mut [Vec<u32>],
) -> Result<(), NoMemory>
    requires numbers { AreCoreNumbers graph.now core.now }
    requires level_in { level < length waiting.old }
    requires levels { (v : ℕ) → v < length core.now → at core.now v < length waiting.old }
    requires orders { Orders graph.now core.now level left.old order.old.items (lists waiting.old) }
    ensures orders { OnOk result (Orders graph.now core.now (level + 1) left.new order.new.items (lists waiting.new)) }
    ensures one_row { OnOk result (length waiting.new ≡ length waiting.old) }
{
    while let Some(v) = pop_from(waiting, level) {
        take_vertex(graph, v, core, left, order, waiting)?;
    }
    Ok(())
}

/// One more than the greatest of the numbers, or 0 where there is none.
fn levels_of(core: &[u32]) -> u32
    requires { (v : ℕ) → v < length core.now → at core.now v < 2 ^ 32 - 1 }
    ensures { (v : ℕ) → v < length core.now → at core.now v < result }
{
    let mut levels = 0;
    for number in core {
        levels = levels.max(*number + 1);
    }
    levels
}

/// An empty row for each level.
fn rows_of(alloc: Global, levels: u32) -> Result<Vec<Vec<u32>>, NoMemory>
    ensures count { IfOk result (λ rows. length rows.items ≡ levels) }
    ensures empty { IfOk result (λ rows. (b : ℕ) → row (lists rows.items) b ≡ []) }
{
    let mut rows: Vec<Vec<u32>> = Vec::with_capacity(alloc, levels as usize)?;
    for _ in 0..levels {
        rows.push(Vec::new(alloc))?;
    }
    Ok(rows)
}

/// Puts each vertex that may be taken at once into the row of its level.
fn put_first(core: &[u32], left: &[u32], waiting: &mut [Vec<u32>]) -> Result<(), NoMemory>
    requires one_each { length left.now ≡ length core.now }
    requires few { length core.now < 2 ^ 32 }
    requires levels { (v : ℕ) → v < length core.now → at core.now v < length waiting.old }
    requires empty { (b : ℕ) → row (lists waiting.old) b ≡ [] }
    ensures sorted { OnOk result (Sorted core.now left.now (length core.now) (lists waiting.new)) }
    ensures one_row { OnOk result (length waiting.new ≡ length waiting.old) }
{
    for v in 0..core.len() {
        if left[v] == core[v] {
            push_into(waiting, core[v], v as u32)?;
        }
    }
    Ok(())
}

/// An order that certifies the core numbers.
fn order_of(alloc: Global, graph: &Graph, core: &[u32]) -> Result<Vec<u32>, NoMemory>
    requires { AreCoreNumbers graph.now core.now }
    ensures { IfOk result (λ order. Certifies graph.now core.now order.items) }
{
    let _vertices = graph.vertices();
    let mut left = degrees_of(alloc, graph)?;
    let levels = levels_of(core);
    let mut waiting = rows_of(alloc, levels)?;
    put_first(core, &left, &mut waiting)?;
    let mut order = Vec::with_capacity(alloc, core.len())?;
    for level in 0..levels {
        take_level(graph, core, level, &mut left, &mut order, &mut waiting)?;
    }
    Ok(order)
}

/// The graph with its core numbers, which are known, and an order that certifies them, in time linear in the edges. `core` has the core
/// number of each vertex, indexed by the vertex. Where there is no memory both are dropped and the answer is `NoMemory`.
///
/// # Example
///
/// ```rust
/// use kc_graph::{Graph, core_numbers};
/// use kc_hindex::lawful;
///
/// // A triangle, and the vertex 3 that hangs on it.
/// let graph = Graph::from_pairs(alloc, 4, &[(0, 1), (0, 2), (1, 2), (2, 3)])?;
/// let core = core_numbers(alloc, &graph)?; // 2, 2, 2, 1
/// let state = lawful(alloc, graph, core)?;
/// let place = state.place(3); // 0: the numbers never fall along the order
/// ```
pub fn lawful(alloc: Global, graph: Graph, core: Vec<u32>) -> Result<Lawful, NoMemory>
    requires { AreCoreNumbers graph core.items }
    ensures graph { IfOk result (λ lawful. lawful.graph ≡ graph) }
    ensures core { IfOk result (λ lawful. lawful.core ≡ core.items) }
    ensures certified { IfOk result (λ lawful. Certifies lawful.graph lawful.core lawful.order) }
{
    let order = order_of(alloc, &graph, &core)?;
    Lawful::new(alloc, graph, core, order)
}
