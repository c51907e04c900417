//! Core numbers by taking a vertex of least remaining degree again and again (Batagelj and Zaversnik 2003).
//!
//! One list has a number for each vertex: of one that is taken, its core number; of one that is left, how many neighbours it has left,
//! or the level where that is more. A vertex that is left stands in the bucket of its number. When a neighbour is taken it is put at
//! the end of the next lower bucket too, and stays in the old one: an entry whose vertex has a lesser number by now is passed over.
ghost use Rattle.std.specs.Prelude.{◌≡◌, ◌<◌, ◌≤◌, ◌+◌, ◌-◌, ◌^◌, ℕ, true, [], ◌∷◌, ◌++◌, IfOk, IfSome, MatchOption, OnOk, length, slice_index, slice_set};
ghost use Rattle.kc_lists.specs.Lists.{Distinct, member};
ghost use Rattle.kc_graph.specs.Core.{AreCoreNumbers, greatest};
ghost use Rattle.kc_graph.specs.Certificate.{Certifies};
ghost use Rattle.kc_graph.specs.Lawful.{IsCertified};
ghost use Rattle.kc_graph.specs.Rows.{lists, row};
ghost use Rattle.kc_graph.specs.Peeling.{at, remaining, Peels, Lowered, Files};

use crate::NoMemory;
use crate::graph::Graph;
use crate::lawful::Lawful;
use std::alloc::Global;

/// Core numbers of a graph, and an order of its vertices that certifies them.
#[derive(Drop)]
struct Removal {
    core: Vec<u32>,
    order: Vec<u32>,
}

/// Puts a vertex into a bucket.
pub(crate) fn push_into(buckets: &mut [Vec<u32>], b: u32, w: u32) -> Result<(), NoMemory>
    requires { b < length buckets.old }
    ensures { OnOk result (lists buckets.new ≡ slice_set (lists buckets.old) b (row (lists buckets.old) b ++ w ∷ [])) }
{
    let bucket = &mut buckets[b as usize];
    bucket.push(w)?;
    Ok(())
}

/// The vertex at this place of a bucket, if it has so many.
fn waiting(buckets: &[Vec<u32>], b: u32, turn: usize) -> Option<u32>
    requires { b < length buckets.now }
    ensures here { MatchOption result (length (row (lists buckets.now) b) ≤ turn)
        (λ v. (turn < length (row (lists buckets.now) b)) × (v ≡ slice_index (row (lists buckets.now) b) turn)) }
    ensures few { IfSome result (λ _. turn < 2 ^ 64 - 1) }
{
    buckets[b as usize].get(turn).copied()
}

/// Empties a bucket, and gives its memory back.
fn empty(buckets: &mut [Vec<u32>], b: u32)
    requires { b < length buckets.old }
    ensures { lists buckets.new ≡ slice_set (lists buckets.old) b [] }
{
    let bucket = &mut buckets[b as usize];
    let alloc = *bucket.allocator();
    *bucket = Vec::new(alloc);
}

/// One neighbour less is left to `w`.
fn lower(w: u32, core: &mut [u32], buckets: &mut [Vec<u32>]) -> Result<(), NoMemory>
    requires w_in { w < length core.old }
    requires some_left { 0 < at core.old w }
    requires left_in { at core.old w ≤ length buckets.old }
    ensures core { OnOk result (core.new ≡ slice_set core.old w (at core.old w - 1)) }
    ensures buckets { OnOk result (let b = at core.old w - 1 in
        lists buckets.new ≡ slice_set (lists buckets.old) b (row (lists buckets.old) b ++ w ∷ [])) }
{
    let left = core[w as usize] - 1;
    core[w as usize] = left;
    push_into(buckets, left, w)
}

/// One neighbour less is left to each of these that has more than `level` left.
fn lower_each(
    neighbours: &[u32],
    level: u32,
    core: &mut [u32],
    buckets: &mut [Vec<u32>],
) -> Result<(), NoMemory>
    requires distinct { Distinct neighbours.now }
    requires within { (w : ℕ) → member w neighbours.now ≡ true → w < length core.old }
    requires room { (w : ℕ) → member w neighbours.now ≡ true → level < at core.old w → at core.old w ≤ length buckets.old }
    ensures { OnOk result (Lowered level neighbours.now core.old (lists buckets.old) core.new (lists buckets.new)) }
{
    for w in neighbours {
        if core[*w as usize] > level {
            lower(*w, core, buckets)?;
        }
    }
    Ok(())
}

/// Takes vertices until each that is left has more than `level` neighbours left. Who comes into the bucket of the level first is taken
/// first: so the later ones have lost more neighbours when their turn comes, and fewer stand behind them in the order, which makes
/// searches from them short (Zhang, Yu, Zhang and Qin 2017).
fn drain(
    graph: &Graph,
    level: u32,
    core: &mut [u32],
    order: &mut Vec<u32>,
    buckets: &mut [Vec<u32>],
) -> Result<(), NoMemory>
    requires level_in { level < length buckets.old }
    requires peels { Peels graph.now level core.old order.old.items (lists buckets.old) }
    ensures { OnOk result (Peels graph.now (level + 1) core.new order.new.items (lists buckets.new)) }
{
    let mut turn = 0;
    while let Some(v) = waiting(buckets, level, turn) {
        turn += 1;
        if core[v as usize] == level {
            order.push(v)?;
            lower_each(graph.neighbours(v), level, core, buckets)?;
        }
    }
    empty(buckets, level);
    Ok(())
}

/// How many neighbours each vertex has.
fn degrees_of(alloc: Global, graph: &Graph) -> Result<Vec<u32>, NoMemory>
    ensures count { IfOk result (λ degrees. length degrees.items ≡ graph.now.size) }
    ensures each { IfOk result (λ degrees. (v : ℕ) → v < graph.now.size → at degrees.items v ≡ remaining graph.now [] v) }
{
    let n = graph.vertices();
    let mut degrees = Vec::with_capacity(alloc, n as usize)?;
    for v in 0..n {
        degrees.push(graph.neighbours(v).len() as u32)?;
    }
    Ok(degrees)
}

/// One more than the greatest of the numbers, or 0 where there is none.
fn levels_of(degrees: &[u32]) -> u32
    requires { (v : ℕ) → v < length degrees.now → at degrees.now v < 2 ^ 32 - 1 }
    ensures { (v : ℕ) → v < length degrees.now → at degrees.now v < result }
{
    let mut levels = 0;
    for degree in degrees {
        levels = levels.max(*degree + 1);
    }
    levels
}

/// A bucket for each number below `levels`, with each vertex in the one of its degree.
fn by_degree(alloc: Global, degrees: &[u32], levels: u32) -> Result<Vec<Vec<u32>>, NoMemory>
    requires each { (v : ℕ) → v < length degrees.now → at degrees.now v < levels }
    requires few { length degrees.now < 2 ^ 32 }
    ensures count { IfOk result (λ buckets. length buckets.items ≡ levels) }
    ensures files { IfOk result (λ buckets. Files degrees.now (length degrees.now) (lists buckets.items)) }
{
    let mut buckets: Vec<Vec<u32>> = Vec::with_capacity(alloc, levels as usize)?;
    for _ in 0..levels {
        buckets.push(Vec::new(alloc))?;
    }
    for (v, degree) in degrees.iter().enumerate() {
        push_into(&mut buckets, *degree, v as u32)?;
    }
    Ok(buckets)
}

/// Takes all vertices, those with the fewest neighbours left first.
fn peel(alloc: Global, graph: &Graph) -> Result<Removal, NoMemory>
    ensures { IfOk result (λ r. Certifies graph.now r.core.items r.order.items) }
{
    let mut core = degrees_of(alloc, graph)?;
    let mut order = Vec::with_capacity(alloc, graph.vertices() as usize)?;
    let levels = levels_of(&core);
    let mut buckets = by_degree(alloc, &core, levels)?;
    for level in 0..levels {
        drain(graph, level, &mut core, &mut order, &mut buckets)?;
    }
    Ok(Removal { core, order })
}

/// The same graph, copied, with its core numbers and an order that certifies them, in time linear in the edges (Batagelj and Zaversnik
/// 2003). Which of several such orders it is, is left open. `NoMemory` comes where there is none for the copy or the work.
///
/// # Example
///
/// ```rust
/// use kc_graph::{Graph, decompose};
///
/// // A triangle, and the vertex 3 that hangs on it.
/// let graph = Graph::from_pairs(alloc, 4, &[(0, 1), (0, 2), (1, 2), (2, 3)])?;
/// let state = decompose(alloc, &graph)?;
/// let core = state.core(); // 2, 2, 2, 1
/// let place = state.place(3); // 0: the numbers never fall along the order
/// ```
pub fn decompose(alloc: Global, graph: &Graph) -> Result<Lawful, NoMemory>
    ensures same { IfOk result (λ lawful. lawful.graph ≡ graph.now) }
    ensures certified { IfOk result (λ lawful. IsCertified lawful) }
{
    let Removal { core, order } = peel(alloc, graph)?;
    Lawful::new(alloc, graph.copy(alloc)?, core, order)
}

/// The graph with its core numbers and an order that certifies them, as `decompose` finds them but with no copy of the graph. Where there
/// is no memory for the work, the graph is dropped and the answer is `NoMemory`.
pub fn decompose_owned(alloc: Global, graph: Graph) -> Result<Lawful, NoMemory>
    ensures same { IfOk result (λ lawful. lawful.graph ≡ graph) }
    ensures certified { IfOk result (λ lawful. IsCertified lawful) }
{
    let Removal { core, order } = peel(alloc, &graph)?;
    Lawful::new(alloc, graph, core, order)
}

/// The core number of each vertex, indexed by the vertex, as `decompose` finds them but with no copy of the graph. `NoMemory` comes
/// where there is none for the work.
///
/// # Example
///
/// ```rust
/// use kc_graph::{Graph, core_numbers, greatest};
///
/// // A triangle, and the vertex 3 that hangs on it.
/// let graph = Graph::from_pairs(alloc, 4, &[(0, 1), (0, 2), (1, 2), (2, 3)])?;
/// let core = core_numbers(alloc, &graph)?; // 2, 2, 2, 1
/// let top = greatest(&core); // 2
/// ```
pub fn core_numbers(alloc: Global, graph: &Graph) -> Result<Vec<u32>, NoMemory>
    ensures { IfOk result (λ core. AreCoreNumbers graph.now core.items) }
{
    let removal = peel(alloc, graph)?;
    Ok(removal.core)
}

/// The greatest of the numbers, or 0 where there is none.
pub fn greatest(numbers: &[u32]) -> u32
    ensures { result ≡ greatest numbers.now }
{
    numbers.iter().fold(0, |top, n| top.max(*n))
}
