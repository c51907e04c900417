//! Ranks from core numbers: in which step each vertex is taken on its level.
//!
//! Who is on a higher level is left to the end, and who is on a lower one is never counted. So no level waits for another one, and each
//! step takes the next layer of all levels at once. Each vertex is kept with how many neighbours it has left. It joins the next layer when
//! these are no more than its core number.
ghost use Rattle.std.specs.Prelude.{◌≡◌, ◌≤◌, ◌<◌, ◌+◌, ◌-◌, ◌^◌, ℕ, true, false, All, List, [], ◌∷◌, ◌++◌, IfOk, OnOk, length, count_by, nat_le, slice_set};
ghost use Rattle.kc_lists.specs.Lists.{Distinct, member};
ghost use Rattle.kc_graph.specs.Bulk.{graph_with};
ghost use Rattle.kc_graph.specs.Core.{AreCoreNumbers};
ghost use Rattle.kc_graph.specs.Peeling.{as_high, at};
ghost use Rattle.kc_graph.specs.declared.bulk.Edge.{Edge};
ghost use Rattle.kc_tally.specs.Layers.{AreLayers};
ghost use Rattle.kc_tally.specs.Lists.{ListsEachOnce};
ghost use Rattle.kc_tally.specs.Taking.{IsFirstLayer, LetGo, TakesLayer, are_beside};
ghost use Rattle.kc_tally.specs.Tallies.{AreBetween, AreTallied};

use kc_graph::{Graph, NoMemory};
use std::alloc::Global;

/// The rank of a vertex that is not taken yet. No step has this number, since there are fewer steps than vertices.
const UNTAKEN: u32 = u32::MAX;

/// How many of the vertices have at least this number.
fn at_least(number: u32, vertices: &[u32], core: &[u32]) -> usize
    requires { All (λ w. w < length core.now) vertices.now }
    ensures { result ≡ count_by (λ w. nat_le number (at core.now w)) vertices.now }
{
    vertices
        .iter()
        .filter(|w| core[**w as usize] >= number)
        .count()
}

/// How many neighbours of each vertex have a number no less than its own.
fn counts_as_high(alloc: Global, graph: &Graph, core: &[u32]) -> Result<Vec<u32>, NoMemory>
    requires { length core.now ≡ graph.now.size }
    ensures one_each { IfOk result (λ left. length left.items ≡ graph.now.size) }
    ensures counted { IfOk result (λ left. (v : ℕ) → v < graph.now.size → at left.items v ≡ as_high graph.now core.now (at core.now v) v) }
{
    let vertices = graph.vertices();
    let mut left = Vec::with_capacity(alloc, vertices as usize)?;
    for v in 0..vertices {
        let count = at_least(core[v as usize], graph.neighbours(v), core);
        left.push(count as u32)?;
    }
    Ok(left)
}

/// The vertices that have no more neighbours left than their number.
fn first_layer(alloc: Global, core: &[u32], left: &[u32]) -> Result<Vec<u32>, NoMemory>
    requires one_each { length left.now ≡ length core.now }
    requires few { length core.now < 2 ^ 32 }
    ensures { IfOk result (λ layer. IsFirstLayer core.now left.now layer.items (length core.now)) }
{
    let mut layer = Vec::new(alloc);
    for v in 0..core.len() {
        if left[v] <= core[v] {
            layer.push(v as u32)?;
        }
    }
    Ok(layer)
}

/// One neighbour less is left to `w`, which joins the next layer if it has as many as its level now.
fn release(w: u32, level: u32, left: &mut [u32], next: &mut Vec<u32>) -> Result<(), NoMemory>
    requires w_in { w < length left.old }
    requires some_left { 0 < at left.old w }
    ensures left { OnOk result (left.new ≡ slice_set left.old w (at left.old w - 1)) }
    ensures joins { OnOk result (at left.old w ≡ level + 1 → next.new.items ≡ next.old.items ++ w ∷ []) }
    ensures stays { OnOk result ((at left.old w ≡ level + 1 → ⊥) → next.new.items ≡ next.old.items) }
{
    let fewer = left[w as usize] - 1;
    left[w as usize] = fewer;
    if fewer == level {
        next.push(w)?;
    }
    Ok(())
}

/// One neighbour less is left to each of these that is on the level.
fn release_each(
    neighbours: &[u32],
    core: &[u32],
    level: u32,
    left: &mut [u32],
    next: &mut Vec<u32>,
) -> Result<(), NoMemory>
    requires distinct { Distinct neighbours.now }
    requires within { (w : ℕ) → member w neighbours.now ≡ true → w < length left.old }
    requires one_each { length left.old ≡ length core.now }
    requires some_left { (w : ℕ) → member w neighbours.now ≡ true → at core.now w ≡ level → 0 < at left.old w }
    ensures { OnOk result (LetGo core.now level neighbours.now left.old next.old.items left.new next.new.items) }
{
    for w in neighbours {
        if core[*w as usize] == level {
            release(*w, level, left, next)?;
        }
    }
    Ok(())
}

/// Takes the vertices of a layer, and finds the next one.
fn take_layer(
    alloc: Global,
    graph: &Graph,
    core: &[u32],
    layer: &[u32],
    left: &mut [u32],
) -> Result<Vec<u32>, NoMemory>
    requires one_number { length core.now ≡ graph.now.size }
    requires one_each { length left.old ≡ graph.now.size }
    requires within { All (λ v. v < graph.now.size) layer.now }
    requires some_left { (v : ℕ) → v < graph.now.size → count_by (are_beside graph.now core.now v) layer.now ≤ at left.old v }
    ensures { IfOk result (λ next. TakesLayer graph.now core.now layer.now left.old left.new next.items) }
{
    let mut next = Vec::new(alloc);
    for v in layer {
        release_each(
            graph.neighbours(*v),
            core,
            core[*v as usize],
            left,
            &mut next,
        )?;
    }
    Ok(next)
}

/// The vertices have this rank.
fn rank_each(vertices: &[u32], step: u32, rank: &mut [u32])
    requires { All (λ v. v < length rank.old) vertices.now }
    ensures ranked { (v : ℕ) → member v vertices.now ≡ true → at rank.new v ≡ step }
    ensures others { (v : ℕ) → member v vertices.now ≡ false → at rank.new v ≡ at rank.old v }
{
    for v in vertices {
        rank[*v as usize] = step;
    }
}

/// Gives all vertices their ranks, layer by layer, from the first one on.
fn rank_by_layers(
    alloc: Global,
    graph: &Graph,
    core: &[u32],
    first: Vec<u32>,
    left: &mut [u32],
    rank: &mut [u32],
) -> Result<(), NoMemory>
    requires numbers { AreCoreNumbers graph.now core.now }
    requires one_left { length left.old ≡ graph.now.size }
    requires counted { (v : ℕ) → v < graph.now.size → at left.old v ≡ as_high graph.now core.now (at core.now v) v }
    requires first { IsFirstLayer core.now left.old first.items graph.now.size }
    requires one_rank { length rank.old ≡ graph.now.size }
    requires untaken { (v : ℕ) → v < graph.now.size → at rank.old v ≡ UNTAKEN }
    ensures { OnOk result (AreLayers graph.now core.now rank.new) }
{
    let _vertices = graph.vertices();
    let mut layer = first;
    let mut step = 0;
    rank_each(&layer, step, rank);
    while !layer.is_empty() {
        step += 1;
        layer = take_layer(alloc, graph, core, &layer, left)?;
        rank_each(&layer, step, rank);
    }
    Ok(())
}

/// The rank of each vertex by its layer: at each step, from 0 on, all vertices of a level are taken that have at most as many neighbours
/// as the level which are on a higher level, or on this one and not yet taken (the onion layers of Hébert-Dufresne, Grochow and Allard
/// 2016, counted on each level by itself). With these ranks the tally of core numbers agrees with them. The time is linear in the
/// vertices and edges. `NoMemory` comes where there is none for three numbers a vertex.
///
/// # Example
///
/// ```rust
/// use kc_graph::{Graph, core_numbers};
/// use kc_tally::layers;
///
/// // A path, from one end to the other.
/// let graph = Graph::from_pairs(alloc, 5, &[(0, 1), (1, 2), (2, 3), (3, 4)])?;
/// let core = core_numbers(alloc, &graph)?; // 1, 1, 1, 1, 1
/// let rank = layers(alloc, &graph, &core)?; // 0, 1, 2, 1, 0: the ends are taken first
/// ```
pub fn layers(alloc: Global, graph: &Graph, core: &[u32]) -> Result<Vec<u32>, NoMemory>
    requires { AreCoreNumbers graph.now core.now }
    ensures layers { IfOk result (λ rank. AreLayers graph.now core.now rank.items) }
    ensures agree { IfOk result (λ rank. (edges : List Edge) (later supporters : List ℕ) → ListsEachOnce (length core.now) edges
        → graph.now ≡ graph_with (length core.now) edges → AreTallied core.now rank.items edges later supporters
        → AreBetween core.now later supporters) }
{
    let vertices = graph.vertices();
    let mut left = counts_as_high(alloc, graph, core)?;
    let first = first_layer(alloc, core, &left)?;
    let mut rank = vec![in alloc; UNTAKEN; vertices as usize]?;
    rank_by_layers(alloc, graph, core, first, &mut left, &mut rank)?;
    Ok(rank)
}
