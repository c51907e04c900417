//! How many vertices and edges each k-core has.
//!
//! A count for each core number is made of the vertices, and one of the edges by the lesser core number of their ends. What is left of all
//! without the counts below k are those of the k-core. So the time is linear in the vertices and edges.
ghost use Rattle.std.specs.Prelude.{◌≡◌, ◌<◌, ◌+◌, ℕ, All, IfOk, count_by, length, map, nat_le};
ghost use Rattle.kc_flat.specs.Listing.{edge_list};
ghost use Rattle.kc_graph.specs.Core.{greatest};
ghost use Rattle.kc_graph.specs.Peeling.{at};
ghost use Rattle.kc_lists.specs.Lists.{times};
ghost use Rattle.kc_cores.specs.Sizes.{AreSizes, lesser_number};

use crate::summary::greatest;
use kc_flat::FlatGraph;
use kc_graph::NoMemory;
use std::alloc::Global;

/// At the place k of each list a count, for each k up to the greatest core number.
#[derive(Drop)]
pub(crate) struct CoreSizes {
    /// How many vertices have the core number k.
    pub(crate) shells: Vec<u64>,
    /// How many vertices the k-core has.
    pub(crate) vertices: Vec<u64>,
    /// How many edges the k-core has.
    pub(crate) edges: Vec<u64>,
}

/// Counts how often each number comes.
fn count_each(numbers: &[u32], counts: &mut [u64])
    requires within { All (λ n. n < length counts.old) numbers.now }
    requires none { (k : ℕ) → k < length counts.old → at counts.old k ≡ 0 }
    ensures len { length counts.new ≡ length counts.old }
    ensures each { (k : ℕ) → k < length counts.old → at counts.new k ≡ times k numbers.now }
{
    for number in numbers {
        counts[*number as usize] += 1;
    }
}

/// How often each number below `levels` comes.
fn counts_of(alloc: Global, numbers: &[u32], levels: usize) -> Result<Vec<u64>, NoMemory>
    requires { All (λ n. n < levels) numbers.now }
    ensures count { IfOk result (λ counts. length counts.items ≡ levels) }
    ensures each { IfOk result (λ counts. (k : ℕ) → k < levels → at counts.items k ≡ times k numbers.now) }
{
    let mut counts = vec![in alloc; 0u64; levels]?;
    count_each(numbers, &mut counts);
    Ok(counts)
}

/// For each k how many of the numbers are k or more, where `counts` has how often each comes.
fn at_least(alloc: Global, numbers: &[u32], counts: &[u64]) -> Result<Vec<u64>, NoMemory>
    requires { (k : ℕ) → k < length counts.now → at counts.now k ≡ times k numbers.now }
    ensures count { IfOk result (λ left. length left.items ≡ length counts.now) }
    ensures each { IfOk result (λ left. (k : ℕ) → k < length counts.now → at left.items k ≡ count_by (nat_le k) numbers.now) }
{
    let mut rest = numbers.len() as u64;
    let mut left = Vec::with_capacity(alloc, counts.len())?;
    for count in counts {
        left.push(rest)?;
        rest -= *count;
    }
    Ok(left)
}

/// For each edge the lesser core number of its ends.
fn lesser_numbers(alloc: Global, core: &[u32], edges: &[(u32, u32)]) -> Result<Vec<u32>, NoMemory>
    requires { All (λ e. (e.0 < length core.now) × (e.1 < length core.now)) edges.now }
    ensures { IfOk result (λ numbers. numbers.items ≡ map (lesser_number core.now) edges.now) }
{
    let mut numbers = Vec::with_capacity(alloc, edges.len())?;
    for edge in edges {
        let (first, second) = *edge;
        numbers.push(core[first as usize].min(core[second as usize]))?;
    }
    Ok(numbers)
}

/// For each k how many edges the k-core has.
fn edges_at_least(
    alloc: Global,
    graph: &FlatGraph,
    core: &[u32],
    levels: usize,
) -> Result<Vec<u64>, NoMemory>
    requires one_each { length core.now ≡ graph.now.size }
    requires within { All (λ n. n < levels) core.now }
    ensures count { IfOk result (λ counts. length counts.items ≡ levels) }
    ensures each { IfOk result (λ counts. (k : ℕ) → k < levels
        → at counts.items k ≡ count_by (nat_le k) (map (lesser_number core.now) (edge_list graph.now))) }
{
    let edges = graph.edge_list(alloc)?;
    let numbers = lesser_numbers(alloc, core, &edges)?;
    let counts = counts_of(alloc, &numbers, levels)?;
    at_least(alloc, &numbers, &counts)
}

/// The counts of a graph with these core numbers.
pub(crate) fn sizes_of(
    alloc: Global,
    graph: &FlatGraph,
    core: &[u32],
) -> Result<CoreSizes, NoMemory>
    requires { length core.now ≡ graph.now.size }
    ensures { IfOk result (λ sizes. AreSizes graph.now core.now sizes) }
{
    let levels = greatest(core) as usize + 1;
    let edges = edges_at_least(alloc, graph, core, levels)?;
    let shells = counts_of(alloc, core, levels)?;
    let vertices = at_least(alloc, core, &shells)?;
    Ok(CoreSizes {
        shells,
        vertices,
        edges,
    })
}
