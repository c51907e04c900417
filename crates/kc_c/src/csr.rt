//! The calls for a graph that is given by the neighbours of each vertex, in one list that is cut by offsets (CSR).
//!
//! An entry of a row is an edge between the row's vertex and the entry. So a row may have its neighbours in any order, an edge may be in the
//! rows of both ends or in one of them, a loop is dropped, and what comes again counts once.
ghost use Rattle.std.specs.Prelude.{◌≡◌, ◌≢◌, ◌≤◌, None, length, take, drop};
ghost use Rattle.kc_graph.specs.Certificate.{Certifies};
ghost use Rattle.kc_graph.specs.Core.{AreCoreNumbers};
ghost use Rattle.kc_keeper.specs.Members.{AreCoreMembers};
ghost use Rattle.kc_c.specs.Answers.{answer_to};
ghost use Rattle.kc_c.specs.Csr.{graph_of_rows, rows_answer, csr_fault};
ghost use Rattle.kc_c.specs.Tallying.{if_length};

use crate::answer::{CallResult, Refusal, answer_to};
use crate::members::write_at_least;
use crate::rows::graph_of_rows;
use kc_cert::check;
use kc_graph::{core_numbers, decompose_owned};
use std::alloc::Global;

/// Writes the core numbers of the graph with these rows.
fn write_core_numbers(
    alloc: Global,
    vertices: u32,
    offsets: &[u64],
    neighbours: &[u32],
    core: &mut [u32],
) -> Result<usize, Refusal>
    ensures done { (answer_to result).status ≡ 0 → AreCoreNumbers (graph_of_rows vertices offsets.now neighbours.now) core.new }
    ensures rows { (answer_to result).status ≡ 0 → csr_fault vertices offsets.now neighbours.now ≡ None }
    ensures one_each { (answer_to result).status ≡ 0 → length core.old ≡ vertices }
    ensures no_place { (answer_to result).status ≡ 0 → (answer_to result).number ≡ 0 }
    ensures refused { (answer_to result).status ≢ 0
        → answer_to result ≡ if_length vertices (length core.old) 1 (rows_answer vertices offsets.now neighbours.now) }
    ensures kept { (answer_to result).status ≢ 0 → core.new ≡ core.old }
{
    if core.len() != vertices as usize {
        return Err(Refusal::WrongCoreLength);
    }
    let graph = graph_of_rows(alloc, vertices, offsets, neighbours)?;
    match core_numbers(alloc, &graph) {
        Ok(numbers) => {
            core.copy_from_slice(&numbers);
            Ok(0)
        }
        Err(_) => Err(Refusal::NoMemory),
    }
}

/// Writes the core numbers of the graph with these rows and an order that certifies them.
fn write_decomposition(
    alloc: Global,
    vertices: u32,
    offsets: &[u64],
    neighbours: &[u32],
    core: &mut [u32],
    order: &mut [u32],
) -> Result<usize, Refusal>
    ensures certified { (answer_to result).status ≡ 0 → Certifies (graph_of_rows vertices offsets.now neighbours.now) core.new order.new }
    ensures seidman { (answer_to result).status ≡ 0 → AreCoreNumbers (graph_of_rows vertices offsets.now neighbours.now) core.new }
    ensures rows { (answer_to result).status ≡ 0 → csr_fault vertices offsets.now neighbours.now ≡ None }
    ensures one_each { (answer_to result).status ≡ 0 → length core.old ≡ vertices }
    ensures ordered { (answer_to result).status ≡ 0 → length order.old ≡ vertices }
    ensures no_place { (answer_to result).status ≡ 0 → (answer_to result).number ≡ 0 }
    ensures refused { (answer_to result).status ≢ 0 → answer_to result
        ≡ if_length vertices (length core.old) 1 (if_length vertices (length order.old) 2 (rows_answer vertices offsets.now neighbours.now)) }
    ensures core_kept { (answer_to result).status ≢ 0 → core.new ≡ core.old }
    ensures order_kept { (answer_to result).status ≢ 0 → order.new ≡ order.old }
{
    if core.len() != vertices as usize {
        return Err(Refusal::WrongCoreLength);
    }
    if order.len() != vertices as usize {
        return Err(Refusal::WrongOrderLength);
    }
    let graph = graph_of_rows(alloc, vertices, offsets, neighbours)?;
    match decompose_owned(alloc, graph) {
        Ok(lawful) => {
            core.copy_from_slice(lawful.core());
            order.copy_from_slice(lawful.order());
            Ok(0)
        }
        Err(_) => Err(Refusal::NoMemory),
    }
}

/// Whether the order certifies the numbers for the graph with these rows.
fn check_numbers(
    alloc: Global,
    vertices: u32,
    offsets: &[u64],
    neighbours: &[u32],
    core: &[u32],
    order: &[u32],
) -> Result<usize, Refusal>
    ensures certified { (answer_to result).status ≡ 0 → Certifies (graph_of_rows vertices offsets.now neighbours.now) core.now order.now }
    ensures seidman { (answer_to result).status ≡ 0 → AreCoreNumbers (graph_of_rows vertices offsets.now neighbours.now) core.now }
    ensures not_certified { (answer_to result).status ≡ 6
        → Certifies (graph_of_rows vertices offsets.now neighbours.now) core.now order.now → ⊥ }
    ensures rows { (answer_to result).status ≡ 0 → csr_fault vertices offsets.now neighbours.now ≡ None }
    ensures not_certified_rows { (answer_to result).status ≡ 6 → csr_fault vertices offsets.now neighbours.now ≡ None }
    ensures no_place { (answer_to result).status ≡ 0 → (answer_to result).number ≡ 0 }
    ensures not_certified_place { (answer_to result).status ≡ 6 → (answer_to result).number ≡ 0 }
    ensures refused { (answer_to result).status ≢ 0 → (answer_to result).status ≢ 6
        → answer_to result ≡ rows_answer vertices offsets.now neighbours.now }
{
    let graph = graph_of_rows(alloc, vertices, offsets, neighbours)?;
    match check(alloc, &graph, core, order) {
        Ok(true) => Ok(0),
        Ok(false) => Err(Refusal::NotCertified),
        Err(_) => Err(Refusal::NoMemory),
    }
}

/// Writes the members of the k-core of the graph with these rows, and tells how many there are.
fn write_k_core(
    alloc: Global,
    vertices: u32,
    offsets: &[u64],
    neighbours: &[u32],
    k: u32,
    members: &mut [u32],
) -> Result<usize, Refusal>
    ensures done { (answer_to result).status ≡ 0
        → AreCoreMembers (graph_of_rows vertices offsets.now neighbours.now) k (take (answer_to result).number members.new) }
    ensures places { (answer_to result).status ≡ 0 → (answer_to result).number ≤ length members.new }
    ensures rest { (answer_to result).status ≡ 0 → drop (answer_to result).number members.new ≡ drop (answer_to result).number members.old }
    ensures rows { (answer_to result).status ≡ 0 → csr_fault vertices offsets.now neighbours.now ≡ None }
    ensures one_each { (answer_to result).status ≡ 0 → length members.old ≡ vertices }
    ensures refused { (answer_to result).status ≢ 0
        → answer_to result ≡ if_length vertices (length members.old) 3 (rows_answer vertices offsets.now neighbours.now) }
    ensures kept { (answer_to result).status ≢ 0 → members.new ≡ members.old }
{
    if members.len() != vertices as usize {
        return Err(Refusal::WrongMembersLength);
    }
    let graph = graph_of_rows(alloc, vertices, offsets, neighbours)?;
    match core_numbers(alloc, &graph) {
        Ok(core) => Ok(write_at_least(k, &core, members)),
        Err(_) => Err(Refusal::NoMemory),
    }
}

/// Writes the core number of each vertex to its place in `core`. `neighbours` has the entries of the rows of all vertices, and `offsets` one
/// place more than there are vertices: 0, and then for each row before which entry it ends.
#[unsafe(no_mangle)]
pub extern "C" fn kcore_core_numbers_csr(
    alloc: Global,
    vertices: u32,
    offsets: &[u64],
    neighbours: &[u32],
    core: &mut [u32],
) -> CallResult
    ensures done { result.status ≡ 0 → AreCoreNumbers (graph_of_rows vertices offsets.now neighbours.now) core.new }
    ensures rows { result.status ≡ 0 → csr_fault vertices offsets.now neighbours.now ≡ None }
    ensures one_each { result.status ≡ 0 → length core.old ≡ vertices }
    ensures no_place { result.status ≡ 0 → result.number ≡ 0 }
    ensures refused { result.status ≢ 0
        → result ≡ if_length vertices (length core.old) 1 (rows_answer vertices offsets.now neighbours.now) }
    ensures kept { result.status ≢ 0 → core.new ≡ core.old }
{
    answer_to(write_core_numbers(alloc, vertices, offsets, neighbours, core))
}

/// Writes the core number of each vertex to its place in `core`, and to `order` the vertices in an order that certifies these numbers.
#[unsafe(no_mangle)]
pub extern "C" fn kcore_degeneracy_order_csr(
    alloc: Global,
    vertices: u32,
    offsets: &[u64],
    neighbours: &[u32],
    core: &mut [u32],
    order: &mut [u32],
) -> CallResult
    ensures certified { result.status ≡ 0 → Certifies (graph_of_rows vertices offsets.now neighbours.now) core.new order.new }
    ensures seidman { result.status ≡ 0 → AreCoreNumbers (graph_of_rows vertices offsets.now neighbours.now) core.new }
    ensures rows { result.status ≡ 0 → csr_fault vertices offsets.now neighbours.now ≡ None }
    ensures one_each { result.status ≡ 0 → length core.old ≡ vertices }
    ensures ordered { result.status ≡ 0 → length order.old ≡ vertices }
    ensures no_place { result.status ≡ 0 → result.number ≡ 0 }
    ensures refused { result.status ≢ 0 → result
        ≡ if_length vertices (length core.old) 1 (if_length vertices (length order.old) 2 (rows_answer vertices offsets.now neighbours.now)) }
    ensures core_kept { result.status ≢ 0 → core.new ≡ core.old }
    ensures order_kept { result.status ≢ 0 → order.new ≡ order.old }
{
    answer_to(write_decomposition(alloc, vertices, offsets, neighbours, core, order))
}

/// Whether `core` has a number for each vertex and `order` certifies these numbers, which are the core numbers then. Both may have any
/// length and content.
#[unsafe(no_mangle)]
pub extern "C" fn kcore_check_csr(
    alloc: Global,
    vertices: u32,
    offsets: &[u64],
    neighbours: &[u32],
    core: &[u32],
    order: &[u32],
) -> CallResult
    ensures certified { result.status ≡ 0 → Certifies (graph_of_rows vertices offsets.now neighbours.now) core.now order.now }
    ensures seidman { result.status ≡ 0 → AreCoreNumbers (graph_of_rows vertices offsets.now neighbours.now) core.now }
    ensures not_certified { result.status ≡ 6 → Certifies (graph_of_rows vertices offsets.now neighbours.now) core.now order.now → ⊥ }
    ensures rows { result.status ≡ 0 → csr_fault vertices offsets.now neighbours.now ≡ None }
    ensures not_certified_rows { result.status ≡ 6 → csr_fault vertices offsets.now neighbours.now ≡ None }
    ensures no_place { result.status ≡ 0 → result.number ≡ 0 }
    ensures not_certified_place { result.status ≡ 6 → result.number ≡ 0 }
    ensures refused { result.status ≢ 0 → result.status ≢ 6 → result ≡ rows_answer vertices offsets.now neighbours.now }
{
    answer_to(check_numbers(alloc, vertices, offsets, neighbours, core, order))
}

/// Writes the vertices of the k-core to the front of `members`, in ascending order; `number` is how many there are. What stands behind
/// them in `members` stays as it was.
#[unsafe(no_mangle)]
pub extern "C" fn kcore_k_core_csr(
    alloc: Global,
    vertices: u32,
    offsets: &[u64],
    neighbours: &[u32],
    k: u32,
    members: &mut [u32],
) -> CallResult
    ensures done { result.status ≡ 0 → AreCoreMembers (graph_of_rows vertices offsets.now neighbours.now) k (take result.number members.new) }
    ensures places { result.status ≡ 0 → result.number ≤ length members.new }
    ensures rest { result.status ≡ 0 → drop result.number members.new ≡ drop result.number members.old }
    ensures rows { result.status ≡ 0 → csr_fault vertices offsets.now neighbours.now ≡ None }
    ensures one_each { result.status ≡ 0 → length members.old ≡ vertices }
    ensures refused { result.status ≢ 0
        → result ≡ if_length vertices (length members.old) 3 (rows_answer vertices offsets.now neighbours.now) }
    ensures kept { result.status ≢ 0 → members.new ≡ members.old }
{
    answer_to(write_k_core(alloc, vertices, offsets, neighbours, k, members))
}
