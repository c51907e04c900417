//! Checks of certificates: whether numbers and an order show that the numbers are the core numbers of a graph.
//!
//! `check` tells for lists of any length and content whether they meet the certificate of `kc_graph`
//! (`kc_graph/specs/Certificate.antt`), in time linear in the edges. What it accepts are the core numbers (Seidman 1983), by the law of
//! that certificate. `conditions` has one function for each condition, with its own exact contract, and `specs/Conditions.antt` their
//! names.
//!
//! A plan of an update needs no whole check. It passes the local test of `specs/Local.antt` where its moves fit and the certificate
//! holds at the ends of the edge, at the vertices that move and at their neighbours. `local_plans_keep_the_certificate` is the law that
//! a certified state stays certified then, and `local_check` tells for any plan whether it passes, in any `State`, without making the
//! moves: `fitting` has whether they fit, `chains` compares shifted vertices, `arrangement` all vertices, and `tally` counts at one
//! (`specs/Stands.antt`, `Shifting.antt`). The crate stands on `kc_graph` and `kc_lists`.
#![tactic(auto)]

mod arrangement;
mod chains;
mod conditions;
mod fitting;
mod local;
mod places;
mod state;
mod tally;

ghost use Rattle.std.specs.Prelude.{◌≡◌, ◌↔◌, IfOk, IsTrue};
ghost use Rattle.kc_graph.specs.Certificate.{Certifies};
ghost use Rattle.kc_graph.specs.Core.{AreCoreNumbers};
ghost use Rattle.kc_graph.specs.Lawful.{IsCertified, Ranked};
ghost use Rattle.kc_graph.specs.Plans.{state_after};
ghost use Rattle.kc_graph.specs.declared.plan.Plan.{Plan};
ghost use Rattle.kc_cert.specs.Local.{IsLocal};

use crate::conditions::{has_enough_as_high, has_few_later, is_enumeration, never_falls};
use kc_graph::Graph;
pub use local::local_check;
pub use state::State;
pub use std::alloc::AllocError as NoMemory;
use std::alloc::Global;

/// Whether `core` has a number for each vertex of the graph, indexed by the vertex, and `order` certifies these numbers: it has each
/// vertex once, the numbers never fall along it, and each vertex has at most as many later neighbours as its number and at least as
/// many neighbours whose number is no less (Zhang, Yu, Zhang and Qin 2017). The numbers that it accepts are the core numbers.
///
/// The two lists may have any length and content. `NoMemory` comes where there is none for a mark for each vertex.
///
/// # Example
///
/// ```rust
/// use kc_cert::check;
/// use kc_graph::Graph;
///
/// let graph = Graph::from_pairs(alloc, 3, &[(0, 1), (0, 2), (1, 2)])?;
/// let right = check(alloc, &graph, &[2, 2, 2], &[0, 1, 2])?; // true
/// let too_low = check(alloc, &graph, &[1, 1, 1], &[0, 1, 2])?; // false: 0 has two later neighbours
/// let too_high = check(alloc, &graph, &[3, 3, 3], &[0, 1, 2])?; // false: no vertex has three neighbours
/// let twice = check(alloc, &graph, &[2, 2, 2], &[0, 1, 1])?; // false: 2 is not in the order
/// ```
pub fn check(alloc: Global, graph: &Graph, core: &[u32], order: &[u32]) -> Result<bool, NoMemory>
    ensures exact { IfOk result (λ yes. IsTrue yes ↔ Certifies graph.now core.now order.now) }
    ensures seidman { IfOk result (λ yes. IsTrue yes → AreCoreNumbers graph.now core.now) }
{
    let n = graph.vertices();
    if core.len() != n as usize || !is_enumeration(alloc, n, order)? {
        return Ok(false);
    }
    let rising = never_falls(core, order);
    let few_later = has_few_later(alloc, graph, core, order)?;
    let enough_as_high = has_enough_as_high(graph, core);
    Ok(rising && few_later && enough_as_high)
}

/// A state stays certified after a plan that passes the local test in it.
pub fn local_plans_keep_the_certificate()
    ensures { (s : Ranked) (plan : Plan) → IsCertified s → IsLocal s plan → IsCertified (state_after plan s) }
{}
