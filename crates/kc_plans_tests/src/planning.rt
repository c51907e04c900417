//! Plans, and the states after them.
ghost use Rattle.std.specs.Prelude.{◌≡◌, ◌<◌, IsTrue};
ghost use Rattle.kc_graph.specs.Certificate.{Certifies};
ghost use Rattle.kc_view.specs.Answers.{nothing_answered};

use crate::levels::Levels;
use kc_cert::{check, local_check};
use kc_graph::{Graph, Lawful, Moves, NoMemory, Plan, Update, decompose};
use kc_view::{PlainView, PlanFault, View};
use std::alloc::Global;
use std::process::Abort;

/// The plan of an update over a view, by the planner that it is for.
pub(crate) fn plan_over<V: View>(
    alloc: Global,
    view: &mut V,
    update: Update,
) -> Result<Plan, PlanFault>
    requires vertex { update.v < (V.shown view.old).size }
    requires fresh { (V.shown view.old).kept ≡ nothing_answered }
{
    if update.add {
        kc_insert::plan(alloc, view, update)
    } else {
        kc_remove::plan(alloc, view, update)
    }
}

/// The plan of an update in a state.
pub(crate) fn plan_of<R: Abort + AllocGlobal>(rt: &R, state: &Lawful, update: Update) -> Plan
    requires { update.v < state.now.graph.size }
{
    let mut view = PlainView::new(rt.alloc(), state).expect(rt, "no memory");
    plan_over(rt.alloc(), &mut view, update).expect(rt, "a plan")
}

/// The plan that adds or removes the edge between `u` and `v` in a state.
pub(crate) fn plan_of_edge<R: Abort + AllocGlobal>(
    rt: &R,
    state: &Lawful,
    add: bool,
    u: u32,
    v: u32,
) -> Plan {
    assert!(rt; u < v && v < state.graph().vertices());
    plan_of(rt, state, Update { add, u, v })
}

/// The lists of these vertices were asked, in this order.
pub(crate) fn assert_asked<R: Abort>(rt: &R, plan: &Plan, lists: &[u32]) {
    assert!(rt;
        plan.used
            .edges
            .iter()
            .map(|e| e.vertex)
            .eq(lists.iter().copied())
    );
}

/// Adds the edges of a graph, all but the one that an update removes, and the one that it adds.
fn add_updated(after: &mut Graph, graph: &Graph, update: Update) -> Result<(), NoMemory> {
    let keeps = |u: u32, v: u32| update.add || (u, v) != (update.u, update.v);
    for u in 0..graph.vertices() {
        for v in graph.neighbours(u) {
            if u < *v && *v < after.vertices() && keeps(u, *v) {
                after.add(u, *v)?;
            }
        }
    }
    if update.add && update.v < after.vertices() {
        after.add(update.u, update.v)?;
    }
    Ok(())
}

/// The graph with the edge of an update, or without it.
fn updated<R: Abort + AllocGlobal>(rt: &R, graph: &Graph, update: Update) -> Graph {
    let mut after = Graph::new(rt.alloc(), graph.vertices()).expect(rt, "no memory");
    add_updated(&mut after, graph, update).expect(rt, "no memory");
    after
}

/// Asserts what is to hold of a plan in a state.
fn assert_so<R: Abort>(rt: &R, state: &Lawful, plan: &Plan, is_so: bool)
    ensures { IsTrue is_so }
{
    assert!(rt; is_so, "{plan:?} in {state:?}");
}

/// A plan fits the state that it was made in: it passes the local test, and changes nothing exactly where its update is not applied.
fn assert_fits<R: Abort + AllocGlobal>(rt: &R, state: &Lawful, plan: &Plan) {
    let update = plan.update;
    let is_local = local_check(rt.alloc(), state, plan).expect(rt, "no memory");
    assert_so(rt, state, plan, is_local);
    assert!(rt; update.u < state.graph().vertices());
    let is_applied = state.graph().has(update.u, update.v) != update.add;
    let is_kept = matches!(plan.moves, Moves::Kept);
    assert_so(rt, state, plan, is_kept != is_applied);
}

/// The levels of a state, once the moves of a plan were made.
fn moved<R: Abort + AllocGlobal>(rt: &R, state: &Lawful, plan: &Plan) -> Levels {
    let mut levels = Levels::of(rt.alloc(), state).expect(rt, "no memory");
    levels.make(rt.alloc(), &plan.moves).expect(rt, "no memory");
    levels
}

/// The core numbers that a plan leaves are those of the graph.
fn assert_numbers<R: Abort + AllocGlobal>(
    rt: &R,
    state: &Lawful,
    plan: &Plan,
    graph: &Graph,
    core: &[u32],
) {
    let fresh = decompose(rt.alloc(), graph).expect(rt, "no memory");
    assert_eq!(rt; core, fresh.core(), "{plan:?} in {state:?}");
}

/// The levels that a plan leaves have the core numbers of the graph, and are certified.
fn assert_right<R: Abort + AllocGlobal>(
    rt: &R,
    state: &Lawful,
    plan: &Plan,
    graph: &Graph,
    levels: &Levels,
)
    ensures { Certifies graph.now levels.now.core.items levels.now.order.items }
{
    assert_numbers(rt, state, plan, graph, &levels.core);
    let is_certified = check(rt.alloc(), graph, &levels.core, &levels.order).expect(
        rt,
        "no memory",
    );
    assert_so(rt, state, plan, is_certified);
}

/// The state after a plan, which has to be certified and to have the core numbers of its graph.
pub(crate) fn state_after<R: Abort + AllocGlobal>(rt: &R, state: &Lawful, plan: &Plan) -> Lawful {
    assert_fits(rt, state, plan);
    let graph = updated(rt, state.graph(), plan.update);
    let levels = moved(rt, state, plan);
    assert_right(rt, state, plan, &graph, &levels);
    let Levels { core, order } = levels;
    Lawful::new(rt.alloc(), graph, core, order).expect(rt, "no memory")
}
