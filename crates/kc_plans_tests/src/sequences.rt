//! Long sequences of updates, each planned in the state that the one before it left.
ghost use Rattle.std.specs.Prelude.{◌<◌};

use crate::draws::Draws;
use crate::planning::{plan_of, state_after};
use crate::shapes::{Case, cases};
use crate::tally::Tally;
use kc_graph::{Lawful, Plan, Update, Used, UsedEdges, UsedOrder, UsedPlace};
use std::process::Abort;

/// The plan of the next update that is drawn.
fn next_plan<R: Abort + AllocGlobal>(rt: &R, state: &Lawful, draws: &mut Draws) -> Plan {
    assert!(rt; state.graph().vertices() > 1);
    let update = draws.update(state.graph());
    plan_of(rt, state, update)
}

/// The state after an update that is drawn.
fn next_state<R: Abort + AllocGlobal>(
    rt: &R,
    state: &Lawful,
    draws: &mut Draws,
    tally: &mut Tally,
) -> Lawful {
    assert!(rt; state.graph().vertices() > 1);
    updated(rt, state, draws.update(state.graph()), tally)
}

/// Two hundred updates of a state, each with the state after it.
fn go_on<R: Abort + AllocGlobal>(rt: &R, state: &mut Lawful, draws: &mut Draws, tally: &mut Tally) {
    for _ in 0..200 {
        *state = next_state(rt, state, draws, tally);
    }
}

/// Two hundred updates of a graph.
fn run<R: Abort + AllocGlobal>(rt: &R, case: Case, tally: &mut Tally) {
    let mut draws = Draws::new(case.seed);
    let mut state = case.begin(rt.alloc(), &mut draws).expect(rt, "no memory");
    go_on(rt, &mut state, &mut draws, tally);
}

#[test]
fn plans_keep_numbers_and_order_right_over_long_sequences(rt: HostRuntime) {
    let mut tally = Tally::new();
    for case in cases() {
        run(&rt, case, &mut tally);
    }
    assert!(rt; tally.has_all(), "{tally:?}");
}

/// The lists that were answered are those of the state.
fn assert_lists_of<R: Abort>(rt: &R, state: &Lawful, lists: &[UsedEdges]) {
    for list in lists {
        assert!(rt; list.at == 0 && list.vertex < state.graph().vertices());
        assert_eq!(rt;
            list.neighbours.as_slice(),
            state.graph().neighbours(list.vertex)
        );
    }
}

/// The core numbers that were answered are those of the state.
fn assert_places_of<R: Abort>(rt: &R, state: &Lawful, places: &[UsedPlace]) {
    for place in places {
        assert_eq!(rt;
            state.core().get(place.vertex as usize).copied(),
            Some(place.core)
        );
    }
}

/// The orders that were answered are those of the state.
fn assert_orders_of<R: Abort>(rt: &R, state: &Lawful, orders: &[UsedOrder]) {
    let vertices = state.graph().vertices();
    for order in orders {
        assert!(rt; order.x != order.y && order.x < vertices && order.y < vertices);
        assert_eq!(rt; order.before, state.place(order.x) < state.place(order.y));
    }
}

/// What was answered is so in the state, and a list was asked.
fn assert_true_of<R: Abort>(rt: &R, state: &Lawful, used: &Used) {
    assert!(rt; !used.edges.is_empty());
    assert_lists_of(rt, state, &used.edges);
    assert_places_of(rt, state, &used.places);
    assert_orders_of(rt, state, &used.orders);
}

/// Goes on to the state after an update that is drawn, and tells whether its plan asks orders. What was answered to the plan is so.
fn follow_answers<R: Abort + AllocGlobal>(rt: &R, state: &mut Lawful, draws: &mut Draws) -> bool {
    let plan = next_plan(rt, state, draws);
    assert_true_of(rt, state, &plan.used);
    *state = state_after(rt, state, &plan);
    !plan.used.orders.is_empty()
}

/// Compares what was answered over a hundred and twenty updates, and tells whether orders were asked.
fn any_asks_order<R: Abort + AllocGlobal>(rt: &R, state: &mut Lawful, draws: &mut Draws) -> bool {
    let mut any = false;
    for _ in 0..120 {
        let asks = follow_answers(rt, state, draws);
        any = any || asks;
    }
    any
}

/// Whether orders were asked over a hundred and twenty updates of a graph.
fn run_answers<R: Abort + AllocGlobal>(rt: &R, case: Case) -> bool {
    let mut draws = Draws::new(case.seed);
    let mut state = case.begin(rt.alloc(), &mut draws).expect(rt, "no memory");
    any_asks_order(rt, &mut state, &mut draws)
}

#[test]
fn what_is_asked_is_what_is_answered(rt: HostRuntime) {
    for case in cases() {
        assert!(rt; run_answers(&rt, case), "{case:?}");
    }
}

/// The state after an update.
fn updated<R: Abort + AllocGlobal>(
    rt: &R,
    state: &Lawful,
    update: Update,
    tally: &mut Tally,
) -> Lawful {
    assert!(rt; update.v < state.graph().vertices());
    let plan = plan_of(rt, state, update);
    tally.count(&plan);
    state_after(rt, state, &plan)
}

/// The state after an update, and then the other one of its edge.
fn turned_back<R: Abort + AllocGlobal>(
    rt: &R,
    state: &Lawful,
    update: Update,
    tally: &mut Tally,
) -> Lawful {
    let there = updated(rt, state, update, tally);
    let Update { u, v, .. } = update;
    let add = !update.add;
    updated(rt, &there, Update { add, u, v }, tally)
}

/// The state after an edge that was not there came and went, or one that was there went and came.
fn there_and_back<R: Abort + AllocGlobal>(
    rt: &R,
    state: &Lawful,
    u: u32,
    v: u32,
    tally: &mut Tally,
) -> Lawful
    requires { u < v }
{
    assert!(rt; u < state.graph().vertices());
    let add = !state.graph().has(u, v);
    let back = turned_back(rt, state, Update { add, u, v }, tally);
    assert_eq!(rt; back.core(), state.core(), "{u} {v} in {state:?}");
    back
}

/// Each pair of a state with these vertices in turn, there and back.
fn turn_pairs<R: Abort + AllocGlobal>(
    rt: &R,
    state: &mut Lawful,
    vertices: u32,
    tally: &mut Tally,
) {
    for v in 0..vertices {
        for u in 0..v {
            *state = there_and_back(rt, state, u, v, tally);
        }
    }
}

/// Each pair of a graph in turn.
fn run_pairs<R: Abort + AllocGlobal>(rt: &R, case: Case, tally: &mut Tally) {
    let mut draws = Draws::new(case.seed);
    let mut state = case.begin(rt.alloc(), &mut draws).expect(rt, "no memory");
    turn_pairs(rt, &mut state, case.vertices, tally);
}

#[test]
fn inserting_and_removing_an_edge_gives_the_numbers_back(rt: HostRuntime) {
    let mut tally = Tally::new();
    for case in cases() {
        run_pairs(&rt, case, &mut tally);
    }
    assert_eq!(rt; (tally.kept, tally.rising), (0, tally.falling));
}
