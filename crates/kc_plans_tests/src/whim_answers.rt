//! A view that answers what it likes, each call with its answer.
ghost use Rattle.std.specs.Prelude.{◌<◌, ◌≢◌};

use crate::whim_view::{WhimView, again};
use kc_graph::Used;
use kc_view::{View, ViewFault};
use std::process::Abort;

/// The list of a vertex.
fn list_of<R: Abort + AllocGlobal>(rt: &R, view: &mut WhimView, w: u32) -> Vec<u32>
    requires { w < view.old.size }
{
    view.degree(w).expect(rt, "an answer");
    Vec::from_slice(rt.alloc(), view.list(w)).expect(rt, "no memory")
}

/// How two vertices stand, once their core numbers were asked.
fn order_of<V: View>(view: &mut V, x: u32, y: u32) -> Result<bool, ViewFault>
    requires differ { x ≢ y }
    requires first { x < (V.shown view.old).size }
    requires second { y < (V.shown view.old).size }
{
    let _first = view.core(x)?;
    let _second = view.core(y)?;
    view.precedes(x, y)
}

/// The lists of these vertices were asked, and nothing else.
fn assert_lists<R: Abort>(rt: &R, used: &Used, vertices: &[u32]) {
    assert!(rt;
        used.edges
            .iter()
            .map(|e| e.vertex)
            .eq(vertices.iter().copied())
    );
    assert!(rt; used.places.is_empty() && used.orders.is_empty());
}

/// Whether of vertex 0 and another one just one is on the list of the other. None is on its own.
fn is_one_way<R: Abort + AllocGlobal>(rt: &R, view: &mut WhimView, x: u32) -> bool {
    assert!(rt; x < view.vertices());
    let there = list_of(rt, view, x);
    assert!(rt; 0 < view.vertices());
    let back = list_of(rt, view, 0);
    assert!(rt; !there.contains(&x) && !back.contains(&0));
    there.contains(&0) != back.contains(&x)
}

/// Whether that is so of vertex 0 and any of eight others.
fn any_is_one_way<R: Abort + AllocGlobal>(rt: &R, view: &mut WhimView) -> bool {
    let mut any = false;
    for x in 1..9 {
        let one_way = is_one_way(rt, view, x);
        any = any || one_way;
    }
    any
}

#[test]
fn lists_of_a_whim_fit_no_graph(rt: HostRuntime) {
    let mut view = WhimView::new(rt.alloc(), 9, 7, None, again());
    assert!(rt; any_is_one_way(&rt, &mut view));
    assert_lists(&rt, &view.used(), &[1, 0, 2, 3, 4, 5, 6, 7, 8]);
    assert_lists(&rt, &view.used(), &[]);
}

/// The answers that come to one question of order asked twenty times.
fn orders_seen<R: Abort>(rt: &R, view: &mut WhimView) -> [bool; 2] {
    let mut answers = [false, false];
    for _ in 0..20 {
        assert!(rt; 1 < view.vertices());
        let before = order_of(view, 0, 1).expect(rt, "an answer");
        answers[before as usize] = true;
    }
    answers
}

/// So many core numbers and orders were asked.
fn assert_asked<R: Abort>(rt: &R, used: &Used, places: usize, orders: usize) {
    assert_eq!(rt; (used.places.len(), used.orders.len()), (places, orders));
}

#[test]
fn orders_of_a_whim_change(rt: HostRuntime) {
    let mut view = WhimView::new(rt.alloc(), 2, 3, None, again());
    assert_eq!(rt; orders_seen(&rt, &mut view), [true, true]);
    assert_asked(&rt, &view.used(), 2, 20);
    assert_lists(&rt, &view.used(), &[]);
}

/// The first of six calls that misses.
fn first_miss<R: Abort + AllocGlobal>(rt: &R, patience: Option<u64>) -> Option<u64> {
    let mut view = WhimView::new(rt.alloc(), 3, 1, patience, again());
    for call in 0..6u64 {
        assert!(rt; 2 < view.vertices());
        if let Err(fault) = view.core(2) {
            assert_eq!(rt; fault, ViewFault::Miss(again()));
            return Some(call);
        }
    }
    None
}

#[test]
fn the_call_that_is_to_miss_misses(rt: HostRuntime) {
    for patience in 0..4u64 {
        assert_eq!(rt; first_miss(&rt, Some(patience)), Some(patience));
    }
    assert_eq!(rt; first_miss(&rt, None), None);
}
