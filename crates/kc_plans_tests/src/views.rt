//! A view of a graph at rest, each call with its answer.
ghost use Rattle.std.specs.Prelude.{◌≢◌, ◌<◌};

use crate::states::decomposed;
use kc_graph::{Lawful, Used};
use kc_view::{PlainView, PlanFault, View, ViewFault, degree_of, is_neighbour};
use std::process::Abort;

/// A triangle with a tail, and a vertex alone. The core numbers are 2, 2, 2, 1 and 0.
fn triangle_with_a_tail<R: Abort + AllocGlobal>(rt: &R) -> Lawful {
    decomposed(rt, 5, &[(0, 1), (0, 2), (1, 2), (2, 3)])
}

/// The list of a vertex, and its length as it was told.
fn list_of<V: View>(view: &mut V, w: u32) -> Result<(u32, &[u32]), ViewFault>
    requires { w < (V.shown view.old).size }
{
    let degree = view.degree(w)?;
    Ok((degree, view.list(w)))
}

/// Whether the list of `w` has `y`, looked for by halving.
fn has_neighbour<V: View>(view: &mut V, w: u32, y: u32) -> Result<bool, PlanFault>
    requires { w < (V.shown view.old).size }
{
    degree_of(view, w)?;
    Ok(is_neighbour(view, w, y))
}

/// Two core numbers and an order.
fn compared<V: View>(view: &mut V, x: u32, y: u32) -> Result<(u32, u32, bool), ViewFault>
    requires differ { x ≢ y }
    requires first { x < (V.shown view.old).size }
    requires second { y < (V.shown view.old).size }
{
    let first = view.core(x)?;
    let second = view.core(y)?;
    let before = view.precedes(x, y)?;
    Ok((first, second, before))
}

/// The lists of these vertices were asked, and nothing else.
fn assert_lists<R: Abort>(rt: &R, used: &Used, vertices: &[u32]) {
    assert_eq!(rt; used.edges.len(), vertices.len());
    for (list, vertex) in used.edges.iter().zip(vertices) {
        assert_eq!(rt; (list.vertex, list.at), (*vertex, 0));
    }
    assert!(rt; used.places.is_empty() && used.orders.is_empty());
}

/// `w` has just these neighbours.
fn assert_neighbours<R: Abort>(rt: &R, view: &mut PlainView<'_>, w: u32, list: &[u32]) {
    for y in 0..6 {
        assert!(rt; w < view.state().graph().vertices());
        let has = has_neighbour(view, w, y).expect(rt, "an answer");
        assert_eq!(rt; has, list.contains(&y), "{w} and {y}");
    }
}

/// The neighbours of each vertex are found.
fn assert_all_neighbours<R: Abort>(rt: &R, view: &mut PlainView<'_>) {
    assert_neighbours(rt, view, 0, &[1, 2]);
    assert_neighbours(rt, view, 1, &[0, 2]);
    assert_neighbours(rt, view, 2, &[0, 1, 3]);
    assert_neighbours(rt, view, 3, &[2]);
    assert_neighbours(rt, view, 4, &[]);
}

#[test]
fn neighbours_are_found_by_halving(rt: HostRuntime) {
    let lawful = triangle_with_a_tail(&rt);
    let mut view = PlainView::new(rt.alloc(), &lawful).expect(&rt, "no memory");
    assert_all_neighbours(&rt, &mut view);
}

/// The list of `w` is this one.
fn assert_list<R: Abort>(rt: &R, view: &mut PlainView<'_>, w: u32, list: &[u32]) {
    assert!(rt; w < view.state().graph().vertices());
    let told = list_of(view, w).expect(rt, "an answer");
    assert_eq!(rt; (told.0 as usize, told.1), (list.len(), list), "at {w}");
}

/// The lists of three vertices are told, that of the first once more at the end, and each is handed out once.
fn assert_each_list<R: Abort>(rt: &R, view: &mut PlainView<'_>) {
    assert_list(rt, view, 2, &[0, 1, 3]);
    assert_list(rt, view, 4, &[]);
    assert_list(rt, view, 0, &[1, 2]);
    assert_list(rt, view, 2, &[0, 1, 3]);
    assert_lists(rt, &view.used(), &[2, 4, 0]);
    assert_lists(rt, &view.used(), &[]);
}

#[test]
fn lists_of_a_graph_at_rest(rt: HostRuntime) {
    let lawful = triangle_with_a_tail(&rt);
    let mut view = PlainView::new(rt.alloc(), &lawful).expect(&rt, "no memory");
    assert_each_list(&rt, &mut view);
}

/// The core numbers and the order of two vertices are these.
fn assert_compared<R: Abort>(
    rt: &R,
    view: &mut PlainView<'_>,
    x: u32,
    y: u32,
    answer: (u32, u32, bool),
) {
    let vertices = view.state().graph().vertices();
    assert!(rt; x != y && x < vertices && y < vertices);
    let told = compared(view, x, y).expect(rt, "an answer");
    assert_eq!(rt; told, answer);
}

/// Two questions of order were asked, and nothing else.
fn assert_orders<R: Abort>(rt: &R, used: &Used) {
    let places = [(3, 1), (0, 2)];
    assert!(rt; used.places.iter().map(|p| (p.vertex, p.core)).eq(places));
    let orders = [(3, 0, true), (0, 3, false)];
    assert!(rt; used.orders.iter().map(|o| (o.x, o.y, o.before)).eq(orders));
}

/// Two questions of order are answered, and handed out.
fn assert_each_order<R: Abort>(rt: &R, view: &mut PlainView<'_>) {
    assert_compared(rt, view, 3, 0, (1, 2, true));
    assert_compared(rt, view, 0, 3, (2, 1, false));
    assert_orders(rt, &view.used());
    assert_lists(rt, &view.used(), &[]);
}

#[test]
fn orders_of_a_graph_at_rest(rt: HostRuntime) {
    let lawful = triangle_with_a_tail(&rt);
    let mut view = PlainView::new(rt.alloc(), &lawful).expect(&rt, "no memory");
    assert_each_order(&rt, &mut view);
}
