//! Planners over views that answer what they like.
use crate::planning::plan_over;
use crate::tally::Tally;
use crate::whim_view::{WhimView, again};
use kc_graph::{Moves, NoMemory, Plan, Update};
use kc_view::PlanFault;
use std::alloc::Global;
use std::process::Abort;

/// A view to be drawn, and the update that is planned over it.
#[derive(Clone, Copy, Debug)]
struct Whim {
    vertices: u32,
    seed: u64,
    add: bool,
}

/// The plan of an update of vertices 0 and 1.
fn plan_of<R: Abort + AllocGlobal>(
    rt: &R,
    whim: Whim,
    patience: Option<u64>,
) -> Result<Plan, PlanFault> {
    let mut view = WhimView::new(rt.alloc(), whim.vertices, whim.seed, patience, again());
    assert!(rt; 1 < view.vertices());
    let add = whim.add;
    let update = Update { add, u: 0, v: 1 };
    plan_over(rt.alloc(), &mut view, update)
}

/// The vertices that moves name, those that move and those behind which they are put.
#[derive(Drop)]
struct Named {
    moved: Vec<u32>,
    anchors: Vec<u32>,
}

/// Adds what moves name.
fn add_named(named: &mut Named, moves: &Moves) -> Result<(), NoMemory> {
    match moves {
        Moves::Kept | Moves::Plain => {}
        Moves::Rise { rise, shifts, .. } => {
            named.moved.extend_from_slice(rise)?;
            for (x, w) in shifts {
                named.moved.push(*x)?;
                named.anchors.push(*w)?;
            }
        }
        Moves::Fall { fall, .. } => named.moved.extend_from_slice(fall)?,
    }
    Ok(())
}

/// What moves name.
fn named_in(alloc: Global, moves: &Moves) -> Result<Named, NoMemory> {
    let mut named = Named {
        moved: Vec::new(alloc),
        anchors: Vec::new(alloc),
    };
    add_named(&mut named, moves)?;
    Ok(named)
}

/// Those that moves name are vertices, and none is moved twice.
fn assert_named<R: Abort>(rt: &R, whim: Whim, moves: &Moves, named: &Named, is_moved: &mut [bool]) {
    for x in &named.moved {
        match is_moved.get_mut(*x as usize) {
            Some(moved) if !*moved => *moved = true,
            _ => panic!(rt; "{moves:?} at {whim:?}"),
        }
    }
    assert!(rt;
        named.anchors.iter().all(|w| *w < whim.vertices),
        "{moves:?} at {whim:?}"
    );
}

/// Moves name vertices only, and move none twice.
fn assert_tidy<R: Abort + AllocGlobal>(rt: &R, whim: Whim, moves: &Moves) {
    let named = named_in(rt.alloc(), moves).expect(rt, "no memory");
    let is_moved = vec![in rt.alloc(); false; whim.vertices as usize];
    let mut is_moved = is_moved.expect(rt, "no memory");
    assert_named(rt, whim, moves, &named, is_moved.as_mut_slice());
}

/// How many calls on the view a plan takes: with less patience the planner hands on the miss.
fn calls_of<R: Abort + AllocGlobal>(rt: &R, whim: Whim) -> u64 {
    for patience in 0..5000u64 {
        match plan_of(rt, whim, Some(patience)) {
            Ok(plan) => {
                assert_tidy(rt, whim, &plan.moves);
                return patience;
            }
            Err(fault) => assert_eq!(rt; fault, PlanFault::Miss(again()), "{whim:?}"),
        }
    }
    panic!(rt; "no plan at {whim:?}")
}

/// The plan over a view that never misses.
fn run<R: Abort + AllocGlobal>(rt: &R, whim: Whim, tally: &mut Tally) {
    let plan = plan_of(rt, whim, None).expect(rt, "a plan");
    assert_tidy(rt, whim, &plan.moves);
    tally.count(&plan);
}

#[test]
fn planners_return_over_views_that_answer_what_they_like(rt: HostRuntime) {
    let mut tally = Tally::new();
    for vertices in [2, 3, 5, 8, 13, 20, 28] {
        for seed in 0..2000u64 {
            for add in [false, true] {
                let whim = Whim {
                    vertices,
                    seed,
                    add,
                };
                run(&rt, whim, &mut tally);
                if seed < 20 {
                    assert!(rt; calls_of(&rt, whim) > 0, "{whim:?}");
                }
            }
        }
    }
    assert!(rt; tally.has_all(), "{tally:?}");
}
