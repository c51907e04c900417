//! Sections of small graphs: the moves of whole plans, and moves made one by one.
ghost use Rattle.std.specs.Prelude.{◌≡◌, ◌<◌, length};
ghost use Rattle.kc_levels.specs.Levels.{size_of};

use crate::sections::{assert_walk, levels_after};
use crate::states::certified;
use kc_graph::{Lawful, Moves, Plan, Update, Used};
use kc_levels::Levels;
use kc_words::VERTICES;
use std::process::Abort;
use std::test::Fail;

/// A graph to begin with, by its edges, and its core numbers and order.
#[derive(Clone, Copy)]
struct Start<'a> {
    edges: &'a [(u32, u32)],
    core: &'a [u32],
    order: &'a [u32],
}

/// What a section leaves: the core numbers, the order, and which vertices it moved.
#[derive(Clone, Copy)]
struct Left<'a> {
    core: &'a [u32],
    order: &'a [u32],
    moved: &'a [u32],
}

/// The graph of a start, with its core numbers and its order.
fn state_of<R: Abort + AllocGlobal>(rt: &R, start: Start) -> Lawful {
    assert!(rt; start.core.len() <= VERTICES as usize);
    let vertices = start.core.len() as u32;
    assert!(rt; start.edges.iter().all(|(u, v)| u < v && *v < vertices));
    certified(rt, vertices, start.edges, start.core, start.order)
}

/// One vertex stands before the other.
fn assert_before<R: Abort>(rt: &R, levels: &Levels, vertices: u32, x: u32, y: u32)
    requires { vertices ≡ size_of levels.now }
{
    assert!(rt; x != y && x < vertices && y < vertices);
    assert!(rt; levels.precedes(x, y) && !levels.precedes(y, x));
}

/// Each vertex stands before the next.
fn assert_ascending<R: Abort>(rt: &R, levels: &Levels, vertices: u32, order: &[u32])
    requires { vertices ≡ size_of levels.now }
{
    for i in 1..order.len() {
        assert_before(rt, levels, vertices, order[i - 1], order[i]);
    }
}

/// The vertex stands at this level, and the last section moved it or did not.
fn assert_vertex<R: Abort>(rt: &R, levels: &Levels, v: u32, level: u32, moved: bool)
    requires { v < size_of levels.now }
{
    let is_moved = levels.stamp(v) == levels.number();
    assert_eq!(rt; (levels.level_of(v), is_moved), (level, moved));
    assert!(rt; level <= levels.top());
}

/// The vertices stand at these levels, and the last section moved just these.
fn assert_levels<R: Abort>(rt: &R, levels: &Levels, left: Left)
    requires { length left.core.now ≡ size_of levels.now }
{
    for (v, level) in left.core.iter().enumerate() {
        let moved = left.moved.contains(&(v as u32));
        assert_vertex(rt, levels, v as u32, *level, moved);
    }
    assert!(rt; levels.top() == 0 || left.core.contains(&levels.top()));
}

/// A plan that read nothing.
fn plan_of<R: AllocGlobal>(rt: &R, add: bool, ends: (u32, u32), moves: Moves) -> Plan
    requires { ends.0 < ends.1 }
{
    let (u, v) = ends;
    Plan {
        update: Update { add, u, v },
        used: Used {
            edges: Vec::new(rt.alloc()),
            places: Vec::new(rt.alloc()),
            orders: Vec::new(rt.alloc()),
        },
        moves,
    }
}

/// These rise from a level, after these shifts.
fn rise<R: AllocGlobal>(
    rt: &R,
    level: u32,
    rise: &[u32],
    shifts: &[(u32, u32)],
) -> Result<Moves, Fail> {
    Ok(Moves::Rise {
        level,
        rise: Vec::from_slice(rt.alloc(), rise)?,
        shifts: Vec::from_slice(rt.alloc(), shifts)?,
    })
}

/// These fall from a level.
fn fall<R: AllocGlobal>(rt: &R, level: u32, fall: &[u32]) -> Result<Moves, Fail> {
    Ok(Moves::Fall {
        level,
        fall: Vec::from_slice(rt.alloc(), fall)?,
    })
}

/// The section of a plan leaves what it should of a state.
fn assert_left<R: Abort + AllocGlobal>(
    rt: &R,
    state: &Lawful,
    plan: &Plan,
    left: Left,
) -> Result<(), Fail> {
    let levels = levels_after(rt, state, plan)?;
    let vertices = state.graph().vertices();
    assert!(rt; left.core.len() == vertices as usize);
    assert_walk(rt, &levels, vertices, left.order);
    assert_ascending(rt, &levels, vertices, left.order);
    assert_levels(rt, &levels, left);
    Ok(())
}

/// The section of a plan leaves what it should of a start.
fn assert_section<R: Abort + AllocGlobal>(
    rt: &R,
    start: Start,
    plan: &Plan,
    left: Left,
) -> Result<(), Fail> {
    let state = state_of(rt, start);
    assert_left(rt, &state, plan, left)
}

/// Two edges.
const EDGES: Start = Start {
    edges: &[(0, 1), (2, 3)],
    core: &[1, 1, 1, 1],
    order: &[0, 1, 2, 3],
};

/// A path of four vertices.
const PATH: Start = Start {
    edges: &[(0, 1), (1, 2), (2, 3)],
    core: &[1, 1, 1, 1],
    order: &[0, 1, 2, 3],
};

#[test]
fn a_shift(rt: HostRuntime) -> Result<(), Fail> {
    let plan = plan_of(&rt, true, (0, 2), rise(&rt, 1, &[], &[(0, 1)])?);
    let left = Left {
        core: &[1, 1, 1, 1],
        order: &[1, 0, 2, 3],
        moved: &[0],
    };
    assert_section(&rt, EDGES, &plan, left)
}

#[test]
fn a_path_becomes_a_ring(rt: HostRuntime) -> Result<(), Fail> {
    let plan = plan_of(&rt, true, (0, 3), rise(&rt, 1, &[0, 1, 2, 3], &[])?);
    let left = Left {
        core: &[2, 2, 2, 2],
        order: &[0, 1, 2, 3],
        moved: &[0, 1, 2, 3],
    };
    assert_section(&rt, PATH, &plan, left)
}

#[test]
fn four_lose_an_edge_of_six(rt: HostRuntime) -> Result<(), Fail> {
    let start = Start {
        edges: &[(0, 1), (0, 2), (0, 3), (1, 2), (1, 3), (2, 3)],
        core: &[3, 3, 3, 3],
        order: &[0, 1, 2, 3],
    };
    let plan = plan_of(&rt, false, (0, 1), fall(&rt, 3, &[0, 1, 2, 3])?);
    let left = Left {
        core: &[2, 2, 2, 2],
        order: &[0, 1, 2, 3],
        moved: &[0, 1, 2, 3],
    };
    assert_section(&rt, start, &plan, left)
}

#[test]
fn an_end_of_a_path_falls(rt: HostRuntime) -> Result<(), Fail> {
    let plan = plan_of(&rt, false, (0, 1), fall(&rt, 1, &[0])?);
    let left = Left {
        core: &[0, 1, 1, 1],
        order: &[0, 1, 2, 3],
        moved: &[0],
    };
    assert_section(&rt, PATH, &plan, left)
}

#[test]
fn an_edge_goes_and_nothing_moves(rt: HostRuntime) -> Result<(), Fail> {
    let plan = plan_of(&rt, false, (1, 2), Moves::Plain);
    let left = Left {
        core: &[1, 1, 1, 1],
        order: &[0, 1, 2, 3],
        moved: &[],
    };
    assert_section(&rt, PATH, &plan, left)
}

#[test]
fn an_edge_that_is_there_is_kept(rt: HostRuntime) -> Result<(), Fail> {
    let plan = plan_of(&rt, true, (1, 2), Moves::Kept);
    let left = Left {
        core: &[1, 1, 1, 1],
        order: &[0, 1, 2, 3],
        moved: &[],
    };
    assert_section(&rt, PATH, &plan, left)
}

#[test]
fn one_rises_past_an_empty_level(rt: HostRuntime) -> Result<(), Fail> {
    let start = Start {
        edges: &[(0, 1), (1, 2), (0, 2)],
        core: &[2, 2, 2, 0],
        order: &[3, 0, 1, 2],
    };
    let plan = plan_of(&rt, true, (0, 3), rise(&rt, 0, &[3], &[])?);
    let left = Left {
        core: &[2, 2, 2, 1],
        order: &[3, 0, 1, 2],
        moved: &[3],
    };
    assert_section(&rt, start, &plan, left)
}

#[test]
fn three_rise_in_front_of_their_level(rt: HostRuntime) -> Result<(), Fail> {
    let start = Start {
        edges: &[(0, 1), (1, 2), (3, 4), (3, 5), (4, 5)],
        core: &[1, 1, 1, 2, 2, 2],
        order: &[0, 1, 2, 3, 4, 5],
    };
    let plan = plan_of(&rt, true, (0, 2), rise(&rt, 1, &[2, 0, 1], &[])?);
    let left = Left {
        core: &[2, 2, 2, 2, 2, 2],
        order: &[2, 0, 1, 3, 4, 5],
        moved: &[0, 1, 2],
    };
    assert_section(&rt, start, &plan, left)
}

#[test]
fn three_fall_to_the_back_of_their_level(rt: HostRuntime) -> Result<(), Fail> {
    let start = Start {
        edges: &[(0, 1), (0, 2), (1, 2), (3, 4), (3, 5), (4, 5), (6, 7)],
        core: &[2, 2, 2, 2, 2, 2, 1, 1],
        order: &[6, 7, 3, 4, 5, 0, 1, 2],
    };
    let plan = plan_of(&rt, false, (0, 1), fall(&rt, 2, &[1, 0, 2])?);
    let left = Left {
        core: &[1, 1, 1, 2, 2, 2, 1, 1],
        order: &[6, 7, 1, 0, 2, 3, 4, 5],
        moved: &[0, 1, 2],
    };
    assert_section(&rt, start, &plan, left)
}
