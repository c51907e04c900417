//! Sections of levels: the moves of each plan leave the order and the numbers that a plain list and a decomposition have after it.
ghost use Rattle.std.specs.Prelude.{◌≡◌, ◌<◌, IfOk, false};
ghost use Rattle.kc_graph.specs.Plans.{state_after};
ghost use Rattle.kc_levels.specs.Levels.{AreLevels, size_of};
ghost use Rattle.kc_levels.specs.Makes.{AreLevelsOf};

use crate::draws::Draws;
use crate::planning::{plan_of, state_after};
use crate::shapes::{Case, cases};
use crate::tally::Tally;
use kc_cert::local_check;
use kc_graph::{Lawful, Plan, Update};
use kc_levels::{LAST_NUMBER, Levels, make_moves, moved_count};
use kc_table::Words;
use kc_words::{LAST_VERSION, VERTICES};
use std::process::Abort;
use std::test::Fail;

/// Levels of a state, over a fresh table.
fn levels_of<R: Abort + AllocGlobal>(rt: &R, state: &Lawful) -> (Words, Levels)
    ensures table { result.1.table ≡ result.0 }
    ensures closed { AreLevels result.1 × (result.1.open_ ≡ false) }
    ensures of { AreLevelsOf state.now result.1 }
{
    let core = state.core();
    assert!(rt; core.len() <= VERTICES as usize);
    let stamps = vec![in rt.alloc(); 0u32; core.len()].expect(rt, "no memory");
    let opened = Levels::open(rt.alloc(), state.order(), core, &stamps, 0, 0);
    let (words, levels, _) = opened.expect(rt, "no memory");
    (words, levels)
}

/// Makes the moves of a plan in a section of its own, where the plan passes the local test in the state whose levels these are.
fn make_plan<R: Abort + AllocGlobal>(
    rt: &R,
    words: &Words,
    levels: &mut Levels,
    state: &Lawful,
    plan: &Plan,
) -> Result<(), Fail>
    requires table { levels.old.table ≡ words.now }
    requires closed { AreLevels levels.old × (levels.old.open_ ≡ false) }
    requires of { AreLevelsOf state.now levels.old }
    ensures table { levels.new.table ≡ words.now }
    ensures of { IfOk result (λ _. AreLevelsOf (state_after plan.now state.now) levels.new) }
{
    let is_local = local_check(rt.alloc(), state, plan)?;
    if !is_local {
        return Err("the plan fails the local test".into());
    }
    assert!(rt; levels.number() < LAST_NUMBER);
    levels.open_section(words, 0, plan.update);
    let most = moved_count(&plan.moves);
    assert!(rt; most <= VERTICES as usize);
    let spent = levels.highest() as usize + 3 * most;
    if spent > LAST_VERSION as usize {
        return Err("the versions are spent".into());
    }
    make_moves(levels, words, &plan.moves);
    levels.end_section();
    Ok(())
}

/// A walk over the levels finds the vertices in this order.
pub(crate) fn assert_walk<R: Abort>(rt: &R, levels: &Levels, vertices: u32, order: &[u32])
    requires { vertices ≡ size_of levels.now }
{
    let mut at = levels.first();
    for v in order {
        assert_eq!(rt; at, Some(*v));
        assert!(rt; *v < vertices);
        at = levels.next(*v);
    }
    assert_eq!(rt; at, None);
}

/// A walk over the levels finds the order of a state, and each vertex at the level of its core number.
fn assert_levels_of<R: Abort>(rt: &R, levels: &Levels, state: &Lawful, vertices: u32)
    requires { vertices ≡ size_of levels.now }
{
    assert_walk(rt, levels, vertices, state.order());
    for v in 0..vertices {
        assert_eq!(rt;
            state.core().get(v as usize).copied(),
            Some(levels.level_of(v))
        );
    }
}

/// Levels of a state, after a section that made the moves of a plan.
pub(crate) fn levels_after<R: Abort + AllocGlobal>(
    rt: &R,
    state: &Lawful,
    plan: &Plan,
) -> Result<Levels, Fail>
    ensures { IfOk result (λ levels. size_of levels ≡ state.now.graph.size) }
{
    let (words, mut levels) = levels_of(rt, state);
    make_plan(rt, &words, &mut levels, state, plan)?;
    Ok(levels)
}

/// The state after a plan, which a section of levels of the state before it leaves too.
fn after_section<R: Abort + AllocGlobal>(
    rt: &R,
    state: &Lawful,
    plan: &Plan,
) -> Result<Lawful, Fail> {
    let levels = levels_after(rt, state, plan)?;
    let after = state_after(rt, state, plan);
    assert_levels_of(rt, &levels, &after, state.graph().vertices());
    Ok(after)
}

/// The state after an update that is made in a section.
fn updated<R: Abort + AllocGlobal>(
    rt: &R,
    state: &Lawful,
    update: Update,
    tally: &mut Tally,
) -> Result<Lawful, Fail>
    requires { update.v < state.now.graph.size }
{
    let plan = plan_of(rt, state, update);
    tally.count(&plan);
    after_section(rt, state, &plan)
}

/// So many updates of a state, each made in a section of levels of the state before it.
fn go_on<R: Abort + AllocGlobal>(
    rt: &R,
    state: &mut Lawful,
    updates: u32,
    draws: &mut Draws,
    tally: &mut Tally,
) -> Result<(), Fail> {
    for _ in 0..updates {
        assert!(rt; state.graph().vertices() > 1);
        let update = draws.update(state.graph());
        *state = updated(rt, state, update, tally)?;
    }
    Ok(())
}

/// So many updates of a graph, each made in a section.
fn run<R: Abort + AllocGlobal>(
    rt: &R,
    case: Case,
    updates: u32,
    tally: &mut Tally,
) -> Result<(), Fail> {
    let mut draws = Draws::new(case.seed);
    let mut state = case.begin(rt.alloc(), &mut draws)?;
    go_on(rt, &mut state, updates, &mut draws, tally)
}

#[test]
fn sections_leave_the_levels_of_the_state_after(rt: HostRuntime) -> Result<(), Fail> {
    let mut tally = Tally::new();
    for case in cases() {
        run(&rt, case, 720, &mut tally)?;
    }
    assert!(rt; tally.has_all(), "{tally:?}");
    Ok(())
}
