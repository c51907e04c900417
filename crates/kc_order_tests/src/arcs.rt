//! Arcs on one thread: what they move, an arc that stands, and a cycle that is named.
ghost use Rattle.std.specs.Prelude.{◌≡◌, ◌<◌, ◌≤◌, ◌+◌, ◌*◌};

use kc_order::Answer;
use kc_table::{Name, Pass, Words};
use kc_topo::{Added, Arcs, Dag, DagFault};
use std::marker::Brand;
use std::process::Abort;
use std::sync::Wait;
use std::test::Fail;

/// An arc that is added, or stood already.
pub(crate) fn add<K: Name, R: Wait + Abort + AllocGlobal>(
    rt: &R,
    dag: &Dag<K>,
    pass: &mut Pass,
    arc: (u32, u32),
    wanted: Added,
)
    requires table { pass.old.table ≡ K.opened.table }
    requires vertices { (arc.0 < K.opened.table.shape.items) × (arc.1 < K.opened.table.shape.items) }
    ensures { pass.new.table ≡ K.opened.table }
{
    let Ok(added) = dag.add(rt, rt.alloc(), pass, arc.0, arc.1) else {
        panic!(rt; "the arc closes no cycle");
    };
    assert_eq!(rt; added, wanted);
}

/// An arc that would close a cycle, with the walk back.
fn refuse<K: Name, R: Wait + Abort + AllocGlobal>(
    rt: &R,
    dag: &Dag<K>,
    pass: &mut Pass,
    arc: (u32, u32),
    wanted: &[u32],
)
    requires table { pass.old.table ≡ K.opened.table }
    requires vertices { (arc.0 < K.opened.table.shape.items) × (arc.1 < K.opened.table.shape.items) }
    ensures { pass.new.table ≡ K.opened.table }
{
    let Err(DagFault::Cycle { walk }) = dag.add(rt, rt.alloc(), pass, arc.0, arc.1) else {
        panic!(rt; "the arc closes a cycle");
    };
    assert_eq!(rt; walk.as_slice(), wanted);
}

/// Three vertices stand in this order.
fn stand<K: Name, R: Abort>(rt: &R, dag: &Dag<K>, pass: &mut Pass, order: (u32, u32, u32))
    requires table { pass.old.table ≡ K.opened.table }
    requires vertices { (order.0 < K.opened.table.shape.items) × (order.1 < K.opened.table.shape.items) × (order.2 < K.opened.table.shape.items) }
    ensures { pass.new.table ≡ K.opened.table }
{
    let answers = [
        dag.precedes(pass, order.0, order.1),
        dag.precedes(pass, order.1, order.2),
        dag.precedes(pass, order.2, order.0),
    ];
    assert_eq!(rt; answers, [Answer::Before, Answer::Before, Answer::After]);
}

/// Arcs among three vertices: each moves what it has to, a cycle is named, and an arc that stands changes nothing.
fn three_vertices<K: Name, R: Wait + Abort + AllocGlobal>(
    rt: &R,
    words: Words,
    arcs: Arcs,
    mut pass: Pass,
)
    requires table { (words ≡ K.opened.table) × (arcs.table ≡ K.opened.table) × (pass.table ≡ K.opened.table) }
    requires shape { K.opened.table.shape.items ≡ 3 }
{
    let dag = Dag::<K>::new(words, arcs);
    add(rt, &dag, &mut pass, (2, 0), Added::New);
    stand(rt, &dag, &mut pass, (1, 2, 0));
    add(rt, &dag, &mut pass, (0, 1), Added::New);
    stand(rt, &dag, &mut pass, (2, 0, 1));
    refuse(rt, &dag, &mut pass, (1, 2), &[2, 0, 1]);
    refuse(rt, &dag, &mut pass, (1, 1), &[1]);
    add(rt, &dag, &mut pass, (2, 0), Added::There);
    stand(rt, &dag, &mut pass, (2, 0, 1));
    let (there, turned) = (dag.arc(rt, &mut pass, 2, 0), dag.arc(rt, &mut pass, 0, 2));
    assert!(rt; there && !turned);
}

#[test]
fn arcs_move_what_they_reach_and_a_cycle_is_named(rt: HostRuntime) -> Result<(), Fail> {
    let (words, arcs, pass) = Arcs::open(rt.alloc(), 3)?;
    three_vertices::<Brand, _>(&rt, words, arcs, pass);
    Ok(())
}
