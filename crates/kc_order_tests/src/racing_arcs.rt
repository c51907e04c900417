//! One thread adds arcs that turn the whole list, and another compares its two ends meanwhile.
ghost use Rattle.std.specs.Prelude.{◌≡◌, ◌<◌};

use crate::arcs::add;
use kc_order::Answer;
use kc_table::{Name, Pass, Words, meet, split};
use kc_topo::{Added, Arcs, Dag};
use std::marker::{Brand, PhantomData};
use std::process::Abort;
use std::sync::{Mutex, Wait};
use std::test::Fail;
use std::thread;
use std::thread::Threads;

/// The last vertex: an arc leads to each vertex from the next.
const LAST: u32 = 999;

/// What has seen all arcs.
#[derive(Drop)]
struct Over<K: Name> {
    pass: Pass,
    of: PhantomData<K>,
    ghost of_table: { pass.table ≡ K.opened.table },
}

/// The pass of the thread that adds, once it has ended.
type Ended<K> = Mutex<Option<Over<K>>>;

/// Adds all arcs.
fn add_all<K: Name, R: Wait + Abort + AllocGlobal>(
    rt: &R,
    dag: &Dag<K>,
    ended: &Ended<K>,
    mut pass: Pass,
)
    requires table { pass.table ≡ K.opened.table }
    requires vertices { LAST < K.opened.table.shape.items }
{
    for k in 0..LAST {
        add(rt, dag, &mut pass, (k + 1, k), Added::New);
    }
    *ended.lock(rt) = Some(Over {
        pass,
        of: PhantomData,
    });
}

/// Both ends are in the list, however they stand.
fn compare<K: Name, R: Abort>(rt: &R, dag: &Dag<K>, pass: &mut Pass)
    requires table { pass.old.table ≡ K.opened.table }
    requires vertices { LAST < K.opened.table.shape.items }
    ensures { pass.new.table ≡ K.opened.table }
{
    match dag.precedes(pass, 0, LAST) {
        Answer::Before | Answer::After | Answer::Again(_) => {}
        Answer::Same | Answer::Absent { .. } => panic!(rt; "they are two vertices of the list"),
    }
}

/// After all arcs the ends have changed places.
fn compare_at_rest<K: Name, R: Abort>(rt: &R, dag: &Dag<K>, mut pass: Pass, over: Over<K>)
    requires table { pass.table ≡ K.opened.table }
    requires vertices { LAST < K.opened.table.shape.items }
{
    let Over { pass: other, .. } = over;
    meet(dag.words(), &mut pass, other);
    assert_eq!(rt; dag.precedes(&mut pass, 0, LAST), Answer::After);
}

/// Compares until all arcs were added, and once more when it has seen them.
fn compare_all<K: Name, R: Wait + Abort>(rt: &R, dag: &Dag<K>, ended: &Ended<K>, mut pass: Pass)
    requires table { pass.table ≡ K.opened.table }
    requires vertices { LAST < K.opened.table.shape.items }
{
    for _ in rt.forever() {
        compare(rt, dag, &mut pass);
        let over = ended.lock(rt).take();
        if let Some(over) = over {
            compare_at_rest(rt, dag, pass, over);
            return;
        }
    }
}

fn race<K: Name + Send + Sync, R: Threads + Wait + Abort + AllocGlobal + Sync>(
    rt: &R,
    words: Words,
    arcs: Arcs,
    mut pass: Pass,
)
    requires table { (words ≡ K.opened.table) × (arcs.table ≡ K.opened.table) × (pass.table ≡ K.opened.table) }
    requires vertices { LAST < K.opened.table.shape.items }
{
    let dag = &Dag::<K>::new(words, arcs);
    let ended = &Mutex::new(None);
    let other = split(dag.words(), &mut pass);
    thread::join(
        rt,
        move ||
            requires { (pass.table ≡ K.opened.table) × (LAST < K.opened.table.shape.items) }
        { compare_all(rt, dag, ended, pass) },
        move ||
            requires { (other.table ≡ K.opened.table) × (LAST < K.opened.table.shape.items) }
        { add_all(rt, dag, ended, other) },
    );
}

#[test]
fn answers_beneath_moves_are_sure_or_again_and_the_last_is_right(
    rt: HostRuntime,
) -> Result<(), Fail> {
    let (words, arcs, pass) = Arcs::open(rt.alloc(), LAST + 1)?;
    race::<Brand, _>(&rt, words, arcs, pass);
    Ok(())
}
