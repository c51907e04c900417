//! One thread adds arcs and tells what it has seen, and three compare the ends of arcs that they were told of.
ghost use Rattle.std.specs.Prelude.{◌≡◌, ◌<◌};

use crate::arcs::add;
use kc_order::Answer;
use kc_table::{Name, Pass, Words, meet, split};
use kc_topo::{Added, Arcs, Dag};
use std::marker::{Brand, PhantomData};
use std::process::Abort;
use std::sync::{Mutex, Wait};
use std::test::Fail;
use std::thread;
use std::thread::Threads;

/// The last vertex: an arc leads to each vertex from the next.
const LAST: u32 = 199;

/// How many arcs were told of, and a pass that has seen them.
#[derive(Drop)]
struct Told<K: Name> {
    arcs: u32,
    pass: Pass,
    of: PhantomData<K>,
    ghost of_table: { pass.table ≡ K.opened.table },
}

/// Where the thread that adds tells the others.
type Board<K> = Mutex<Told<K>>;

/// Adds all arcs, and tells of each.
fn add_and_tell<K: Name, R: Wait + Abort + AllocGlobal>(
    rt: &R,
    dag: &Dag<K>,
    board: &Board<K>,
    mut pass: Pass,
)
    requires table { pass.table ≡ K.opened.table }
    requires vertices { LAST < K.opened.table.shape.items }
{
    for k in 0..LAST {
        add(rt, dag, &mut pass, (k + 1, k), Added::New);
        *board.lock(rt) = Told {
            arcs: k + 1,
            pass: split(dag.words(), &mut pass),
            of: PhantomData,
        };
    }
}

/// Takes in what was told, and gives how many arcs that is.
fn hear<K: Name, R: Wait>(rt: &R, dag: &Dag<K>, board: &Board<K>, pass: &mut Pass) -> u32
    requires { pass.old.table ≡ K.opened.table }
    ensures { pass.new.table ≡ K.opened.table }
{
    let mut told = board.lock(rt);
    let other = split(dag.words(), &mut told.pass);
    meet(dag.words(), pass, other);
    told.arcs
}

/// An arc that was told of: no sure answer has it turned, whatever moves meanwhile.
fn compare<K: Name, R: Abort>(rt: &R, dag: &Dag<K>, pass: &mut Pass, k: u32)
    requires table { pass.old.table ≡ K.opened.table }
    requires vertices { k < LAST × (LAST < K.opened.table.shape.items) }
    ensures { pass.new.table ≡ K.opened.table }
{
    match dag.precedes(pass, k + 1, k) {
        Answer::Before | Answer::Again(_) => {}
        Answer::After | Answer::Same | Answer::Absent { .. } => panic!(rt; "the arc was told of"),
    }
}

/// Compares the ends of all arcs that it is told of, until these are all that there are.
fn compare_told<K: Name, R: Wait + Abort>(rt: &R, dag: &Dag<K>, board: &Board<K>, mut pass: Pass)
    requires table { pass.table ≡ K.opened.table }
    requires vertices { LAST < K.opened.table.shape.items }
{
    for _ in rt.forever() {
        let told = hear(rt, dag, board, &mut pass).min(LAST);
        for k in 0..told {
            compare(rt, dag, &mut pass, k);
        }
        if told == LAST {
            return;
        }
    }
}

/// Three compare, each with a pass of its own.
fn compare_by_three<K: Name + Send + Sync, R: Threads + Wait + Abort + Sync>(
    rt: &R,
    dag: &Dag<K>,
    board: &Board<K>,
    mut pass: Pass,
)
    requires table { pass.table ≡ K.opened.table }
    requires vertices { LAST < K.opened.table.shape.items }
{
    let second = split(dag.words(), &mut pass);
    let third = split(dag.words(), &mut pass);
    thread::join(
        rt,
        move ||
            requires { (pass.table ≡ K.opened.table) × (LAST < K.opened.table.shape.items) }
        { compare_told(rt, dag, board, pass) },
        move ||
            requires { (second.table ≡ K.opened.table) × (third.table ≡ K.opened.table) × (LAST < K.opened.table.shape.items) }
        { compare_by_two(rt, dag, board, second, third) },
    );
}

/// Two compare, each with a pass of its own.
fn compare_by_two<K: Name + Send + Sync, R: Threads + Wait + Abort + Sync>(
    rt: &R,
    dag: &Dag<K>,
    board: &Board<K>,
    pass: Pass,
    other: Pass,
)
    requires table { (pass.table ≡ K.opened.table) × (other.table ≡ K.opened.table) }
    requires vertices { LAST < K.opened.table.shape.items }
{
    thread::join(
        rt,
        move ||
            requires { (pass.table ≡ K.opened.table) × (LAST < K.opened.table.shape.items) }
        { compare_told(rt, dag, board, pass) },
        move ||
            requires { (other.table ≡ K.opened.table) × (LAST < K.opened.table.shape.items) }
        { compare_told(rt, dag, board, other) },
    );
}

fn tell_three<K: Name + Send + Sync, R: Threads + Wait + Abort + AllocGlobal + Sync>(
    rt: &R,
    words: Words,
    arcs: Arcs,
    mut pass: Pass,
)
    requires table { (words ≡ K.opened.table) × (arcs.table ≡ K.opened.table) × (pass.table ≡ K.opened.table) }
    requires vertices { LAST < K.opened.table.shape.items }
{
    let dag = &Dag::<K>::new(words, arcs);
    let adding = split(dag.words(), &mut pass);
    let comparing = split(dag.words(), &mut pass);
    let board = &Mutex::new(Told {
        arcs: 0,
        pass,
        of: PhantomData,
    });
    thread::join(
        rt,
        move ||
            requires { (comparing.table ≡ K.opened.table) × (LAST < K.opened.table.shape.items) }
        { compare_by_three(rt, dag, board, comparing) },
        move ||
            requires { (adding.table ≡ K.opened.table) × (LAST < K.opened.table.shape.items) }
        { add_and_tell(rt, dag, board, adding) },
    );
}

#[test]
fn three_threads_find_each_arc_as_they_were_told(rt: HostRuntime) -> Result<(), Fail> {
    let (words, arcs, pass) = Arcs::open(rt.alloc(), LAST + 1)?;
    tell_three::<Brand, _>(&rt, words, arcs, pass);
    Ok(())
}
