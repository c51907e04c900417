//! Courses of a few batches, and what they leave.
ghost use Rattle.std.specs.Prelude.{◌<◌, ◌≤◌, length};
ghost use Rattle.kc_text.specs.Inputs.{IsBatch};
ghost use Rattle.kc_text.specs.declared.limits.TheConstants.{MOST_UPDATES};
ghost use Rattle.kc_queue.specs.declared.consumer.TheConstants.{WORKERS};

use kc_batch_effects::Counts;
use kc_graph::{Graph, Update, decompose_owned};
use kc_run::{Course, Ran};
use kc_text::{Limits, parse};
use kc_workers::NoGate;
use std::alloc::Global;
use std::process::Abort;
use std::sync::Wait;
use std::test::Fail;
use std::thread::Threads;

/// A course from the path 0 1 2 3, with so many workers.
fn path(alloc: Global, workers: u32) -> Result<Course, Fail>
    requires { (0 < workers) × (workers ≤ WORKERS) }
{
    let graph = Graph::from_pairs(alloc, 4, &[(0, 1), (1, 2), (2, 3)])?;
    Ok(Course::open(alloc, decompose_owned(alloc, graph)?, workers)?)
}

/// Works a batch of one update, and counts what it did if there is memory.
fn work_batch<R: Abort + AllocGlobal + Threads + Wait + Sync>(
    rt: &R,
    course: Course,
    update: Update,
    ran: &mut Ran,
) -> (Course, Option<Counts>) {
    assert!(rt; update.v < course.graph().vertices());
    assert!(rt; course.entered() < 1000);
    let batch = [update];
    let (course, counts) = course.work(rt, rt.alloc(), &batch, &NoGate, ran);
    (course, counts.ok())
}

/// Works a batch of one update, and compares its counts.
fn work_one<R: Abort + AllocGlobal + Threads + Wait + Sync>(
    rt: &R,
    course: Course,
    update: Update,
    ran: &mut Ran,
    wanted: Counts,
) -> Course {
    let (course, counts) = work_batch(rt, course, update, ran);
    assert_eq!(rt; counts, Some(wanted));
    course
}

const ADDED: Counts = Counts {
    added: 1,
    removed: 0,
    kept: 0,
};

const REMOVED: Counts = Counts {
    added: 0,
    removed: 1,
    kept: 0,
};

const KEPT: Counts = Counts {
    added: 0,
    removed: 0,
    kept: 1,
};

/// A course has these core numbers, and so many edges.
fn assert_course<R: Abort>(rt: &R, course: &Course, core: &[u32], edges: u64) {
    let has = (course.core_numbers(), course.edges());
    assert_eq!(rt; has, (core, edges));
}

/// The path becomes a circle, which an edge that is there leaves as it is, and then a path again.
fn circle_and_back<R: Abort + AllocGlobal + Threads + Wait + Sync>(
    rt: &R,
    course: Course,
    ran: &mut Ran,
) -> Course {
    let ends = Update {
        add: true,
        u: 0,
        v: 3,
    };
    let course = work_one(rt, course, ends, ran, ADDED);
    assert_course(rt, &course, &[2, 2, 2, 2], 4);
    assert_eq!(rt; course.top(), 2);
    let course = work_one(rt, course, ends, ran, KEPT);
    let gone = Update {
        add: false,
        u: 1,
        v: 2,
    };
    let course = work_one(rt, course, gone, ran, REMOVED);
    assert_course(rt, &course, &[1, 1, 1, 1], 3);
    assert_eq!(rt; (course.top(), course.entered()), (1, 3));
    course
}

/// Compares the receipts of all batches, of one update each, with the places of their entries.
fn are_told_in_turn<R: Abort>(rt: &R, ran: &Ran, count: u32) {
    let mut place = 0;
    for share in &ran.shares {
        for done in &share.done {
            assert!(rt; place < count);
            let told = (done.receipt.index, done.receipt.place);
            assert_eq!(rt; told, (place, place + 1));
            place += 1;
        }
    }
    assert_eq!(rt; place, count);
}

#[test]
fn a_run_leaves_its_table_and_the_receipts_of_all_batches(rt: HostRuntime) -> Result<(), Fail> {
    for workers in [1, 2, 3] {
        let mut ran = Ran::new(rt.alloc());
        let course = path(rt.alloc(), workers)?;
        let course = circle_and_back(&rt, course, &mut ran);
        assert!(rt; ended(course, &mut ran));
        let left = (ran.tables.len(), ran.shares.len());
        assert_eq!(rt; left, (1, 3 * workers as usize));
        are_told_in_turn(&rt, &ran, 3);
    }
    Ok(())
}

/// Works a batch of one update, and once more where memory ran out before it was entered. Then the course has one entry more.
fn work_again<R: Abort + AllocGlobal + Threads + Wait + Sync>(
    rt: &R,
    course: Course,
    update: Update,
    ran: &mut Ran,
) -> Course {
    let before = course.entered();
    let (course, counts) = work_batch(rt, course, update, ran);
    if counts.is_some() || course.entered() > before {
        return course;
    }
    let (course, counts) = work_batch(rt, course, update, ran);
    assert!(rt; counts.is_some());
    course
}

/// The path becomes a circle, and then a path again.
fn circle_and_back_again<R: Abort + AllocGlobal + Threads + Wait + Sync>(
    rt: &R,
    course: Course,
    ran: &mut Ran,
) -> Course {
    let ends = Update {
        add: true,
        u: 0,
        v: 3,
    };
    let course = work_again(rt, course, ends, ran);
    assert_course(rt, &course, &[2, 2, 2, 2], 4);
    let gone = Update {
        add: false,
        u: 1,
        v: 2,
    };
    let course = work_again(rt, course, gone, ran);
    assert_course(rt, &course, &[1, 1, 1, 1], 3);
    course
}

/// With no request for memory refused each batch is worked at once. `rt try --test --fail-alloc N` refuses the one of this number.
#[test]
fn a_course_goes_on_where_memory_ran_out(rt: HostRuntime) -> Result<(), Fail> {
    let mut ran = Ran::new(rt.alloc());
    let course = circle_and_back_again(&rt, path(rt.alloc(), 2)?, &mut ran);
    assert_eq!(rt; course.entered(), 2);
    assert!(rt; ended(course, &mut ran));
    assert_eq!(rt; ran.tables.len(), 1);
    Ok(())
}

/// Ends a run, and once more where memory ran out.
fn ended(course: Course, ran: &mut Ran) -> bool {
    match course.end(ran) {
        Ok(()) => true,
        Err(course) => course.end(ran).is_ok(),
    }
}

/// A batch that adds an edge to the path, removes one, and leaves two as they are.
const MIXED: &[u8] = b"0 1\n1 2\n2 3\nbatch\n+ 0 3\n- 1 2\n+ 0 1\n- 0 2\n";

/// Works the batch of `MIXED` over the path with so many workers, and compares what it did.
fn work_mixed<R: Abort + AllocGlobal + Threads + Wait + Sync>(
    rt: &R,
    batch: &[Update],
    workers: u32,
) -> Result<(), Fail>
    requires batch { IsBatch 4 batch.now }
    requires few { length batch.now ≤ MOST_UPDATES }
    requires workers { (0 < workers) × (workers ≤ WORKERS) }
{
    let mut ran = Ran::new(rt.alloc());
    let course = path(rt.alloc(), workers)?;
    assert!(rt; course.graph().vertices() == 4);
    assert!(rt; course.entered() == 0);
    let (course, counts) = course.work(rt, rt.alloc(), batch, &NoGate, &mut ran);
    let Ok(counts) = counts else {
        panic!(rt; "no memory")
    };
    let wanted = Counts {
        added: 1,
        removed: 1,
        kept: 2,
    };
    assert_eq!(rt; counts, wanted);
    assert_course(rt, &course, &[1, 1, 1, 1], 3);
    Ok(())
}

#[test]
fn a_batch_counts_by_the_edges_before_it(rt: HostRuntime) -> Result<(), Fail> {
    let input = parse(rt.alloc(), Limits::KCORE, MIXED).map_err(|_| "refused")?;
    assert!(rt; input.ids.len() == 4);
    assert!(rt; input.batches.len() == 1);
    for workers in [1, 2] {
        work_mixed(&rt, &input.batches[0].updates, workers)?;
    }
    Ok(())
}
