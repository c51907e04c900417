//! Workers in threads, over two rounds: what they took and what was left, together, is each number once.
ghost use Rattle.std.specs.Prelude.{◌≡◌, ◌<◌, ◌≤◌, ◌+◌, ◌++◌, [], IfOk, length, vec_len};
ghost use Rattle.kc_queue.specs.declared.consumer.TheConstants.{PARTS};
ghost use Rattle.kc_queue.specs.Shares.{AreAllBelow};

use kc_queue::{Consumer, NoMemory, Queued, WorkQueue};
use std::alloc::Global;
use std::marker::{Brand, PhantomData};
use std::sync::Wait;
use std::test::Fail;
use std::thread;
use std::thread::Threads;

// A worker, and what it was told.
#[derive(Drop)]
struct Worker<K: Queued> {
    consumer: Consumer,
    told: Vec<u32>,
    of: PhantomData<K>,
    ghost queue: { consumer.queue ≡ K.queue },
    ghost part: { consumer.parts ≡ 1 },
    ghost told_all: { consumer.taken ≡ told.items },
}

impl<K: Queued> Worker<K> {
    // Takes numbers, `most` at the most, until the queue is empty or memory runs out.
    fn work<R: Wait>(&mut self, rt: &R, queue: &WorkQueue, most: u32)
        requires { queue.now ≡ K.queue }
    {
        for _ in 0..most {
            if self.told.reserve(1).is_err() {
                return;
            }
            let Some(number) = queue.take(rt, &mut self.consumer) else {
                return;
            };
            self.told.push_reserved(number);
        }
    }
}

// As many workers as are asked for, each with one of the parts.
fn hire<K: Queued>(
    alloc: Global,
    queue: &WorkQueue,
    all: &mut Consumer,
    count: usize,
) -> Result<Vec<Worker<K>>, NoMemory>
    requires queue { (queue.now ≡ K.queue) × (all.old.queue ≡ K.queue) }
    requires parts { count < all.old.parts }
    ensures workers { IfOk result (λ ws. vec_len ws ≡ count) }
    ensures all { IfOk result (λ ws. (all.new.queue ≡ all.old.queue) × (all.new.taken ≡ all.old.taken) × (all.new.parts + count ≡ all.old.parts)) }
{
    let mut workers = Vec::with_capacity(alloc, count)?;
    for _ in 0..count {
        let consumer = queue.split(all);
        workers.push_reserved(Worker {
            consumer,
            told: Vec::new(alloc),
            of: PhantomData,
        });
    }
    Ok(workers)
}

// All consumers as one, and what all were told, in the same order.
fn gather<K: Queued>(
    queue: &WorkQueue,
    all: &mut Consumer,
    mut workers: Vec<Worker<K>>,
    mut told: Vec<u32>,
) -> Result<Vec<u32>, NoMemory>
    requires queue { (queue.now ≡ K.queue) × (all.old.queue ≡ K.queue) }
    requires told { all.old.taken ≡ told.items }
    ensures told { IfOk result (λ ts. all.new.taken ≡ ts.items) }
    ensures all { IfOk result (λ ts. (all.new.queue ≡ all.old.queue) × (all.new.parts ≡ all.old.parts + vec_len workers)) }
{
    while let Some(worker) = workers.pop() {
        told.extend_from_slice(worker.told.as_slice())?;
        queue.join(all, worker.consumer);
    }
    Ok(told)
}

// Threads take numbers, each `most` at the most.
fn round<K: Queued + Send + Sync, R: Threads + Wait + Sync>(
    rt: &R,
    alloc: Global,
    queue: &WorkQueue,
    all: &mut Consumer,
    told: Vec<u32>,
    most: u32,
) -> Result<Vec<u32>, NoMemory>
    requires queue { (queue.now ≡ K.queue) × (all.old.queue ≡ K.queue) }
    requires parts { all.old.parts ≡ PARTS }
    requires told { all.old.taken ≡ told.items }
    ensures told { IfOk result (λ ts. all.new.taken ≡ ts.items) }
    ensures all { IfOk result (λ ts. (all.new.queue ≡ all.old.queue) × (all.new.parts ≡ PARTS)) }
{
    let mut workers = hire::<K>(alloc, queue, all, 3)?;
    thread::for_each_mut(
        rt,
        workers.as_mut_slice(),
        3,
        &|_, worker| worker.work(rt, queue, most),
    );
    gather(queue, all, workers, told)
}

// What is left, when all consumers are one.
fn take_rest<R: Wait>(
    rt: &R,
    queue: &WorkQueue,
    all: &mut Consumer,
    mut told: Vec<u32>,
) -> Result<Vec<u32>, NoMemory>
    requires queue { all.old.queue ≡ queue.now }
    requires parts { all.old.parts ≡ PARTS }
    requires told { all.old.taken ≡ told.items }
    ensures { IfOk result (λ ts. AreAllBelow queue.now.count ts.items) }
{
    for _ in rt.forever() {
        told.reserve(1)?;
        let Some(number) = queue.take(rt, all) else {
            return Ok(told);
        };
        told.push_reserved(number);
    }
    unreachable!()
}

// What all were told in two rounds, and what was left then: each number once.
fn share_out<K: Queued + Send + Sync, R: Threads + Wait + Sync>(
    rt: &R,
    alloc: Global,
    queue: WorkQueue,
    mut all: Consumer,
    most: u32,
) -> Result<Vec<u32>, NoMemory>
    requires queue { queue ≡ K.queue }
    requires all { all ≡ record { queue = queue; parts = PARTS; taken = [] } }
    ensures { IfOk result (λ ts. AreAllBelow queue.count ts.items) }
{
    let told = round::<K, R>(rt, alloc, &queue, &mut all, Vec::new(alloc), 7)?;
    let told = round::<K, R>(rt, alloc, &queue, &mut all, told, most)?;
    take_rest(rt, &queue, &mut all, told)
}

// Whether these are 0 to `count - 1`, in some order.
fn is_whole(told: &mut Vec<u32>, count: u32) -> bool {
    told.sort_unstable();
    told.len() == count as usize && (0..count).zip(told.iter()).all(|(k, x)| k == *x)
}

#[test]
fn workers_take_each_number_once(rt: HostRuntime) -> Result<(), Fail> {
    for count in [1, 2, 20, 21, 22, 5_000] {
        let (queue, all) = WorkQueue::filled(&rt, rt.alloc(), count)?;
        let mut told = share_out::<Brand, _>(&rt, rt.alloc(), queue, all, u32::MAX)?;
        assert!(rt; is_whole(&mut told, count));
    }
    Ok(())
}

#[test]
fn what_is_left_is_taken_last(rt: HostRuntime) -> Result<(), Fail> {
    let (queue, all) = WorkQueue::filled(&rt, rt.alloc(), 100)?;
    let mut told = share_out::<Brand, _>(&rt, rt.alloc(), queue, all, 0)?;
    let in_order = (21..100).zip(told.iter().skip(21)).all(|(k, x)| k == *x);
    assert!(rt; in_order);
    assert!(rt; is_whole(&mut told, 100));
    Ok(())
}
