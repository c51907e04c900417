//! Rounds on small graphs, and shards with something wrong. The numbers are worked out by hand.
use kc_shard::{RoundError, ShardFault, h_index_round};
use std::process::Abort;

/// A triangle with a tail: the neighbours of 0, 1, 2 and 3.
const TAILED_OFFSETS: [u64; 5] = [0, 2, 4, 7, 8];

const TAILED_NEIGHBOURS: [u32; 8] = [1, 2, 0, 2, 0, 1, 3, 2];

/// A round on the triangle with a tail gives its core numbers, and changes so many of these numbers.
fn assert_round<R: Abort + AllocGlobal>(rt: &R, numbers: [u32; 4], changed: usize) {
    let mut next = numbers;
    let done = h_index_round(
        rt.alloc(),
        &TAILED_OFFSETS,
        &TAILED_NEIGHBOURS,
        &numbers,
        &mut next,
    );
    assert_eq!(rt; (done, next), (Ok(changed), [2, 2, 2, 1]));
}

#[test]
fn rounds_of_a_triangle_with_a_tail(rt: HostRuntime) {
    assert_round(&rt, [2, 2, 3, 1], 1);
    assert_round(&rt, [2, 2, 2, 1], 0);
}

#[test]
fn a_shard_of_some_rows(rt: HostRuntime) {
    let mut next = [9, 9, 9];
    let done = h_index_round(
        rt.alloc(),
        &[0, 3, 3, 5],
        &[2, 0, 3, 1, 1],
        &[5, 0, 3, 3],
        &mut next,
    );
    assert_eq!(rt; (done, next), (Ok(3), [3, 0, 0]));
}

/// A shard of two rows, of a graph with three vertices, has this wrong, and nothing is written.
fn assert_fault<R: Abort + AllocGlobal>(rt: &R, offsets: &[u64], fault: ShardFault) {
    let mut next = [7, 7];
    let done = h_index_round(rt.alloc(), offsets, &[0, 2, 3], &[1, 1, 1], &mut next);
    let wanted = (Err(RoundError::Shard(fault)), [7, 7]);
    assert_eq!(rt; (done, next), wanted, "{fault:?}");
}

/// The length of a row that is too long by one.
const LONG: u64 = 1 << 32;

const FAULTS: [(&[u64], ShardFault); 8] = [
    (&[], ShardFault::WrongOffsetCount),
    (&[0, 3], ShardFault::WrongOffsetCount),
    (&[1, 1, 3], ShardFault::FirstNotZero),
    (&[0, 2, 1], ShardFault::Descending(2)),
    (&[0, 0, LONG], ShardFault::LongRow(1)),
    (&[0, 0, LONG - 1], ShardFault::WrongLastOffset),
    (&[0, 1, 2], ShardFault::WrongLastOffset),
    (&[0, 1, 3], ShardFault::NotAVertex(2)),
];

#[test]
fn shards_with_something_wrong(rt: HostRuntime) {
    for (offsets, fault) in &FAULTS {
        assert_fault(&rt, offsets, *fault);
    }
}
