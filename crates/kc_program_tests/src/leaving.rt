//! What a run leaves of its shares and tables.
use crate::checks::{Left, NONE, TRIANGLE, WORKERS, run_on, words_with};
use kc_journal::Receipt;
use kc_run::Ran;
use kc_top::Status;
use std::alloc::Global;
use std::process::Abort;
use std::sync::Wait;
use std::test::Fail;
use std::thread::Threads;

/// The receipts of all updates, share by share.
fn receipts_of(alloc: Global, ran: &Ran) -> Result<Vec<Receipt>, Fail> {
    let mut receipts = Vec::new(alloc);
    for share in &ran.shares {
        for done in &share.done {
            receipts.push(done.receipt)?;
        }
    }
    Ok(receipts)
}

/// What the run on an input leaves with so many workers.
fn left_with<R: Abort + AllocGlobal + Threads + Wait + Sync>(
    rt: &R,
    workers: &str,
    input: &[u8],
) -> Result<Left, Fail> {
    let words = words_with(rt.alloc(), workers, &[])?;
    let input = Vec::from_slice(rt.alloc(), input)?;
    run_on(rt, &words, input, NONE, 399)
}

/// What the runs on an input leave with so many workers, which are done: the receipts of all updates, share by share.
fn receipts_left<R: Abort + AllocGlobal + Threads + Wait + Sync>(
    rt: &R,
    workers: &str,
    input: &[u8],
    shares: usize,
    tables: usize,
) -> Result<Vec<Receipt>, Fail> {
    let left = left_with(rt, workers, input)?;
    let found = (left.status, left.ran.shares.len(), left.ran.tables.len());
    assert_eq!(rt; found, (Status::Done, shares, tables));
    receipts_of(rt.alloc(), &left.ran)
}

#[test]
fn a_run_without_a_batch_leaves_nothing(rt: HostRuntime) -> Result<(), Fail> {
    for workers in WORKERS {
        let receipts = receipts_left(&rt, workers, TRIANGLE, 0, 0)?;
        assert!(rt; receipts.is_empty());
    }
    Ok(())
}

/// An edge that comes, and goes again in the next batch.
const THERE_AND_BACK: &[u8] = b"batch\n+ 1 2\nbatch\n- 2 1\n";

#[test]
fn a_run_leaves_a_table_and_a_receipt_for_each_update(rt: HostRuntime) -> Result<(), Fail> {
    let wanted = [
        Receipt {
            index: 0,
            place: 1,
            applied: true,
        },
        Receipt {
            index: 1,
            place: 2,
            applied: true,
        },
    ];
    for (workers, shares) in [("1", 2), ("2", 4), ("8", 16)] {
        let receipts = receipts_left(&rt, workers, THERE_AND_BACK, shares, 1)?;
        assert_eq!(rt; receipts.as_slice(), wanted.as_slice());
    }
    Ok(())
}
