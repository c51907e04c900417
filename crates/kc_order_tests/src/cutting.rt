//! A comparison that is cut by the stores of a put, between any two of them.
ghost use Rattle.std.specs.Prelude.{◌≡◌, ◌≤◌};

use crate::lists::{HALF, plain};
use crate::slow_writer::{Around, Cut, SlowWriter, put_around};
use kc_order::Answer;
use kc_table::{Pass, Words};
use std::process::Abort;

/// A put of 64 after 0 splits their group: it stores the word of the new group, those of 63 down to 32, the note, and the word of 64.
const STORES: usize = 35;

/// A cut before the first store.
const AT_ONCE: Cut = Cut {
    first: 0,
    second: 0,
};

/// Puts the second half of a full group.
fn fill<R: Abort + AllocGlobal>(rt: &R, words: &Words, writer: &mut SlowWriter, pass: &mut Pass)
    requires table { (writer.old.table ≡ words.now) × (pass.old.table ≡ words.now) }
    requires shape { (words.now.shape.items ≡ 100) × (words.now.shape.fixed ≡ 0) }
    ensures { (writer.new.table ≡ words.now) × (pass.new.table ≡ words.now) }
{
    for x in 32..64 {
        put_around(rt, words, writer, pass, (x, x - 1), AT_ONCE);
    }
}

/// What a comparison of 63 with 0 answers that is cut by these stores of a put of 64 after 0, in a full group.
fn answer_in<R: Abort + AllocGlobal>(
    rt: &R,
    words: &Words,
    writer: &mut SlowWriter,
    pass: &mut Pass,
    cut: Cut,
) -> Answer
    requires table { (writer.old.table ≡ words.now) × (pass.old.table ≡ words.now) }
    requires shape { (words.now.shape.items ≡ 100) × (words.now.shape.fixed ≡ 0) }
    requires cut { cut.first ≤ cut.second }
{
    let Around { answer, stores } = put_around(rt, words, writer, pass, (64, 0), cut);
    assert!(rt; stores == STORES);
    answer
}

/// The same in a list of 100 items, of which 0 to 63 are in it, in ascending order and in one group.
fn answer_of<R: Abort + AllocGlobal>(rt: &R, cut: Cut) -> Answer
    requires { cut.first ≤ cut.second }
{
    let (words, mut writer, mut pass) = SlowWriter::open(rt.alloc(), plain(100), &HALF).expect(
        rt,
        "no memory",
    );
    fill(rt, &words, &mut writer, &mut pass);
    answer_in(rt, &words, &mut writer, &mut pass, cut)
}

/// Whether an answer is sure. It is not exactly where the word of 63 was stored between the two collects.
fn is_sure<R: Abort>(rt: &R, cut: Cut, answer: Answer) -> bool {
    match answer {
        Answer::Again(again) => {
            assert!(rt; cut.first <= 1 && 2 <= cut.second);
            assert!(rt; again.word == 64 && again.first != again.second);
            false
        }
        sure => {
            assert!(rt; cut.first > 1 || cut.second < 2);
            assert_eq!(rt; sure, Answer::After);
            true
        }
    }
}

/// How many comparisons that begin after so many stores have a sure answer while the put stands between its first and its last store.
fn count_sure<R: Abort + AllocGlobal>(rt: &R, first: usize) -> u64
    requires { first ≤ STORES }
{
    let mut count = 0u64;
    for second in first..=STORES {
        let cut = Cut { first, second };
        let answer = answer_of(rt, cut);
        if is_sure(rt, cut, answer) && 1 <= first && second < STORES {
            count = count.saturating_add(1);
        }
    }
    count
}

#[test]
fn a_comparison_is_cut_between_any_two_stores_of_a_split(rt: HostRuntime) {
    let mut count = 0u64;
    for first in 0..=STORES {
        count = count.saturating_add(count_sure(&rt, first));
    }
    // One whose collects both come after the first store, and all that begin after a later one and end before the last.
    assert_eq!(rt; count, 1 + 33 * 34 / 2);
}
