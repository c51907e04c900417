//! The threads that compare.
ghost use Rattle.std.specs.Prelude.{◌≡◌, ◌<◌, ◌≤◌};
ghost use Rattle.stress_order.specs.declared.rounds.TheConstants.{ITEMS as ALL_ITEMS};

use crate::board::{Board, Heard, hear, pass_of};
use crate::rounds::{ITEMS, ROUNDS};
use crate::wrong::Wrong;
use kc_order::{Answer, SharedOrder};
use kc_table::{Name, Pass};
use rand::RngExt;
use rand_core::SeedableRng;
use rand_xoshiro::Xoshiro256PlusPlus;
use std::marker::PhantomData;
use std::sync::Wait;

/// How many times a thread compares before it takes in again what was told.
const TURNS: u32 = 8;

/// What a thread that compares has found.
#[derive(Clone, Copy, Drop)]
pub(crate) struct Found {
    pub(crate) comparisons: u64,
    pub(crate) sure: u64,
    pub(crate) wrong: Option<Wrong>,
}

/// What such a thread keeps.
#[derive(Drop)]
struct Comparer<K: Name> {
    pass: Pass,
    draws: Xoshiro256PlusPlus,
    found: Found,
    of: PhantomData<K>,
    ghost of_table: { pass.table ≡ K.opened.table },
    ghost same: { K.opened.table.shape.items ≡ ALL_ITEMS },
}

impl<K: Name> Comparer<K> {
    /// Compares two items.
    fn ask(&mut self, shared: &SharedOrder<K>, first: u32, second: u32) -> Answer
        requires { (first < ITEMS) × (second < ITEMS) }
    {
        let answer = shared.precedes(&mut self.pass, first, second);
        self.found.comparisons = self.found.comparisons.saturating_add(1);
        answer
    }

    /// Notes an answer that is wrong, unless one was noted.
    fn note(&mut self, told: Heard, first: u32, second: u32, answer: Answer) {
        if self.found.wrong.is_none() {
            self.found.wrong = Some(Wrong::Answered {
                told: told.rounds,
                first,
                second,
                answer,
            });
        }
    }

    /// Compares two items that are in the list. The answer is the wanted one, or `Again`.
    fn compare(
        &mut self,
        shared: &SharedOrder<K>,
        told: Heard,
        first: u32,
        second: u32,
        wanted: Answer,
    )
        requires { (first < ITEMS) × (second < ITEMS) }
    {
        let answer = self.ask(shared, first, second);
        if answer == wanted {
            self.found.sure = self.found.sure.saturating_add(1);
        } else if !matches!(answer, Answer::Again(_)) {
            self.note(told, first, second, answer);
        }
    }

    /// An odd item of which the thread was told is out, whatever is stored meanwhile.
    fn compare_taken(&mut self, shared: &SharedOrder<K>, told: Heard, odd: u32)
        requires { odd < ITEMS }
    {
        let answer = self.ask(shared, odd, 0);
        if answer == (Answer::Absent { item: odd }) {
            self.found.sure = self.found.sure.saturating_add(1);
        } else {
            self.note(told, odd, 0, answer);
        }
    }

    /// An item that may be put, moved and taken at this very moment is out, or behind 0.
    fn compare_moving(&mut self, shared: &SharedOrder<K>, told: Heard, item: u32)
        requires { item < ITEMS }
    {
        let answer = self.ask(shared, 0, item);
        if matches!(answer, Answer::After | Answer::Same) {
            self.note(told, 0, item, answer);
        }
    }

    /// Compares items of which the thread was told, and those of the next round.
    fn turn(&mut self, shared: &SharedOrder<K>, told: Heard) {
        if told.rounds == 0 {
            return;
        }
        let early = self.draws.random_range(1..told.rounds + 1);
        let late = self.draws.random_range(early..told.rounds + 1);
        self.compare(shared, told, 0, 2 * late, Answer::Before);
        self.compare(shared, told, 2 * early, 0, Answer::After);
        if early < late {
            self.compare(shared, told, 2 * late, 2 * early, Answer::Before);
            self.compare(shared, told, 2 * early, 2 * late, Answer::After);
        }
        self.compare_taken(shared, told, 2 * early - 1);
        self.compare_moving(shared, told, 2 * told.rounds + 1);
    }

    /// Takes in what was told, and makes so many turns. Says whether there is no more to do.
    fn turns<R: Wait>(&mut self, rt: &R, shared: &SharedOrder<K>, board: &Board<K>) -> bool {
        let told = hear(rt, shared, board, &mut self.pass);
        for _ in 0..TURNS {
            self.turn(shared, told);
        }
        told.ended || self.found.wrong.is_some()
    }
}

/// Compares until no more rounds will come, or an answer is wrong.
pub(crate) fn compare_told<K: Name, R: Wait>(
    rt: &R,
    shared: &SharedOrder<K>,
    board: &Board<K>,
    seed: u64,
) -> Found
    requires { K.opened.table.shape.items ≡ ITEMS }
{
    let mut comparer = Comparer::<K> {
        pass: pass_of(rt, shared, board),
        draws: Xoshiro256PlusPlus::seed_from_u64(seed),
        found: Found {
            comparisons: 0,
            sure: 0,
            wrong: None,
        },
        of: PhantomData,
    };
    for _ in rt.forever() {
        if comparer.turns(rt, shared, board) {
            break;
        }
    }
    comparer.found
}
