//! The thread that changes the list.
ghost use Rattle.std.specs.Prelude.{◌≡◌, ◌≢◌, ◌<◌, ◌≤◌};
ghost use Rattle.stress_order.specs.declared.rounds.TheConstants.{ITEMS as ALL_ITEMS};

use crate::board::{Board, end, tell};
use crate::rounds::{ITEMS, NEAR, ROUNDS};
use crate::wrong::Wrong;
use kc_list::PlainOrder;
use kc_order::SharedOrder;
use kc_table::{Name, Pass};
use kc_words::LAST_VERSION;
use rand::RngExt;
use rand_core::SeedableRng;
use rand_xoshiro::Xoshiro256PlusPlus;
use std::marker::PhantomData;
use std::sync::Wait;

/// What that thread keeps: its pass, a list of one thread to which the same is done, and how many words were stored, notes among them.
#[derive(Drop)]
pub(crate) struct Changer<K: Name> {
    pass: Pass,
    plain: PlainOrder,
    draws: Xoshiro256PlusPlus,
    pub(crate) stores: u64,
    of: PhantomData<K>,
    ghost of_table: { pass.table ≡ K.opened.table },
    ghost room: { plain.items ≡ ALL_ITEMS },
    ghost free: { plain.fixed ≡ 0 },
    ghost same: { K.opened.table.shape.items ≡ ALL_ITEMS },
}

impl<K: Name> Changer<K> {
    /// Nothing is done so far.
    pub(crate) fn new(pass: Pass, plain: PlainOrder, seed: u64) -> Changer<K>
        requires table { pass.table ≡ K.opened.table }
        requires items { (plain.items ≡ ITEMS) × (K.opened.table.shape.items ≡ ITEMS) }
        requires free { plain.fixed ≡ 0 }
    {
        Changer {
            pass,
            plain,
            draws: Xoshiro256PlusPlus::seed_from_u64(seed),
            stores: 0,
            of: PhantomData,
        }
    }

    /// The list of one thread.
    pub(crate) fn into_plain(self) -> PlainOrder
        ensures { result.items ≡ ITEMS }
    {
        self.plain
    }

    /// Counts what the last call on the list of one thread has stored, and its note.
    fn count(&mut self) {
        let written = self.plain.writes().len() as u64;
        self.stores = self.stores.saturating_add(written).saturating_add(1);
    }

    /// Puts an item right after another in both lists.
    fn put<R: Wait>(
        &mut self,
        rt: &R,
        shared: &SharedOrder<K>,
        round: u32,
        x: u32,
        p: u32,
    ) -> Result<(), Wrong>
        requires items { (x < ITEMS) × (p < ITEMS) }
        requires differ { x ≢ p }
    {
        if let Err(fault) = shared.put_after(rt, &mut self.pass, x, p) {
            return Err(Wrong::Refused { round, fault });
        }
        if !self.plain.present(p) || self.plain.highest() > LAST_VERSION - 3 {
            return Err(Wrong::Parted { round });
        }
        self.plain.put_after(x, p);
        self.count();
        Ok(())
    }

    /// Takes an item out of both lists.
    fn take<R: Wait>(
        &mut self,
        rt: &R,
        shared: &SharedOrder<K>,
        round: u32,
        x: u32,
    ) -> Result<(), Wrong>
        requires { x < ITEMS }
    {
        if let Err(fault) = shared.take(rt, &mut self.pass, x) {
            return Err(Wrong::Refused { round, fault });
        }
        if !self.plain.present(x) || self.plain.highest() > LAST_VERSION - 3 {
            return Err(Wrong::Parted { round });
        }
        self.plain.take(x);
        self.count();
        Ok(())
    }

    /// One round, of which the others are told.
    fn make_round<R: Wait>(
        &mut self,
        rt: &R,
        shared: &SharedOrder<K>,
        board: &Board<K>,
        round: u32,
    ) -> Result<(), Wrong>
        requires { (0 < round) × (round ≤ ROUNDS) }
    {
        let (odd, even) = (2 * round - 1, 2 * round);
        let near = 2 * self.draws.random_range(round - round.min(NEAR)..round);
        let behind = 2 * self.draws.random_range(1..round + 1);
        self.put(rt, shared, round, odd, near)?;
        self.put(rt, shared, round, even, 0)?;
        self.put(rt, shared, round, odd, behind)?;
        self.take(rt, shared, round, odd)?;
        tell(rt, shared, board, &mut self.pass, round);
        Ok(())
    }

    /// Rounds up to the last, or to the first in which something is wrong.
    fn make_rounds<R: Wait>(
        &mut self,
        rt: &R,
        shared: &SharedOrder<K>,
        board: &Board<K>,
    ) -> Result<(), Wrong> {
        for round in 1..=ROUNDS {
            self.make_round(rt, shared, board, round)?;
        }
        Ok(())
    }

    /// All rounds, after which no more will come.
    pub(crate) fn change<R: Wait>(
        mut self,
        rt: &R,
        shared: &SharedOrder<K>,
        board: &Board<K>,
    ) -> (Changer<K>, Option<Wrong>) {
        let wrong = self.make_rounds(rt, shared, board).err();
        end(rt, board);
        (self, wrong)
    }
}
