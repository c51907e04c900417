//! What the thread that changes the list tells the others.
ghost use Rattle.std.specs.Prelude.{◌≡◌, ◌≤◌};
ghost use Rattle.stress_order.specs.declared.rounds.TheConstants.{ROUNDS as LAST_ROUND};

use crate::rounds::ROUNDS;
use kc_order::SharedOrder;
use kc_table::{Name, Pass, meet, split};
use std::marker::PhantomData;
use std::sync::{Mutex, Wait};

/// How many rounds are over, whether no more will come, and a pass that has seen them.
#[derive(Drop)]
pub(crate) struct Told<K: Name> {
    pub(crate) rounds: u32,
    pub(crate) ended: bool,
    pub(crate) pass: Pass,
    pub(crate) of: PhantomData<K>,
    ghost of_table: { pass.table ≡ K.opened.table },
    ghost within: { rounds ≤ LAST_ROUND },
}

/// Where it is told.
pub(crate) type Board<K> = Mutex<Told<K>>;

/// What a thread was told of.
#[derive(Clone, Copy, Drop)]
pub(crate) struct Heard {
    pub(crate) rounds: u32,
    pub(crate) ended: bool,
    ghost within: { rounds ≤ LAST_ROUND },
}

/// A board where nothing is told yet.
pub(crate) fn open_board<K: Name>(pass: Pass) -> Board<K>
    requires { pass.table ≡ K.opened.table }
{
    Mutex::new(Told {
        rounds: 0,
        ended: false,
        pass,
        of: PhantomData,
    })
}

/// Tells of so many rounds.
pub(crate) fn tell<K: Name, R: Wait>(
    rt: &R,
    shared: &SharedOrder<K>,
    board: &Board<K>,
    pass: &mut Pass,
    rounds: u32,
)
    requires table { pass.old.table ≡ K.opened.table }
    requires rounds { rounds ≤ ROUNDS }
    ensures { pass.new.table ≡ K.opened.table }
{
    let next = Told {
        rounds,
        ended: false,
        pass: split(shared.words(), pass),
        of: PhantomData,
    };
    *board.lock(rt) = next;
}

/// Tells that no more will come.
pub(crate) fn end<K: Name, R: Wait>(rt: &R, board: &Board<K>) {
    let mut told = board.lock(rt);
    told.ended = true;
}

/// A pass that has seen what was told.
pub(crate) fn pass_of<K: Name, R: Wait>(rt: &R, shared: &SharedOrder<K>, board: &Board<K>) -> Pass
    ensures { result.table ≡ K.opened.table }
{
    let mut told = board.lock(rt);
    split(shared.words(), &mut told.pass)
}

/// Takes in what was told.
pub(crate) fn hear<K: Name, R: Wait>(
    rt: &R,
    shared: &SharedOrder<K>,
    board: &Board<K>,
    pass: &mut Pass,
) -> Heard
    requires { pass.old.table ≡ K.opened.table }
    ensures { pass.new.table ≡ K.opened.table }
{
    let mut told = board.lock(rt);
    let other = split(shared.words(), &mut told.pass);
    meet(shared.words(), pass, other);
    Heard {
        rounds: told.rounds,
        ended: told.ended,
    }
}
