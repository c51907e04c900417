//! The rule of the queue: what it holds is what comes next, and what all have taken is what came before.
//!
//! No value of a type of this module is made.
use crossbeam_queue::protocol::{Join, Lesson, Outcome, Protocol, Split};
use std::collections::LinkedList;

/// What a consumer knows: its parts of the right to know the whole, how many numbers the queue was filled with, and what it has taken.
pub struct Hand {
    pub parts: u64,
    pub filled: u64,
    pub taken: LinkedList<u32>,
}

pub struct Dealing;

impl Protocol<u32, Hand> for Dealing {
    ghost use Rattle.std.specs.Prelude.{[]};
    ghost use Rattle.kc_queue.specs.declared.consumer.TheConstants.{PARTS};
    ghost use Rattle.kc_queue.specs.Dealt.{hand, Dealt};

    ghost holds = { Dealt };

    ghost first = { hand PARTS 0 [] };
}

/// One part, with nothing taken, for another consumer.
pub struct Part;

impl Split<Hand> for Part {
    ghost use Rattle.std.specs.Prelude.{[], ◌-◌};
    ghost use Rattle.kc_queue.specs.Dealt.{hand};

    ghost left = { λ v. hand (v.parts - 1) v.filled v.taken };

    ghost right = { λ v. hand 1 v.filled [] };
}

impl Join<Hand> for Part {
    ghost use Rattle.std.specs.Prelude.{[], ◌+◌, ◌++◌};
    ghost use Rattle.kc_queue.specs.Dealt.{hand};

    ghost both = { λ v w. hand (v.parts + w.parts) v.filled (v.taken ++ w.taken) };

    ghost spent = { hand 0 0 [] };
}

/// The next number is put.
pub struct PutsNumber;

impl Outcome<u32, Hand> for PutsNumber {
    ghost use Rattle.std.specs.Prelude.{◌≡◌, ◌+◌};
    ghost use Rattle.kc_queue.specs.Dealt.{hand};

    ghost then = { λ v x w. w ≡ hand v.parts (v.filled + 1) v.taken };
}

impl Lesson<u32, Hand> for PutsNumber {
    ghost use Rattle.kc_queue.specs.Dealt.{HoldsAll};

    ghost fact = { HoldsAll };
}

/// A number is taken.
pub struct TakesNumber;

impl Outcome<u32, Hand> for TakesNumber {
    ghost use Rattle.kc_queue.specs.Dealt.{TakesNext};

    ghost then = { TakesNext };
}

impl Lesson<u32, Hand> for TakesNumber {
    ghost use Rattle.kc_queue.specs.Dealt.{HasTakenAll};

    ghost fact = { HasTakenAll };
}

/// What a consumer has taken, no one has twice.
pub struct Owns;

impl Lesson<u32, Hand> for Owns {
    ghost use Rattle.kc_queue.specs.Dealt.{OwnsShare};

    ghost fact = { OwnsShare };
}
