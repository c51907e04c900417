//! Which calls of a source or a sink in memory fail.
ghost use Rattle.std.specs.Prelude.{◌≡◌, ◌≤◌};
ghost use Rattle.kc_io.specs.Calls.{is_next_named, one_called, one_failed};

use crate::Failed;
use std::marker::Model;

/// The calls of a source or a sink in memory: the numbers from 1 of those that are to fail, how many calls there
/// were, and how many of them have failed, each count up to the last value of a `u64`.
#[derive(Drop)]
pub(crate) struct Calls {
    fails: Vec<u32>,
    made: u64,
    failed: u64,
}

impl Model for Calls {
    ghost use Rattle.kc_io.specs.Calls.{CallsSoFar};

    ghost Value = { CallsSoFar };

    ghost view = { λ c. record { fails = c.fails.items; made = c.made; failed = c.failed } };
}

impl Calls {
    /// No call so far.
    pub(crate) fn new(fails: Vec<u32>) -> Calls
        ensures { result ≡ record { fails = fails.items; made = 0; failed = 0 } }
    {
        Calls {
            fails,
            made: 0,
            failed: 0,
        }
    }

    /// Counts a call, and tells whether it is one that is to fail.
    pub(crate) fn begin(&mut self) -> bool
        ensures named { result ≡ is_next_named self.old }
        ensures counted { self.new ≡ one_called self.old }
    {
        self.made = self.made.saturating_add(1);
        let number = self.made;
        self.fails.iter().any(|call| u64::from(*call) == number)
    }

    /// Counts a call that fails, and gives its answer.
    pub(crate) fn fail(&mut self) -> Failed
        ensures counted { self.new ≡ one_failed self.old }
        ensures later { self.old.failed ≤ self.new.failed }
    {
        self.failed = self.failed.saturating_add(1);
        Failed
    }
}
