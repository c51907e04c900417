//! A look at what the lock guards.
ghost use Rattle.std.specs.Prelude.{◌≡◌};
ghost use Rattle.std.specs.Sync.Mutex.{mutex_guard_value};
ghost use Rattle.kc_journal.specs.Journals.{Stands};
ghost use Rattle.kc_shared.specs.States.{JournalGoesOn};

use crate::kept::Kept;
use kc_journal::Journal;
use kc_table::Name;
use std::marker::Model;
use std::sync::MutexGuard;
use std::sync::ledger::Ledger;

/// The journal of K's table as it is at one moment, lent to be read. Nobody enters an update while it lives, and nothing can be entered
/// through it. When it is dropped, the lock is free again.
#[derive(Drop)]
pub struct Look<'a, K: Name + Ledger> {
    kept: MutexGuard<'a, Kept<K>>,
}

impl<'a, K: Name + Ledger> Model for Look<'a, K> {
    ghost use Rattle.std.specs.Coded.{codes};
    ghost use Rattle.std.specs.Sync.Mutex.{mutex_guard_value};
    ghost use Rattle.kc_graph.specs.Rows.{code_of_graph};
    ghost use Rattle.kc_shared.specs.States.{Booked};

    ghost Value = { Booked };

    ghost coded = { Prim.hlevel (codes, code_of_graph) };

    ghost view = { λ look. mutex_guard_value look.kept };
}

impl<'a, K: Name + Ledger> Look<'a, K> {
    /// A look through the guard.
    pub(crate) fn new(kept: MutexGuard<'a, Kept<K>>) -> Look<'a, K>
        ensures { result ≡ mutex_guard_value kept.entry }
    {
        Look { kept }
    }

    /// The journal: graph, core numbers, their order and all entries.
    pub fn journal(&self) -> &Journal
        ensures is { result.now ≡ self.now.journal }
        ensures stands { Stands self.now.journal }
        ensures goes_on { JournalGoesOn K.opened K.start_edges K.log K.entries self.now }
    {
        self.kept.journal()
    }
}
