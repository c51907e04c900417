//! The bad lines that were passed over.
ghost use Rattle.std.specs.Prelude.{◌≡◌, ◌∷◌, ◌<◌, ◌+◌, ◌^◌, ◌++◌, [], List, OnOk};
ghost use Rattle.kc_dialect.specs.declared.bad_line.BadLine.{BadLine};
ghost use Rattle.kc_dialect.specs.Skipped.{AreSkipped};

use crate::bad_line::BadLine;
use kc_text::NoMemory;
use std::alloc::Global;

/// How many bad lines are kept.
pub const MOST_KEPT: usize = 5;

/// The bad lines of a text that were passed over.
#[derive(Drop)]
pub struct SkippedLines {
    /// How many they are.
    pub count: u64,
    /// The first of them, at most [`MOST_KEPT`], in their order.
    pub first: Vec<BadLine>,
}

impl SkippedLines {
    /// No bad line was passed over.
    pub(crate) fn new(alloc: Global) -> SkippedLines
        ensures none { AreSkipped result [] }
        ensures count { result.count ≡ 0 }
    {
        SkippedLines {
            count: 0,
            first: Vec::new(alloc),
        }
    }

    /// One bad line more is passed over.
    pub(crate) fn add(&mut self, bad: BadLine) -> Result<(), NoMemory>
        requires { self.old.count + 1 < 2 ^ 64 }
        ensures added { OnOk result ((before : List BadLine) → AreSkipped self.old before → AreSkipped self.new (before ++ bad ∷ [])) }
        ensures count { OnOk result (self.new.count ≡ self.old.count + 1) }
    {
        if self.first.len() < MOST_KEPT {
            self.first.push(bad)?;
        }
        self.count += 1;
        Ok(())
    }
}
