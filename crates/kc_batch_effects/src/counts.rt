//! What a batch did, counted.
ghost use Rattle.std.specs.Prelude.{◌≡◌, ◌≤◌, ◌<◌, ◌+◌, ◌&&◌, not, All, length, if◌then◌else◌};
ghost use Rattle.kc_batch_effects.specs.Entered.{IsIndexOf};
ghost use Rattle.kc_batch_effects.specs.Outcomes.{told_added, told_kept, told_removed};
ghost use Rattle.kc_text.specs.declared.limits.TheConstants.{MOST_UPDATES};

use crate::outcome::Outcome;
use kc_graph::Update;

/// What the updates of a batch did, each counted once.
#[derive(Clone, Copy, Debug, Eq, PartialEq)]
pub struct Counts {
    /// How many added an edge.
    pub added: u32,
    /// How many removed an edge.
    pub removed: u32,
    /// How many changed nothing, since the edge to be added was there, or the one to be removed was not.
    pub kept: u32,
}

impl Counts {
    /// The counts of no update.
    pub fn none() -> Counts
        ensures added { result.added ≡ 0 }
        ensures removed { result.removed ≡ 0 }
        ensures kept { result.kept ≡ 0 }
    {
        Counts {
            added: 0,
            removed: 0,
            kept: 0,
        }
    }

    /// The counts with one update more, which adds an edge or removes one, and was applied or not.
    pub fn with(self, add: bool, applied: bool) -> Counts
        requires added { self.added < MOST_UPDATES }
        requires removed { self.removed < MOST_UPDATES }
        requires kept { self.kept < MOST_UPDATES }
        ensures added { result.added ≡ (if add && applied then self.added + 1 else self.added) }
        ensures removed { result.removed ≡ (if not add && applied then self.removed + 1 else self.removed) }
        ensures kept { result.kept ≡ (if not applied then self.kept + 1 else self.kept) }
    {
        match (applied, add) {
            (true, true) => Counts {
                added: self.added + 1,
                ..self
            },
            (true, false) => Counts {
                removed: self.removed + 1,
                ..self
            },
            (false, _) => Counts {
                kept: self.kept + 1,
                ..self
            },
        }
    }
}

/// Counts what is told of the updates of a batch, whose first one has the index `first`. It takes one step for each outcome, in any order,
/// and no memory.
///
/// Where there is an outcome for each update, these are the numbers of the batch itself: `laws::outcomes_tell_what_a_batch_did`.
///
/// # Example
///
/// ```rust
/// use kc_batch_effects::{Outcome, count};
/// use kc_graph::Update;
///
/// let batch = [Update { add: true, u: 0, v: 1 }, Update { add: false, u: 2, v: 3 }];
/// let removed = Outcome { index: 11, applied: true };
/// let kept = Outcome { index: 10, applied: false };
/// let counts = count(10, &batch, &[removed, kept]); // added 0, removed 1, kept 1
/// ```
pub fn count(first: u32, batch: &[Update], outcomes: &[Outcome]) -> Counts
    requires within { All (λ o. IsIndexOf first batch.now o.index) outcomes.now }
    requires few { length outcomes.now ≤ MOST_UPDATES }
    ensures added { result.added ≡ told_added first batch.now outcomes.now }
    ensures removed { result.removed ≡ told_removed first batch.now outcomes.now }
    ensures kept { result.kept ≡ told_kept outcomes.now }
{
    let mut counts = Counts::none();
    for outcome in outcomes {
        let place = (outcome.index - first) as usize;
        counts = counts.with(batch[place].add, outcome.applied);
    }
    counts
}
