//! How often each kind of plan came.
use kc_graph::{Moves, Plan};

/// How many plans of each kind there were. A plan may be of several kinds.
#[derive(Clone, Copy, Debug)]
pub(crate) struct Tally {
    pub plans: u64,
    /// Nothing changes.
    pub kept: u64,
    /// The edge changes, and nothing else.
    pub plain: u64,
    /// One vertex or more is put behind another of its level.
    pub shifting: u64,
    /// A vertex rises.
    pub rising: u64,
    /// Two vertices or more rise.
    pub rising_together: u64,
    /// A vertex falls.
    pub falling: u64,
    /// Two vertices or more fall.
    pub falling_together: u64,
}

/// Counts one more, if it is one.
fn add(count: &mut u64, is_one: bool) {
    if is_one {
        *count = count.saturating_add(1);
    }
}

impl Tally {
    /// No plan was counted.
    pub(crate) fn new() -> Tally {
        Tally {
            plans: 0,
            kept: 0,
            plain: 0,
            shifting: 0,
            rising: 0,
            rising_together: 0,
            falling: 0,
            falling_together: 0,
        }
    }

    /// Counts a plan.
    pub(crate) fn count(&mut self, plan: &Plan) {
        add(&mut self.plans, true);
        match &plan.moves {
            Moves::Kept => add(&mut self.kept, true),
            Moves::Plain => add(&mut self.plain, true),
            Moves::Rise { rise, shifts, .. } => {
                add(&mut self.shifting, !shifts.is_empty());
                add(&mut self.rising, !rise.is_empty());
                add(&mut self.rising_together, rise.len() > 1);
            }
            Moves::Fall { fall, .. } => {
                add(&mut self.falling, true);
                add(&mut self.falling_together, fall.len() > 1);
            }
        }
    }

    /// Whether each kind came.
    pub(crate) fn has_all(&self) -> bool {
        let one_kind = self.kept > 0 && self.plain > 0 && self.shifting > 0;
        one_kind && self.rising_together > 0 && self.falling_together > 0
    }
}
