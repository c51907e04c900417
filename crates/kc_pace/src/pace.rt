//! The pace of a run.
//!
//! A round runs in one thread, or in all that there may be. Threads that share much slow each other down: work is done twice, and lines of
//! the cache and the allocator's lists go to and fro. On some inputs four threads take a fourth of the time of one, and on others twice as
//! long. So a run begins with one thread, and now and then a long round is tried the other way. All threads are worth it where a piece of
//! work takes at most 1.3 times the processor time that it takes in one thread.
//!
//! A trial is compared with the round before it and with the one after it, since one long piece makes any single round slow. Where both
//! show that all threads are worth it the score rises by one, and where both show that they are not it falls; else it stays. At three
//! all threads are taken, and they are given up when the score has fallen to one.
//!
//! Trials are seldom. The first one begins when the run has lasted eight times as long as the processor time that it may take. The run
//! waits for the next one four times as long as the last one's processor time, and twice as long again each time that a trial has shown
//! nothing new. Where it spoke for a change the run waits half as long.

ghost use Rattle.std.specs.Prelude.{◌≡◌, ◌<◌, ◌≤◌, ◌+◌, ◌⊎◌};

/// The longest that a round lasts before the pace is looked at again, in nanoseconds, but for the piece that each thread is at.
pub const SLICE: u64 = 32_000_000;

/// The work that a round must be expected to have for several threads, in nanoseconds of one thread.
const LEAST: u64 = 4_000_000;

/// The processor time that a piece of work may take in several threads, for each 10 parts that it takes in one.
const WORTH: u64 = 13;

/// The score at which all threads are taken, which is the highest, and the one at which they are given up.
const TAKEN: u32 = 3;

const GIVEN_UP: u32 = 1;

/// How many times as long as its processor time a run waits for the first trial.
const PATIENCE: u64 = 8;

/// The same for later trials, by the processor time of the last one: at least, and at most.
const LEAST_PATIENCE: u64 = 4;

const MOST_PATIENCE: u64 = 128;

/// The same where the last trial spoke for a change.
const IMPATIENCE: u64 = 2;

/// Where the run stands between two trials.
#[derive(Clone, Copy, Debug, Drop, Eq, PartialEq)]
enum Phase {
    /// Rounds run as is best known.
    Steady,
    /// The present round runs the other way.
    Trying,
    /// A round that ran the other way is compared with the next one that runs as is best known.
    Judging,
}

/// What was found so far. All times are nanoseconds, and a moment is the time since any one start.
#[derive(Clone, Copy, Debug, Drop, Eq, PartialEq)]
pub struct Pace {
    /// When the run began.
    opened: u64,
    phase: Phase,
    /// How often trials have shown that all threads are worth it, less how often that they are not.
    score: u32,
    /// Whether long rounds take all threads.
    takes_all: bool,
    /// How many times as long as the last trial's processor time the run waits for the next one.
    patience: u64,
    /// No trial begins before this moment.
    next_trial: u64,
    /// Whether the last trial has shown that all threads are worth it, by the round before it.
    was_worth: bool,
    /// The processor time that the last trial may have taken.
    trial_cost: u64,
    /// The processor time of a piece of work in the last round. 0: none was done yet.
    cost: u64,
    /// The same, in the last long round of one thread. 0: there was none yet.
    alone: u64,
    /// The same, in the last long round of all threads. 0: there was none yet.
    together: u64,
    /// The present round: when it began, its threads, how many there might be, and whether it is long.
    began: u64,
    threads: u64,
    most: u64,
    is_long: bool,
}

/// How a round is to run.
#[derive(Clone, Copy, Debug, Drop, Eq, PartialEq)]
pub struct Span {
    /// How many threads it has.
    pub threads: u64,
    /// The moment at which it is to end, though work may be left.
    pub until: u64,
}

impl Pace {
    /// The pace of a run that begins at this moment: nothing was found yet.
    pub fn new(now: u64) -> Pace {
        Pace {
            opened: now,
            phase: Phase::Steady,
            score: 0,
            takes_all: false,
            patience: LEAST_PATIENCE,
            next_trial: now,
            was_worth: false,
            trial_cost: 0,
            cost: 0,
            alone: 0,
            together: 0,
            began: now,
            threads: 1,
            most: 1,
            is_long: false,
        }
    }

    /// A round begins at this moment, which may have so many threads, with so many pieces of work before it.
    pub fn begin(&mut self, now: u64, most: u64, pieces: u64) -> Span
        ensures threads { (result.threads ≡ 1) ⊎ ((1 < most) × (result.threads ≡ most)) }
        ensures since { now ≤ result.until }
        ensures until { result.until ≤ now + SLICE }
    {
        let expected = self.cost.saturating_mul(pieces);
        self.began = now;
        self.most = most;
        self.is_long = most > 1 && expected >= LEAST;
        self.threads = if self.is_long && self.is_crowded(now, expected.min(SLICE)) {
            most
        } else {
            1
        };
        let lasts = match self.phase {
            Phase::Trying => expected.min(SLICE),
            Phase::Steady | Phase::Judging => SLICE,
        };
        Span {
            threads: self.threads,
            until: now.saturating_add(lasts),
        }
    }

    /// Whether a long round takes all threads, which is expected to last so long. A trial may begin here.
    fn is_crowded(&mut self, now: u64, expected: u64) -> bool {
        let may_cost = expected.saturating_mul(self.most);
        let soonest = self
            .opened
            .saturating_add(may_cost.saturating_mul(PATIENCE));
        if self.phase == Phase::Steady && self.alone > 0 && now >= self.next_trial.max(soonest) {
            self.phase = Phase::Trying;
            return !self.takes_all;
        }
        self.takes_all
    }

    /// The round has ended at this moment, and so many pieces of work were done in it.
    pub fn end(&mut self, now: u64, pieces: u64) {
        let took = now.saturating_sub(self.began);
        self.cost = match took.saturating_mul(self.threads).checked_div(pieces) {
            Some(cost) => cost.max(1),
            None => self.cost,
        };
        if !self.is_long {
            return;
        }
        if self.threads == 1 {
            self.alone = self.cost;
        } else {
            self.together = self.cost;
        }
        self.follow(now, took);
    }

    /// What comes after a long round that took so long.
    fn follow(&mut self, now: u64, took: u64) {
        match self.phase {
            Phase::Steady => {}
            Phase::Trying => {
                self.trial_cost = took.saturating_mul(self.most);
                self.was_worth = self.is_worth();
                self.phase = Phase::Judging;
            }
            Phase::Judging => {
                self.judge(self.was_worth, self.is_worth());
                let wait = self.trial_cost.saturating_mul(self.patience);
                self.next_trial = now.saturating_add(wait);
                self.phase = Phase::Steady;
            }
        }
    }

    /// Whether all threads are worth it, by the last long rounds.
    fn is_worth(&self) -> bool {
        self.together.saturating_mul(10) <= self.alone.saturating_mul(WORTH)
    }

    /// A trial has shown whether all threads are worth it, beside the round before it and beside the one after it.
    fn judge(&mut self, before: bool, after: bool) {
        self.score = match (before, after) {
            (true, true) => self.score.saturating_add(1).min(TAKEN),
            (false, false) => self.score.saturating_sub(1),
            (true, false) | (false, true) => self.score,
        };
        let took_all = self.takes_all;
        self.takes_all = self.score >= TAKEN || (took_all && self.score > GIVEN_UP);
        self.patience = if took_all != self.takes_all {
            LEAST_PATIENCE
        } else if before != after {
            self.patience.max(LEAST_PATIENCE)
        } else if after != took_all {
            IMPATIENCE
        } else if self.score == 0 || self.score == TAKEN {
            let longer = self.patience.max(LEAST_PATIENCE).saturating_mul(2);
            longer.min(MOST_PATIENCE)
        } else {
            LEAST_PATIENCE
        };
    }
}
