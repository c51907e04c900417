//! A progress that a terminal shows.
use crate::progress::Progress;
use std::cell::Cell;
use std::fmt;
use std::fmt::{Display, Formatter, Write};
use std::io::Eprint;
use std::rt::Clock;

/// A run has lasted so long when it is first told of, in milliseconds.
const FIRST: u64 = 1_000;

/// Between two lines lie so many milliseconds at least.
const PAUSE: u64 = 100;

/// What a terminal does with the line on which it stands: it goes to the front of it, and clears it from there on.
const CLEARED: &str = "\r\x1b[K";

/// How far a run is, and when it was told. Moments are milliseconds by the clock.
#[derive(Clone, Copy)]
struct Run {
    /// How many bytes were read.
    bytes: u64,
    /// The core number of the vertices that are peeled, once the reading has ended.
    core: Option<u32>,
    /// No line comes before this moment.
    next: u64,
    /// Whether there is a line.
    is_shown: bool,
}

impl Display for Run {
    fn fmt<W: Write>(&self, f: &mut Formatter<W>) -> fmt::Result {
        match self.core {
            None => write!(f, "{} bytes read", self.bytes),
            Some(core) => write!(
                f,
                "{} bytes read, peeling at core number {core}",
                self.bytes
            ),
        }
    }
}

/// Tells on standard error how far a run is, where that is a terminal. A line comes once the run has lasted a second, and then at most
/// ten times a second. It overwrites the one before it, and the last one is cleared at the end. A line that can not be written is left out.
#[derive(Drop)]
pub struct TerminalProgress<'a, R: Clock + Eprint> {
    runtime: &'a R,
    is_terminal: bool,
    /// The run that is told of. None where there is none, or no terminal.
    run: Cell<Option<Run>>,
}

/// The moment by the clock, in milliseconds. None where it can't be read.
fn now(clock: &impl Clock) -> Option<u64> {
    let time = clock.monotonic().ok()?;
    u64::try_from(time.as_millis()).ok()
}

impl<'a, R: Clock + Eprint> TerminalProgress<'a, R> {
    /// A progress of no run so far. `is_terminal` says whether standard error is a terminal; nothing is told where it is not.
    pub fn new(runtime: &'a R, is_terminal: bool) -> TerminalProgress<'a, R> {
        TerminalProgress {
            runtime,
            is_terminal,
            run: Cell::new(None),
        }
    }

    /// The run has come so far. It is told where that is due.
    fn come_to(&self, run: Run) {
        let mut run = run;
        if let Some(now) = now(self.runtime) {
            if now >= run.next {
                let is_written = self.runtime.eprint(format_args!("{CLEARED}{run}")).is_ok();
                run.is_shown = run.is_shown || is_written;
                run.next = now.saturating_add(PAUSE);
            }
        }
        self.run.set(Some(run));
    }
}

impl<'a, R: Clock + Eprint> Progress for TerminalProgress<'a, R> {
    fn begin(&self) {
        if !self.is_terminal {
            return;
        }
        if let Some(now) = now(self.runtime) {
            self.run.set(Some(Run {
                bytes: 0,
                core: None,
                next: now.saturating_add(FIRST),
                is_shown: false,
            }));
        }
    }

    fn has_read(&self, bytes: usize) {
        if let Some(mut run) = self.run.get() {
            run.bytes = run.bytes.saturating_add(bytes as u64);
            self.come_to(run);
        }
    }

    fn peeled(&self, core: u32) {
        if let Some(mut run) = self.run.get() {
            run.core = Some(core);
            self.come_to(run);
        }
    }

    fn end(&self) {
        if let Some(run) = self.run.get() {
            if run.is_shown {
                let _unwritten = self.runtime.eprint(CLEARED);
            }
        }
        self.run.set(None);
    }
}
