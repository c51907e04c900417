//! Counts the edges of a stream that is to ascend, and keeps the first line that is wrong.
ghost use Rattle.std.specs.Prelude.{◌≡◌, ◌++◌, ℕ, List, [], None, OnOk};
ghost use Rattle.kc_text.specs.Lines.{EndsLine};
ghost use Rattle.kc_claims.specs.Insisting.{HasInsisted};
ghost use Rattle.kc_claims.specs.Sweeping.{HasSwept};
ghost use Rattle.kc_claims.specs.declared.sweep.Sweep.{Sweep};

use crate::fault::{FaultyLine, Untaken};
use crate::feeding::TakesLines;
use crate::looking::look;
use crate::sweep::Sweep;

/// A sweep that goes on to the first line that is wrong.
#[derive(Drop)]
pub(crate) struct Insisting {
    pub(crate) sweep: Sweep,
    /// How many lines came of the text that is looked at, if none is wrong.
    lines: u64,
    /// The pair that came last, if no line is wrong.
    pub(crate) last: Option<(u32, u32)>,
    /// The first line that is wrong.
    pub(crate) fault: Option<FaultyLine>,
}

impl Insisting {
    /// No line came.
    pub(crate) fn new(sweep: Sweep) -> Insisting
        ensures sweep { result.sweep ≡ sweep }
        ensures last { result.last ≡ None }
        ensures clean { result.fault ≡ None }
    {
        Insisting {
            sweep,
            lines: 0,
            last: None,
            fault: None,
        }
    }

    /// Begins a text behind one that ended with a line: its lines are counted from 1.
    pub(crate) fn begin_text(&mut self)
        requires clean { self.old.fault ≡ None }
        requires swept { (first : Sweep) × (earlier : List ℕ) × EndsLine earlier × HasSwept first self.old.sweep earlier }
        ensures begun { HasInsisted self.new self.new [] }
        ensures sweep { self.new.sweep ≡ self.old.sweep }
        ensures last { self.new.last ≡ self.old.last }
    {
        self.lines = 0;
    }

    /// Looks lines through, and counts their edges where none is wrong.
    fn follow(&mut self, lines: &[u8]) -> Result<(), Untaken>
        requires fresh { self.old.fault ≡ None }
        requires looked { (start : Insisting) × (before : List ℕ) × HasInsisted start self.old before }
        ensures { OnOk result ((start : Insisting) (before : List ℕ) → EndsLine before → HasInsisted start self.old before
            → HasInsisted start self.new (before ++ lines.now)) }
    {
        self.sweep.edges.clear();
        let looked = look(
            &self.sweep.ids,
            &self.sweep.places,
            self.last,
            lines,
            &mut self.sweep.edges,
        )?;
        let seen = looked.lines as u64;
        if u64::MAX - self.lines < seen {
            return Err(Untaken::Unfit);
        }
        let line = self.lines + seen;
        if let Some(fault) = looked.fault {
            self.fault = Some(FaultyLine { line, fault });
            return Ok(());
        }
        self.sweep.count_put()?;
        self.lines = line;
        self.last = looked.last;
        Ok(())
    }
}

impl TakesLines for Insisting {
    ghost taken = { HasInsisted };

    fn take_lines(&mut self, lines: &[u8]) -> Result<(), Untaken>
        requires { (start : Insisting) × (before : List ℕ) × HasInsisted start self.old before }
        ensures { OnOk result ((start : Insisting) (before : List ℕ) → EndsLine before → HasInsisted start self.old before
            → HasInsisted start self.new (before ++ lines.now)) }
    {
        match self.fault {
            Some(_) => Ok(()),
            None => self.follow(lines),
        }
    }
}
