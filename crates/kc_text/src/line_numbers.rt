//! The numbers of the lines that tell something, where most of them follow one another.
ghost use Rattle.std.specs.Prelude.{◌≡◌, ◌≤◌, ◌<◌, ◌+◌, ◌++◌, ◌∷◌, ◌^◌, [], ℕ, true, List, OnOk, length};
ghost use Rattle.kc_text.specs.declared.line.TextLine.{TextLine};
ghost use Rattle.kc_text.specs.Numbering.{HasNumbers, IsNoted};
ghost use Rattle.kc_text.specs.TellingLines.{edge_lines, is_telling, skipped_at};

use crate::NoMemory;
use crate::line::TextLine;
use std::alloc::Global;

/// How many lines there were, and the number of each that tells something. Blank lines and comments tell nothing.
#[derive(Drop)]
pub(crate) struct LineNumbers {
    /// How many lines there were.
    pub(crate) lines: u64,
    /// How many of them tell something.
    pub(crate) telling: u64,
    /// How many of the others stand before the last of these.
    skipped: u64,
    /// Where telling lines follow others: how many telling lines stand before, and how many others.
    steps: Vec<(u64, u64)>,
}

/// Whether a line is neither blank nor a comment.
fn is_telling(line: TextLine) -> bool
    ensures { result ≡ is_telling line }
{
    !matches!(line, TextLine::Nothing)
}

impl LineNumbers {
    pub(crate) fn new(alloc: Global) -> LineNumbers
        ensures numbers { HasNumbers result [] }
        ensures lines { result.lines ≡ 0 }
        ensures order { result.telling ≤ result.lines }
    {
        LineNumbers {
            lines: 0,
            telling: 0,
            skipped: 0,
            steps: Vec::new(alloc),
        }
    }

    /// Notes how many lines that tell nothing stand before the next one, where that is not noted.
    fn note_skipped(&mut self) -> Result<(), NoMemory>
        requires { self.old.telling ≤ self.old.lines }
        ensures { OnOk result (IsNoted self.old self.new) }
    {
        let skipped = self.lines - self.telling;
        if skipped == self.skipped {
            return Ok(());
        }
        self.steps.push((self.telling, skipped))?;
        self.skipped = skipped;
        Ok(())
    }

    /// Counts a line that tells something.
    fn count_telling(&mut self) -> Result<(), NoMemory>
        requires lines { self.old.lines + 1 < 2 ^ 64 }
        requires order { self.old.telling ≤ self.old.lines }
        ensures numbers { OnOk result ((before : List TextLine) (line : TextLine) → is_telling line ≡ true → HasNumbers self.old before
            → HasNumbers self.new (before ++ line ∷ [])) }
        ensures lines { OnOk result (self.new.lines ≡ self.old.lines + 1) }
        ensures order { OnOk result (self.new.telling ≤ self.new.lines) }
    {
        self.note_skipped()?;
        self.lines += 1;
        self.telling += 1;
        Ok(())
    }

    /// Counts one line more.
    pub(crate) fn count(&mut self, line: TextLine) -> Result<(), NoMemory>
        requires lines { self.old.lines + 1 < 2 ^ 64 }
        requires order { self.old.telling ≤ self.old.lines }
        ensures numbers { OnOk result ((before : List TextLine) → HasNumbers self.old before → HasNumbers self.new (before ++ line ∷ [])) }
        ensures lines { OnOk result (self.new.lines ≡ self.old.lines + 1) }
        ensures order { OnOk result (self.new.telling ≤ self.new.lines) }
    {
        if is_telling(line) {
            return self.count_telling();
        }
        self.lines += 1;
        Ok(())
    }

    /// Counts so many edge lines more.
    pub(crate) fn count_edges(&mut self, count: u64) -> Result<(), NoMemory>
        requires lines { self.old.lines + count < 2 ^ 64 }
        requires order { self.old.telling ≤ self.old.lines }
        ensures numbers { OnOk result ((before : List TextLine) (edges : List (ℕ × ℕ)) → length edges ≡ count → HasNumbers self.old before
            → HasNumbers self.new (before ++ edge_lines edges)) }
        ensures lines { OnOk result (self.new.lines ≡ self.old.lines + count) }
        ensures order { OnOk result (self.new.telling ≤ self.new.lines) }
    {
        self.note_skipped()?;
        self.lines += count;
        self.telling += count;
        Ok(())
    }

    /// How many lines that tell nothing stand before the telling line with so many before it.
    fn skipped_at(&self, place: u64) -> u64
        ensures { result ≡ skipped_at self.now.steps.items place }
    {
        let mut skipped = 0;
        for (first, others) in &self.steps {
            if *first <= place {
                skipped = *others;
            }
        }
        skipped
    }

    /// The number of the telling line with so many before it.
    pub(crate) fn number_at(&self, place: u64) -> u64
        requires { place + 1 + skipped_at self.now.steps.items place < 2 ^ 64 }
        ensures { result ≡ place + 1 + skipped_at self.now.steps.items place }
    {
        place + 1 + self.skipped_at(place)
    }
}
