//! Gathers the claims of a text that comes in pieces.
ghost use Rattle.std.specs.Prelude.{◌≡◌, ◌≢◌, ◌++◌, ◌∷◌, ℕ, [], Err, IfOk, IsErrOf, List, None, OnOk};
ghost use Rattle.kc_io.specs.Causes.{Rose};
ghost use Rattle.kc_text.specs.Lines.{EndsLine};
ghost use Rattle.kc_text.specs.declared.refusal.Refusal.{Refusal};
ghost use Rattle.kc_claims.specs.Gathering.{HasGathered, HasListed, HasTakenLines};
ghost use Rattle.kc_claims.specs.Tables.{HasRefusedClaim, HoldsClaims};
ghost use Rattle.kc_claims.specs.declared.claim.Claim.{Claim};

use crate::claim_line::claim_in;
use crate::fault::{SourceFault, Unswept, Untaken};
use crate::feeding::{TakesLines, feed_all};
use crate::table::ClaimTable;
use kc_io::source::Source;
use kc_text::{Refusal, cut_line};
use std::alloc::Global;

/// The claims of the lines that came, up to the first that is refused.
#[derive(Drop)]
pub(crate) struct Gathering {
    table: ClaimTable,
    /// How many lines came, up to the first that is refused.
    lines: u64,
    /// What is wrong with the first line that is refused.
    refusal: Option<Refusal>,
}

impl Gathering {
    /// No line came.
    fn new(alloc: Global) -> Gathering
        ensures { HasGathered result result [] }
    {
        Gathering {
            table: ClaimTable::new(alloc),
            lines: 0,
            refusal: None,
        }
    }

    /// Takes what a line claims, or the line is refused. There is no memory for more than 2^32 - 1 lines.
    fn take_line(&mut self, line: &[u8]) -> Result<(), Untaken>
        requires { self.old.refusal ≡ None }
        ensures { OnOk result ((done : List (List ℕ)) → HasListed self.old done → HasTakenLines self.new (done ++ line.now ∷ [])) }
    {
        if self.lines >= u64::from(u32::MAX) {
            return Err(Untaken::NoMemory);
        }
        self.lines += 1;
        match claim_in(self.lines, line) {
            Err(kind) => {
                self.refusal = Some(Refusal {
                    line: self.lines,
                    kind,
                });
                Ok(())
            }
            Ok(None) => Ok(()),
            Ok(Some(claim)) => {
                self.table.put(claim)?;
                Ok(())
            }
        }
    }

    /// Takes what lines claim, up to the first that is refused.
    fn gather(&mut self, lines: &[u8]) -> Result<(), Untaken>
        requires { self.old.refusal ≡ None }
        ensures { OnOk result ((start : Gathering) (before : List ℕ) → EndsLine before → HasGathered start self.old before
            → HasGathered start self.new (before ++ lines.now)) }
    {
        let mut rest = lines;
        while let Some((line, more)) = cut_line(rest) {
            self.take_line(line)?;
            if let Some(_) = self.refusal {
                return Ok(());
            }
            rest = more;
        }
        Ok(())
    }
}

impl TakesLines for Gathering {
    ghost taken = { HasGathered };

    fn take_lines(&mut self, lines: &[u8]) -> Result<(), Untaken>
        requires { (start : Gathering) × (before : List ℕ) × HasGathered start self.old before }
        ensures { OnOk result ((start : Gathering) (before : List ℕ) → EndsLine before → HasGathered start self.old before
            → HasGathered start self.new (before ++ lines.now)) }
    {
        match self.refusal {
            Some(_) => Ok(()),
            None => self.gather(lines),
        }
    }
}

/// The claims that a source has left, in columns. Its text is never held: it takes 12 bytes a claim, some 8 more while the columns grow, and a
/// buffer. It takes 12 bytes more for each stretch of claims whose lines follow one another, and that all tell a rank or do not.
///
/// `Refused` comes exactly where a line is neither blank nor a comment and has not two numbers, or three. It tells the first such line, and the
/// first thing that is wrong with it from the left. `ReadFault` comes where the source fails. `NoMemory` comes where there is none for the claims,
/// and where there are more than 2^32 - 1 lines or 2^63 - 1 bytes.
///
/// # Example
///
/// ```rust
/// use kc_claims::claims_from;
/// use kc_io::mem_source::MemSource;
///
/// let text = Vec::from_slice(alloc, b"7 2\n8\n")?;
/// let mut source = MemSource::new(text, 4, Vec::new(alloc)); // four bytes at a time
/// let fault = claims_from(alloc, &mut source).err(); // Refused, line 2, Kind::MissingField
/// ```
pub fn claims_from<S: Source>(alloc: Global, source: &mut S) -> Result<ClaimTable, SourceFault>
    ensures claims { IfOk result (λ table. (claims : List Claim) × HoldsClaims (S.left source.old) claims table) }
    ensures refused { (refusal : Refusal) → IsErrOf result (SourceFault.Refused refusal) → HasRefusedClaim (S.left source.old) refusal }
    ensures failed { IsErrOf result SourceFault.ReadFault → Rose (S.faults source.old) (S.faults source.new) }
    ensures faultless { result ≢ Err SourceFault.ReadFault → S.faults source.new ≡ S.faults source.old }
{
    let mut gathering = Gathering::new(alloc);
    match feed_all(alloc, source, &mut gathering) {
        Ok(()) => match gathering.refusal {
            Some(refusal) => Err(SourceFault::Refused(refusal)),
            None => Ok(gathering.table),
        },
        Err(Unswept::ReadFault) => Err(SourceFault::ReadFault),
        Err(Unswept::Unfit) => Err(SourceFault::NoMemory),
        Err(Unswept::NoMemory) => Err(SourceFault::NoMemory),
    }
}
