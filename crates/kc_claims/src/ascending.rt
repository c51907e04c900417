//! Whether claims are a certificate of the core numbers of a graph whose edges have to come as an ascending stream.
ghost use Rattle.std.specs.Prelude.{◌≡◌, ◌≢◌, ℕ, [], Err, IfOk, IfSome, IsErrOf, List, None, Option, Some};
ghost use Rattle.kc_io.specs.Causes.{Rose};
ghost use Rattle.kc_claims.specs.Certificates.{AreCertificate, TellCoreNumbers};
ghost use Rattle.kc_claims.specs.Judging.{AreClaimed};
ghost use Rattle.kc_claims.specs.LineFaults.{HasFaultyLine};
ghost use Rattle.kc_claims.specs.Pieces.{HasFaultyPiece, HasTakenText, TellsClaims, with_piece};
ghost use Rattle.kc_claims.specs.Streams.{HoldsOfStream, IsFaultOfStream};
ghost use Rattle.kc_claims.specs.Tables.{AreTabled};
ghost use Rattle.kc_claims.specs.declared.claim.Claim.{Claim};
ghost use Rattle.kc_claims.specs.declared.fault.ClaimFault.{ClaimFault};
ghost use Rattle.kc_claims.specs.declared.fault.FaultyLine.{FaultyLine};

use crate::claimed::{ClaimLines, Claimed, begin_table};
use crate::fault::{CheckFault, ClaimFault, FaultyLine, LineFault, StreamFault, Unswept};
use crate::feeding::feed_within;
use crate::insisting::Insisting;
use crate::judging::fault_by_counts;
use crate::table::ClaimTable;
use kc_io::source::Source;
use kc_text::Limits;
use std::alloc::Global;

/// A check of claims for an ascending stream that comes in pieces, one after another. Each begins a line, and the last line of each may have no
/// line end. So the text of several files is that of the stream, if they are taken in the order of their edges.
///
/// # Example
///
/// ```rust
/// use kc_claims::{AscendingCheck, claims_from};
/// use kc_io::mem_source::MemSource;
///
/// let text = Vec::from_slice(alloc, b"7 2\n8 2\n9 2\n")?;
/// let mut certificate = MemSource::new(text, 4, Vec::new(alloc)); // four bytes at a time
/// let claims = claims_from(alloc, &mut certificate)?;
/// let mut check = AscendingCheck::begin(alloc, claims)?;
/// let mut first = MemSource::new(Vec::from_slice(alloc, b"7 8\n7 9")?, 4, Vec::new(alloc));
/// let mut second = MemSource::new(Vec::from_slice(alloc, b"8 9\n")?, 4, Vec::new(alloc));
/// let wrong = check.take(alloc, &mut first)?; // None
/// let wrong = check.take(alloc, &mut second)?; // None
/// let fault = check.verdict(); // None: these are the core numbers
/// ```
#[derive(Drop)]
pub struct AscendingCheck {
    pub(crate) insisting: Insisting,
    pub(crate) lines: ClaimLines,
    /// How many bytes there may be still.
    pub(crate) room: usize,
}

/// What is told of the first line that is wrong, if there is one: the id that it names and no claim does, or else the line.
fn told_of(fault: Option<FaultyLine>) -> Result<Option<u32>, StreamFault>
    ensures clean { IfOk result (λ found. found ≡ None → fault ≡ None) }
    ensures unclaimed { IfOk result (λ found. IfSome found (λ id. (line : ℕ) × (fault ≡ Some (record { line = line; fault = LineFault.Unclaimed id })))) }
    ensures line { (faulty : FaultyLine) → IsErrOf result (StreamFault.Line faulty) → fault ≡ Some faulty }
    ensures unread { result ≢ Err StreamFault.ReadFault }
{
    let Some(faulty) = fault else {
        return Ok(None);
    };
    match faulty.fault {
        LineFault::Unclaimed(id) => Ok(Some(id)),
        _ => Err(StreamFault::Line(faulty)),
    }
}

impl AscendingCheck {
    /// Nothing was taken.
    pub(crate) fn new(claimed: Claimed) -> AscendingCheck
        ensures { (claims : List Claim) (order : List ℕ) → AreClaimed claims order claimed → HasTakenText claims (Some []) result }
    {
        let Claimed { sweep, lines } = claimed;
        AscendingCheck {
            insisting: Insisting::new(sweep),
            lines,
            room: Limits::GRAPH.bytes,
        }
    }

    /// Begins the check of claims, before any piece was taken. They are at fault where they name an id twice. With the claims it takes 25 bytes a
    /// vertex, and half a byte more where the ids are no row.
    pub fn begin(alloc: Global, table: ClaimTable) -> Result<AscendingCheck, CheckFault>
        requires { (claims : List Claim) × AreTabled claims table }
        ensures begun { (claims : List Claim) → AreTabled claims table → IfOk result (HasTakenText claims (Some [])) }
        ensures faulty { (claims : List Claim) (fault : ClaimFault) (known : Option (List ℕ)) → AreTabled claims table
            → IsErrOf result (CheckFault.Faulty fault) → IsFaultOfStream claims fault known }
    {
        match begin_table(alloc, table) {
            Ok(claimed) => Ok(AscendingCheck::new(claimed)),
            Err(CheckFault::Faulty(ClaimFault::Repeated(claim))) => {
                Err(CheckFault::Faulty(ClaimFault::Repeated(claim)))
            }
            Err(_) => Err(CheckFault::NoMemory),
        }
    }

    /// Takes all that a source has left as the next piece, in a buffer of 64 KiB. `None` comes where no line of it is wrong. `Some` tells the id of
    /// the first line that is wrong, where there is no claim of it: so the claims are no certificate.
    ///
    /// `Line` tells the first line of the piece that is wrong otherwise: it is no line of a graph without batches, or its edge does not ascend. Its
    /// number is that within the piece. `ReadFault` comes where the source fails, and `NoMemory` where there is none, or where there are more than
    /// 2^40 edges or 2^63 - 1 bytes, with one for each piece. After `Some` and after an error nothing more can be taken.
    pub fn take<S: Source>(
        &mut self,
        alloc: Global,
        source: &mut S,
    ) -> Result<Option<u32>, StreamFault>
        requires { (claims : List Claim) × (before : Option (List ℕ)) × HasTakenText claims before self.old }
        ensures taken { (claims : List Claim) (before : Option (List ℕ)) → HasTakenText claims before self.old
            → IfOk result (λ found. found ≡ None → HasTakenText claims (with_piece before (S.left source.old)) self.new) }
        ensures unclaimed { (claims : List Claim) (before : Option (List ℕ)) → HasTakenText claims before self.old
            → IfOk result (λ found. IfSome found (λ id. IsFaultOfStream claims (ClaimFault.Missing id) (with_piece before (S.left source.old)))) }
        ensures line { (claims : List Claim) (before : Option (List ℕ)) (faulty : FaultyLine) → HasTakenText claims before self.old
            → IsErrOf result (StreamFault.Line faulty) → HasFaultyPiece claims before (S.left source.old) faulty }
        ensures told { (claims : List Claim) (before : Option (List ℕ)) → HasTakenText claims before self.old → result ≢ Err StreamFault.NoMemory
            → TellsClaims claims self.new }
        ensures failed { IsErrOf result StreamFault.ReadFault → Rose (S.faults source.old) (S.faults source.new) }
        ensures faultless { result ≢ Err StreamFault.ReadFault → S.faults source.new ≡ S.faults source.old }
    {
        if self.room == 0 {
            return Err(StreamFault::NoMemory);
        }
        let room = self.room - 1;
        self.insisting.begin_text();
        match feed_within(alloc, source, &mut self.insisting, room) {
            Ok(left) => {
                self.room = left;
                told_of(self.insisting.fault)
            }
            Err(Unswept::ReadFault) => Err(StreamFault::ReadFault),
            Err(Unswept::Unfit) => Err(StreamFault::NoMemory),
            Err(Unswept::NoMemory) => Err(StreamFault::NoMemory),
        }
    }

    /// What shows that the claims are no certificate of the graph of all pieces that were taken. `None` comes where they are one. Else it is the
    /// first claim with too many neighbours behind its id or too few others, or the first claim of an id that no line names.
    pub fn verdict(&self) -> Option<ClaimFault>
        requires { (claims : List Claim) × (known : Option (List ℕ)) × HasTakenText claims known self.now }
        ensures certified { (claims : List Claim) (known : Option (List ℕ)) → HasTakenText claims known self.now → result ≡ None
            → HoldsOfStream (λ ids g. AreCertificate ids g claims × TellCoreNumbers ids g claims) known }
        ensures faulty { (claims : List Claim) (known : Option (List ℕ)) → HasTakenText claims known self.now
            → IfSome result (λ fault. IsFaultOfStream claims fault known) }
    {
        fault_by_counts(&self.insisting.sweep, &self.lines)
    }
}

/// Takes all of a stream, and tells what is wrong with the claims.
fn judge<S: Source>(
    alloc: Global,
    check: AscendingCheck,
    source: &mut S,
) -> Result<Option<ClaimFault>, StreamFault>
    requires { (claims : List Claim) × HasTakenText claims (Some []) check }
    ensures certified { (claims : List Claim) → HasTakenText claims (Some []) check → IfOk result (λ found. found ≡ None
        → HoldsOfStream (λ ids g. AreCertificate ids g claims × TellCoreNumbers ids g claims) (S.left source.old)) }
    ensures faulty { (claims : List Claim) → HasTakenText claims (Some []) check
        → IfOk result (λ found. IfSome found (λ fault. IsFaultOfStream claims fault (S.left source.old))) }
    ensures line { (claims : List Claim) (faulty : FaultyLine) → HasTakenText claims (Some []) check
        → IsErrOf result (StreamFault.Line faulty) → HasFaultyLine claims (S.left source.old) faulty }
    ensures failed { IsErrOf result StreamFault.ReadFault → Rose (S.faults source.old) (S.faults source.new) }
    ensures faultless { result ≢ Err StreamFault.ReadFault → S.faults source.new ≡ S.faults source.old }
{
    let mut check = check;
    match check.take(alloc, source) {
        Ok(None) => Ok(check.verdict()),
        Ok(Some(id)) => Ok(Some(ClaimFault::Missing(id))),
        Err(fault) => Err(fault),
    }
}

/// Whether claims are a certificate of the core numbers of the graph that the bytes of a source mean, which have to be an ascending stream:
/// each edge has one line, the lesser id first, and each line is above the one before it, by its first id and then by its second. There may
/// be comments. The graph is not made. With the claims it takes 20 bytes a vertex and a buffer, and half a byte more where the ids are no row.
/// It takes 4 bytes a vertex more where neither the ids of the claims ascend nor the rank of each is its place.
///
/// `None` comes where they are a certificate, as [`check_claims`](crate::check_claims) tells it of the graph. Else it gives what shows that they
/// are none: a claim of an id that an earlier one names, and then nothing is read; or the id of the first wrong line, where there is no claim of
/// it; or the first claim with too many neighbours behind its id or too few others, in the graph with a vertex for each claimed id; or the first
/// claim of an id that no line names.
///
/// `Line` tells the first line that is wrong otherwise: it is no line of a graph without batches, or its edge does not ascend. `ReadFault` comes
/// where the source fails. `NoMemory` comes where there is none, and where there are more than 2^40 edges, 2^32 - 2 claims or 2^63 - 2 bytes.
///
/// # Example
///
/// ```rust
/// use kc_claims::{check_ascending, claims_from};
/// use kc_io::mem_source::MemSource;
///
/// let text = Vec::from_slice(alloc, b"7 2\n8 2\n9 2\n")?;
/// let mut certificate = MemSource::new(text, 4, Vec::new(alloc)); // four bytes at a time
/// let claims = claims_from(alloc, &mut certificate)?;
/// let text = Vec::from_slice(alloc, b"7 8\n8 9\n7 9\n")?;
/// let mut source = MemSource::new(text, 4, Vec::new(alloc));
/// let fault = check_ascending(alloc, claims, &mut source).err(); // Line, line 3, LineFault::Descends
/// ```
pub fn check_ascending<S: Source>(
    alloc: Global,
    table: ClaimTable,
    source: &mut S,
) -> Result<Option<ClaimFault>, StreamFault>
    requires { (claims : List Claim) × AreTabled claims table }
    ensures certified { (claims : List Claim) → AreTabled claims table → IfOk result (λ found. found ≡ None
        → HoldsOfStream (λ ids g. AreCertificate ids g claims × TellCoreNumbers ids g claims) (S.left source.old)) }
    ensures faulty { (claims : List Claim) → AreTabled claims table
        → IfOk result (λ found. IfSome found (λ fault. IsFaultOfStream claims fault (S.left source.old))) }
    ensures line { (claims : List Claim) (faulty : FaultyLine) → AreTabled claims table
        → IsErrOf result (StreamFault.Line faulty) → HasFaultyLine claims (S.left source.old) faulty }
    ensures failed { IsErrOf result StreamFault.ReadFault → Rose (S.faults source.old) (S.faults source.new) }
    ensures faultless { result ≢ Err StreamFault.ReadFault → S.faults source.new ≡ S.faults source.old }
{
    match AscendingCheck::begin(alloc, table) {
        Ok(check) => judge(alloc, check, source),
        Err(CheckFault::Faulty(fault)) => Ok(Some(fault)),
        Err(CheckFault::NoMemory) => Err(StreamFault::NoMemory),
    }
}
