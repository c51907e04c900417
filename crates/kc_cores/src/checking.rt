//! The check of a certificate: what is read for it, and what is said.
ghost use Rattle.std.specs.Prelude.{◌≡◌, ℕ, IfErr, IfOk, IfSome, List, None, OnOk, Option, Some};
ghost use Rattle.kc_claims.specs.Streams.{IsSwept, TellsVerdict};
ghost use Rattle.kc_claims.specs.Tables.{AreTabled, HoldsClaims};
ghost use Rattle.kc_claims.specs.declared.claim.Claim.{Claim};
ghost use Rattle.kc_wishes.specs.Requests.{text_of};
ghost use Rattle.kc_cores.specs.CheckEnded.{AreClaimsOf, IsRight, IsWrong};
ghost use Rattle.kc_cores.specs.Endings.{HasNoClaims, HasNoFileGraph, HasNoVerdict, HasSaid, IsRefuted};
ghost use Rattle.kc_cores.specs.Inputs.{known_bytes};

use crate::CoresStatus;
use crate::ascending::begins_ascending;
use crate::ending::{Ending, unopened};
use crate::input::FileInput;
use crate::message::Message;
use crate::reading::read_graph;
use crate::verdict::{claim_refused, fault_line, no_line};
use kc_claims::{
    CheckFault, Claim, ClaimFault, ClaimTable, SourceFault, SweptClaims, check_claims,
    check_stream, claims_from,
};
use kc_graph::NoMemory;
use kc_io::sink::{Sink, write_all};
use kc_io::source::Source;
use kc_threads::Hands;
use kc_wishes::{CheckRequest, NamedText};
use std::alloc::Global;

/// The claims of all that the source has left, in columns.
fn table_from<C: Source>(alloc: Global, name: &str, source: &mut C) -> Result<ClaimTable, Ending>
    ensures claims { IfOk result (λ table. (claims : List Claim) × HoldsClaims (C.left source.old) claims table) }
    ensures stopped { IfErr result (λ ending. HasNoClaims ending name.now (C.left source.old) (C.faults source.old) (C.faults source.new)) }
    ensures faultless { OnOk result (C.faults source.new ≡ C.faults source.old) }
{
    match claims_from(alloc, source) {
        Ok(table) => Ok(table),
        Err(SourceFault::Refused(refusal)) => Err(claim_refused(alloc, name, refusal)),
        Err(SourceFault::ReadFault) => Err(Ending::read_fault()),
        Err(SourceFault::NoMemory) => Err(Ending::no_memory()),
    }
}

/// The claims of the certificate of this name, in columns.
pub(crate) fn read_table<C: FileInput>(
    alloc: Global,
    name: &str,
    certificate: &mut C,
) -> Result<ClaimTable, Ending>
    ensures claims { IfOk result (λ table. (claims : List Claim) × HoldsClaims (C.behind certificate.old name.now) claims table) }
    ensures stopped { IfErr result (λ ending. HasNoClaims ending name.now (C.behind certificate.old name.now)
        (C.faults certificate.old) (C.faults certificate.new)) }
    ensures faultless { OnOk result (C.faults certificate.new ≡ C.faults certificate.old) }
{
    match certificate.open(name) {
        Ok(()) => table_from(alloc, name, certificate),
        Err(fault) => Err(unopened(alloc, name, fault)),
    }
}

/// The name of the file of a text that is in no dialect, where it can be read beside the input and begins with edges that ascend.
fn ascending_file<'a, I: FileInput>(
    alloc: Global,
    text: NamedText<'a>,
    input: &I,
) -> Option<&'a str>
    ensures plain { IfSome result (λ _. text.entry.dialect ≡ None) }
    ensures named { IfSome result (λ name. (text_of text.entry).file ≡ Some name.now) }
{
    if text.dialect.is_some() {
        return None;
    }
    let Some(name) = text.file else {
        return None;
    };
    if !begins_ascending(alloc, &mut input.beside(name)?) {
        return None;
    }
    Some(name)
}

/// What a sweep over the edges of a file tells of claims, as the edges come. It tells nothing and gives the claims again where the text is in a
/// dialect, is that of no file that can be read beside the input, or is none that a sweep can tell of. Where the file begins with edges that
/// don't ascend, no sweep begins.
fn swept<I: FileInput>(
    alloc: Global,
    table: ClaimTable,
    text: NamedText<'_>,
    input: &I,
) -> Result<SweptClaims, NoMemory>
    requires { (claims : List Claim) × AreTabled claims table }
    ensures plain { IfOk result (λ swept. TellsVerdict swept → text.entry.dialect ≡ None) }
    ensures swept { (claims : List Claim) → AreTabled claims table
        → IfOk result (IsSwept claims (known_bytes I.left I.behind (text_of text.entry).file input.now)) }
{
    if let Some(name) = ascending_file(alloc, text, input) {
        if let Some(mut file) = input.beside(name) {
            return check_stream(alloc, table, &mut file);
        }
    }
    let claims = table.claims(alloc)?;
    Ok(SweptClaims::Untold(claims))
}

/// Reads the graph, and gives the first fault of claims beside it if they have one.
fn judged<H: Hands, I: FileInput>(
    alloc: Global,
    hands: &H,
    claims: &[Claim],
    text: NamedText<'_>,
    input: &mut I,
) -> Result<Option<ClaimFault>, Ending>
    ensures right { (certificate : Option (List ℕ)) → AreClaimsOf certificate claims.now → IfOk result (λ found. found ≡ None
        → IsRight text.entry.dialect (known_bytes I.left I.behind (text_of text.entry).file input.old) certificate) }
    ensures wrong { (certificate : Option (List ℕ)) → AreClaimsOf certificate claims.now → IfOk result (λ found. IfSome found (λ fault.
        IsWrong fault text.entry.dialect (known_bytes I.left I.behind (text_of text.entry).file input.old) certificate)) }
    ensures faultless { OnOk result (I.faults input.new ≡ I.faults input.old) }
    ensures stopped { IfErr result (λ ending. HasNoFileGraph ending (text_of text.entry)
        (known_bytes I.left I.behind (text_of text.entry).file input.old) (I.faults input.old) (I.faults input.new)) }
{
    let named = read_graph(alloc, hands, text, input)?;
    match check_claims(alloc, &named.ids, &named.graph, claims) {
        Ok(()) => Ok(None),
        Err(CheckFault::Faulty(fault)) => Ok(Some(fault)),
        Err(CheckFault::NoMemory) => Err(Ending::no_memory()),
    }
}

/// Reads the certificate and then the graph, and gives the first fault of the certificate if it has one. A file is swept first, and no graph
/// is made of it where that tells what the claims are.
pub(crate) fn verdict_on<H: Hands, I: FileInput, C: FileInput>(
    alloc: Global,
    hands: &H,
    request: CheckRequest<'_>,
    input: &mut I,
    certificate: &mut C,
) -> Result<Option<ClaimFault>, Ending>
    ensures right { IfOk result (λ found. found ≡ None → IsRight request.entry.graph.dialect
        (known_bytes I.left I.behind (text_of request.entry.graph).file input.old)
        (C.behind certificate.old request.entry.certificate.now)) }
    ensures wrong { IfOk result (λ found. IfSome found (λ fault. IsWrong fault request.entry.graph.dialect
        (known_bytes I.left I.behind (text_of request.entry.graph).file input.old)
        (C.behind certificate.old request.entry.certificate.now))) }
    ensures faultless { OnOk result ((I.faults input.new ≡ I.faults input.old) × (C.faults certificate.new ≡ C.faults certificate.old)) }
    ensures stopped { IfErr result (λ ending. HasNoVerdict ending request.entry.certificate.now (text_of request.entry.graph)
        (known_bytes I.left I.behind (text_of request.entry.graph).file input.old) (C.behind certificate.old request.entry.certificate.now)
        (I.faults input.old) (I.faults input.new) (C.faults certificate.old) (C.faults certificate.new)) }
{
    let table = read_table(alloc, request.certificate, certificate)?;
    match swept(alloc, table, request.graph, input) {
        Ok(SweptClaims::Told(found)) => Ok(found),
        Ok(SweptClaims::Untold(claims)) => judged(alloc, hands, &claims, request.graph, input),
        Err(_) => Err(Ending::no_memory()),
    }
}

/// Writes a text, and gives this ending, or that of a fault of the sink. A reader that went away is one too: it took no whole answer.
pub(crate) fn say<O: Sink>(out: &mut O, text: &[u8], ending: Ending) -> Ending
    ensures { HasSaid result ending text.now (O.taken out.old) (O.taken out.new) (O.faults out.old) (O.faults out.new) }
{
    match write_all(out, text) {
        Ok(()) => ending,
        Err(_) => Ending::unwritten(),
    }
}

/// Says that the certificate has this fault.
pub(crate) fn refute<O: Sink>(alloc: Global, name: &str, fault: ClaimFault, out: &mut O) -> Ending
    ensures { IsRefuted result name.now fault (O.taken out.old) (O.taken out.new) (O.faults out.old) (O.faults out.new) }
{
    let Ok(answer) = no_line(alloc, fault) else {
        return Ending::no_memory();
    };
    let Ok(line) = fault_line(alloc, name, fault) else {
        return Ending::no_memory();
    };
    let uncertified = Ending {
        status: CoresStatus::Uncertified,
        message: Message::Made(line),
    };
    say(out, answer.as_bytes(), uncertified)
}
