//! The check of a certificate for an ascending stream, of which no graph is made.
ghost use Rattle.std.specs.Prelude.{◌≡◌, ◌<◌, ◌+◌, [], ℕ, List, IfErr, IfOk, IfSome, None, OnOk, Option, Some, length, map, option_map, string_bytes};
ghost use Rattle.std.specs.Prelude.{take};
ghost use Rattle.kc_claims.specs.Pieces.{HasTakenText, with_piece};
ghost use Rattle.kc_claims.specs.Streams.{IsFaultOfStream};
ghost use Rattle.kc_claims.specs.declared.claim.Claim.{Claim};
ghost use Rattle.kc_claims.specs.declared.fault.ClaimFault.{ClaimFault};
ghost use Rattle.kc_cores.specs.Endings.{HasNoStreamVerdict, IsCertifiedStream, IsFaultOfFiles, NoPieceFor, NoStreamFor};
ghost use Rattle.kc_cores.specs.Endings.{TellsFaultyLineAt, line_of};
ghost use Rattle.kc_cores.specs.StreamChecked.{IsStreamFault, IsStreamRight, IsStreamText, IsTextOfFiles, StreamChecked, descends_sentence};
ghost use Rattle.kc_cores.specs.StreamChecked.{faulty_line, line_fault_sentence};

use crate::checking::{read_table, refute, say};
use crate::ending::{Ending, in_file, unopened};
use crate::input::FileInput;
use crate::message::Message;
use crate::pipe::PipeSink;
use crate::sentences::sentence_of;
use crate::{CoresStatus, CoresStreams};
use kc_claims::{AscendingCheck, CheckFault, ClaimFault, FaultyLine, LineFault, StreamFault};
use kc_graph::NoMemory;
use kc_io::source::Source;
use kc_wishes::StreamRequest;
use std::alloc::Global;

/// How edges are mended that do not ascend, by whether they come in several files.
fn descends_sentence(several: bool) -> &'static str
    ensures { result.now ≡ descends_sentence several }
{
    if several {
        "the edges do not ascend here; sort each file (sort -n -u -k1,1 -k2,2, lesser id first), give them in that order, each edge once"
    } else {
        "the edges do not ascend here; sort them, as by sort -n -u -k1,1 -k2,2, with the lesser id of each first, or leave out --stream"
    }
}

/// What was found wrong with a line of a stream that is to ascend, and how it is mended, by whether it comes in several files.
fn line_fault_sentence(several: bool, fault: LineFault) -> &'static str
    ensures { result.now ≡ line_fault_sentence several fault }
{
    match fault {
        LineFault::Refused(kind) => sentence_of(kind),
        LineFault::Descends => descends_sentence(several),
        LineFault::Unclaimed(_) => {
            "an id has no line in the certificate; add it or write the certificate anew with cores order"
        }
    }
}

/// Which line is wrong, and why.
fn faulty_line(
    alloc: Global,
    several: bool,
    file: Option<&str>,
    faulty: FaultyLine,
) -> Result<String, NoMemory>
    ensures { IfOk result (λ line. string_bytes line ≡ faulty_line several (option_map (λ t. t.now) file.entry) faulty) }
{
    let front = in_file(alloc, file)?;
    let line = faulty.line;
    let sentence = line_fault_sentence(several, faulty.fault);
    format!(in alloc; "cores: {front}line {line}: {sentence}\n")
}

/// A line of the stream is wrong.
fn wrong_line(alloc: Global, several: bool, file: Option<&str>, faulty: FaultyLine) -> Ending
    ensures { TellsFaultyLineAt result.status (line_of result) several (option_map (λ t. t.now) file.entry) faulty }
{
    match faulty_line(alloc, several, file, faulty) {
        Ok(line) => Ending {
            status: CoresStatus::Refused,
            message: Message::Made(line),
        },
        Err(_) => Ending::no_memory(),
    }
}

/// Takes what the input has left as the next piece of a stream, which is that of a file where one is named. Gives the id of the first line that is
/// wrong, where there is no claim of it.
fn take_left<S: Source>(
    alloc: Global,
    several: bool,
    file: Option<&str>,
    source: &mut S,
    check: &mut AscendingCheck,
) -> Result<Option<u32>, Ending>
    requires { (claims : List Claim) × (before : Option (List ℕ)) × HasTakenText claims before check.old }
    ensures taken { (claims : List Claim) (before : Option (List ℕ)) → HasTakenText claims before check.old
        → IfOk result (λ found. found ≡ None → HasTakenText claims (with_piece before (S.left source.old)) check.new) }
    ensures unclaimed { (claims : List Claim) (before : Option (List ℕ)) → HasTakenText claims before check.old
        → IfOk result (λ found. IfSome found (λ id. IsFaultOfStream claims (ClaimFault.Missing id) (with_piece before (S.left source.old)))) }
    ensures faultless { OnOk result (S.faults source.new ≡ S.faults source.old) }
    ensures stopped { (claims : List Claim) (before : Option (List ℕ)) → HasTakenText claims before check.old
        → IfErr result (λ ending. NoPieceFor ending.status (line_of ending) several (option_map (λ t. t.now) file.entry) claims before
        (S.left source.old) (S.faults source.old) (S.faults source.new)) }
{
    match check.take(alloc, source) {
        Ok(found) => Ok(found),
        Err(StreamFault::Line(faulty)) => Err(wrong_line(alloc, several, file, faulty)),
        Err(StreamFault::ReadFault) => Err(Ending::read_fault()),
        Err(StreamFault::NoMemory) => Err(Ending::no_memory()),
    }
}

/// Turns to a file, and takes it as the next piece of a stream.
fn take_file<I: FileInput>(
    alloc: Global,
    several: bool,
    name: &str,
    input: &mut I,
    check: &mut AscendingCheck,
) -> Result<Option<u32>, Ending>
    requires { (claims : List Claim) × (before : Option (List ℕ)) × HasTakenText claims before check.old }
    ensures taken { (claims : List Claim) (before : Option (List ℕ)) → HasTakenText claims before check.old
        → IfOk result (λ found. found ≡ None → HasTakenText claims (with_piece before (I.behind input.old name.now)) check.new) }
    ensures unclaimed { (claims : List Claim) (before : Option (List ℕ)) → HasTakenText claims before check.old
        → IfOk result (λ found. IfSome found (λ id. IsFaultOfStream claims (ClaimFault.Missing id) (with_piece before (I.behind input.old name.now)))) }
    ensures faultless { OnOk result (I.faults input.new ≡ I.faults input.old) }
    ensures stopped { (claims : List Claim) (before : Option (List ℕ)) → HasTakenText claims before check.old
        → IfErr result (λ ending. NoPieceFor ending.status (line_of ending) several (Some name.now) claims before
        (I.behind input.old name.now) (I.faults input.old) (I.faults input.new)) }
{
    match input.open(name) {
        Ok(()) => take_left(alloc, several, Some(name), input, check),
        Err(fault) => Err(unopened(alloc, name, fault)),
    }
}

/// Takes files one after another, as the pieces of a stream.
fn take_files<I: FileInput>(
    alloc: Global,
    files: &[&str],
    input: &mut I,
    check: &mut AscendingCheck,
) -> Result<Option<u32>, Ending>
    requires { (claims : List Claim) × HasTakenText claims (Some []) check.old }
    ensures taken { (claims : List Claim) → HasTakenText claims (Some []) check.old
        → IfOk result (λ found. found ≡ None → (known : Option (List ℕ)) × IsTextOfFiles I.behind input.old (map (λ t. t.now) files.now) known
        × HasTakenText claims known check.new) }
    ensures unclaimed { (claims : List Claim) → HasTakenText claims (Some []) check.old
        → IfOk result (λ found. IfSome found (λ id. (n : ℕ) × (known : Option (List ℕ)) × (n < length files.now)
        × IsTextOfFiles I.behind input.old (take (n + 1) (map (λ t. t.now) files.now)) known × IsFaultOfStream claims (ClaimFault.Missing id) known)) }
    ensures faultless { OnOk result (I.faults input.new ≡ I.faults input.old) }
    ensures stopped { (claims : List Claim) → HasTakenText claims (Some []) check.old
        → IfErr result (λ ending. NoStreamFor I.left I.behind input.old ending.status (line_of ending) (map (λ t. t.now) files.now) claims
        (I.faults input.old) (I.faults input.new)) }
{
    let several = files.len() > 1;
    for name in files {
        match take_file(alloc, several, name, input, check) {
            Ok(None) => {}
            Ok(Some(id)) => return Ok(Some(id)),
            Err(ending) => return Err(ending),
        }
    }
    Ok(None)
}

/// Takes all of a stream: what the input has left where no file is named, or else the files.
fn take_stream<I: FileInput>(
    alloc: Global,
    files: &[&str],
    input: &mut I,
    check: &mut AscendingCheck,
) -> Result<Option<u32>, Ending>
    requires { (claims : List Claim) × HasTakenText claims (Some []) check.old }
    ensures taken { (claims : List Claim) → HasTakenText claims (Some []) check.old
        → IfOk result (λ found. found ≡ None → (known : Option (List ℕ)) × IsStreamText I.left I.behind input.old (map (λ t. t.now) files.now) known
        × HasTakenText claims known check.new) }
    ensures unclaimed { (claims : List Claim) → HasTakenText claims (Some []) check.old
        → IfOk result (λ found. IfSome found (λ id. (n : ℕ) × (known : Option (List ℕ))
        × IsStreamText I.left I.behind input.old (take (n + 1) (map (λ t. t.now) files.now)) known × IsFaultOfStream claims (ClaimFault.Missing id) known)) }
    ensures faultless { OnOk result (I.faults input.new ≡ I.faults input.old) }
    ensures stopped { (claims : List Claim) → HasTakenText claims (Some []) check.old
        → IfErr result (λ ending. NoStreamFor I.left I.behind input.old ending.status (line_of ending) (map (λ t. t.now) files.now) claims
        (I.faults input.old) (I.faults input.new)) }
{
    if files.is_empty() {
        return take_left(alloc, false, None, input, check);
    }
    take_files(alloc, files, input, check)
}

/// What shows that claims are no certificate of the graph of a stream, if anything does, from where their check has begun.
fn judged<I: FileInput>(
    alloc: Global,
    files: &[&str],
    check: AscendingCheck,
    input: &mut I,
) -> Result<Option<ClaimFault>, Ending>
    requires { (claims : List Claim) × HasTakenText claims (Some []) check }
    ensures right { (claims : List Claim) → HasTakenText claims (Some []) check → IfOk result (λ found. found ≡ None
        → IsCertifiedStream I.left I.behind input.old (map (λ t. t.now) files.now) claims) }
    ensures wrong { (claims : List Claim) → HasTakenText claims (Some []) check
        → IfOk result (λ found. IfSome found (IsFaultOfFiles I.left I.behind input.old (map (λ t. t.now) files.now) claims)) }
    ensures faultless { OnOk result (I.faults input.new ≡ I.faults input.old) }
    ensures stopped { (claims : List Claim) → HasTakenText claims (Some []) check
        → IfErr result (λ ending. NoStreamFor I.left I.behind input.old ending.status (line_of ending) (map (λ t. t.now) files.now) claims
        (I.faults input.old) (I.faults input.new)) }
{
    let mut check = check;
    match take_stream(alloc, files, input, &mut check) {
        Ok(None) => Ok(check.verdict()),
        Ok(Some(id)) => Ok(Some(ClaimFault::Missing(id))),
        Err(ending) => Err(ending),
    }
}

/// Reads the certificate and then the stream, and gives what shows that the certificate is none, if anything does.
fn verdict_on<I: FileInput, C: FileInput>(
    alloc: Global,
    name: &str,
    files: &[&str],
    input: &mut I,
    certificate: &mut C,
) -> Result<Option<ClaimFault>, Ending>
    ensures right { IfOk result (λ found. found ≡ None
        → IsStreamRight I.left I.behind input.old (map (λ t. t.now) files.now) (C.behind certificate.old name.now)) }
    ensures wrong { IfOk result (λ found. IfSome found (λ fault.
        IsStreamFault I.left I.behind input.old (map (λ t. t.now) files.now) fault (C.behind certificate.old name.now))) }
    ensures faultless { OnOk result ((I.faults input.new ≡ I.faults input.old) × (C.faults certificate.new ≡ C.faults certificate.old)) }
    ensures stopped { IfErr result (λ ending. HasNoStreamVerdict I.left I.behind input.old ending name.now (map (λ t. t.now) files.now)
        (C.behind certificate.old name.now) (I.faults input.old) (I.faults input.new) (C.faults certificate.old) (C.faults certificate.new)) }
{
    let table = read_table(alloc, name, certificate)?;
    match AscendingCheck::begin(alloc, table) {
        Ok(check) => judged(alloc, files, check, input),
        Err(CheckFault::Faulty(fault)) => Ok(Some(fault)),
        Err(CheckFault::NoMemory) => Err(Ending::no_memory()),
    }
}

/// All of a run that checks a certificate for an ascending stream but its line.
pub(crate) fn check_stream<I: FileInput, C: FileInput, O: PipeSink, E, L>(
    alloc: Global,
    request: &StreamRequest<'_>,
    streams: &mut CoresStreams<I, C, O, E, L>,
) -> Ending
    ensures ended { StreamChecked I.Source I.behind C.Source C.behind O.Sink request.now.certificate.now (map (λ t. t.now) request.now.files.items)
        result.status (line_of result) streams.old.input streams.new.input streams.old.certificate streams.new.certificate
        streams.old.out streams.new.out }
    ensures err { streams.new.err ≡ streams.old.err }
    ensures wire { streams.new.wire ≡ streams.old.wire }
{
    match verdict_on(
        alloc,
        request.certificate,
        &request.files,
        &mut streams.input,
        &mut streams.certificate,
    ) {
        Err(ending) => ending,
        Ok(Some(fault)) => refute(alloc, request.certificate, fault, &mut streams.out),
        Ok(None) => {
            let certified = Ending {
                status: CoresStatus::Certified,
                message: Message::Fixed(""),
            };
            say(&mut streams.out, b"yes\n", certified)
        }
    }
}
