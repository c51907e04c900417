//! The top call.
ghost use Rattle.std.specs.Prelude.{◌≡◌, ℕ, List, IfErr, IfOk, None, Some, map, string_bytes};
ghost use Rattle.kc_wishes.specs.Requests.{RepliesTo, query_of, stream_of_request, text_of};
ghost use Rattle.kc_wishes.specs.Wishes.{Asks, SavingPlan, Wish, wish_of};
ghost use Rattle.kc_cores.specs.CheckEnded.{CheckEnded};
ghost use Rattle.kc_cores.specs.CoresEnded.{CoresEnded, ToldLine, done_line};
ghost use Rattle.kc_cores.specs.Endings.{line_of};
ghost use Rattle.kc_cores.specs.Saved.{RunEnded};
ghost use Rattle.kc_cores.specs.Sentences.{no_memory_line};
ghost use Rattle.kc_cores.specs.WatchEnded.{WatchEnded};
ghost use Rattle.kc_cores.specs.WatchSaved.{WatchSaved};

use crate::checking::{refute, say, verdict_on};
use crate::ending::{Ending, done_message, finish};
use crate::input::FileInput;
use crate::message::Message;
use crate::pipe::PipeSink;
use crate::prepared::{Prepared, prepare};
use crate::saving::save;
use crate::stream_check::check_stream;
use crate::watch_saving::{StreamTask, watch_saving};
use crate::watching::watch;
use crate::{CoresStatus, CoresStreams};
use kc_files::folder::Folder;
use kc_io::sink::{Sink, write_all};
use kc_keeper::BatchMaker;
use kc_threads::Hands;
use kc_wire::wire::Wire;
use kc_wishes::{CheckRequest, Reply, Request, Wanted, WatchRequest, request_of};
use std::alloc::Global;
use std::convert::AsStr;

/// Writes the lines of a task for the graph of the input, and gives the ending of the run.
fn follow<H: Hands, I: FileInput, C, O: PipeSink, E, L>(
    alloc: Global,
    hands: &H,
    request: Request<'_>,
    streams: &mut CoresStreams<I, C, O, E, L>,
) -> Result<String, Ending>
    ensures done { IfOk result (λ told. CoresEnded I.Source I.behind O.Sink O.gone (Asks (query_of request.entry)) CoresStatus.Done
        (done_line request.entry.quiet (string_bytes told)) streams.old.input streams.new.input streams.old.out streams.new.out) }
    ensures stopped { IfErr result (λ ending. CoresEnded I.Source I.behind O.Sink O.gone (Asks (query_of request.entry)) ending.status
        (line_of ending) streams.old.input streams.new.input streams.old.out streams.new.out) }
    ensures certificate { streams.new.certificate ≡ streams.old.certificate }
    ensures err { streams.new.err ≡ streams.old.err }
    ensures wire { streams.new.wire ≡ streams.old.wire }
{
    let Prepared { lines, told } = prepare(alloc, hands, request, &mut streams.input)?;
    if lines.write(&mut streams.out).is_err() {
        return Err(Ending::cut(streams.out.is_reader_gone()));
    }
    Ok(told)
}

/// Writes help or the version, where it was asked for. What is wrong with the words is the line of the ending.
fn show<I: FileInput, C, O: PipeSink, E, L>(
    reply: Reply,
    streams: &mut CoresStreams<I, C, O, E, L>,
) -> Ending
    ensures ended { (wish : Wish) → RepliesTo reply wish → CoresEnded I.Source I.behind O.Sink O.gone wish result.status (line_of result)
        streams.old.input streams.new.input streams.old.out streams.new.out }
    ensures memory { reply ≡ Reply.NoMemory → (result.status ≡ CoresStatus.NoMemory) × (line_of result ≡ no_memory_line)
        × (streams.new.input ≡ streams.old.input) × (streams.new.out ≡ streams.old.out) }
    ensures certificate { streams.new.certificate ≡ streams.old.certificate }
    ensures err { streams.new.err ≡ streams.old.err }
    ensures wire { streams.new.wire ≡ streams.old.wire }
{
    match reply {
        Reply::NoMemory => Ending::no_memory(),
        Reply::Mistake(text) => Ending {
            status: CoresStatus::Usage,
            message: Message::Made(text),
        },
        Reply::Asked(text) => {
            if write_all(&mut streams.out, text.as_bytes()).is_err() {
                return Ending::cut(streams.out.is_reader_gone());
            }
            Ending {
                status: CoresStatus::Shown,
                message: Message::Fixed(""),
            }
        }
    }
}

/// All of a run for a task but its line.
fn list<H: Hands, I: FileInput, C, O: PipeSink, E, L>(
    alloc: Global,
    hands: &H,
    request: Request<'_>,
    streams: &mut CoresStreams<I, C, O, E, L>,
) -> Ending
    ensures ended { CoresEnded I.Source I.behind O.Sink O.gone (Asks (query_of request.entry)) result.status (line_of result)
        streams.old.input streams.new.input streams.old.out streams.new.out }
    ensures certificate { streams.new.certificate ≡ streams.old.certificate }
    ensures err { streams.new.err ≡ streams.old.err }
    ensures wire { streams.new.wire ≡ streams.old.wire }
{
    match follow(alloc, hands, request, streams) {
        Err(ending) => ending,
        Ok(summary) => Ending {
            status: CoresStatus::Done,
            message: done_message(request.quiet, summary),
        },
    }
}

/// All of a run that checks a certificate but its line.
fn check<H: Hands, I: FileInput, C: FileInput, O: PipeSink, E, L>(
    alloc: Global,
    hands: &H,
    request: CheckRequest<'_>,
    streams: &mut CoresStreams<I, C, O, E, L>,
) -> Ending
    ensures ended { CheckEnded I.Source I.behind C.Source C.behind O.Sink request.entry.certificate.now (text_of request.entry.graph) result.status
        (line_of result) streams.old.input streams.new.input streams.old.certificate streams.new.certificate streams.old.out streams.new.out }
    ensures err { streams.new.err ≡ streams.old.err }
    ensures wire { streams.new.wire ≡ streams.old.wire }
{
    match verdict_on(
        alloc,
        hands,
        request,
        &mut streams.input,
        &mut streams.certificate,
    ) {
        Err(ending) => ending,
        Ok(Some(fault)) => refute(alloc, request.certificate, fault, &mut streams.out),
        Ok(None) => {
            let certified = Ending {
                status: CoresStatus::Certified,
                message: Message::Fixed(""),
            };
            say(&mut streams.out, b"yes\n", certified)
        }
    }
}

/// All of a run that answers a stream but its line.
fn answer_stream<I: FileInput, C, O, E, L: Wire, M: BatchMaker, P: Folder>(
    alloc: Global,
    maker: &M,
    request: WatchRequest<'_>,
    streams: &mut CoresStreams<I, C, O, E, L>,
    folder: &mut P,
) -> Ending
    ensures saved { (plan : SavingPlan) → (stream_of_request request.entry).save ≡ Some plan
        → WatchSaved I.Source I.behind L.Wire P.holds P.failed (stream_of_request request.entry) plan result.status (line_of result)
        streams.old.input streams.new.input streams.old.wire streams.new.wire folder.old folder.new }
    ensures told { (stream_of_request request.entry).save ≡ None
        → WatchEnded I.Source I.behind L.Wire (stream_of_request request.entry) result.status (line_of result)
        streams.old.input streams.new.input streams.old.wire streams.new.wire × (folder.new ≡ folder.old) }
    ensures certificate { streams.new.certificate ≡ streams.old.certificate }
    ensures out { streams.new.out ≡ streams.old.out }
    ensures err { streams.new.err ≡ streams.old.err }
{
    match request.save {
        None => watch(alloc, maker, request, &mut streams.input, &mut streams.wire),
        Some(plan) => watch_saving(
            alloc,
            StreamTask { request, maker },
            plan,
            &mut streams.input,
            &mut streams.wire,
            folder,
        ),
    }
}

/// All of a run but its line.
fn work<
    M: BatchMaker,
    H: Hands,
    W: AsStr,
    I: FileInput,
    C: FileInput,
    O: PipeSink,
    E,
    L: Wire,
    P: Folder,
>(
    alloc: Global,
    maker: &M,
    hands: &H,
    words: &[W],
    streams: &mut CoresStreams<I, C, O, E, L>,
    folder: &mut P,
) -> Ending
    ensures ended { RunEnded I.Source I.behind C.Source C.behind O.Sink O.gone L.Wire P.holds P.failed (wish_of (map W.text words.now)) result.status
        (line_of result) streams.old.input streams.new.input streams.old.certificate streams.new.certificate streams.old.out streams.new.out
        streams.old.wire streams.new.wire folder.old folder.new }
    ensures err { streams.new.err ≡ streams.old.err }
{
    match request_of(alloc, words) {
        Err(reply) => show(reply, streams),
        Ok(Wanted::Lines(request)) => list(alloc, hands, request, streams),
        Ok(Wanted::Save(request)) => save(alloc, hands, request, &mut streams.input, folder),
        Ok(Wanted::Check(request)) => check(alloc, hands, request, streams),
        Ok(Wanted::CheckStream(request)) => check_stream(alloc, &request, streams),
        Ok(Wanted::Watch(request)) => answer_stream(alloc, maker, request, streams, folder),
    }
}

/// Reads the graph that `words` name, from the input of `streams`, and writes to `out` the lines that they ask for. Then it writes one
/// line to `err`: the summary of the graph where all was written, and else what was found wrong. Or it checks the certificate that they
/// name for that graph, writes `yes`, or `no` and the id that is at fault, and then what is wrong with it. Or it answers the stream of
/// the wire, and writes what is wrong with it, if a line is refused. Or the lines become a file of `folder`, and nothing goes to `out`.
///
/// Batches of the wire are made by `maker`, by as many workers as the words ask for, or fewer. A graph that is read whole is read and made by
/// `hands`, by as many threads as the words ask for, or fewer. No clause tells who made them: the answers are the same.
///
/// `words` are those after the program's name. Its clause has the line and two records. The one is `SaveEnded` where the lines become a file,
/// and all but the input and the folder is as it was. At `Done` the file has just the lines for the graph that the bytes mean, and other files
/// stay. At `WriteFault` all files are as they were, the folder's count of failed calls rose, and the line tells why. At each other status
/// there is no graph, and the folder is as it was. Else the folder is as it was, and the record is `CheckEnded` for a check, and the wire is
/// as it was:
///
/// - `did`: at `Certified` the claims of the certificate show the core numbers of the graph, and the sink took `yes`. At `Uncertified` they
///   do not, and the sink took `no` and the id; the line tells the first fault. At `WriteFault` it took a prefix of the answer, and else
///   nothing. At `Refused` the line tells what is refused, and at `Unopened` which file was not opened, and why.
/// - `faults`: a count of faults of the input or of the certificate rose at `Unopened` and at `ReadFault`, and else both are as they were.
/// - `write_faults`: the count of faults of `out` rose at `WriteFault`, and else it is as it was.
///
/// For a check of an ascending stream it is `StreamChecked`, which says the same, but that no graph is made: at `Refused` the line tells the first
/// line that is wrong, and at `Uncertified` what shows that the claims are none.
///
/// For a stream that is answered it is `WatchEnded`, and the certificate and `out` are as they were, and the input too where no file stands in front
/// of the stream. Where that file was not opened the status is `Unopened`, and where a read of it failed it is `ReadFault`; then the wire is as it
/// was. Else the file was read to its end, and the record is `StreamAnswered`, behind the text of the file with its last line ended:
///
/// - `happened`: the history of the wire, where it tells one, goes on with these events, reads and writes in one order.
/// - `answered`: at every moment at which more was asked for, just the answer to the text of the file and to the bytes read so far was written. Where
///   the stream ended, the whole answer was, and where a write failed or memory ended, a prefix of it.
/// - `ended`: how the dialogue on the wire ended is how the run ends. Where the stream ended or a line is refused, the status is `Done` where
///   none is refused, and else `Refused`, and the line tells which and why; `NoMemory` where there is none for that line. The other ends
///   are `ReadFault`, also after 2^64 - 1 reads, `ReaderGone`, `WriteFault` and `NoMemory`. At `Done` and `ReaderGone` there is no line.
/// - `faults`: just the call of the wire has failed by which the dialogue ended, and else none.
///
/// For a stream whose states are saved it is `WatchSaved`, which says the same, and of the folder:
///
/// - `kept`: the file has the text of the state that a front of the stream means, behind its last ended batch, or is as before where none was
///   saved; at `Done` it is the last state. Other files are as before.
/// - `ended`: at `WriteFault` the line may tell that a state was not saved, and then the folder's count of failed calls rose.
///
/// For all other words it is `CoresEnded`, and the certificate and the wire are as they were. It has these fields:
///
/// - `usage`, `shown`: at `Usage` and at `Shown` the words make `clap` reply so. Its texts are its own, of which no clause speaks.
/// - `replies`: where `clap` replies, nothing is read, and the status is `Usage`, `Shown`, `ReaderGone`, `WriteFault` or `NoMemory`.
/// - `read`: at `Done` the input was read to its end.
/// - `took`: at `Done` the sink took just the lines for the graph that the bytes mean, after what it had taken before. At `Shown` it took a
///   text. At `ReaderGone` and at `WriteFault` it took a prefix of what was to be written, and else nothing.
/// - `line`: the line of the status. At `Done` it is the summary of that graph, behind what is told of bad lines that were passed over, or
///   nothing where the words ask for a quiet run. At `Refused` it tells the file, the line, the column where one is meant, and the kind of
///   the refusal, or what the text is that is no edge list; below it the line of the text is shown with a caret under the column. At
///   `Unopened` it tells the name of the file and why it was not opened. At `ReaderGone` there is none.
/// - `faults`: the input's count of faults rose at `Unopened` and at `ReadFault`, and else it is as it was.
/// - `write_faults`: the count of faults of `out` rose at `ReaderGone` and at `WriteFault`, and else it is as it was.
/// - `reader`: at `ReaderGone` the sink tells that its reader went away, and at `WriteFault` that it did not.
/// - `refuses`: where the bytes are refused, the status is `Refused`, `Unopened`, `ReadFault` or `NoMemory`.
/// - `complete`: where they mean a graph, the status is `Done`, `Unopened`, `ReadFault`, `ReaderGone`, `WriteFault` or `NoMemory`.
///
/// The other, `ToldLine`, says that `err` took the line, or a prefix of it where a call failed, and that it was offered whole. A fault of
/// `err` changes no status.
///
/// # Example
///
/// ```rust
/// use kc_cores::answer::answer;
/// use kc_cores::{CoresStreams, exit_number};
/// use kc_keeper::KeeperAlone;
/// use kc_threads::CallerAlone;
///
/// // Streams in memory, as at `answer_in_memory`. The second line of the input has one id.
/// let mut streams = CoresStreams { input, certificate, out, err, wire };
/// let status = answer(alloc, &KeeperAlone, &CallerAlone, &["numbers"], &mut streams, &mut folder); // Refused
/// let code = exit_number(status); // 3
/// let lines = streams.out.taken(); // none
/// ```
pub fn answer<
    M: BatchMaker,
    H: Hands,
    W: AsStr,
    I: FileInput,
    C: FileInput,
    O: PipeSink,
    E: Sink,
    L: Wire,
    P: Folder,
>(
    alloc: Global,
    maker: &M,
    hands: &H,
    words: &[W],
    streams: &mut CoresStreams<I, C, O, E, L>,
    folder: &mut P,
) -> CoresStatus
    ensures { (line : List ℕ) × RunEnded I.Source I.behind C.Source C.behind O.Sink O.gone L.Wire P.holds P.failed (wish_of (map W.text words.now))
        result line streams.old.input streams.new.input streams.old.certificate streams.new.certificate streams.old.out streams.new.out
        streams.old.wire streams.new.wire folder.old folder.new × ToldLine E.Sink line streams.old.err streams.new.err }
{
    let ending = work(alloc, maker, hands, words, streams, folder);
    finish(&mut streams.err, ending)
}
