//! The run.
ghost use Rattle.std.specs.Prelude.{◌≡◌, ◌≢◌, Some, IfErr, IfOk, OnOk, false, is_some, true};
ghost use Rattle.std.specs.Io.KnownBytes.{IsAtEnd};
ghost use Rattle.kc_top.specs.EndedFor.{EndedFor, ToldEnd};
ghost use Rattle.kc_top.specs.ErrLines.{IsErrLine};
ghost use Rattle.kc_top.specs.Given.{given, reads};
ghost use Rattle.kc_run.specs.Runs.{IsEmpty};
ghost use Rattle.kc_output.specs.Inputs.{HasWorkers};
ghost use Rattle.kc_top.specs.Leaving.{AnswersInput};
ghost use Rattle.kc_top.specs.Settings.{asked};
ghost use Rattle.kc_top.specs.Stops.{HasNoText, ended, last_line};

use crate::ending::{Stop, finish};
use crate::reading::input_of;
use crate::words::setting_of;
use crate::{Status, Streams};
use kc_io::sink::{Sink, write_all};
use kc_io::source::Source;
use kc_output::{Setting, text_of};
use kc_run::Ran;
use kc_threads::RuntimeCrew;
use kc_workers::Gate;
use std::alloc::Global;
use std::sync::Wait;
use std::thread::Threads;

/// The output that the setting asks for.
fn text_for<S: Source, G: Gate + Sync, R: Threads + Wait + Sync>(
    rt: &R,
    alloc: Global,
    setting: Setting,
    source: &mut S,
    gate: &G,
    ran: &mut Ran,
) -> Result<Vec<u8>, Stop>
    requires workers { HasWorkers setting }
    requires empty { IsEmpty ran.old }
    ensures text { IfOk result (λ text. AnswersInput (Some setting) (given (Some setting) (S.left source.old)) text.items ran.new) }
    ensures untouched { IfErr result (λ stop. stop ≢ Stop.NoMemory → ran.new ≡ ran.old) }
    ensures read { OnOk result (reads (Some setting) ≡ true → IsAtEnd (S.left source.new)) }
    ensures unread { reads (Some setting) ≡ false → source.new ≡ source.old }
    ensures accepted { is_some setting.generator ≡ true → IfErr result (λ stop. stop ≡ Stop.NoMemory) }
    ensures stopped { IfErr result (λ stop. HasNoText stop (given (Some setting) (S.left source.old)) (S.faults source.old) (S.faults source.new)) }
    ensures faultless { OnOk result (S.faults source.new ≡ S.faults source.old) }
{
    let crew = RuntimeCrew { rt };
    let input = input_of(alloc, &crew, setting.workers, setting.generator, source)?;
    Ok(text_of(rt, alloc, setting, input, gate, ran)?)
}

/// All of a run but its words and its last line.
fn follow<S: Source, O: Sink, E, G: Gate + Sync, R: Threads + Wait + Sync>(
    rt: &R,
    alloc: Global,
    setting: Setting,
    streams: &mut Streams<S, O, E>,
    gate: &G,
    ran: &mut Ran,
) -> Result<(), Stop>
    requires workers { HasWorkers setting }
    requires empty { IsEmpty ran.old }
    ensures ended { EndedFor S.Source O.Sink (Some setting) (ended result) streams.old.source streams.new.source
        streams.old.out streams.new.out ran.old ran.new }
    ensures line { IsErrLine (ended result) (given (Some setting) (S.left streams.old.source)) (last_line result) }
    ensures err { streams.new.err ≡ streams.old.err }
{
    let text = text_for(rt, alloc, setting, &mut streams.source, gate, ran)?;
    if write_all(&mut streams.out, &text).is_err() {
        return Err(Stop::WriteFault);
    }
    Ok(())
}

/// All of a run but its last line.
fn work<S: Source, O: Sink, E, G: Gate + Sync, R: Threads + Wait + Sync>(
    rt: &R,
    alloc: Global,
    words: &[&str],
    streams: &mut Streams<S, O, E>,
    gate: &G,
    ran: &mut Ran,
) -> Result<(), Stop>
    requires empty { IsEmpty ran.old }
    ensures ended { EndedFor S.Source O.Sink (asked words.now) (ended result) streams.old.source streams.new.source
        streams.old.out streams.new.out ran.old ran.new }
    ensures line { IsErrLine (ended result) (given (asked words.now) (S.left streams.old.source)) (last_line result) }
    ensures err { streams.new.err ≡ streams.old.err }
{
    match setting_of(alloc, words)? {
        None => Err(Stop::Usage),
        Some(setting) => follow(rt, alloc, setting, streams, gate, ran),
    }
}

/// Reads a graph and its batches from the source of `streams` and writes its lines to `out`, with the core numbers that `words` ask for.
/// At a status other than `Done` it writes one line to `err`.
///
/// `words` are those after the program's name, and [`setting_of`](crate::words::setting_of) says what they ask for. Where they name a
/// generator, its text is the input and the source is not read. `ran` takes what the run leaves for whoever looks at it. A fault of `err`
/// changes no status. There may be no memory at wrong words too: so they are right where the status is neither `Usage` nor `NoMemory`.
///
/// Its clause `ended` is the record `EndedFor` (`specs/EndedFor.antt`), with these fields:
///
/// - `usage`: at `Usage` the words are not right.
/// - `wrong_words`: at wrong words the status is `Usage` or `NoMemory`.
/// - `unread`: the source stays as it was at wrong words, and where they name a generator.
/// - `read`: at `Done` a source that is read was read to its end.
/// - `took`: at `Done` the output took just the text of what the input tells, after what it had taken before. At `WriteFault` it took a
///   prefix of that text, at `NoMemory` a prefix of what has to be written, and else nothing.
/// - `offered`: the first piece that the output was offered is the whole text, where there was a text to write.
/// - `ran`: what the run leaves are the tables of its journal, one after the other, whose entries are the updates of the input; each was
///   certified before each entry and at its end; and one receipt for each update. Where the input has no batch there is no table. It is of
///   the same bytes as the text. Where the run stopped before it had a text, it leaves what was there.
/// - `read_fault`: the source's count of faults rose at `ReadFault`, and else it is as it was.
/// - `write_fault`: the output's count of faults rose at `WriteFault`, and else it is as it was.
/// - `refused`: at `Refused` the bytes of the input are refused.
/// - `refuses`: where they are refused, the status is `Refused`, `ReadFault` or `NoMemory`.
/// - `complete`: where they mean an input, the status is `Done`, `ReadFault`, `WriteFault` or `NoMemory`.
/// - `accepted`: where the words name a generator, the status is `Done`, `WriteFault` or `NoMemory`.
///
/// Its clause `line` is the record `ToldEnd`, of the line about a run that stopped:
///
/// - `quiet`: at `Done` nothing is written to `err`.
/// - `line`, `is`: there is a line, and it is the one of this status; at `Refused` it tells the line and the kind of the refusal.
/// - `took`: `err` took that line, or a prefix of it where a call failed.
/// - `offered`: it was offered the whole line first, so the status is fixed before the sink answers.
///
/// As many threads as the words ask for workers read the lines of a large input, and as many workers enter the updates of each batch.
/// `gate` is called before each of their tries. Where the words
/// ask for rounds of h-indices, `rt` runs these in threads. No clause says so, and tests show it: one counts the calls of `gate`, and one
/// counts the shares. Nor does a clause say how many tries were in vain.
///
/// # Example
///
/// ```rust
/// use kc_run::Ran;
/// use kc_top::run::run;
/// use kc_top::{Streams, exit_number};
/// use kc_workers::NoGate;
///
/// // Streams in memory, as at `run_in_memory`. The text is a path of four vertices, and a batch that closes it.
/// let mut streams = Streams { source, out, err };
/// let mut ran = Ran::new(alloc);
/// let words = ["--workers", "2", "--show", "summary"];
/// let status = run(rt, alloc, &words, &mut streams, &NoGate, &mut ran); // Done
/// let code = exit_number(status); // 0
/// let shares = ran.shares.len(); // 2: one batch, two workers
/// ```
pub fn run<S: Source, O: Sink, E: Sink, G: Gate + Sync, R: Threads + Wait + Sync>(
    rt: &R,
    alloc: Global,
    words: &[&str],
    streams: &mut Streams<S, O, E>,
    gate: &G,
    ran: &mut Ran,
) -> Status
    requires empty { IsEmpty ran.old }
    ensures ended { EndedFor S.Source O.Sink (asked words.now) result streams.old.source streams.new.source
        streams.old.out streams.new.out ran.old ran.new }
    ensures line { ToldEnd E.Sink (given (asked words.now) (S.left streams.old.source)) result streams.old.err streams.new.err }
{
    match work(rt, alloc, words, streams, gate, ran) {
        Ok(()) => Status::Done,
        Err(stop) => finish(&mut streams.err, stop),
    }
}
