//! The words about a stream: what it is answered beside the lines of its graph and of its batches, what becomes of bad lines, by how many workers
//! its batches may be made, what stands in front of it, and where its state is saved.
ghost use Rattle.std.specs.Prelude.{◌≡◌, IfOk, false, option_map};
ghost use Rattle.clap.specs.Simple.{app_of};
ghost use Rattle.clap.specs.Walk.{rule_of};
ghost use Rattle.clap.specs.declared.builder.command.Command.TheViews.{out-Command};
ghost use Rattle.kc_wishes.specs.Requests.{plan_of, start_of, stream_of_request};
ghost use Rattle.kc_wishes.specs.Wishes.{enter_option, options_of, show_in, show_of, stream_bad_lines_in, stream_bad_lines_of, stream_command};
ghost use Rattle.kc_wishes.specs.Wishes.{every_in, every_option, save_in, saved_to, start_in, stream_of, watch_command, with_answers};
ghost use Rattle.kc_wishes.specs.Wishes.{format_option, reply_format_in, reply_format_of, with_saving, with_start, workers_in, workers_option};

use crate::dialect_words::{counted_from_one, value_option};
use crate::request::{SavePlan, StreamStart, WatchRequest};
use clap::{Arg, ArgAction, Command};
use kc_graph::NoMemory;
use kc_queue::WORKERS;
use kc_watch::{BadLines, ReplyFormat, Show, WatchOptions};
use std::alloc::Global;

/// The option `--format FORMAT`.
fn format_option<'a>(alloc: Global) -> Arg<'a>
    ensures rule { rule_of result ≡ format_option }
    ensures local { result.global ≡ false }
{
    value_option(
        alloc,
        "format",
        "FORMAT",
        "How the lines are written: text, in words, or json, an object a line",
    )
}

/// The option `--enter K`.
fn enter_option<'a>(alloc: Global) -> Arg<'a>
    ensures rule { rule_of result ≡ enter_option }
    ensures local { result.global ≡ false }
{
    Arg::new(alloc, "enter")
        .long("enter")
        .action(ArgAction::Set)
        .value_name("K")
        .value_parser(clap::value_parser!(u32))
        .help(
            "Writes behind each batch a line enter ID or leave ID for who came into the K-core or left it",
        )
}

/// The command `watch` without its options.
fn stream_command<'a>(alloc: Global) -> Command<'a>
    ensures app { app_of result ≡ stream_command }
    ensures local { (out-Command result).has_globals ≡ false }
{
    Command::new(alloc, "watch")
        .about(
            "Answers a stream: edges, then batches of + A B and - A B, each begun by a line batch",
        )
        .after_help("Example: tail -f changes.txt | cores watch --show changes")
}

/// The option `--workers W`.
fn workers_option<'a>(alloc: Global) -> Arg<'a>
    ensures rule { rule_of result ≡ workers_option }
    ensures local { result.global ≡ false }
{
    Arg::new(alloc, "workers")
        .long("workers")
        .action(ArgAction::Set)
        .value_name("W")
        .value_parser(clap::value_parser!(u32))
        .help("Lets up to W threads make a large batch, 1 to 64; the answers are the same")
}

/// The command with the options about what a stream is answered.
fn with_answers<'a>(alloc: Global, command: Command<'a>) -> Result<Command<'a>, NoMemory>
    requires { (out-Command command).has_globals ≡ false }
    ensures app { IfOk result (λ made. app_of made ≡ with_answers (app_of command.entry)) }
    ensures local { IfOk result (λ made. (out-Command made).has_globals ≡ false) }
{
    let show = value_option(
        alloc,
        "show",
        "WHAT",
        "What is written behind the line of a batch: summary for nothing, or changes for a line ID OLD NEW for each id that changes",
    );
    let bad_lines = value_option(
        alloc,
        "bad-lines",
        "WHAT",
        "What becomes of a refused line in a batch: stop to end the answers, or batch to drop its batch and go on with the next",
    );
    let shown = command.arg(show)?;
    let entered = shown.arg(enter_option(alloc))?;
    entered.arg(bad_lines)?.arg(format_option(alloc))
}

/// The command with the options about what stands in front of a stream.
fn with_start<'a>(alloc: Global, command: Command<'a>) -> Result<Command<'a>, NoMemory>
    requires { (out-Command command).has_globals ≡ false }
    ensures app { IfOk result (λ made. app_of made ≡ with_start (app_of command.entry)) }
    ensures local { IfOk result (λ made. (out-Command made).has_globals ≡ false) }
{
    let from = value_option(
        alloc,
        "from",
        "FILE",
        "A file whose lines stand in front of the stream, as the edges that it begins with",
    );
    let load = value_option(
        alloc,
        "load",
        "FILE",
        "A state that --save wrote, whose graph stands in front of the stream; not beside --from",
    );
    command.arg(from)?.arg(load)
}

/// The option `--every N`.
fn every_option<'a>(alloc: Global) -> Arg<'a>
    ensures rule { rule_of result ≡ every_option }
    ensures local { result.global ≡ false }
{
    Arg::new(alloc, "every")
        .long("every")
        .action(ArgAction::Set)
        .value_name("N")
        .value_parser(clap::value_parser!(u32))
        .help("Saves the state behind each N batches too, from 1, beside --save")
}

/// The command with the options about the state that is saved.
fn with_saving<'a>(alloc: Global, command: Command<'a>) -> Result<Command<'a>, NoMemory>
    requires { (out-Command command).has_globals ≡ false }
    ensures app { IfOk result (λ made. app_of made ≡ with_saving (app_of command.entry)) }
    ensures local { IfOk result (λ made. (out-Command made).has_globals ≡ false) }
{
    let save = value_option(
        alloc,
        "save",
        "FILE",
        "The file that the state becomes at the end of the stream: the ids, the edges, the core numbers and an order that certifies them",
    );
    command.arg(save)?.arg(every_option(alloc))
}

/// The command `watch`.
pub(crate) fn watch_command<'a>(alloc: Global) -> Result<Command<'a>, NoMemory>
    ensures app { IfOk result (λ made. app_of made ≡ watch_command) }
    ensures local { IfOk result (λ made. (out-Command made).has_globals ≡ false) }
{
    let worked = stream_command(alloc).arg(workers_option(alloc))?;
    let answered = with_answers(alloc, worked)?;
    let started = with_start(alloc, answered)?;
    with_saving(alloc, started)
}

/// What is shown of core numbers, by this word.
fn show_of(text: &str) -> Option<Show>
    ensures { result ≡ show_of text.now }
{
    match text {
        "summary" => Some(Show::Summary),
        "changes" => Some(Show::Changes),
        _ => None,
    }
}

/// What is shown of core numbers: no more than the summary where nothing else is said.
pub(crate) fn show_in(text: Option<&str>) -> Option<Show>
    ensures { result ≡ show_in (option_map (λ t. t.now) text.entry) }
{
    match text {
        None => Some(Show::Summary),
        Some(text) => show_of(text),
    }
}

/// What becomes of bad lines of a stream, by this word.
fn stream_bad_lines_of(text: &str) -> Option<BadLines>
    ensures { result ≡ stream_bad_lines_of text.now }
{
    match text {
        "stop" => Some(BadLines::Stop),
        "batch" => Some(BadLines::Batch),
        _ => None,
    }
}

/// What becomes of bad lines of a stream: they end the answers where nothing else is said.
pub(crate) fn stream_bad_lines_in(text: Option<&str>) -> Option<BadLines>
    ensures { result ≡ stream_bad_lines_in (option_map (λ t. t.now) text.entry) }
{
    match text {
        None => Some(BadLines::Stop),
        Some(text) => stream_bad_lines_of(text),
    }
}

/// How the lines of a reply are written, by this word.
fn reply_format_of(text: &str) -> Option<ReplyFormat>
    ensures { result ≡ reply_format_of text.now }
{
    match text {
        "text" => Some(ReplyFormat::Words),
        "json" => Some(ReplyFormat::Json),
        _ => None,
    }
}

/// How the lines of a reply are written: in words where nothing else is said.
pub(crate) fn reply_format_in(text: Option<&str>) -> Option<ReplyFormat>
    ensures { result ≡ reply_format_in (option_map (λ t. t.now) text.entry) }
{
    match text {
        None => Some(ReplyFormat::Words),
        Some(text) => reply_format_of(text),
    }
}

/// By how many workers a batch of a stream may be made: by one where nothing else is said.
pub(crate) fn workers_in(text: Option<&str>) -> Option<u32>
    ensures { result ≡ workers_in (option_map (λ t. t.now) text.entry) }
{
    match text {
        None => Some(1),
        Some(text) => counted_from_one(WORKERS as u32, text),
    }
}

/// What a stream is to be answered, where all parts are right.
pub(crate) fn options_of(
    show: Option<Show>,
    enter: Option<Option<u32>>,
    bad_lines: Option<BadLines>,
    format: Option<ReplyFormat>,
    workers: Option<u32>,
) -> Option<WatchOptions>
    ensures { result ≡ options_of show enter bad_lines format workers }
{
    match (show, enter, bad_lines, format, workers) {
        (Some(show), Some(enter), Some(bad_lines), Some(format), Some(workers)) => {
            Some(WatchOptions {
                show,
                enter,
                bad_lines,
                format,
                workers,
            })
        }
        _ => None,
    }
}

/// What stands in front of a stream, by the name of a text and that of a state. Not both are given, and none is standard input, which brings the
/// stream.
pub(crate) fn start_in<'a>(from: Option<&'a str>, load: Option<&'a str>) -> Option<StreamStart<'a>>
    ensures { option_map start_of result ≡ start_in (option_map (λ t. t.now) from.entry) (option_map (λ t. t.now) load.entry) }
{
    match (from, load) {
        (None, None) => Some(StreamStart::Nothing),
        (Some("-"), None) | (None, Some("-")) => None,
        (Some(file), None) => Some(StreamStart::From(file)),
        (None, Some(file)) => Some(StreamStart::Load(file)),
        (Some(_), Some(_)) => None,
    }
}

/// Behind how many batches the state of a stream is saved anew, where that is said.
fn every_in(text: Option<&str>) -> Option<Option<u32>>
    ensures { result ≡ every_in (option_map (λ t. t.now) text.entry) }
{
    match text {
        None => Some(None),
        Some(text) => Some(Some(counted_from_one(u32::MAX, text)?)),
    }
}

/// The state is saved to this file, and not to standard output, so often.
fn saved_to<'a>(file: &'a str, every: Option<Option<u32>>) -> Option<Option<SavePlan<'a>>>
    ensures { option_map (option_map plan_of) result ≡ saved_to file.entry.now every }
{
    match every {
        None => None,
        Some(every) => {
            if file == "-" {
                return None;
            }
            Some(Some(SavePlan { file, every }))
        }
    }
}

/// Where the state of a stream is saved. It is nowhere where no file is named, and then it is not said how often.
pub(crate) fn save_in<'a>(
    file: Option<&'a str>,
    every: Option<&str>,
) -> Option<Option<SavePlan<'a>>>
    ensures { option_map (option_map plan_of) result
        ≡ save_in (option_map (λ t. t.now) file.entry) (option_map (λ t. t.now) every.entry) }
{
    match (file, every) {
        (None, None) => Some(None),
        (None, Some(_)) => None,
        (Some(file), every) => saved_to(file, every_in(every)),
    }
}

/// The answer to a stream of these parts, where there is each of them.
pub(crate) fn stream_of<'a>(
    options: Option<WatchOptions>,
    start: Option<StreamStart<'a>>,
    save: Option<Option<SavePlan<'a>>>,
) -> Option<WatchRequest<'a>>
    ensures { option_map stream_of_request result
        ≡ stream_of options (option_map start_of start.entry) (option_map (option_map plan_of) save.entry) }
{
    match (options, start, save) {
        (Some(options), Some(start), Some(save)) => Some(WatchRequest {
            options,
            start,
            save,
        }),
        _ => None,
    }
}
