//! The words of a run, and what they ask for.
//!
//! They are read by `clap`, as a command with a command of its own for each task. What `clap` makes of the words of such a command is a
//! function of them, on which `specs/Wishes.antt` stands. The texts of help, of the version and about wrong words are those of `clap`.
ghost use Rattle.std.specs.Prelude.{◌≡◌, ◌∷◌, [], IfErr, IfOk, codes, false, map, option_map};
ghost use Rattle.std.specs.List.{list_any};
ghost use Rattle.std.specs.Option.{option_map_or, option_to_list};
ghost use Rattle.clap.specs.Matches.{found_of};
ghost use Rattle.clap.specs.Simple.{app_of, new_rule, subcommand_rows_of, with_subcommand};
ghost use Rattle.clap.specs.Values.{kind_of};
ghost use Rattle.clap.specs.Walk.{first_of, rows_of, rule_of};
ghost use Rattle.clap.specs.declared.builder.command.Command.TheViews.{out-Command};
ghost use Rattle.kc_wishes.specs.Wishes.{Replies, bare_command, certificate_command, certificate_rule, check_command, check_of, check_wish, core_option};
ghost use Rattle.kc_wishes.specs.Wishes.{cores_command, edges_flag};
ghost use Rattle.kc_wishes.specs.Wishes.{is_set, level_in, members_command, members_in, members_task, quiet_command, quiet_flag};
ghost use Rattle.kc_wishes.specs.Wishes.{options_in, stream_in, task_command, task_in, watch_wish, wish_about, wish_by, wish_for, wish_in, wish_of, with_cores};
ghost use Rattle.kc_wishes.specs.Wishes.{are_pieces, pieces_option, sweep_command, tells_file_alone, pieces_wish, stream_flag, stream_wish, tells_separator, wish_to, with_tasks};
ghost use Rattle.kc_wishes.specs.Wishes.{writing_command};
ghost use Rattle.kc_wishes.specs.Requests.{IsReplyFor, IsRequestFor, RepliesTo, query_of, stream_of_request, text_of};

use crate::dialect_words::{
    file_named, ids_option, number_of, tells_separator, text_in, threads_option, with_dialect,
};
use crate::output_words::{format_in, format_option, output_option};
use crate::request::{
    CheckRequest, NamedText, Request, SaveRequest, StreamRequest, Task, Wanted, WatchRequest,
};
use crate::watch_words::{
    options_of, reply_format_in, save_in, show_in, start_in, stream_bad_lines_in, stream_of,
    watch_command, workers_in,
};
use clap::error::ErrorKind;
use clap::{Arg, ArgAction, ArgMatches, Command, Error};
use kc_graph::NoMemory;
use kc_lines::format::Format;
use kc_watch::WatchOptions;
use std::alloc::Global;
use std::convert::AsStr;

/// The version that the program tells.
pub const VERSION: &str = "0.1.0";

/// What is replied to words that ask for no run. Each text has all its lines, with their ends.
#[derive(Drop)]
pub enum Reply {
    /// Help or the version, as the words ask for it.
    Asked(String),
    /// What is wrong with the words.
    Mistake(String),
    /// There was no memory.
    NoMemory,
}

impl From<NoMemory> for Reply {
    ghost use Rattle.kc_wishes.specs.declared.words.Reply.TheVariants as reply;

    ghost from_gives = { λ _ r. r ≡ reply.NoMemory };

    fn from(_: NoMemory) -> Reply {
        Reply::NoMemory
    }
}

/// The flag `--quiet`.
fn quiet_flag<'a>(alloc: Global) -> Arg<'a>
    ensures rule { rule_of result ≡ quiet_flag }
    ensures local { result.global ≡ false }
{
    Arg::new(alloc, "quiet")
        .long("quiet")
        .action(ArgAction::SetTrue)
        .help("Writes no line about the graph to standard error")
}

/// The command of a task without the name of the file, with one line of example in its help.
fn quiet_command<'a>(
    alloc: Global,
    name: &'a str,
    about: &'a str,
    example: &'a str,
) -> Result<Command<'a>, NoMemory>
    ensures app { IfOk result (λ made. app_of made ≡ quiet_command name.entry.now) }
    ensures local { IfOk result (λ made. (out-Command made).has_globals ≡ false) }
{
    Command::new(alloc, name)
        .about(about)
        .after_help(example)
        .arg(quiet_flag(alloc))
}

/// The command of a task with what is said of its output, without the name of the file.
fn writing_command<'a>(
    alloc: Global,
    name: &'a str,
    about: &'a str,
    example: &'a str,
) -> Result<Command<'a>, NoMemory>
    ensures app { IfOk result (λ made. app_of made ≡ writing_command name.entry.now) }
    ensures local { IfOk result (λ made. (out-Command made).has_globals ≡ false) }
{
    let command = quiet_command(alloc, name, about, example)?;
    command.arg(format_option(alloc))?.arg(output_option(alloc))
}

/// The command of a task, with one line of example in its help.
fn task_command<'a>(
    alloc: Global,
    name: &'a str,
    about: &'a str,
    example: &'a str,
) -> Result<Command<'a>, NoMemory>
    ensures app { IfOk result (λ made. app_of made ≡ task_command name.entry.now) }
    ensures local { IfOk result (λ made. (out-Command made).has_globals ≡ false) }
{
    let command = with_dialect(alloc, writing_command(alloc, name, about, example)?)?;
    let named = command.arg(ids_option(alloc))?;
    named.arg(threads_option(alloc))?.arg(edges_rule(alloc))
}

/// The command whose words are read, without those of the tasks.
fn bare_command<'a>(alloc: Global) -> Result<Command<'a>, NoMemory>
    ensures { IfOk result (λ made. app_of made ≡ bare_command) }
{
    let command = Command::new(alloc, "cores")
        .about("Core numbers of a graph that is given as an edge list")
        .version(VERSION)
        .no_binary_name(true)
        .subcommand_required(true)
        .arg_required_else_help(true)
        .disable_help_subcommand(true);
    command.bin_name("cores")
}

/// The option `--core K` of the command `members`.
fn core_option<'a>(alloc: Global) -> Arg<'a>
    ensures rule { rule_of result ≡ core_option }
    ensures local { result.global ≡ false }
{
    Arg::new(alloc, "core")
        .long("core")
        .action(ArgAction::Set)
        .value_name("K")
        .value_parser(clap::value_parser!(u32))
        .help("The K of the K-core; without it the innermost core")
}

/// The flag `--edges` of the command `members`.
fn edges_flag<'a>(alloc: Global) -> Arg<'a>
    ensures rule { rule_of result ≡ edges_flag }
    ensures local { result.global ≡ false }
{
    Arg::new(alloc, "edges")
        .long("edges")
        .action(ArgAction::SetTrue)
        .help("Writes the edges, a line A<TAB>B for each, in place of the ids")
}

/// The command `members`.
fn members_command<'a>(alloc: Global) -> Result<Command<'a>, NoMemory>
    ensures app { IfOk result (λ made. app_of made ≡ members_command) }
    ensures local { IfOk result (λ made. (out-Command made).has_globals ≡ false) }
{
    let task = task_command(
        alloc,
        "members",
        "Writes the ids of the K-core, one a line, ascending",
        "Example: cores members --core 3 graph.txt",
    )?;
    task.arg(core_option(alloc))?.arg(edges_flag(alloc))
}

/// The command, and one of a task.
fn with_task<'a>(
    alloc: Global,
    command: Command<'a>,
    name: &'a str,
    about: &'a str,
    example: &'a str,
) -> Result<Command<'a>, NoMemory>
    ensures { IfOk result (λ made. app_of made ≡ with_subcommand (app_of command.entry) (task_command name.entry.now).top) }
{
    let task = task_command(alloc, name, about, example)?;
    command.subcommand(task)
}

/// The command, and those of the vertices and the cores.
fn with_cores<'a>(alloc: Global) -> Result<Command<'a>, NoMemory>
    ensures { IfOk result (λ made. app_of made ≡ with_cores) }
{
    let numbers = with_task(
        alloc,
        bare_command(alloc)?,
        "numbers",
        "Writes a line ID<TAB>CORE for each id, by ascending ids",
        "Example: cores numbers graph.txt",
    )?;
    let sizes = with_task(
        alloc,
        numbers,
        "sizes",
        "Writes a line K<TAB>VERTICES OF CORE NUMBER K<TAB>VERTICES<TAB>EDGES of the K-core for each K",
        "Example: cores sizes graph.txt",
    )?;
    sizes.subcommand(members_command(alloc)?)
}

/// The command, and those of all tasks.
fn with_tasks<'a>(alloc: Global) -> Result<Command<'a>, NoMemory>
    ensures { IfOk result (λ made. app_of made ≡ with_tasks) }
{
    let layers = with_task(
        alloc,
        with_cores(alloc)?,
        "layers",
        "Writes a line ID<TAB>CORE<TAB>LAYER for each id: the round of removal within its core number, from 0 on",
        "Example: cores layers graph.txt",
    )?;
    with_task(
        alloc,
        layers,
        "order",
        "Writes a line ID<TAB>CORE for each id, in an order that certifies the core numbers",
        "Example: cores order graph.txt",
    )
}

/// The name of the certificate.
fn certificate_rule<'a>(alloc: Global) -> Arg<'a>
    ensures rule { rule_of result ≡ certificate_rule }
    ensures local { result.global ≡ false }
{
    Arg::new(alloc, "CERTIFICATE").required(true).help(
        "A file of lines ID CORE, or ID CORE LAYER, as the commands order and layers write them",
    )
}

/// The flag `--stream`.
fn stream_flag<'a>(alloc: Global) -> Arg<'a>
    ensures rule { rule_of result ≡ stream_flag }
    ensures local { result.global ≡ false }
{
    Arg::new(alloc, "stream")
        .long("stream")
        .action(ArgAction::SetTrue)
        .help("Makes no graph: each line must be above the one before it, with its lesser id first")
}

/// The option `--pieces FILE..`.
fn pieces_option<'a>(alloc: Global) -> Arg<'a>
    ensures rule { rule_of result ≡ pieces_option }
    ensures local { result.global ≡ false }
{
    Arg::new(alloc, "pieces")
        .long("pieces")
        .action(ArgAction::Set)
        .num_args(1..)
        .value_name("FILE")
        .help("As --stream for these files, one after another; as --pieces part-*")
}

/// The command `check`, without the name of the file.
fn certificate_command<'a>(alloc: Global) -> Result<Command<'a>, NoMemory>
    ensures app { IfOk result (λ made. app_of made ≡ certificate_command) }
    ensures local { IfOk result (λ made. (out-Command made).has_globals ≡ false) }
{
    Command::new(alloc, "check")
        .about(
            "Writes yes where the certificate shows the core numbers, and else no<TAB>ID, with status 1",
        )
        .after_help("Example: cores order graph.txt > order.txt && cores check order.txt graph.txt")
        .arg(certificate_rule(alloc))
}

/// The name of the file of the edges.
fn edges_rule<'a>(alloc: Global) -> Arg<'a>
    ensures rule { rule_of result ≡ new_rule (codes "FILE") }
    ensures local { result.global ≡ false }
{
    Arg::new(alloc, "FILE").help(
        "The edge list, two ids a line; standard input where it is - or none is named",
    )
}

/// The command `check` with the options about a stream, without what is said of a text that is read whole.
fn sweep_command<'a>(alloc: Global) -> Result<Command<'a>, NoMemory>
    ensures app { IfOk result (λ made. app_of made ≡ sweep_command) }
    ensures local { IfOk result (λ made. (out-Command made).has_globals ≡ false) }
{
    let command = with_dialect(alloc, certificate_command(alloc)?)?;
    command.arg(stream_flag(alloc))?.arg(pieces_option(alloc))
}

/// The command `check`.
fn check_command<'a>(alloc: Global) -> Result<Command<'a>, NoMemory>
    ensures app { IfOk result (λ made. app_of made ≡ check_command) }
    ensures local { IfOk result (λ made. (out-Command made).has_globals ≡ false) }
{
    let command = sweep_command(alloc)?;
    command.arg(threads_option(alloc))?.arg(edges_rule(alloc))
}

/// The command whose words are read.
fn cores_command<'a>(alloc: Global) -> Result<Command<'a>, NoMemory>
    ensures { IfOk result (λ made. app_of made ≡ cores_command) }
{
    let tasks = with_tasks(alloc)?;
    let command = tasks.subcommand(check_command(alloc)?)?;
    command.subcommand(watch_command(alloc)?)
}

/// The K of a K-core, where it is given. There is none where it is no number.
fn level_in(text: Option<&str>) -> Option<Option<u32>>
    ensures { result ≡ level_in (option_map (λ t. t.now) text.entry) }
{
    match text {
        None => Some(None),
        Some(text) => Some(Some(number_of(text)?)),
    }
}

/// Whether a flag with this value is given.
fn is_set(text: Option<&str>) -> bool
    ensures { result ≡ is_set (option_map (λ t. t.now) text.entry) }
{
    match text {
        Some(word) => word == "true",
        None => false,
    }
}

/// The members of a core, or its edges.
fn members_task(edges: bool, level: Option<u32>) -> Task
    ensures { result ≡ members_task edges level }
{
    if edges {
        Task::Edges(level)
    } else {
        Task::Members(level)
    }
}

/// The task of the command `members` with these matches.
fn members_in(found: &ArgMatches<'_>) -> Option<Task>
    ensures { result ≡ members_in (rows_of (found_of found.now)) }
{
    let level = level_in(found.get_str("core"))?;
    Some(members_task(is_set(found.get_str("edges")), level))
}

/// The task that a command of this name is for, with these matches.
fn task_in(name: &str, found: &ArgMatches<'_>) -> Option<Task>
    ensures { result ≡ task_in name.now (rows_of (found_of found.now)) }
{
    match name {
        "numbers" => Some(Task::Numbers),
        "sizes" => Some(Task::Sizes),
        "members" => members_in(found),
        "layers" => Some(Task::Layers),
        "order" => Some(Task::Order),
        _ => None,
    }
}

/// What is replied where `clap` has this to say.
fn reply_of(alloc: Global, error: &Error) -> Reply
    ensures kind { IsReplyFor result (kind_of error.now) }
    ensures memory { kind_of error.now ≡ ErrorKind.OutOfMemory → result ≡ Reply.NoMemory }
{
    if let ErrorKind::OutOfMemory = error.kind() {
        return Reply::NoMemory;
    }
    match format!(in alloc; "{error}") {
        Err(_) => Reply::NoMemory,
        Ok(text) => {
            if error.use_stderr() {
                Reply::Mistake(text)
            } else {
                Reply::Asked(text)
            }
        }
    }
}

/// What is replied where no command was met, though one is required, or where its K is no number.
fn no_command(alloc: Global) -> Reply
    ensures { RepliesTo result (Replies (ErrorKind.InvalidSubcommand ∷ [])) }
{
    match String::from_str(
        alloc,
        "cores: there is no such command, or its K is no number, see cores --help\n",
    ) {
        Ok(text) => Reply::Mistake(text),
        Err(_) => Reply::NoMemory,
    }
}

/// What is replied where a value of an option about the text or the output is not right.
fn wrong_value(alloc: Global) -> Reply
    ensures { RepliesTo result (Replies (ErrorKind.ValueValidation ∷ [])) }
{
    match String::from_str(
        alloc,
        "cores: --columns takes two unlike numbers, as 1,2; --separator blank, comma, semicolon or tab; --bad-lines stop or skip; \
         --ids numbers or names; --format tsv or json; --threads 1 to 64\n",
    ) {
        Ok(text) => Reply::Mistake(text),
        Err(_) => Reply::NoMemory,
    }
}

/// The lines of a task as they are written, or as the file of this name.
fn wanted_to<'a>(output: Option<&'a str>, lines: Request<'a>) -> Wanted<'a>
    ensures { IsRequestFor result (wish_to (option_map (λ t. t.now) output.entry) (query_of lines.entry)) }
{
    match output {
        None => Wanted::Lines(lines),
        Some(file) => Wanted::Save(SaveRequest { file, lines }),
    }
}

/// What a command for a task and a text asks for, by the format of its lines and the file that they become.
fn request_for<'a>(
    alloc: Global,
    task: Option<Task>,
    graph: Option<NamedText<'a>>,
    format: Option<Format>,
    output: Option<&'a str>,
    quiet: bool,
) -> Result<Wanted<'a>, Reply>
    ensures asks { IfOk result (λ wanted. IsRequestFor wanted
        (wish_for task (option_map text_of graph.entry) format (option_map (λ t. t.now) output.entry) quiet)) }
    ensures replies { IfErr result (λ reply. RepliesTo reply
        (wish_for task (option_map text_of graph.entry) format (option_map (λ t. t.now) output.entry) quiet)) }
{
    let Some(task) = task else {
        return Err(no_command(alloc));
    };
    let Some(graph) = graph else {
        return Err(wrong_value(alloc));
    };
    let Some(format) = format else {
        return Err(wrong_value(alloc));
    };
    let lines = Request {
        task,
        graph,
        format,
        quiet,
    };
    Ok(wanted_to(output, lines))
}

/// What is replied where an ascending stream is to be in a dialect, or read by several threads, or beside another text.
fn wrong_stream(alloc: Global) -> Reply
    ensures { RepliesTo result (Replies (ErrorKind.ValueValidation ∷ [])) }
{
    match String::from_str(
        alloc,
        "cores: --stream and --pieces take lines of two ids with a blank or a tab between them, and one goes without the other and --pieces \
         without FILE, and both without --threads; leave them out for other tables, or write such lines\n",
    ) {
        Ok(text) => Reply::Mistake(text),
        Err(_) => Reply::NoMemory,
    }
}

/// The file that is named, alone, or none.
fn one_file<'a>(alloc: Global, file: Option<&'a str>) -> Result<Vec<&'a str>, NoMemory>
    ensures { IfOk result (λ files. map (λ t. t.now) files.items ≡ option_to_list (option_map (λ t. t.now) file.entry)) }
{
    let mut files = Vec::new(alloc);
    if let Some(name) = file {
        files.push(name)?;
    }
    Ok(files)
}

/// The check of a certificate for an ascending stream, where it is in no dialect and nothing is said of threads.
fn stream_for<'a>(
    alloc: Global,
    certificate: &'a str,
    graph: NamedText<'a>,
) -> Result<Wanted<'a>, Reply>
    ensures asks { IfOk result (λ wanted. IsRequestFor wanted
        (stream_wish certificate.entry.now (option_map (λ t. t.now) graph.entry.file) graph.entry.dialect graph.entry.threads)) }
    ensures replies { IfErr result (λ reply. RepliesTo reply
        (stream_wish certificate.entry.now (option_map (λ t. t.now) graph.entry.file) graph.entry.dialect graph.entry.threads)) }
{
    match (graph.dialect, graph.threads) {
        (None, None) => match one_file(alloc, graph.file) {
            Ok(files) => Ok(Wanted::CheckStream(StreamRequest { certificate, files })),
            Err(_) => Err(Reply::NoMemory),
        },
        _ => Err(wrong_stream(alloc)),
    }
}

/// Whether a name of these tells another separator than blanks.
fn any_separator(files: &[&str]) -> bool
    ensures { result ≡ list_any tells_separator (map (λ t. t.now) files.now) }
{
    for name in files {
        if tells_separator(name) {
            return true;
        }
    }
    false
}

/// Whether nothing is said of a text but its file.
fn tells_file_alone(graph: NamedText<'_>) -> bool
    ensures { result ≡ tells_file_alone (text_of graph.entry) }
{
    !graph.dialect.is_some() && !graph.threads.is_some()
}

/// Whether words ask for no other text than those of these files, and nothing else is said of these.
fn are_pieces(graph: NamedText<'_>, stream: bool, files: &[&str]) -> bool
    ensures { result ≡ are_pieces (text_of graph.entry) stream (map (λ t. t.now) files.now) }
{
    !stream && !graph.file.is_some() && tells_file_alone(graph) && !any_separator(files)
}

/// The check of a certificate for an ascending stream in files, where no other text is asked for.
fn pieces_for<'a>(
    alloc: Global,
    certificate: &'a str,
    graph: NamedText<'a>,
    stream: bool,
    files: &[&'a str],
) -> Result<Wanted<'a>, Reply>
    ensures asks { IfOk result (λ wanted. IsRequestFor wanted
        (pieces_wish certificate.entry.now (text_of graph.entry) stream (map (λ t. t.now) files.now))) }
    ensures replies { IfErr result (λ reply. RepliesTo reply
        (pieces_wish certificate.entry.now (text_of graph.entry) stream (map (λ t. t.now) files.now))) }
{
    if !are_pieces(graph, stream, files) {
        return Err(wrong_stream(alloc));
    }
    match Vec::from_slice(alloc, files) {
        Ok(files) => Ok(Wanted::CheckStream(StreamRequest { certificate, files })),
        Err(_) => Err(Reply::NoMemory),
    }
}

/// The check of a certificate for the graph of a text, or for the text as an ascending stream, or for that of files.
fn check_of<'a>(
    alloc: Global,
    certificate: &'a str,
    graph: NamedText<'a>,
    stream: bool,
    files: &[&'a str],
) -> Result<Wanted<'a>, Reply>
    ensures asks { IfOk result (λ wanted. IsRequestFor wanted
        (check_of certificate.entry.now (text_of graph.entry) stream (map (λ t. t.now) files.now))) }
    ensures replies { IfErr result (λ reply. RepliesTo reply
        (check_of certificate.entry.now (text_of graph.entry) stream (map (λ t. t.now) files.now))) }
{
    if !files.is_empty() {
        return pieces_for(alloc, certificate, graph, stream, files);
    }
    if stream {
        return stream_for(alloc, certificate, graph);
    }
    Ok(Wanted::Check(CheckRequest { certificate, graph }))
}

/// What the command `check` asks for, by the name of the certificate, the text of a graph, whether it is a stream, and its files.
fn check_for<'a>(
    alloc: Global,
    certificate: Option<&'a str>,
    graph: Option<NamedText<'a>>,
    stream: bool,
    files: &[&'a str],
) -> Result<Wanted<'a>, Reply>
    ensures asks { IfOk result (λ wanted. IsRequestFor wanted
        (check_wish (option_map (λ t. t.now) certificate.entry) (option_map text_of graph.entry) stream (map (λ t. t.now) files.now))) }
    ensures replies { IfErr result (λ reply. RepliesTo reply
        (check_wish (option_map (λ t. t.now) certificate.entry) (option_map text_of graph.entry) stream (map (λ t. t.now) files.now))) }
{
    let Some(certificate) = certificate else {
        return Err(no_command(alloc));
    };
    match graph {
        None => Err(wrong_value(alloc)),
        Some(graph) => check_of(alloc, certificate, graph, stream, files),
    }
}

/// What the command `check` asks for, where no file of a stream may be named.
fn check_among<'a>(
    alloc: Global,
    certificate: Option<&'a str>,
    graph: Option<NamedText<'a>>,
    stream: bool,
    files: Option<&[&'a str]>,
) -> Result<Wanted<'a>, Reply>
    ensures asks { IfOk result (λ wanted. IsRequestFor wanted (check_wish (option_map (λ t. t.now) certificate.entry) (option_map text_of graph.entry)
        stream (option_map_or (λ fs. map (λ t. t.now) fs.now) files.entry []))) }
    ensures replies { IfErr result (λ reply. RepliesTo reply (check_wish (option_map (λ t. t.now) certificate.entry) (option_map text_of graph.entry)
        stream (option_map_or (λ fs. map (λ t. t.now) fs.now) files.entry []))) }
{
    match files {
        Some(files) => check_for(alloc, certificate, graph, stream, files),
        None => check_for(alloc, certificate, graph, stream, &[]),
    }
}

/// What a command of this name for a text asks for, with these matches.
fn wanted_of<'a>(alloc: Global, name: &str, found: &ArgMatches<'a>) -> Result<Wanted<'a>, Reply>
    ensures asks { IfOk result (λ wanted. IsRequestFor wanted (wish_about name.now (rows_of (found_of found.now)))) }
    ensures replies { IfErr result (λ reply. RepliesTo reply (wish_about name.now (rows_of (found_of found.now)))) }
{
    let graph = text_in(found);
    if name == "check" {
        let certificate = found.get_str("CERTIFICATE");
        let stream = is_set(found.get_str("stream"));
        return check_among(alloc, certificate, graph, stream, found.get_strs("pieces"));
    }
    let task = task_in(name, found);
    let quiet = is_set(found.get_str("quiet"));
    let format = format_in(found.get_str("format"));
    let output = file_named(found.get_str("output"));
    request_for(alloc, task, graph, format, output, quiet)
}

/// What a stream is to be answered, by the matches of the command `watch`.
fn options_in(found: &ArgMatches<'_>) -> Option<WatchOptions>
    ensures { result ≡ options_in (rows_of (found_of found.now)) }
{
    let show = show_in(found.get_str("show"));
    let enter = level_in(found.get_str("enter"));
    let bad_lines = stream_bad_lines_in(found.get_str("bad-lines"));
    let format = reply_format_in(found.get_str("format"));
    let workers = workers_in(found.get_str("workers"));
    options_of(show, enter, bad_lines, format, workers)
}

/// The answer to a stream, by the matches of the command `watch`.
fn stream_in<'a>(found: &ArgMatches<'a>) -> Option<WatchRequest<'a>>
    ensures { option_map stream_of_request result ≡ stream_in (rows_of (found_of found.now)) }
{
    let start = start_in(found.get_str("from"), found.get_str("load"));
    let save = save_in(found.get_str("save"), found.get_str("every"));
    stream_of(options_in(found), start, save)
}

/// What is replied where the value of an option about a stream is not right.
fn wrong_show(alloc: Global) -> Reply
    ensures { RepliesTo result (Replies (ErrorKind.ValueValidation ∷ [])) }
{
    match String::from_str(
        alloc,
        "cores: --workers takes 1 to 64, --show summary or changes, --enter a number, --bad-lines stop or batch, --format text or json, --from, \
         --load and --save a file, not standard input or output, --from or --load and not both, and --every a number from 1, beside --save\n",
    ) {
        Ok(text) => Reply::Mistake(text),
        Err(_) => Reply::NoMemory,
    }
}

/// What the command `watch` asks for, where its options are right.
fn watch_for<'a>(alloc: Global, request: Option<WatchRequest<'a>>) -> Result<Wanted<'a>, Reply>
    ensures asks { IfOk result (λ wanted. IsRequestFor wanted (watch_wish (option_map stream_of_request request.entry))) }
    ensures replies { IfErr result (λ reply. RepliesTo reply (watch_wish (option_map stream_of_request request.entry))) }
{
    match request {
        None => Err(wrong_show(alloc)),
        Some(request) => Ok(Wanted::Watch(request)),
    }
}

/// What a command of this name asks for, with these matches.
fn wanted_by<'a>(alloc: Global, name: &str, found: &ArgMatches<'a>) -> Result<Wanted<'a>, Reply>
    ensures asks { IfOk result (λ wanted. IsRequestFor wanted (wish_by name.now (rows_of (found_of found.now)))) }
    ensures replies { IfErr result (λ reply. RepliesTo reply (wish_by name.now (rows_of (found_of found.now)))) }
{
    if name == "watch" {
        return watch_for(alloc, stream_in(found));
    }
    wanted_of(alloc, name, found)
}

/// What the command that was met asks for.
fn request_in<'a>(alloc: Global, matches: &ArgMatches<'a>) -> Result<Wanted<'a>, Reply>
    ensures asks { IfOk result (λ wanted. IsRequestFor wanted (wish_in (subcommand_rows_of matches.now))) }
    ensures replies { IfErr result (λ reply. RepliesTo reply (wish_in (subcommand_rows_of matches.now))) }
{
    match matches.subcommand() {
        None => Err(no_command(alloc)),
        Some((name, found)) => wanted_by(alloc, name, found),
    }
}

/// What the words ask for, or what is replied to them. The words are those after the program's name.
///
/// The request is what the words ask for by `wish_of`. A reply is `Asked` only where `clap` has help or the version for them, and `Mistake`
/// only where they are not right: `clap` refuses them, or a value of an option is none that the option takes. It is `NoMemory` where there was
/// none for the commands of `clap` or for a text, whatever the words are.
///
/// # Example
///
/// ```rust
/// use kc_wishes::{Wanted, request_of};
///
/// // Lines of a request: its task is Members(Some(3)), and the file of its graph Some("graph.txt").
/// let wanted = request_of(alloc, &["members", "--core", "3", "graph.txt"]);
/// let asks_for_lines = matches!(wanted, Ok(Wanted::Lines(_))); // true
/// ```
pub fn request_of<'a, W: AsStr>(alloc: Global, words: &'a [W]) -> Result<Wanted<'a>, Reply>
    ensures asks { IfOk result (λ wanted. IsRequestFor wanted (wish_of (map W.text words.entry.now))) }
    ensures replies { IfErr result (λ reply. RepliesTo reply (wish_of (map W.text words.entry.now))) }
{
    let command = cores_command(alloc)?;
    match command.try_get_matches_from(words) {
        Ok(matches) => request_in(alloc, &matches),
        Err(error) => Err(reply_of(alloc, &error)),
    }
}
