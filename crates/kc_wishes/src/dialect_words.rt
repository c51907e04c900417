//! The words about the text of a graph: its file, the dialect that it is in, and by how many threads it is read.
ghost use Rattle.std.specs.Prelude.{◌≡◌, IfOk, false, option_map};
ghost use Rattle.clap.specs.Matches.{found_of};
ghost use Rattle.clap.specs.Simple.{app_of};
ghost use Rattle.clap.specs.Walk.{rows_of, rule_of};
ghost use Rattle.clap.specs.declared.builder.command.Command.TheViews.{out-Command};
ghost use Rattle.kc_wishes.specs.Requests.{text_of};
ghost use Rattle.kc_wishes.specs.Wishes.{bad_lines_in, bad_lines_of, both_columns, columns_in, columns_of, dialect_by, dialect_of, file_named, ids_in, ids_of};
ghost use Rattle.kc_wishes.specs.Wishes.{counted_from_one, ids_option, threads_in, threads_option};
ghost use Rattle.kc_wishes.specs.Wishes.{is_blank_between, number_of, separator_in, separator_of, separator_of_file, skip_in, skip_option};
ghost use Rattle.kc_wishes.specs.Wishes.{tells_none, tells_separator, text_by, text_in, text_with, value_option, with_dialect};

use crate::request::NamedText;
use clap::{Arg, ArgAction, ArgMatches, Command};
use kc_dialect::{BadLines, Dialect, Ids, Separator, separator_of_name};
use kc_graph::NoMemory;
use kc_threads::MOST_THREADS;
use std::alloc::Global;

/// An option that takes a value.
pub(crate) fn value_option<'a>(
    alloc: Global,
    name: &'a str,
    value: &'a str,
    help: &'a str,
) -> Arg<'a>
    ensures rule { rule_of result ≡ value_option name.entry.now }
    ensures local { result.global ≡ false }
{
    Arg::new(alloc, name)
        .long(name)
        .action(ArgAction::Set)
        .value_name(value)
        .help(help)
}

/// The option `--skip N`.
fn skip_option<'a>(alloc: Global) -> Arg<'a>
    ensures rule { rule_of result ≡ skip_option }
    ensures local { result.global ≡ false }
{
    Arg::new(alloc, "skip")
        .long("skip")
        .action(ArgAction::Set)
        .value_name("N")
        .value_parser(clap::value_parser!(u32))
        .help("How many lines at the top are passed over, as a head")
}

/// The option `--ids KIND`.
pub(crate) fn ids_option<'a>(alloc: Global) -> Arg<'a>
    ensures rule { rule_of result ≡ ids_option }
    ensures local { result.global ≡ false }
{
    value_option(
        alloc,
        "ids",
        "KIND",
        "What the ids are: numbers, or names without blanks, as cores numbers --ids names people.txt",
    )
}

/// The option `--threads N`.
pub(crate) fn threads_option<'a>(alloc: Global) -> Arg<'a>
    ensures rule { rule_of result ≡ threads_option }
    ensures local { result.global ≡ false }
{
    Arg::new(alloc, "threads")
        .long("threads")
        .action(ArgAction::Set)
        .value_name("N")
        .value_parser(clap::value_parser!(u32))
        .help(
            "Reads the graph by N threads, 1 to 64, or one for each processor; the answer is the same",
        )
}

/// The command with the options of a dialect.
pub(crate) fn with_dialect<'a>(alloc: Global, command: Command<'a>) -> Result<Command<'a>, NoMemory>
    requires { (out-Command command).has_globals ≡ false }
    ensures app { IfOk result (λ made. app_of made ≡ with_dialect (app_of command.entry)) }
    ensures local { IfOk result (λ made. (out-Command made).has_globals ≡ false) }
{
    let columns = value_option(
        alloc,
        "columns",
        "A,B",
        "The columns of the two ids, from 1; other columns are passed over",
    );
    let separator = value_option(
        alloc,
        "separator",
        "NAME",
        "What parts the fields: blank, comma, semicolon or tab; of a file .csv the comma, of one .tsv the tab",
    );
    let bad_lines = value_option(
        alloc,
        "bad-lines",
        "WHAT",
        "What becomes of a line without an id in each column: stop or skip",
    );
    let command = command.arg(columns)?.arg(separator)?;
    command.arg(skip_option(alloc))?.arg(bad_lines)
}

/// The number that a text is.
pub(crate) fn number_of(text: &str) -> Option<u32>
    ensures { result ≡ number_of text.now }
{
    text.parse::<u32>().ok()
}

/// A number from 1 to `most`.
pub(crate) fn counted_from_one(most: u32, text: &str) -> Option<u32>
    ensures { result ≡ counted_from_one most text.now }
{
    number_of(text).filter(|number| *number >= 1 && *number <= most)
}

/// By how many threads a text is read, where that is said.
fn threads_in(text: Option<&str>) -> Option<Option<u32>>
    ensures { result ≡ threads_in (option_map (λ t. t.now) text.entry) }
{
    match text {
        None => Some(None),
        Some(text) => Some(Some(counted_from_one(MOST_THREADS, text)?)),
    }
}

/// Two columns, which are different numbers from 1 on.
fn both_columns(first: Option<u32>, second: Option<u32>) -> Option<(u32, u32)>
    ensures { result ≡ both_columns first second }
{
    let (first, second) = (first?, second?);
    if first > 0 && second > 0 && first != second {
        Some((first, second))
    } else {
        None
    }
}

/// The two columns that a text names, with a comma between them.
fn columns_of(text: &str) -> Option<(u32, u32)>
    ensures { result ≡ columns_of text.now }
{
    match text.split_once(',') {
        None => None,
        Some((first, second)) => both_columns(number_of(first), number_of(second)),
    }
}

/// The columns of the ids: the first two where none are named.
fn columns_in(text: Option<&str>) -> Option<(u32, u32)>
    ensures { result ≡ columns_in (option_map (λ t. t.now) text.entry) }
{
    match text {
        None => Some((1, 2)),
        Some(text) => columns_of(text),
    }
}

/// The separator of this name.
fn separator_of(text: &str) -> Option<Separator>
    ensures { result ≡ separator_of text.now }
{
    match text {
        "blank" => Some(Separator::Blank),
        "comma" => Some(Separator::Comma),
        "semicolon" => Some(Separator::Semicolon),
        "tab" => Some(Separator::Tab),
        _ => None,
    }
}

/// The separator that the name of a file tells, if there is one.
fn separator_of_file(file: Option<&str>) -> Separator
    ensures { result ≡ separator_of_file (option_map (λ t. t.now) file.entry) }
{
    match file {
        None => Separator::Blank,
        Some(name) => separator_of_name(name.as_bytes()),
    }
}

/// What parts the fields: where that is not said, the name of the file tells it.
fn separator_in(text: Option<&str>, file: Option<&str>) -> Option<Separator>
    ensures { result ≡ separator_in (option_map (λ t. t.now) text.entry) (option_map (λ t. t.now) file.entry) }
{
    match text {
        None => Some(separator_of_file(file)),
        Some(text) => separator_of(text),
    }
}

/// How many lines at the top are passed over.
fn skip_in(text: Option<&str>) -> Option<u32>
    ensures { result ≡ skip_in (option_map (λ t. t.now) text.entry) }
{
    match text {
        None => Some(0),
        Some(text) => number_of(text),
    }
}

/// What becomes of bad lines, by this word.
fn bad_lines_of(text: &str) -> Option<BadLines>
    ensures { result ≡ bad_lines_of text.now }
{
    match text {
        "stop" => Some(BadLines::Stop),
        "skip" => Some(BadLines::Skip),
        _ => None,
    }
}

/// What becomes of bad lines: they end the reading where nothing else is said.
fn bad_lines_in(text: Option<&str>) -> Option<BadLines>
    ensures { result ≡ bad_lines_in (option_map (λ t. t.now) text.entry) }
{
    match text {
        None => Some(BadLines::Stop),
        Some(text) => bad_lines_of(text),
    }
}

/// What ids are, by this word.
fn ids_of(text: &str) -> Option<Ids>
    ensures { result ≡ ids_of text.now }
{
    match text {
        "numbers" => Some(Ids::Numbers),
        "names" => Some(Ids::Names),
        _ => None,
    }
}

/// What ids are: numbers where nothing else is said.
fn ids_in(text: Option<&str>) -> Option<Ids>
    ensures { result ≡ ids_in (option_map (λ t. t.now) text.entry) }
{
    match text {
        None => Some(Ids::Numbers),
        Some(text) => ids_of(text),
    }
}

/// The dialect of these parts, where there is each of them.
fn dialect_of(
    columns: Option<(u32, u32)>,
    separator: Option<Separator>,
    skip: Option<u32>,
    bad_lines: Option<BadLines>,
    ids: Option<Ids>,
) -> Option<Dialect>
    ensures { result ≡ dialect_of columns separator skip bad_lines ids }
{
    match (columns, separator, skip, bad_lines, ids) {
        (Some(columns), Some(separator), Some(skip), Some(bad_lines), Some(ids)) => Some(Dialect {
            columns,
            separator,
            skip: u64::from(skip),
            bad_lines,
            ids,
        }),
        _ => None,
    }
}

/// Whether the name of a file tells another separator than blanks.
pub(crate) fn tells_separator(name: &str) -> bool
    ensures { result ≡ tells_separator name.now }
{
    !is_blank_between(separator_of_name(name.as_bytes()))
}

/// Whether fields are parted by blanks.
fn is_blank_between(separator: Separator) -> bool
    ensures { result ≡ is_blank_between separator }
{
    match separator {
        Separator::Blank => true,
        _ => false,
    }
}

/// Whether neither an option nor the name of the file tells a dialect.
fn tells_none(
    columns: Option<&str>,
    separator: Option<&str>,
    skip: Option<&str>,
    bad_lines: Option<&str>,
    ids: Option<&str>,
    file: Option<&str>,
) -> bool
    ensures { result ≡ tells_none (option_map (λ t. t.now) columns.entry) (option_map (λ t. t.now) separator.entry)
        (option_map (λ t. t.now) skip.entry) (option_map (λ t. t.now) bad_lines.entry) (option_map (λ t. t.now) ids.entry)
        (option_map (λ t. t.now) file.entry) }
{
    match (columns, separator, skip, bad_lines, ids) {
        (None, None, None, None, None) => is_blank_between(separator_of_file(file)),
        _ => false,
    }
}

/// The dialect that the values of the options and the name of the file tell, if they tell one; nothing where a value is not right.
fn dialect_by(
    columns: Option<&str>,
    separator: Option<&str>,
    skip: Option<&str>,
    bad_lines: Option<&str>,
    ids: Option<&str>,
    file: Option<&str>,
) -> Option<Option<Dialect>>
    ensures { result ≡ dialect_by (option_map (λ t. t.now) columns.entry) (option_map (λ t. t.now) separator.entry)
        (option_map (λ t. t.now) skip.entry) (option_map (λ t. t.now) bad_lines.entry) (option_map (λ t. t.now) ids.entry)
        (option_map (λ t. t.now) file.entry) }
{
    if tells_none(columns, separator, skip, bad_lines, ids, file) {
        return Some(None);
    }
    let separator = separator_in(separator, file);
    match dialect_of(
        columns_in(columns),
        separator,
        skip_in(skip),
        bad_lines_in(bad_lines),
        ids_in(ids),
    ) {
        None => None,
        Some(dialect) => Some(Some(dialect)),
    }
}

/// The file that a word names: `-` is standard input.
pub(crate) fn file_named<'a>(word: Option<&'a str>) -> Option<&'a str>
    ensures { option_map (λ t. t.now) result ≡ file_named (option_map (λ t. t.now) word.entry) }
{
    match word {
        Some("-") => None,
        other => other,
    }
}

/// The text of a file in a dialect, read by so many threads, where both are right.
fn text_with<'a>(
    file: Option<&'a str>,
    dialect: Option<Option<Dialect>>,
    threads: Option<Option<u32>>,
) -> Option<NamedText<'a>>
    ensures { option_map text_of result ≡ text_with (option_map (λ t. t.now) file.entry) dialect threads }
{
    match (dialect, threads) {
        (Some(dialect), Some(threads)) => Some(NamedText {
            file,
            dialect,
            threads,
        }),
        _ => None,
    }
}

/// The text of a graph of a file, by the matches of a command.
fn text_by<'a>(file: Option<&'a str>, found: &ArgMatches<'a>) -> Option<NamedText<'a>>
    ensures { option_map text_of result ≡ text_by (option_map (λ t. t.now) file.entry) (rows_of (found_of found.now)) }
{
    let columns = found.get_str("columns");
    let separator = found.get_str("separator");
    let skip = found.get_str("skip");
    let bad_lines = found.get_str("bad-lines");
    let ids = found.get_str("ids");
    let threads = found.get_str("threads");
    text_with(
        file,
        dialect_by(columns, separator, skip, bad_lines, ids, file),
        threads_in(threads),
    )
}

/// The text of a graph, by the matches of a command.
pub(crate) fn text_in<'a>(found: &ArgMatches<'a>) -> Option<NamedText<'a>>
    ensures { option_map text_of result ≡ text_in (rows_of (found_of found.now)) }
{
    text_by(file_named(found.get_str("FILE")), found)
}
