//! The words of a run, and what they ask for.
//!
//! They are read by `clap`, as a command of five options with one value each and no flag for help or the version. What `clap` makes of
//! the words of such a command is a function of them, on which `specs/Settings.antt` stands.
ghost use Rattle.std.specs.Prelude.{◌≡◌, IfOk, false, option_map};
ghost use Rattle.std.specs.Char.{is_ascii_digit};
ghost use Rattle.std.specs.List.{list_all};
ghost use Rattle.clap.specs.Matches.{found_of};
ghost use Rattle.clap.specs.Simple.{app_of};
ghost use Rattle.clap.specs.Walk.{rows_of, rule_of};
ghost use Rattle.kc_top.specs.Settings.{asked, command, is_short_numeral, number, option_named, read, setting_in, show, start, together, usual_show, workers};

use clap::error::ErrorKind;
use clap::{Arg, ArgAction, ArgMatches, Command};
use kc_graph::NoMemory;
use kc_output::{MOST_WORKERS, Setting, Show, Start};
use std::alloc::Global;

/// The most digits of a number in a word.
pub const MOST_DIGITS: usize = 10;

/// An option with one value.
fn option_named<'a>(alloc: Global, name: &'a str) -> Arg<'a>
    ensures rule { rule_of result ≡ option_named name.now }
    ensures local { result.global ≡ false }
{
    Arg::new(alloc, name).long(name).action(ArgAction::Set)
}

/// The command whose words are read.
fn command<'a>(alloc: Global) -> Result<Command<'a>, NoMemory>
    ensures { IfOk result (λ made. app_of made ≡ command) }
{
    Command::new(alloc, "kcore")
        .no_binary_name(true)
        .disable_help_flag(true)
        .disable_version_flag(true)
        .arg(option_named(alloc, "workers"))?
        .arg(option_named(alloc, "show"))?
        .arg(option_named(alloc, "level"))?
        .arg(option_named(alloc, "gen"))?
        .arg(option_named(alloc, "start"))
}

/// Whether each byte is a decimal digit.
fn are_digits(bytes: &[u8]) -> bool
    ensures { result ≡ list_all is_ascii_digit bytes.now }
{
    bytes.iter().all(|byte| byte.is_ascii_digit())
}

/// Whether there are one to [`MOST_DIGITS`] bytes, each a decimal digit.
fn is_short_numeral(bytes: &[u8]) -> bool
    ensures { result ≡ is_short_numeral bytes.now }
{
    !bytes.is_empty() && bytes.len() <= MOST_DIGITS && are_digits(bytes)
}

/// The number that a text is, of one to [`MOST_DIGITS`] decimal digits. Leading zeros are digits too.
fn number(text: &str) -> Option<u32>
    ensures { result ≡ number text.now }
{
    if is_short_numeral(text.as_bytes()) {
        text.parse::<u32>().ok()
    } else {
        None
    }
}

/// The number of workers that a text is.
fn workers(text: &str) -> Option<u32>
    ensures { result ≡ workers text.now }
{
    number(text).filter(|workers| *workers >= 1 && *workers <= MOST_WORKERS)
}

/// What a text says is to be shown.
fn show(text: &str) -> Option<Show>
    ensures { result ≡ show text.now }
{
    match text {
        "cores" => Some(Show::Cores),
        "summary" => Some(Show::Summary),
        "each" => Some(Show::Each),
        _ => None,
    }
}

/// How a text says that the core numbers of the start are to be found.
fn start(text: &str) -> Option<Start>
    ensures { result ≡ start text.now }
{
    match text {
        "buckets" => Some(Start::Buckets),
        "hindex" => Some(Start::Hindex),
        _ => None,
    }
}

/// The number of workers, where it is given.
fn read_workers(text: Option<&str>) -> Option<Option<u32>>
    ensures { result ≡ read workers (option_map (λ t. t.now) text.entry) }
{
    match text {
        None => Some(None),
        Some(text) => Some(Some(workers(text)?)),
    }
}

/// What is to be shown, where it is given.
fn read_show(text: Option<&str>) -> Option<Option<Show>>
    ensures { result ≡ read show (option_map (λ t. t.now) text.entry) }
{
    match text {
        None => Some(None),
        Some(text) => Some(Some(show(text)?)),
    }
}

/// How the core numbers of the start are to be found, where it is given.
fn read_start(text: Option<&str>) -> Option<Option<Start>>
    ensures { result ≡ read start (option_map (λ t. t.now) text.entry) }
{
    match text {
        None => Some(None),
        Some(text) => Some(Some(start(text)?)),
    }
}

/// A number, where it is given.
fn read_number(text: Option<&str>) -> Option<Option<u32>>
    ensures { result ≡ read number (option_map (λ t. t.now) text.entry) }
{
    match text {
        None => Some(None),
        Some(text) => Some(Some(number(text)?)),
    }
}

/// What is shown where nothing is said of it.
fn usual_show(generator: Option<u32>) -> Show
    ensures { result ≡ usual_show generator }
{
    match generator {
        None => Show::Cores,
        Some(_) => Show::Summary,
    }
}

/// The setting, where each of the five is right: one worker, no level and buckets where nothing is said of them.
fn together(
    workers: Option<Option<u32>>,
    show: Option<Option<Show>>,
    level: Option<Option<u32>>,
    generator: Option<Option<u32>>,
    start: Option<Option<Start>>,
) -> Option<Setting>
    ensures { result ≡ together workers show level generator start }
{
    let workers = workers?;
    let show = show?;
    let level = level?;
    let generator = generator?;
    let start = start?;
    Some(Setting {
        workers: workers.unwrap_or(1),
        show: show.unwrap_or(usual_show(generator)),
        level,
        generator,
        start: start.unwrap_or(Start::Buckets),
    })
}

/// What the values of the options ask for, if each is right.
fn setting_in(matches: &ArgMatches) -> Option<Setting>
    ensures { result ≡ setting_in (rows_of (found_of matches.now)) }
{
    let workers = read_workers(matches.get_str("workers"));
    let show = read_show(matches.get_str("show"));
    let level = read_number(matches.get_str("level"));
    let generator = read_number(matches.get_str("gen"));
    let start = read_start(matches.get_str("start"));
    together(workers, show, level, generator, start)
}

/// What the words of a run ask for. The words are those after the program's name.
///
/// The options are `--workers W`, `--show cores|summary|each`, `--level K`, `--gen NUMBER` and `--start buckets|hindex`, each at most
/// once. W, K and NUMBER are one to [`MOST_DIGITS`] decimal digits; W is 1 to [`MOST_WORKERS`], K and NUMBER are numbers of 32 bits.
/// Where nothing is said, there is one worker, no level, no generator, the core numbers at the end are shown, or with a generator none,
/// and those of the start are found by buckets.
/// It gives none where the words are not right.
pub fn setting_of<'a>(alloc: Global, words: &'a [&'a str]) -> Result<Option<Setting>, NoMemory>
    ensures { IfOk result (λ answer. answer ≡ asked words.now) }
{
    let command = command(alloc)?;
    match command.try_get_matches_from(words) {
        Ok(matches) => Ok(setting_in(&matches)),
        Err(error) => match error.kind() {
            ErrorKind::OutOfMemory => Err(NoMemory),
            _ => Ok(None),
        },
    }
}
