//! The words about what is written: its format, and the file that it becomes.
ghost use Rattle.std.specs.Prelude.{◌≡◌, false, option_map};
ghost use Rattle.clap.specs.Walk.{rule_of};
ghost use Rattle.kc_wishes.specs.Wishes.{format_in, format_of, format_option, output_option};

use crate::dialect_words::value_option;
use clap::Arg;
use kc_lines::format::Format;
use std::alloc::Global;

/// The option `--format FORMAT`.
pub(crate) fn format_option<'a>(alloc: Global) -> Arg<'a>
    ensures rule { rule_of result ≡ format_option }
    ensures local { result.global ≡ false }
{
    value_option(
        alloc,
        "format",
        "FORMAT",
        "How the lines are written: tsv, with tabs between the numbers, or json, an object a line",
    )
}

/// The option `--output FILE`.
pub(crate) fn output_option<'a>(alloc: Global) -> Arg<'a>
    ensures rule { rule_of result ≡ output_option }
    ensures local { result.global ≡ false }
{
    value_option(
        alloc,
        "output",
        "FILE",
        "The file that the lines become, once all are written; where a fault comes before, it stays as it is",
    )
}

/// The format of this name.
fn format_of(text: &str) -> Option<Format>
    ensures { result ≡ format_of text.now }
{
    match text {
        "tsv" => Some(Format::Tabs),
        "json" => Some(Format::Json),
        _ => None,
    }
}

/// How the lines are written: with tabs where that is not said.
pub(crate) fn format_in(text: Option<&str>) -> Option<Format>
    ensures { result ≡ format_in (option_map (λ t. t.now) text.entry) }
{
    match text {
        None => Some(Format::Tabs),
        Some(text) => format_of(text),
    }
}
