//! What is told of bad lines that were passed over.
ghost use Rattle.std.specs.Prelude.{◌≡◌, IfOk, option_map, string_bytes};
ghost use Rattle.std.specs.List.{flat_map};
ghost use Rattle.kc_cores.specs.Skips.{lines_were, skip_sentence, skipped_count, skipped_line, told_skips};

use crate::ending::in_file;
use kc_dialect::{BadKind, BadLine, SkippedLines};
use kc_graph::NoMemory;
use std::alloc::Global;

fn skip_sentence(kind: BadKind) -> &'static str
    ensures { result.now ≡ skip_sentence kind }
{
    match kind {
        BadKind::MissingColumn => "a column is missing",
        BadKind::NotANumber => "the field is not a whole number",
        BadKind::NumberTooLarge => "the number is greater than 4294967295",
        BadKind::NotAName => "the field is no name",
    }
}

/// A line that was passed over.
fn skipped_line(alloc: Global, file: Option<&str>, bad: BadLine) -> Result<String, NoMemory>
    ensures { IfOk result (λ line. string_bytes line ≡ skipped_line (option_map (λ t. t.now) file.entry) bad) }
{
    let BadLine { line, column, kind } = bad;
    let front = in_file(alloc, file)?;
    let sentence = skip_sentence(kind);
    format!(in alloc;
        "cores: {front}line {line}, column {column}: {sentence}; the line was passed over\n"
    )
}

/// How many lines were, in words.
fn lines_were(alloc: Global, count: u64) -> Result<String, NoMemory>
    ensures { IfOk result (λ text. string_bytes text ≡ lines_were count) }
{
    if count == 1 {
        return String::from_str(alloc, "1 line was");
    }
    format!(in alloc; "{count} lines were")
}

/// How many lines were passed over.
fn skipped_count(alloc: Global, file: Option<&str>, count: u64) -> Result<String, NoMemory>
    ensures { IfOk result (λ line. string_bytes line ≡ skipped_count (option_map (λ t. t.now) file.entry) count) }
{
    let front = in_file(alloc, file)?;
    let were = lines_were(alloc, count)?;
    format!(in alloc; "cores: {front}{were} passed over\n")
}

/// The lines about bad lines.
fn skipped_lines(alloc: Global, file: Option<&str>, first: &[BadLine]) -> Result<String, NoMemory>
    ensures { IfOk result (λ text. string_bytes text ≡ flat_map (skipped_line (option_map (λ t. t.now) file.entry)) first.now) }
{
    let mut text = String::new(alloc);
    for bad in first {
        let line = skipped_line(alloc, file, *bad)?;
        text.push_str(&line)?;
    }
    Ok(text)
}

/// The first lines that were passed over, and how many they are, where there are any.
pub(crate) fn told_skips(
    alloc: Global,
    file: Option<&str>,
    skipped: &SkippedLines,
) -> Result<String, NoMemory>
    ensures { IfOk result (λ text. string_bytes text ≡ told_skips (option_map (λ t. t.now) file.entry) skipped.now.count skipped.now.first.items) }
{
    if skipped.count == 0 {
        return Ok(String::new(alloc));
    }
    let lines = skipped_lines(alloc, file, &skipped.first)?;
    let count = skipped_count(alloc, file, skipped.count)?;
    format!(in alloc; "{lines}{count}")
}
