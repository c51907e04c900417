//! Shows a line with a caret under a column of it.
ghost use Rattle.std.specs.Prelude.{◌≡◌, ◌≤◌, ◌++◌, OnOk, drop, length, take};
ghost use Rattle.std.specs.List.{flat_map};
ghost use Rattle.kc_head.specs.Shown.{escaped, is_plain, shown_byte, shown_line, shown_place, spaces_for, with_caret};

use crate::places::line_in;
use kc_lines::hex::hex_digit;
use kc_text::NoMemory;

/// The most bytes of a line that are shown.
const MOST_SHOWN: usize = 60;

/// The most bytes that are shown before the column.
const MOST_BEFORE: usize = 40;

/// What the shown lines begin with.
const MARGIN: &[u8] = b"    ";

fn is_plain(b: u8) -> bool
    ensures { result ≡ is_plain b }
{
    b' ' <= b && b <= b'~'
}

/// Writes a byte that can't be shown as it is.
fn put_escaped(out: &mut Vec<u8>, b: u8) -> Result<(), NoMemory>
    ensures { OnOk result (out.new.items ≡ out.old.items ++ escaped b) }
{
    if b == b'\t' {
        return out.extend_from_slice(b"\\t");
    }
    out.extend_from_slice(b"\\x")?;
    out.push(hex_digit(b / 16))?;
    out.push(hex_digit(b % 16))?;
    Ok(())
}

fn put_shown(out: &mut Vec<u8>, b: u8) -> Result<(), NoMemory>
    ensures { OnOk result (out.new.items ≡ out.old.items ++ shown_byte b) }
{
    if is_plain(b) {
        out.push(b)?;
        return Ok(());
    }
    put_escaped(out, b)
}

/// Writes spaces, as many as a byte takes that is shown.
fn put_spaces(out: &mut Vec<u8>, b: u8) -> Result<(), NoMemory>
    ensures { OnOk result (out.new.items ≡ out.old.items ++ spaces_for b) }
{
    if is_plain(b) {
        out.extend_from_slice(b" ")
    } else if b == b'\t' {
        out.extend_from_slice(b"  ")
    } else {
        out.extend_from_slice(b"    ")
    }
}

fn put_text(out: &mut Vec<u8>, text: &[u8]) -> Result<(), NoMemory>
    ensures { OnOk result (out.new.items ≡ out.old.items ++ flat_map shown_byte text.now) }
{
    for b in text {
        put_shown(out, *b)?;
    }
    Ok(())
}

fn put_space(out: &mut Vec<u8>, text: &[u8]) -> Result<(), NoMemory>
    ensures { OnOk result (out.new.items ≡ out.old.items ++ flat_map spaces_for text.now) }
{
    for b in text {
        put_spaces(out, *b)?;
    }
    Ok(())
}

/// Writes some bytes, and below them a caret under the byte behind so many.
fn put_with_caret(out: &mut Vec<u8>, before: usize, text: &[u8]) -> Result<(), NoMemory>
    ensures { OnOk result (out.new.items ≡ out.old.items ++ with_caret before text.now) }
{
    out.extend_from_slice(MARGIN)?;
    put_text(out, text)?;
    out.extend_from_slice(b"\n")?;
    out.extend_from_slice(MARGIN)?;
    put_space(out, &text[..before.min(text.len())])?;
    out.extend_from_slice(b"^\n")?;
    Ok(())
}

/// The part of a line behind so many bytes that is shown.
fn part_of(line: &[u8], cut: usize) -> &[u8]
    requires { cut ≤ length line.now }
    ensures { result.now ≡ take MOST_SHOWN (drop cut line.now) }
{
    let rest = &line[cut..];
    &rest[..MOST_SHOWN.min(rest.len())]
}

/// Writes the part of a line round a column, with a caret under the column; nothing where the line has fewer columns.
fn show_line(out: &mut Vec<u8>, line: &[u8], column: u64) -> Result<(), NoMemory>
    ensures { OnOk result (out.new.items ≡ out.old.items ++ shown_line line.now column) }
{
    let at = column.saturating_sub(1) as usize;
    if line.len() < at {
        return Ok(());
    }
    let cut = at.saturating_sub(MOST_BEFORE);
    put_with_caret(out, at - cut, part_of(line, cut))
}

/// Writes the line of a number in a text with this head, as far as it is shown, and below it a caret under a column, if one is meant.
/// Nothing is written where the line doesn't stand in the head. At `NoMemory` a part of it is written.
///
/// # Example
///
/// ```rust
/// use kc_head::show_place;
///
/// let mut out = Vec::new(alloc);
/// show_place(&mut out, b"1 2\n2 bob\n", 2, Some(3))?;
/// let text = out.as_slice(); // b"    2 bob\n      ^\n"
/// ```
pub fn show_place(
    out: &mut Vec<u8>,
    head: &[u8],
    number: u64,
    column: Option<u64>,
) -> Result<(), NoMemory>
    ensures { OnOk result (out.new.items ≡ out.old.items ++ shown_place head.now number column) }
{
    let Some(line) = line_in(head, number) else {
        return Ok(());
    };
    let Some(column) = column else {
        return Ok(());
    };
    show_line(out, line, column)
}
