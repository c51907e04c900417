//! Cuts a line into parts, and finds the number in a column.
ghost use Rattle.std.specs.Prelude.{◌≡◌, ◌∷◌, ◌≤◌, ◌<◌, ◌+◌, ◌^◌, ◌&&◌, not, [], Ok, Err, Some, None, false, length, MatchOption, MatchResult, IfSome};
ghost use Rattle.std.specs.List.{prefix_len};
ghost use Rattle.kc_text.specs.Lines.{is_blank};
ghost use Rattle.kc_dialect.specs.Columns.{field_of, fields_in, in_column, is_field, is_quote, is_separator, bad_kind_of, number_in_column, parts};
ghost use Rattle.kc_dialect.specs.Columns.{quoted_behind};
ghost use Rattle.kc_dialect.specs.Columns.{unquoted, without_back_blanks};

use crate::bad_line::{BadField, BadKind};
use crate::dialect::Separator;
use kc_text::{Kind, number};

#[inline(always)]
fn is_blank(b: u8) -> bool
    ensures { result ≡ is_blank b }
{
    b == b' ' || b == b'\t'
}

#[inline(always)]
pub(crate) fn is_separator(separator: Separator, b: u8) -> bool
    ensures { result ≡ is_separator separator b }
{
    match separator {
        Separator::Blank => is_blank(b),
        Separator::Comma => b == b',',
        Separator::Semicolon => b == b';',
        Separator::Tab => b == b'\t',
    }
}

fn is_quote(separator: Separator, b: u8) -> bool
    ensures { result ≡ is_quote separator b }
{
    match separator {
        Separator::Blank => false,
        Separator::Comma | Separator::Semicolon | Separator::Tab => b == b'"',
    }
}

/// Whether a byte ends a part, by whether it stands in quotes.
fn ends_part(separator: Separator, quoted: bool, b: u8) -> bool
    ensures { result ≡ (is_separator separator b && not quoted) }
{
    !quoted && is_separator(separator, b)
}

/// Whether the bytes behind one stand in quotes, by whether it does.
fn quoted_behind(separator: Separator, quoted: bool, b: u8) -> bool
    ensures { result ≡ quoted_behind separator quoted b }
{
    if is_quote(separator, b) {
        !quoted
    } else {
        quoted
    }
}

/// The first part of a line, and what follows the separator that ends it, if one does.
fn cut_part(separator: Separator, line: &[u8]) -> (&[u8], Option<&[u8]>)
    ensures parts { MatchOption result.1 (parts separator false line.now ≡ result.0.now ∷ [])
        (λ rest. parts separator false line.now ≡ result.0.now ∷ parts separator false rest.now) }
    ensures lengths { MatchOption result.1 (length result.0.now ≡ length line.now) (λ rest. length result.0.now + 1 + length rest.now ≡ length line.now) }
{
    let mut quoted = false;
    for (i, b) in line.iter().enumerate() {
        if ends_part(separator, quoted, *b) {
            return (&line[..i], Some(&line[i + 1..]));
        }
        quoted = quoted_behind(separator, quoted, *b);
    }
    (line, None)
}

/// How many blanks stand at the front.
fn blanks(bytes: &[u8]) -> usize
    ensures { result ≡ prefix_len is_blank bytes.now }
{
    for (i, b) in bytes.iter().enumerate() {
        if !is_blank(*b) {
            return i;
        }
    }
    bytes.len()
}

fn without_back_blanks(bytes: &[u8]) -> &[u8]
    ensures { result.now ≡ without_back_blanks bytes.now }
{
    let mut len = bytes.len();
    while len > 0 && is_blank(bytes[len - 1]) {
        len -= 1;
    }
    &bytes[..len]
}

/// What stands between the quotes of bytes in quotes, and else the bytes.
fn unquoted(bytes: &[u8]) -> &[u8]
    ensures { result.now ≡ unquoted bytes.now }
{
    if bytes.len() > 1 && bytes[0] == b'"' && bytes[bytes.len() - 1] == b'"' {
        &bytes[1..bytes.len() - 1]
    } else {
        bytes
    }
}

/// Whether a part is a field. Between blanks an empty one is none.
fn is_field(separator: Separator, part: &[u8]) -> bool
    ensures { result ≡ is_field separator part.now }
{
    match separator {
        Separator::Blank => !part.is_empty(),
        Separator::Comma | Separator::Semicolon | Separator::Tab => true,
    }
}

/// A part behind so many bytes as a field, with the number of bytes before it.
fn field_of(separator: Separator, before: usize, part: &[u8]) -> (usize, &[u8])
    requires { before + length part.now < 2 ^ 64 }
    ensures field { (result.0, result.1.now) ≡ field_of separator (before, part.now) }
    ensures within { result.0 ≤ before + length part.now }
{
    match separator {
        Separator::Blank => (before, part),
        Separator::Comma | Separator::Semicolon | Separator::Tab => {
            let (front, text) = part.split_at(blanks(part));
            (before + front.len(), unquoted(without_back_blanks(text)))
        }
    }
}

/// The field of a column, from 1, with the number of bytes before it.
pub(crate) fn field_in(separator: Separator, column: u32, line: &[u8]) -> Option<(usize, &[u8])>
    ensures found { MatchOption result (in_column column (fields_in separator line.now) ≡ None)
        (λ field. in_column column (fields_in separator line.now) ≡ Some (field.0, field.1.now)) }
    ensures within { IfSome result (λ field. field.0 ≤ length line.now) }
{
    let mut left = column;
    let mut before = 0;
    let mut rest = Some(line);
    while let Some(bytes) = rest {
        let (part, more) = cut_part(separator, bytes);
        if is_field(separator, part) {
            if left <= 1 {
                return if left == 1 {
                    Some(field_of(separator, before, part))
                } else {
                    None
                };
            }
            left -= 1;
        }
        before += part.len() + 1;
        rest = more;
    }
    None
}

fn bad_kind_of(kind: Kind) -> BadKind
    ensures { result ≡ bad_kind_of kind }
{
    match kind {
        Kind::NumberTooLarge => BadKind::NumberTooLarge,
        _ => BadKind::NotANumber,
    }
}

/// The bytes of the number in a column of a line, or what is wrong there.
pub(crate) fn number_in_column(
    separator: Separator,
    column: u32,
    line: &[u8],
) -> Result<&[u8], BadField>
    ensures { MatchResult result (λ digits. number_in_column separator column line.now ≡ Ok digits.now)
        (λ bad. number_in_column separator column line.now ≡ Err bad) }
{
    let Some((before, text)) = field_in(separator, column, line) else {
        return Err(BadField {
            column: line.len() as u64 + 1,
            kind: BadKind::MissingColumn,
        });
    };
    match number(text) {
        Ok(_) => Ok(text),
        Err(kind) => Err(BadField {
            column: before as u64 + 1,
            kind: bad_kind_of(kind),
        }),
    }
}
