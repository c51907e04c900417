//! Finds the id in a column: a number, or a name.
ghost use Rattle.std.specs.Prelude.{◌≡◌, Ok, Err, MatchResult};
ghost use Rattle.std.specs.List.{list_all};
ghost use Rattle.std.specs.Str.{is_utf8};
ghost use Rattle.kc_dialect.specs.Columns.{id_in_column, is_name, is_name_byte, name_in_column};

use crate::bad_line::{BadField, BadKind};
use crate::columns::{field_in, number_in_column};
use crate::dialect::{Ids, Separator};
use std::str;

/// Whether a byte may stand in a name: it is no blank, and no control character.
fn is_name_byte(b: u8) -> bool
    ensures { result ≡ is_name_byte b }
{
    b > b' ' && b != 0x7f
}

/// Whether each byte may stand in a name.
fn are_name_bytes(bytes: &[u8]) -> bool
    ensures { result ≡ list_all is_name_byte bytes.now }
{
    bytes.iter().all(|b| is_name_byte(*b))
}

fn is_utf8(bytes: &[u8]) -> bool
    ensures { result ≡ is_utf8 bytes.now }
{
    str::from_utf8(bytes).is_ok()
}

/// Whether a field is a name.
fn is_name(field: &[u8]) -> bool
    ensures { result ≡ is_name field.now }
{
    !field.is_empty() && are_name_bytes(field) && is_utf8(field)
}

/// The name in a column of a line, or what is wrong there.
fn name_in_column(separator: Separator, column: u32, line: &[u8]) -> Result<&[u8], BadField>
    ensures { MatchResult result (λ name. name_in_column separator column line.now ≡ Ok name.now)
        (λ bad. name_in_column separator column line.now ≡ Err bad) }
{
    let Some((before, name)) = field_in(separator, column, line) else {
        return Err(BadField {
            column: line.len() as u64 + 1,
            kind: BadKind::MissingColumn,
        });
    };
    if is_name(name) {
        return Ok(name);
    }
    Err(BadField {
        column: before as u64 + 1,
        kind: BadKind::NotAName,
    })
}

/// The bytes of the id in a column of a line, or what is wrong there.
pub(crate) fn id_in_column(
    ids: Ids,
    separator: Separator,
    column: u32,
    line: &[u8],
) -> Result<&[u8], BadField>
    ensures { MatchResult result (λ id. id_in_column ids separator column line.now ≡ Ok id.now)
        (λ bad. id_in_column ids separator column line.now ≡ Err bad) }
{
    match ids {
        Ids::Numbers => number_in_column(separator, column, line),
        Ids::Names => name_in_column(separator, column, line),
    }
}
