//! What one line says in a dialect, and its plain line.
ghost use Rattle.std.specs.Prelude.{◌≡◌, ◌++◌, Ok, Err, Some, None, OnOk, MatchOption, MatchResult};
ghost use Rattle.kc_text.specs.Lines.{fields};
ghost use Rattle.kc_dialect.specs.Dialects.{said_after, pair_in, plain_line, says_nothing, without_mark};

use crate::bad_line::BadField;
use crate::dialect::Dialect;
use crate::ids::id_in_column;
use kc_text::{NoMemory, cut_field};

/// Two fields of a line as they stand.
type Pair<'a> = (&'a [u8], &'a [u8]);

/// Whether a line is blank or a comment.
fn says_nothing(line: &[u8]) -> bool
    ensures { result ≡ says_nothing (fields line.now) }
{
    let Some((first, _)) = cut_field(line) else {
        return true;
    };
    match first.first() {
        Some(b) => *b == b'#' || *b == b'%',
        None => false,
    }
}

/// Bytes without the byte order mark of UTF-8 that may stand at their front.
pub fn without_mark(bytes: &[u8]) -> &[u8]
    ensures { result.now ≡ without_mark bytes.now }
{
    if bytes.len() >= 3 && bytes[0] == 0xef && bytes[1] == 0xbb && bytes[2] == 0xbf {
        &bytes[3..]
    } else {
        bytes
    }
}

/// The two ids of a line, none where it says nothing, or the first column that is wrong.
fn pair_in<'a>(dialect: &Dialect, line: &'a [u8]) -> Result<Option<Pair<'a>>, BadField>
    ensures { MatchResult result (λ said. MatchOption said (pair_in dialect.now line.now ≡ Ok None)
        (λ pair. pair_in dialect.now line.now ≡ Ok (Some (pair.0.now, pair.1.now)))) (λ bad. pair_in dialect.now line.now ≡ Err bad) }
{
    if says_nothing(line) {
        return Ok(None);
    }
    let first = id_in_column(dialect.ids, dialect.separator, dialect.columns.0, line)?;
    let second = id_in_column(dialect.ids, dialect.separator, dialect.columns.1, line)?;
    Ok(Some((first, second)))
}

/// What a line says behind so many others, in a dialect.
pub(crate) fn said_after<'a>(
    dialect: &Dialect,
    before: u64,
    line: &'a [u8],
) -> Result<Option<Pair<'a>>, BadField>
    ensures { MatchResult result (λ said. MatchOption said (said_after dialect.now before line.now ≡ Ok None)
        (λ pair. said_after dialect.now before line.now ≡ Ok (Some (pair.0.now, pair.1.now)))) (λ bad. said_after dialect.now before line.now ≡ Err bad) }
{
    if before < dialect.skip {
        return Ok(None);
    }
    let line = if before == 0 {
        without_mark(line)
    } else {
        line
    };
    pair_in(dialect, line)
}

/// Writes the plain line of two ids.
fn write_pair(out: &mut Vec<u8>, first: &[u8], second: &[u8]) -> Result<(), NoMemory>
    ensures { OnOk result (out.new.items ≡ out.old.items ++ plain_line (Ok (Some (first.now, second.now)))) }
{
    out.extend_from_slice(first)?;
    out.push(b' ')?;
    out.extend_from_slice(second)?;
    out.push(b'\n')?;
    Ok(())
}

/// Writes the plain line of what a line says.
pub(crate) fn write_plain(out: &mut Vec<u8>, said: Option<Pair>) -> Result<(), NoMemory>
    ensures { OnOk result (MatchOption said.entry (out.new.items ≡ out.old.items ++ plain_line (Ok None))
        (λ pair. out.new.items ≡ out.old.items ++ plain_line (Ok (Some (pair.0.now, pair.1.now))))) }
{
    match said {
        Some((first, second)) => write_pair(out, first, second),
        None => {
            out.push(b'\n')?;
            Ok(())
        }
    }
}
