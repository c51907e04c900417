//! Puts a line of the reply behind a text.
ghost use Rattle.std.specs.Prelude.{◌≡◌, ◌++◌, OnErr, OnOk};
ghost use Rattle.std.specs.Io.{StartsWith};
ghost use Rattle.kc_reply.specs.Facts.{fact_of};
ghost use Rattle.kc_reply.specs.Texts.{fact_text};

use crate::NoMemory;
use crate::json::put_json;
use crate::reply_format::ReplyFormat;
use crate::reply_line::ReplyLine;
use crate::words::put_words;

/// Puts a line, or a part of it where there is no memory.
fn put_line(out: &mut Vec<u8>, format: ReplyFormat, line: ReplyLine<'_>) -> Result<(), NoMemory>
    ensures ok { OnOk result (out.new.items ≡ out.old.items ++ fact_text format (fact_of line.entry)) }
    ensures kept { StartsWith out.new.items out.old.items }
{
    match format {
        ReplyFormat::Words => put_words(out, line),
        ReplyFormat::Json => put_json(out, line),
    }
}

/// Puts a line behind a text. Where there is no memory, nothing is put.
///
/// # Example
///
/// ```rust
/// use kc_reply::{ReplyFormat, ReplyLine, put_reply_line};
///
/// let line = ReplyLine::Change { id: 7, before: None, now: 2 };
/// let mut out = Vec::new(alloc);
/// put_reply_line(&mut out, ReplyFormat::Words, line)?; // "7 - 2\n"
/// put_reply_line(&mut out, ReplyFormat::Json, line)?; // and {"event":"change","id":7,"old":null,"new":2}
/// ```
pub fn put_reply_line(
    out: &mut Vec<u8>,
    format: ReplyFormat,
    line: ReplyLine<'_>,
) -> Result<(), NoMemory>
    ensures ok { OnOk result (out.new.items ≡ out.old.items ++ fact_text format (fact_of line.entry)) }
    ensures err { OnErr result (out.new.items ≡ out.old.items) }
{
    let before = out.len();
    let put = put_line(out, format, line);
    if put.is_err() {
        out.truncate(before);
    }
    put
}
