//! The lines of changes. Where there is no memory, some of them may have been put at the end of the text.
ghost use Rattle.std.specs.Prelude.{◌≡◌, ◌++◌, OnErr, OnOk};
ghost use Rattle.std.specs.Io.{StartsWith};
ghost use Rattle.std.specs.List.{flat_map};
ghost use Rattle.kc_changes.specs.Changed.{is_in};
ghost use Rattle.kc_changes.specs.Telling.{change_text, crossing_text};

use crate::NoMemory;
use crate::id_change::IdChange;
use kc_reply::{ReplyFormat, ReplyLine, put_reply_line};

/// Puts the line of the numbers of an id.
fn put_change(out: &mut Vec<u8>, format: ReplyFormat, change: IdChange) -> Result<(), NoMemory>
    ensures ok { OnOk result (out.new.items ≡ out.old.items ++ change_text format change) }
    ensures err { OnErr result (out.new.items ≡ out.old.items) }
{
    let IdChange { id, before, now } = change;
    put_reply_line(out, format, ReplyLine::Change { id, before, now })
}

/// Whether an id with this core number is in the core of a level.
fn is_in(level: u32, number: Option<u32>) -> bool
    ensures { result ≡ is_in level number }
{
    match number {
        Some(number) => level <= number,
        None => false,
    }
}

/// Puts the line of an id that came into the core of a level or left it, and of others nothing.
fn put_crossing(
    out: &mut Vec<u8>,
    format: ReplyFormat,
    level: u32,
    change: IdChange,
) -> Result<(), NoMemory>
    ensures ok { OnOk result (out.new.items ≡ out.old.items ++ crossing_text format level change) }
    ensures err { OnErr result (out.new.items ≡ out.old.items) }
{
    let IdChange { id, before, now } = change;
    match (is_in(level, before), is_in(level, Some(now))) {
        (false, true) => put_reply_line(out, format, ReplyLine::Enter { id }),
        (true, false) => put_reply_line(out, format, ReplyLine::Leave { id }),
        _ => Ok(()),
    }
}

/// Puts the lines of the numbers of ids.
pub(crate) fn put_each_change(
    out: &mut Vec<u8>,
    format: ReplyFormat,
    changes: &[IdChange],
) -> Result<(), NoMemory>
    ensures ok { OnOk result (out.new.items ≡ out.old.items ++ flat_map (change_text format) changes.now) }
    ensures kept { StartsWith out.new.items out.old.items }
{
    for change in changes {
        put_change(out, format, *change)?;
    }
    Ok(())
}

/// Puts the lines of those that came into the core of a level or left it.
pub(crate) fn put_crossings(
    out: &mut Vec<u8>,
    format: ReplyFormat,
    level: u32,
    changes: &[IdChange],
) -> Result<(), NoMemory>
    ensures ok { OnOk result (out.new.items ≡ out.old.items ++ flat_map (crossing_text format level) changes.now) }
    ensures kept { StartsWith out.new.items out.old.items }
{
    for change in changes {
        put_crossing(out, format, level, *change)?;
    }
    Ok(())
}
