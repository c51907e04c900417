//! The lines about the ids whose core numbers a batch changes.
ghost use Rattle.std.specs.Prelude.{◌≡◌, ◌++◌, ℕ, List, Option, OnOk};
ghost use Rattle.std.specs.Io.{StartsWith};
ghost use Rattle.kc_changes.specs.Changed.{AreIdChanges, change_facts, crossing_facts, facts_behind};
ghost use Rattle.kc_changes.specs.Telling.{AreInOrder};
ghost use Rattle.kc_reply.specs.Texts.{facts_text};

use crate::NoMemory;
use crate::id_change::IdChange;
use crate::pieces::{put_crossings, put_each_change};
use crate::show::Show;
use kc_reply::ReplyFormat;

/// Brings changes into the order of their ids.
fn sort_by_id(changes: &mut [IdChange])
    ensures { (before after : ℕ → Option ℕ) (ids : List ℕ) → AreIdChanges before after ids changes.old → AreInOrder before after ids changes.new }
{
    changes.sort_unstable_by_key(|change| change.id);
}

/// Puts what is shown of changes that stand in order.
fn put_shown(
    out: &mut Vec<u8>,
    format: ReplyFormat,
    show: Show,
    changes: &[IdChange],
) -> Result<(), NoMemory>
    ensures ok { OnOk result ((before after : ℕ → Option ℕ) (ids : List ℕ) → AreInOrder before after ids changes.now
        → out.new.items ≡ out.old.items ++ facts_text format (change_facts show before after ids)) }
    ensures kept { StartsWith out.new.items out.old.items }
{
    match show {
        Show::Summary => Ok(()),
        Show::Changes => put_each_change(out, format, changes),
    }
}

/// Puts who came into the core of a level or left it, where one is asked for, of changes that stand in order.
fn put_entered(
    out: &mut Vec<u8>,
    format: ReplyFormat,
    enter: Option<u32>,
    changes: &[IdChange],
) -> Result<(), NoMemory>
    ensures ok { OnOk result ((before after : ℕ → Option ℕ) (ids : List ℕ) → AreInOrder before after ids changes.now
        → out.new.items ≡ out.old.items ++ facts_text format (crossing_facts enter before after ids)) }
    ensures kept { StartsWith out.new.items out.old.items }
{
    match enter {
        None => Ok(()),
        Some(level) => put_crossings(out, format, level, changes),
    }
}

/// Puts behind the text the lines about changes, by ascending ids: the numbers of each where they are shown, and then who came into the
/// core of a level or left it, where one is asked for. The changes are sorted in place. Where there is no memory, a part of the lines may
/// have been put behind what was there.
///
/// # Example
///
/// ```rust
/// use kc_changes::{IdChange, Show, put_changes};
/// use kc_reply::ReplyFormat;
///
/// let mut changes = vec![in alloc;
///     IdChange { id: 9, before: None, now: 1 },
///     IdChange { id: 4, before: Some(1), now: 2 },
/// ]?;
/// let mut out = Vec::new(alloc);
/// put_changes(&mut out, ReplyFormat::Words, Show::Changes, Some(2), &mut changes)?; // "4 1 2\n9 - 1\nenter 4\n"
/// ```
pub fn put_changes(
    out: &mut Vec<u8>,
    format: ReplyFormat,
    show: Show,
    enter: Option<u32>,
    changes: &mut [IdChange],
) -> Result<(), NoMemory>
    ensures ok { OnOk result ((before after : ℕ → Option ℕ) (ids : List ℕ) → AreIdChanges before after ids changes.old
        → out.new.items ≡ out.old.items ++ facts_text format (facts_behind show enter before after ids)) }
    ensures kept { StartsWith out.new.items out.old.items }
{
    sort_by_id(changes);
    put_shown(out, format, show, changes)?;
    put_entered(out, format, enter, changes)
}
