//! The ids whose core numbers a batch changes.
ghost use Rattle.std.specs.Prelude.{◌≡◌, ◌≤◌, ◌++◌, IfOk, OnOk, length, map};
ghost use Rattle.std.specs.List.{flat_map, zip};
ghost use Rattle.kc_watch.specs.Endings.{changes_of, known_change, new_change};

use crate::NoMemory;
use kc_changes::IdChange;
use kc_keeper::CoreChange;
use std::alloc::Global;

/// Puts the change of the id that a vertex stands for, where it is one of those that were known.
fn list_one(
    ids: &[u32],
    known: u32,
    change: CoreChange,
    listed: &mut Vec<IdChange>,
) -> Result<(), NoMemory>
    requires { known ≤ length ids.now }
    ensures { OnOk result (listed.new.items ≡ listed.old.items ++ known_change ids.now known change) }
{
    let CoreChange {
        vertex,
        before,
        now,
    } = change;
    if vertex < known {
        listed.push(IdChange {
            id: ids[vertex as usize],
            before: Some(before),
            now,
        })?;
    }
    Ok(())
}

/// Puts the changes of the ids that were known.
fn list_known(
    ids: &[u32],
    known: u32,
    changes: &[CoreChange],
    listed: &mut Vec<IdChange>,
) -> Result<(), NoMemory>
    requires { known ≤ length ids.now }
    ensures { OnOk result (listed.new.items ≡ listed.old.items ++ flat_map (known_change ids.now known) changes.now) }
{
    for change in changes {
        list_one(ids, known, *change, listed)?;
    }
    Ok(())
}

/// Puts new ids, with their core numbers.
fn list_new(ids: &[u32], core: &[u32], listed: &mut Vec<IdChange>) -> Result<(), NoMemory>
    requires { length ids.now ≡ length core.now }
    ensures { OnOk result (listed.new.items ≡ listed.old.items ++ map new_change (zip ids.now core.now)) }
{
    for (id, number) in ids.iter().zip(core) {
        listed.push(IdChange {
            id: *id,
            before: None,
            now: *number,
        })?;
    }
    Ok(())
}

/// The changes of ids, in no order, where so many of them were known before the vertices changed.
pub(crate) fn changes_of(
    alloc: Global,
    ids: &[u32],
    known: u32,
    core: &[u32],
    changes: &[CoreChange],
) -> Result<Vec<IdChange>, NoMemory>
    requires known { known ≤ length ids.now }
    requires long { length ids.now ≡ length core.now }
    ensures { IfOk result (λ listed. listed.items ≡ changes_of ids.now known core.now changes.now) }
{
    let mut listed = Vec::new(alloc);
    list_known(ids, known, changes, &mut listed)?;
    let from = known as usize;
    list_new(&ids[from..], &core[from..], &mut listed)?;
    Ok(listed)
}
