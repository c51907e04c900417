//! The ids of the core of a level.
ghost use Rattle.std.specs.Prelude.{◌≡◌, IfOk, length};
ghost use Rattle.kc_answers.specs.Answers.{members_by};
ghost use Rattle.kc_changes.specs.Changed.{ascending_ids};
ghost use Rattle.kc_report.specs.Lines.{members};

use crate::NoMemory;
use std::alloc::Global;

/// The ids whose core number is the level or more.
fn list_members(alloc: Global, ids: &[u32], core: &[u32], level: u32) -> Result<Vec<u32>, NoMemory>
    requires { length ids.now ≡ length core.now }
    ensures { IfOk result (λ listed. listed.items ≡ members ids.now core.now level) }
{
    let mut listed = Vec::new(alloc);
    for (id, number) in ids.iter().zip(core) {
        if level <= *number {
            listed.push(*id)?;
        }
    }
    Ok(listed)
}

/// Brings ids into ascending order, each once.
fn put_in_order(ids: &mut Vec<u32>)
    ensures { ids.new.items ≡ ascending_ids ids.old.items }
{
    ids.sort_unstable();
    ids.dedup();
}

/// The ids of the core of a level, ascending.
pub(crate) fn members_by(
    alloc: Global,
    ids: &[u32],
    core: &[u32],
    level: u32,
) -> Result<Vec<u32>, NoMemory>
    requires { length ids.now ≡ length core.now }
    ensures { IfOk result (λ listed. listed.items ≡ members_by ids.now core.now level) }
{
    let mut listed = list_members(alloc, ids, core, level)?;
    put_in_order(&mut listed);
    Ok(listed)
}
