//! Lists of core numbers, and what differs from one to the next.
ghost use Rattle.std.specs.Prelude.{◌≡◌, IfOk, length};
ghost use Rattle.kc_snapshot.specs.Histories.{changed, numbers_at as numbers_there};

use crate::NoMemory;
use std::alloc::Global;

/// A vertex and its new core number.
#[derive(Clone, Copy, Debug, Drop, Eq, PartialEq)]
pub struct Place {
    /// The vertex.
    pub at: usize,
    /// Its core number.
    pub core: u32,
}

/// The vertices whose numbers differ, with their new numbers. `NoMemory`: there was no memory for them.
pub(crate) fn differences(alloc: Global, old: &[u32], new: &[u32]) -> Result<Vec<Place>, NoMemory>
    requires { length old.now ≡ length new.now }
    ensures { IfOk result (λ places. changed old.now places.items ≡ new.now) }
{
    let mut places = Vec::new(alloc);
    for at in 0..new.len() {
        let core = new[at];
        if old[at] != core {
            places.push(Place { at, core })?;
        }
    }
    Ok(places)
}

/// The vertices of these that a list has, with its numbers. `NoMemory`: there was no memory for them.
pub(crate) fn numbers_at(
    alloc: Global,
    core: &[u32],
    vertices: &[u32],
) -> Result<Vec<Place>, NoMemory>
    ensures { IfOk result (λ places. places.items ≡ numbers_there core.now vertices.now) }
{
    let mut places = Vec::new(alloc);
    for v in vertices {
        let at = *v as usize;
        if at < core.len() {
            places.push(Place { at, core: core[at] })?;
        }
    }
    Ok(places)
}

/// Writes each place. One that names no vertex of the list changes nothing.
pub(crate) fn write_all(core: &mut Vec<u32>, places: &Vec<Place>)
    ensures { core.new.items ≡ changed core.old.items places.now.items }
{
    for place in places.iter() {
        if place.at < core.len() {
            core[place.at] = place.core;
        }
    }
}
