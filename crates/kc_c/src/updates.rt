//! Updates of a kept graph, as C names them.
ghost use Rattle.std.specs.Prelude.{◌≡◌, true, IfOk, MatchOption, OnErr};
ghost use Rattle.kc_graph.specs.Core.{AreCoreNumbers};
ghost use Rattle.kc_graph.specs.Lawful.{IsCertified};
ghost use Rattle.kc_c.specs.Listing.{AreListed, StandsFor};
ghost use Rattle.kc_c.specs.Updating.{after_given, are_vertices, first_outsider, is_changing};

use kc_graph::{NoMemory, Update};
use kc_keeper::{Keeper, UpdateFault};
use std::alloc::Global;

/// The edge between two vertices, which may stand in either order, is to come, or is to go where `add` is 0. A loop is no edge.
#[repr(C)]
#[derive(Clone, Copy, Debug, PartialEq, Eq)]
pub struct GivenUpdate {
    pub u: u32,
    pub v: u32,
    pub add: u32,
}

/// Where the first update stands that has an end which is no vertex.
pub(crate) fn first_outsider(vertices: u32, updates: &[GivenUpdate]) -> Option<usize>
    ensures { result ≡ first_outsider vertices updates.now }
{
    updates
        .iter()
        .position(|update| !(update.u < vertices && update.v < vertices))
}

/// Makes an update, and tells whether the graph changed. Where it is not made nothing has changed.
pub(crate) fn make(
    alloc: Global,
    keeper: &mut Keeper,
    update: GivenUpdate,
) -> Result<bool, UpdateFault>
    requires vertices { are_vertices keeper.old.graph.size update ≡ true }
    ensures graph { IfOk result (λ _. keeper.new.graph ≡ after_given update keeper.old.graph) }
    ensures changed { IfOk result (λ changed. changed ≡ is_changing update keeper.old.graph) }
    ensures certified { IsCertified keeper.new }
    ensures seidman { AreCoreNumbers keeper.new.graph keeper.new.core }
    ensures same { OnErr result (keeper.new ≡ keeper.old) }
{
    let GivenUpdate { u, v, add } = update;
    let add = add != 0;
    if u < v {
        keeper.update(alloc, Update { add, u, v })
    } else if v < u {
        keeper.update(alloc, Update { add, u: v, v: u })
    } else {
        keeper.recall_certified();
        Ok(false)
    }
}

/// The updates of a list of C that are no loops, and the place of each in that list.
#[derive(Drop)]
pub(crate) struct Listed {
    pub(crate) updates: Vec<Update>,
    pub(crate) places: Vec<usize>,
}

/// The update that C names; none where it names a loop.
fn update_of(given: GivenUpdate) -> Option<Update>
    ensures { MatchOption result (given.u ≡ given.v) (StandsFor given) }
{
    let GivenUpdate { u, v, add } = given;
    let add = add != 0;
    if u < v {
        Some(Update { add, u, v })
    } else if v < u {
        Some(Update { add, u: v, v: u })
    } else {
        None
    }
}

/// The updates of a list of C that are no loops, and the place of each in that list.
pub(crate) fn list_updates(alloc: Global, given: &[GivenUpdate]) -> Result<Listed, NoMemory>
    ensures { IfOk result (λ listed. AreListed given.now listed.updates.items listed.places.items) }
{
    let mut listed = Listed {
        updates: Vec::with_capacity(alloc, given.len())?,
        places: Vec::with_capacity(alloc, given.len())?,
    };
    for (place, named) in given.iter().enumerate() {
        if let Some(update) = update_of(*named) {
            listed.updates.push(update)?;
            listed.places.push(place)?;
        }
    }
    Ok(listed)
}
