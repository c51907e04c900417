//! Answers that are kept: what each view does with what it was told.
ghost use Rattle.std.specs.Prelude.{◌≡◌, ◌++◌, [], ◌∷◌, OnOk, OnErr};

use kc_graph::{Neighbours, NoMemory, UsedEdges, UsedOrder, UsedPlace};
use std::alloc::Global;

/// Keeps the list of a vertex. Where there is no memory for it, what was kept stays as it was.
pub fn keep_list(
    alloc: Global,
    edges: &mut Vec<UsedEdges>,
    vertex: u32,
    list: &[u32],
) -> Result<(), NoMemory>
    ensures ok { OnOk result (edges.new.items ≡ edges.old.items ++ record { vertex = vertex; at = 0; neighbours = list.now } ∷ []) }
    ensures err { OnErr result (edges.new.items ≡ edges.old.items) }
{
    let neighbours = Neighbours::copy_of(alloc, list)?;
    let at = 0;
    edges.push(UsedEdges {
        vertex,
        at,
        neighbours,
    })?;
    Ok(())
}

/// Keeps the core number of a vertex. Where there is no memory for it, what was kept stays as it was.
pub fn keep_place(places: &mut Vec<UsedPlace>, vertex: u32, core: u32) -> Result<(), NoMemory>
    ensures ok { OnOk result (places.new.items ≡ places.old.items ++ record { vertex = vertex; stamp = 0; core = core } ∷ []) }
    ensures err { OnErr result (places.new.items ≡ places.old.items) }
{
    let stamp = 0;
    places.push(UsedPlace {
        vertex,
        stamp,
        core,
    })?;
    Ok(())
}

/// Keeps the order of two vertices. Where there is no memory for it, what was kept stays as it was.
pub fn keep_order(orders: &mut Vec<UsedOrder>, x: u32, y: u32, before: bool) -> Result<(), NoMemory>
    ensures ok { OnOk result (orders.new.items ≡ orders.old.items ++ record { x = x; y = y; before = before } ∷ []) }
    ensures err { OnErr result (orders.new.items ≡ orders.old.items) }
{
    orders.push(UsedOrder { x, y, before })?;
    Ok(())
}
