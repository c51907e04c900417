//! A graph that lives across calls, at a place that the caller owns, with core numbers that are kept right while edges come and go.
//!
//! A place is memory of `kcore_keeper_size()` bytes at an address that is a multiple of `kcore_keeper_align()`. `kcore_keeper_open` puts
//! a keeper there, `kcore_keeper_end` takes it away, and between them each call moves it out, changes it, and puts it back. Where it could
//! not be opened, an empty one lies there, which answers status 14 to each call.
//!
//! What lies at the place is a premise here, which a caller in C has to keep: `uninit_at` is room of that size and alignment that nobody
//! else uses, and `points_to` is such room in which an earlier call left this content.
ghost use prog.Memory.{align, capped, size};
ghost use denote.Param.{layout};
ghost use Rattle.std.specs.Prelude.{◌≡◌};
ghost use Rattle.std.specs.Borrow.{sem};
ghost use Rattle.std.specs.Ptr.{points_to, uninit_at};
ghost use Rattle.kc_c.specs.contracts.keeping.Content.{the_row};
ghost use Rattle.kc_c.specs.Keeping.{AppliesAt, AtPlace, ChangesAt, IsBeforeAt, IsGrownTo, IsUpdatedBy, MembersAt, NumberAt, NumbersAt, Opens, OrderAt};
ghost use Rattle.kc_c.specs.Updating.{given_update};

use crate::answer::CallResult;
use crate::keeping::{
    CallEnd, Content, KeeperPlace, apply_updates, compare_places, grow_keeper, let_go, open_keeper,
    read_changes, read_members, read_number, read_numbers, read_order, update_keeper,
};
use crate::updates::GivenUpdate;
use kc_graph::Edge;
use kc_keeper::CoreChange;
use std::alloc::Global;

/// How many bytes a place for a keeper has.
#[unsafe(no_mangle)]
pub extern "C" fn kcore_keeper_size() -> usize
    ensures { result ≡ capped (size (layout the_row)) }
{
    std::mem::size_of::<Content>()
}

/// What the address of such a place is a multiple of.
#[unsafe(no_mangle)]
pub extern "C" fn kcore_keeper_align() -> usize
    ensures { result ≡ capped (align (layout the_row)) }
{
    std::mem::align_of::<Content>()
}

/// Opens a keeper of the graph with these edges, at a place where nothing lies.
#[unsafe(no_mangle)]
pub unsafe extern "C" fn kcore_keeper_open(
    alloc: Global,
    place: *mut KeeperPlace,
    vertices: u32,
    edges: &[Edge],
) -> CallResult
    requires* { sem 𝓛 (uninit_at the_row place) }
    ensures* { ∃ₛ λ (s : Content). sem 𝓛 (points_to the_row place s) ∗ ⌜ Opens s vertices edges.now result ⌝ }
{
    let p = place as *mut Content;
    let CallEnd { content, answer } = open_keeper(alloc, vertices, edges);
    p.write(content);
    answer
}

/// Adds the edge between two vertices, or removes it where `add` is 0. `number` is 1 where the graph changed.
#[unsafe(no_mangle)]
pub unsafe extern "C" fn kcore_keeper_update(
    alloc: Global,
    place: *mut KeeperPlace,
    u: u32,
    v: u32,
    add: u32,
) -> CallResult
    ghost g: { Content }
    requires* { sem 𝓛 (points_to the_row place g) }
    ensures* { ∃ₛ λ (s : Content). sem 𝓛 (points_to the_row place s) ∗ ⌜ AtPlace (IsUpdatedBy (given_update u v add)) g s result ⌝ }
{
    let p = place as *mut Content;
    let CallEnd { content, answer } = update_keeper(alloc, p.read(), u, v, add);
    p.write(content);
    answer
}

/// Makes updates in turn. `number` is how many changed the graph; where there was no memory, how many were made. Which core numbers changed
/// is kept beside the keeper, until the next call of this function.
#[unsafe(no_mangle)]
pub unsafe extern "C" fn kcore_keeper_apply(
    alloc: Global,
    place: *mut KeeperPlace,
    updates: &[GivenUpdate],
) -> CallResult
    ghost g: { Content }
    requires* { sem 𝓛 (points_to the_row place g) }
    ensures* { ∃ₛ λ (s : Content). sem 𝓛 (points_to the_row place s) ∗ ⌜ AppliesAt updates.now g s result ⌝ }
{
    let p = place as *mut Content;
    let CallEnd { content, answer } = apply_updates(alloc, p.read(), updates);
    p.write(content);
    answer
}

/// Writes the changes of core numbers from a place on that the last call of `kcore_keeper_apply` made. `number` is how many there are in all.
#[unsafe(no_mangle)]
pub unsafe extern "C" fn kcore_keeper_changes(
    place: *mut KeeperPlace,
    from: usize,
    changes: &mut [CoreChange],
) -> CallResult
    ghost g: { Content }
    requires* { sem 𝓛 (points_to the_row place g) }
    ensures* { sem 𝓛 (points_to the_row place g) ∗ ⌜ ChangesAt g from changes.old changes.new result ⌝ }
{
    let p = place as *mut Content;
    let CallEnd { content, answer } = read_changes(p.read(), from, changes);
    p.write(content);
    answer
}

/// Adds vertices without edges, until there are so many in all.
#[unsafe(no_mangle)]
pub unsafe extern "C" fn kcore_keeper_grow(
    alloc: Global,
    place: *mut KeeperPlace,
    vertices: u32,
) -> CallResult
    ghost g: { Content }
    requires* { sem 𝓛 (points_to the_row place g) }
    ensures* { ∃ₛ λ (s : Content). sem 𝓛 (points_to the_row place s) ∗ ⌜ AtPlace (IsGrownTo vertices) g s result ⌝ }
{
    let p = place as *mut Content;
    let CallEnd { content, answer } = grow_keeper(alloc, p.read(), vertices);
    p.write(content);
    answer
}

/// Writes the core number of each vertex to its place in `core`.
#[unsafe(no_mangle)]
pub unsafe extern "C" fn kcore_keeper_core_numbers(
    place: *mut KeeperPlace,
    core: &mut [u32],
) -> CallResult
    ghost g: { Content }
    requires* { sem 𝓛 (points_to the_row place g) }
    ensures* { sem 𝓛 (points_to the_row place g) ∗ ⌜ NumbersAt g.keeper core.old core.new result ⌝ }
{
    let p = place as *mut Content;
    let CallEnd { content, answer } = read_numbers(p.read(), core);
    p.write(content);
    answer
}

/// The core number of one vertex, as `number`.
#[unsafe(no_mangle)]
pub unsafe extern "C" fn kcore_keeper_core(place: *mut KeeperPlace, v: u32) -> CallResult
    ghost g: { Content }
    requires* { sem 𝓛 (points_to the_row place g) }
    ensures* { sem 𝓛 (points_to the_row place g) ∗ ⌜ NumberAt g.keeper v result ⌝ }
{
    let p = place as *mut Content;
    let CallEnd { content, answer } = read_number(p.read(), v);
    p.write(content);
    answer
}

/// Whether `u` stands before `v` in the order that certifies the core numbers: `number` is 1 where it does.
#[unsafe(no_mangle)]
pub unsafe extern "C" fn kcore_keeper_before(place: *mut KeeperPlace, u: u32, v: u32) -> CallResult
    ghost g: { Content }
    requires* { sem 𝓛 (points_to the_row place g) }
    ensures* { sem 𝓛 (points_to the_row place g) ∗ ⌜ IsBeforeAt g.keeper u v result ⌝ }
{
    let p = place as *mut Content;
    let CallEnd { content, answer } = compare_places(p.read(), u, v);
    p.write(content);
    answer
}

/// Writes the members of the k-core to the front of `members`. `number` is how many there are.
#[unsafe(no_mangle)]
pub unsafe extern "C" fn kcore_keeper_members(
    place: *mut KeeperPlace,
    k: u32,
    members: &mut [u32],
) -> CallResult
    ghost g: { Content }
    requires* { sem 𝓛 (points_to the_row place g) }
    ensures* { sem 𝓛 (points_to the_row place g) ∗ ⌜ MembersAt g.keeper k members.old members.new result ⌝ }
{
    let p = place as *mut Content;
    let CallEnd { content, answer } = read_members(p.read(), k, members);
    p.write(content);
    answer
}

/// Writes the vertices in the order that certifies the core numbers.
#[unsafe(no_mangle)]
pub unsafe extern "C" fn kcore_keeper_order(
    alloc: Global,
    place: *mut KeeperPlace,
    order: &mut [u32],
) -> CallResult
    ghost g: { Content }
    requires* { sem 𝓛 (points_to the_row place g) }
    ensures* { sem 𝓛 (points_to the_row place g) ∗ ⌜ OrderAt g.keeper order.old order.new result ⌝ }
{
    let p = place as *mut Content;
    let CallEnd { content, answer } = read_order(alloc, p.read(), order);
    p.write(content);
    answer
}

/// Gives back all that a keeper holds. Nothing lies at the place then.
#[unsafe(no_mangle)]
pub unsafe extern "C" fn kcore_keeper_end(place: *mut KeeperPlace)
    ghost g: { Content }
    requires* { sem 𝓛 (points_to the_row place g) }
    ensures* { sem 𝓛 (uninit_at the_row place) }
{
    let p = place as *mut Content;
    let_go(p.read());
}
