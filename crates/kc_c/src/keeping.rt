//! What the calls for a kept graph do, by value: each takes what lies at a place, and gives back what is to lie there.
ghost use Rattle.std.specs.Prelude.{◌≡◌, ◌≤◌, None, IfOk, IfErr};
ghost use Rattle.kc_graph.specs.Bulk.{graph_with};
ghost use Rattle.kc_c.specs.Answers.{answer_to, first_stranger, refusal_by};
ghost use Rattle.kc_keeper.specs.Cores.{AreCoreChanges};
ghost use Rattle.kc_c.specs.Keeping.{AppliesAt, AreMembers, AreRead, AreTold, AtPlace, ChangesAt, IsBefore, IsBeforeAt, IsGrownTo, IsKept};
ghost use Rattle.kc_c.specs.Keeping.{IsOrder, IsUpdatedBy, IsUpdatedByAll, MembersAt, NumberAt, NumbersAt, Opens, OrderAt, TellsNumber};
ghost use Rattle.kc_c.specs.Updating.{given_update};

use crate::answer::{CallResult, Refusal, answer_to};
use crate::calls::decomposition_of;
use crate::members::write_at_least;
use crate::updates::{GivenUpdate, first_outsider, list_updates, make};
use kc_graph::Edge;
use kc_keeper::{ApplyFault, Changes, CoreChange, Keeper};
use kc_words::VERTICES;
use std::alloc::Global;

/// What C sees of a place: nothing.
#[repr(C)]
pub struct KeeperPlace {
    pub byte: u8,
}

/// What lies at a place: a keeper, or none where it could not be opened, and what the last call of `kcore_keeper_apply` changed.
#[derive(Drop)]
pub struct Content {
    pub keeper: Option<Keeper>,
    pub changes: Changes,
}

/// What is to lie at the place after a call, and how the call ended.
#[derive(Drop)]
pub struct CallEnd {
    pub content: Content,
    pub answer: CallResult,
}

/// A keeper of the graph with these edges.
fn keeper_of(alloc: Global, vertices: u32, edges: &[Edge]) -> Result<Keeper, Refusal>
    requires few { vertices ≤ VERTICES }
    ensures kept { IfOk result (λ k. IsKept (graph_with vertices edges.now) k) }
    ensures within { IfOk result (λ _. first_stranger vertices edges.now ≡ None) }
    ensures refused { IfErr result (λ refusal. refusal ≡ refusal_by (first_stranger vertices edges.now)) }
{
    let lawful = decomposition_of(alloc, vertices, edges)?;
    let Ok(keeper) = Keeper::open(alloc, lawful) else {
        return Err(Refusal::NoMemory);
    };
    keeper.recall_certified();
    Ok(keeper)
}

/// Opens a keeper of the graph with these edges.
pub(crate) fn open_keeper(alloc: Global, vertices: u32, edges: &[Edge]) -> CallEnd
    ensures { Opens result.content vertices edges.now result.answer }
{
    let changes = Changes::new(alloc);
    if vertices > VERTICES {
        return CallEnd {
            content: Content {
                keeper: None,
                changes,
            },
            answer: answer_to(Err(Refusal::TooManyVertices)),
        };
    }
    match keeper_of(alloc, vertices, edges) {
        Ok(keeper) => CallEnd {
            content: Content {
                keeper: Some(keeper),
                changes,
            },
            answer: answer_to(Ok(0)),
        },
        Err(refusal) => CallEnd {
            content: Content {
                keeper: None,
                changes,
            },
            answer: answer_to(Err(refusal)),
        },
    }
}

/// Makes an update, where both ends are vertices.
fn make_one(alloc: Global, keeper: &mut Keeper, update: GivenUpdate) -> Result<usize, Refusal>
    ensures { IsUpdatedBy update keeper.old keeper.new (answer_to result) }
{
    let vertices = keeper.vertices();
    if update.u >= vertices || update.v >= vertices {
        return Err(Refusal::NotAVertex(0));
    }
    match make(alloc, keeper, update) {
        Ok(true) => Ok(1),
        Ok(false) => Ok(0),
        Err(_) => Err(Refusal::NoMemory),
    }
}

/// Makes an update, where a keeper lies there.
pub(crate) fn update_keeper(alloc: Global, content: Content, u: u32, v: u32, add: u32) -> CallEnd
    ensures { AtPlace (IsUpdatedBy (given_update u v add)) content result.content result.answer }
{
    let Content { keeper, changes } = content;
    match keeper {
        None => CallEnd {
            content: Content {
                keeper: None,
                changes,
            },
            answer: answer_to(Err(Refusal::NotOpen)),
        },
        Some(mut keeper) => {
            let made = make_one(alloc, &mut keeper, GivenUpdate { u, v, add });
            CallEnd {
                content: Content {
                    keeper: Some(keeper),
                    changes,
                },
                answer: answer_to(made),
            }
        }
    }
}

/// Makes updates in turn, where all ends are vertices, and tells what they changed.
fn make_in_turn(
    alloc: Global,
    keeper: &mut Keeper,
    updates: &[GivenUpdate],
    changes: &mut Changes,
) -> Result<usize, Refusal>
    ensures made { IsUpdatedByAll updates.now keeper.old keeper.new (answer_to result) }
    ensures told { AreCoreChanges keeper.old.core keeper.new.core changes.new.cores.items }
{
    changes.clear();
    if let Some(place) = first_outsider(keeper.vertices(), updates) {
        return Err(Refusal::NotAVertex(place));
    }
    if updates.is_empty() {
        keeper.recall_certified();
        return Ok(0);
    }
    let Ok(listed) = list_updates(alloc, updates) else {
        keeper.recall_certified();
        return Err(Refusal::Stopped(0));
    };
    match keeper.apply(alloc, &listed.updates, changes) {
        Ok(()) => Ok(changes.applied.len()),
        Err(ApplyFault::NoMemory { made }) => Err(Refusal::Stopped(listed.places[made])),
        Err(ApplyFault::NoVertex { .. }) => unreachable!(),
    }
}

/// Makes updates in turn, where a keeper lies there, and leaves there what they changed.
pub(crate) fn apply_updates(alloc: Global, content: Content, updates: &[GivenUpdate]) -> CallEnd
    ensures { AppliesAt updates.now content result.content result.answer }
{
    let Content {
        keeper,
        mut changes,
    } = content;
    match keeper {
        None => CallEnd {
            content: Content {
                keeper: None,
                changes,
            },
            answer: answer_to(Err(Refusal::NotOpen)),
        },
        Some(mut keeper) => {
            let made = make_in_turn(alloc, &mut keeper, updates, &mut changes);
            CallEnd {
                content: Content {
                    keeper: Some(keeper),
                    changes,
                },
                answer: answer_to(made),
            }
        }
    }
}

/// Adds vertices, where that makes no fewer and not too many.
fn add_vertices(alloc: Global, keeper: &mut Keeper, vertices: u32) -> Result<usize, Refusal>
    ensures { IsGrownTo vertices keeper.old keeper.new (answer_to result) }
{
    if vertices > VERTICES {
        return Err(Refusal::TooManyVertices);
    }
    if vertices < keeper.vertices() {
        return Err(Refusal::TooFewVertices);
    }
    match keeper.grow(alloc, vertices) {
        Ok(()) => Ok(0),
        Err(_) => Err(Refusal::NoMemory),
    }
}

/// Adds vertices, where a keeper lies there.
pub(crate) fn grow_keeper(alloc: Global, content: Content, vertices: u32) -> CallEnd
    ensures { AtPlace (IsGrownTo vertices) content result.content result.answer }
{
    let Content { keeper, changes } = content;
    match keeper {
        None => CallEnd {
            content: Content {
                keeper: None,
                changes,
            },
            answer: answer_to(Err(Refusal::NotOpen)),
        },
        Some(mut keeper) => {
            let added = add_vertices(alloc, &mut keeper, vertices);
            CallEnd {
                content: Content {
                    keeper: Some(keeper),
                    changes,
                },
                answer: answer_to(added),
            }
        }
    }
}

/// Writes the core numbers, where there is one place for each vertex.
fn write_numbers(keeper: &Keeper, core: &mut [u32]) -> Result<usize, Refusal>
    ensures { AreRead keeper.now core.old core.new (answer_to result) }
{
    let vertices = keeper.vertices();
    if core.len() != vertices as usize {
        return Err(Refusal::WrongCoreLength);
    }
    core.copy_from_slice(keeper.core_numbers());
    Ok(0)
}

/// Writes the core numbers, where a keeper lies there, and leaves it there.
pub(crate) fn read_numbers(content: Content, core: &mut [u32]) -> CallEnd
    ensures same { result.content ≡ content }
    ensures numbers { NumbersAt content.keeper core.old core.new result.answer }
{
    let Content { keeper, changes } = content;
    let Some(keeper) = keeper else {
        return CallEnd {
            content: Content {
                keeper: None,
                changes,
            },
            answer: answer_to(Err(Refusal::NotOpen)),
        };
    };
    let written = write_numbers(&keeper, core);
    CallEnd {
        content: Content {
            keeper: Some(keeper),
            changes,
        },
        answer: answer_to(written),
    }
}

/// Copies the changes from a place on, as many as there are or as there is room for, and tells how many there are in all.
fn copy_changes(
    told: &[CoreChange],
    from: usize,
    changes: &mut [CoreChange],
) -> Result<usize, Refusal>
    ensures { AreTold told.now from changes.old changes.new (answer_to result) }
{
    if from < told.len() {
        let left = &told[from..];
        let count = left.len().min(changes.len());
        changes[..count].copy_from_slice(&left[..count]);
    }
    Ok(told.len())
}

/// Writes the changes that are told from a place on, where a keeper lies there, and leaves it there.
pub(crate) fn read_changes(content: Content, from: usize, list: &mut [CoreChange]) -> CallEnd
    ensures same { result.content ≡ content }
    ensures changes { ChangesAt content from list.old list.new result.answer }
{
    let Content { keeper, changes } = content;
    let Some(keeper) = keeper else {
        return CallEnd {
            content: Content {
                keeper: None,
                changes,
            },
            answer: answer_to(Err(Refusal::NotOpen)),
        };
    };
    let copied = copy_changes(&changes.cores, from, list);
    CallEnd {
        content: Content {
            keeper: Some(keeper),
            changes,
        },
        answer: answer_to(copied),
    }
}

/// Writes the members of the k-core, where there is one place for each vertex.
fn write_members(keeper: &Keeper, k: u32, members: &mut [u32]) -> Result<usize, Refusal>
    ensures { AreMembers keeper.now k members.old members.new (answer_to result) }
{
    let vertices = keeper.vertices();
    if members.len() != vertices as usize {
        return Err(Refusal::WrongMembersLength);
    }
    Ok(write_at_least(k, keeper.core_numbers(), members))
}

/// Writes the members of the k-core, where a keeper lies there, and leaves it there.
pub(crate) fn read_members(content: Content, k: u32, members: &mut [u32]) -> CallEnd
    ensures same { result.content ≡ content }
    ensures members { MembersAt content.keeper k members.old members.new result.answer }
{
    let Content { keeper, changes } = content;
    let Some(keeper) = keeper else {
        return CallEnd {
            content: Content {
                keeper: None,
                changes,
            },
            answer: answer_to(Err(Refusal::NotOpen)),
        };
    };
    let written = write_members(&keeper, k, members);
    CallEnd {
        content: Content {
            keeper: Some(keeper),
            changes,
        },
        answer: answer_to(written),
    }
}

/// Writes the vertices in order, where there is one place for each.
fn write_order(alloc: Global, keeper: &Keeper, order: &mut [u32]) -> Result<usize, Refusal>
    ensures { IsOrder keeper.now order.old order.new (answer_to result) }
{
    keeper.recall_certified();
    let vertices = keeper.vertices();
    if order.len() != vertices as usize {
        return Err(Refusal::WrongOrderLength);
    }
    let Ok(list) = keeper.order(alloc) else {
        return Err(Refusal::NoMemory);
    };
    order.copy_from_slice(&list);
    Ok(0)
}

/// Writes the vertices in order, where a keeper lies there, and leaves it there.
pub(crate) fn read_order(alloc: Global, content: Content, order: &mut [u32]) -> CallEnd
    ensures same { result.content ≡ content }
    ensures order { OrderAt content.keeper order.old order.new result.answer }
{
    let Content { keeper, changes } = content;
    let Some(keeper) = keeper else {
        return CallEnd {
            content: Content {
                keeper: None,
                changes,
            },
            answer: answer_to(Err(Refusal::NotOpen)),
        };
    };
    let written = write_order(alloc, &keeper, order);
    CallEnd {
        content: Content {
            keeper: Some(keeper),
            changes,
        },
        answer: answer_to(written),
    }
}

/// The core number of a vertex.
fn number_of(keeper: &Keeper, v: u32) -> Result<usize, Refusal>
    ensures { TellsNumber keeper.now v (answer_to result) }
{
    let vertices = keeper.vertices();
    if v >= vertices {
        return Err(Refusal::NotAVertex(0));
    }
    let core = keeper.core_numbers();
    Ok(core[v as usize] as usize)
}

/// Tells the core number of a vertex, where a keeper lies there, and leaves it there.
pub(crate) fn read_number(content: Content, v: u32) -> CallEnd
    ensures same { result.content ≡ content }
    ensures number { NumberAt content.keeper v result.answer }
{
    let Content { keeper, changes } = content;
    let Some(keeper) = keeper else {
        return CallEnd {
            content: Content {
                keeper: None,
                changes,
            },
            answer: answer_to(Err(Refusal::NotOpen)),
        };
    };
    let told = number_of(&keeper, v);
    CallEnd {
        content: Content {
            keeper: Some(keeper),
            changes,
        },
        answer: answer_to(told),
    }
}

/// Whether one vertex stands before another in the order, as 1 or 0.
fn is_before(keeper: &Keeper, u: u32, v: u32) -> Result<usize, Refusal>
    ensures { IsBefore keeper.now u v (answer_to result) }
{
    match keeper.precedes(u, v) {
        None => Err(Refusal::NotAVertex(0)),
        Some(true) => Ok(1),
        Some(false) => Ok(0),
    }
}

/// Compares the places of two vertices in the order, where a keeper lies there, and leaves it there.
pub(crate) fn compare_places(content: Content, u: u32, v: u32) -> CallEnd
    ensures same { result.content ≡ content }
    ensures before { IsBeforeAt content.keeper u v result.answer }
{
    let Content { keeper, changes } = content;
    let Some(keeper) = keeper else {
        return CallEnd {
            content: Content {
                keeper: None,
                changes,
            },
            answer: answer_to(Err(Refusal::NotOpen)),
        };
    };
    let told = is_before(&keeper, u, v);
    CallEnd {
        content: Content {
            keeper: Some(keeper),
            changes,
        },
        answer: answer_to(told),
    }
}

/// Gives back what lies at a place.
pub(crate) fn let_go(_content: Content) {}
