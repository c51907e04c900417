//! The vertices of a state, taken from their lines.
ghost use Rattle.std.specs.Prelude.{◌≡◌, ◌<◌, ◌≤◌, ◌+◌, true, false, IfOk, OnOk, is_none, length, nat_eq};
ghost use Rattle.std.specs.Set.{is_member};
ghost use Rattle.kc_lists.specs.Lists.{Distinct};

use crate::NoMemory;
use crate::fault::{ReadFault, StateKind};
use crate::state_line::triple_in;
use crate::text_lines::TextLines;
use kc_stream::Ids;
use std::alloc::Global;

/// What the lines of vertices have told.
#[derive(Drop)]
pub(crate) struct ToldVertices {
    pub(crate) ids: Ids,
    pub(crate) core: Vec<u32>,
    /// The vertex at each place; where none was told, how many vertices there are to be.
    pub(crate) order: Vec<u32>,
}

impl ToldVertices {
    /// No vertex was told, of so many.
    fn new(alloc: Global, vertices: u32) -> Result<ToldVertices, NoMemory>
        ensures ids { IfOk result (λ told. length told.ids ≡ 0) }
        ensures once { IfOk result (λ told. Distinct told.ids) }
        ensures order { IfOk result (λ told. length told.order.items ≡ vertices) }
    {
        let order = vec![in alloc; vertices; vertices as usize]?;
        Ok(ToldVertices {
            ids: Ids::new(alloc),
            core: Vec::new(alloc),
            order,
        })
    }

    /// What is wrong with the next vertex, where something is.
    fn fault_of(&self, id: u32, place: u32) -> Option<StateKind>
        ensures new { is_none result ≡ true → is_member nat_eq self.now.ids id ≡ false }
        ensures within { is_none result ≡ true → place < length self.now.order.items }
    {
        let vertices = self.order.len();
        if self.ids.number(id).is_some() {
            return Some(StateKind::RepeatedId);
        }
        match self.order.get(place as usize) {
            Some(v) if *v as usize == vertices => None,
            _ => Some(StateKind::WrongPlace),
        }
    }
}

/// Takes one vertex more. It is not named yet, and its place is free.
fn take_vertex(
    lines: &TextLines,
    told: &mut ToldVertices,
    v: u32,
    triple: (u32, u32, u32),
) -> Result<(), ReadFault>
    ensures ids { OnOk result (length told.new.ids ≡ length told.old.ids + 1) }
    ensures once { OnOk result (Distinct told.old.ids → Distinct told.new.ids) }
    ensures order { length told.new.order.items ≡ length told.old.order.items }
{
    let (id, core, place) = triple;
    if let Some(kind) = told.fault_of(id, place) {
        return Err(lines.fault(kind));
    }
    if told.ids.name(id)?.is_none() {
        return Err(lines.fault(StateKind::TooManyVertices));
    }
    if told.core.push(core).is_err() {
        return Err(ReadFault::NoMemory);
    }
    told.order[place as usize] = v;
    Ok(())
}

/// The vertices of the next lines, so many.
pub(crate) fn read_vertices(
    alloc: Global,
    lines: &mut TextLines,
    vertices: u32,
) -> Result<ToldVertices, ReadFault>
    ensures ids { IfOk result (λ told. length told.ids ≡ vertices) }
    ensures once { IfOk result (λ told. Distinct told.ids) }
    ensures shorter { OnOk result (length lines.new.rest.now ≤ length lines.old.rest.now) }
{
    let mut told = ToldVertices::new(alloc, vertices)?;
    for v in 0..vertices {
        let line = lines.next_line()?;
        match triple_in(line) {
            Some(triple) => take_vertex(lines, &mut told, v, triple)?,
            None => return Err(lines.fault(StateKind::NotAVertex)),
        }
    }
    Ok(told)
}
