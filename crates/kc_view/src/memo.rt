//! What a view was answered, and how it finds that again.
ghost use Rattle.std.specs.Prelude.{◌≡◌, ◌<◌, ◌≤◌, [], None, Some, false, length, slice_index_or, MatchOption, OnErr, OnOk};
ghost use Rattle.kc_view.specs.Answers.{answers_in, core_in, has_core, has_list, list_in, nothing_answered, with_list, with_order, with_place};
ghost use Rattle.kc_view.specs.Lists.{IsListOf};
ghost use Rattle.kc_view.specs.Memory.{keeping};

use crate::scratch::{Scratch, unmark_lists, unmark_places};
use kc_graph::{Neighbours, NoMemory, Used, UsedEdges, UsedOrder, UsedPlace};
use std::alloc::Global;
use std::marker::Model;
use std::mem;

/// The answers that a view has kept since it last handed them out, in the order of asking, each list and each core number once. They are
/// found by the marks of a `Scratch`: a look-up costs one index, and to hand them out costs what was kept.
///
/// Contracts see the number of vertices and the answers.
#[derive(Drop)]
pub struct Memo {
    alloc: Global,
    used: Used,
    listed: Vec<u32>,
    placed: Vec<u32>,
}

impl Model for Memo {
    ghost use Rattle.std.specs.Prelude.{length};
    ghost use Rattle.kc_view.specs.Answers.{answers_in};
    ghost use Rattle.kc_view.specs.Marks.{Marks};
    ghost use Rattle.kc_view.specs.Memory.{Memory, keeping, code_of_memory};

    ghost Value = { Memory };

    ghost coded = { code_of_memory };

    ghost view = { λ m. keeping (length m.listed.items) (answers_in m.used) };

    ghost invariant = { λ m. Marks (keeping (length m.listed.items) (answers_in m.used)) m.listed.items m.placed.items };
}

impl Memo {
    /// A memo of nothing, with the marks and the memory of the scratch. It takes no memory.
    pub fn new(alloc: Global, scratch: Scratch) -> Memo
        ensures { result ≡ keeping scratch nothing_answered }
    {
        let (listed, placed, used) = scratch.into_marks();
        Memo {
            alloc,
            used,
            listed,
            placed,
        }
    }

    /// The list of a vertex, where it was kept.
    pub fn list(&self, w: u32) -> Option<&Neighbours>
        requires { w < self.now.size }
        ensures { MatchOption result (list_in w self.now.kept.edges ≡ None) (λ list. list_in w self.now.kept.edges ≡ Some list.now) }
    {
        let mark = self.listed[w as usize];
        if mark == 0 {
            return None;
        }
        Some(&self.used.edges[(mark - 1) as usize].neighbours)
    }

    /// The core number of a vertex, where it was kept.
    pub fn core(&self, w: u32) -> Option<u32>
        requires { w < self.now.size }
        ensures { MatchOption result (core_in w self.now.kept.places ≡ None) (λ core. core_in w self.now.kept.places ≡ Some core) }
    {
        let mark = self.placed[w as usize];
        if mark == 0 {
            return None;
        }
        Some(self.used.places[(mark - 1) as usize].core)
    }

    /// The core number that was kept at this place, in the order of asking, with its vertex and stamp; `None` where fewer were kept.
    pub fn place(&self, i: usize) -> Option<UsedPlace>
        ensures { MatchOption result (length self.now.kept.places ≤ i)
            (λ place. (i < length self.now.kept.places) × (slice_index_or self.now.kept.places i place ≡ place)) }
    {
        if i >= self.used.places.len() {
            return None;
        }
        Some(self.used.places[i])
    }

    /// Keeps the list of a vertex whose list was not kept. Where there is no memory for it, the memo stays as it was.
    pub fn keep_list(&mut self, list: UsedEdges) -> Result<(), NoMemory>
        requires vertex { list.vertex < self.old.size }
        requires once { has_list self.old.kept list.vertex ≡ false }
        requires is_list { IsListOf self.old.size list.vertex list.neighbours }
        ensures ok { OnOk result (self.new ≡ keeping self.old.size (with_list self.old.kept list)) }
        ensures err { OnErr result (self.new ≡ self.old) }
    {
        let vertex = list.vertex as usize;
        self.used.edges.push(list)?;
        self.listed[vertex] = self.used.edges.len() as u32;
        Ok(())
    }

    /// Keeps the core number of a vertex whose core number was not kept, with its stamp. Where there is no memory for it, the memo stays
    /// as it was.
    pub fn keep_place(&mut self, place: UsedPlace) -> Result<(), NoMemory>
        requires vertex { place.vertex < self.old.size }
        requires once { has_core self.old.kept place.vertex ≡ false }
        ensures ok { OnOk result (self.new ≡ keeping self.old.size (with_place self.old.kept place)) }
        ensures err { OnErr result (self.new ≡ self.old) }
    {
        self.used.places.push(place)?;
        self.placed[place.vertex as usize] = self.used.places.len() as u32;
        Ok(())
    }

    /// Keeps the order of two vertices. Where there is no memory for it, the memo stays as it was.
    pub fn keep_order(&mut self, order: UsedOrder) -> Result<(), NoMemory>
        ensures ok { OnOk result (self.new ≡ keeping self.old.size (with_order self.old.kept order)) }
        ensures err { OnErr result (self.new ≡ self.old) }
    {
        self.used.orders.push(order)?;
        Ok(())
    }

    /// Hands out all answers, and keeps nothing. It takes no memory.
    pub fn hand_out(&mut self) -> Used
        ensures all { answers_in result ≡ self.old.kept }
        ensures emptied { self.new ≡ keeping self.old.size nothing_answered }
    {
        unmark_lists(&mut self.listed, &self.used.edges);
        unmark_places(&mut self.placed, &self.used.places);
        mem::replace(&mut self.used, nothing_used(self.alloc))
    }

    /// The scratch, with clear marks, as it was lent. It takes no memory.
    pub fn into_scratch(self) -> Scratch
        ensures { result ≡ self.size }
    {
        let Memo {
            mut used,
            mut listed,
            mut placed,
            ..
        } = self;
        unmark_lists(&mut listed, &used.edges);
        unmark_places(&mut placed, &used.places);
        used.edges.clear();
        used.places.clear();
        used.orders.clear();
        Scratch::of_marks(listed, placed, used)
    }
}

/// No answers. It takes no memory.
pub(crate) fn nothing_used(alloc: Global) -> Used
    ensures { answers_in result ≡ nothing_answered }
{
    Used {
        edges: Vec::new(alloc),
        places: Vec::new(alloc),
        orders: Vec::new(alloc),
    }
}
