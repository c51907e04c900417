//! A view of a graph at rest.
ghost use Rattle.std.specs.Prelude.{◌≡◌, ◌<◌, ℕ, is_some, false, All, IfOk, length, slice_index_or, if◌then◌else◌};
ghost use Rattle.kc_view.specs.Answers.{nothing_answered, list_in, core_in};

use crate::fault::ViewFault;
use crate::keep::{keep_list, keep_order, keep_place};
use crate::view::View;
use kc_graph::{Lawful, NoMemory, Used, UsedEdges, UsedOrder, UsedPlace};
use std::alloc::Global;
use std::marker::Model;
use std::mem;

/// A view of a graph with certified core numbers, which stays as it is while it is looked at: it never misses, and its answers are
/// those of the state. Handing the answers out costs what was kept, and nothing for the rest of the graph.
#[derive(Debug, Drop)]
pub struct PlainView<'a> {
    alloc: Global,
    state: &'a Lawful,
    edges: Vec<UsedEdges>,
    places: Vec<UsedPlace>,
    orders: Vec<UsedOrder>,
    is_listed: Vec<bool>,
    is_placed: Vec<bool>,
    handed: u64,
}

impl<'a> Model for PlainView<'a> {
    ghost use Rattle.kc_view.specs.Plain.{Resting, KeepsAnswers};
    ghost use Rattle.kc_view.specs.PlainCode.{code_of_resting};

    ghost Value = { Resting };

    ghost coded = { code_of_resting };

    ghost view = { λ a. record {
      state = a.state.now;
      kept = record { edges = a.edges.items; places = a.places.items; orders = a.orders.items };
      handed = a.handed;
    } };

    ghost invariant = { λ a. KeepsAnswers a.state.now
        (record { edges = a.edges.items; places = a.places.items; orders = a.orders.items })
        a.is_listed.items a.is_placed.items };
}

impl<'a> PlainView<'a> {
    /// A view of the state with nothing kept, or `NoMemory` where there is none for two marks a vertex.
    pub fn new(alloc: Global, state: &'a Lawful) -> Result<PlainView<'a>, NoMemory>
        ensures { IfOk result (λ view. view ≡ record { state = state.now; kept = nothing_answered; handed = 0 }) }
    {
        let vertices = state.graph().vertices() as usize;
        let is_listed = vec![in alloc; false; vertices]?;
        let is_placed = vec![in alloc; false; vertices]?;
        Ok(PlainView {
            alloc,
            state,
            edges: Vec::new(alloc),
            places: Vec::new(alloc),
            orders: Vec::new(alloc),
            is_listed,
            is_placed,
            handed: 0,
        })
    }

    /// The state that is looked at.
    pub fn state(&self) -> &'a Lawful
        ensures { result.now ≡ self.now.state }
    {
        self.state
    }
}

impl View for PlainView<'_> {
    ghost use Rattle.kc_view.specs.Plain.{shown_at_rest};

    ghost shown = { shown_at_rest };

    fn degree(&mut self, w: u32) -> Result<u32, ViewFault> {
        let neighbours = self.state.graph().neighbours(w);
        let degree = neighbours.len() as u32;
        if !self.is_listed[w as usize] {
            keep_list(self.alloc, &mut self.edges, w, neighbours)?;
            self.is_listed[w as usize] = true;
        }
        Ok(degree)
    }

    fn list(&self, w: u32) -> &[u32] {
        self.state.graph().neighbours(w)
    }

    fn core(&mut self, w: u32) -> Result<u32, ViewFault> {
        let core = self.state.core()[w as usize];
        if !self.is_placed[w as usize] {
            keep_place(&mut self.places, w, core)?;
            self.is_placed[w as usize] = true;
        }
        Ok(core)
    }

    fn precedes(&mut self, x: u32, y: u32) -> Result<bool, ViewFault> {
        let before = self.state.place(x) < self.state.place(y);
        keep_order(&mut self.orders, x, y, before)?;
        Ok(before)
    }

    fn used(&mut self) -> Used {
        unmark_lists(&mut self.is_listed, &self.edges);
        unmark_places(&mut self.is_placed, &self.places);
        self.handed = self.handed.wrapping_add(1);
        Used {
            edges: mem::replace(&mut self.edges, Vec::new(self.alloc)),
            places: mem::replace(&mut self.places, Vec::new(self.alloc)),
            orders: mem::replace(&mut self.orders, Vec::new(self.alloc)),
        }
    }
}

/// Takes the mark from each vertex whose list was kept.
fn unmark_lists(is_listed: &mut [bool], edges: &[UsedEdges])
    requires { All (λ e. e.vertex < length is_listed.old) edges.now }
    ensures { (w : ℕ) → slice_index_or is_listed.new w false ≡ (if is_some (list_in w edges.now) then false else slice_index_or is_listed.old w false) }
{
    for list in edges {
        is_listed[list.vertex as usize] = false;
    }
}

/// Takes the mark from each vertex whose core number was kept.
fn unmark_places(is_placed: &mut [bool], places: &[UsedPlace])
    requires { All (λ p. p.vertex < length is_placed.old) places.now }
    ensures { (w : ℕ) → slice_index_or is_placed.new w false ≡ (if is_some (core_in w places.now) then false else slice_index_or is_placed.old w false) }
{
    for place in places {
        is_placed[place.vertex as usize] = false;
    }
}
