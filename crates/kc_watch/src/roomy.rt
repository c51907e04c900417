//! A keeper with room for more vertices.
//!
//! A keeper that grows makes nearly all that it has anew. So one that has to grow makes room for more vertices than are needed: the *spare*
//! ones stand behind the others, have no edges, and stand for no id. Contracts see the graph without them.
ghost use Rattle.std.specs.Prelude.{◌≡◌, ◌≤◌, [], ℕ, None, Some, All, IfOk, OnErr, OnOk, slice_index, unwrap_or};
ghost use Rattle.std.specs.FinSet as set;
ghost use Rattle.kc_graph.specs.Core.{AreCoreNumbers};
ghost use Rattle.kc_graph.specs.Growing.{with_vertices};
ghost use Rattle.kc_text.specs.Deciding.{last_batch};
ghost use Rattle.kc_words.specs.declared.layout.TheConstants.{VERTICES};
ghost use Rattle.kc_batch_effects.specs.Batches.{graph_after_batch};
ghost use Rattle.kc_keeper.specs.Cores.{AreCoreChanges};
ghost use Rattle.kc_stream.specs.Gathering.{IsUpdateBelow};
ghost use Rattle.kc_watch.specs.Accounts.{core_numbers_of, layers_of, top_of};
ghost use Rattle.kc_watch.specs.Effects.{AreEffects};
ghost use Rattle.kc_watch.specs.Room.{AreEdgesBelow};

use crate::NoMemory;
use crate::batch::{Effects, make, make_room};
use crate::first_graph::without_spare;
use kc_graph::{Lawful, Update, decompose_owned};
use kc_keeper::{BatchMaker, Changes, Keeper, OpenFault};
use kc_tally::layers;
use std::alloc::Global;
use std::marker::Model;

/// A graph with its core numbers, which changes and grows, and its layers once they were asked for.
#[derive(Drop)]
pub(crate) struct RoomyKeeper {
    keeper: Keeper,
    /// How many of the keeper's vertices are used: the first ones.
    vertices: u32,
    /// The layers, from the first time that they are needed until the graph changes.
    layers: Option<Vec<u32>>,
}

impl Model for RoomyKeeper {
    ghost use Rattle.kc_watch.specs.Layered.{LayeredGraph, code_of_layered};
    ghost use Rattle.kc_watch.specs.Room.{HasRoom, graph_in, layers_in};

    ghost Value = { LayeredGraph };

    ghost coded = { code_of_layered };

    ghost view = { λ k. graph_in k.keeper k.vertices k.layers };

    ghost invariant = { λ k. HasRoom k.keeper.graph k.vertices (layers_in k.layers) };
}

/// The layers of the first vertices of a keeper.
fn first_layers(alloc: Global, keeper: &Keeper, vertices: u32) -> Result<Vec<u32>, NoMemory>
    requires fits { vertices ≤ keeper.now.graph.size }
    requires edges { AreEdgesBelow vertices keeper.now.graph.edges }
    ensures { IfOk result (λ layer. layer.items ≡ layers_of (with_vertices vertices keeper.now.graph)) }
{
    let graph = keeper.graph().to_graph(alloc)?;
    let mut layer = layers(alloc, &graph, keeper.core_numbers())?;
    layer.truncate(vertices as usize);
    Ok(layer)
}

impl RoomyKeeper {
    /// Keeps a graph of which the first so many vertices are used, and those behind them are spare.
    pub(crate) fn open(
        alloc: Global,
        lawful: Lawful,
        vertices: u32,
    ) -> Result<RoomyKeeper, NoMemory>
        requires fits { vertices ≤ lawful.graph.size }
        requires few { lawful.graph.size ≤ VERTICES }
        requires edges { AreEdgesBelow vertices lawful.graph.edges }
        ensures { IfOk result (λ keeper. keeper.graph ≡ with_vertices vertices lawful.graph) }
    {
        match Keeper::open(alloc, lawful) {
            Ok(keeper) => Ok(RoomyKeeper::of_keeper(keeper, vertices)),
            Err(OpenFault::NoMemory) => Err(NoMemory),
            Err(OpenFault::TooManyVertices { .. }) => unreachable!(),
        }
    }

    /// The first so many vertices of a keeper are used.
    fn of_keeper(keeper: Keeper, vertices: u32) -> RoomyKeeper
        requires fits { vertices ≤ keeper.graph.size }
        requires edges { AreEdgesBelow vertices keeper.graph.edges }
        ensures graph { result.graph ≡ with_vertices vertices keeper.graph }
        ensures layers { result.layers ≡ None }
    {
        RoomyKeeper {
            keeper,
            vertices,
            layers: None,
        }
    }

    /// How many vertices there are.
    pub(crate) fn vertices(&self) -> u32
        ensures size { result ≡ self.now.graph.size }
    {
        self.vertices
    }

    /// How many edges there are.
    pub(crate) fn edges(&self) -> u64
        ensures { result ≡ set.len self.now.graph.edges }
    {
        self.keeper.graph().edges()
    }

    /// The core number of each vertex.
    pub(crate) fn core_numbers(&self) -> &[u32]
        ensures seidman { AreCoreNumbers self.now.graph result.now }
    {
        &self.keeper.core_numbers()[..self.vertices as usize]
    }

    /// The greatest core number, 0 where there is no vertex. It is kept, not looked for: a spare vertex has no edge, and so the core number 0.
    pub(crate) fn top(&self) -> u32
        ensures { result ≡ top_of self.now.graph }
    {
        self.keeper.recall_certified();
        self.keeper.top()
    }

    /// Adds vertices until there are so many. Where there is no memory, the graph stays as it is.
    pub(crate) fn grow_to(&mut self, alloc: Global, vertices: u32) -> Result<(), NoMemory>
        requires more { self.old.graph.size ≤ vertices }
        requires few { vertices ≤ VERTICES }
        ensures graph { OnOk result (self.new.graph ≡ with_vertices vertices self.old.graph) }
        ensures numbers { OnOk result ((v : ℕ)
            → slice_index (core_numbers_of self.new.graph) v ≡ slice_index (core_numbers_of self.old.graph) v) }
        ensures same { OnErr result (self.new.graph ≡ self.old.graph) }
    {
        make_room(alloc, &mut self.keeper, vertices)?;
        self.vertices = vertices;
        self.layers = None;
        Ok(())
    }

    /// Has the updates of a batch that decide made, by so many workers or fewer, and tells what they did, and which core numbers changed.
    pub(crate) fn make<M: BatchMaker>(
        &mut self,
        alloc: Global,
        maker: &M,
        workers: u32,
        updates: &[Update],
        changes: &mut Changes,
    ) -> Result<Effects, NoMemory>
        requires { All (IsUpdateBelow self.old.graph.size) updates.now }
        ensures graph { OnOk result (self.new.graph ≡ graph_after_batch self.old.graph (last_batch updates.now).updates) }
        ensures effects { IfOk result (λ effects. AreEffects self.old.graph (last_batch updates.now) effects) }
        ensures cores { OnOk result (AreCoreChanges (core_numbers_of self.old.graph) (core_numbers_of self.new.graph) changes.new.cores.items) }
    {
        self.layers = None;
        make(alloc, maker, workers, &mut self.keeper, updates, changes)
    }

    /// The graph with its core numbers and an order that certifies them, which shares no list with the keeper. Where there are spare vertices
    /// it is made and computed anew, without them.
    pub(crate) fn to_lawful(&self, alloc: Global) -> Result<Lawful, NoMemory>
        ensures { IfOk result (λ lawful. lawful.graph ≡ self.now.graph) }
    {
        if self.keeper.vertices() == self.vertices {
            return self.keeper.to_lawful(alloc);
        }
        let graph = without_spare(alloc, self.keeper.graph(), self.vertices)?;
        decompose_owned(alloc, graph)
    }

    /// Finds the layers, unless they are kept, and keeps them until the graph changes.
    pub(crate) fn keep_layers(&mut self, alloc: Global) -> Result<(), NoMemory>
        ensures graph { self.new.graph ≡ self.old.graph }
        ensures layers { OnOk result (self.new.layers ≡ Some (layers_of self.new.graph)) }
    {
        if self.layers.is_some() {
            return Ok(());
        }
        let layer = first_layers(alloc, &self.keeper, self.vertices)?;
        self.layers = Some(layer);
        Ok(())
    }

    /// The layers that are kept.
    pub(crate) fn layers(&self) -> &[u32]
        ensures { result.now ≡ unwrap_or self.now.layers [] }
    {
        match &self.layers {
            Some(layer) => layer,
            None => &[],
        }
    }
}
