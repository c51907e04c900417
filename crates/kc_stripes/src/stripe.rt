//! One stripe: the records of every 1,024th vertex, and what its pass has seen. Nothing here takes a lock.
ghost use Rattle.std.specs.Prelude.{◌≡◌, ◌≤◌, ◌<◌, ◌+◌, ◌*◌, ◌/◌, ℕ, true, slice_index, slice_index_or, vec_len, All, IfOk, List};
ghost use mathlib.Core.List.{IsPrefix};
ghost use Rattle.kc_graph.specs.declared.used.UsedEdges.{UsedEdges};
ghost use Rattle.kc_view.specs.Lists.{IsListOf};
ghost use Rattle.kc_agree.specs.Reads.{WasList};
ghost use Rattle.kc_stripes.specs.Records.{IsRecord, Striped, belongs, record_of, with_newer};
ghost use Rattle.kc_table.specs.Log.{opened_with};

use kc_graph::{Neighbours, NoMemory, SharedGraph, UsedEdges};
use kc_table::{Pass, Words, meet, split};
use std::alloc::Global;
use std::marker::Model;
use std::snapshot::Snapshot;

/// How many stripes a table has. Vertex v stands in stripe v mod 1024, at place v div 1024.
pub const STRIPES: u32 = 1024;

/// The neighbours of every 1,024th vertex, each list as it was after some entries, with a pass that has seen these entries.
///
/// Contracts see the stripe's number, what its table opened with, the log that its pass has seen, and the records. By its type each record
/// is true: its list ascends, has vertices other than its own, and is its vertex's list after the first `at` entries, which the pass has
/// seen; and `at` is not below the opening edge stamp of the vertex.
#[derive(Drop)]
pub struct Stripe {
    number: u32,
    vertices: u32,
    edges: Snapshot<SharedGraph>,
    stamps: Snapshot<Vec<u32>>,
    pass: Pass,
    records: Vec<UsedEdges>,
}

impl Model for Stripe {
    ghost use Rattle.std.specs.Prelude.{◌≡◌};
    ghost use Rattle.std.specs.Coded.{codes};
    ghost use Rattle.kc_graph.specs.Rows.{code_of_graph};
    ghost use Rattle.kc_stripes.specs.Records.{Striped, IsStripe};
    ghost use Rattle.kc_table.specs.Log.{opened_with};

    ghost Value = { Striped };

    ghost coded = { Prim.hlevel (codes, code_of_graph) };

    ghost view = { λ s. record {
      number = s.number;
      opened = opened_with s.pass.table s.edges.value s.stamps.value.items;
      seen = s.pass.log;
      records = s.records.items;
    } };

    ghost invariant = { λ s. (s.vertices ≡ s.edges.value.size) × IsStripe (record {
      number = s.number;
      opened = opened_with s.pass.table s.edges.value s.stamps.value.items;
      seen = s.pass.log;
      records = s.records.items;
    }) };
}

impl Stripe {
    /// Whether the vertex belongs to this stripe.
    pub fn has(&self, w: u32) -> bool
        ensures { result ≡ belongs self.now w }
    {
        w % STRIPES == self.number && w < self.vertices
    }

    /// The list of a vertex of this stripe, and after how many entries it was so.
    pub fn get(&self, w: u32) -> (&Neighbours, u32)
        requires { belongs self.now w ≡ true }
        ensures list { result.0.now ≡ (record_of self.now w).neighbours }
        ensures at { result.1 ≡ (record_of self.now w).at }
        ensures is { IsRecord self.now.opened self.now.seen w (record_of self.now w) }
        ensures others { IsListOf self.now.opened.table.shape.fixed w result.0.now }
    {
        let kept = &self.records[(w / STRIPES) as usize];
        (&kept.neighbours, kept.at)
    }

    /// Puts a list of a vertex of this stripe in its record's place, where it is of a later entry; every other record stays, and so does
    /// one that is as late. The stripe's pass takes in what the caller's has seen. It takes no memory.
    pub fn put(&mut self, words: &Words, pass: &mut Pass, w: u32, neighbours: Neighbours, at: u32)
        requires table { (self.old.opened.table ≡ words.now) × (pass.old.table ≡ words.now) }
        requires belongs { belongs self.old w ≡ true }
        requires was { WasList self.old.opened.table self.old.opened.edges pass.old.log (record { vertex = w; at = at; neighbours = neighbours }) }
        ensures pass_table { pass.new.table ≡ pass.old.table }
        ensures pass_log { pass.new.log ≡ pass.old.log }
        ensures number { self.new.number ≡ self.old.number }
        ensures opened { self.new.opened ≡ self.old.opened }
        ensures seen { IsPrefix self.old.seen self.new.seen }
        ensures told { IsPrefix pass.old.log self.new.seen }
        ensures records { self.new.records ≡ with_newer self.old.records (record { vertex = w; at = at; neighbours = neighbours }) }
    {
        let seen = split(words, pass);
        meet(words, &mut self.pass, seen);
        let place = (w / STRIPES) as usize;
        if self.records[place].at < at {
            self.records[place] = UsedEdges {
                vertex: w,
                at,
                neighbours,
            };
        }
    }

    /// What `get` gives, with one holder more. The caller's pass takes in what the stripe's has seen.
    pub(crate) fn hand_out(
        &mut self,
        words: &Words,
        pass: &mut Pass,
        w: u32,
    ) -> Result<(Neighbours, u32), NoMemory>
        requires table { (self.old.opened.table ≡ words.now) × (pass.old.table ≡ words.now) }
        requires belongs { belongs self.old w ≡ true }
        ensures same { self.new ≡ self.old }
        ensures table { pass.new.table ≡ pass.old.table }
        ensures longer { IsPrefix pass.old.log pass.new.log }
        ensures told { IsPrefix self.old.seen pass.new.log }
        ensures list { IfOk result (λ r. r.0 ≡ (record_of self.old w).neighbours) }
        ensures at { IfOk result (λ r. r.1 ≡ (record_of self.old w).at) }
        ensures is { IfOk result (λ r. IsRecord self.old.opened pass.new.log w (record { vertex = w; at = r.1; neighbours = r.0 })) }
        ensures others { IfOk result (λ r. IsListOf self.old.opened.table.shape.fixed w r.0) }
    {
        let seen = split(words, &mut self.pass);
        meet(words, pass, seen);
        let (neighbours, at) = self.get(w);
        Ok((neighbours.share()?, at))
    }
}

/// The stripe of this number, with the lists of a graph.
fn open_stripe(
    alloc: Global,
    words: &Words,
    pass: &mut Pass,
    graph: &SharedGraph,
    at: &Vec<u32>,
    number: u32,
) -> Result<Stripe, NoMemory>
    requires table { pass.old.table ≡ words.now }
    requires size { graph.now.size ≡ words.now.shape.fixed }
    requires one_each { vec_len at.now ≡ graph.now.size }
    requires base { (v : ℕ) → v < graph.now.size → slice_index at.now.items v ≤ words.now.shape.base }
    requires number { number < STRIPES }
    ensures table { pass.new.table ≡ pass.old.table }
    ensures log { pass.new.log ≡ pass.old.log }
    ensures number { IfOk result (λ s. s.number ≡ number) }
    ensures opened { IfOk result (λ s. s.opened ≡ opened_with words.now graph.now at.now.items) }
    ensures seen { IfOk result (λ s. s.seen ≡ pass.old.log) }
    ensures at { IfOk result (λ s. (v : ℕ) → belongs s v ≡ true → (record_of s v).at ≡ slice_index at.now.items v) }
{
    let vertices = graph.vertices();
    let mut records = Vec::new(alloc);
    let mut vertex = number;
    while vertex < vertices {
        records.push(UsedEdges {
            vertex,
            at: at[vertex as usize],
            neighbours: graph.share_neighbours(vertex)?,
        })?;
        vertex += STRIPES;
    }
    Ok(Stripe {
        number,
        vertices,
        edges: Snapshot::of(graph),
        stamps: Snapshot::of(at),
        pass: split(words, pass),
        records,
    })
}

/// The stripes of a table, with the lists of the graph that it opened with, each as old as the number at its vertex's place says: the last
/// entry before the table that changed the vertex's edges, or 0. `NoMemory` comes where there is none for the records.
pub fn open_stripes(
    alloc: Global,
    words: &Words,
    pass: &mut Pass,
    graph: &SharedGraph,
    at: &Vec<u32>,
) -> Result<Vec<Stripe>, NoMemory>
    requires table { pass.old.table ≡ words.now }
    requires size { graph.now.size ≡ words.now.shape.fixed }
    requires one_each { vec_len at.now ≡ graph.now.size }
    requires base { (v : ℕ) → v < graph.now.size → slice_index at.now.items v ≤ words.now.shape.base }
    ensures table { pass.new.table ≡ pass.old.table }
    ensures log { pass.new.log ≡ pass.old.log }
    ensures count { IfOk result (λ r. vec_len r ≡ STRIPES) }
    ensures numbers { IfOk result (λ r. (i : ℕ) (s : Striped) → i < STRIPES → (slice_index_or r.items i s).number ≡ i) }
    ensures opened { IfOk result (λ r. All (λ s. s.opened ≡ opened_with words.now graph.now at.now.items) r.items) }
    ensures seen { IfOk result (λ r. All (λ s. s.seen ≡ pass.old.log) r.items) }
    ensures at { IfOk result (λ r. All (λ s. (v : ℕ) → belongs s v ≡ true → (record_of s v).at ≡ slice_index at.now.items v) r.items) }
{
    let mut stripes = Vec::with_capacity(alloc, STRIPES as usize)?;
    for number in 0..STRIPES {
        stripes.push(open_stripe(alloc, words, pass, graph, at, number)?)?;
    }
    Ok(stripes)
}
