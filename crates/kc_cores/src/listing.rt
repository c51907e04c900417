//! What is written for a task: lines that are put by their places, so that no list of them is made.
ghost use Rattle.std.specs.Prelude.{◌≡◌, ◌<◌, ◌≤◌, ℕ, List, [], IfOk, OnErr, OnOk, length, take};
ghost use Rattle.std.specs.Io.KnownBytes.{Appends};
ghost use Rattle.kc_io.specs.Causes.{HasCause};
ghost use Rattle.kc_graph.specs.Certificate.{Certifies};
ghost use Rattle.kc_graph.specs.Core.{AreCoreNumbers};
ghost use Rattle.kc_tally.specs.Layers.{AreLayers};
ghost use Rattle.kc_lines.specs.Fields.{Label};
ghost use Rattle.kc_lines.specs.declared.format.Format.{Format};
ghost use Rattle.kc_cores.specs.Answers.{AreLinesFor, level_of};
ghost use Rattle.kc_cores.specs.Listings.{Fits, edge_line_in, layer_line_in, line_at, listing_lines, member_line_in};
ghost use Rattle.kc_cores.specs.Listings.{places, size_line_in, vertex_line};
ghost use Rattle.kc_lines.specs.Pages.{PassesOn, PassesPart};

use crate::lines::{
    put_counts_line, put_edge_line, put_layer_line, put_member_line, put_number_line,
};
use crate::sizes::{CoreSizes, sizes_of};
use crate::summary::greatest;
use crate::vertices::Vertices;
use kc_flat::FlatGraph;
use kc_graph::{Graph, NoMemory};
use kc_io::Failed;
use kc_io::sink::Sink;
use kc_lines::format::Format;
use kc_lines::page::Page;
use kc_tally::layers;
use kc_wishes::Task;
use std::alloc::Global;

/// What the lines of a task need beside the labels and the core numbers.
#[derive(Drop)]
pub(crate) enum Listing {
    /// For each vertex its id and its core number.
    Numbers,
    /// For each k up to the greatest core number k, and the three counts.
    Sizes(CoreSizes),
    /// For each vertex of the k-core its id.
    Members(u32),
    /// For each of these edges that is one of the k-core the ids of its ends.
    Edges(u32, Vec<(u32, u32)>),
    /// For each vertex its id, its core number and its layer.
    Layers(Vec<u32>),
    /// For each of these vertices its id and its core number.
    Order(Vec<u32>),
}

impl Listing {
    /// How many places there are for lines, in a graph with so many vertices.
    fn places(&self, vertices: usize) -> usize
        ensures { result ≡ places self.now vertices }
    {
        match self {
            Listing::Numbers | Listing::Members(_) | Listing::Layers(_) => vertices,
            Listing::Sizes(sizes) => sizes.shells.len(),
            Listing::Edges(_, edges) => edges.len(),
            Listing::Order(order) => order.len(),
        }
    }
}

/// The k of the k-core that is asked for.
fn level_of(level: Option<u32>, core: &[u32]) -> u32
    ensures { result ≡ level_of level core.now }
{
    match level {
        Some(k) => k,
        None => greatest(core),
    }
}

/// The layer of each vertex.
fn layers_of(alloc: Global, graph: &FlatGraph, core: &[u32]) -> Result<Vec<u32>, NoMemory>
    requires { AreCoreNumbers graph.now core.now }
    ensures { IfOk result (λ layer. AreLayers graph.now core.now layer.items) }
{
    let edges = graph.edge_list(alloc)?;
    let rows = Graph::from_pairs(alloc, graph.vertices(), &edges)?;
    layers(alloc, &rows, core)
}

/// The listing for a task on a graph with these core numbers, which the order certifies. `NoMemory` comes where there is none for what its
/// lines need: counts for each core number, the edges, or the layers.
pub(crate) fn listing_of(
    alloc: Global,
    task: Task,
    graph: &FlatGraph,
    core: &[u32],
    order: Vec<u32>,
) -> Result<Listing, NoMemory>
    requires { Certifies graph.now core.now order.items }
    ensures fits { IfOk result (λ listing. Fits graph.now.size listing) }
    ensures lines { IfOk result (λ listing. (format : Format) (labels : List Label) → length labels ≡ graph.now.size
        → AreLinesFor format task labels graph.now core.now (listing_lines format listing labels core.now)) }
{
    match task {
        Task::Numbers => Ok(Listing::Numbers),
        Task::Sizes => Ok(Listing::Sizes(sizes_of(alloc, graph, core)?)),
        Task::Members(level) => Ok(Listing::Members(level_of(level, core))),
        Task::Edges(level) => {
            let edges = graph.edge_list(alloc)?;
            Ok(Listing::Edges(level_of(level, core), edges))
        }
        Task::Layers => Ok(Listing::Layers(layers_of(alloc, graph, core)?)),
        Task::Order => Ok(Listing::Order(order)),
    }
}

/// Puts the line of a vertex.
fn put_vertex<O: Sink>(
    page: &mut Page,
    out: &mut O,
    format: Format,
    vertices: &Vertices<'_>,
    v: usize,
) -> Result<(), Failed>
    requires same { length vertices.now.labels.now ≡ length vertices.now.core.now }
    requires within { v < length vertices.now.labels.now }
    ensures passes { OnOk result (PassesOn (O.taken out.old) (O.taken out.new) page.old page.new
        (vertex_line format vertices.now.labels.now vertices.now.core.now v)) }
    ensures part { OnErr result (PassesPart (O.taken out.old) (O.taken out.new) page.old
        (vertex_line format vertices.now.labels.now vertices.now.core.now v)) }
    ensures cause { HasCause (O.faults out.old) (O.faults out.new) result }
{
    put_number_line(
        page,
        out,
        format,
        vertices.labels.get(v),
        u64::from(vertices.core[v]),
    )
}

/// Puts the line of a level.
fn put_size<O: Sink>(
    page: &mut Page,
    out: &mut O,
    format: Format,
    sizes: &CoreSizes,
    level: usize,
) -> Result<(), Failed>
    requires fits { (length sizes.now.vertices.items ≡ length sizes.now.shells.items) × (length sizes.now.edges.items ≡ length sizes.now.shells.items) }
    requires within { level < length sizes.now.shells.items }
    ensures passes { OnOk result (PassesOn (O.taken out.old) (O.taken out.new) page.old page.new (size_line_in format sizes.now level)) }
    ensures part { OnErr result (PassesPart (O.taken out.old) (O.taken out.new) page.old (size_line_in format sizes.now level)) }
    ensures cause { HasCause (O.faults out.old) (O.faults out.new) result }
{
    let counts = (
        level as u64,
        sizes.shells[level],
        sizes.vertices[level],
        sizes.edges[level],
    );
    put_counts_line(page, out, format, counts)
}

/// Puts the id of a vertex, where it is in the k-core.
fn put_member<O: Sink>(
    page: &mut Page,
    out: &mut O,
    format: Format,
    least: u32,
    vertices: &Vertices<'_>,
    v: usize,
) -> Result<(), Failed>
    requires same { length vertices.now.labels.now ≡ length vertices.now.core.now }
    requires within { v < length vertices.now.labels.now }
    ensures passes { OnOk result (PassesOn (O.taken out.old) (O.taken out.new) page.old page.new
        (member_line_in format least vertices.now.labels.now vertices.now.core.now v)) }
    ensures part { OnErr result (PassesPart (O.taken out.old) (O.taken out.new) page.old
        (member_line_in format least vertices.now.labels.now vertices.now.core.now v)) }
    ensures cause { HasCause (O.faults out.old) (O.faults out.new) result }
{
    if least <= vertices.core[v] {
        put_member_line(page, out, format, vertices.labels.get(v))
    } else {
        Ok(())
    }
}

/// Puts the ids of the ends of an edge, where both are in the k-core.
fn put_edge<O: Sink>(
    page: &mut Page,
    out: &mut O,
    format: Format,
    least: u32,
    vertices: &Vertices<'_>,
    edge: (u32, u32),
) -> Result<(), Failed>
    requires same { length vertices.now.labels.now ≡ length vertices.now.core.now }
    requires first { edge.0 < length vertices.now.labels.now }
    requires second { edge.1 < length vertices.now.labels.now }
    ensures passes { OnOk result (PassesOn (O.taken out.old) (O.taken out.new) page.old page.new
        (edge_line_in format least vertices.now.labels.now vertices.now.core.now edge)) }
    ensures part { OnErr result (PassesPart (O.taken out.old) (O.taken out.new) page.old
        (edge_line_in format least vertices.now.labels.now vertices.now.core.now edge)) }
    ensures cause { HasCause (O.faults out.old) (O.faults out.new) result }
{
    let (u, v) = edge;
    if least <= vertices.core[u as usize] && least <= vertices.core[v as usize] {
        put_edge_line(
            page,
            out,
            format,
            vertices.labels.get(u as usize),
            vertices.labels.get(v as usize),
        )
    } else {
        Ok(())
    }
}

/// Puts the line of a vertex and its layer.
fn put_layer<O: Sink>(
    page: &mut Page,
    out: &mut O,
    format: Format,
    vertices: &Vertices<'_>,
    layer: &[u32],
    v: usize,
) -> Result<(), Failed>
    requires same { length vertices.now.labels.now ≡ length vertices.now.core.now }
    requires one_each { length layer.now ≡ length vertices.now.core.now }
    requires within { v < length vertices.now.labels.now }
    ensures passes { OnOk result (PassesOn (O.taken out.old) (O.taken out.new) page.old page.new
        (layer_line_in format vertices.now.labels.now vertices.now.core.now layer.now v)) }
    ensures part { OnErr result (PassesPart (O.taken out.old) (O.taken out.new) page.old
        (layer_line_in format vertices.now.labels.now vertices.now.core.now layer.now v)) }
    ensures cause { HasCause (O.faults out.old) (O.faults out.new) result }
{
    put_layer_line(
        page,
        out,
        format,
        vertices.labels.get(v),
        u64::from(vertices.core[v]),
        u64::from(layer[v]),
    )
}

/// Puts the line at a place, if there is one.
fn put_at<O: Sink>(
    page: &mut Page,
    out: &mut O,
    format: Format,
    listing: &Listing,
    vertices: &Vertices<'_>,
    place: usize,
) -> Result<(), Failed>
    requires same { length vertices.now.labels.now ≡ length vertices.now.core.now }
    requires fits { Fits (length vertices.now.labels.now) listing.now }
    requires within { place < places listing.now (length vertices.now.labels.now) }
    ensures passes { OnOk result (PassesOn (O.taken out.old) (O.taken out.new) page.old page.new
        (line_at format listing.now vertices.now.labels.now vertices.now.core.now place)) }
    ensures part { OnErr result (PassesPart (O.taken out.old) (O.taken out.new) page.old
        (line_at format listing.now vertices.now.labels.now vertices.now.core.now place)) }
    ensures cause { HasCause (O.faults out.old) (O.faults out.new) result }
{
    match listing {
        Listing::Numbers => put_vertex(page, out, format, vertices, place),
        Listing::Sizes(sizes) => put_size(page, out, format, sizes, place),
        Listing::Members(least) => put_member(page, out, format, *least, vertices, place),
        Listing::Edges(least, edges) => {
            put_edge(page, out, format, *least, vertices, edges[place])
        }
        Listing::Layers(layer) => put_layer(page, out, format, vertices, layer, place),
        Listing::Order(order) => put_vertex(page, out, format, vertices, order[place] as usize),
    }
}

/// Puts all lines.
fn put_lines<O: Sink>(
    page: &mut Page,
    out: &mut O,
    format: Format,
    listing: &Listing,
    vertices: &Vertices<'_>,
) -> Result<(), Failed>
    requires same { length vertices.now.labels.now ≡ length vertices.now.core.now }
    requires fits { Fits (length vertices.now.labels.now) listing.now }
    ensures passes { OnOk result (PassesOn (O.taken out.old) (O.taken out.new) page.old page.new
        (listing_lines format listing.now vertices.now.labels.now vertices.now.core.now)) }
    ensures part { OnErr result (PassesPart (O.taken out.old) (O.taken out.new) page.old
        (listing_lines format listing.now vertices.now.labels.now vertices.now.core.now)) }
    ensures cause { HasCause (O.faults out.old) (O.faults out.new) result }
{
    for place in 0..listing.places(vertices.labels.len()) {
        put_at(page, out, format, listing, vertices, place)?;
    }
    Ok(())
}

/// Writes all lines, behind what is gathered already: nothing.
pub(crate) fn write_lines<O: Sink>(
    mut page: Page,
    out: &mut O,
    format: Format,
    listing: &Listing,
    vertices: &Vertices<'_>,
) -> Result<(), Failed>
    requires same { length vertices.now.labels.now ≡ length vertices.now.core.now }
    requires fits { Fits (length vertices.now.labels.now) listing.now }
    requires empty { page ≡ [] }
    ensures whole { OnOk result (Appends (O.taken out.old) (O.taken out.new)
        (listing_lines format listing.now vertices.now.labels.now vertices.now.core.now)) }
    ensures prefix { OnErr result ((n : ℕ) × (n ≤ length (listing_lines format listing.now vertices.now.labels.now vertices.now.core.now))
        × Appends (O.taken out.old) (O.taken out.new) (take n (listing_lines format listing.now vertices.now.labels.now vertices.now.core.now))) }
    ensures cause { HasCause (O.faults out.old) (O.faults out.new) result }
{
    put_lines(&mut page, out, format, listing, vertices)?;
    page.write(out)
}
