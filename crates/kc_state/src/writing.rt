//! Writes the text of a kept state.
ghost use Rattle.std.specs.Prelude.{◌≡◌, ◌≤◌, ◌<◌, ℕ, [], All, OnErr, OnOk, length, take};
ghost use Rattle.std.specs.Io.KnownBytes.{Appends};
ghost use Rattle.kc_io.specs.Causes.{HasCause};
ghost use Rattle.kc_lines.specs.Pages.{PassesOn, PassesPart};
ghost use Rattle.kc_state.specs.SummedPages.{HasPut};
ghost use Rattle.kc_state.specs.Texts.{body_text, counts_text, edges_text, greater_line, head_text, lines_to_greater, rows_text, sizes_text, state_text};
ghost use Rattle.kc_state.specs.Texts.{vertex_text, vertices_text};

use crate::FORMAT_VERSION;
use crate::summed_page::SummedPage;
use kc_graph::{Graph, Lawful};
use kc_io::Failed;
use kc_io::sink::Sink;
use kc_lines::page::Page;

/// Puts the line of a vertex.
fn put_vertex<O: Sink>(
    summed: &mut SummedPage,
    out: &mut O,
    ids: &[u32],
    lawful: &Lawful,
    v: u32,
) -> Result<(), Failed>
    requires one_each { length ids.now ≡ lawful.now.graph.size }
    requires vertex { v < lawful.now.graph.size }
    ensures put { OnOk result (HasPut (O.taken out.old) (O.taken out.new) summed.old summed.new (vertex_text ids.now lawful.now v)) }
    ensures part { OnErr result (PassesPart (O.taken out.old) (O.taken out.new) summed.old.page (vertex_text ids.now lawful.now v)) }
    ensures cause { HasCause (O.faults out.old) (O.faults out.new) result }
{
    summed.put_number(out, u64::from(ids[v as usize]), b' ')?;
    let number = lawful.core()[v as usize];
    summed.put_pair(out, u64::from(number), u64::from(lawful.place(v)))
}

/// Puts the lines of all vertices.
fn put_vertices<O: Sink>(
    summed: &mut SummedPage,
    out: &mut O,
    ids: &[u32],
    lawful: &Lawful,
) -> Result<(), Failed>
    requires one_each { length ids.now ≡ lawful.now.graph.size }
    ensures put { OnOk result (HasPut (O.taken out.old) (O.taken out.new) summed.old summed.new (vertices_text ids.now lawful.now)) }
    ensures part { OnErr result (PassesPart (O.taken out.old) (O.taken out.new) summed.old.page (vertices_text ids.now lawful.now)) }
    ensures cause { HasCause (O.faults out.old) (O.faults out.new) result }
{
    for v in 0..lawful.graph().vertices() {
        put_vertex(summed, out, ids, lawful, v)?;
    }
    Ok(())
}

/// Puts the line of the edge between two vertices, where the second is the greater one.
fn put_greater<O: Sink>(
    summed: &mut SummedPage,
    out: &mut O,
    ids: &[u32],
    v: u32,
    w: u32,
) -> Result<(), Failed>
    requires first { v < length ids.now }
    requires second { w < length ids.now }
    ensures put { OnOk result (HasPut (O.taken out.old) (O.taken out.new) summed.old summed.new (greater_line ids.now v w)) }
    ensures part { OnErr result (PassesPart (O.taken out.old) (O.taken out.new) summed.old.page (greater_line ids.now v w)) }
    ensures cause { HasCause (O.faults out.old) (O.faults out.new) result }
{
    if v < w {
        let (first, second) = (ids[v as usize], ids[w as usize]);
        summed.put_pair(out, u64::from(first), u64::from(second))
    } else {
        Ok(())
    }
}

/// Puts the lines of the edges between a vertex and those of its neighbours that are greater.
fn put_all_greater<O: Sink>(
    summed: &mut SummedPage,
    out: &mut O,
    ids: &[u32],
    v: u32,
    neighbours: &[u32],
) -> Result<(), Failed>
    requires first { v < length ids.now }
    requires others { All (λ w. w < length ids.now) neighbours.now }
    ensures put { OnOk result (HasPut (O.taken out.old) (O.taken out.new) summed.old summed.new (lines_to_greater ids.now v neighbours.now)) }
    ensures part { OnErr result (PassesPart (O.taken out.old) (O.taken out.new) summed.old.page (lines_to_greater ids.now v neighbours.now)) }
    ensures cause { HasCause (O.faults out.old) (O.faults out.new) result }
{
    for w in neighbours {
        put_greater(summed, out, ids, v, *w)?;
    }
    Ok(())
}

/// Puts the lines of all edges.
fn put_edges<O: Sink>(
    summed: &mut SummedPage,
    out: &mut O,
    ids: &[u32],
    graph: &Graph,
) -> Result<(), Failed>
    requires one_each { length ids.now ≡ graph.now.size }
    ensures put { OnOk result (HasPut (O.taken out.old) (O.taken out.new) summed.old summed.new (edges_text ids.now graph.now)) }
    ensures part { OnErr result (PassesPart (O.taken out.old) (O.taken out.new) summed.old.page (edges_text ids.now graph.now)) }
    ensures cause { HasCause (O.faults out.old) (O.faults out.new) result }
{
    for v in 0..graph.vertices() {
        put_all_greater(summed, out, ids, v, graph.neighbours(v))?;
    }
    Ok(())
}

/// Puts the lines of the vertices and then of the edges.
fn put_rows<O: Sink>(
    summed: &mut SummedPage,
    out: &mut O,
    ids: &[u32],
    lawful: &Lawful,
) -> Result<(), Failed>
    requires one_each { length ids.now ≡ lawful.now.graph.size }
    ensures put { OnOk result (HasPut (O.taken out.old) (O.taken out.new) summed.old summed.new (rows_text ids.now lawful.now)) }
    ensures part { OnErr result (PassesPart (O.taken out.old) (O.taken out.new) summed.old.page (rows_text ids.now lawful.now)) }
    ensures cause { HasCause (O.faults out.old) (O.faults out.new) result }
{
    put_vertices(summed, out, ids, lawful)?;
    put_edges(summed, out, ids, lawful.graph())
}

/// Puts how many vertices and edges there are.
fn put_sizes<O: Sink>(summed: &mut SummedPage, out: &mut O, graph: &Graph) -> Result<(), Failed>
    ensures put { OnOk result (HasPut (O.taken out.old) (O.taken out.new) summed.old summed.new (sizes_text graph.now)) }
    ensures part { OnErr result (PassesPart (O.taken out.old) (O.taken out.new) summed.old.page (sizes_text graph.now)) }
    ensures cause { HasCause (O.faults out.old) (O.faults out.new) result }
{
    summed.put_named(out, "vertices ", u64::from(graph.vertices()))?;
    summed.put_named(out, "edges ", graph.edges())
}

/// Puts how many batches have ended, and how many vertices and edges there are.
fn put_counts<O: Sink>(
    summed: &mut SummedPage,
    out: &mut O,
    batches: u64,
    graph: &Graph,
) -> Result<(), Failed>
    ensures put { OnOk result (HasPut (O.taken out.old) (O.taken out.new) summed.old summed.new (counts_text batches graph.now)) }
    ensures part { OnErr result (PassesPart (O.taken out.old) (O.taken out.new) summed.old.page (counts_text batches graph.now)) }
    ensures cause { HasCause (O.faults out.old) (O.faults out.new) result }
{
    summed.put_named(out, "batches ", batches)?;
    put_sizes(summed, out, graph)
}

/// Puts the first lines.
fn put_head<O: Sink>(
    summed: &mut SummedPage,
    out: &mut O,
    batches: u64,
    graph: &Graph,
) -> Result<(), Failed>
    ensures put { OnOk result (HasPut (O.taken out.old) (O.taken out.new) summed.old summed.new (head_text batches graph.now)) }
    ensures part { OnErr result (PassesPart (O.taken out.old) (O.taken out.new) summed.old.page (head_text batches graph.now)) }
    ensures cause { HasCause (O.faults out.old) (O.faults out.new) result }
{
    summed.put_named(out, "kcore-state ", FORMAT_VERSION)?;
    put_counts(summed, out, batches, graph)
}

/// Puts all lines but the last.
fn put_body<O: Sink>(
    summed: &mut SummedPage,
    out: &mut O,
    batches: u64,
    ids: &[u32],
    lawful: &Lawful,
) -> Result<(), Failed>
    requires one_each { length ids.now ≡ lawful.now.graph.size }
    ensures put { OnOk result (HasPut (O.taken out.old) (O.taken out.new) summed.old summed.new
        (body_text (record { batches = batches; ids = ids.now; ranked = lawful.now }))) }
    ensures part { OnErr result (PassesPart (O.taken out.old) (O.taken out.new) summed.old.page
        (body_text (record { batches = batches; ids = ids.now; ranked = lawful.now }))) }
    ensures cause { HasCause (O.faults out.old) (O.faults out.new) result }
{
    put_head(summed, out, batches, lawful.graph())?;
    put_rows(summed, out, ids, lawful)
}

/// Puts all lines.
fn put_state<O: Sink>(
    summed: &mut SummedPage,
    out: &mut O,
    batches: u64,
    ids: &[u32],
    lawful: &Lawful,
) -> Result<(), Failed>
    requires nothing { summed.old.sum ≡ 0 }
    requires one_each { length ids.now ≡ lawful.now.graph.size }
    ensures passes { OnOk result (PassesOn (O.taken out.old) (O.taken out.new) summed.old.page summed.new.page
        (state_text (record { batches = batches; ids = ids.now; ranked = lawful.now }))) }
    ensures part { OnErr result (PassesPart (O.taken out.old) (O.taken out.new) summed.old.page
        (state_text (record { batches = batches; ids = ids.now; ranked = lawful.now }))) }
    ensures cause { HasCause (O.faults out.old) (O.faults out.new) result }
{
    put_body(summed, out, batches, ids, lawful)?;
    let sum = summed.sum;
    summed.put_named(out, "sum ", sum)
}

/// Writes the text of a state: how many batches have ended, the id of each vertex, and the graph with its core numbers and its order. Nothing
/// is on the page yet. It takes no memory, and its time is linear.
///
/// `Failed` comes only where a call of the sink failed: then a prefix of the text was taken.
pub fn write_state<O: Sink>(
    page: Page,
    out: &mut O,
    batches: u64,
    ids: &[u32],
    lawful: &Lawful,
) -> Result<(), Failed>
    requires empty { page ≡ [] }
    requires one_each { length ids.now ≡ lawful.now.graph.size }
    ensures whole { OnOk result (Appends (O.taken out.old) (O.taken out.new)
        (state_text (record { batches = batches; ids = ids.now; ranked = lawful.now }))) }
    ensures prefix { OnErr result (let text = state_text (record { batches = batches; ids = ids.now; ranked = lawful.now }) in
        (n : ℕ) × (n ≤ length text) × Appends (O.taken out.old) (O.taken out.new) (take n text)) }
    ensures cause { HasCause (O.faults out.old) (O.faults out.new) result }
{
    let mut summed = SummedPage::new(page);
    put_state(&mut summed, out, batches, ids, lawful)?;
    summed.page.write(out)
}
