//! The graph of the start: its keeper, and its line.
ghost use Rattle.std.specs.Prelude.{◌≡◌, ◌≤◌, ◌++◌, All, IfOk, OnErr, OnOk, length};
ghost use Rattle.kc_graph.specs.Growing.{with_vertices};
ghost use Rattle.kc_words.specs.declared.layout.TheConstants.{VERTICES};
ghost use Rattle.kc_reply.specs.Facts as fact;
ghost use Rattle.kc_reply.specs.Texts.{fact_text};
ghost use Rattle.kc_stream.specs.Gathering.{IsPairBelow};
ghost use Rattle.kc_watch.specs.Text.{start_line};
ghost use Rattle.kc_watch.specs.Watching.{graph_gathered};

use crate::NoMemory;
use crate::batch::with_spare;
use crate::roomy::RoomyKeeper;
use kc_graph::{Graph, Lawful, decompose_owned};
use kc_reply::{ReplyFormat, ReplyLine, put_reply_line};
use kc_report::Line;
use kc_stream::Gathered;
use std::alloc::Global;

/// The graph of the start has a spare vertex for so many that it needs. So a stream that names few new ids behind it never has to grow.
const IDS_FOR_A_SPARE_VERTEX: u32 = 16;

/// The graph of the edges that were gathered, with its core numbers, and with spare vertices behind those that the ids stand for.
fn graph_of(alloc: Global, gathered: &Gathered) -> Result<Lawful, NoMemory>
    requires { All (IsPairBelow (length gathered.now.ids)) gathered.now.edges.items }
    ensures fits { IfOk result (λ lawful. length gathered.now.ids ≤ lawful.graph.size) }
    ensures few { IfOk result (λ lawful. lawful.graph.size ≤ VERTICES) }
    ensures graph { IfOk result (λ lawful. with_vertices (length gathered.now.ids) lawful.graph ≡ graph_gathered gathered.now) }
{
    let vertices = with_spare(gathered.ids().count(), IDS_FOR_A_SPARE_VERTEX);
    let graph = Graph::from_pairs(alloc, vertices, gathered.edges())?;
    decompose_owned(alloc, graph)
}

/// Ends the start: keeps the graph of the edges that were gathered, and puts its line. Where there is no memory, nothing is put.
pub(crate) fn end_start(
    alloc: Global,
    gathered: &Gathered,
    format: ReplyFormat,
    out: &mut Vec<u8>,
) -> Result<RoomyKeeper, NoMemory>
    requires { All (IsPairBelow (length gathered.now.ids)) gathered.now.edges.items }
    ensures kept { IfOk result (λ keeper. keeper.graph ≡ graph_gathered gathered.now) }
    ensures put { OnOk result (out.new.items ≡ out.old.items ++ fact_text format (fact.Summary (start_line (graph_gathered gathered.now)))) }
    ensures err { OnErr result (out.new.items ≡ out.old.items) }
{
    let lawful = graph_of(alloc, gathered)?;
    let vertices = gathered.ids().count();
    let keeper = RoomyKeeper::open(alloc, lawful, vertices)?;
    let line = Line::Graph {
        vertices,
        edges: keeper.edges(),
        top: keeper.top(),
    };
    put_reply_line(out, format, ReplyLine::Summary(line))?;
    Ok(keeper)
}
