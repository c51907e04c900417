//! Opening the state of a run and nothing else, for a measure of its memory.
ghost use Rattle.std.specs.Prelude.{◌≡◌, ◌≤◌, ◌<◌, ℕ, slice_index};

use anyhow::{Result, bail};
use kc_graph::{Graph, decompose_owned};
use kc_journal::Journal;
use kc_stripes::open_stripes;
use kc_table::{Pass, Words};
use kc_words::VERTICES;

/// Opens the stripes of a journal's table, and writes how much there is of each.
fn report_opened(rt: &HostRuntime, words: &Words, pass: &mut Pass, journal: &Journal) -> Result<()>
    requires table { (pass.old.table ≡ words.now) × (journal.now.levels.table ≡ words.now) }
    requires base { (v : ℕ) → v < journal.now.graph.size → slice_index journal.now.edge_stamps v ≤ words.now.shape.base }
{
    journal.recall_stands();
    let stripes = open_stripes(
        rt.alloc(),
        words,
        pass,
        journal.graph(),
        journal.edge_stamps(),
    )?;
    println!(rt;
        "opened: vertices {}, edges {}, top {}, stripes {}",
        journal.vertices(),
        journal.graph().edges(),
        journal.top(),
        stripes.len()
    )?;
    Ok(())
}

/// Opens the journal of a graph with the stripes of its table, and writes how much there is of each.
pub(crate) fn open_alone(rt: &HostRuntime, graph: Graph) -> Result<()> {
    if graph.vertices() > VERTICES {
        bail!("too many vertices");
    }
    let state = decompose_owned(rt.alloc(), graph)?;
    let (words, journal, mut pass) = Journal::open(rt.alloc(), state, 0)?;
    report_opened(rt, &words, &mut pass, &journal)
}
