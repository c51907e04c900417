//! What is made before anything is written.
ghost use Rattle.std.specs.Prelude.{◌≡◌, ◌++◌, IfErr, IfOk, OnOk, option_map, string_bytes};
ghost use Rattle.std.specs.Io.KnownBytes.{IsAtEnd};
ghost use Rattle.kc_wishes.specs.Requests.{query_of, text_of};
ghost use Rattle.kc_wishes.specs.Wishes.{Asks};
ghost use Rattle.kc_cores.specs.Answers.{summary_line};
ghost use Rattle.kc_cores.specs.CoresEnded.{IsAnswerTo};
ghost use Rattle.kc_cores.specs.Endings.{HasNoFileGraph};
ghost use Rattle.kc_cores.specs.Inputs.{known_bytes};
ghost use Rattle.kc_cores.specs.Listings.{AreReady, made_text};
ghost use Rattle.kc_cores.specs.Sentences.{told_foreign};
ghost use Rattle.kc_cores.specs.Skips.{told_skips};

use crate::ending::Ending;
use crate::input::FileInput;
use crate::labels::Labels;
use crate::listing::listing_of;
use crate::made_lines::MadeLines;
use crate::reading::{NamedGraph, read_graph};
use crate::remarks::told_foreign;
use crate::skips::told_skips;
use crate::summary::summary_line;
use kc_dialect::SkippedLines;
use kc_flat::{Decomposition, FlatGraph, decompose_telling};
use kc_graph::NoMemory;
use kc_head::Foreign;
use kc_lines::page::Page;
use kc_threads::Hands;
use kc_wishes::Request;
use std::alloc::Global;

/// What a run for a task writes and tells.
#[derive(Drop)]
pub(crate) struct Prepared {
    pub(crate) lines: MadeLines,
    /// What is told of the run once it is done.
    pub(crate) told: String,
}

/// What is told of a run that is done: what the text may be that is no lines of a graph, the bad lines that were passed over, and the summary of
/// the graph.
fn told_of(
    alloc: Global,
    file: Option<&str>,
    what: Option<Foreign>,
    skipped: &SkippedLines,
    graph: &FlatGraph,
    core: &[u32],
) -> Result<String, NoMemory>
    ensures { IfOk result (λ told. string_bytes told ≡ told_foreign (option_map (λ t. t.now) file.entry) what
        ++ (told_skips (option_map (λ t. t.now) file.entry) skipped.now.count skipped.now.first.items ++ summary_line graph.now core.now)) }
{
    let remark = told_foreign(alloc, file, what)?;
    let skips = told_skips(alloc, file, skipped)?;
    let summary = summary_line(alloc, graph, core)?;
    format!(in alloc; "{remark}{skips}{summary}")
}

/// Reads the graph of the input, and makes the lines that are asked for. The input is told how far that is.
fn made<H: Hands, I: FileInput>(
    alloc: Global,
    hands: &H,
    request: Request<'_>,
    input: &mut I,
) -> Result<Prepared, Ending>
    ensures ready { IfOk result (λ prepared. AreReady prepared.lines) }
    ensures answer { IfOk result (λ prepared. IsAnswerTo (Asks (query_of request.entry))
        (known_bytes I.left I.behind (query_of request.entry).graph.file input.old) (made_text prepared.lines) (string_bytes prepared.told)) }
    ensures read { OnOk result (IsAtEnd (I.left input.new)) }
    ensures faultless { OnOk result (I.faults input.new ≡ I.faults input.old) }
    ensures stopped { IfErr result (λ ending. HasNoFileGraph ending (text_of request.entry.graph)
        (known_bytes I.left I.behind (query_of request.entry).graph.file input.old) (I.faults input.old) (I.faults input.new)) }
{
    let NamedGraph {
        ids,
        names,
        graph,
        skipped,
        what,
    } = read_graph(alloc, hands, request.graph, input)?;
    let Decomposition { core, order } = decompose_telling(alloc, &graph, input)?;
    let told = told_of(alloc, request.graph.file, what, &skipped, &graph, &core)?;
    let listing = listing_of(alloc, request.task, &graph, &core, order)?;
    let page = Page::new(alloc)?;
    let labels = Labels::new(ids, names);
    let lines = MadeLines {
        format: request.format,
        listing,
        labels,
        core,
        page,
    };
    Ok(Prepared { lines, told })
}

/// Reads the graph of the input, and makes the lines that are asked for. While it does so the input is told how far that is, but for a run
/// that is to tell nothing.
pub(crate) fn prepare<H: Hands, I: FileInput>(
    alloc: Global,
    hands: &H,
    request: Request<'_>,
    input: &mut I,
) -> Result<Prepared, Ending>
    ensures ready { IfOk result (λ prepared. AreReady prepared.lines) }
    ensures answer { IfOk result (λ prepared. IsAnswerTo (Asks (query_of request.entry))
        (known_bytes I.left I.behind (query_of request.entry).graph.file input.old) (made_text prepared.lines) (string_bytes prepared.told)) }
    ensures read { OnOk result (IsAtEnd (I.left input.new)) }
    ensures faultless { OnOk result (I.faults input.new ≡ I.faults input.old) }
    ensures stopped { IfErr result (λ ending. HasNoFileGraph ending (text_of request.entry.graph)
        (known_bytes I.left I.behind (query_of request.entry).graph.file input.old) (I.faults input.old) (I.faults input.new)) }
{
    if !request.quiet {
        input.begin();
    }
    let prepared = made(alloc, hands, request, input);
    input.end();
    prepared
}
