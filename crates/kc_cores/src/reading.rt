//! The graph of an input.
ghost use Rattle.std.specs.FinSet as set;
ghost use Rattle.std.specs.Prelude.{◌≡◌, ◌≤◌, ℕ, List, None, Option, Some, IfErr, IfOk, IfSome, OnOk, length, option_map};
ghost use Rattle.std.specs.Io.KnownBytes.{IsAtEnd};
ghost use Rattle.kc_wishes.specs.Requests.{text_of};
ghost use Rattle.kc_wishes.specs.Wishes.{GraphText};
ghost use Rattle.kc_cores.specs.Endings.{HasNoFileGraph, HasNoGraph};
ghost use Rattle.kc_cores.specs.Inputs.{AreReadFrom, HasFewIds, IsLookedAt, IsNamedGraphOf, known_bytes, text_bytes};

use crate::ending::{Ending, refused, unopened};
use crate::input::FileInput;
use crate::remarks::remark_on;
use kc_dialect::{Dialect, SkippedLines, without_mark};
use kc_dialect_read::{DialectEdges, DialectFault, PlacedRefusal, read_edges_in};
use kc_flat::FlatGraph;
use kc_graph::NoMemory;
use kc_head::{Foreign, HeadFault, read_head, wrong_column};
use kc_io::source::Source;
use kc_names::Names;
use kc_read::{InputFault, read_edges_by};
use kc_text::{Limits, NamedEdges};
use kc_threads::Hands;
use kc_wishes::NamedText;
use std::alloc::Global;

/// A graph, and the ids or names that its vertices stand for.
#[derive(Drop)]
pub(crate) struct NamedGraph {
    /// Ascending: the vertex `i` stands for `ids[i]`.
    pub(crate) ids: Vec<u32>,
    /// The names for which the ids stand, where ids are names.
    pub(crate) names: Option<Names>,
    pub(crate) graph: FlatGraph,
    /// The bad lines that were passed over.
    pub(crate) skipped: SkippedLines,
    /// What the text may be that is no lines of a graph.
    pub(crate) what: Option<Foreign>,
}

/// What is read of the bytes of a text: where it is in no dialect, all but a byte order mark at its front.
fn text_bytes(dialect: Option<Dialect>, bytes: &[u8]) -> &[u8]
    ensures { result.now ≡ text_bytes dialect bytes.now }
{
    match dialect {
        None => without_mark(bytes),
        Some(_) => bytes,
    }
}

/// The head of what the input has left, which is put back: where it is in no dialect, without the byte order mark at its front.
fn look<I: FileInput>(
    alloc: Global,
    dialect: Option<Dialect>,
    input: &mut I,
) -> Result<Vec<u8>, Ending>
    ensures looked { IfOk result (λ head. IsLookedAt dialect (I.left input.old) (I.left input.new) head.items) }
    ensures stopped { (graph : GraphText) → IfErr result (λ ending. HasNoGraph ending graph (I.left input.old) (I.faults input.old) (I.faults input.new)) }
    ensures faultless { OnOk result (I.faults input.new ≡ I.faults input.old) }
{
    match read_head(alloc, input) {
        Err(HeadFault::ReadFault) => Err(Ending::read_fault()),
        Err(HeadFault::NoMemory) => Err(Ending::no_memory()),
        Ok(head) => {
            let text = text_bytes(dialect, &head);
            input.put_back(alloc, text)?;
            Ok(head)
        }
    }
}

/// By how many threads the hands read and make a graph: by as many as they are where that is not said.
fn threads_for<H: Hands>(hands: &H, threads: Option<u32>) -> u32 {
    match threads {
        None => hands.threads(),
        Some(threads) => threads,
    }
}

/// The ids and edges that all bytes of the source tell as they are, behind a byte order mark. The text is not held. Its lines may be read by
/// so many threads; no clause tells who read them.
fn plain_edges<H: Hands, S: Source>(
    alloc: Global,
    hands: &H,
    threads: Option<u32>,
    file: Option<&str>,
    head: &[u8],
    source: &mut S,
) -> Result<DialectEdges, Ending>
    ensures edges { (known : Option (List ℕ)) → IsLookedAt None known (S.left source.old) head.now → IfOk result (AreReadFrom None known) }
    ensures read { OnOk result (IsAtEnd (S.left source.new)) }
    ensures stopped { (known : Option (List ℕ)) → IsLookedAt None known (S.left source.old) head.now
        → IfErr result (λ ending. HasNoGraph ending (record { file = option_map (λ t. t.now) file.entry; dialect = None; threads = threads })
        known (S.faults source.old) (S.faults source.new)) }
    ensures faultless { OnOk result (S.faults source.new ≡ S.faults source.old) }
{
    let most = threads_for(hands, threads);
    match read_edges_by(alloc, hands, most, source, Limits::GRAPH) {
        Ok(named) => Ok(DialectEdges {
            named,
            skipped: SkippedLines {
                count: 0,
                first: Vec::new(alloc),
            },
            names: None,
        }),
        Err(InputFault::ReadFault) => Err(Ending::read_fault()),
        Err(InputFault::Refused(refusal)) => {
            let placed = PlacedRefusal {
                refusal,
                column: wrong_column(head, refusal),
            };
            let text = NamedText {
                file,
                dialect: None,
                threads,
            };
            Err(refused(alloc, text, placed, head))
        }
        Err(InputFault::NoMemory) => Err(Ending::no_memory()),
    }
}

/// The ids and edges that all bytes of the source tell in a dialect, and the bad lines. The text is not held, and one thread reads it.
fn dialect_edges<S: Source>(
    alloc: Global,
    file: Option<&str>,
    dialect: Dialect,
    threads: Option<u32>,
    head: &[u8],
    source: &mut S,
) -> Result<DialectEdges, Ending>
    ensures edges { (known : Option (List ℕ)) → IsLookedAt (Some dialect) known (S.left source.old) head.now
        → IfOk result (AreReadFrom (Some dialect) known) }
    ensures read { OnOk result (IsAtEnd (S.left source.new)) }
    ensures stopped { (known : Option (List ℕ)) → IsLookedAt (Some dialect) known (S.left source.old) head.now
        → IfErr result (λ ending. HasNoGraph ending
        (record { file = option_map (λ t. t.now) file.entry; dialect = Some dialect; threads = threads })
        known (S.faults source.old) (S.faults source.new)) }
    ensures faultless { OnOk result (S.faults source.new ≡ S.faults source.old) }
{
    match read_edges_in(alloc, source, dialect) {
        Ok(found) => Ok(found),
        Err(DialectFault::ReadFault) => Err(Ending::read_fault()),
        Err(DialectFault::Refused(placed)) => {
            let text = NamedText {
                file,
                dialect: Some(dialect),
                threads,
            };
            Err(refused(alloc, text, placed, head))
        }
        Err(DialectFault::NoMemory) => Err(Ending::no_memory()),
    }
}

/// The ids and edges that all bytes of the source tell, whose head was looked at.
fn edges_from<H: Hands, S: Source>(
    alloc: Global,
    hands: &H,
    text: NamedText<'_>,
    head: &[u8],
    source: &mut S,
) -> Result<DialectEdges, Ending>
    ensures edges { (known : Option (List ℕ)) → IsLookedAt text.entry.dialect known (S.left source.old) head.now
        → IfOk result (AreReadFrom text.entry.dialect known) }
    ensures read { OnOk result (IsAtEnd (S.left source.new)) }
    ensures stopped { (known : Option (List ℕ)) → IsLookedAt text.entry.dialect known (S.left source.old) head.now
        → IfErr result (λ ending. HasNoGraph ending (text_of text.entry) known (S.faults source.old) (S.faults source.new)) }
    ensures faultless { OnOk result (S.faults source.new ≡ S.faults source.old) }
{
    match text.dialect {
        None => plain_edges(alloc, hands, text.threads, text.file, head, source),
        Some(dialect) => dialect_edges(alloc, text.file, dialect, text.threads, head, source),
    }
}

/// The graph of what was read, and what the text may be that is no lines of a graph.
fn graph_of<H: Hands>(
    alloc: Global,
    hands: &H,
    threads: Option<u32>,
    what: Option<Foreign>,
    found: DialectEdges,
) -> Result<NamedGraph, NoMemory>
    requires { HasFewIds found.named }
    ensures ids { IfOk result (λ named. named.ids.items ≡ found.named.ids.items) }
    ensures graph { IfOk result (λ named. named.graph ≡ record { size = length found.named.ids.items; edges = set.from_list found.named.edges.items }) }
    ensures names { IfOk result (λ named. named.names ≡ found.names) }
    ensures skipped { IfOk result (λ named. named.skipped ≡ found.skipped) }
    ensures what { IfOk result (λ named. named.what ≡ what) }
{
    let DialectEdges {
        named,
        skipped,
        names,
    } = found;
    let NamedEdges { ids, edges } = named;
    let most = threads_for(hands, threads);
    let graph = hands.make_graph(alloc, most, ids.len() as u32, &edges)?;
    Ok(NamedGraph {
        ids,
        names,
        graph,
        skipped,
        what,
    })
}

/// The graph of all that the source has left, whose head was looked at.
fn graph_behind<H: Hands, S: Source>(
    alloc: Global,
    hands: &H,
    text: NamedText<'_>,
    head: &[u8],
    source: &mut S,
) -> Result<NamedGraph, Ending>
    ensures graph { (known : Option (List ℕ)) → IsLookedAt text.entry.dialect known (S.left source.old) head.now
        → IfOk result (λ named. IsNamedGraphOf text.entry.dialect known named.ids.items named.names named.graph named.skipped named.what) }
    ensures read { OnOk result (IsAtEnd (S.left source.new)) }
    ensures stopped { (known : Option (List ℕ)) → IsLookedAt text.entry.dialect known (S.left source.old) head.now
        → IfErr result (λ ending. HasNoGraph ending (text_of text.entry) known (S.faults source.old) (S.faults source.new)) }
    ensures faultless { OnOk result (S.faults source.new ≡ S.faults source.old) }
{
    let found = edges_from(alloc, hands, text, head, source)?;
    let what = remark_on(text.dialect, head, &found.named);
    Ok(graph_of(alloc, hands, text.threads, what, found)?)
}

/// The graph of all that the input has left.
fn graph_from<H: Hands, I: FileInput>(
    alloc: Global,
    hands: &H,
    text: NamedText<'_>,
    input: &mut I,
) -> Result<NamedGraph, Ending>
    ensures graph { IfOk result (λ named. IsNamedGraphOf text.entry.dialect (I.left input.old) named.ids.items named.names named.graph named.skipped
        named.what) }
    ensures read { OnOk result (IsAtEnd (I.left input.new)) }
    ensures stopped { IfErr result (λ ending. HasNoGraph ending (text_of text.entry) (I.left input.old) (I.faults input.old) (I.faults input.new)) }
    ensures faultless { OnOk result (I.faults input.new ≡ I.faults input.old) }
{
    let head = look(alloc, text.dialect, input)?;
    graph_behind(alloc, hands, text, &head, input)
}

/// Turns to the file, where one is named.
fn turn_to<I: FileInput>(alloc: Global, text: NamedText<'_>, input: &mut I) -> Result<(), Ending>
    ensures turned { OnOk result (I.left input.new ≡ known_bytes I.left I.behind (text_of text.entry).file input.old) }
    ensures stopped { (known : Option (List ℕ)) → IfErr result (λ ending. HasNoFileGraph ending (text_of text.entry) known
        (I.faults input.old) (I.faults input.new)) }
    ensures faultless { OnOk result (I.faults input.new ≡ I.faults input.old) }
{
    let Some(name) = text.file else { return Ok(()) };
    match input.open(name) {
        Ok(()) => Ok(()),
        Err(fault) => Err(unopened(alloc, name, fault)),
    }
}

/// The graph of the text of the file, or of standard input where none is named. The hands read it and make the graph, by as many threads as
/// the text names.
pub(crate) fn read_graph<H: Hands, I: FileInput>(
    alloc: Global,
    hands: &H,
    text: NamedText<'_>,
    input: &mut I,
) -> Result<NamedGraph, Ending>
    ensures graph { IfOk result (λ named. IsNamedGraphOf text.entry.dialect (known_bytes I.left I.behind (text_of text.entry).file input.old)
        named.ids.items named.names named.graph named.skipped named.what) }
    ensures read { OnOk result (IsAtEnd (I.left input.new)) }
    ensures stopped { IfErr result (λ ending. HasNoFileGraph ending (text_of text.entry)
        (known_bytes I.left I.behind (text_of text.entry).file input.old) (I.faults input.old) (I.faults input.new)) }
    ensures faultless { OnOk result (I.faults input.new ≡ I.faults input.old) }
{
    turn_to(alloc, text, input)?;
    graph_from(alloc, hands, text, input)
}
