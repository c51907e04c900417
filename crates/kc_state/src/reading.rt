//! Reads a state from its text.
ghost use Rattle.std.specs.Prelude.{◌≡◌, ◌≤◌, ◌<◌, ◌^◌, [], All, IfOk, OnOk, length};
ghost use Rattle.kc_lists.specs.Lists.{Distinct};
ghost use Rattle.kc_graph.specs.Core.{AreCoreNumbers};
ghost use Rattle.kc_words.specs.declared.layout.TheConstants.{VERTICES};
ghost use Rattle.kc_state.specs.Reading.{parts_of_state};
ghost use Rattle.kc_state.specs.OneState.{AreSame, IsKeptState};
ghost use Rattle.kc_state.specs.Texts.{KeptParts, state_text};

use crate::comparing::Comparing;
use crate::edges::read_edges;
use crate::fault::{ReadFault, StateFault, StateKind};
use crate::kept_state::KeptState;
use crate::state_line::number_behind;
use crate::summed_page::sum_from;
use crate::text_lines::TextLines;
use crate::vertices::{ToldVertices, read_vertices};
use crate::writing::write_state;
use crate::{FORMAT_VERSION, NoMemory};
use kc_cert::check;
use kc_graph::{Graph, Lawful};
use kc_lines::page::Page;
use kc_words::VERTICES;
use std::alloc::Global;

/// What the first line begins with.
const NAME: &[u8] = b"kcore-state ";

/// The counts of the first lines.
#[derive(Clone, Copy)]
struct StateCounts {
    batches: u64,
    vertices: u32,
    edges: u64,
}

/// Reads the first line.
fn read_name(lines: &mut TextLines) -> Result<(), ReadFault>
    ensures { length lines.new.rest.now ≤ length lines.old.rest.now }
{
    if !lines.rest.starts_with(NAME) && !NAME.starts_with(lines.rest) {
        return Err(ReadFault::Faulty(StateFault {
            line: 1,
            kind: StateKind::NotAState,
        }));
    }
    match number_behind(NAME, lines.next_line()?) {
        Some(version) if version == FORMAT_VERSION => Ok(()),
        _ => Err(lines.fault(StateKind::OtherVersion)),
    }
}

/// Reads the counts.
fn read_counts(lines: &mut TextLines) -> Result<StateCounts, ReadFault>
    ensures shorter { length lines.new.rest.now ≤ length lines.old.rest.now }
    ensures few { IfOk result (λ counts. counts.vertices ≤ VERTICES) }
{
    let batches = lines.next_count(b"batches ")?;
    let vertices = lines.next_count(b"vertices ")?;
    if vertices > u64::from(VERTICES) {
        return Err(lines.fault(StateKind::TooManyVertices));
    }
    let edges = lines.next_count(b"edges ")?;
    Ok(StateCounts {
        batches,
        vertices: vertices as u32,
        edges,
    })
}

/// Reads the last line, which is to tell the check sum of the text before it.
fn read_sum(text: &[u8], lines: &mut TextLines) -> Result<(), ReadFault>
    requires { length lines.old.rest.now ≤ length text.now }
{
    let before = &text[..text.len() - lines.rest.len()];
    let line = lines.next_line()?;
    let Some(sum) = number_behind(b"sum ", line) else {
        return Err(lines.fault(StateKind::NotTheEnd));
    };
    if sum != sum_from(0, before) {
        return Err(lines.fault(StateKind::WrongSum));
    }
    if lines.rest.is_empty() {
        return Ok(());
    }
    let _next = lines.next_line();
    Err(lines.fault(StateKind::TextBehind))
}

/// What the lines have told, before it is looked at whether the order certifies the core numbers.
#[derive(Drop)]
struct ToldState {
    batches: u64,
    vertices: ToldVertices,
    edges: Vec<(u32, u32)>,
}

/// Reads all lines.
fn read_told(alloc: Global, text: &[u8]) -> Result<ToldState, ReadFault>
    ensures ends { IfOk result (λ told. All (λ e. (e.0 < e.1) × (e.1 < length told.vertices.ids)) told.edges.items) }
    ensures once { IfOk result (λ told. Distinct told.vertices.ids) }
{
    let mut lines = TextLines::new(text);
    read_name(&mut lines)?;
    let counts = read_counts(&mut lines)?;
    let vertices = read_vertices(alloc, &mut lines, counts.vertices)?;
    let edges = read_edges(alloc, &mut lines, &vertices.ids, counts.edges)?;
    read_sum(text, &mut lines)?;
    Ok(ToldState {
        batches: counts.batches,
        vertices,
        edges,
    })
}

/// The state that was told, where the order certifies the core numbers.
fn certify(alloc: Global, told: ToldState) -> Result<KeptState, ReadFault>
    requires ends { All (λ e. (e.0 < e.1) × (e.1 < length told.vertices.ids)) told.edges.items }
    requires once { Distinct told.vertices.ids }
    ensures one_id_each { IfOk result (λ state. length state.ids ≡ state.lawful.graph.size) }
    ensures once { IfOk result (λ state. Distinct state.ids) }
{
    let ToldState {
        batches,
        vertices,
        edges,
    } = told;
    let ToldVertices { ids, core, order } = vertices;
    let graph = Graph::from_pairs(alloc, ids.count(), &edges)?;
    if !check(alloc, &graph, &core, &order)? {
        return Err(ReadFault::Faulty(StateFault {
            line: u64::from(ids.count()) + 4,
            kind: StateKind::NotCertified,
        }));
    }
    let lawful = Lawful::new(alloc, graph, core, order)?;
    Ok(KeptState {
        batches,
        ids,
        lawful,
    })
}

/// The number of the line that ends a text, from 1: that of what would stand behind it.
fn line_behind(text: &[u8]) -> u64 {
    let mut line = 1u64;
    for byte in text {
        if *byte == b'\n' {
            line = line.saturating_add(1);
        }
    }
    line
}

/// Whether a text is that of a state; else the first line that is not as it is written.
fn compare(page: Page, state: &KeptState, text: &[u8]) -> Result<(), StateFault>
    requires empty { page ≡ [] }
    requires one_id_each { length state.now.ids ≡ state.now.lawful.graph.size }
    ensures { OnOk result (text.now ≡ state_text (parts_of_state state.now)) }
{
    let mut sink = Comparing::new(text);
    let written = write_state(
        page,
        &mut sink,
        state.batches,
        state.ids.names(),
        &state.lawful,
    );
    if written.is_ok() && sink.taken() == text {
        return Ok(());
    }
    Err(StateFault {
        line: line_behind(sink.taken()),
        kind: StateKind::OtherForm,
    })
}

/// Numbers fit their type.
fn all_fit(numbers: &[u32])
    ensures { All (λ number. number < 2 ^ 32) numbers.now }
{}

/// Counts fit their types.
fn counts_fit(batches: u64, vertices: u32, edges: u64)
    ensures batches { batches < 2 ^ 64 }
    ensures vertices { vertices < 2 ^ 32 }
    ensures edges { edges < 2 ^ 64 }
{}

/// What a state is made of fits its types, which shows where it is looked at.
fn look(state: &KeptState)
    requires one_id_each { length state.now.ids ≡ state.now.lawful.graph.size }
    requires once { Distinct state.now.ids }
    ensures kept { IsKeptState (parts_of_state state.now) }
    ensures few { length state.now.ids ≤ VERTICES }
{
    let _count = state.ids.count();
    all_fit(state.ids.names());
    all_fit(state.lawful.core());
    counts_fit(
        state.batches,
        state.lawful.graph().vertices(),
        state.lawful.graph().edges(),
    );
}

/// The state that a text tells. The text is just that which [`write_state`] writes of this state, and of no other. The order certifies the core
/// numbers.
///
/// `Faulty` tells the first line that is wrong: it is none of the lines of a state, or tells an id, a place or an edge that can't stand there,
/// or its check sum is not that of the lines before it. Where all lines are right, the order may not certify the numbers. `NoMemory` comes
/// where there is none.
pub fn read_state(alloc: Global, text: &[u8]) -> Result<KeptState, ReadFault>
    ensures told { IfOk result (λ state. text.now ≡ state_text (parts_of_state state)) }
    ensures alone { IfOk result (λ state. (s : KeptParts) → IsKeptState s → text.now ≡ state_text s → AreSame s (parts_of_state state)) }
    ensures kept { IfOk result (λ state. IsKeptState (parts_of_state state)) }
    ensures few { IfOk result (λ state. length state.ids ≤ VERTICES) }
    ensures one_id_each { IfOk result (λ state. length state.ids ≡ state.lawful.graph.size) }
    ensures seidman { IfOk result (λ state. AreCoreNumbers state.lawful.graph state.lawful.core) }
{
    let told = read_told(alloc, text)?;
    let state = certify(alloc, told)?;
    let page = Page::new(alloc)?;
    match compare(page, &state, text) {
        Ok(()) => {
            let _core = state.lawful.core();
            look(&state);
            Ok(state)
        }
        Err(fault) => Err(ReadFault::Faulty(fault)),
    }
}
