//! The output of a run, as a text.
ghost use Rattle.std.specs.Prelude.{◌≡◌, ◌++◌, [], IfOk, OnOk, length, map};
ghost use Rattle.kc_text.specs.Inputs.{IsInput, parts_of_batch};
ghost use Rattle.kc_text.specs.Meaning.{Told};
ghost use Rattle.kc_batch.specs.Batches.{receipts_in};
ghost use Rattle.kc_run.specs.Courses.{HasWorked};
ghost use Rattle.kc_run.specs.Runs.{HasRun, IsEmpty};
ghost use Rattle.kc_output.specs.Inputs.{HasWorkers, IsSound, updates_of};
ghost use Rattle.kc_output.specs.Leaving.{IsLeftFor};
ghost use Rattle.kc_output.specs.Screens.{HasShown};
ghost use Rattle.kc_output.specs.Text.{IsText, IsTextFrom, TellsBatches, TellsRun, first_line, shown_each, shown_rounds};

use crate::batch_lines::Work;
use crate::begun::begun_from;
use crate::numbers::{put_each, put_end, put_rounds};
use crate::screen::Screen;
use crate::setting::Setting;
use crate::show::Show;
use crate::start_graph::start_of;
use crate::start_numbers::numbers_of;
use kc_graph::{Graph, Lawful, NoMemory, greatest};
use kc_report::{Line, summary};
use kc_run::{Course, Ran};
use kc_snapshot::{Blank, BoardName};
use kc_text::Input;
use kc_workers::Gate;
use std::alloc::Global;
use std::marker::Brand;
use std::sync::Wait;
use std::thread::Threads;

/// The text up to the first batch: the line about the graph, the one about rounds where there were any, and the core numbers where each
/// state is shown.
fn start_text(
    alloc: Global,
    show: Show,
    graph: &Graph,
    ids: &[u32],
    core: &[u32],
    rounds: Option<u64>,
) -> Result<Vec<u8>, NoMemory>
    requires { length ids.now ≡ length core.now }
    ensures { IfOk result (λ text. text.items ≡ first_line graph.now core.now ++ (shown_rounds rounds ++ shown_each show ids.now core.now)) }
{
    let line = Line::Graph {
        vertices: graph.vertices(),
        edges: graph.edges(),
        top: greatest(core),
    };
    let mut text = Vec::new(alloc);
    summary(&mut text, &line)?;
    put_rounds(&mut text, rounds)?;
    put_each(&mut text, show, ids, core)?;
    Ok(text)
}

/// The text of an input without batches. No journal is opened.
fn static_text(
    rt: &(impl Threads + Sync),
    alloc: Global,
    setting: Setting,
    graph: Graph,
    ids: &[u32],
) -> Result<Vec<u8>, NoMemory>
    requires { length ids.now ≡ graph.size }
    ensures { IfOk result (λ text. IsTextFrom setting ids.now graph [] text.items) }
{
    let numbers = numbers_of(rt, alloc, setting.start, &graph)?;
    let mut text = start_text(
        alloc,
        setting.show,
        &graph,
        ids,
        &numbers.core,
        numbers.rounds,
    )?;
    put_end(&mut text, setting, ids, &numbers.core)?;
    Ok(text)
}

/// The screen of a run, where it shows the core numbers after each batch.
fn screen_of<'a, J: BoardName, R: Wait>(
    rt: &'a R,
    alloc: Global,
    blank: Blank,
    show: Show,
    core: &[u32],
) -> Result<Option<Screen<'a, J, R>>, NoMemory>
    requires blank { blank ≡ J.book }
    ensures { IfOk result (λ screen. HasShown (length core.now) 1 screen) }
{
    match show {
        Show::Cores | Show::Summary => Ok(None),
        Show::Each => Ok(Some(Screen::open(rt, alloc, blank, core)?)),
    }
}

/// Lets the workers enter the batches in turn from this state on, and appends what is written of each.
fn put_worked<J: BoardName, G: Gate + Sync, R: Threads + Wait + Sync>(
    work: &Work<'_, G, R>,
    blank: Blank,
    lawful: Lawful,
    input: &Input,
    text: &mut Vec<u8>,
    ran: &mut Ran,
) -> Result<Course, NoMemory>
    requires blank { blank ≡ J.book }
    requires sound { IsSound input.now }
    requires size { length input.now.ids.items ≡ lawful.graph.size }
    requires workers { HasWorkers work.now.setting }
    requires empty { IsEmpty ran.old }
    ensures text { IfOk result (λ course. TellsBatches (shown_each work.now.setting.show input.now.ids.items) 1 lawful.graph lawful.core
        (map parts_of_batch input.now.batches.items) text.old.items text.new.items course.journal.levels.core) }
    ensures started { IfOk result (λ course. course.journal.started ≡ lawful.graph) }
    ensures size { IfOk result (λ course. course.journal.graph.size ≡ lawful.graph.size) }
    ensures worked { IfOk result (λ course. HasWorked (updates_of input.now.batches.items)
        ran.new.tables.items (receipts_in ran.new.shares.items) course.journal) }
{
    let core = lawful.core();
    let screen = screen_of::<J, R>(work.rt, work.alloc, blank, work.setting.show, core)?;
    let course = Course::open(work.alloc, lawful, work.setting.workers)?;
    work.put_batches(course, input, screen, text, ran)
}

/// Works the batches from this state on, and appends what is written of them and of the end. What the run leaves goes to `ran`.
fn put_run<J: BoardName, G: Gate + Sync, R: Threads + Wait + Sync>(
    work: &Work<'_, G, R>,
    blank: Blank,
    lawful: Lawful,
    input: &Input,
    text: &mut Vec<u8>,
    ran: &mut Ran,
) -> Result<(), NoMemory>
    requires blank { blank ≡ J.book }
    requires sound { IsSound input.now }
    requires size { length input.now.ids.items ≡ lawful.graph.size }
    requires workers { HasWorkers work.now.setting }
    requires empty { IsEmpty ran.old }
    ensures text { OnOk result (TellsRun work.now.setting input.now.ids.items lawful.graph lawful.core (map parts_of_batch input.now.batches.items)
        text.old.items text.new.items) }
    ensures ran { OnOk result (HasRun lawful.graph (updates_of input.now.batches.items) ran.new) }
{
    let course = put_worked::<J, G, R>(work, blank, lawful, input, text, ran)?;
    put_end(text, work.setting, &input.ids, course.core_numbers())?;
    let Ok(()) = course.end(ran) else {
        return Err(NoMemory);
    };
    Ok(())
}

/// The text of an input with batches, which are worked in turn from the state of the graph on. What the run leaves goes to `ran`.
fn worked_text<J: BoardName, G: Gate + Sync, R: Threads + Wait + Sync>(
    work: &Work<'_, G, R>,
    blank: Blank,
    graph: Graph,
    input: &Input,
    ran: &mut Ran,
) -> Result<Vec<u8>, NoMemory>
    requires blank { blank ≡ J.book }
    requires sound { IsSound input.now }
    requires size { length input.now.ids.items ≡ graph.size }
    requires workers { HasWorkers work.now.setting }
    requires empty { IsEmpty ran.old }
    ensures text { IfOk result (λ text. IsTextFrom work.now.setting input.now.ids.items graph (map parts_of_batch input.now.batches.items) text.items) }
    ensures ran { OnOk result (HasRun graph (updates_of input.now.batches.items) ran.new) }
{
    let setting = work.setting;
    let begun = begun_from(work.rt, work.alloc, setting.start, graph)?;
    let ids = &input.ids;
    let core = begun.lawful.core();
    let mut text = start_text(
        work.alloc,
        setting.show,
        begun.lawful.graph(),
        ids,
        core,
        begun.rounds,
    )?;
    put_run::<J, G, R>(work, blank, begun.lawful, input, &mut text, ran)?;
    Ok(text)
}

/// The text of the input: the line about the graph at the start, the line about each batch, and what the setting shows of the core
/// numbers between them and at the end.
///
/// As many workers as the setting says enter the updates of each batch, and `gate` is called before each try. Where there is a batch, the
/// tables of the run and the receipts of its updates go to `ran`; `NoMemory` may have put some of them there.
pub fn text_of<G: Gate + Sync, R: Threads + Wait + Sync>(
    rt: &R,
    alloc: Global,
    setting: Setting,
    input: Input,
    gate: &G,
    ran: &mut Ran,
) -> Result<Vec<u8>, NoMemory>
    requires sound { IsSound input }
    requires workers { HasWorkers setting }
    requires empty { IsEmpty ran.old }
    ensures text { IfOk result (λ text. (told : Told) → IsInput told input → IsText setting told text.items) }
    ensures ran { OnOk result ((told : Told) → IsInput told input → IsLeftFor told ran.new) }
{
    let (graph, input) = start_of(alloc, input)?;
    if input.batches.is_empty() {
        return static_text(rt, alloc, setting, graph, &input.ids);
    }
    let work = Work {
        rt,
        alloc,
        gate,
        setting,
    };
    worked_text::<Brand, G, R>(&work, Blank::new(), graph, &input, ran)
}
