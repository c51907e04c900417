//! How a run ends: its status, and the line about it.
ghost use Rattle.std.specs.Prelude.{◌≡◌, ◌++◌, [], IfOk, option_map, string_bytes};
ghost use Rattle.kc_wishes.specs.Requests.{text_of};
ghost use Rattle.kc_cores.specs.Endings.{IsCut, TellsRefusal, line_of, message_text};
ghost use Rattle.kc_cores.specs.Sentences.{at_column, at_place, in_file, refused_front, refused_line, no_memory_line, read_fault_line};
ghost use Rattle.kc_cores.specs.Sentences.{unopened_line, write_fault_line};
ghost use Rattle.kc_cores.specs.CoresEnded.{IsUnopenedLine, ToldLine, done_line};

use crate::CoresStatus;
use crate::input::FileFault;
use crate::message::Message;
use crate::sentences::refusal_sentence;
use kc_dialect_read::PlacedRefusal;
use kc_graph::NoMemory;
use kc_head::show_place;
use kc_io::sink::{Sink, write_all};
use kc_wishes::NamedText;
use std::alloc::Global;

/// How a run ends. The line is made here, so that ending the run takes no memory.
#[derive(Drop)]
pub(crate) struct Ending {
    pub(crate) status: CoresStatus,
    pub(crate) message: Message,
}

impl From<NoMemory> for Ending {
    ghost use Rattle.kc_cores.specs.Endings.{line_of};
    ghost use Rattle.kc_cores.specs.Sentences.{no_memory_line};
    ghost use Rattle.kc_cores.specs.declared.CoresStatus.TheVariants as status;

    ghost from_gives = { λ _ e. (e.status ≡ status.NoMemory) × (line_of e ≡ no_memory_line) };

    fn from(_: NoMemory) -> Ending {
        Ending::no_memory()
    }
}

impl Ending {
    /// There was no memory.
    pub(crate) fn no_memory() -> Ending
        ensures status { result.status ≡ CoresStatus.NoMemory }
        ensures line { line_of result ≡ no_memory_line }
    {
        Ending {
            status: CoresStatus::NoMemory,
            message: Message::Fixed("cores: there is not enough memory for this graph\n"),
        }
    }

    /// The source failed.
    pub(crate) fn read_fault() -> Ending
        ensures status { result.status ≡ CoresStatus.ReadFault }
        ensures line { line_of result ≡ read_fault_line }
    {
        Ending {
            status: CoresStatus::ReadFault,
            message: Message::Fixed("cores: the input could not be read to its end\n"),
        }
    }

    /// The sink of the lines failed.
    pub(crate) fn unwritten() -> Ending
        ensures status { result.status ≡ CoresStatus.WriteFault }
        ensures line { line_of result ≡ write_fault_line }
    {
        Ending {
            status: CoresStatus::WriteFault,
            message: Message::Fixed("cores: the output could not be written to its end\n"),
        }
    }

    /// The reader of the lines went away, of which nothing is said.
    pub(crate) fn reader_gone() -> Ending
        ensures status { result.status ≡ CoresStatus.ReaderGone }
        ensures line { line_of result ≡ [] }
    {
        Ending {
            status: CoresStatus::ReaderGone,
            message: Message::Fixed(""),
        }
    }

    /// The sink of the lines failed: since its reader went away, of which nothing is said, or for another cause.
    pub(crate) fn cut(reader_gone: bool) -> Ending
        ensures { IsCut result reader_gone }
    {
        if reader_gone {
            return Ending::reader_gone();
        }
        Ending::unwritten()
    }
}

/// The line of a run that is done, or nothing where it is quiet.
pub(crate) fn done_message(quiet: bool, summary: String) -> Message
    ensures { message_text result ≡ done_line quiet (string_bytes summary) }
{
    if quiet {
        Message::Fixed("")
    } else {
        Message::Made(summary)
    }
}

/// `FILE: `, where a file is named.
pub(crate) fn in_file(alloc: Global, file: Option<&str>) -> Result<String, NoMemory>
    ensures { IfOk result (λ text. string_bytes text ≡ in_file (option_map (λ t. t.now) file.entry)) }
{
    match file {
        Some(name) => format!(in alloc; "{name}: "),
        None => Ok(String::new(alloc)),
    }
}

/// `, column 5`, where a column is meant.
fn at_column(alloc: Global, column: Option<u64>) -> Result<String, NoMemory>
    ensures { IfOk result (λ text. string_bytes text ≡ at_column column) }
{
    match column {
        Some(column) => format!(in alloc; ", column {column}"),
        None => Ok(String::new(alloc)),
    }
}

/// Which line is refused, or the input as a whole, and the column where one is meant.
fn at_place(alloc: Global, placed: PlacedRefusal) -> Result<String, NoMemory>
    ensures { IfOk result (λ text. string_bytes text ≡ at_place placed) }
{
    let place = at_column(alloc, placed.column)?;
    let line = placed.refusal.line;
    if line == 0 {
        format!(in alloc; "input{place}")
    } else {
        format!(in alloc; "line {line}{place}")
    }
}

/// Where a text with this head is refused, and what is wrong there.
fn refused_front(
    alloc: Global,
    text: NamedText<'_>,
    placed: PlacedRefusal,
    head: &[u8],
) -> Result<String, NoMemory>
    ensures { IfOk result (λ line. string_bytes line ≡ refused_front (text_of text.entry) (record { placed = placed; head = head.now })) }
{
    let sentence = refusal_sentence(text.dialect, head, placed.refusal.kind);
    let front = in_file(alloc, text.file)?;
    let place = at_place(alloc, placed)?;
    format!(in alloc; "cores: {front}{place}: {sentence}\n")
}

/// The same, and below it the refused line, where it is shown.
fn refused_line(
    alloc: Global,
    text: NamedText<'_>,
    placed: PlacedRefusal,
    head: &[u8],
) -> Result<Vec<u8>, NoMemory>
    ensures { IfOk result (λ line. line.items ≡ refused_line (text_of text.entry) (record { placed = placed; head = head.now })) }
{
    let front = refused_front(alloc, text, placed, head)?;
    let mut line = Vec::from_slice(alloc, front.as_bytes())?;
    show_place(&mut line, head, placed.refusal.line, placed.column)?;
    Ok(line)
}

/// The text of a graph with this head is refused.
pub(crate) fn refused(
    alloc: Global,
    text: NamedText<'_>,
    placed: PlacedRefusal,
    head: &[u8],
) -> Ending
    ensures { TellsRefusal result (text_of text.entry) (record { placed = placed; head = head.now }) }
{
    match refused_line(alloc, text, placed, head) {
        Ok(line) => Ending {
            status: CoresStatus::Refused,
            message: Message::Bytes(line),
        },
        Err(_) => Ending::no_memory(),
    }
}

fn unopened_line(alloc: Global, name: &str, fault: FileFault) -> Result<String, NoMemory>
    ensures { IfOk result (λ line. string_bytes line ≡ unopened_line name.now fault) }
{
    let sentence = fault.sentence();
    format!(in alloc; "cores: {name}: {sentence}\n")
}

/// The file was not opened. Where there is no memory for its name, the line lacks it.
pub(crate) fn unopened(alloc: Global, name: &str, fault: FileFault) -> Ending
    ensures status { result.status ≡ CoresStatus.Unopened }
    ensures line { IsUnopenedLine name.now fault (line_of result) }
{
    let message = match unopened_line(alloc, name, fault) {
        Ok(line) => Message::Made(line),
        Err(_) => Message::Fixed("cores: the file can not be opened\n"),
    };
    Ending {
        status: CoresStatus::Unopened,
        message,
    }
}

/// Writes the line about the run, and gives the status, which is settled before. A fault of the sink changes nothing.
pub(crate) fn finish<E: Sink>(err: &mut E, ending: Ending) -> CoresStatus
    ensures status { result ≡ ending.status }
    ensures told { ToldLine E.Sink (line_of ending) err.old err.new }
{
    let Ending { status, message } = ending;
    let _ = write_all(err, message.text());
    status
}
