//! A run whose lines become a file.
ghost use Rattle.std.specs.Prelude.{◌≡◌, ◌++◌, ◌⊎◌, [], IfOk, OnErr, OnOk, string_bytes};
ghost use Rattle.kc_io.specs.Causes.{HasCause};
ghost use Rattle.kc_files.specs.Folders.{AllStay, HasBytes, OthersStay};
ghost use Rattle.kc_wishes.specs.Requests.{query_of};
ghost use Rattle.kc_cores.specs.Endings.{line_of};
ghost use Rattle.kc_cores.specs.Listings.{AreReady, made_text};
ghost use Rattle.kc_cores.specs.Saved.{SaveEnded};
ghost use Rattle.kc_cores.specs.Unsaved.{IsUnsavedLine, left_beside, unsaved_line};

use crate::CoresStatus;
use crate::ending::{Ending, done_message};
use crate::input::FileInput;
use crate::made_lines::MadeLines;
use crate::message::Message;
use crate::prepared::{Prepared, prepare};
use kc_files::fault::FolderFault;
use kc_files::folder::{Folder, Unplaced};
use kc_graph::NoMemory;
use kc_threads::Hands;
use kc_wishes::SaveRequest;
use std::alloc::Global;

/// What is told of a part that could not be taken away.
fn left_beside(alloc: Global, name: &str, is_left: bool) -> Result<String, NoMemory>
    ensures { IfOk result (λ text. string_bytes text ≡ left_beside name.now is_left) }
{
    if is_left {
        format!(in alloc; "; {name}.part is left beside it")
    } else {
        Ok(String::new(alloc))
    }
}

fn unsaved_line(alloc: Global, name: &str, unplaced: Unplaced) -> Result<String, NoMemory>
    ensures { IfOk result (λ line. string_bytes line ≡ unsaved_line name.now unplaced.fault unplaced.is_left) }
{
    let sentence = unplaced.fault.sentence();
    let left = left_beside(alloc, name, unplaced.is_left)?;
    format!(in alloc; "cores: {name}: {sentence}{left}\n")
}

/// The file was not written. Where there is no memory for its name, the line lacks it.
pub(crate) fn unsaved(alloc: Global, name: &str, unplaced: Unplaced) -> Ending
    ensures status { result.status ≡ CoresStatus.WriteFault }
    ensures line { IsUnsavedLine name.now (line_of result) }
{
    match unsaved_line(alloc, name, unplaced) {
        Ok(line) => Ending {
            status: CoresStatus::WriteFault,
            message: Message::Made(line),
        },
        Err(_) => Ending::unwritten(),
    }
}

/// Writes lines beside the file, and puts them in its place.
fn save_lines<P: Folder>(lines: MadeLines, name: &str, folder: &mut P) -> Result<(), Unplaced>
    requires { AreReady lines }
    ensures saved { OnOk result (HasBytes (P.holds folder.new name.now) (made_text lines)) }
    ensures others { OnOk result (OthersStay P.holds name.now folder.old folder.new) }
    ensures stays { OnErr result (AllStay P.holds folder.old folder.new) }
    ensures cause { HasCause (P.failed folder.old) (P.failed folder.new) result }
{
    let mut part = match folder.begin(name) {
        Ok(part) => part,
        Err(fault) => {
            return Err(Unplaced {
                fault,
                is_left: false,
            });
        }
    };
    if lines.write(&mut part).is_err() {
        let is_left = folder.give_up(part);
        return Err(Unplaced {
            fault: FolderFault::Cut,
            is_left,
        });
    }
    folder.put_in_place(name, part)
}

/// Reads the graph of the input, and makes the lines that are asked for the file of this name.
pub(crate) fn save<H: Hands, I: FileInput, P: Folder>(
    alloc: Global,
    hands: &H,
    request: SaveRequest<'_>,
    input: &mut I,
    folder: &mut P,
) -> Ending
    ensures { SaveEnded I.Source I.behind P.holds P.failed request.entry.file.now (query_of request.entry.lines) result.status (line_of result)
        input.old input.new folder.old folder.new }
{
    let Prepared { lines, told } = match prepare(alloc, hands, request.lines, input) {
        Ok(prepared) => prepared,
        Err(ending) => return ending,
    };
    match save_lines(lines, request.file, folder) {
        Ok(()) => Ending {
            status: CoresStatus::Done,
            message: done_message(request.lines.quiet, told),
        },
        Err(unplaced) => unsaved(alloc, request.file, unplaced),
    }
}
