//! A state becomes a file.
ghost use Rattle.std.specs.Prelude.{◌≡◌, ◌<◌, ◌+◌, [], ℕ, List, Option, Some, IfOk, OnErr, OnOk, false, length, max, true};
ghost use Rattle.kc_io.specs.Causes.{HasCause};
ghost use Rattle.kc_files.specs.Folders.{AllStay, HasBytes, Held, OthersStay};
ghost use Rattle.kc_state.specs.Texts.{state_text};
ghost use Rattle.kc_stream.specs.Hearing.{heard_so_far};
ghost use Rattle.kc_watch.specs.Accounts.{Account};
ghost use Rattle.kc_watch.specs.States.{IsStateOf};
ghost use Rattle.kc_watch.specs.Watching.{WasFed};
ghost use Rattle.kc_saving.specs.Saving.{HoldsSave, IsRecent};
ghost use Rattle.kc_saving.specs.Steps.{HasSaveCause, IsSaved, WatchesAccount};

use crate::fault::SaveFault;
use crate::saves::Saves;
use kc_files::fault::FolderFault;
use kc_files::folder::{Folder, Unplaced};
use kc_lines::page::Page;
use kc_state::write_state;
use kc_watch::{WatchedState, Watcher};
use std::alloc::Global;

/// Writes the text of a state beside a file, and puts it in its place. Nothing is on the page yet.
fn put_state<P: Folder>(
    page: Page,
    state: &WatchedState,
    file: &str,
    folder: &mut P,
) -> Result<(), Unplaced>
    requires empty { page ≡ [] }
    requires one_id_each { length state.now.ids.items ≡ state.now.lawful.graph.size }
    ensures saved { OnOk result (HasBytes (P.holds folder.new file.now)
        (state_text (record { batches = state.now.batches; ids = state.now.ids.items; ranked = state.now.lawful }))) }
    ensures others { OnOk result (OthersStay P.holds file.now folder.old folder.new) }
    ensures stays { OnErr result (AllStay P.holds folder.old folder.new) }
    ensures cause { HasCause (P.failed folder.old) (P.failed folder.new) result }
{
    let mut part = match folder.begin(file) {
        Ok(part) => part,
        Err(fault) => {
            return Err(Unplaced {
                fault,
                is_left: false,
            });
        }
    };
    let batches = u64::from(state.batches);
    match write_state(page, &mut part, batches, &state.ids, &state.lawful) {
        Ok(()) => folder.put_in_place(file, part),
        Err(_) => Err(Unplaced {
            fault: FolderFault::Cut,
            is_left: folder.give_up(part),
        }),
    }
}

/// Saves a state.
fn save_state<P: Folder>(
    alloc: Global,
    state: &WatchedState,
    file: &str,
    folder: &mut P,
) -> Result<(), SaveFault>
    requires { length state.now.ids.items ≡ state.now.lawful.graph.size }
    ensures saved { OnOk result ((account : Account) → IsStateOf account state.now
        → IsSaved file.now (P.holds folder.old) (P.holds folder.new) (Some account)) }
    ensures stays { OnErr result (AllStay P.holds folder.old folder.new) }
    ensures cause { HasSaveCause (P.failed folder.old) (P.failed folder.new) result }
{
    let _certified = state.lawful.graph();
    let Ok(page) = Page::new(alloc) else {
        return Err(SaveFault::NoMemory);
    };
    match put_state(page, state, file, folder) {
        Ok(()) => Ok(()),
        Err(unplaced) => Err(SaveFault::Unplaced(unplaced)),
    }
}

/// Saves the state that a watcher keeps; where it keeps none, all is as it was.
pub(crate) fn save<P: Folder>(
    alloc: Global,
    watcher: &Watcher,
    file: &str,
    folder: &mut P,
) -> Result<(), SaveFault>
    requires { (account : Option Account) × WatchesAccount watcher.now account }
    ensures saved { OnOk result ((account : Option Account) → WatchesAccount watcher.now account
        → IsSaved file.now (P.holds folder.old) (P.holds folder.new) account) }
    ensures stays { OnErr result (AllStay P.holds folder.old folder.new) }
    ensures cause { HasSaveCause (P.failed folder.old) (P.failed folder.new) result }
{
    match watcher.state(alloc) {
        Err(_) => Err(SaveFault::NoMemory),
        Ok(None) => Ok(()),
        Ok(Some(state)) => save_state(alloc, &state, file, folder),
    }
}

/// Whether it is time for a save, where so many batches have ended and had ended at the last save.
fn is_due(every: Option<u64>, ended: u32, saved: u32) -> bool
    ensures no { result ≡ false → (n : ℕ) → every ≡ Some n → ended < saved + max n 1 }
    ensures yes { result ≡ true → saved < ended }
{
    match every {
        None => false,
        Some(every) => every.max(1) <= u64::from(ended.saturating_sub(saved)),
    }
}

/// Saves the state that a watcher keeps, where it is time, and gives how many batches had ended at the last save. A watcher of a stream of which a
/// line has ended the reading saves nothing.
pub(crate) fn save_if_due<P: Folder>(
    alloc: Global,
    watcher: &Watcher,
    saves: Saves<'_>,
    saved: u32,
    folder: &mut P,
) -> Result<u32, SaveFault>
    requires { (fed : List ℕ) × WasFed watcher.now fed }
    ensures holds { IfOk result (λ now. (before : List ℕ → Held) (fed : List ℕ) → WasFed watcher.now fed
        → HoldsSave saves.entry.file.now watcher.now.options.bad_lines before (P.holds folder.old) fed saved
        → HoldsSave saves.entry.file.now watcher.now.options.bad_lines before (P.holds folder.new) fed now) }
    ensures recent { IfOk result (λ now. (fed : List ℕ) → WasFed watcher.now fed
        → IsRecent saves.entry.every watcher.now.options.bad_lines fed now) }
    ensures stays { OnErr result (AllStay P.holds folder.old folder.new) }
    ensures cause { HasSaveCause (P.failed folder.old) (P.failed folder.new) result }
{
    if watcher.refusal().is_some() {
        return Ok(saved);
    }
    let ended = watcher.ended_batches();
    if !is_due(saves.every, ended, saved) {
        return Ok(saved);
    }
    match save(alloc, watcher, saves.file, folder) {
        Ok(()) => Ok(ended),
        Err(fault) => Err(fault),
    }
}
