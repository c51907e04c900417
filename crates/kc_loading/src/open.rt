//! A watcher is fed the graph of a state.
ghost use Rattle.std.specs.Prelude.{◌≡◌, Err, [], IfOk};
ghost use Rattle.kc_dialogue.specs.Openings.{HasOpened};
ghost use Rattle.kc_state.specs.Reading.{IsStateText, parts_of_state};
ghost use Rattle.kc_state.specs.Starts.{start_text};
ghost use Rattle.kc_state.specs.Texts.{KeptParts};
ghost use Rattle.kc_state.specs.declared.fault.ReadFault.TheVariants as fault;
ghost use Rattle.kc_state.specs.declared.fault.StateFault.{StateFault};
ghost use Rattle.kc_watch.specs.Text.{reply, reply_at_end};
ghost use Rattle.kc_watch.specs.Watching.{WasFed};

use kc_dialogue::opening::Opening;
use kc_dialogue::replier::Replier;
use kc_graph::NoMemory;
use kc_state::{ReadFault, read_state, start_text};
use kc_watch::Watcher;
use std::alloc::Global;

/// The start text of the state whose text this is. Text and state are let go.
fn start_of(alloc: Global, text: Vec<u8>) -> Result<Vec<u8>, ReadFault>
    ensures { IfOk result (λ start. (state : KeptParts) × IsStateText text.items state × (start.items ≡ start_text state)) }
{
    let state = read_state(alloc, &text)?;
    Ok(start_text(alloc, &state)?)
}

/// Feeds a watcher that was fed nothing with a start text.
fn feed_start(alloc: Global, start: &[u8], watcher: &mut Watcher) -> Result<Opening, NoMemory>
    requires { WasFed watcher.old [] }
    ensures opened { IfOk result (λ opening. HasOpened (reply watcher.new.options) (reply_at_end watcher.new.options) (WasFed watcher.new) start.now
        opening.flow opening.text.items) }
    ensures options { watcher.new.options ≡ watcher.old.options }
{
    let mut text = Vec::new(alloc);
    let flow = watcher.feed(alloc, start, &mut text)?;
    Ok(Opening { text, flow })
}

/// Feeds a watcher that was fed nothing with the graph of the state whose text this is: with its start text. Gives what has to be written before
/// anything is read.
///
/// `Faulty` comes where the text is no state's, or its order does not certify its core numbers, and tells the line; the watcher is as it was.
/// `NoMemory` comes where there is none; then the watcher is of no more use. It is set up as before.
pub fn open_state(alloc: Global, text: Vec<u8>, watcher: &mut Watcher) -> Result<Opening, ReadFault>
    requires { WasFed watcher.old [] }
    ensures opened { IfOk result (λ opening. (state : KeptParts) × IsStateText text.items state
        × HasOpened (reply watcher.new.options) (reply_at_end watcher.new.options) (WasFed watcher.new) (start_text state) opening.flow
        opening.text.items) }
    ensures options { watcher.new.options ≡ watcher.old.options }
    ensures stays { (is : StateFault) → result ≡ Err (fault.Faulty is) → watcher.new ≡ watcher.old }
{
    let start = start_of(alloc, text)?;
    Ok(feed_start(alloc, &start, watcher)?)
}
