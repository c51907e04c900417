//! Answers a wire as its bytes come.
ghost use Rattle.std.specs.Prelude.{◌≡◌, ◌<◌, ◌++◌, ℕ, List, None, Some, [], length};
ghost use Rattle.kc_wire.specs.Events.{TellsMore, WireEvent, read_in, wrote};
ghost use Rattle.kc_dialogue.specs.Endings.{HasAnswered, faults_at, reads_in};
ghost use Rattle.kc_dialogue.specs.Openings.{HasOpened, behind};
ghost use Rattle.kc_dialogue.specs.Turns.{HasAdded, HasAddedAtEnd, IsGoing, IsTurn, end_by, faults_after_turn};

use crate::end::DialogueEnd;
use crate::flow::Flow;
use crate::opening::Opening;
use crate::replier::Replier;
use kc_wire::faults::WriteFault;
use kc_wire::wire::Wire;
use std::alloc::Global;

/// The most bytes that are asked for at once.
pub const PIECE_BYTES: usize = 65_536;

/// The end that a fault of a write brings.
pub fn end_at(fault: WriteFault) -> DialogueEnd
    ensures { result ≡ end_by fault }
{
    match fault {
        WriteFault::ReaderGone => DialogueEnd::ReaderGone,
        WriteFault::Failed => DialogueEnd::WriteFault,
    }
}

/// Feeds the replier with a piece, and writes what it put. Gives how the dialogue ends, where it does.
fn answer_piece<W: Wire, R: Replier>(
    alloc: Global,
    wire: &mut W,
    replier: &mut R,
    piece: &[u8],
    out: &mut Vec<u8>,
) -> Option<DialogueEnd>
    requires { (fed : List ℕ) × R.was_fed replier.old fed }
    ensures added { (text : List ℕ) × TellsMore (W.history wire.old) (W.history wire.new) (wrote text) × ((fed : List ℕ) → R.was_fed replier.old fed
        → HasAdded (R.reply replier.old) (R.reply_at_end replier.old) fed piece.now text result) }
    ensures fed { (fed : List ℕ) → R.was_fed replier.old fed → result ≡ None → R.was_fed replier.new (fed ++ piece.now) }
    ensures fed_at_end { (fed : List ℕ) → R.was_fed replier.old fed → result ≡ Some DialogueEnd.Ended → R.was_fed replier.new (fed ++ piece.now) }
    ensures same { R.reply replier.new ≡ R.reply replier.old }
    ensures same_at_end { R.reply_at_end replier.new ≡ R.reply_at_end replier.old }
    ensures settings { R.settings replier.new ≡ R.settings replier.old }
    ensures cause { W.faults wire.new ≡ faults_after_turn (W.faults wire.old) result }
{
    out.clear();
    let flow = replier.feed(alloc, piece, out);
    if let Err(fault) = wire.write_all(out) {
        return Some(end_at(fault));
    }
    match flow {
        Ok(Flow::Open) => None,
        Ok(Flow::Ended) => Some(DialogueEnd::Ended),
        Err(_) => Some(DialogueEnd::NoMemory),
    }
}

/// Tells the replier that the input has ended, and writes what it put.
fn answer_end<W: Wire, R: Replier>(
    alloc: Global,
    wire: &mut W,
    replier: &mut R,
    out: &mut Vec<u8>,
) -> DialogueEnd
    requires { (fed : List ℕ) × R.was_fed replier.old fed }
    ensures added { (text : List ℕ) × TellsMore (W.history wire.old) (W.history wire.new) (wrote text) × ((fed : List ℕ) → R.was_fed replier.old fed
        → HasAddedAtEnd (R.reply replier.old) (R.reply_at_end replier.old) fed text result) }
    ensures ended { (fed : List ℕ) → R.was_fed replier.old fed → result ≡ DialogueEnd.Done → R.has_ended replier.new fed }
    ensures settings { R.settings replier.new ≡ R.settings replier.old }
    ensures cause { W.faults wire.new ≡ faults_at (W.faults wire.old) result }
{
    out.clear();
    let ended = replier.end(alloc, out);
    if let Err(fault) = wire.write_all(out) {
        return end_at(fault);
    }
    match ended {
        Ok(()) => DialogueEnd::Done,
        Err(_) => DialogueEnd::NoMemory,
    }
}

/// One turn of a dialogue, behind any bytes that the replier was fed before: reads once, and answers what was read. Gives how the dialogue ends,
/// where it does.
pub fn answer_next<W: Wire, R: Replier>(
    alloc: Global,
    wire: &mut W,
    replier: &mut R,
    room: &mut [u8],
    out: &mut Vec<u8>,
) -> Option<DialogueEnd>
    requires room { 0 < length room.old }
    requires fed { (fed : List ℕ) × R.was_fed replier.old fed }
    ensures turned { (start : List ℕ) → IsTurn (behind (R.reply replier.old) start) (behind (R.reply_at_end replier.old) start)
        (λ read. R.was_fed replier.old (start ++ read)) (λ read. R.was_fed replier.new (start ++ read)) (λ read. R.has_ended replier.new (start ++ read))
        (W.history wire.old) (W.history wire.new) result }
    ensures unread { result ≡ Some DialogueEnd.ReadFault → TellsMore (W.history wire.old) (W.history wire.new) [] }
    ensures same { result ≡ None → R.reply replier.new ≡ R.reply replier.old }
    ensures same_at_end { result ≡ None → R.reply_at_end replier.new ≡ R.reply_at_end replier.old }
    ensures settings { R.settings replier.new ≡ R.settings replier.old }
    ensures cause { W.faults wire.new ≡ faults_after_turn (W.faults wire.old) result }
{
    match wire.read(room) {
        Err(_) => Some(DialogueEnd::ReadFault),
        Ok(0) => Some(answer_end(alloc, wire, replier, out)),
        Ok(n) => answer_piece(alloc, wire, replier, &room[..n], out),
    }
}

/// Answers a wire turn by turn, by reads into `room`, until the dialogue ends. It goes on already, with events in which nothing was read.
fn answer_turns<W: Wire, R: Replier>(
    alloc: Global,
    wire: &mut W,
    replier: &mut R,
    room: &mut [u8],
    out: &mut Vec<u8>,
) -> DialogueEnd
    requires room { 0 < length room.old }
    requires going { (start : List ℕ) × (first : List WireEvent)
        × IsGoing (behind (R.reply replier.old) start) (λ read. R.was_fed replier.old (start ++ read)) first × (reads_in first ≡ 0) }
    ensures answered { (start : List ℕ) (first : List WireEvent)
        → IsGoing (behind (R.reply replier.old) start) (λ read. R.was_fed replier.old (start ++ read)) first → reads_in first ≡ 0
        → (events : List WireEvent) × TellsMore (W.history wire.old) (W.history wire.new) events
        × HasAnswered (behind (R.reply replier.old) start) (behind (R.reply_at_end replier.old) start) (first ++ events) result
        × (result ≡ DialogueEnd.Ended → R.was_fed replier.new (start ++ read_in (first ++ events)))
        × (result ≡ DialogueEnd.Done → R.has_ended replier.new (start ++ read_in (first ++ events))) }
    ensures settings { R.settings replier.new ≡ R.settings replier.old }
    ensures cause { W.faults wire.new ≡ faults_at (W.faults wire.old) result }
{
    'turns: for _ in 0..u64::MAX {
        match answer_next(alloc, wire, replier, room, out) {
            None => {}
            Some(end) => return end,
        }
    }
    DialogueEnd::Exhausted
}

/// Answers a wire as its bytes come, behind those that the replier was fed before: writes and flushes what it says to these, and then reads,
/// feeds the replier, writes and flushes what it put, and reads again, until the input or the dialogue ends or a call fails. Where the dialogue
/// has ended with the opening, nothing is read.
///
/// At every moment at which more input is asked for, just the reply to the bytes that were fed before and those that were read so far was
/// written. What was written at the end [`DialogueEnd`] says of each. A fault ends it only where that call of the wire has failed; at each
/// other end none has. `NoMemory` comes only where there was no memory. At `Ended` the replier was fed all that was read, and at `Done` it
/// was told the end of that too. It is set up as before.
pub fn answer_opened<W: Wire, R: Replier>(
    alloc: Global,
    wire: &mut W,
    replier: &mut R,
    opening: &Opening,
) -> DialogueEnd
    requires { (start : List ℕ) × HasOpened (R.reply replier.old) (R.reply_at_end replier.old) (R.was_fed replier.old) start opening.now.flow
        opening.now.text.items }
    ensures answered { (start : List ℕ) → HasOpened (R.reply replier.old) (R.reply_at_end replier.old) (R.was_fed replier.old) start opening.now.flow
        opening.now.text.items
        → (events : List WireEvent) × TellsMore (W.history wire.old) (W.history wire.new) events
        × HasAnswered (behind (R.reply replier.old) start) (behind (R.reply_at_end replier.old) start) events result
        × (result ≡ DialogueEnd.Ended → R.was_fed replier.new (start ++ read_in events))
        × (result ≡ DialogueEnd.Done → R.has_ended replier.new (start ++ read_in events)) }
    ensures settings { R.settings replier.new ≡ R.settings replier.old }
    ensures cause { W.faults wire.new ≡ faults_at (W.faults wire.old) result }
{
    let Ok(mut room) = vec![in alloc; 0u8; PIECE_BYTES] else {
        return DialogueEnd::NoMemory;
    };
    if let Err(fault) = wire.write_all(&opening.text) {
        return end_at(fault);
    }
    match opening.flow {
        Flow::Ended => DialogueEnd::Ended,
        Flow::Open => answer_turns(alloc, wire, replier, &mut room, &mut Vec::new(alloc)),
    }
}

/// Answers a wire as its bytes come: reads, feeds the replier, writes and flushes what it put, and reads again, until the input or the
/// dialogue ends or a call fails.
///
/// At every moment at which more input is asked for, just the reply to the bytes read so far was written. What was written at the end
/// [`DialogueEnd`] says of each. A fault ends it only where that call of the wire has failed; at each other end none has. `NoMemory` comes
/// only where there was no memory. At `Ended` the replier was fed all that was read, and at `Done` it was told the end of that too. It is set up as before.
pub fn answer_wire<W: Wire, R: Replier>(alloc: Global, wire: &mut W, replier: &mut R) -> DialogueEnd
    requires fed { R.was_fed replier.old [] }
    requires silent { R.reply replier.old [] ≡ [] }
    ensures answered { (events : List WireEvent) × TellsMore (W.history wire.old) (W.history wire.new) events
        × HasAnswered (R.reply replier.old) (R.reply_at_end replier.old) events result
        × (result ≡ DialogueEnd.Ended → R.was_fed replier.new (read_in events))
        × (result ≡ DialogueEnd.Done → R.has_ended replier.new (read_in events)) }
    ensures settings { R.settings replier.new ≡ R.settings replier.old }
    ensures cause { W.faults wire.new ≡ faults_at (W.faults wire.old) result }
{
    let opening = Opening {
        text: Vec::new(alloc),
        flow: Flow::Open,
    };
    answer_opened(alloc, wire, replier, &opening)
}
