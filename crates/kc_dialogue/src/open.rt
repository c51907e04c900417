//! Feeds a replier with a text that stands in front of what a wire brings.
ghost use Rattle.std.specs.Prelude.{◌≡◌, ◌≢◌, ◌≤◌, ◌<◌, ◌-◌, ◌^◌, ◌++◌, ◌∷◌, [], ℕ, Err, List, IfOk, IfSome, IsErrOf, OnOk, length, if◌then◌else◌};
ghost use Rattle.std.specs.Io.KnownBytes.{Consumes, IsAtEnd};
ghost use Rattle.kc_io.specs.Causes.{Rose};
ghost use Rattle.kc_io.specs.LineEnds.{is_cut_off, with_end};
ghost use Rattle.kc_dialogue.specs.Openings.{HasFedMore, HasOpened};

use crate::answer::PIECE_BYTES;
use crate::flow::Flow;
use crate::opening::Opening;
use crate::opening_fault::OpeningFault;
use crate::replier::Replier;
use kc_io::source::Source;
use std::alloc::Global;

/// What is known of bytes that were fed.
#[derive(Clone, Copy)]
struct Fed {
    /// How many they are.
    count: usize,
    /// Whether the dialogue goes on behind them.
    flow: Flow,
    /// Whether they end in a line that has not ended.
    is_cut_off: bool,
}

/// Whether bytes end in a line that has not ended.
fn is_cut_off(bytes: &[u8]) -> bool
    ensures { result ≡ is_cut_off bytes.now }
{
    match bytes.last() {
        None => false,
        Some(byte) => *byte != b'\n',
    }
}

/// Reads once from a source, feeds the replier with what it gave, and puts what that adds to the reply behind `out`.
fn feed_next<S: Source, R: Replier>(
    alloc: Global,
    source: &mut S,
    replier: &mut R,
    room: &mut [u8],
    out: &mut Vec<u8>,
) -> Result<Fed, OpeningFault>
    requires room { 0 < length room.old }
    requires fed { (fed : List ℕ) × R.was_fed replier.old fed }
    ensures given { (given : List ℕ) × Consumes (S.left source.old) (S.left source.new) given
        × IfOk result (λ next. (next.count ≡ length given) × (next.is_cut_off ≡ is_cut_off given)
        × HasFedMore (R.reply replier.old) (R.reply_at_end replier.old) (R.was_fed replier.old) (R.was_fed replier.new) given next.flow
        out.old.items out.new.items) }
    ensures ended { IfOk result (λ next. next.count ≡ 0 → IsAtEnd (S.left source.new)) }
    ensures same { R.reply replier.new ≡ R.reply replier.old }
    ensures same_at_end { R.reply_at_end replier.new ≡ R.reply_at_end replier.old }
    ensures settings { R.settings replier.new ≡ R.settings replier.old }
    ensures faultless { result ≢ Err OpeningFault.ReadFault → S.faults source.new ≡ S.faults source.old }
    ensures read_fault { IsErrOf result OpeningFault.ReadFault → Rose (S.faults source.old) (S.faults source.new) }
    ensures countless { result ≢ Err OpeningFault.Exhausted }
{
    let n = source.read(room)?;
    let piece = &room[..n];
    let flow = replier.feed(alloc, piece, out)?;
    Ok(Fed {
        count: n,
        flow,
        is_cut_off: is_cut_off(piece),
    })
}

/// Feeds a replier that was fed nothing with all bytes that a source has left, and puts what they are answered behind `out`.
fn feed_all<S: Source, R: Replier>(
    alloc: Global,
    source: &mut S,
    replier: &mut R,
    room: &mut [u8],
    out: &mut Vec<u8>,
) -> Result<Fed, OpeningFault>
    requires room { 0 < length room.old }
    requires fed { R.was_fed replier.old [] }
    requires silent { R.reply replier.old [] ≡ out.old.items }
    ensures given { (given : List ℕ) × Consumes (S.left source.old) (S.left source.new) given
        × IfOk result (λ fed. (fed.is_cut_off ≡ is_cut_off given)
        × HasOpened (R.reply replier.old) (R.reply_at_end replier.old) (R.was_fed replier.new) given fed.flow out.new.items)
        × (IsErrOf result OpeningFault.Exhausted → 2 ^ 64 - 1 ≤ length given) }
    ensures ended { OnOk result (IsAtEnd (S.left source.new)) }
    ensures same { R.reply replier.new ≡ R.reply replier.old }
    ensures same_at_end { R.reply_at_end replier.new ≡ R.reply_at_end replier.old }
    ensures settings { R.settings replier.new ≡ R.settings replier.old }
    ensures faultless { result ≢ Err OpeningFault.ReadFault → S.faults source.new ≡ S.faults source.old }
    ensures read_fault { IsErrOf result OpeningFault.ReadFault → Rose (S.faults source.old) (S.faults source.new) }
{
    let mut is_cut_off = false;
    'turns: for _ in 0..u64::MAX {
        let next = feed_next(alloc, source, replier, room, out)?;
        if next.count == 0 {
            return Ok(Fed {
                count: 0,
                flow: next.flow,
                is_cut_off,
            });
        }
        is_cut_off = next.is_cut_off;
    }
    Err(OpeningFault::Exhausted)
}

/// Ends the last line of what was fed, where it has not ended, and gives whether the dialogue goes on.
fn end_line<R: Replier>(
    alloc: Global,
    fed: Fed,
    replier: &mut R,
    out: &mut Vec<u8>,
) -> Result<Flow, OpeningFault>
    requires { (given : List ℕ) × R.was_fed replier.old given }
    ensures opened { (given : List ℕ) → fed.is_cut_off ≡ is_cut_off given
        → HasOpened (R.reply replier.old) (R.reply_at_end replier.old) (R.was_fed replier.old) given fed.flow out.old.items
        → IfOk result (λ flow. HasOpened (R.reply replier.old) (R.reply_at_end replier.old) (R.was_fed replier.new) (with_end given) flow out.new.items) }
    ensures same { R.reply replier.new ≡ R.reply replier.old }
    ensures same_at_end { R.reply_at_end replier.new ≡ R.reply_at_end replier.old }
    ensures settings { R.settings replier.new ≡ R.settings replier.old }
    ensures cause { result ≢ Err OpeningFault.ReadFault }
    ensures countless { result ≢ Err OpeningFault.Exhausted }
{
    if !fed.is_cut_off {
        return Ok(fed.flow);
    }
    Ok(replier.feed(alloc, b"\n", out)?)
}

/// Opens a dialogue with a text: feeds a replier that was fed nothing with all bytes that a source has left, and with a newline behind where their
/// last line has not ended. Gives what has to be written before anything is read.
///
/// `ReadFault` comes only where the source's count of faults rose in this call; at each other answer no call of the source has failed.
/// `NoMemory` comes where there was no memory, and `Exhausted` only where the source gave 2^64 - 1 bytes or more. After an error the replier
/// was fed a part of the text and is of no more use. It is set up as before.
pub fn open_with<S: Source, R: Replier>(
    alloc: Global,
    source: &mut S,
    replier: &mut R,
) -> Result<Opening, OpeningFault>
    requires fed { R.was_fed replier.old [] }
    requires silent { R.reply replier.old [] ≡ [] }
    ensures given { (given : List ℕ) × Consumes (S.left source.old) (S.left source.new) given
        × IfOk result (λ opening. HasOpened (R.reply replier.old) (R.reply_at_end replier.old) (R.was_fed replier.new) (with_end given)
        opening.flow opening.text.items)
        × (IsErrOf result OpeningFault.Exhausted → 2 ^ 64 - 1 ≤ length given) }
    ensures read { OnOk result (IsAtEnd (S.left source.new)) }
    ensures same { R.reply replier.new ≡ R.reply replier.old }
    ensures same_at_end { R.reply_at_end replier.new ≡ R.reply_at_end replier.old }
    ensures settings { R.settings replier.new ≡ R.settings replier.old }
    ensures faultless { result ≢ Err OpeningFault.ReadFault → S.faults source.new ≡ S.faults source.old }
    ensures read_fault { IsErrOf result OpeningFault.ReadFault → Rose (S.faults source.old) (S.faults source.new) }
{
    let mut text = Vec::new(alloc);
    let mut room = vec![in alloc; 0u8; PIECE_BYTES]?;
    let fed = feed_all(alloc, source, replier, &mut room, &mut text)?;
    let flow = end_line(alloc, fed, replier, &mut text)?;
    Ok(Opening { text, flow })
}
