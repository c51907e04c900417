//! Hands on the lines of a source in pieces, so that its text is never held.
ghost use Rattle.std.specs.Prelude.{◌≡◌, ◌≢◌, ◌≤◌, ◌<◌, ◌-◌, ◌++◌, ℕ, List, [], Err, IfOk, IsErrOf, OnOk, length};
ghost use Rattle.std.specs.Io.KnownBytes.{Consumes, IsAtEnd};
ghost use Rattle.kc_io.specs.Causes.{Rose};
ghost use Rattle.kc_text.specs.Lines.{EndsLine};
ghost use Rattle.kc_text.specs.declared.limits.TheConstants.Limits.{GRAPH};
ghost use Rattle.kc_claims.specs.Feeding.{HasFed, IsFedWith};

use crate::fault::{Unswept, Untaken};
use kc_io::source::Source;
use kc_stream::ended_len;
use kc_text::Limits;
use std::alloc::Global;

/// The most bytes that are asked for at once.
const PIECE_BYTES: usize = 65_536;

/// What takes the lines of a text, one piece of the text after another.
pub(crate) trait TakesLines {
    /// That one who began as the first has taken these bytes, and is the second now.
    ghost taken: { Self → Self → List ℕ → Type 0 };

    /// Takes more bytes, where those before end with a line. After an error it is of no more use.
    fn take_lines(&mut self, lines: &[u8]) -> Result<(), Untaken>
        requires { (start : Self) × (before : List ℕ) × taken start self.old before }
        ensures { OnOk result ((start : Self) (before : List ℕ) → EndsLine before → taken start self.old before
            → taken start self.new (before ++ lines.now)) };
}

/// Hands on bytes that are none or end with a line, behind those that are carried.
fn take_whole<T: TakesLines>(
    carry: &mut Vec<u8>,
    whole: &[u8],
    taker: &mut T,
) -> Result<(), Untaken>
    requires ended { EndsLine whole.now }
    requires fed { (start : T) × (text : List ℕ) × HasFed T.taken start taker.old carry.old.items text }
    ensures fed { OnOk result ((start : T) (text : List ℕ) → HasFed T.taken start taker.old carry.old.items text
        → HasFed T.taken start taker.new carry.new.items (text ++ whole.now)) }
{
    if whole.is_empty() {
        return Ok(());
    }
    if carry.is_empty() {
        taker.take_lines(whole)?;
        return Ok(());
    }
    carry.extend_from_slice(whole)?;
    taker.take_lines(carry)?;
    carry.clear();
    Ok(())
}

/// Hands on the lines that end in a piece, and carries the rest.
fn take_piece<T: TakesLines>(
    carry: &mut Vec<u8>,
    piece: &[u8],
    taker: &mut T,
) -> Result<(), Untaken>
    requires fed { (start : T) × (text : List ℕ) × HasFed T.taken start taker.old carry.old.items text }
    ensures fed { OnOk result ((start : T) (text : List ℕ) → HasFed T.taken start taker.old carry.old.items text
        → HasFed T.taken start taker.new carry.new.items (text ++ piece.now)) }
{
    let (whole, rest) = piece.split_at(ended_len(piece));
    take_whole(carry, whole, taker)?;
    carry.extend_from_slice(rest)?;
    Ok(())
}

/// Reads the next bytes of the source into `room`, and hands them on. Gives their number; 0 is the end of the source.
fn feed_next<S: Source, T: TakesLines>(
    source: &mut S,
    room: &mut [u8],
    carry: &mut Vec<u8>,
    taker: &mut T,
) -> Result<usize, Unswept>
    requires room { 0 < length room.old }
    requires fed { (start : T) × (text : List ℕ) × HasFed T.taken start taker.old carry.old.items text }
    ensures given { IfOk result (λ n. (given : List ℕ) × Consumes (S.left source.old) (S.left source.new) given × (length given ≡ n)
        × ((start : T) (text : List ℕ) → HasFed T.taken start taker.old carry.old.items text
        → HasFed T.taken start taker.new carry.new.items (text ++ given))) }
    ensures ended { IfOk result (λ n. n ≡ 0 → IsAtEnd (S.left source.new)) }
    ensures untouched { IsErrOf result Unswept.ReadFault → taker.new ≡ taker.old }
    ensures failed { IsErrOf result Unswept.ReadFault → Rose (S.faults source.old) (S.faults source.new) }
    ensures faultless { result ≢ Err Unswept.ReadFault → S.faults source.new ≡ S.faults source.old }
{
    let Ok(n) = source.read(room) else {
        return Err(Unswept::ReadFault);
    };
    match take_piece(carry, &room[..n], taker) {
        Ok(()) => Ok(n),
        Err(fault) => Err(fault.unswept()),
    }
}

/// Hands on what is carried at the end of the source.
fn take_last<T: TakesLines>(carry: &[u8], taker: &mut T) -> Result<(), Unswept>
    requires { (start : T) × (before : List ℕ) × T.taken start taker.old before }
    ensures taken { OnOk result ((start : T) (before : List ℕ) → EndsLine before → T.taken start taker.old before
        → T.taken start taker.new (before ++ carry.now)) }
    ensures unread { result ≢ Err Unswept.ReadFault }
{
    match taker.take_lines(carry) {
        Ok(()) => Ok(()),
        Err(fault) => Err(fault.unswept()),
    }
}

/// Hands on all lines of a source, in pieces that fill the room or less. Gives how many bytes are left of the most that there may be.
fn feed_pieces<S: Source, T: TakesLines>(
    source: &mut S,
    room: &mut [u8],
    carry: &mut Vec<u8>,
    taker: &mut T,
    most: usize,
) -> Result<usize, Unswept>
    requires room { 0 < length room.old }
    requires none { carry.old.items ≡ [] }
    requires fresh { T.taken taker.old taker.old [] }
    ensures fed { IfOk result (λ left. (left ≤ most) × IsFedWith T.taken taker.old taker.new (S.left source.old) (most - left)) }
    ensures so_far { IsErrOf result Unswept.ReadFault → (done : List ℕ) × T.taken taker.old taker.new done }
    ensures failed { IsErrOf result Unswept.ReadFault → Rose (S.faults source.old) (S.faults source.new) }
    ensures faultless { result ≢ Err Unswept.ReadFault → S.faults source.new ≡ S.faults source.old }
{
    let mut left = most;
    loop {
        let n = feed_next(source, room, carry, taker)?;
        if left < n {
            return Err(Unswept::Unfit);
        }
        if n == 0 {
            take_last(carry, taker)?;
            return Ok(left);
        }
        left -= n;
    }
}

/// Hands on all lines of a source, of which there are to be no more bytes than these. Gives how many are left of them. Where the source fails,
/// some of its bytes were taken.
pub(crate) fn feed_within<S: Source, T: TakesLines>(
    alloc: Global,
    source: &mut S,
    taker: &mut T,
    most: usize,
) -> Result<usize, Unswept>
    requires { T.taken taker.old taker.old [] }
    ensures fed { IfOk result (λ left. (left ≤ most) × IsFedWith T.taken taker.old taker.new (S.left source.old) (most - left)) }
    ensures so_far { IsErrOf result Unswept.ReadFault → (done : List ℕ) × T.taken taker.old taker.new done }
    ensures failed { IsErrOf result Unswept.ReadFault → Rose (S.faults source.old) (S.faults source.new) }
    ensures faultless { result ≢ Err Unswept.ReadFault → S.faults source.new ≡ S.faults source.old }
{
    let mut room = vec![in alloc; 0u8; PIECE_BYTES]?;
    let mut carry = Vec::new(alloc);
    let left = feed_pieces(source, &mut room, &mut carry, taker, most)?;
    Ok(left)
}

/// Hands on all lines of a source. They may be as long as the text of a graph.
pub(crate) fn feed_all<S: Source, T: TakesLines>(
    alloc: Global,
    source: &mut S,
    taker: &mut T,
) -> Result<(), Unswept>
    requires { T.taken taker.old taker.old [] }
    ensures fed { OnOk result (IsFedWith T.taken taker.old taker.new (S.left source.old) GRAPH.bytes) }
    ensures failed { IsErrOf result Unswept.ReadFault → Rose (S.faults source.old) (S.faults source.new) }
    ensures faultless { result ≢ Err Unswept.ReadFault → S.faults source.new ≡ S.faults source.old }
{
    match feed_within(alloc, source, taker, Limits::GRAPH.bytes) {
        Ok(_) => Ok(()),
        Err(fault) => Err(fault),
    }
}
