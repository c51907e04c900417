//! What reads a board.
ghost use Rattle.std.specs.Prelude.{◌≡◌, ◌+◌, ◌<◌, length, slice_index, true, IfSome, IfNone, MatchBool};
ghost use mathlib.Core.List.{IsPrefix};
ghost use Rattle.kc_snapshot.specs.Histories.{core_at, last_list, list_at, width};

use crate::board::Board;
use crate::front::{Front, Note};
use crate::name::BoardName;
use left_right::ReadHandle;
use std::marker::Model;
use std::sync::Wait;

/// What a read answers.
#[derive(Clone, Copy, Debug, Drop, Eq, PartialEq)]
pub struct Read {
    /// The number of the list in the board's history, from 0.
    pub number: u32,
    /// The core number of the vertex there.
    pub core: u32,
}

/// One that reads, in whatever thread. Contracts see what it has seen: a beginning of the board's history, with at least one list.
///
/// # Example
///
/// ```rust
/// // A board of four vertices, which was opened with 1 for each.
/// let before = reader.read(rt, 0); // Read { number: 0, core: 1 }
/// let number = publisher.publish(rt, &[2, 2, 2, 2])?; // 1
/// reader.learn(rt, publisher.tell());
/// let after = reader.read(rt, 0); // Read { number: 1, core: 2 }
/// let mut core = [0; 4];
/// let number = reader.cores(rt, &mut core); // 1, and the core numbers are 2, 2, 2, 2
/// ```
#[derive(Drop)]
pub struct Reader<J: BoardName> {
    handle: ReadHandle<Board<J>>,
    seen: Front<J>,
}

impl<J: BoardName> Model for Reader<J> {
    ghost use Rattle.std.specs.Prelude.{List};
    ghost use Rattle.kc_snapshot.specs.declared.member.Member.{Member};

    ghost Value = { List Member };

    ghost view = { λ r. r.seen };
}

// One look at the board. None where it shows less than was seen, or where the publisher is gone.
fn look_once<J: BoardName>(handle: &mut ReadHandle<Board<J>>, seen: &mut Front<J>) -> Option<()>
    ensures later { IsPrefix seen.old seen.new }
    ensures width { width seen.new ≡ width seen.old }
    ensures none { IfNone result (seen.new ≡ seen.old) }
{
    let guard = handle.enter()?;
    let board: &Board<J> = &guard;
    board.show(seen)?;
    Some(())
}

// As `look_once`, for the core number of a vertex.
fn read_once<J: BoardName>(
    handle: &mut ReadHandle<Board<J>>,
    seen: &mut Front<J>,
    v: u32,
) -> Option<u32>
    requires { v < width seen.old }
    ensures later { IsPrefix seen.old seen.new }
    ensures width { width seen.new ≡ width seen.old }
    ensures core { IfSome result (λ core. core ≡ slice_index (last_list seen.new) v) }
    ensures none { IfNone result (seen.new ≡ seen.old) }
{
    let guard = handle.enter()?;
    let board: &Board<J> = &guard;
    let core = board.show(seen)?;
    Some(core[v as usize])
}

// As `look_once`, for the core numbers of all vertices.
fn copy_once<J: BoardName>(
    handle: &mut ReadHandle<Board<J>>,
    seen: &mut Front<J>,
    into: &mut [u32],
) -> Option<()>
    requires { length into.old ≡ width seen.old }
    ensures later { IsPrefix seen.old seen.new }
    ensures width { width seen.new ≡ width seen.old }
    ensures cores { IfSome result (λ _. into.new ≡ last_list seen.new) }
    ensures none { IfNone result (seen.new ≡ seen.old) }
{
    let guard = handle.enter()?;
    let board: &Board<J> = &guard;
    let core = board.show(seen)?;
    into.copy_from_slice(core.as_slice());
    Some(())
}

impl<J: BoardName> Reader<J> {
    /// A reader that has seen so much.
    pub(crate) fn new(handle: ReadHandle<Board<J>>, seen: Front<J>) -> Reader<J>
        ensures { result ≡ seen }
    {
        Reader { handle, seen }
    }

    /// What it has seen.
    pub(crate) fn seen(&self) -> &Front<J>
        ensures { result.now ≡ self.now }
    {
        &self.seen
    }

    /// Takes in what the publisher told, and looks at the board once. It asks again where the board shows less than that.
    pub fn learn<R: Wait>(&mut self, rt: &R, note: Note<J>)
        ensures later { IsPrefix self.old self.new }
        ensures told { IsPrefix note self.new }
        ensures width { width self.new ≡ width self.old }
    {
        self.seen.take_in(&note);
        for _ in rt.forever() {
            if look_once(&mut self.handle, &mut self.seen).is_some() {
                return;
            }
        }
        unreachable!()
    }

    /// The core number of a vertex in the last list that is then seen, and that list's number. It asks again where the board shows less
    /// than this reader has seen; it never waits for a publish, and takes no memory.
    pub fn read<R: Wait>(&mut self, rt: &R, v: u32) -> Read
        requires { v < width self.old }
        ensures later { IsPrefix self.old self.new }
        ensures last { result.number + 1 ≡ length self.new }
        ensures core { result.core ≡ core_at self.new result.number v }
        ensures width { width self.new ≡ width self.old }
    {
        for _ in rt.forever() {
            if let Some(core) = read_once(&mut self.handle, &mut self.seen, v) {
                return Read {
                    number: self.seen.last(),
                    core,
                };
            }
        }
        unreachable!()
    }

    /// The core numbers of all vertices in the last list that is then seen, and that list's number. It asks again as `read` does.
    pub fn cores<R: Wait>(&mut self, rt: &R, into: &mut [u32]) -> u32
        requires { length into.old ≡ width self.old }
        ensures later { IsPrefix self.old self.new }
        ensures last { result + 1 ≡ length self.new }
        ensures cores { into.new ≡ list_at self.new result }
        ensures width { width self.new ≡ width self.old }
    {
        for _ in rt.forever() {
            if copy_once(&mut self.handle, &mut self.seen, into).is_some() {
                return self.seen.last();
            }
        }
        unreachable!()
    }
}
