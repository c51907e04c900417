//! What opens a board and publishes lists.
ghost use Rattle.std.specs.Prelude.{◌≡◌, ◌+◌, ◌≤◌, ◌<◌, ◌++◌, ◌∷◌, [], length, All, IfOk, MatchResult, OnOk, vec_len};
ghost use mathlib.Core.List.{IsPrefix};
ghost use Rattle.left_right.specs.Handles.{pending, published};
ghost use Rattle.kc_snapshot.specs.Changes.{gone_on};
ghost use Rattle.kc_snapshot.specs.Histories.{DifferAmong, changed, last_list, member, numbers_at as numbers_there, width};

use crate::NoMemory;
use crate::author::Author;
use crate::board::{Board, BoardChange};
use crate::front::{Front, Note};
use crate::listing::{Place, differences, numbers_at};
use crate::member::Member;
use crate::name::BoardName;
use crate::reader::Reader;
use crate::steps::Blank;
use left_right::{Absorb, WriteHandle};
use std::alloc::Global;
use std::marker::Model;
use std::sync::Wait;

/// The most readers that a board may have.
pub const MOST_READERS: u32 = 64;

/// The most lists that a board may have.
pub const MOST_LISTS: u32 = u32::MAX;

type BoardWriter<J, R> = WriteHandle<Board<J>, BoardChange<J>, R>;

/// The one that publishes. Contracts see the whole history of the board.
///
/// Its drop, as `end`, waits for the readers that are reading.
#[derive(Drop)]
pub struct Publisher<J: BoardName, R: Wait + Drop>
where
    Board<J>: Absorb<BoardChange<J>, State = [Member; 0]>,
{
    alloc: Global,
    author: Author<J>,
    shown: BoardWriter<J, R>,
}

impl<J: BoardName, R: Wait + Drop> Model for Publisher<J, R>
where
    Board<J>: Absorb<BoardChange<J>, State = [Member; 0]>,
{
    ghost use Rattle.std.specs.Prelude.{◌≡◌, List, length};
    ghost use Rattle.left_right.specs.Handles.{pending, published};
    ghost use Rattle.kc_snapshot.specs.declared.member.Member.{Member};

    ghost Value = { List Member };

    ghost view = { λ p. p.author };

    ghost invariant = { λ p. (published p.shown ≡ p.author) × (length (pending p.shown) ≡ 0) };
}

/// Opens a board with a list of core numbers, for so many readers. `NoMemory`: there was no memory for the two copies, for the readers,
/// or for the changes that are to come, of which no more than two are ever kept.
///
/// # Example
///
/// ```rust
/// use kc_snapshot::{Blank, BoardName, NoMemory, Read, open};
///
/// // A function of the board's name, which is called with `Brand`.
/// fn show<J: BoardName, R: Wait>(rt: &R, alloc: Global, blank: Blank) -> Result<Option<Read>, NoMemory>
///     requires { blank ≡ J.book }
/// {
///     let (mut publisher, mut readers) = open::<J, &R>(rt, alloc, blank, &[1, 1, 1, 1], 1)?;
///     publisher.publish(rt, &[2, 2, 2, 2])?;
///     let Some(mut reader) = readers.pop() else { return Ok(None) };
///     reader.learn(rt, publisher.tell());
///     Ok(Some(reader.read(rt, 0)))
/// }
///
/// let read = show::<Brand, _>(rt, alloc, Blank::new())?; // Some(Read { number: 1, core: 2 })
/// ```
pub fn open<J: BoardName, R: Wait + Drop>(
    rt: R,
    alloc: Global,
    blank: Blank,
    core: &[u32],
    readers: u32,
) -> Result<(Publisher<J, R>, Vec<Reader<J>>), NoMemory>
    requires blank { blank ≡ J.book }
    requires readers { (0 < readers) × (readers ≤ MOST_READERS) }
    ensures publisher { IfOk result (λ r. r.0 ≡ member core.now ∷ []) }
    ensures count { IfOk result (λ r. vec_len r.1 ≡ readers) }
    ensures readers { IfOk result (λ r. All (λ reader. reader ≡ member core.now ∷ []) r.1.items) }
{
    let first = Vec::from_slice(alloc, core)?;
    let second = Vec::from_slice(alloc, core)?;
    let author = Author::new(blank, &first, &Vec::new(alloc))?;
    let first = Board::new(first, author.front().again());
    let second = Board::new(second, author.front().again());
    let mut shown = WriteHandle::new(alloc, rt, first, second, readers as usize)?;
    make_room(alloc, author.front(), &mut shown)?;
    let seats = seat(alloc, author.front(), &shown, readers)?;
    let publisher = Publisher {
        alloc,
        author,
        shown,
    };
    Ok((publisher, seats))
}

// Takes the memory for two changes, which is all that is kept at a time: the one that a publish shows, and the one before.
fn make_room<J: BoardName, R: Wait + Drop>(
    alloc: Global,
    front: &Front<J>,
    shown: &mut BoardWriter<J, R>,
) -> Result<(), NoMemory>
    requires published { published shown.old ≡ front.now }
    requires pending { length (pending shown.old) ≡ 0 }
    ensures published { IfOk result (λ _. published shown.new ≡ front.now) }
    ensures pending { IfOk result (λ _. length (pending shown.new) ≡ 0) }
{
    let one = BoardChange::new(front.again(), front.again(), Vec::new(alloc));
    let two = BoardChange::new(front.again(), front.again(), Vec::new(alloc));
    shown.append(one).map_err(|_| NoMemory)?;
    shown.append(two).map_err(|_| NoMemory)?;
    shown.publish()?;
    shown.publish()
}

// So many readers.
fn seat<J: BoardName, R: Wait + Drop>(
    alloc: Global,
    front: &Front<J>,
    shown: &BoardWriter<J, R>,
    readers: u32,
) -> Result<Vec<Reader<J>>, NoMemory>
    ensures count { IfOk result (λ seats. vec_len seats ≡ readers) }
    ensures seen { IfOk result (λ seats. All (λ reader. reader ≡ front.now) seats.items) }
{
    let mut seats = Vec::new(alloc);
    for _ in 0..readers {
        seats.push(Reader::new(shown.handle()?, front.again()))?;
    }
    Ok(seats)
}

// Keeps a change until it is shown. Room was made for it when the board was opened; where there is none, it asks again.
#[tactic(auto, using(crate::proofs::Lists::only_one))]
fn keep<J: BoardName, R: Wait + Drop, W: Wait>(
    rt: &W,
    shown: &mut BoardWriter<J, R>,
    change: BoardChange<J>,
)
    requires { length (pending shown.old) ≡ 0 }
    ensures published { published shown.new ≡ published shown.old }
    ensures pending { pending shown.new ≡ change ∷ [] }
{
    let mut change = change;
    for _ in rt.forever() {
        match shown.append(change) {
            Ok(()) => return,
            Err(back) => change = back,
        }
    }
    unreachable!()
}

// Shows a change to the readers.
fn show<J: BoardName, R: Wait + Drop, W: Wait>(
    rt: &W,
    shown: &mut BoardWriter<J, R>,
    change: BoardChange<J>,
)
    requires { length (pending shown.old) ≡ 0 }
    ensures published { published shown.new ≡ gone_on (published shown.old) change }
    ensures pending { length (pending shown.new) ≡ 0 }
{
    keep(rt, shown, change);
    let Ok(()) = shown.publish() else {
        unreachable!()
    };
}

impl<J: BoardName, R: Wait + Drop> Publisher<J, R> {
    /// Publishes a list, and answers its number. It waits for readers that are in the copy of the list before the last one.
    ///
    /// It goes through the list once, and changes the copies at the vertices whose numbers differ. `NoMemory`: there was no memory for
    /// these; the history is as it was.
    pub fn publish<W: Wait>(&mut self, rt: &W, core: &[u32]) -> Result<u32, NoMemory>
        requires vertices { length core.now ≡ width self.old }
        requires room { length self.old < MOST_LISTS }
        ensures added { MatchResult result
            (λ number. (number ≡ length self.old) × (self.new ≡ self.old ++ member core.now ∷ []))
            (λ _. self.new ≡ self.old) }
        ensures width { width self.new ≡ width self.old }
    {
        let places = differences(self.alloc, self.shown.published().core().as_slice(), core)?;
        self.publish_changes(rt, places)
    }

    /// Publishes the last list with the numbers that `core` has at these vertices, and answers the new one's number. So where no other
    /// vertex has a new number, `core` is published. It waits as `publish` does. Its cost is that of these vertices, which no clause says.
    /// `NoMemory`: the history is as it was.
    pub fn publish_among<W: Wait>(
        &mut self,
        rt: &W,
        core: &[u32],
        vertices: &[u32],
    ) -> Result<u32, NoMemory>
        requires vertices { length core.now ≡ width self.old }
        requires room { length self.old < MOST_LISTS }
        ensures added { MatchResult result
            (λ number. (number ≡ length self.old)
            × (self.new ≡ self.old ++ member (changed (last_list self.old) (numbers_there core.now vertices.now)) ∷ []))
            (λ _. self.new ≡ self.old) }
        ensures whole { OnOk result (DifferAmong vertices.now (last_list self.old) core.now → self.new ≡ self.old ++ member core.now ∷ []) }
        ensures width { width self.new ≡ width self.old }
    {
        self.author.front().measure();
        let places = numbers_at(self.alloc, core, vertices)?;
        self.publish_changes(rt, places)
    }

    /// Publishes the last list with these places changed, and answers the new one's number. It waits as `publish` does. Its cost is that
    /// of the places, which no clause says. `NoMemory`: the history is as it was.
    pub fn publish_changes<W: Wait>(&mut self, rt: &W, places: Vec<Place>) -> Result<u32, NoMemory>
        requires room { length self.old < MOST_LISTS }
        ensures added { MatchResult result
            (λ number. (number ≡ length self.old) × (self.new ≡ self.old ++ member (changed (last_list self.old) places.items) ∷ []))
            (λ _. self.new ≡ self.old) }
        ensures width { width self.new ≡ width self.old }
    {
        let before = self.author.front().again();
        self.author.add(self.shown.published().core(), &places)?;
        let after = self.author.front().again();
        let number = after.last();
        show(rt, &mut self.shown, BoardChange::new(before, after, places));
        Ok(number)
    }

    /// What a reader is to learn: all that was published. It can go to the reader's thread.
    pub fn tell(&self) -> Note<J>
        ensures { result ≡ self.now }
    {
        self.author.front().again()
    }

    /// No reader has seen more than was published. The call does nothing else.
    pub fn covers(&mut self, reader: &Reader<J>)
        ensures same { self.new ≡ self.old }
        ensures seen { IsPrefix reader.now self.new }
    {
        self.author.cover(reader.seen());
    }

    /// Ends the board. It waits for the readers that are reading. A reader that asks later may wait for ever.
    pub fn end(self) {
        drop(self);
    }
}
