//! A journal and the board that shows its core numbers.
ghost use Rattle.std.specs.Prelude.{◌≡◌, ◌≤◌, ◌<◌, ◌++◌, ◌∷◌, [], All, IfErr, IfOk, MatchResult, OnErr, OnOk, length, vec_len};
ghost use mathlib.Core.List.{IsPrefix};
ghost use Rattle.kc_graph.specs.Core.{AreCoreNumbers};
ghost use Rattle.kc_levels.specs.Levels.{size_of};
ghost use Rattle.kc_view.specs.Sure.{IsSure};
ghost use Rattle.kc_journal.specs.Answers.{IsCause, IsEntered};
ghost use Rattle.kc_journal.specs.Entering.{WasReadOf};
ghost use Rattle.kc_journal.specs.Journals.{Renews, all_seen};
ghost use Rattle.kc_snapshot.specs.declared.publisher.TheConstants.{MOST_LISTS, MOST_READERS};
ghost use Rattle.kc_snapshot.specs.Histories.{last_list, member, width};
ghost use Rattle.kc_published.specs.Showings.{Covers};

use crate::moved::Moved;
use kc_graph::{NoMemory, Plan};
use kc_journal::{EnterFault, Entered, Journal};
use kc_snapshot::{Blank, BoardName, Note, Publisher, Reader, open};
use kc_table::{Pass, Words};
use kc_words::{INDICES, LAST_VERSION};
use std::alloc::Global;
use std::marker::Model;
use std::sync::Wait;

/// A journal, and the publisher of a board that shows its core numbers.
///
/// Contracts see the journal and the history of the board. By its type the last list of the history and the journal's core numbers differ
/// only at vertices that were noted since.
///
/// # Example
///
/// ```rust
/// use kc_graph::Update;
/// use kc_journal::plan_held;
/// use kc_published::Published;
/// use kc_view::Scratch;
///
/// // In a function of the board's name, as at `kc_snapshot::open`, with the parts of `Journal::open` for the path 0, 1, 2, 3.
/// let (mut shown, mut readers) = Published::<J, &R>::open(rt, alloc, blank, journal, 1)?;
/// let update = Update { add: true, u: 0, v: 3 };
/// let (planned, _) = plan_held(alloc, shown.journal(), Scratch::new(alloc, 4)?, update);
/// shown.enter(&words, &mut pass, 0, &planned?)?;
/// let number = shown.publish(rt)?; // 1
/// if let Some(reader) = readers.last_mut() {
///     reader.learn(rt, shown.tell());
///     let read = reader.read(rt, 0); // Read { number: 1, core: 2 }: the path is a circle now
/// }
/// ```
#[derive(Drop)]
pub struct Published<J: BoardName, R: Wait + Drop> {
    journal: Journal,
    publisher: Publisher<J, R>,
    moved: Moved,
}

impl<J: BoardName, R: Wait + Drop> Model for Published<J, R> {
    ghost use Rattle.std.specs.Coded.{codes};
    ghost use Rattle.kc_graph.specs.Rows.{code_of_graph};
    ghost use Rattle.kc_published.specs.Showings.{Showing, BoardFollows};

    ghost Value = { Showing };

    ghost coded = { Prim.hlevel (codes, code_of_graph) };

    ghost view = { λ s. record { journal = s.journal; history = s.publisher } };

    ghost invariant = { λ s. BoardFollows s.journal s.publisher s.moved };
}

/// Publishes a list that may differ from the last one at these vertices.
fn add_list<J: BoardName, R: Wait + Drop, W: Wait>(
    rt: &W,
    publisher: &mut Publisher<J, R>,
    core: &[u32],
    moved: &Moved,
) -> Result<u32, NoMemory>
    requires vertices { length core.now ≡ width publisher.old }
    requires room { length publisher.old < MOST_LISTS }
    requires covers { Covers moved.now (last_list publisher.old) core.now }
    ensures number { IfOk result (λ number. number ≡ length publisher.old) }
    ensures added { OnOk result (publisher.new ≡ publisher.old ++ member core.now ∷ []) }
    ensures same { OnErr result (publisher.new ≡ publisher.old) }
    ensures width { width publisher.new ≡ width publisher.old }
{
    if moved.lacks() {
        publisher.publish(rt, core)
    } else {
        publisher.publish_among(rt, core, moved.vertices())
    }
}

impl<J: BoardName, R: Wait + Drop> Published<J, R> {
    /// Opens a board for a journal, with so many readers. Its first list has the journal's core numbers. `NoMemory`: there was no memory
    /// for the board; the journal is then dropped.
    pub fn open(
        rt: R,
        alloc: Global,
        blank: Blank,
        journal: Journal,
        readers: u32,
    ) -> Result<(Published<J, R>, Vec<Reader<J>>), NoMemory>
        requires blank { blank ≡ J.book }
        requires readers { (0 < readers) × (readers ≤ MOST_READERS) }
        ensures journal { IfOk result (λ r. r.0.journal ≡ journal) }
        ensures history { IfOk result (λ r. r.0.history ≡ member journal.levels.core ∷ []) }
        ensures count { IfOk result (λ r. vec_len r.1 ≡ readers) }
        ensures readers { IfOk result (λ r. All (λ reader. reader ≡ member journal.levels.core ∷ []) r.1.items) }
    {
        let vertices = journal.vertices() as usize;
        let (publisher, seats) = open::<J, R>(rt, alloc, blank, journal.core_numbers(), readers)?;
        let shown = Published {
            journal,
            publisher,
            moved: Moved::none(alloc, vertices),
        };
        Ok((shown, seats))
    }

    /// The journal.
    pub fn journal(&self) -> &Journal
        ensures { result.now ≡ self.now.journal }
    {
        &self.journal
    }

    /// Enters an update as `Journal::enter` does, and notes which vertices leave their level. Nothing is published.
    pub fn enter(
        &mut self,
        words: &Words,
        pass: &mut Pass,
        index: u32,
        plan: &Plan,
    ) -> Result<Entered, EnterFault>
        requires table { (pass.old.table ≡ words.now) × (self.old.journal.levels.table ≡ words.now) }
        requires index { index < INDICES }
        requires within { plan.now.update.v < size_of self.old.journal.levels }
        requires read { WasReadOf self.old.journal pass.old.log plan.now }
        requires sure { IsSure plan.now }
        ensures entered { IfOk result (λ entered. IsEntered self.old.journal self.new.journal index plan.now entered) }
        ensures cause { IfErr result (λ fault. IsCause self.old.journal plan.now fault) }
        ensures same { OnErr result (self.new.journal ≡ self.old.journal) }
        ensures told { pass.new ≡ all_seen self.old.journal }
        ensures longer { IsPrefix pass.old.log self.old.journal.levels.log }
        ensures history { self.new.history ≡ self.old.history }
    {
        let entered = self.journal.enter(words, pass, index, plan, None)?;
        self.moved.note(&plan.moves);
        Ok(entered)
    }

    /// Publishes the journal's core numbers, and answers the number of their list. It costs the vertices that were noted since the last
    /// publish, some of them more than once; where it knows no longer which they are, it costs all. It waits for readers that are in the
    /// copy of the list before the last one. `NoMemory`: the history is as it was.
    pub fn publish<W: Wait>(&mut self, rt: &W) -> Result<u32, NoMemory>
        requires room { length self.old.history < MOST_LISTS }
        ensures journal { self.new.journal ≡ self.old.journal }
        ensures number { IfOk result (λ number. number ≡ length self.old.history) }
        ensures added { OnOk result (self.new.history ≡ self.old.history ++ member self.old.journal.levels.core ∷ []) }
        ensures seidman { OnOk result (AreCoreNumbers self.old.journal.graph self.old.journal.levels.core) }
        ensures same { OnErr result (self.new.history ≡ self.old.history) }
    {
        let core = self.journal.core_numbers();
        let number = add_list(rt, &mut self.publisher, core, &self.moved)?;
        self.moved.clear();
        Ok(number)
    }

    /// Goes on in a fresh table, as `Journal::renew` does.
    pub fn renew(&mut self, alloc: Global, version: u32) -> Result<(Words, Pass), NoMemory>
        requires { version ≤ LAST_VERSION }
        ensures renewed { IfOk result (λ r. Renews self.old.journal self.new.journal version r.0 r.1) }
        ensures same { OnErr result (self.new.journal ≡ self.old.journal) }
        ensures history { self.new.history ≡ self.old.history }
    {
        self.journal.renew(alloc, version)
    }

    /// What a reader is to learn: all that was published. It can go to the reader's thread.
    pub fn tell(&self) -> Note<J>
        ensures { result ≡ self.now.history }
    {
        self.publisher.tell()
    }

    /// No reader has seen more than was published. The call does nothing else.
    pub fn covers(&mut self, reader: &Reader<J>)
        ensures same { self.new ≡ self.old }
        ensures seen { IsPrefix reader.now self.new.history }
    {
        self.publisher.covers(reader);
    }

    /// Ends the board, and gives the journal back. It waits for the readers that are reading. A reader that asks later may wait for ever.
    pub fn end(self) -> Journal
        ensures { result ≡ self.journal }
    {
        let Published {
            journal,
            publisher,
            ..
        } = self;
        publisher.end();
        journal
    }
}
