//! Updates of a journal, each planned over it and entered.
ghost use Rattle.std.specs.Prelude.{◌≡◌, ◌<◌};

use kc_graph::{Lawful, NoMemory, Update};
use kc_journal::{Journal, Receipt, plan_held};
use kc_table::{Pass, Words};
use kc_view::Scratch;
use kc_words::{INDICES, VERTICES};
use std::alloc::Global;
use std::mem;

/// A journal with the words of its table, a pass, and marks for its views.
#[derive(Drop)]
pub(crate) struct Run {
    words: Words,
    journal: Journal,
    pass: Pass,
    scratch: Scratch,
    /// How many vertices the marks are for.
    marked: u32,
    ghost told: { pass.table ≡ words },
    ghost table: { journal.levels.table ≡ words },
    ghost marks: { scratch ≡ marked },
}

impl Run {
    /// The run of a state, or `None` where it has too many vertices.
    pub(crate) fn open(alloc: Global, lawful: Lawful) -> Result<Option<Run>, NoMemory> {
        let vertices = lawful.graph().vertices();
        if vertices > VERTICES {
            return Ok(None);
        }
        let scratch = Scratch::new(alloc, vertices)?;
        let (words, journal, pass) = Journal::open(alloc, lawful, 0)?;
        Ok(Some(Run {
            words,
            journal,
            pass,
            scratch,
            marked: vertices,
        }))
    }

    /// The journal.
    pub(crate) fn journal(&self) -> &Journal {
        &self.journal
    }

    /// Plans an update over the journal, and enters it. `None` where it is not entered: there is no memory, the versions are spent, or it names
    /// no vertices of the graph.
    pub(crate) fn enter(&mut self, alloc: Global, index: u32, update: Update) -> Option<Receipt>
        requires { index < INDICES }
    {
        let vertices = self.journal.vertices();
        if update.v >= vertices || vertices != self.marked {
            return None;
        }
        let lent = mem::replace(&mut self.scratch, Scratch::none(alloc));
        let (planned, lent) = plan_held(alloc, &self.journal, lent, update);
        self.scratch = lent;
        let Ok(plan) = planned else {
            return None;
        };
        let entered = self
            .journal
            .enter(&self.words, &mut self.pass, index, &plan, None)
            .ok()?;
        Some(entered.receipt)
    }

    /// Goes on in a fresh table.
    pub(crate) fn renew(&mut self, alloc: Global) -> Result<(), NoMemory> {
        let (words, pass) = self.journal.renew(alloc, 0)?;
        self.words = words;
        self.pass = pass;
        Ok(())
    }
}
