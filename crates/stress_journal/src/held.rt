//! Updates of a journal in one thread, each planned over it and entered. Where one is refused for want of memory, the journal has to be as
//! it was.
ghost use Rattle.std.specs.Prelude.{◌≡◌, ◌<◌, IfOk};

use crate::comparing::compare;
use crate::updates::{draw, is_applied, make};
use anyhow::{Result, bail};
use kc_graph::{Graph, NoMemory, Update, decompose};
use kc_journal::{Journal, Receipt, plan_held};
use kc_table::{Entry, Pass, Words};
use kc_view::Scratch;
use kc_words::{INDICES, VERTICES};
use rand_core::SeedableRng;
use rand_xoshiro::Xoshiro256PlusPlus;
use std::alloc::Global;

/// What a journal answers to whoever asks everything but its lists of neighbours.
#[derive(Drop, Eq, PartialEq)]
struct Answers {
    core: Vec<u32>,
    order: Vec<u32>,
    edge_stamps: Vec<u32>,
    place_stamps: Vec<u32>,
    entries: Vec<Entry>,
    edges: u64,
}

/// The place stamps of a journal.
fn place_stamps_of(alloc: Global, journal: &Journal) -> Result<Vec<u32>, NoMemory> {
    let mut place_stamps = Vec::new(alloc);
    for v in 0..journal.vertices() {
        place_stamps.push(journal.place_stamp(v))?;
    }
    Ok(place_stamps)
}

impl Answers {
    /// Those of a journal.
    fn of(alloc: Global, journal: &Journal) -> Result<Answers, NoMemory> {
        Ok(Answers {
            core: Vec::from_slice(alloc, journal.core_numbers())?,
            order: journal.order(alloc)?,
            edge_stamps: Vec::from_slice(alloc, journal.edge_stamps())?,
            place_stamps: place_stamps_of(alloc, journal)?,
            entries: Vec::from_slice(alloc, journal.entries())?,
            edges: journal.graph().edges(),
        })
    }
}

/// A journal with the words of its table and a pass, and the graph that it is to have.
#[derive(Drop)]
struct Held {
    words: Words,
    journal: Journal,
    pass: Pass,
    graph: Graph,
    ghost told: { pass.table ≡ words },
    ghost table: { journal.levels.table ≡ words },
}

/// A journal of this graph, with the words of its table and a pass.
fn open_journal(alloc: Global, graph: &Graph) -> Result<(Words, Journal, Pass)>
    ensures told { IfOk result (λ r. r.2.table ≡ r.0) }
    ensures table { IfOk result (λ r. r.1.levels.table ≡ r.0) }
{
    if graph.vertices() > VERTICES {
        bail!("too many vertices");
    }
    Ok(Journal::open(alloc, decompose(alloc, graph)?, 0)?)
}

impl Held {
    /// A journal of this graph beside it.
    fn open(alloc: Global, graph: Graph) -> Result<Held> {
        let (words, journal, pass) = open_journal(alloc, &graph)?;
        Ok(Held {
            words,
            journal,
            pass,
            graph,
        })
    }

    /// Plans an update over the journal and enters it. `None` where it is refused.
    fn enter(&mut self, alloc: Global, index: u32, update: Update) -> Option<Receipt>
        requires { index < INDICES }
    {
        let vertices = self.journal.vertices();
        if update.v >= vertices {
            return None;
        }
        let scratch = Scratch::new(alloc, vertices).ok()?;
        let (planned, _lent) = plan_held(alloc, &self.journal, scratch, update);
        let Ok(plan) = planned else {
            return None;
        };
        let entered = self
            .journal
            .enter(&self.words, &mut self.pass, index, &plan, None);
        match entered {
            Ok(entered) => Some(entered.receipt),
            Err(_) => None,
        }
    }

    /// The same. Where the update is refused, the journal has to answer all as before, and the error is that there is no memory.
    fn enter_or_keep(&mut self, alloc: Global, index: u32, update: Update) -> Result<Receipt>
        requires { index < INDICES }
    {
        let before = Answers::of(alloc, &self.journal)?;
        match self.enter(alloc, index, update) {
            Some(receipt) => Ok(receipt),
            None => self.refused(alloc, &before),
        }
    }

    /// An update was refused: the journal has to answer all as before.
    fn refused(&self, alloc: Global, before: &Answers) -> Result<Receipt> {
        let now = Answers::of(alloc, &self.journal)?;
        if now != *before {
            bail!("an update that is refused changes the journal");
        }
        Err(NoMemory.into())
    }

    /// Plans an update, enters it and makes it in the graph. The receipt has to tell rightly whether it was applied.
    fn step(&mut self, alloc: Global, index: u32, update: Update) -> Result<()>
        requires { index < INDICES }
    {
        let applied = is_applied(&self.graph, update);
        let receipt = self.enter_or_keep(alloc, index, update)?;
        if receipt.index != index || receipt.applied != applied {
            bail!("the receipt of update {index} tells of another one");
        }
        make(&mut self.graph, update)?;
        Ok(())
    }

    /// The same with an update that is drawn.
    fn draw_and_step(
        &mut self,
        alloc: Global,
        index: u32,
        draws: &mut Xoshiro256PlusPlus,
    ) -> Result<()>
        requires { index < INDICES }
    {
        match draw(draws, &self.graph) {
            Some(update) => self.step(alloc, index, update),
            None => bail!("there are less than two vertices"),
        }
    }

    /// The same so often, and a comparison after it.
    fn work(&mut self, alloc: Global, updates: u32, seed: u64) -> Result<()> {
        let mut draws = Xoshiro256PlusPlus::seed_from_u64(seed);
        for index in 0..updates.min(INDICES) {
            self.draw_and_step(alloc, index, &mut draws)?;
        }
        compare(alloc, &self.journal, &self.graph)
    }
}

/// So many updates of a graph without edges, one after another.
pub(crate) fn work_held(alloc: Global, vertices: u32, updates: u32, seed: u64) -> Result<()> {
    let mut held = Held::open(alloc, Graph::new(alloc, vertices)?)?;
    held.work(alloc, updates, seed)
}
