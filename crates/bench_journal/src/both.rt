//! A journal and a plain graph beside it, to which the same updates come.
ghost use Rattle.std.specs.Prelude.{◌<◌};

use crate::comparing::{Answers, Numbers, has_edges_of};
use crate::graphs::{change, draw};
use crate::run::Run;
use anyhow::{Result, bail};
use kc_graph::{Graph, decompose};
use kc_words::INDICES;
use rand_core::SeedableRng;
use rand_xoshiro::Xoshiro256PlusPlus;
use std::time::{Duration, Instant};

/// What an update came to.
#[derive(Clone, Copy, Drop)]
pub(crate) struct Step {
    pub(crate) applied: bool,
    /// The time of planning and entering.
    pub(crate) took: Duration,
}

/// A journal, a graph that is to have its edges, and the draws that updates come from.
#[derive(Drop)]
pub(crate) struct Both {
    run: Run,
    graph: Graph,
    draws: Xoshiro256PlusPlus,
}

impl Both {
    /// A journal of this graph beside it.
    pub(crate) fn open(rt: &HostRuntime, graph: Graph, seed: u64) -> Result<Both> {
        let state = decompose(rt.alloc(), &graph)?;
        let Some(run) = Run::open(rt.alloc(), state)? else {
            bail!("too many vertices");
        };
        Ok(Both {
            run,
            graph,
            draws: Xoshiro256PlusPlus::seed_from_u64(seed),
        })
    }

    /// The greatest core number that the journal has.
    pub(crate) fn top(&self) -> u32 {
        self.run.journal().top()
    }

    /// The graph.
    pub(crate) fn graph(&self) -> &Graph {
        &self.graph
    }

    /// Draws an update, plans and enters it, and makes it in the graph. It is an error where it is not entered, or under another number
    /// than its own, or told to be applied where it is not.
    pub(crate) fn step(&mut self, rt: &HostRuntime, index: u32) -> Result<Step>
        requires { index < INDICES }
    {
        let Some(update) = draw(&mut self.draws, &self.graph) else {
            bail!("there are less than two vertices");
        };
        let start = Instant::now(rt)?;
        let entered = self.run.enter(rt.alloc(), index, update);
        let took = start.elapsed(rt)?;
        let Some(receipt) = entered else {
            bail!("an update is not entered");
        };
        let edges = self.graph.edges();
        change(&mut self.graph, update)?;
        let applied = self.graph.edges() != edges;
        if receipt.index != index || receipt.place != index + 1 || receipt.applied != applied {
            bail!("a receipt tells of another entry");
        }
        Ok(Step { applied, took })
    }

    /// It is an error where the journal has other neighbours, core numbers or totals than the graph, or an order that does not certify them.
    pub(crate) fn compare(&self, rt: &HostRuntime) -> Result<()> {
        let numbers = Numbers::of(rt.alloc(), self.run.journal())?;
        if !has_edges_of(self.run.journal(), &self.graph) {
            bail!("the journal has other edges");
        }
        if !numbers.fit(rt.alloc(), &self.graph)? {
            bail!("the journal has other core numbers, or an order that does not certify them");
        }
        Ok(())
    }

    /// Goes on in a fresh table. It is an error where the journal then answers anything else than before, or has other edges.
    pub(crate) fn renew(&mut self, rt: &HostRuntime) -> Result<()> {
        let before = Answers::of(rt.alloc(), self.run.journal())?;
        self.run.renew(rt.alloc())?;
        if Answers::of(rt.alloc(), self.run.journal())? != before {
            bail!("a fresh table changes what the journal answers");
        }
        self.compare(rt)
    }
}
