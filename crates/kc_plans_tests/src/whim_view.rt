//! A view that answers what it likes.
ghost use Rattle.std.specs.Prelude.{◌≡◌, ◌≢◌, Some, None, IfErr, OnOk, MatchOption};
ghost use Rattle.kc_view.specs.Answers.{nothing_answered, list_in, core_in};
ghost use Rattle.kc_view.specs.Lists.{AreLists};
ghost use Rattle.kc_view.specs.Views.{GoesOn, HasViewCause};
ghost use Rattle.kc_plans_tests.specs.Whim.{shown_by_whim};

use crate::draws::Draws;
use kc_graph::{Used, UsedEdges, UsedOrder, UsedPlace};
use kc_view::{View, ViewFault, keep_list, keep_order, keep_place};
use kc_words::Again;
use std::alloc::Global;
use std::marker::Model;
use std::mem;

/// A view whose answers fit no graph: `w` may be on the list of `x` and `x` not on that of `w`, core numbers are any numbers, and each
/// question of order is answered anew. All follows from a seed. A planner has to return over it too.
#[derive(Drop)]
pub(crate) struct WhimView {
    alloc: Global,
    size: u32,
    draws: Draws,
    patience: Option<u64>,
    again: Again,
    misses: u64,
    handed: u64,
    edges: Vec<UsedEdges>,
    places: Vec<UsedPlace>,
    orders: Vec<UsedOrder>,
}

impl Model for WhimView {
    ghost use Rattle.kc_plans_tests.specs.Whim.{Whims, IsWhim};
    ghost use Rattle.kc_plans_tests.specs.WhimCode.{code_of_whims};

    ghost Value = { Whims };

    ghost coded = { code_of_whims };

    ghost view = { λ a. record {
      size = a.size;
      kept = record { edges = a.edges.items; places = a.places.items; orders = a.orders.items };
      handed = a.handed;
      misses = a.misses;
      again = a.again;
    } };

    ghost invariant = { λ a. IsWhim (record {
      size = a.size;
      kept = record { edges = a.edges.items; places = a.places.items; orders = a.orders.items };
      handed = a.handed;
      misses = a.misses;
      again = a.again;
    }) };
}

impl WhimView {
    /// A view of this many vertices. With some patience it answers so many calls, the next one misses with these two loads, and it goes
    /// on; with none it never misses.
    pub(crate) fn new(
        alloc: Global,
        size: u32,
        seed: u64,
        patience: Option<u64>,
        again: Again,
    ) -> WhimView
        requires { again.first ≢ again.second }
        ensures { result ≡ record { size = size; kept = nothing_answered; handed = 0; misses = 0; again = again } }
    {
        WhimView {
            alloc,
            size,
            draws: Draws::new(seed),
            patience,
            again,
            misses: 0,
            handed: 0,
            edges: Vec::new(alloc),
            places: Vec::new(alloc),
            orders: Vec::new(alloc),
        }
    }

    /// How many vertices there are.
    pub(crate) fn vertices(&self) -> u32
        ensures { result ≡ self.now.size }
    {
        self.size
    }

    /// Counts a call, and misses where it is the one to miss.
    fn go_on(&mut self) -> Result<(), ViewFault>
        ensures ok { OnOk result (self.new ≡ self.old) }
        ensures goes_on { GoesOn (shown_by_whim self.old) (shown_by_whim self.new) }
        ensures kept { self.new.kept ≡ self.old.kept }
        ensures lists { AreLists self.new.size self.new.kept.edges }
        ensures cause { IfErr result (λ fault. HasViewCause (shown_by_whim self.old) (shown_by_whim self.new) fault) }
    {
        let Some(calls) = self.patience else {
            return Ok(());
        };
        if calls > 0 {
            self.patience = Some(calls - 1);
            return Ok(());
        }
        self.patience = None;
        self.misses = self.misses.saturating_add(1);
        Err(ViewFault::Miss(self.again))
    }
}

impl View for WhimView {
    ghost use Rattle.kc_plans_tests.specs.Whim.{shown_by_whim};

    ghost shown = { shown_by_whim };

    fn degree(&mut self, w: u32) -> Result<u32, ViewFault> {
        self.go_on()?;
        if let Some(list) = kept_list(&self.edges, w) {
            return Ok(list.len() as u32);
        }
        let list = self.draws.list(self.alloc, self.size, w)?;
        let degree = list.len() as u32;
        keep_list(self.alloc, &mut self.edges, w, &list)?;
        Ok(degree)
    }

    fn list(&self, w: u32) -> &[u32] {
        match kept_list(&self.edges, w) {
            Some(list) => list,
            None => unreachable!(),
        }
    }

    fn core(&mut self, w: u32) -> Result<u32, ViewFault> {
        self.go_on()?;
        if let Some(core) = kept_core(&self.places, w) {
            return Ok(core);
        }
        let core = self.draws.core();
        keep_place(&mut self.places, w, core)?;
        Ok(core)
    }

    fn precedes(&mut self, x: u32, y: u32) -> Result<bool, ViewFault> {
        self.go_on()?;
        let before = self.draws.side();
        keep_order(&mut self.orders, x, y, before)?;
        Ok(before)
    }

    fn used(&mut self) -> Used {
        self.handed = self.handed.wrapping_add(1);
        Used {
            edges: mem::replace(&mut self.edges, Vec::new(self.alloc)),
            places: mem::replace(&mut self.places, Vec::new(self.alloc)),
            orders: mem::replace(&mut self.orders, Vec::new(self.alloc)),
        }
    }
}

/// The list of `w`, if it was kept.
fn kept_list(edges: &[UsedEdges], w: u32) -> Option<&[u32]>
    ensures { MatchOption result (list_in w edges.now ≡ None) (λ list. list_in w edges.now ≡ Some list.now) }
{
    for kept in edges {
        if kept.vertex == w {
            return Some(kept.neighbours.as_slice());
        }
    }
    None
}

/// The core number of `w`, if it was kept.
fn kept_core(places: &[UsedPlace], w: u32) -> Option<u32>
    ensures { result ≡ core_in w places.now }
{
    for kept in places {
        if kept.vertex == w {
            return Some(kept.core);
        }
    }
    None
}

/// The two loads that misses tell of here.
pub(crate) fn again() -> Again
    ensures { result.first ≢ result.second }
{
    Again {
        word: 4,
        first: 1,
        second: 2,
    }
}
