//! The vertices that were visited, and the list of those that fall.
ghost use Rattle.std.specs.Prelude.{◌≡◌, ◌-◌, ◌&&◌, ℕ, None, [], OnOk, is_some, nat_lt, not};
ghost use Rattle.kc_marks.specs.Maps.{value_of};
ghost use Rattle.kc_remove.specs.Visits.{nothing_counted};
ghost use Rattle.kc_remove.specs.Falling.{Settles, is_gone};

use kc_graph::NoMemory;
use kc_marks::SearchMarks;
use std::alloc::Global;

/// How far the support of a vertex was counted. The list of its neighbours ascends.
#[derive(Clone, Copy, Debug, Drop)]
pub(crate) struct Count {
    /// How many neighbours support it, of those that were looked at.
    pub support: u32,
    /// How many neighbours were looked at, from the front of its list.
    pub looked: u32,
    /// Just the neighbours below this number were looked at.
    pub bound: u64,
}

/// What is known of a visited vertex.
#[derive(Clone, Copy, Debug, Drop)]
pub(crate) struct Visit {
    pub count: Count,
    /// The place on the list of the fallen, if it is there.
    pub fallen: Option<usize>,
}

/// A vertex whose support is counted, once the first `turns` of the fallen have had their turns.
#[derive(Clone, Copy, Drop)]
pub(crate) struct Supported {
    pub vertex: u32,
    pub turns: usize,
}

impl Count {
    /// No neighbour was looked at.
    pub fn new() -> Count
        ensures { result ≡ nothing_counted }
    {
        Count {
            support: 0,
            looked: 0,
            bound: 0,
        }
    }

    /// One of the neighbours that were looked at is gone.
    pub fn less(self) -> Count
        ensures { result ≡ record self { support = self.support - 1 } }
    {
        Count {
            support: self.support.saturating_sub(1),
            ..self
        }
    }
}

impl Visit {
    /// Whether this neighbour was looked at, and the vertex is not on the list.
    pub fn has_looked(self, x: u32) -> bool
        ensures { result ≡ (not (is_some self.fallen) && nat_lt x self.count.bound) }
    {
        self.fallen.is_none() && u64::from(x) < self.count.bound
    }
}

/// The visited vertices, each with its visit, and as the weak those that fall.
#[derive(Drop)]
pub(crate) struct Falling {
    pub seen: SearchMarks<Visit>,
}

impl Falling {
    /// Nobody was visited.
    pub fn new(alloc: Global) -> Falling
        ensures marks { (z : ℕ) → value_of result.seen.marks z ≡ None }
        ensures weak { result.seen.weak.items ≡ [] }
    {
        let seen = SearchMarks::new(alloc);
        Falling { seen }
    }

    /// Whether a vertex is one of the first `turns` of the list.
    pub fn is_gone(&self, y: u32, turns: usize) -> bool
        ensures { result ≡ is_gone self.now turns y }
    {
        let Some(visit) = self.seen.find(y) else {
            return false;
        };
        match visit.fallen {
            Some(place) => place < turns,
            None => false,
        }
    }

    /// Keeps how far the support of a vertex was counted, and puts the vertex on the list if that is less than `level`.
    pub fn settle(&mut self, y: u32, count: Count, level: u32) -> Result<(), NoMemory>
        ensures { OnOk result (Settles level y count self.old self.new) }
    {
        if count.support >= level {
            let visit = Visit {
                count,
                fallen: None,
            };
            return self.seen.mark(y, visit);
        }
        let visit = Visit {
            count,
            fallen: Some(self.seen.weak.len()),
        };
        self.seen.mark(y, visit)?;
        self.seen.add_weak(y)?;
        Ok(())
    }
}
