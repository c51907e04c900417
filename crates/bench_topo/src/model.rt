//! A plain model of an acyclic graph in topological order: a table of what reaches what, and the vertices in a list. It is compared with,
//! and is slow.
use kc_topo::NoMemory;
use std::alloc::Global;

/// For each two vertices whether the one is marked for the other.
#[derive(Drop)]
struct Table {
    rows: Vec<Vec<bool>>,
}

impl Table {
    /// No mark between so many vertices.
    fn new(alloc: Global, vertices: u32) -> Result<Table, NoMemory> {
        let mut rows = Vec::new(alloc);
        for _ in 0..vertices {
            rows.push(vec![in alloc; false; vertices as usize]?)?;
        }
        Ok(Table { rows })
    }

    fn get(&self, x: u32, y: u32) -> bool {
        match self.rows.get(x as usize) {
            Some(row) => row.get(y as usize).copied().unwrap_or(false),
            None => false,
        }
    }

    fn mark(&mut self, x: u32, y: u32) {
        if let Some(row) = self.rows.get_mut(x as usize) {
            if let Some(mark) = row.get_mut(y as usize) {
                *mark = true;
            }
        }
    }
}

/// What adding an arc must answer.
#[derive(Clone, Copy, Drop, Eq, PartialEq)]
pub(crate) enum Expected {
    New,
    There,
    Cycle,
}

/// The arcs that were entered, which vertex reaches which along them, and the vertices in their order.
#[derive(Drop)]
pub(crate) struct Model {
    vertices: u32,
    arcs: Table,
    reaches: Table,
    order: Vec<u32>,
}

impl Model {
    /// So many vertices in ascending order, and no arc.
    pub(crate) fn new(alloc: Global, vertices: u32) -> Result<Model, NoMemory> {
        let mut reaches = Table::new(alloc, vertices)?;
        let mut order = Vec::new(alloc);
        for v in 0..vertices {
            reaches.mark(v, v);
            order.push(v)?;
        }
        Ok(Model {
            vertices,
            arcs: Table::new(alloc, vertices)?,
            reaches,
            order,
        })
    }

    /// The vertices in their order.
    pub(crate) fn order(&self) -> &[u32] {
        &self.order
    }

    /// What adding the arc from `a` to `b` must answer.
    pub(crate) fn expected(&self, a: u32, b: u32) -> Expected {
        if self.arcs.get(a, b) {
            Expected::There
        } else if self.reaches.get(b, a) {
            Expected::Cycle
        } else {
            Expected::New
        }
    }

    /// Enters the arc from `a` to `b`, which closes no cycle.
    pub(crate) fn enter(&mut self, alloc: Global, a: u32, b: u32) -> Result<(), NoMemory> {
        self.order = self.order_with(alloc, a, b)?;
        self.arcs.mark(a, b);
        for x in 0..self.vertices {
            if self.reaches.get(x, a) {
                self.reach_through(x, b);
            }
        }
        Ok(())
    }

    /// What is reached from `b` is reached from `x` too.
    fn reach_through(&mut self, x: u32, b: u32) {
        for y in 0..self.vertices {
            if self.reaches.get(b, y) {
                self.reaches.mark(x, y);
            }
        }
    }

    /// The order in which those vertices before `a` that are reached from `b` stand right after `a`.
    fn order_with(&self, alloc: Global, a: u32, b: u32) -> Result<Vec<u32>, NoMemory> {
        let mut order = Vec::new(alloc);
        let mut run = Vec::new(alloc);
        let mut passed = false;
        for v in &self.order {
            if !passed && self.reaches.get(b, *v) {
                run.push(*v)?;
                continue;
            }
            order.push(*v)?;
            if *v == a {
                passed = true;
                order.extend_from_slice(&run)?;
            }
        }
        Ok(order)
    }

    /// Whether this is a walk along arcs from one vertex to another.
    pub(crate) fn has_walk(&self, walk: &[u32], from: u32, to: u32) -> bool {
        let steps = walk.iter().zip(walk.iter().skip(1));
        let mut along = walk.first() == Some(&from) && walk.last() == Some(&to);
        for (x, y) in steps {
            along = along && self.arcs.get(*x, *y);
        }
        along
    }
}
