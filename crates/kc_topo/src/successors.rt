//! For each vertex the vertices that arcs lead to from it.
ghost use Rattle.std.specs.Prelude.{◌≡◌, ◌<◌, ◌++◌, ◌∷◌, [], length, replicate, slice_set, IfOk, OnOk, OnErr};
ghost use Rattle.kc_graph.specs.Rows.{row};

use crate::NoMemory;
use std::alloc::Global;
use std::marker::Model;

/// A row for each vertex, of the vertices that arcs lead to from it. Contracts see the rows.
#[derive(Drop)]
pub(crate) struct Successors {
    rows: Vec<Vec<u32>>,
}

impl Model for Successors {
    ghost use Rattle.std.specs.Prelude.{List, ℕ};
    ghost use Rattle.kc_graph.specs.Rows.{lists};

    ghost Value = { List (List ℕ) };

    ghost view = { λ s. lists s.rows.items };
}

impl Successors {
    /// An empty row for each of so many vertices.
    pub(crate) fn new(alloc: Global, vertices: u32) -> Result<Successors, NoMemory>
        ensures { IfOk result (λ s. s ≡ replicate vertices []) }
    {
        let mut rows = Vec::with_capacity(alloc, vertices as usize)?;
        for _ in 0..vertices {
            rows.push(Vec::new(alloc))?;
        }
        Ok(Successors { rows })
    }

    /// The row of a vertex.
    pub(crate) fn of(&self, v: u32) -> &[u32]
        requires { v < length self.now }
        ensures { result.now ≡ row self.now v }
    {
        &self.rows[v as usize]
    }

    /// Adds a vertex to the row of another. Where there is no memory nothing changes.
    pub(crate) fn push(&mut self, v: u32, w: u32) -> Result<(), NoMemory>
        requires { v < length self.old }
        ensures ok { OnOk result (self.new ≡ slice_set self.old v (row self.old v ++ w ∷ [])) }
        ensures err { OnErr result (self.new ≡ self.old) }
    {
        let row = &mut self.rows[v as usize];
        row.push(w)?;
        Ok(())
    }
}
