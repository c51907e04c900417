//! The vertices that a search has reached.
ghost use Rattle.std.specs.Prelude.{◌≡◌, ◌<◌, ◌++◌, ◌∷◌, ℕ, [], true, false, length, slice_index, IfOk, OnOk, OnErr};
ghost use Rattle.kc_lists.specs.Lists.{Distinct, member};

use crate::NoMemory;
use std::alloc::Global;
use std::marker::Model;

/// The vertices that a search has reached, in the order in which it did, and for each the place of the one from which it was reached. A
/// mark for each vertex says whether it is among them; marks are cleared only where they were set.
#[derive(Drop)]
pub(crate) struct Reached {
    vertices: Vec<u32>,
    parents: Vec<usize>,
    marks: Vec<bool>,
    size: u32,
}

impl Model for Reached {
    ghost use Rattle.kc_topo.specs.Searching.{Trail, IsMarked};

    ghost Value = { Trail };

    ghost view = { λ r. record { vertices = r.vertices.items; parents = r.parents.items; size = r.size } };

    ghost invariant = { λ r. IsMarked (record { vertices = r.vertices.items; parents = r.parents.items; size = r.size }) r.marks.items };
}

impl Reached {
    /// None of so many vertices.
    pub(crate) fn new(alloc: Global, size: u32) -> Result<Reached, NoMemory>
        ensures { IfOk result (λ r. r ≡ record { vertices = []; parents = []; size = size }) }
    {
        Ok(Reached {
            vertices: Vec::new(alloc),
            parents: Vec::new(alloc),
            marks: vec![in alloc; false; size as usize]?,
            size,
        })
    }

    /// How many vertices there are: those that can be reached are below this.
    pub(crate) fn size(&self) -> u32
        ensures { result ≡ self.now.size }
    {
        self.size
    }

    /// The vertices, in the order in which they were reached.
    pub(crate) fn vertices(&self) -> &[u32]
        ensures are { result.now ≡ self.now.vertices }
        ensures distinct { Distinct self.now.vertices }
        ensures within { (v : ℕ) → member v self.now.vertices ≡ true → v < self.now.size }
        ensures one_each { length self.now.parents ≡ length self.now.vertices }
    {
        &self.vertices
    }

    /// The place of the vertex from which the one at a place was reached.
    pub(crate) fn parent(&self, place: usize) -> usize
        requires { place < length self.now.vertices }
        ensures { result ≡ slice_index self.now.parents place }
    {
        self.parents[place]
    }

    /// Whether a vertex was reached.
    pub(crate) fn has(&self, v: u32) -> bool
        requires { v < self.now.size }
        ensures { result ≡ member v self.now.vertices }
    {
        self.marks[v as usize]
    }

    /// Reaches a vertex from the one at a place. Where there is no memory nothing changes.
    pub(crate) fn push(&mut self, v: u32, parent: usize) -> Result<(), NoMemory>
        requires within { v < self.old.size }
        requires fresh { member v self.old.vertices ≡ false }
        ensures ok { OnOk result (self.new
            ≡ record { vertices = self.old.vertices ++ v ∷ []; parents = self.old.parents ++ parent ∷ []; size = self.old.size }) }
        ensures err { OnErr result (self.new ≡ self.old) }
    {
        self.vertices.reserve(1)?;
        self.parents.push(parent)?;
        self.vertices.push_reserved(v);
        self.marks[v as usize] = true;
        Ok(())
    }

    /// Forgets all vertices, and clears their marks.
    pub(crate) fn clear(&mut self)
        ensures { self.new ≡ record { vertices = []; parents = []; size = self.old.size } }
    {
        let Reached {
            vertices,
            parents,
            marks,
            size: _,
        } = self;
        while let Some(v) = vertices.pop() {
            marks[v as usize] = false;
        }
        parents.clear();
    }
}
