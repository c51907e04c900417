//! What a search has seen: marks of vertices, and the list of those that are too weak.
ghost use Rattle.std.specs.Prelude.{◌≡◌, ◌++◌, ℕ, None, [], ◌∷◌, true, is_some, OnOk, OnErr};
ghost use Rattle.kc_marks.specs.Maps.{value_of};
ghost use Rattle.kc_marks.specs.SearchMarks.{MarksOne};

use crate::map::VertexMap;
use std::alloc::{AllocError, Global};

/// What a search has seen: the mark of each vertex that it has come to, and the vertices that it found too weak to stay where they are, in
/// the order in which it did.
#[derive(Drop)]
pub struct SearchMarks<M> {
    pub marks: VertexMap<M>,
    pub weak: Vec<u32>,
}

impl<M: Copy + Drop> SearchMarks<M> {
    /// The search has come to no vertex.
    pub fn new(alloc: Global) -> SearchMarks<M>
        ensures marks { (z : ℕ) → value_of result.marks z ≡ None }
        ensures weak { result.weak.items ≡ [] }
    {
        SearchMarks {
            marks: VertexMap::new(alloc),
            weak: Vec::new(alloc),
        }
    }

    /// The mark of a vertex, if the search has come to it.
    #[inline]
    pub fn find(&self, y: u32) -> Option<M>
        ensures { result ≡ value_of self.now.marks y }
    {
        self.marks.find(y)
    }

    /// Marks a vertex, whether or not it had a mark. Where there is no memory for it, all marks stay.
    #[inline]
    pub fn mark(&mut self, y: u32, mark: M) -> Result<(), AllocError>
        ensures ok { OnOk result (MarksOne y mark self.old self.new) }
        ensures err { OnErr result (self.new.marks ≡ self.old.marks) }
        ensures weak { self.new.weak.items ≡ self.old.weak.items }
    {
        self.marks.insert(y, mark)
    }

    /// Gives a vertex that has a mark another one.
    #[inline]
    pub fn mark_again(&mut self, y: u32, mark: M)
        requires { is_some (value_of self.old.marks y) ≡ true }
        ensures marks { MarksOne y mark self.old self.new }
        ensures weak { self.new.weak.items ≡ self.old.weak.items }
    {
        self.marks.replace(y, mark);
    }

    /// Puts a vertex at the end of the list of the weak. Where there is no memory for it, the list stays.
    #[inline]
    pub fn add_weak(&mut self, y: u32) -> Result<(), AllocError>
        ensures ok { OnOk result (self.new.weak.items ≡ self.old.weak.items ++ y ∷ []) }
        ensures err { OnErr result (self.new.weak.items ≡ self.old.weak.items) }
        ensures marks { self.new.marks ≡ self.old.marks }
    {
        self.weak.push(y)?;
        Ok(())
    }
}
