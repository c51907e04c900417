//! A list of small numbers without repetition, in which each step takes constant time.
#![tactic(auto)]

ghost use Rattle.std.specs.Prelude.{◌≡◌, ◌≢◌, ◌<◌, ◌+◌, ◌^◌, true, false, IfOk, [], ◌∷◌, ◌++◌, ℕ, List};
ghost use Rattle.kc_lists.specs.Lists.{member, without, right_after, head_or, next_of, prev_of};
ghost use Rattle.kc_links.specs.Ring.{Chain};

pub use std::alloc::AllocError as NoMemory;
use std::alloc::Global;
use std::marker::Model;

/// Which number stands before and after each number that is in the list; `size` stands for both ends.
#[derive(Drop)]
pub struct Links {
    next: Vec<u32>,
    prev: Vec<u32>,
    size: u32,
    len: u32,
}

impl Model for Links {
    ghost use Rattle.kc_links.specs.Ring.{Chain};

    ghost Value = { Chain };

    ghost use Rattle.kc_links.specs.Ring.{walk, IsRing};
    ghost use Rattle.std.specs.Prelude.{slice_index};

    ghost view = { λ a. record { size = a.size; list = walk a.len (slice_index a.next.items a.size) a.next.items } };

    ghost invariant = { λ a. IsRing a.next.items a.prev.items a.size (walk a.len (slice_index a.next.items a.size) a.next.items) };
}

impl Links {
    /// The empty list of numbers below `size`. It takes all the memory that the list will need.
    pub fn new(alloc: Global, size: u32) -> Result<Self, NoMemory>
        requires { size < 2 ^ 31 }
        ensures { IfOk result (λ a. a ≡ record { size = size; list = [] }) }
    {
        let slots = size as usize + 1;
        let next = vec![in alloc; size; slots]?;
        let prev = vec![in alloc; size; slots]?;
        Ok(Links {
            next,
            prev,
            size,
            len: 0,
        })
    }

    /// Puts `x` at the end.
    pub fn push_back(&mut self, x: u32)
        requires x_out { member x self.old.list ≡ false }
        requires x_within { x < self.old.size }
        ensures size { self.new.size ≡ self.old.size }
        ensures list { self.new.list ≡ self.old.list ++ x ∷ [] }
    {
        let end = self.size;
        let last = self.prev[end as usize];
        self.next[last as usize] = x;
        self.next[x as usize] = end;
        self.prev[x as usize] = last;
        self.prev[end as usize] = x;
        self.len += 1;
    }

    pub fn size(&self) -> u32
        ensures { result ≡ self.now.size }
    {
        self.size
    }

    /// What stands first; the size where the list is empty.
    pub fn first(&self) -> u32
        ensures { result ≡ head_or self.now.size self.now.list }
    {
        self.next[self.size as usize]
    }

    /// What stands after `x`; the size at the end.
    pub fn next(&self, x: u32) -> u32
        requires { member x self.now.list ≡ true }
        ensures { result ≡ next_of self.now.size x self.now.list }
    {
        self.next[x as usize]
    }

    /// What stands before `x`; the size at the start.
    pub fn prev(&self, x: u32) -> u32
        requires { member x self.now.list ≡ true }
        ensures { result ≡ prev_of self.now.size x self.now.list }
    {
        self.prev[x as usize]
    }

    /// Puts `x` right after `p`.
    pub fn insert_after(&mut self, x: u32, p: u32)
        requires p_in { member p self.old.list ≡ true }
        requires x_out { member x self.old.list ≡ false }
        requires x_within { x < self.old.size }
        ensures size { self.new.size ≡ self.old.size }
        ensures list { self.new.list ≡ right_after x p self.old.list }
    {
        let q = self.next[p as usize];
        self.next[p as usize] = x;
        self.next[x as usize] = q;
        self.prev[x as usize] = p;
        self.prev[q as usize] = x;
        self.len += 1;
    }

    pub fn remove(&mut self, x: u32)
        requires x_in { member x self.old.list ≡ true }
        ensures size { self.new.size ≡ self.old.size }
        ensures list { self.new.list ≡ without x self.old.list }
    {
        let p = self.prev[x as usize];
        let q = self.next[x as usize];
        self.next[p as usize] = q;
        self.prev[q as usize] = p;
        self.len -= 1;
    }
}
