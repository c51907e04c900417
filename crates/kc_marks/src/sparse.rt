//! A number for each vertex, of which most are 0.
ghost use Rattle.std.specs.Prelude.{◌≡◌, ◌<◌, ◌+◌, ◌-◌, ◌*◌, ◌/◌, ◌%◌, ℕ, length, slice_index, IfOk, OnErr, OnOk};
ghost use Rattle.kc_marks.specs.Sparse.{NumbersOne, number_at};

use std::alloc::{AllocError, Global};
use std::marker::Model;

/// How many vertices in a row have one page.
pub const PAGE: u32 = 64;

/// A number for each vertex, 0 at first. Vertices in a row lie on one page, and a page is there only once one of them was given a number:
/// so a look-up costs two indices, and an array of few numbers is small.
///
/// Contracts see the pages, and which of them each vertex has.
#[derive(Drop)]
pub struct SparseArray {
    pages: Vec<u32>,
    slots: Vec<u32>,
}

impl Model for SparseArray {
    ghost use Rattle.kc_marks.specs.Sparse.{IsSparse, Sparse};

    ghost Value = { Sparse };

    ghost view = { λ a. record { pages = a.pages.items; slots = a.slots.items } };

    ghost invariant = { λ a. IsSparse (record { pages = a.pages.items; slots = a.slots.items }) };
}

impl SparseArray {
    /// All numbers are 0. It takes no memory.
    pub fn new(alloc: Global) -> SparseArray
        ensures { (y : ℕ) → number_at result y ≡ 0 }
    {
        SparseArray {
            pages: Vec::new(alloc),
            slots: Vec::new(alloc),
        }
    }

    /// The number of a vertex.
    #[inline]
    pub fn get(&self, y: u32) -> u32
        ensures { result ≡ number_at self.now y }
    {
        let block = (y / PAGE) as usize;
        if block >= self.pages.len() {
            return 0;
        }
        let page = self.pages[block];
        if page == 0 {
            return 0;
        }
        self.slots[slot_of(page, y)]
    }

    /// Gives a vertex a number. Where there is no memory for its page, all numbers stay.
    pub fn set(&mut self, y: u32, value: u32) -> Result<(), AllocError>
        ensures ok { OnOk result (NumbersOne y value self.old self.new) }
        ensures err { OnErr result ((z : ℕ) → number_at self.new z ≡ number_at self.old z) }
    {
        let block = y / PAGE;
        self.reach(block)?;
        self.open(block)?;
        let slot = slot_of(self.pages[block as usize], y);
        self.slots[slot] = value;
        Ok(())
    }

    /// Sees to it that there is an entry for a block of vertices, if only that its page is not there.
    fn reach(&mut self, block: u32) -> Result<(), AllocError>
        ensures reached { OnOk result (block < length self.new.pages) }
        ensures same { (z : ℕ) → number_at self.new z ≡ number_at self.old z }
    {
        let needed = block as usize + 1;
        if needed > self.pages.len() {
            self.pages.resize(needed, 0)?;
        }
        Ok(())
    }

    /// Sees to it that the page of a block is there.
    fn open(&mut self, block: u32) -> Result<(), AllocError>
        requires { block < length self.old.pages }
        ensures long { length self.new.pages ≡ length self.old.pages }
        ensures opened { OnOk result (0 < slice_index self.new.pages block) }
        ensures same { (z : ℕ) → number_at self.new z ≡ number_at self.old z }
    {
        if self.pages[block as usize] != 0 {
            return Ok(());
        }
        let page = self.next_page()?;
        self.slots.resize(page as usize * PAGE as usize, 0)?;
        self.pages[block as usize] = page;
        Ok(())
    }

    /// The number of a page that is to come.
    fn next_page(&self) -> Result<u32, AllocError>
        ensures { IfOk result (λ page. page ≡ length self.now.slots / PAGE + 1) }
    {
        let pages = self.slots.len() / PAGE as usize;
        if pages >= u32::MAX as usize {
            return Err(AllocError);
        }
        Ok(pages as u32 + 1)
    }
}

/// Where the number of a vertex stands, whose page is there.
#[inline]
fn slot_of(page: u32, y: u32) -> usize
    requires { 0 < page }
    ensures { result ≡ (page - 1) * PAGE + y % PAGE }
{
    (page - 1) as usize * PAGE as usize + (y % PAGE) as usize
}
