//! Blocks of entries, and where each of them begins.
ghost use Rattle.std.specs.Prelude.{◌≡◌, ◌<◌, ◌≤◌, ◌+◌, ◌-◌, ◌^◌, ℕ, [], drop, length, slice_index, IfOk, OnErr, OnOk};
ghost use Rattle.std.specs.List.{insert};
ghost use Rattle.kc_blocks.specs.Placing.{IsPlaced, IsBlockOf, all_entries, later_from};

use std::alloc::{AllocError, Global};

/// How many entries a block has at most: 2 KiB.
pub const BLOCK_ENTRIES: usize = 512;

/// Blocks of entries. What stands in them, one block after the other, is a list.
#[derive(Drop)]
pub(crate) struct Blocks {
    /// The entries of each block.
    pub blocks: Vec<Vec<u32>>,
    /// Of each block the place in the list at which it begins.
    pub starts: Vec<usize>,
}

impl Blocks {
    /// No block. It takes no memory.
    pub fn new(alloc: Global) -> Blocks
        ensures placed { IsPlaced result }
        ensures blocks { result.blocks.items ≡ [] }
    {
        Blocks {
            blocks: Vec::new(alloc),
            starts: Vec::new(alloc),
        }
    }

    /// The entry at a place of the list.
    #[inline]
    pub fn get(&self, place: usize) -> u32
        requires placed { IsPlaced self.now }
        requires within { place < length (all_entries self.now.blocks.items) }
        ensures { result ≡ slice_index (all_entries self.now.blocks.items) place }
    {
        let block = self.block_of(place);
        self.blocks[block][place - self.starts[block]]
    }

    /// Puts an entry in at a place of the list. Where there is no memory for it, the list stays.
    pub fn insert(&mut self, place: usize, x: u32) -> Result<(), AllocError>
        requires placed { IsPlaced self.old }
        requires within { place ≤ length (all_entries self.old.blocks.items) }
        requires few { length (all_entries self.old.blocks.items) < 2 ^ 64 - 1 }
        ensures placed { IsPlaced self.new }
        ensures ok { OnOk result (all_entries self.new.blocks.items ≡ insert (all_entries self.old.blocks.items) place x) }
        ensures err { OnErr result (all_entries self.new.blocks.items ≡ all_entries self.old.blocks.items) }
    {
        let block = self.room_for(place)?;
        self.put(block, place, x)
    }

    /// The block in which a place lies, which is looked for by halving.
    #[inline]
    fn block_of(&self, place: usize) -> usize
        requires placed { IsPlaced self.now }
        requires some { 0 < length self.now.blocks.items }
        ensures { IsBlockOf self.now place result }
    {
        let mut block = 0;
        let mut end = self.starts.len();
        while end - block > 1 {
            let middle = block + (end - block) / 2;
            if self.starts[middle] <= place {
                block = middle;
            } else {
                end = middle;
            }
        }
        block
    }

    /// Sees to it that the block in which a place lies is not full, and gives its number. The list stays.
    fn room_for(&mut self, place: usize) -> Result<usize, AllocError>
        requires placed { IsPlaced self.old }
        requires within { place ≤ length (all_entries self.old.blocks.items) }
        requires few { length (all_entries self.old.blocks.items) < 2 ^ 64 - 1 }
        ensures placed { IsPlaced self.new }
        ensures same { all_entries self.new.blocks.items ≡ all_entries self.old.blocks.items }
        ensures lies { IfOk result (λ block. IsBlockOf self.new place block) }
    {
        self.begin()?;
        let block = self.block_of(place);
        if self.blocks[block].len() < BLOCK_ENTRIES {
            return Ok(block);
        }
        self.cut(block, place)?;
        Ok(self.block_of(place))
    }

    /// Sees to it that there is a block. The list stays.
    fn begin(&mut self) -> Result<(), AllocError>
        requires { IsPlaced self.old }
        ensures placed { IsPlaced self.new }
        ensures same { all_entries self.new.blocks.items ≡ all_entries self.old.blocks.items }
        ensures some { OnOk result (0 < length self.new.blocks.items) }
    {
        if !self.blocks.is_empty() {
            return Ok(());
        }
        let entries = Vec::new(*self.blocks.allocator());
        self.add_block(0, 0, entries)
    }

    /// Cuts the block in which a place lies in two. The list stays.
    fn cut(&mut self, block: usize, place: usize) -> Result<(), AllocError>
        requires placed { IsPlaced self.old }
        requires lies { IsBlockOf self.old place block }
        requires within { place ≤ length (all_entries self.old.blocks.items) }
        requires few { length (all_entries self.old.blocks.items) < 2 ^ 64 - 1 }
        ensures placed { IsPlaced self.new }
        ensures same { all_entries self.new.blocks.items ≡ all_entries self.old.blocks.items }
        ensures some { 0 < length self.new.blocks.items }
    {
        let start = self.starts[block];
        let entries = &self.blocks[block];
        let at = cut_place(entries.len(), place - start);
        let tail = tail_of(*self.blocks.allocator(), entries, at)?;
        self.add_block(block + 1, start + at, tail)?;
        let head = &mut self.blocks[block];
        head.truncate(at);
        Ok(())
    }

    /// Puts a block in under a number. Where there is no memory for it, all blocks stay.
    fn add_block(
        &mut self,
        number: usize,
        start: usize,
        entries: Vec<u32>,
    ) -> Result<(), AllocError>
        requires blocks { number ≤ length self.old.blocks.items }
        requires starts { number ≤ length self.old.starts.items }
        ensures blocks { OnOk result (self.new.blocks.items ≡ insert self.old.blocks.items number entries) }
        ensures starts { OnOk result (self.new.starts.items ≡ insert self.old.starts.items number start) }
        ensures err { OnErr result ((self.new.blocks.items ≡ self.old.blocks.items) × (self.new.starts.items ≡ self.old.starts.items)) }
    {
        self.starts.reserve(1)?;
        self.blocks.insert(number, entries)?;
        self.starts.insert(number, start)?;
        Ok(())
    }

    /// Puts an entry into its block, at a place of the list that lies there. Where there is no memory for it, the list stays.
    fn put(&mut self, block: usize, place: usize, x: u32) -> Result<(), AllocError>
        requires placed { IsPlaced self.old }
        requires lies { IsBlockOf self.old place block }
        requires within { place ≤ length (all_entries self.old.blocks.items) }
        requires few { length (all_entries self.old.blocks.items) < 2 ^ 64 - 1 }
        ensures placed { IsPlaced self.new }
        ensures ok { OnOk result (all_entries self.new.blocks.items ≡ insert (all_entries self.old.blocks.items) place x) }
        ensures err { OnErr result (all_entries self.new.blocks.items ≡ all_entries self.old.blocks.items) }
    {
        let at = place - self.starts[block];
        let entries = &mut self.blocks[block];
        entries.insert(at, x)?;
        self.move_later(block + 1);
        Ok(())
    }

    /// The blocks from the number `first` on begin one place later.
    fn move_later(&mut self, first: usize)
        requires first { first ≤ length self.old.starts.items }
        requires few { (k : ℕ) → k < length self.old.starts.items → slice_index self.old.starts.items k < 2 ^ 64 - 1 }
        ensures blocks { self.new.blocks ≡ self.old.blocks }
        ensures starts { self.new.starts.items ≡ later_from first self.old.starts.items }
    {
        for later in first..self.starts.len() {
            self.starts[later] += 1;
        }
    }
}

/// Where a block of so many entries is cut into which one goes in at a place: in its middle; at its end where the place is there, so that
/// what is appended fills whole blocks.
fn cut_place(len: usize, place: usize) -> usize
    ensures { result ≤ len }
{
    if place == len { len } else { len / 2 }
}

/// The entries from a place on, copied.
fn tail_of(alloc: Global, entries: &[u32], place: usize) -> Result<Vec<u32>, AllocError>
    requires { place ≤ length entries.now }
    ensures { IfOk result (λ tail. tail.items ≡ drop place entries.now) }
{
    entries[place..].to_vec(alloc)
}
