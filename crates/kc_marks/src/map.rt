//! A map whose keys are vertices.
ghost use Rattle.std.specs.Prelude.{◌≡◌, ◌<◌, ◌≤◌, ◌+◌, ◌-◌, ◌^◌, ℕ, None, [], false, is_some, length, IfOk, IsTrue, OnErr, OnOk};
ghost use Rattle.kc_marks.specs.Maps.{ValuesOne, number_in, value_of};
ghost use Rattle.kc_marks.specs.Sparse.{number_at};

use crate::sparse::SparseArray;
use std::alloc::{AllocError, Global};
use std::marker::Model;

/// A map of so many entries is looked through. Only one of more has an array that says where each vertex has its entry.
const FEW: usize = 8;

/// A vertex and its value.
#[derive(Clone, Copy, Drop)]
pub struct VertexEntry<V> {
    pub vertex: u32,
    pub value: V,
}

/// A map from vertices to values. The entries stand in the order in which their vertices came. While they are few, they are looked through,
/// and the sparse array says nothing; once they are more, it says where each vertex has its own.
///
/// Contracts see the entries.
#[derive(Drop)]
pub struct VertexMap<V> {
    entries: Vec<VertexEntry<V>>,
    numbers: SparseArray,
}

impl<V> Model for VertexMap<V> {
    ghost use Rattle.std.specs.Prelude.{◌≡◌, ◌<◌, ℕ, List, length};
    ghost use Rattle.kc_marks.specs.Maps.{number_in};
    ghost use Rattle.kc_marks.specs.Sparse.{number_at};
    ghost use Rattle.kc_marks.specs.declared.map.VertexEntry.{VertexEntry};
    ghost use Rattle.kc_marks.specs.declared.map.TheConstants.{FEW};

    ghost Value = { List (VertexEntry V) };

    ghost view = { λ m. m.entries.items };

    ghost invariant = { λ m. FEW < length m.entries.items → (y : ℕ) → number_at m.numbers y ≡ number_in m.entries.items y };
}

impl<V: Copy + Drop> VertexMap<V> {
    /// No vertex has a value. It takes no memory.
    pub fn new(alloc: Global) -> VertexMap<V>
        ensures { result ≡ [] }
    {
        VertexMap {
            entries: Vec::new(alloc),
            numbers: SparseArray::new(alloc),
        }
    }

    /// The value of a vertex, if it has one.
    #[inline]
    pub fn find(&self, y: u32) -> Option<V>
        ensures { result ≡ value_of self.now y }
    {
        let number = self.number_of(y);
        if number == 0 {
            return None;
        }
        Some(self.entries[(number - 1) as usize].value)
    }

    /// Gives a vertex a value, whether or not it had one. Where there is no memory for it, all values stay.
    #[inline]
    pub fn insert(&mut self, y: u32, value: V) -> Result<(), AllocError>
        ensures ok { OnOk result (ValuesOne y value self.old self.new) }
        ensures err { OnErr result (self.new ≡ self.old) }
    {
        if self.replace(y, value) {
            return Ok(());
        }
        self.add(y, value)
    }

    /// Gives a vertex that has a value another one, and says whether it had one. It takes no memory.
    #[inline]
    pub fn replace(&mut self, y: u32, value: V) -> bool
        ensures had { result ≡ is_some (value_of self.old y) }
        ensures found { IsTrue result → ValuesOne y value self.old self.new }
        ensures none { result ≡ false → self.new ≡ self.old }
    {
        let number = self.number_of(y);
        if number == 0 {
            return false;
        }
        self.entries[(number - 1) as usize].value = value;
        true
    }

    /// The place of the entry of a vertex, counted from 1, or 0 where it has none.
    #[inline]
    fn number_of(&self, y: u32) -> u32
        ensures { result ≡ number_in self.now y }
    {
        if self.entries.len() <= FEW {
            return number_among(&self.entries, y);
        }
        self.numbers.get(y)
    }

    /// Gives a vertex that has no value its first one. With the entry after the few the array begins to say where each vertex has its own.
    fn add(&mut self, y: u32, value: V) -> Result<(), AllocError>
        requires { value_of self.old y ≡ None }
        ensures ok { OnOk result (ValuesOne y value self.old self.new) }
        ensures err { OnErr result (self.new ≡ self.old) }
    {
        if self.entries.len() < FEW {
            self.entries.push(VertexEntry { vertex: y, value })?;
            return Ok(());
        }
        if self.entries.len() == FEW {
            self.numbers = numbers_of(*self.entries.allocator(), &self.entries)?;
        }
        push_numbered(&mut self.entries, &mut self.numbers, y, value)
    }
}

/// The place of the entry of a vertex, counted from 1, or 0 where it has none. The entries are looked through.
fn number_among<V>(entries: &[VertexEntry<V>], y: u32) -> u32
    requires { length entries.now ≤ FEW }
    ensures { result ≡ number_in entries.now y }
{
    for (i, entry) in entries.iter().enumerate() {
        if entry.vertex == y {
            return i as u32 + 1;
        }
    }
    0
}

/// An array that says of each vertex where its entry stands. The last entry is numbered first, so a vertex keeps the number of its first.
fn numbers_of<V>(alloc: Global, entries: &[VertexEntry<V>]) -> Result<SparseArray, AllocError>
    requires { length entries.now ≤ FEW }
    ensures { IfOk result (λ numbers. (y : ℕ) → number_at numbers y ≡ number_in entries.now y) }
{
    let mut numbers = SparseArray::new(alloc);
    for i in (0..entries.len()).rev() {
        numbers.set(entries[i].vertex, i as u32 + 1)?;
    }
    Ok(numbers)
}

/// Puts the entry of a vertex that has none behind the others, where the array says where each stands. Where there is no memory for it, the
/// entries stay, and so does what the array says.
fn push_numbered<V: Copy + Drop>(
    entries: &mut Vec<VertexEntry<V>>,
    numbers: &mut SparseArray,
    y: u32,
    value: V,
) -> Result<(), AllocError>
    requires none { value_of entries.old.items y ≡ None }
    requires numbered { (z : ℕ) → number_at numbers.old z ≡ number_in entries.old.items z }
    ensures numbered { (z : ℕ) → number_at numbers.new z ≡ number_in entries.new.items z }
    ensures ok { OnOk result (ValuesOne y value entries.old.items entries.new.items) }
    ensures err { OnErr result (entries.new.items ≡ entries.old.items) }
{
    let number = next_number(entries.len())?;
    entries.push(VertexEntry { vertex: y, value })?;
    if let Err(error) = numbers.set(y, number) {
        entries.pop();
        return Err(error);
    }
    Ok(())
}

/// The place of the entry that comes next, counted from 1; an error where it can't be told.
fn next_number(entries: usize) -> Result<u32, AllocError>
    ensures next { IfOk result (λ number. number ≡ entries + 1) }
    ensures none { OnErr result (2 ^ 32 - 1 ≤ entries) }
{
    if entries >= u32::MAX as usize {
        return Err(AllocError);
    }
    Ok(entries as u32 + 1)
}
