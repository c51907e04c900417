//! The numbers that a round crosses: some vertex had at least so many before it, and has fewer after it.
//!
//! A vertex whose own number was not crossed keeps it in the next round: as many of its neighbours reach that number as before. Most
//! rounds cross few numbers, so most vertices are passed over without a look at their neighbours.
ghost use Rattle.std.specs.Prelude.{◌≡◌, ◌↔◌, ◌≤◌, ◌<◌, ◌+◌, ◌*◌, ℕ, true, false, length, slice_index, slice_index_or, slice_set};
ghost use Rattle.kc_graph.specs.Rows.{row};
ghost use Rattle.kc_hindex.specs.Crossing.{Crosses, KeepsMarks, Taken};
ghost use Rattle.kc_hindex.specs.Pieces.{AreDealt, StandInTurn, numbers_of};

use crate::piece::Piece;

/// Marks each number above `new`, up to `old`.
fn cross(crossed: &mut [bool], new: u32, old: u32)
    requires { old < length crossed.old }
    ensures len { length crossed.new ≡ length crossed.old }
    ensures marked { (k : ℕ) → new < k → k ≤ old → slice_index_or crossed.new k false ≡ true }
    ensures kept { KeepsMarks crossed.old crossed.new }
{
    for k in new as usize + 1..old as usize + 1 {
        crossed[k] = true;
    }
}

/// Gives a vertex its number after the round, which is no greater than the one before, and marks each number that it crosses. It says
/// whether the number changed.
fn take_number(numbers: &mut [u32], crossed: &mut [bool], v: usize, new: u32) -> bool
    requires within { v < length numbers.old }
    requires marked { slice_index numbers.old v < length crossed.old }
    ensures numbers { numbers.new ≡ slice_set numbers.old v new }
    ensures marks { length crossed.new ≡ length crossed.old }
    ensures crossed { (k : ℕ) → new < k → k ≤ slice_index numbers.old v → slice_index_or crossed.new k false ≡ true }
    ensures kept { KeepsMarks crossed.old crossed.new }
    ensures changed { result ≡ false ↔ (slice_index numbers.old v ≡ new) }
{
    let old = numbers[v];
    cross(crossed, new, old);
    numbers[v] = new;
    old != new
}

/// Takes over the numbers of a piece, and marks each number that is crossed. It says whether some number changed.
fn take_piece(
    numbers: &mut [u32],
    crossed: &mut [bool],
    first: usize,
    step: usize,
    new: &[u32],
) -> bool
    requires step { 0 < step }
    requires within { (i : ℕ) → i < length new.now → first + i * step < length numbers.old }
    requires marked { (v : ℕ) → v < length numbers.old → slice_index numbers.old v < length crossed.old }
    requires falls { (i : ℕ) → i < length new.now → slice_index new.now i ≤ slice_index numbers.old (first + i * step) }
    ensures { Taken first step new.now (length new.now) numbers.old crossed.old numbers.new crossed.new result }
{
    let mut changed = false;
    for i in 0..new.len() {
        if take_number(numbers, crossed, first + i * step, new[i]) {
            changed = true;
        }
    }
    changed
}

/// Takes over the numbers of all pieces, and marks just the numbers that are crossed. It says whether some number changed.
pub(crate) fn take_over(numbers: &mut [u32], crossed: &mut [bool], pieces: &[Piece]) -> bool
    requires dealt { AreDealt (length numbers.old) (length crossed.old) pieces.now }
    requires marked { (v : ℕ) → v < length numbers.old → slice_index numbers.old v < length crossed.old }
    requires falls { (p i : ℕ) → p < length pieces.now → i < length (row (numbers_of pieces.now) p)
        → slice_index (row (numbers_of pieces.now) p) i ≤ slice_index numbers.old (p + i * length pieces.now) }
    ensures len { length numbers.new ≡ length numbers.old }
    ensures taken { StandInTurn numbers.new pieces.now }
    ensures marks { length crossed.new ≡ length crossed.old }
    ensures crossed { Crosses numbers.old numbers.new crossed.new }
    ensures changed { result ≡ false ↔ (numbers.new ≡ numbers.old) }
{
    crossed.fill(false);
    let mut changed = false;
    for p in 0..pieces.len() {
        if take_piece(numbers, crossed, p, pieces.len(), &pieces[p].numbers) {
            changed = true;
        }
    }
    changed
}
