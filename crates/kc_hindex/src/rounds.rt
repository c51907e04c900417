//! One round, dealt out to threads.
ghost use Rattle.std.specs.Prelude.{◌≡◌, ◌↔◌, ◌≤◌, ◌<◌, ◌+◌, ◌*◌, ◌^◌, ℕ, false, length, slice_index, vec_len};
ghost use Rattle.kc_hindex.specs.Rounds.{IsRoundOf, h_round};
ghost use Rattle.kc_hindex.specs.Crossing.{Crosses};
ghost use Rattle.kc_hindex.specs.Pieces.{AreDealt, AreMade, AreReady, MadeFrom};

use crate::crossing::take_over;
use crate::piece::Piece;
use kc_graph::Graph;
use kc_shard::h_index_of;
use rayon::current_num_threads;
use std::thread;
use std::thread::Threads;

/// The most threads that a round is dealt out to.
const MOST_PROCESSORS: usize = 32;

/// How many threads a round is dealt out to: as many as there are processors, at most `MOST_PROCESSORS`. The clause says only: some.
pub(crate) fn processors(rt: &impl Threads) -> usize
    ensures { 0 < result }
{
    current_num_threads(rt).min(MOST_PROCESSORS)
}

/// What a round makes of the number of a vertex, which keeps it where it was not crossed.
fn number_after(
    graph: &Graph,
    v: usize,
    numbers: &[u32],
    crossed: &[bool],
    counts: &mut [u32],
) -> u32
    requires within { v < graph.now.size }
    requires ready { AreReady graph.now numbers.now crossed.now }
    requires room { length counts.old ≡ length crossed.now }
    ensures number { result ≡ h_round graph.now (slice_index numbers.now) v }
    ensures room { length counts.new ≡ length counts.old }
{
    let _vertices = graph.vertices();
    let limit = numbers[v];
    if !crossed[limit as usize] {
        return limit;
    }
    h_index_of(limit, graph.neighbours(v as u32), numbers, counts)
}

/// Gives a piece what the round makes of the numbers of its vertices, which stand a step apart from the first on.
fn fill_piece(
    graph: &Graph,
    numbers: &[u32],
    crossed: &[bool],
    first: usize,
    step: usize,
    piece: &mut Piece,
)
    requires within { (i : ℕ) → i < length piece.old.numbers.items → first + i * step < graph.now.size }
    requires ready { AreReady graph.now numbers.now crossed.now }
    requires room { vec_len piece.old.counts ≡ length crossed.now }
    ensures made { MadeFrom graph.now numbers.now first step piece.new.numbers.items }
    ensures len { length piece.new.numbers.items ≡ length piece.old.numbers.items }
    ensures room { vec_len piece.new.counts ≡ vec_len piece.old.counts }
{
    let _vertices = graph.vertices();
    for i in 0..piece.numbers.len() {
        let v = first + i * step;
        piece.numbers[i] = number_after(graph, v, numbers, crossed, &mut piece.counts);
    }
}

/// Gives each piece what the round makes of the numbers of its vertices, in a thread of its own.
fn fill_pieces(
    rt: &(impl Threads + Sync),
    graph: &Graph,
    numbers: &[u32],
    crossed: &[bool],
    pieces: &mut [Piece],
)
    requires ready { AreReady graph.now numbers.now crossed.now }
    requires dealt { AreDealt graph.now.size (length crossed.now) pieces.old }
    ensures made { AreMade graph.now numbers.now pieces.new }
    ensures dealt { AreDealt graph.now.size (length crossed.now) pieces.new }
{
    let step = pieces.len();
    thread::for_each_mut(
        rt,
        pieces,
        step,
        &|first: usize, piece: &mut Piece|
            requires { AreReady graph.now numbers.now crossed.now × (vec_len piece.old.counts ≡ length crossed.now)
                × ((i : ℕ) → i < length piece.old.numbers.items → first + i * step < graph.now.size) }
            ensures { MadeFrom graph.entry.now numbers.entry.now first step piece.new.numbers.items
                × (length piece.new.numbers.items ≡ length piece.old.numbers.items) × (vec_len piece.new.counts ≡ vec_len piece.old.counts) }
        {
            fill_piece(graph, numbers, crossed, first, step, piece);
        },
    );
}

/// One round: each vertex gets what the round makes of its number, all at once, however the vertices are dealt out among threads. The
/// numbers that are crossed are marked. It says whether some number changed.
pub(crate) fn round(
    rt: &(impl Threads + Sync),
    graph: &Graph,
    numbers: &mut [u32],
    crossed: &mut [bool],
    pieces: &mut [Piece],
) -> bool
    requires ready { AreReady graph.now numbers.old crossed.old }
    requires dealt { AreDealt graph.now.size (length crossed.old) pieces.old }
    ensures round { IsRoundOf graph.now numbers.old numbers.new }
    ensures crossed { Crosses numbers.old numbers.new crossed.new }
    ensures marks { length crossed.new ≡ length crossed.old }
    ensures dealt { AreDealt graph.now.size (length crossed.new) pieces.new }
    ensures changed { result ≡ false ↔ (numbers.new ≡ numbers.old) }
{
    fill_pieces(rt, graph, numbers, crossed, pieces);
    take_over(numbers, crossed, pieces)
}
