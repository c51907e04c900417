//! The pieces of the vertices, one for each thread.
//!
//! Degrees are skewed: on many graphs the vertices in front have most edges, and if each piece had vertices that stand together, most
//! threads would wait for the first. So the vertices are dealt out in turn, and each piece has as many of every kind.
ghost use Rattle.std.specs.Prelude.{◌≡◌, ◌↔◌, ◌<◌, ◌+◌, ◌*◌, ℕ, IfOk, length};
ghost use Rattle.kc_hindex.specs.Pieces.{AreDealt};

use kc_graph::NoMemory;
use std::alloc::Global;

/// What one thread works on. Of `n` pieces the one at place `p` has the vertices `p`, `p + n`, `p + 2 * n` and so on.
#[derive(Debug, Drop)]
pub(crate) struct Piece {
    /// What the last round made of the numbers of its vertices, in ascending order of these.
    pub(crate) numbers: Vec<u32>,
    /// Room to count the numbers of a vertex's neighbours.
    pub(crate) counts: Vec<u32>,
}

/// How many of so many vertices the piece at place `p` has, where there are so many pieces.
fn size_of_piece(vertices: usize, pieces: usize, p: usize) -> usize
    requires { 0 < pieces }
    ensures { (i : ℕ) → i < result ↔ p + i * pieces < vertices }
{
    vertices.saturating_sub(p).div_ceil(pieces)
}

/// So many pieces of so many vertices, with room for so many counts each.
pub(crate) fn pieces_for(
    alloc: Global,
    pieces: usize,
    vertices: usize,
    room: usize,
) -> Result<Vec<Piece>, NoMemory>
    requires { 0 < pieces }
    ensures { IfOk result (λ made. AreDealt vertices room made.items) }
{
    let mut made = Vec::with_capacity(alloc, pieces)?;
    for p in 0..pieces {
        let numbers = vec![in alloc; 0u32; size_of_piece(vertices, pieces, p)]?;
        let counts = vec![in alloc; 0u32; room]?;
        made.push(Piece { numbers, counts })?;
    }
    Ok(made)
}
