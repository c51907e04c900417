//! Parts of a block, which lie one after the other.
ghost use Rattle.std.specs.Prelude.{◌≡◌, ◌≤◌, ◌<◌, length};
ghost use Rattle.std.specs.List.{between};
ghost use Rattle.kc_graph.specs.Blocks.{first_of};
ghost use Rattle.kc_flat.specs.Parts.{part, Fills};

/// Where a part begins: where the one before it ends.
pub(crate) fn start_of(ends: &[usize], v: usize) -> usize
    requires { v ≤ length ends.now }
    ensures { result ≡ first_of ends.now v }
{
    if v == 0 { 0 } else { ends[v - 1] }
}

/// The numbers of a block from the place `from` to below `to`.
fn cut(block: &[u32], from: usize, to: usize) -> &[u32]
    requires ordered { from ≤ to }
    requires within { to ≤ length block.now }
    ensures { result.now ≡ between from to block.now }
{
    &block[from..to]
}

/// The numbers of one part of a block.
pub(crate) fn part_of<'a>(block: &'a [u32], ends: &[usize], v: usize) -> &'a [u32]
    requires fills { Fills ends.now block.now }
    requires v_in { v < length ends.now }
    ensures { result.now ≡ part ends.now block.now v }
{
    cut(block, start_of(ends, v), ends[v])
}
