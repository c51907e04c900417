//! Tells whether the first pair of a text may be the sizes of its graph.
ghost use Rattle.std.specs.Prelude.{◌≡◌, length};
ghost use Rattle.std.specs.List.{list_all};
ghost use Rattle.kc_head.specs.Sizes.{are_sizes_of, count_with, is_sized, may_be_sizes};
ghost use Rattle.kc_text.specs.Inputs.{IsNamedEdges};
ghost use Rattle.kc_text.specs.Meaning.{Told};

use kc_text::NamedEdges;

/// Whether no id is greater than the first number of a pair, but for the second number.
fn are_sized(pair: (u32, u32), ids: &[u32]) -> bool
    ensures { result ≡ list_all (is_sized pair) ids.now }
{
    for id in ids {
        if *id > pair.0 && *id != pair.1 {
            return false;
        }
    }
    true
}

/// How many edges are no loops where the second number of a pair counts all but the pair's own.
fn count_with(pair: (u32, u32)) -> u64
    ensures { result ≡ count_with pair }
{
    let (a, b) = pair;
    if a == b {
        u64::from(b)
    } else {
        u64::from(b) + 1
    }
}

/// Whether a pair may be sizes, by the number of edges that are no loops and the ids.
fn are_sizes_of(pair: (u32, u32), edges: usize, ids: &[u32]) -> bool
    ensures { result ≡ are_sizes_of pair edges ids.now }
{
    pair.0 > 1 && pair.1 > 0 && edges as u64 == count_with(pair) && are_sized(pair, ids)
}

/// Whether a pair among the edges of a text may be the sizes of the graph that all others tell: how many vertices it has, at least two, and
/// how many edges, at least one. No id is greater than the first number, but for the second. The second counts the edges that are no loops,
/// without the pair's own.
///
/// # Example
///
/// ```rust
/// use kc_head::may_be_sizes;
/// use kc_text::{Limits, TextReader};
///
/// let mut reader = TextReader::new(alloc, Limits::GRAPH);
/// reader.feed(alloc, b"9 2\n1 2\n2 3\n")?;
/// let named = reader.finish_edges(alloc)?;
/// let sizes = may_be_sizes((9, 2), &named); // true: two edges, between ids up to 9
/// let edge = may_be_sizes((2, 3), &named); // false
/// ```
pub fn may_be_sizes(pair: (u32, u32), named: &NamedEdges) -> bool
    ensures { (told : Told) → IsNamedEdges told named.now → result ≡ may_be_sizes pair told }
{
    are_sizes_of(pair, named.edges.len(), &named.ids)
}
