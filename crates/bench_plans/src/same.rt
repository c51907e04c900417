//! Whether two plans are the same.
use kc_graph::{Moves, Plan, UsedEdges};

/// Whether two plans move the same vertices in the same way, and rest on the same answers in the same order.
pub(crate) fn is_same(first: &Plan, second: &Plan) -> bool {
    let (used, other) = (&first.used, &second.used);
    first.update == second.update
        && is_same_moves(&first.moves, &second.moves)
        && is_same_lists(&used.edges, &other.edges)
        && used.places == other.places
        && used.orders == other.orders
}

/// Whether the lists are the same, and as old.
fn is_same_lists(first: &[UsedEdges], second: &[UsedEdges]) -> bool {
    first.len() == second.len()
        && first.iter().zip(second).all(|(a, b)| {
            a.vertex == b.vertex
                && a.at == b.at
                && a.neighbours.as_slice() == b.neighbours.as_slice()
        })
}

/// Whether the vertices move in the same way.
fn is_same_moves(first: &Moves, second: &Moves) -> bool {
    match (first, second) {
        (Moves::Kept, Moves::Kept) | (Moves::Plain, Moves::Plain) => true,
        (
            Moves::Rise {
                level,
                rise,
                shifts,
            },
            Moves::Rise {
                level: other,
                rise: risen,
                shifts: shifted,
            },
        ) => level == other && rise == risen && shifts == shifted,
        (
            Moves::Fall { level, fall },
            Moves::Fall {
                level: other,
                fall: fallen,
            },
        ) => level == other && fall == fallen,
        _ => false,
    }
}
