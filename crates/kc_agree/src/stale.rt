//! The first stamp that a plan has used and that is less than the present one.
ghost use Rattle.std.specs.Prelude.{◌≡◌, ◌<◌, length, All, MatchOption};
ghost use Rattle.kc_view.specs.Answers.{answers_in};
ghost use Rattle.kc_agree.specs.Stale.{AllCurrent, IsFirstList, IsFirstPlace, IsFirstStale, IsListCurrent, IsPlaceCurrent};

use kc_graph::{Used, UsedEdges, UsedPlace};

/// A stamp that a plan has used and that is less than the present one.
#[derive(Clone, Copy, Debug, Drop, Eq, PartialEq)]
pub struct Stale {
    /// The vertex whose list or core number was read.
    pub vertex: u32,
    /// Whether it is the stamp of its list, or else that of its place.
    pub edges: bool,
    /// The stamp that was used.
    pub used: u32,
    /// The present stamp.
    pub now: u32,
}

/// The first stamp of `used` that is less than the present one of its vertex, or none where there is none. The lists are looked at
/// before the places, each from the front. It costs the number of used stamps, and takes no memory.
pub fn first_stale(used: &Used, edge_stamps: &[u32], place_stamps: &[u32]) -> Option<Stale>
    requires edges { All (λ e. e.vertex < length edge_stamps.now) used.now.edges.items }
    requires places { All (λ p. p.vertex < length place_stamps.now) used.now.places.items }
    ensures { MatchOption result
        (AllCurrent edge_stamps.now place_stamps.now (answers_in used.now))
        (λ s. IsFirstStale edge_stamps.now place_stamps.now (answers_in used.now) s) }
{
    match first_stale_list(&used.edges, edge_stamps) {
        Some(stale) => Some(stale),
        None => first_stale_place(&used.places, place_stamps),
    }
}

/// The first list whose stamp is less.
fn first_stale_list(edges: &[UsedEdges], edge_stamps: &[u32]) -> Option<Stale>
    requires { All (λ e. e.vertex < length edge_stamps.now) edges.now }
    ensures { MatchOption result (All (IsListCurrent edge_stamps.now) edges.now) (λ s. IsFirstList edge_stamps.now edges.now s) }
{
    for list in edges {
        let now = edge_stamps[list.vertex as usize];
        if list.at < now {
            return Some(Stale {
                vertex: list.vertex,
                edges: true,
                used: list.at,
                now,
            });
        }
    }
    None
}

/// The first place whose stamp is less.
fn first_stale_place(places: &[UsedPlace], place_stamps: &[u32]) -> Option<Stale>
    requires { All (λ p. p.vertex < length place_stamps.now) places.now }
    ensures { MatchOption result (All (IsPlaceCurrent place_stamps.now) places.now) (λ s. IsFirstPlace place_stamps.now places.now s) }
{
    for place in places {
        let now = place_stamps[place.vertex as usize];
        if place.stamp < now {
            return Some(Stale {
                vertex: place.vertex,
                edges: false,
                used: place.stamp,
                now,
            });
        }
    }
    None
}
