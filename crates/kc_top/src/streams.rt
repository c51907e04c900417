//! The streams of a run.

/// What a run reads, what it writes its lines to, and what it writes one line to where it stops.
#[derive(Drop)]
pub struct Streams<S, O, E> {
    pub source: S,
    pub out: O,
    pub err: E,
}
