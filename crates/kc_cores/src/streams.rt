//! The streams of a run.

/// What a run reads, what it writes its lines to, and what it writes its message to. The certificate is that of the command `check`, and
/// no other command turns to it. The wire is what the command `watch` reads and writes in turn, and no other command turns to it.
#[derive(Drop)]
pub struct CoresStreams<I, C, O, E, L> {
    pub input: I,
    pub certificate: C,
    pub out: O,
    pub err: E,
    pub wire: L,
}
