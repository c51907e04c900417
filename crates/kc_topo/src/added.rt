//! What became of an arc that was added.

/// What became of an arc that was added and not refused.
#[derive(Clone, Copy, Debug, Drop, Eq, PartialEq)]
pub enum Added {
    /// It was entered.
    New,
    /// It stood already, and nothing changed.
    There,
}
