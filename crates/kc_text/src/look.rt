//! The two ways to read a text: quickly, or with a count of the ids at each line.

/// How a reader finds that there are too many ids.
#[derive(Clone, Copy)]
pub(crate) enum Look {
    /// It leaves that to the end.
    Quick,
    /// It counts them at each line.
    Exact,
}
