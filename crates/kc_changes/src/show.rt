//! What is told of core numbers behind a batch.

/// What is told of core numbers behind a batch.
#[derive(Clone, Copy, Debug, Eq, PartialEq)]
pub enum Show {
    /// Nothing: the line of the batch says the greatest one.
    Summary,
    /// A line for each id whose core number is another one than before, or that is new.
    Changes,
}
