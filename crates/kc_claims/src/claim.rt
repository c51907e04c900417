//! A line of a certificate.

/// What a line of a certificate tells an id: its core number, and its rank where the line has one.
#[derive(Clone, Copy, Debug, PartialEq, Eq)]
pub struct Claim {
    /// The number of the line, from 1.
    pub line: u64,
    pub id: u32,
    /// The core number that the id is told.
    pub number: u32,
    pub rank: Option<u32>,
}
