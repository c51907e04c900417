//! How the lines of the reply are written.

/// How the lines of the reply are written.
#[derive(Clone, Copy, Debug, Eq, PartialEq)]
pub enum ReplyFormat {
    /// Words and numbers, with a blank between two.
    Words,
    /// A JSON object a line, with a member for each number.
    Json,
}
