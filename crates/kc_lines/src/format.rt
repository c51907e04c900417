//! How a line is written.

/// How a line of named numbers is written.
#[derive(Clone, Copy, Debug, PartialEq, Eq)]
pub enum Format {
    /// The numbers alone, with tabs between them.
    Tabs,
    /// A JSON object, with a member for each number.
    Json,
}
