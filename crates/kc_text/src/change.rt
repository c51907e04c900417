//! What an add or a remove line says.

/// What an add or remove line says: the edge between two ids comes, where `add` holds, or goes.
#[derive(Clone, Copy)]
pub struct ChangeLine {
    pub add: bool,
    /// The first id of the line.
    pub a: u32,
    /// The second id of the line.
    pub b: u32,
}
