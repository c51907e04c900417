//! What a wire in memory keeps of a call.

/// What happened on a wire in memory.
#[derive(Debug, Drop, PartialEq, Eq)]
pub enum MemEvent {
    /// A read gave these bytes, none at the end of the input.
    Read(Vec<u8>),
    /// A write took these bytes.
    Wrote(Vec<u8>),
}
