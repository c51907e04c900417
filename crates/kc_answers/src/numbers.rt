//! The numbers that answers speak of.

/// The numbers of ids that answers speak of, each at the place of its id.
#[derive(Clone, Copy, Debug, Eq, PartialEq)]
pub struct Numbers<'a> {
    /// The core numbers.
    pub core: &'a [u32],
    /// The layers, which only some answers speak of.
    pub layer: &'a [u32],
}
