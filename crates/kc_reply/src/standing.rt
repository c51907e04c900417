//! Where one id stands to another.

/// Where one id stands to another, in the order by core number, layer and id.
#[derive(Clone, Copy, Debug, Eq, PartialEq)]
pub enum Standing {
    /// It stands before the other one.
    Before,
    /// It stands behind the other one.
    After,
    /// Both are one id.
    Same,
}
