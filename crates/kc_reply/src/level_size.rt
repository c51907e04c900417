//! How many vertices have a core number.

/// How many vertices have a core number.
#[derive(Clone, Copy, Debug, Drop, Eq, PartialEq)]
pub struct LevelSize {
    /// The core number.
    pub core: u32,
    /// How many vertices have just this one.
    pub vertices: u32,
}
