//! A question in a stream.

/// What a line of a stream asks about the graph behind the last batch that has ended.
#[derive(Clone, Copy, Debug, PartialEq, Eq)]
pub enum Question {
    /// The core number of an id.
    Core(u32),
    /// The ids of the core of a level.
    Members(u32),
    /// How many vertices have each core number.
    Sizes,
    /// Which of two ids stands first in the order by core number, layer and id.
    Order(u32, u32),
}
