//! Why a shared list is not changed. Each fault is tied to its cause by the contracts of `SharedOrder`.

/// Why a put or a take stored nothing.
#[derive(Clone, Copy, Debug, Drop, Eq, PartialEq)]
pub enum OrderFault {
    /// The item that a put goes after, or that a take takes, is out of the list.
    Absent { item: u32 },
    /// The greatest version of a word leaves no room for the stores of a call.
    Spent { highest: u32 },
}
