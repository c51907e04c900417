//! What may be found to be wrong.
use kc_order::{Answer, OrderFault};

/// Something that is wrong.
#[derive(Clone, Copy, Debug, Drop, Eq, PartialEq)]
pub(crate) enum Wrong {
    /// A put or a take is refused.
    Refused {
        round: u32,
        fault: OrderFault,
    },
    /// The list of one thread refuses what the shared one does not.
    Parted {
        round: u32,
    },
    /// A comparison of two items by one who was told of so many rounds.
    Answered {
        told: u32,
        first: u32,
        second: u32,
        answer: Answer,
    },
}
