//! What a worker has left of the updates that it took.
ghost use Rattle.std.specs.Prelude.{◌≡◌};
ghost use Rattle.kc_batch.specs.Desks.{untold_of};

use kc_journal::Receipt;

/// What a worker has left at the end of a round.
#[derive(Clone, Copy, Debug, Drop, Eq, PartialEq)]
pub(crate) enum Left {
    /// Nothing: all that it took is entered, and told to its caller.
    Nothing,
    /// The update at this place of the batch, which it is to enter first.
    Kept { place: u32 },
    /// The update at this place, for which there was no memory.
    Dropped { place: u32 },
    /// An update that was entered before memory ran out.
    Untold { receipt: Receipt },
}

impl Left {
    /// The receipt of an update that was entered before memory ran out, if there is one.
    pub(crate) fn untold(self) -> Option<Receipt>
        ensures { result ≡ untold_of self }
    {
        match self {
            Left::Untold { receipt } => Some(receipt),
            Left::Nothing | Left::Kept { .. } | Left::Dropped { .. } => None,
        }
    }
}
