//! What one attempt comes to.
ghost use Rattle.std.specs.Prelude.{◌≡◌};
ghost use Rattle.kc_workers.specs.Updates.{told_attempt};

use kc_journal::{EnterFault, Receipt};
use kc_shared::{Missed, SharedFault};

/// An attempt to enter an update without planning under the lock, where nothing stands against the update itself.
#[derive(Drop)]
pub(crate) enum Attempt {
    Entered(Receipt),
    Missed(Missed),
}

/// What a fault of the shared state is to an attempt: a stale stamp is a miss, and any other fault is the update's too.
pub(crate) fn attempt_of(fault: SharedFault) -> Result<Attempt, SharedFault>
    ensures { result ≡ told_attempt fault }
{
    match fault {
        SharedFault::Enter(
            EnterFault::Stale {
                vertex,
                edges,
                used,
                now,
            },
        ) => Ok(Attempt::Missed(Missed::Stale {
            vertex,
            edges,
            used,
            now,
        })),
        fault => Err(fault),
    }
}
