//! What stands before the workers of a run.

/// Lets workers in: says in how many threads a round of them runs and when it ends, and is called before each try.
///
/// The calls of a round come in this order: `begin_round`, then the tries and looks of its workers, then `end_round`. What a gate answers
/// changes how long a batch takes, and nothing of what it leaves. A gate that says nothing of rounds has each run in as many threads as
/// there are workers, until the queue is empty.
pub trait Gate {
    /// Is called before each try to enter an update, while no lock is held. A test holds workers up there, or has others enter meanwhile.
    fn before_enter(&self, worker: u32, index: u32);

    /// A round begins, of so many workers, with so many updates before it. Gives how many threads it is to have: at least one is taken, and
    /// no more than there are workers or updates.
    fn begin_round(&self, workers: usize, _updates: usize) -> usize {
        workers
    }

    /// Whether the round is to end, though updates may be left: another one follows then. Each worker looks after each update.
    fn ends_round(&self) -> bool {
        false
    }

    /// The round has ended, and so many updates were entered in it.
    fn end_round(&self, _updates: usize) {}
}

/// Does nothing.
#[derive(Clone, Copy, Debug)]
pub struct NoGate;

impl Gate for NoGate {
    fn before_enter(&self, _worker: u32, _index: u32) {}
}
