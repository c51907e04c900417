//! Where states are saved, and how often.

/// Where the states of a stream are saved, and how often.
#[derive(Clone, Copy, Debug)]
pub struct Saves<'a> {
    /// The file that has the last state.
    pub file: &'a str,
    /// A state is saved each time that so many batches have ended since the last save, 0 being taken for 1; where
    /// there is no number, only at the end of the stream.
    pub every: Option<u64>,
}
