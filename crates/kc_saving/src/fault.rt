//! Why a state was not saved.
use kc_files::folder::Unplaced;

/// Why a state was not saved.
#[derive(Clone, Copy, Debug, PartialEq, Eq)]
pub enum SaveFault {
    /// There was no memory for a copy of the state.
    NoMemory,
    /// The file was not written.
    Unplaced(Unplaced),
}
