//! How a dialogue ends whose states are saved.
use kc_dialogue::end::DialogueEnd;
use kc_files::folder::Unplaced;

/// How a dialogue ends whose states are saved.
#[derive(Clone, Copy, Debug, PartialEq, Eq)]
pub enum SavingEnd {
    /// The dialogue has ended so. At `Done` the last state was saved, unless a line has ended the reading. At `NoMemory` a state was perhaps not
    /// saved.
    Dialogue(DialogueEnd),
    /// A state was not saved. All answers to what was read were written.
    Unsaved(Unplaced),
}
