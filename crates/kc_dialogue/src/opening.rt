//! What is said before anything is read.
use crate::flow::Flow;

/// What a replier says before anything is read of a wire, as it was fed bytes from elsewhere.
#[derive(Drop)]
pub struct Opening {
    /// What has to be written first.
    pub text: Vec<u8>,
    /// Whether the dialogue goes on behind it.
    pub flow: Flow,
}
