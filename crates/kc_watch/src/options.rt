//! What a stream is answered beside the lines of its graph and of its batches, what becomes of bad lines, how the answers are written, and by how
//! many workers its batches may be made.
ghost use Rattle.std.specs.Prelude.{◌≡◌, ◌⊎◌, None, false, is_some, true};
ghost use Rattle.kc_changes.specs.declared.show.Show.{Show};

use kc_changes::Show;
use kc_reply::ReplyFormat;
use kc_stream::BadLines;

/// What a stream is answered beside the lines of its graph and of its batches, what becomes of bad lines, how the answers are written, and by how
/// many workers its batches may be made.
#[derive(Clone, Copy, Debug, PartialEq, Eq)]
pub struct WatchOptions {
    /// What is told of core numbers behind a batch.
    pub show: Show,
    /// The level of a core, where it is told who came into it in a batch or left it.
    pub enter: Option<u32>,
    /// What becomes of a refused line in a batch.
    pub bad_lines: BadLines,
    /// How the answers are written.
    pub format: ReplyFormat,
    /// By how many workers a batch may be made, where somebody has workers (`kc_keeper::BatchMaker`). It changes no answer.
    pub workers: u32,
}

impl WatchOptions {
    /// Whether nothing but lines about the graph and about batches is asked for.
    pub fn is_brief(self) -> bool
        ensures show { result ≡ true → self.show ≡ Show.Summary }
        ensures enter { result ≡ true → self.enter ≡ None }
        ensures more { result ≡ false → (self.show ≡ Show.Changes) ⊎ (is_some self.enter ≡ true) }
    {
        match self.show {
            Show::Summary => self.enter.is_none(),
            Show::Changes => false,
        }
    }
}
