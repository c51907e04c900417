//! A watcher with who makes its batches.
ghost use Rattle.kc_watch.specs.Text.{reply, reply_at_end};
ghost use Rattle.kc_watch.specs.Watching.{HasEnded, WasFed};

use crate::NoMemory;
use crate::options::WatchOptions;
use crate::watcher::Watcher;
use kc_dialogue::flow::Flow;
use kc_dialogue::replier::Replier;
use kc_keeper::BatchMaker;
use std::alloc::Global;

/// A watcher with who makes its batches. Whoever that is, the answers are those of the watcher.
///
/// # Example
///
/// ```rust
/// use kc_dialogue::replier::Replier;
/// use kc_keeper::KeeperAlone;
/// use kc_watch::{Watcher, WatcherWith};
///
/// let mut made = WatcherWith { watcher: Watcher::new(alloc, options), maker: &KeeperAlone };
/// let mut out = Vec::new(alloc);
/// made.feed(alloc, b"1 2\nbatch\n", &mut out)?; // "graph vertices 2 edges 1 top 1\n"
/// let lines = made.watcher.lines(); // 2
/// ```
#[derive(Drop)]
pub struct WatcherWith<'a, M> {
    /// The watcher.
    pub watcher: Watcher,
    /// Who makes its batches.
    pub maker: &'a M,
}

impl<M: BatchMaker> Replier for WatcherWith<'_, M> {
    type Settings = WatchOptions;

    ghost settings = { λ made. made.watcher.options };

    ghost reply = { λ made. reply made.watcher.options };

    ghost reply_at_end = { λ made. reply_at_end made.watcher.options };

    ghost was_fed = { λ made. WasFed made.watcher };

    ghost has_ended = { λ made. HasEnded made.watcher };

    fn feed(&mut self, alloc: Global, piece: &[u8], out: &mut Vec<u8>) -> Result<Flow, NoMemory> {
        self.watcher.feed_by(alloc, self.maker, piece, out)
    }

    fn end(&mut self, alloc: Global, out: &mut Vec<u8>) -> Result<(), NoMemory> {
        self.watcher.end_by(alloc, self.maker, out)
    }
}
