//! A progress that nobody sees.
use crate::progress::Progress;

/// It does nothing with what it is told.
#[derive(Clone, Copy, Debug, Drop)]
pub struct Silent;

impl Progress for Silent {
    fn begin(&self) {}

    fn has_read(&self, _bytes: usize) {}

    fn peeled(&self, _core: u32) {}

    fn end(&self) {}
}
