//! Whoever is told how far a run is.

/// Whoever is told how far a run is. Nothing is promised of what it does with that.
pub trait Progress {
    /// The work begins: from now on it may be told of.
    fn begin(&self);

    /// So many bytes more were read.
    fn has_read(&self, bytes: usize);

    /// Vertices of this core number are peeled.
    fn peeled(&self, core: u32);

    /// The work has ended: nothing is told of it any more.
    fn end(&self);
}
