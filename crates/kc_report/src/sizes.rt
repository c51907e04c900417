//! How much of each thing a generated text has. Code, clauses and definitions cite these.

/// The ids of a generated text are below this.
pub(crate) const IDS: u32 = 10_000;

/// The edge lines.
pub(crate) const EDGE_LINES: u32 = 50_000;

/// The batches.
pub(crate) const BATCHES: u32 = 4;

/// The turns of a batch. Each writes a change or nothing.
pub(crate) const TURNS: u32 = 1000;
