//! The limits of a text: how much of each thing it may have. They are a value, so that each program has its own; those of the program
//! `kcore` are named one by one too. Code, clauses and definitions cite these, each for what it means.

/// The most different ids of a text with batches.
pub const MOST_IDS: u32 = 524_288;

/// The most edge lines of a text with batches.
pub const MOST_EDGE_LINES: usize = 4_194_304;

/// The most add and remove lines, in all batches together.
pub const MOST_UPDATES: u32 = 1_048_576;

/// The most batch lines.
pub const MOST_BATCHES: u32 = 4096;

/// The most bytes of a text with batches.
pub const MOST_BYTES: usize = 67_108_864;

/// How much of each thing a text may have. The line with which there is more of it is refused.
#[derive(Clone, Copy, Debug, PartialEq, Eq)]
pub struct Limits {
    /// The most different ids.
    pub ids: u32,
    /// The most edge lines.
    pub edge_lines: usize,
    /// The most add and remove lines, in all batches together.
    pub updates: u32,
    /// The most batch lines.
    pub batches: u32,
    /// The most bytes. A text of more is refused as a whole.
    pub bytes: usize,
}

impl Limits {
    /// The limits of the program `kcore`, which applies batches.
    pub const KCORE: Limits = Limits {
        ids: MOST_IDS,
        edge_lines: MOST_EDGE_LINES,
        updates: MOST_UPDATES,
        batches: MOST_BATCHES,
        bytes: MOST_BYTES,
    };

    /// The limits of a graph without batches: there may be no batch line, and all else ends where numbers do. What there is memory for
    /// comes first.
    pub const GRAPH: Limits = Limits {
        ids: 4_294_967_294,
        edge_lines: 1_099_511_627_776,
        updates: 0,
        batches: 0,
        bytes: 9_223_372_036_854_775_807,
    };
}
