//! A dialect: how the lines of an edge list are to be read.

/// What stands between the fields of a line.
#[derive(Clone, Copy, Debug, PartialEq, Eq)]
pub enum Separator {
    /// Spaces and tabs, any number of them. A double quote is a byte like another.
    Blank,
    /// One comma, but for those in double quotes.
    Comma,
    /// One semicolon, but for those in double quotes.
    Semicolon,
    /// One tab, but for those in double quotes.
    Tab,
}

/// What the two ids of a line are.
#[derive(Clone, Copy, Debug, PartialEq, Eq)]
pub enum Ids {
    /// Whole numbers below 2^32, of decimal digits.
    Numbers,
    /// Names: text of UTF-8 without blanks and control characters. Two names are one where their bytes are the same.
    Names,
}

/// What becomes of a line that lacks an id in one of the columns.
#[derive(Clone, Copy, Debug, PartialEq, Eq)]
pub enum BadLines {
    /// The first of them ends the reading.
    Stop,
    /// They are passed over and counted.
    Skip,
}

/// How the lines of an edge list are to be read: which of the fields are the two ids, and which lines say nothing.
#[derive(Clone, Copy, Debug, PartialEq, Eq)]
pub struct Dialect {
    /// The columns of the two ids, from 1. There is no column 0. All other columns are passed over.
    pub columns: (u32, u32),
    pub separator: Separator,
    /// How many lines at the top say nothing, as a header does.
    pub skip: u64,
    pub bad_lines: BadLines,
    pub ids: Ids,
}

impl Dialect {
    /// The dialect nearest to the text that `kc_text` reads: the first two fields between blanks.
    pub const PLAIN: Dialect = Dialect {
        columns: (1, 2),
        separator: Separator::Blank,
        skip: 0,
        bad_lines: BadLines::Stop,
        ids: Ids::Numbers,
    };
}
