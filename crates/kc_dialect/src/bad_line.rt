//! A line that has no id in one of the columns of a dialect.

/// What is wrong with the field that a column of a dialect names.
#[derive(Clone, Copy, Debug, PartialEq, Eq)]
pub enum BadKind {
    /// The line ends before the column.
    MissingColumn,
    /// Numbers are wanted, and the field is empty or has a byte that is no decimal digit.
    NotANumber,
    /// The number is 2^32 or more.
    NumberTooLarge,
    /// Names are wanted, and the field is empty, is no UTF-8, or has a blank or a control character.
    NotAName,
}

/// The first field of a line that is wrong.
#[derive(Clone, Copy, Debug, PartialEq, Eq)]
pub struct BadField {
    /// The place of the field's first byte in its line, from 1. A quote is its first byte, and a blank before it is not. Where the
    /// column is missing, it is the place behind the line's last byte.
    pub column: u64,
    pub kind: BadKind,
}

/// A line that is bad in a dialect: where, and what is wrong.
#[derive(Clone, Copy, Debug, PartialEq, Eq)]
pub struct BadLine {
    /// The number of the line, from 1.
    pub line: u64,
    /// The place of the field's first byte in the line, from 1, as in [`BadField`]. A byte order mark doesn't count.
    pub column: u64,
    pub kind: BadKind,
}
