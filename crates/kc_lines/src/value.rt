//! What a field of a line has.

/// A number or a name.
#[derive(Clone, Copy, Debug, PartialEq, Eq)]
pub enum Value<'a> {
    /// A number. It is written in decimal digits.
    Number(u64),
    /// The bytes of a name. With tabs they stand as they are, and in JSON as a string. That is JSON where they are UTF-8.
    Name(&'a [u8]),
}
