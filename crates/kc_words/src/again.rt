//! What a reader answers that has to read again.

/// A word had one value at the first look and another at the second, so what was read between the
/// two may fit no single moment.
#[derive(Clone, Copy, Debug, Drop, Eq, PartialEq)]
pub struct Again {
    pub word: u32,
    pub first: u64,
    pub second: u64,
}
