//! What the first bytes of a file tell of it.
ghost use Rattle.std.specs.Prelude.{◌≡◌};
ghost use Rattle.kc_dialect.specs.Signatures.{signature_of};

/// A format whose files begin with a mark of their own.
#[derive(Clone, Copy, Debug, PartialEq, Eq)]
pub enum Signature {
    Gzip,
    Bzip2,
    Xz,
    Zstd,
    /// UTF-16, the low byte of each unit first.
    Utf16Le,
    /// UTF-16, the high byte of each unit first.
    Utf16Be,
    /// The exchange format for matrices (Boisvert, Pozo and Remington 1996). Its first line that is no comment has the sizes of the
    /// matrix, and is no edge.
    MatrixMarket,
}

/// The format whose mark a file begins with, by its first bytes; 14 are enough.
pub fn signature_of(first: &[u8]) -> Option<Signature>
    ensures { result ≡ signature_of first.now }
{
    if first.starts_with(&[0x1f, 0x8b]) {
        Some(Signature::Gzip)
    } else if first.starts_with(b"BZh") {
        Some(Signature::Bzip2)
    } else if first.starts_with(&[0xfd, 0x37, 0x7a, 0x58, 0x5a, 0x00]) {
        Some(Signature::Xz)
    } else if first.starts_with(&[0x28, 0xb5, 0x2f, 0xfd]) {
        Some(Signature::Zstd)
    } else if first.starts_with(&[0xff, 0xfe]) {
        Some(Signature::Utf16Le)
    } else if first.starts_with(&[0xfe, 0xff]) {
        Some(Signature::Utf16Be)
    } else if first.starts_with(b"%%MatrixMarket") {
        Some(Signature::MatrixMarket)
    } else {
        None
    }
}
