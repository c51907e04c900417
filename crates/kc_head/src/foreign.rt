//! Tells a text that is no lines of a graph by its head.
ghost use Rattle.std.specs.Prelude.{◌≡◌};
ghost use Rattle.std.specs.List.{list_any};
ghost use Rattle.kc_head.specs.Foreign.{foreign_in, has_bare_returns};

use kc_dialect::{Signature, signature_of};

/// What a text is that is no lines of a graph.
#[derive(Clone, Copy, Debug, PartialEq, Eq)]
pub enum Foreign {
    /// It begins with the mark of a format.
    Marked(Signature),
    /// It begins as an object of JSON, with a brace and a quote.
    Json,
    /// Its lines end in carriage returns alone: one stands before the last byte, and there is no newline.
    BareReturns,
    /// Its first pair may be the sizes of its graph. The head alone does not tell it.
    SizesFirst,
}

/// Whether a carriage return stands before the last byte, and no newline anywhere.
fn has_bare_returns(head: &[u8]) -> bool
    ensures { result ≡ has_bare_returns head.now }
{
    !head.contains(&b'\n') && head[..head.len().saturating_sub(1)].contains(&b'\r')
}

/// What a text is with this head, if it is no lines of a graph.
///
/// # Example
///
/// ```rust
/// use kc_dialect::Signature;
/// use kc_head::{Foreign, foreign_in};
///
/// let packed = foreign_in(&[0x1f, 0x8b, 8, 0]); // Foreign::Marked(Signature::Gzip)
/// let objects = foreign_in(b"{\"source\":1,\"target\":2}\n"); // Foreign::Json
/// let old = foreign_in(b"1 2\r2 3\r"); // Foreign::BareReturns
/// let edges = foreign_in(b"1 2\n2 3\n"); // none
/// ```
pub fn foreign_in(head: &[u8]) -> Option<Foreign>
    ensures { result ≡ foreign_in head.now }
{
    if let Some(signature) = signature_of(head) {
        return Some(Foreign::Marked(signature));
    }
    if head.starts_with(b"{\"") {
        Some(Foreign::Json)
    } else if has_bare_returns(head) {
        Some(Foreign::BareReturns)
    } else {
        None
    }
}
