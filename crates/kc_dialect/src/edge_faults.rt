//! Where a line is wrong in a list of two ids a line.
ghost use Rattle.std.specs.Prelude.{◌≡◌};
ghost use Rattle.kc_dialect.specs.EdgeFaults.{edge_fault, extra_field, kind_of_bad, wrong_field};

use crate::bad_line::{BadField, BadKind};
use crate::columns::{field_in, number_in_column};
use crate::dialect::Separator;
use kc_text::Kind;

/// The first field of a line that is wrong in a list of two ids a line.
#[derive(Clone, Copy, Debug, PartialEq, Eq)]
pub struct EdgeFault {
    /// The place of the field's first byte in its line, from 1. Where a field is missing, it is the place behind the line's last byte.
    pub column: u64,
    pub kind: Kind,
}

/// The kind for which a line is refused that has such a field. What is no name has the kind of what is no number: the field is no id.
pub fn kind_of_bad(kind: BadKind) -> Kind
    ensures { result ≡ kind_of_bad kind }
{
    match kind {
        BadKind::MissingColumn => Kind::MissingField,
        BadKind::NotANumber | BadKind::NotAName => Kind::NotANumber,
        BadKind::NumberTooLarge => Kind::NumberTooLarge,
    }
}

fn wrong_field(bad: BadField) -> EdgeFault
    ensures { result ≡ wrong_field bad }
{
    EdgeFault {
        column: bad.column,
        kind: kind_of_bad(bad.kind),
    }
}

/// The third field of a line, behind the two that are wanted, if there is one.
fn extra_field(line: &[u8]) -> Option<EdgeFault>
    ensures { result ≡ extra_field line.now }
{
    let (before, _) = field_in(Separator::Blank, 3, line)?;
    Some(EdgeFault {
        column: before as u64 + 1,
        kind: Kind::ExtraField,
    })
}

/// The first field of a line that is wrong where two numbers are wanted, between blanks, and nothing else; none where the line is right.
///
/// # Example
///
/// ```rust
/// use kc_dialect::edge_fault;
///
/// let weight = edge_fault(b"1 2 0.5"); // column 5, Kind::ExtraField
/// let name = edge_fault(b"1 bob"); // column 3, Kind::NotANumber
/// let right = edge_fault(b"1 2"); // none
/// ```
pub fn edge_fault(line: &[u8]) -> Option<EdgeFault>
    ensures { result ≡ edge_fault line.now }
{
    if let Err(bad) = number_in_column(Separator::Blank, 1, line) {
        return Some(wrong_field(bad));
    }
    if let Err(bad) = number_in_column(Separator::Blank, 2, line) {
        return Some(wrong_field(bad));
    }
    extra_field(line)
}
