//! Finds a line in the head of a text, and where it is wrong.
ghost use Rattle.std.specs.Prelude.{◌≡◌, None, Some, MatchOption};
ghost use Rattle.kc_head.specs.Places.{line_in, wrong_column};

use kc_dialect::{edge_fault, without_mark};
use kc_text::{Refusal, cut_line};

/// The line of a number, from 1, in a text with this head, as far as it stands in there. A byte order mark before the first is no part
/// of it.
pub fn line_in(head: &[u8], number: u64) -> Option<&[u8]>
    ensures { MatchOption result (line_in head.now number ≡ None) (λ line. line_in head.now number ≡ Some line.now) }
{
    let mut left = number;
    let mut rest = without_mark(head);
    while let Some((line, more)) = cut_line(rest) {
        if left <= 1 {
            return if left == 1 { Some(line) } else { None };
        }
        left -= 1;
        rest = more;
    }
    None
}

/// The column of the field for which a line is refused in a list of two ids a line, from 1, where the line stands in the head of the
/// text. There is none where a line is refused for another cause than a field.
///
/// # Example
///
/// ```rust
/// use kc_head::wrong_column;
/// use kc_text::{Kind, Refusal};
///
/// let head = b"1 2\n2 bob\n";
/// let column = wrong_column(head, Refusal { line: 2, kind: Kind::NotANumber }); // 3
/// let other = wrong_column(head, Refusal { line: 2, kind: Kind::TooManyVertices }); // none
/// ```
pub fn wrong_column(head: &[u8], refusal: Refusal) -> Option<u64>
    ensures { result ≡ wrong_column head.now refusal }
{
    let line = line_in(head, refusal.line)?;
    let fault = edge_fault(line)?;
    if fault.kind.number() == refusal.kind.number() {
        Some(fault.column)
    } else {
        None
    }
}
