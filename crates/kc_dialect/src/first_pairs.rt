//! Finds the first pair of numbers that a text in a dialect tells.
ghost use Rattle.std.specs.Prelude.{◌≡◌};
ghost use Rattle.kc_text.specs.Forms.{number};
ghost use Rattle.kc_dialect.specs.Dialects.{said_after};
ghost use Rattle.kc_dialect.specs.FirstPairs.{both_numbers, first_pair, pair_told};

use crate::dialect::Dialect;
use crate::pairs::said_after;
use kc_text::{cut_line, number};

/// The numbers that two fields spell, where both spell one.
fn both_numbers(first: &[u8], second: &[u8]) -> Option<(u32, u32)>
    ensures { result ≡ both_numbers (number first.now) (number second.now) }
{
    match (number(first), number(second)) {
        (Ok(a), Ok(b)) => Some((a, b)),
        _ => None,
    }
}

/// The numbers of the two ids of a line behind so many others, where it has two.
fn pair_after(dialect: &Dialect, before: u64, line: &[u8]) -> Option<(u32, u32)>
    ensures { result ≡ pair_told (said_after dialect.now before line.now) }
{
    match said_after(dialect, before, line) {
        Ok(Some((first, second))) => both_numbers(first, second),
        _ => None,
    }
}

/// The first two numbers that a line of a text tells in a dialect, in the order of its columns; none where no line tells two.
///
/// # Example
///
/// ```rust
/// use kc_dialect::{Dialect, first_pair};
///
/// let pair = first_pair(Dialect::PLAIN, b"# a size line\n5 9\n1 2\n"); // (5, 9)
/// ```
pub fn first_pair(dialect: Dialect, bytes: &[u8]) -> Option<(u32, u32)>
    ensures { result ≡ first_pair dialect bytes.now }
{
    let mut before = 0;
    let mut rest = bytes;
    while let Some((line, more)) = cut_line(rest) {
        if let Some(pair) = pair_after(&dialect, before, line) {
            return Some(pair);
        }
        before += 1;
        rest = more;
    }
    None
}
