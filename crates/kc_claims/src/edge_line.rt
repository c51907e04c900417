//! What the first line of a text says. A line of two short numbers is read at once.
ghost use Rattle.std.specs.Prelude.{◌≡◌, ◌∷◌, ◌<◌, ℕ, true, [], IfSome, MatchOption, length};
ghost use Rattle.kc_text.specs.Forms.{all_said};
ghost use Rattle.kc_text.specs.Lines.{is_blank};
ghost use Rattle.kc_text.specs.Plain.{BeginsWithNumber, BeginsWithPair};

use kc_text::{TextLine, cut_line, read_line};

/// A number that is not above it has room for one digit more.
const LARGE: u32 = 400_000_000;

/// The number at the front, and what follows it, of which there is a byte. There is none where the number may be too large.
fn cut_number(bytes: &[u8]) -> Option<(u32, &[u8])>
    ensures { IfSome result (λ r. BeginsWithNumber bytes.now r.0 r.1.now) }
{
    let mut number = 0u32;
    for (digits, byte) in bytes.iter().enumerate() {
        if !byte.is_ascii_digit() {
            if digits == 0 {
                return None;
            }
            return Some((number, bytes.split_at(digits).1));
        }
        if number > LARGE {
            return None;
        }
        number = number * 10 + u32::from(*byte - b'0');
    }
    None
}

/// What follows a blank, where the first byte is one.
fn behind_blank(bytes: &[u8]) -> Option<&[u8]>
    ensures { IfSome result (λ rest. (blank : ℕ) × (bytes.now ≡ blank ∷ rest.now) × (is_blank blank ≡ true)) }
{
    match bytes.split_first() {
        Some((b' ' | b'\t', rest)) => Some(rest),
        _ => None,
    }
}

/// What follows a newline, where the first byte is one.
fn behind_newline(bytes: &[u8]) -> Option<&[u8]>
    ensures { IfSome result (λ rest. bytes.now ≡ 10 ∷ rest.now) }
{
    match bytes.split_first() {
        Some((b'\n', rest)) => Some(rest),
        _ => None,
    }
}

/// The two numbers of a first line that has one blank between them and nothing else, and what follows the line.
fn cut_pair(bytes: &[u8]) -> Option<(u32, u32, &[u8])>
    ensures { IfSome result (λ r. BeginsWithPair bytes.now r.0 r.1 r.2.now) }
{
    let (a, rest) = cut_number(bytes)?;
    let (b, rest) = cut_number(behind_blank(rest)?)?;
    Some((a, b, behind_newline(rest)?))
}

/// What the first line of a text says, and what follows it.
pub(crate) fn next_line(bytes: &[u8]) -> Option<(TextLine, &[u8])>
    ensures lines { MatchOption result (all_said bytes.now ≡ []) (λ r. all_said bytes.now ≡ r.0 ∷ all_said r.1.now) }
    ensures shorter { IfSome result (λ r. length r.1.now < length bytes.now) }
{
    if let Some((a, b, rest)) = cut_pair(bytes) {
        return Some((TextLine::Edge(a, b), rest));
    }
    let (line, rest) = cut_line(bytes)?;
    Some((read_line(line), rest))
}
