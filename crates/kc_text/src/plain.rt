//! Reads at once the lines that most of a text is: two short numbers with one blank between them and a newline behind them, alone or
//! after a sign and a blank.
ghost use Rattle.std.specs.Prelude.{◌≡◌, ◌∷◌, ◌<◌, IfSome, length};
ghost use Rattle.kc_text.specs.Forms.{all_said};
ghost use Rattle.kc_text.specs.Plain.{BeginsWithNumber, BeginsWithPair, sign_of};

use crate::change::ChangeLine;
use crate::fields::is_blank;
use crate::line::TextLine;

/// A value that is not above it has room for one digit more.
const LARGE: u32 = 400_000_000;

/// The number at the front, and what follows it. There is none where its value is large, or where nothing follows.
fn front_number(bytes: &[u8]) -> Option<(u32, &[u8])>
    ensures { IfSome result (λ r. BeginsWithNumber bytes.now r.0 r.1.now) }
{
    let mut value = 0u32;
    for (i, b) in bytes.iter().enumerate() {
        if !b.is_ascii_digit() {
            return if i == 0 {
                None
            } else {
                Some((value, bytes.split_at(i).1))
            };
        }
        if value > LARGE {
            return None;
        }
        value = value * 10 + u32::from(*b - b'0');
    }
    None
}

/// The two numbers of the first line, and what follows the line.
pub(crate) fn front_pair(bytes: &[u8]) -> Option<(u32, u32, &[u8])>
    ensures { IfSome result (λ r. BeginsWithPair bytes.now r.0 r.1 r.2.now) }
{
    let (a, rest) = front_number(bytes)?;
    let (blank, rest) = rest.split_first()?;
    if !is_blank(*blank) {
        return None;
    }
    let (b, rest) = front_number(rest)?;
    let (end, rest) = rest.split_first()?;
    if *end != b'\n' {
        return None;
    }
    Some((a, b, rest))
}

/// Whether a sign is that of an addition, or of a removal.
fn adds(sign: u8) -> Option<bool>
    ensures { IfSome result (λ add. sign ≡ sign_of add) }
{
    match sign {
        b'+' => Some(true),
        b'-' => Some(false),
        _ => None,
    }
}

/// What a plain first line says that begins with a sign, and what follows the line.
fn plain_change(bytes: &[u8]) -> Option<(TextLine, &[u8])>
    ensures said { IfSome result (λ r. all_said bytes.now ≡ r.0 ∷ all_said r.1.now) }
    ensures shorter { IfSome result (λ r. length r.1.now < length bytes.now) }
{
    let (sign, rest) = bytes.split_first()?;
    let add = adds(*sign)?;
    let (blank, rest) = rest.split_first()?;
    if !is_blank(*blank) {
        return None;
    }
    let (a, b, rest) = front_pair(rest)?;
    Some((TextLine::Change(ChangeLine { add, a, b }), rest))
}

/// What a plain first line says, and what follows the line. There is none where the line has another form, or may have.
pub(crate) fn plain_line(bytes: &[u8]) -> Option<(TextLine, &[u8])>
    ensures said { IfSome result (λ r. all_said bytes.now ≡ r.0 ∷ all_said r.1.now) }
    ensures shorter { IfSome result (λ r. length r.1.now < length bytes.now) }
{
    match front_pair(bytes) {
        Some((a, b, rest)) => Some((TextLine::Edge(a, b), rest)),
        None => plain_change(bytes),
    }
}
