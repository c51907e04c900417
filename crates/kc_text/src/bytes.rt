//! Cuts the first line off a text, without the CR that may stand before its end, and finds the last line end.
ghost use Rattle.std.specs.Prelude.{◌≡◌, ◌∷◌, ◌<◌, ◌≤◌, [], length, drop, take, MatchOption, IfSome};
ghost use Rattle.std.specs.List.{position_or_len};
ghost use Rattle.std.specs.Str.Lines.{strip_carriage_return};
ghost use Rattle.kc_text.specs.Lines.{EndsLine, is_newline, lines};

fn without_return(line: &[u8]) -> &[u8]
    ensures { result.now ≡ strip_carriage_return line.now }
{
    match line.split_last() {
        Some((last, front)) => if *last == b'\r' { front } else { line },
        None => line,
    }
}

/// Where the first newline stands, or the end.
fn line_len(bytes: &[u8]) -> usize
    ensures { result ≡ position_or_len is_newline bytes.now }
{
    for (i, b) in bytes.iter().enumerate() {
        if *b == b'\n' {
            return i;
        }
    }
    bytes.len()
}

/// How many bytes stand before the end of the last line that ends, and at it.
pub(crate) fn whole_len(bytes: &[u8]) -> usize
    ensures within { result ≤ length bytes.now }
    ensures ended { EndsLine (take result bytes.now) }
{
    let mut len = bytes.len();
    while len > 0 {
        if bytes[len - 1] == b'\n' {
            return len;
        }
        len -= 1;
    }
    0
}

/// How many bytes the first line has with its end, or all.
pub(crate) fn first_len(bytes: &[u8]) -> usize
    ensures { result ≤ length bytes.now }
{
    bytes.len().min(line_len(bytes).saturating_add(1))
}

fn without_first(bytes: &[u8]) -> &[u8]
    ensures { result.now ≡ drop 1 bytes.now }
{
    match bytes.split_first() {
        Some((_, rest)) => rest,
        None => bytes,
    }
}

/// The first line of a text without its line end, and what follows it; `None` where the text is empty. A line ends at a newline or at the
/// end of the text, and one carriage return before its end is no part of it.
pub fn cut_line(bytes: &[u8]) -> Option<(&[u8], &[u8])>
    ensures lines { MatchOption result (lines bytes.now ≡ []) (λ r. lines bytes.now ≡ r.0.now ∷ lines r.1.now) }
    ensures shorter { IfSome result (λ r. length r.1.now < length bytes.now) }
{
    if bytes.is_empty() {
        return None;
    }
    let (line, rest) = bytes.split_at(line_len(bytes));
    Some((without_return(line), without_first(rest)))
}
