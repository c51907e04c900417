//! Cuts lines off a text, and numbers off a line.
ghost use Rattle.std.specs.Prelude.{◌≡◌, ◌<◌, ◌≤◌, ◌+◌, IfSome, length};

/// Where the first line ends, if it does.
fn line_len(text: &[u8]) -> Option<usize>
    ensures { IfSome result (λ len. len < length text.now) }
{
    for (i, byte) in text.iter().enumerate() {
        if *byte == b'\n' {
            return Some(i);
        }
    }
    None
}

/// The first line of a text without its end, and what stands behind it. None where no line ends.
pub(crate) fn cut_line(text: &[u8]) -> Option<(&[u8], &[u8])>
    ensures { IfSome result (λ r. length r.0.now + length r.1.now + 1 ≡ length text.now) }
{
    let len = line_len(text)?;
    Some((&text[..len], &text[len + 1..]))
}

/// A number with one digit more, where it is below 2^64.
fn with_digit(number: u64, byte: u8) -> Option<u64>
    requires { 48 ≤ byte }
{
    number.checked_mul(10)?.checked_add(u64::from(byte - b'0'))
}

/// The number that a text begins with, and what stands behind its digits. None where there are none, or where it is 2^64 or more.
pub(crate) fn cut_number(text: &[u8]) -> Option<(u64, &[u8])> {
    let mut number = 0u64;
    for (i, byte) in text.iter().enumerate() {
        if !byte.is_ascii_digit() {
            return if i == 0 {
                None
            } else {
                Some((number, &text[i..]))
            };
        }
        number = with_digit(number, *byte)?;
    }
    if text.is_empty() {
        None
    } else {
        Some((number, &text[text.len()..]))
    }
}

/// The number that is all of a text.
fn whole_number(text: &[u8]) -> Option<u64> {
    let (number, rest) = cut_number(text)?;
    if rest.is_empty() { Some(number) } else { None }
}

/// A number below 2^32, and what stands behind a blank.
fn cut_small(text: &[u8]) -> Option<(u32, &[u8])> {
    let (number, rest) = cut_number(text)?;
    match (u32::try_from(number), rest.split_first()) {
        (Ok(number), Some((b' ', rest))) => Some((number, rest)),
        _ => None,
    }
}

/// The number below 2^32 that is all of a text.
fn whole_small(text: &[u8]) -> Option<u32> {
    u32::try_from(whole_number(text)?).ok()
}

/// The number behind a word.
pub(crate) fn number_behind(word: &[u8], line: &[u8]) -> Option<u64> {
    whole_number(line.strip_prefix(word)?)
}

/// The two numbers of a line.
pub(crate) fn pair_in(line: &[u8]) -> Option<(u32, u32)> {
    let (first, rest) = cut_small(line)?;
    Some((first, whole_small(rest)?))
}

/// The three numbers of a line.
pub(crate) fn triple_in(line: &[u8]) -> Option<(u32, u32, u32)> {
    let (first, rest) = cut_small(line)?;
    let (second, third) = pair_in(rest)?;
    Some((first, second, third))
}
