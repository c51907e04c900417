//! Finds and copies at once the lines that most of a text is: two short numbers with one separator between them, and a newline behind
//! them.
ghost use Rattle.std.specs.Prelude.{◌≡◌, ◌≤◌, ◌<◌, ◌/◌, ◌^◌, ◌++◌, IfSome, OnOk, drop, length, map};
ghost use Rattle.kc_dialect.specs.Gaps.{AreGaps};
ghost use Rattle.kc_dialect.specs.PlainRuns.{BeginsPlainly, BeginsWithDigits, BeginsWithRun, may_be_plain, spaced};

use crate::columns::is_separator;
use crate::dialect::Separator;
use crate::gaps::{BLOCK, MOST_DIGITS, digits_before, gaps_of};
use kc_text::NoMemory;

/// Whether the first line may be plain, as its first byte tells.
#[inline(always)]
pub(crate) fn may_be_plain(bytes: &[u8]) -> bool
    ensures { result ≡ may_be_plain bytes.now }
{
    match bytes.first() {
        Some(b) => b.is_ascii_digit(),
        None => false,
    }
}

/// How many digits stand at the front, and what follows them; none where there is no digit, or more than the most.
#[inline(always)]
fn front_digits(bytes: &[u8]) -> Option<(usize, &[u8])>
    ensures { IfSome result (λ r. BeginsWithDigits bytes.now r.0 r.1.now) }
{
    for (i, b) in bytes.iter().enumerate() {
        if !b.is_ascii_digit() {
            return if i == 0 {
                None
            } else {
                Some((i, bytes.split_at(i).1))
            };
        }
        if i == MOST_DIGITS {
            return None;
        }
    }
    None
}

/// How long the first line is with its end, where it is plain.
#[inline(always)]
fn plain_len(separator: Separator, bytes: &[u8]) -> Option<usize>
    ensures { IfSome result (λ n. BeginsPlainly separator bytes.now n) }
{
    let (first, rest) = front_digits(bytes)?;
    let (part, rest) = rest.split_first()?;
    if !is_separator(separator, *part) {
        return None;
    }
    let (second, rest) = front_digits(rest)?;
    let (end, _rest) = rest.split_first()?;
    if *end != b'\n' {
        return None;
    }
    Some(first + second + 2)
}

/// How long the first line is with its end, by the gaps among the bytes, where it is plain.
#[inline(always)]
fn plain_len_by(separator: Separator, bytes: &[u8], gaps: u64) -> Option<usize>
    requires { AreGaps bytes.now gaps }
    ensures plain { IfSome result (λ n. BeginsPlainly separator bytes.now n) }
    ensures few { IfSome result (λ n. n < 64) }
    ensures behind { IfSome result (λ n. AreGaps (drop n bytes.now) (gaps / 2 ^ n)) }
{
    let first = digits_before(gaps)?;
    if !is_separator(separator, bytes[first]) {
        return None;
    }
    let second = digits_before(gaps >> (first + 1))?;
    if bytes[first + 1 + second] != b'\n' {
        return None;
    }
    Some(first + second + 2)
}

/// How many bytes plain lines at the front of a block have, and how many lines they are.
fn block_run(separator: Separator, bytes: &[u8]) -> (usize, usize)
    requires { BLOCK ≤ length bytes.now }
    ensures { BeginsWithRun separator bytes.now result.0 result.1 }
{
    let mut gaps = gaps_of(bytes);
    let mut len = 0;
    let mut lines = 0;
    while let Some(more) = plain_len_by(separator, bytes.split_at(len).1, gaps) {
        gaps >>= more;
        len += more;
        lines += 1;
    }
    (len, lines)
}

/// The same of the few bytes behind the last block.
fn last_run(separator: Separator, bytes: &[u8]) -> (usize, usize)
    ensures { BeginsWithRun separator bytes.now result.0 result.1 }
{
    let mut len = 0;
    let mut lines = 0;
    while let Some(more) = plain_len(separator, bytes.split_at(len).1) {
        len += more;
        lines += 1;
    }
    (len, lines)
}

/// How many bytes the plain lines at the front have, and how many lines they are.
pub(crate) fn plain_run(separator: Separator, bytes: &[u8]) -> (usize, usize)
    ensures { BeginsWithRun separator bytes.now result.0 result.1 }
{
    let mut len = 0;
    let mut lines = 0;
    while bytes.len() - len >= BLOCK {
        let (more, count) = block_run(separator, bytes.split_at(len).1);
        if count == 0 {
            return (len, lines);
        }
        len += more;
        lines += count;
    }
    let (more, count) = last_run(separator, bytes.split_at(len).1);
    (len + more, lines + count)
}

/// A space in place of a separator, and any other byte as it is.
#[inline(always)]
fn spaced(separator: Separator, b: u8) -> u8
    ensures { result ≡ spaced separator b }
{
    if is_separator(separator, b) { b' ' } else { b }
}

/// Puts a space in place of each separator.
fn space_out(separator: Separator, bytes: &mut [u8])
    ensures { bytes.new ≡ map (spaced separator) bytes.old }
{
    for b in bytes.iter_mut() {
        *b = spaced(separator, *b);
    }
}

/// Writes bytes with a space in place of each separator.
pub(crate) fn write_spaced(
    out: &mut Vec<u8>,
    separator: Separator,
    bytes: &[u8],
) -> Result<(), NoMemory>
    ensures { OnOk result (out.new.items ≡ out.old.items ++ map (spaced separator) bytes.now) }
{
    let start = out.len();
    out.extend_from_slice(bytes)?;
    space_out(separator, &mut out[start..]);
    Ok(())
}
