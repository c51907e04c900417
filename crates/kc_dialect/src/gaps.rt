//! Finds where the numbers at the front of a text end, many bytes at a time. A gap is a byte that is no digit.
ghost use Rattle.std.specs.Prelude.{◌≡◌, ◌≤◌, ◌<◌, ℕ, List, IfSome, length};
ghost use Rattle.kc_dialect.specs.Gaps.{AreGaps, EndsAtGap};

use std::simd::prelude::*;

/// How many bytes are looked at at once.
pub(crate) const BLOCK: usize = 64;

/// Any number of so many digits is below 2^32.
pub(crate) const MOST_DIGITS: usize = 9;

/// The gaps among the first bytes: a bit for each byte, the lowest for the first, which is set where the byte is a gap.
pub(crate) fn gaps_of(bytes: &[u8]) -> u64
    requires { BLOCK ≤ length bytes.now }
    ensures { AreGaps bytes.now result }
{
    let values = u8x64::from_slice(bytes) - u8x64::splat(b'0');
    values.simd_gt(u8x64::splat(9)).to_bitmask()
}

/// How many digits stand before the first gap; none where there is no digit, or more than the most.
#[inline(always)]
pub(crate) fn digits_before(gaps: u64) -> Option<usize>
    ensures { IfSome result (λ n. (n < 64) × ((bytes : List ℕ) → AreGaps bytes gaps → EndsAtGap bytes gaps n)) }
{
    let digits = gaps.trailing_zeros() as usize;
    if digits == 0 || digits > MOST_DIGITS {
        return None;
    }
    Some(digits)
}
