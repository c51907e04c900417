//! The number that a field of decimal digits spells.
ghost use Rattle.std.specs.Prelude.{◌≡◌};
ghost use Rattle.kc_text.specs.Forms.{number};

use crate::kind::Kind;

/// One more than the greatest id.
const TOO_LARGE: u64 = 4_294_967_296;

/// The number below 2^32 that a field of decimal digits spells. Leading zeros don't count, so a field may have any length. `NotANumber`
/// where the field is empty or has any other byte, and else `NumberTooLarge` where the number is 2^32 or more.
pub fn number(field: &[u8]) -> Result<u32, Kind>
    ensures { result ≡ number field.now }
{
    let mut value = 0u64;
    for b in field {
        if !b.is_ascii_digit() {
            return Err(Kind::NotANumber);
        }
        value = (value * 10 + u64::from(*b - b'0')).min(TOO_LARGE);
    }
    if field.is_empty() {
        return Err(Kind::NotANumber);
    }
    if value == TOO_LARGE {
        return Err(Kind::NumberTooLarge);
    }
    Ok(value as u32)
}
