// Reading a field as a number.
ghost use Rattle.std.specs.Prelude.{◌≡◌};
ghost use Rattle.office_files.specs.Numbers.{number, at_most};

use crate::fault::FaultKind;

// Above every limit, and far below the greatest u64.
const PAST_ALL: u64 = 1 << 32;

/// Returns the number, if it is at most the limit.
#[inline]
pub(crate) fn number_at_most(value: u32, limit: u32) -> Result<u32, FaultKind>
    ensures { result ≡ at_most limit value }
{
    if value > limit {
        return Err(FaultKind::OutOfRange);
    }
    Ok(value)
}

/// Returns the number that a field has in digits, at most the limit.
pub fn number(text: &[u8], limit: u32) -> Result<u32, FaultKind>
    ensures { result ≡ number limit text.now }
{
    if text.is_empty() {
        return Err(FaultKind::BadNumber);
    }
    let mut value: u64 = 0;
    for byte in text {
        if !byte.is_ascii_digit() {
            return Err(FaultKind::BadNumber);
        }
        value = (10 * value + u64::from(byte.saturating_sub(b'0'))).min(PAST_ALL);
    }
    if value > u64::from(limit) {
        return Err(FaultKind::OutOfRange);
    }
    Ok(value as u32)
}
