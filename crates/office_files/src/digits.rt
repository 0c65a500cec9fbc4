// Reading a field of few digits, the most frequent kind, in one pass over its bytes.
ghost use Rattle.std.specs.Prelude.{◌≡◌, ◌≤◌, length, option_map, IfSome};
ghost use Rattle.office_files.specs.Fields.{ended_parts, first_field, other_fields};
ghost use Rattle.office_files.specs.Digits.{HasDigits, NoDigitAt, IsFront, few_digits, without_space};

use crate::eight_digits::eight_digits;

// This many bytes are read as one word; a number of one more digit fits a u32.
const AT_ONCE: usize = 8;

// The ten digits are this byte and the next nine; it has the bits that they all share.
const ZERO: u32 = 48;

/// Returns the line without the space at its start, if there is one.
#[inline]
pub(crate) fn line_after_space(line: &[u8]) -> &[u8]
    ensures { result.now ≡ without_space line.now }
{
    match line.split_first() {
        Some((b' ', others)) => others,
        _ => line,
    }
}

/// Returns the number in a line up to its first comma, or to its end, and the rest after that, if
/// it consists of one to nine digits.
#[inline(always)]
pub(crate) fn first_digits(line: &[u8]) -> Option<(u32, &[u8])>
    ensures value { option_map (λ read. read.0) result
        ≡ few_digits (first_field (ended_parts 44 line.now)) }
    ensures rest { IfSome result (λ read.
        ended_parts 44 read.1.now ≡ other_fields (ended_parts 44 line.now)) }
{
    let (value, end) = front_digits(line);
    if end == 0 {
        return None;
    }
    if end == line.len() {
        return Some((value, &line[end..]));
    }
    if line[end] != b',' {
        return None;
    }
    Some((value, &line[end + 1..]))
}

// Returns the value of the digits at the front of a line, and how many they are. It reads at most
// nine bytes of the line.
#[inline(always)]
fn front_digits(line: &[u8]) -> (u32, usize)
    ensures { IsFront line.now result.0 result.1 }
{
    if line.len() <= AT_ONCE {
        return digits(line);
    }
    let (value, end) = eight_digits(line);
    if end < AT_ONCE {
        return (value, end);
    }
    let digit = u32::from(line[AT_ONCE]) ^ ZERO; // any other byte is above 9 then
    if digit > 9 {
        return (value, end);
    }
    (10 * value + digit, end + 1)
}

// Returns the same for a text of at most eight bytes.
#[inline(always)]
fn digits(text: &[u8]) -> (u32, usize)
    requires { length text.now ≤ 8 }
    ensures front { HasDigits text.now result.0 result.1 }
    ensures whole { NoDigitAt text.now result.1 }
{
    let mut value: u32 = 0;
    for (i, byte) in text.iter().enumerate() {
        let digit = u32::from(*byte) ^ ZERO; // any other byte is above 9 then
        if digit > 9 {
            return (value, i);
        }
        value = 10 * value + digit;
    }
    (value, text.len())
}
