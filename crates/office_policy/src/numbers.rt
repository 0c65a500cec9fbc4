// Numbers of callers and paths.
ghost use Rattle.std.specs.Prelude.{◌≡◌, ◌≤◌, true, length, IfSome};
ghost use Rattle.std.specs.List.{list_all};
ghost use Rattle.std.specs.Char.{is_ascii_digit};
ghost use Rattle.std.specs.Str.Parse.{digits_value};
ghost use Rattle.exam_terms.specs.declared.limits.TheConstants.{MAX_NUMBER, NUMBER_DIGITS};
ghost use Rattle.office_policy.specs.Numbers.{number_of};

use exam_terms::are_digits;
use exam_terms::limits::NUMBER_DIGITS;

/// Returns the value of one to nine digits; no other text has one. Leading zeros are allowed.
pub fn read_number(text: &[u8]) -> Option<u32>
    ensures number { result ≡ number_of text.now }
    ensures within { IfSome result (λ n. n ≤ MAX_NUMBER) }
{
    if text.is_empty() || text.len() > NUMBER_DIGITS || !are_digits(text) {
        return None;
    }
    Some(value(text))
}

// Returns the value of the digits.
fn value(digits: &[u8]) -> u32
    requires digits { list_all is_ascii_digit digits.now ≡ true }
    requires few { length digits.now ≤ NUMBER_DIGITS }
    ensures number { result ≡ digits_value 10 digits.now }
    ensures within { result ≤ MAX_NUMBER }
{
    let mut value: u32 = 0;
    for digit in digits {
        value = value * 10 + u32::from(*digit - b'0');
    }
    value
}
