//! The end of a message's body.
ghost use Rattle.std.specs.Prelude.{◌≡◌, ℕ, ◌≤◌, ◌+◌, min, true, List, IfOk, codes};
ghost use Rattle.std.specs.List.{list_all};
ghost use Rattle.std.specs.Char.{is_ascii_digit};
ghost use Rattle.std.specs.Str.Parse.{digits_value};
ghost use Rattle.office_messages.specs.Fields.{Header, values_named};
ghost use Rattle.office_messages.specs.Framing.{body_length, length_of, framing};
ghost use Rattle.office_messages.specs.Heads.{Sees, FramedBy};

use crate::fields::Seen;

/// Why a head is refused, in the order of the checks.
#[derive(Clone, Copy)]
pub enum Fault {
    /// The head is malformed, has more than 32 fields, or has no end within 16,384 bytes.
    Head,
    /// HTTP/1.1 without exactly one Host.
    Host,
    /// There is a Transfer-Encoding.
    Transfer,
    /// There is more than one Content-Length, or it isn't digits.
    Length,
    /// Content-Length is above 4,194,304.
    TooLong,
}

/// The longest body, in bytes.
pub(crate) const MAX_BODY: usize = 4_194_304;

/// The fields that frame a message.
#[derive(Clone, Copy)]
pub(crate) struct FramingFields {
    pub hosts: Seen,
    pub codings: Seen,
    pub lengths: Seen,
}

/// Returns the body's length, or the first fault of the fields.
#[tactic(auto, unfolding(crate::specs::Framing::framing))]
pub(crate) fn framing(bytes: &[u8], minor: u8, seen: FramingFields) -> Result<usize, Fault>
    requires { (fields : List Header) × FramedBy bytes.now fields seen }
    ensures length { (fields : List Header) → FramedBy bytes.now fields seen
        → result ≡ framing minor fields }
    ensures within { IfOk result (λ n. n ≤ MAX_BODY) }
{
    let has_one_host = matches!(seen.hosts, Seen::Once(_));
    if minor == 1 && !has_one_host {
        return Err(Fault::Host);
    }
    let is_coded = !matches!(seen.codings, Seen::Absent);
    if is_coded {
        return Err(Fault::Transfer);
    }
    body_length(bytes, seen.lengths)
}

// Returns the body's length, by the fields Content-Length.
fn body_length(bytes: &[u8], lengths: Seen) -> Result<usize, Fault>
    requires { (values : List (List ℕ)) × Sees bytes.now values lengths }
    ensures length { (values : List (List ℕ)) → Sees bytes.now values lengths
        → result ≡ body_length values }
    ensures within { IfOk result (λ n. n ≤ MAX_BODY) }
{
    match lengths {
        Seen::Absent => Ok(0),
        Seen::Repeated => Err(Fault::Length),
        Seen::Once(value) => length_of(value.of(bytes)),
    }
}

// Returns the body's length, by the value of the one Content-Length.
fn length_of(value: &[u8]) -> Result<usize, Fault>
    ensures length { result ≡ length_of value.now }
    ensures within { IfOk result (λ n. n ≤ MAX_BODY) }
{
    if value.is_empty() || !are_digits(value) {
        return Err(Fault::Length);
    }
    let n = saturated_number(value);
    if n > MAX_BODY {
        return Err(Fault::TooLong);
    }
    Ok(n)
}

fn are_digits(bytes: &[u8]) -> bool
    ensures { result ≡ list_all is_ascii_digit bytes.now }
{
    bytes.iter().all(|b| b.is_ascii_digit())
}

// Returns the value of the digits, or `MAX_BODY` + 1 if it is greater than `MAX_BODY`.
fn saturated_number(digits: &[u8]) -> usize
    requires { list_all is_ascii_digit digits.now ≡ true }
    ensures { result ≡ min (digits_value 10 digits.now) (MAX_BODY + 1) }
{
    let mut n = 0;
    for digit in digits {
        n = (n * 10 + usize::from(*digit - b'0')).min(MAX_BODY + 1);
    }
    n
}
