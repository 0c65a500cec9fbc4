//! Whether a head can end at a place, tested before it is parsed.
ghost use Rattle.std.specs.Prelude.{◌≡◌, ℕ, ◌<◌, ◌≤◌, length, take, true, false, option_copied};
ghost use Rattle.office_messages.specs.HeadEnds.{before_end, ends_in_line, ends_as_head};

/// Returns whether a head can end after the first `searched` bytes.
pub(crate) fn may_hold_end(bytes: &[u8], searched: usize) -> bool
    requires { searched ≤ length bytes.now }
    ensures found { result ≡ true → (n : ℕ) × (searched < n) × (n ≤ length bytes.now)
        × (ends_as_head (take n bytes.now) ≡ true) }
    ensures none { result ≡ false → (n : ℕ) → searched < n → n ≤ length bytes.now
        → ends_as_head (take n bytes.now) ≡ false }
{
    for last in searched..bytes.len() {
        if ends_as_head(&bytes[..last + 1]) {
            return true;
        }
    }
    false
}

// Returns whether the bytes end with a line that isn't empty, and an empty one.
#[tactic(auto, unfolding(crate::specs::HeadEnds::ends_as_head))]
fn ends_as_head(bytes: &[u8]) -> bool
    ensures { result ≡ ends_as_head bytes.now }
{
    match before_end(bytes) {
        Some(lines) => match before_end(lines) {
            Some(line) => ends_in_line(line),
            None => false,
        },
        None => false,
    }
}

// Returns the bytes before the line end at their end.
fn before_end(bytes: &[u8]) -> Option<&[u8]>
    ensures { option_copied result ≡ before_end bytes.now }
{
    if bytes.ends_with(b"\r\n") {
        Some(&bytes[..bytes.len() - 2])
    } else if bytes.ends_with(b"\n") {
        Some(&bytes[..bytes.len() - 1])
    } else {
        None
    }
}

// Returns whether the bytes end within a line that isn't empty.
fn ends_in_line(bytes: &[u8]) -> bool
    ensures { result ≡ ends_in_line bytes.now }
{
    !bytes.is_empty() && !bytes.ends_with(b"\n")
}
