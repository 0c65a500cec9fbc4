// The leading and trailing blanks of a text, and texts of digits: each once, for all readers.
ghost use Rattle.std.specs.Prelude.{◌≡◌, ◌≤◌, length};
ghost use Rattle.std.specs.List.{list_all};
ghost use Rattle.std.specs.Char.{is_ascii_digit};
ghost use Rattle.exam_terms.specs.Texts.{is_blank, trim_start, trim_end, trimmed_text};

/// Returns the text without its leading and trailing blanks: spaces and tabs.
#[inline]
pub fn trimmed_text(text: &[u8]) -> &[u8]
    ensures { result.now ≡ trimmed_text text.now }
{
    trim_end(trim_start(text))
}

/// Returns the text without its leading blanks.
#[inline]
#[tactic(auto, using(crate::proofs::TextLemmas::trim_facts))]
pub fn trim_start(text: &[u8]) -> &[u8]
    ensures trimmed { result.now ≡ trim_start text.now }
    ensures within { length result.now ≤ length text.now }
{
    let mut left = text;
    while let Some((first, others)) = left.split_first() {
        if !is_blank(*first) {
            break;
        }
        left = others;
    }
    left
}

/// Returns the text without its trailing blanks.
#[inline]
#[tactic(auto, using(crate::proofs::TextLemmas::trim_facts))]
pub fn trim_end(text: &[u8]) -> &[u8]
    ensures trimmed { result.now ≡ trim_end text.now }
    ensures within { length result.now ≤ length text.now }
{
    let mut left = text;
    while let Some((last, others)) = left.split_last() {
        if !is_blank(*last) {
            break;
        }
        left = others;
    }
    left
}

#[inline]
fn is_blank(byte: u8) -> bool
    ensures { result ≡ is_blank byte }
{
    byte == b' ' || byte == b'\t'
}

/// Returns whether all bytes of the text are digits; an empty text passes.
pub fn are_digits(text: &[u8]) -> bool
    ensures { result ≡ list_all is_ascii_digit text.now }
{
    text.iter().all(|byte| byte.is_ascii_digit())
}
