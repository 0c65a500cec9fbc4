// Cutting a field in two, and comparing it with a word.
ghost use Rattle.std.specs.Prelude.{◌≡◌, ℕ, ◌<◌, option_map};
ghost use Rattle.std.specs.Str.{str_eq_ignore_ascii_case};
ghost use Rattle.office_files.specs.Fields.{split_once};

/// Returns the bytes before the first mark, and those after it.
#[tactic(auto, using(crate::proofs::SplitLemmas::split_facts))]
pub(crate) fn split_once(text: &[u8], mark: u8) -> Option<(&[u8], &[u8])>
    ensures { option_map (λ p. (p.0.now, p.1.now)) result ≡ split_once mark text.now }
{
    for (i, byte) in text.iter().enumerate() {
        if *byte == mark {
            return Some((&text[..i], &text[i + 1..]));
        }
    }
    None
}

/// Returns whether a text is the word, in lower or upper case.
pub fn same_word(text: &[u8], word: &[u8]) -> bool
    ensures { result ≡ str_eq_ignore_ascii_case text.now word.now }
{
    text.eq_ignore_ascii_case(word)
}
