// The fields of a text.
ghost use Rattle.std.specs.Prelude.{◌≡◌, ℕ, ◌<◌, ◌≤◌, ◌+◌, List, length};
ghost use Rattle.std.specs.Iterator.{YieldsFirstBy, item_count};
ghost use Rattle.std.specs.List.{AllByRecursion};
ghost use Rattle.exam_terms.specs.declared.limits.TheConstants.{INSTANCE_BYTES};
ghost use Rattle.office_files.specs.Lines.{Located};
ghost use Rattle.office_files.specs.Tokens.{token_of, tokens_of, tokens_left, IsSliceOf, AreInRow};

use crate::fields::cut;
use crate::lines::{Lines, Token, trimmed_token};
use std::marker::Model;

/// The fields of a text, in their order, each without the blanks around it.
///
/// Empty fields are included, except one after a comma at the end of a line. A header is one field,
/// with its commas, and a blank line has no fields. Nothing is copied: it takes no memory.
#[derive(Drop)]
pub struct Tokens<'a> {
    rows: Lines<'a>,
    line: u32,
    at: usize,
    fields: &'a [u8],
}

impl<'a> Model for Tokens<'a> {
    ghost Value = { List Located };

    ghost view = { λ s. tokens_left s.line s.at s.fields.now s.rows };

    ghost invariant = { λ s. (s.at ≤ INSTANCE_BYTES + 1)
        × (0 < length s.fields.now → s.at + length s.fields.now ≤ INSTANCE_BYTES) };
}

impl<'a> Tokens<'a> {
    /// Returns all fields of this text.
    #[tactic(auto, using(crate::proofs::OrderLaws::token_laws))]
    pub fn new(source: &'a [u8]) -> Tokens<'a>
        requires { length source.now ≤ INSTANCE_BYTES }
        // Exactly the fields of every line that isn't blank, of which a header is one; each is its
        // slice of the text.
        ensures tokens { result ≡ tokens_of source.now }
        ensures ordered { AreInRow 0 result (length source.now + 1) }
        ensures slices { AllByRecursion (IsSliceOf source.now) result }
    {
        Tokens {
            rows: Lines::new(source),
            line: 1,
            at: 0,
            fields: &source[..0],
        }
    }
}

impl<'a> Iterator for Tokens<'a> {
    type Item = Token<'a>;

    ghost next_gives = { YieldsFirstBy token_of (λ s. s) };

    ghost remaining = { item_count (λ s. s) };

    fn next(&mut self) -> Option<Token<'a>> {
        if self.fields.is_empty() {
            let row = self.rows.next()?;
            if row.text[0] == b'[' {
                return Some(row);
            }
            self.line = row.line;
            self.at = row.start;
            self.fields = row.text;
        }
        let (field, others) = cut(self.fields, b',');
        let token = trimmed_token(self.line, self.at, field);
        self.at = self.at + field.len() + 1;
        self.fields = others;
        Some(token)
    }
}
