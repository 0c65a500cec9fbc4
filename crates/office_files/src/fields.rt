// Cutting a line into fields, without the blanks around each.
ghost use Rattle.std.specs.Prelude.{◌≡◌, ◌<◌, ◌≤◌, ◌+◌, ◌∷◌, [], List, ℕ, length, IsTrue, ◌↔◌};
ghost use Rattle.office_files.specs.Fields.{ended_parts, fields_of, first_field, other_fields, end_of_fields};
ghost use Rattle.office_files.specs.Numbers.{number};

use crate::digits::{first_digits, line_after_space};
use crate::fault::FaultKind;
use crate::numbers::{number, number_at_most};
use exam_terms::trimmed_text;
use std::marker::Model;

/// The fields of a line that are not read yet.
#[derive(Drop)]
pub(crate) struct Fields<'a> {
    left: &'a [u8],
}

impl<'a> Model for Fields<'a> {
    ghost Value = { List (List ℕ) };

    ghost view = { λ s. fields_of s.left.now };
}

impl<'a> Fields<'a> {
    #[inline]
    pub(crate) fn new(line: &'a [u8]) -> Fields<'a>
        ensures { result ≡ fields_of line.now }
    {
        Fields { left: line }
    }

    /// Returns the next field; an empty one if none is left.
    pub(crate) fn next(&mut self) -> &'a [u8]
        ensures field { result.now ≡ first_field self.old }
        ensures left { self.new ≡ other_fields self.old }
    {
        if self.left.is_empty() {
            return self.left;
        }
        let (field, left) = cut(self.left, b',');
        self.left = left;
        trimmed_text(field)
    }

    /// Returns the number of the next field, at most the limit; a missing field has none.
    #[inline(always)]
    pub(crate) fn next_number(&mut self, limit: u32) -> Result<u32, FaultKind>
        ensures number { result ≡ number limit (first_field self.old) }
        ensures left { self.new ≡ other_fields self.old }
    {
        if let Some((value, after)) = first_digits(line_after_space(self.left)) {
            self.left = after;
            return number_at_most(value, limit);
        }
        let (number, after) = other_number(self.left, limit);
        self.left = after;
        number
    }

    /// Returns whether no field is left.
    #[inline]
    pub(crate) fn is_empty(&self) -> bool
        ensures { IsTrue result ↔ (self.now ≡ []) }
    {
        self.left.is_empty()
    }
}

/// Returns the bytes before the first mark, and those after it; without a mark the first part is
/// all.
#[tactic(auto, using(crate::proofs::FieldLemmas::part_facts))]
pub(crate) fn cut(text: &[u8], mark: u8) -> (&[u8], &[u8])
    requires { 0 < length text.now }
    ensures parts { ended_parts mark text.now ≡ result.0.now ∷ ended_parts mark result.1.now }
    ensures shorter { length result.1.now < length text.now }
    ensures within { length result.0.now ≤ length text.now }
    ensures lengths { 0 < length result.1.now
        → length result.0.now + 1 + length result.1.now ≡ length text.now }
{
    for (i, byte) in text.iter().enumerate() {
        if *byte == mark {
            return (&text[..i], &text[i + 1..]);
        }
    }
    (text, &text[text.len()..])
}

// Returns the number of the first field of a line, for any field, and the rest of the line: for a
// field that is faulty or long, or that has other blanks around it than one space before it.
#[cold]
#[inline(never)]
fn other_number(line: &[u8], limit: u32) -> (Result<u32, FaultKind>, &[u8])
    ensures number { result.0 ≡ number limit (first_field (fields_of line.now)) }
    ensures left { fields_of result.1.now ≡ other_fields (fields_of line.now) }
{
    let mut fields = Fields::new(line);
    let number = number(fields.next(), limit);
    (number, fields.left)
}

/// Refuses the fields that are left, if there are any.
#[inline]
pub(crate) fn end_of_fields(fields: Fields<'_>) -> Result<(), FaultKind>
    ensures { result ≡ end_of_fields fields.entry }
{
    if fields.is_empty() {
        Ok(())
    } else {
        Err(FaultKind::StrayText)
    }
}
