// Judging the header of a section.
ghost use Rattle.std.specs.Prelude.{◌≡◌, ◌<◌, ℕ, length};
ghost use Rattle.office_files.specs.Lines.{is_header};
ghost use Rattle.office_files.specs.Reading.{AnswersField};
ghost use Rattle.office_files.specs.Headers.{inside_of, header_end, plain_header, counted_header};
ghost use Rattle.office_files.specs.Headers.{header_by};

use crate::fault::FaultKind;
use crate::numbers::number;
use crate::words::{same_word, split_once};
use exam_terms::trimmed_text;

/// Judges a header: its word and, if the section has a limit, the number of its lines.
pub(crate) fn header(
    word: &[u8],
    limit: Option<u32>,
    lines: usize,
    text: &[u8],
) -> Result<(), FaultKind>
    ensures { result ≡ header_by word.now limit lines text.now }
{
    match limit {
        None => plain_header(word, text),
        Some(limit) => counted_header(word, limit, lines, text),
    }
}

fn plain_header(word: &[u8], text: &[u8]) -> Result<(), FaultKind>
    ensures { result ≡ plain_header word.now text.now }
{
    let (inside, after) = inside_of(text)?;
    if !same_word(trimmed_text(inside), word) {
        return Err(FaultKind::MissingSection);
    }
    header_end(after)
}

// Returns the text between a header's brackets, and the text after them.
fn inside_of(text: &[u8]) -> Result<(&[u8], &[u8]), FaultKind>
    ensures { AnswersField (λ p. (p.0.now, p.1.now)) result (inside_of text.now) }
{
    if !is_header(text) {
        return Err(FaultKind::MissingSection);
    }
    match text.split_first() {
        Some((_, others)) => split_once(others, b']').ok_or(FaultKind::MissingSection),
        None => Err(FaultKind::MissingSection),
    }
}

fn is_header(text: &[u8]) -> bool
    ensures { result ≡ is_header text.now }
{
    match text.first() {
        Some(first) => *first == b'[',
        None => false,
    }
}

fn header_end(after: &[u8]) -> Result<(), FaultKind>
    ensures { result ≡ header_end after.now }
{
    if trimmed_text(after).is_empty() {
        Ok(())
    } else {
        Err(FaultKind::StrayText)
    }
}

fn counted_header(word: &[u8], limit: u32, lines: usize, text: &[u8]) -> Result<(), FaultKind>
    ensures { result ≡ counted_header word.now limit lines text.now }
{
    let (inside, after) = inside_of(text)?;
    let (name, count) = split_once(inside, b':').ok_or(FaultKind::MissingSection)?;
    if !same_word(trimmed_text(name), word) {
        return Err(FaultKind::MissingSection);
    }
    let count = number(trimmed_text(count), limit)?;
    if count == 0 {
        return Err(FaultKind::OutOfRange);
    }
    if count as usize != lines {
        return Err(FaultKind::CountMismatch);
    }
    header_end(after)
}
