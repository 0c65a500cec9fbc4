// The lines of a text that aren't blank.
ghost use Rattle.std.specs.Prelude.{◌≡◌, ◌<◌, ◌≤◌, ◌+◌, ◌∷◌, [], List, length};
ghost use Rattle.std.specs.Prelude.{MatchOption, IfSome};
ghost use Rattle.exam_terms.specs.declared.limits.TheConstants.{INSTANCE_BYTES};
ghost use Rattle.office_files.specs.Fields.{ended_parts};
ghost use Rattle.office_files.specs.Lines.{Located, pieces_from, without_return, trimmed_piece, lines_from};
ghost use Rattle.office_files.specs.Lines.{lines_of, line_count, section_size, HasPlaces};
ghost use Rattle.office_files.specs.Tokens.{token_of};

use exam_terms::{trim_end, trim_start};
use memchr::memchr;
use std::marker::Model;

/// The text of a line or of a field in it, without the blanks around it.
#[derive(Clone, Copy)]
pub struct Token<'a> {
    /// The line in the text, from 1.
    pub line: u32,
    /// The index of its first byte in the text.
    pub start: usize,
    /// The index after its last byte.
    pub end: usize,
    /// Its bytes, those from `start` to `end`.
    pub text: &'a [u8],
}

/// Returns how many lines a text has, blank ones included.
pub(crate) fn line_count(source: &[u8]) -> u32
    requires { length source.now ≤ INSTANCE_BYTES }
    ensures { result ≡ line_count source.now }
{
    let mut left = source;
    let mut lines: u32 = 0;
    while !left.is_empty() {
        left = cut_line(left).1;
        lines += 1;
    }
    lines
}

// Returns a text up to its first line feed, and the rest after that.
#[inline]
#[tactic(auto, using(crate::proofs::FieldLemmas::part_facts))]
fn cut_line(text: &[u8]) -> (&[u8], &[u8])
    requires { 0 < length text.now }
    ensures parts { ended_parts 10 text.now ≡ result.0.now ∷ ended_parts 10 result.1.now }
    ensures shorter { length result.1.now < length text.now }
    ensures within { length result.0.now ≤ length text.now }
    ensures lengths { 0 < length result.1.now
        → length result.0.now + 1 + length result.1.now ≡ length text.now }
{
    match memchr(b'\n', text) {
        Some(end) => (&text[..end], &text[end + 1..]),
        None => (text, &text[text.len()..]),
    }
}

/// The lines of a text that are not read yet and aren't blank.
#[derive(Drop)]
pub(crate) struct Lines<'a> {
    left: &'a [u8],
    at: usize,
    line: u32,
}

impl<'a> Model for Lines<'a> {
    ghost Value = { List Located };

    ghost view = { λ s. lines_from s.line (pieces_from s.at (ended_parts 10 s.left.now)) };

    ghost invariant = { λ s. HasPlaces s.line s.at s.left.now };
}

impl<'a> Lines<'a> {
    /// Returns all lines of this text.
    #[inline]
    pub(crate) fn new(source: &'a [u8]) -> Lines<'a>
        requires { length source.now ≤ INSTANCE_BYTES }
        ensures { result ≡ lines_of source.now }
    {
        Lines {
            left: source,
            at: 0,
            line: 1,
        }
    }

    /// Returns the next line that isn't blank.
    pub(crate) fn next(&mut self) -> Option<Token<'a>>
        ensures inside { IfSome result (λ row. (0 < length row.text.now)
            × (row.start + length row.text.now ≤ INSTANCE_BYTES)) }
        ensures row { MatchOption result ((self.old ≡ []) × (self.new ≡ []))
            (λ row. self.old ≡ token_of row ∷ self.new) }
    {
        while !self.left.is_empty() {
            let (first, left) = cut_line(self.left);
            let row = trimmed_token(self.line, self.at, without_return(first));
            self.left = left;
            self.at = self.at + first.len() + 1;
            self.line += 1;
            if !row.text.is_empty() {
                return Some(row);
            }
        }
        None
    }

    /// Returns how many lines there are before the next header.
    #[tactic(auto, using(crate::proofs::LineLemmas::size_facts))]
    pub(crate) fn section_size(&self) -> usize
        ensures size { result ≡ section_size self.now }
        ensures within { result ≤ length self.now }
    {
        let mut ahead = Lines {
            left: self.left,
            at: self.at,
            line: self.line,
        };
        let mut lines: usize = 0;
        while let Some(row) = ahead.next() {
            if row.text[0] == b'[' {
                break;
            }
            lines += 1;
        }
        lines
    }
}

/// Returns a piece of a line, which starts at that index of the text, without the blanks around it.
#[inline]
pub(crate) fn trimmed_token(line: u32, start: usize, text: &[u8]) -> Token<'_>
    requires { start + length text.now ≤ INSTANCE_BYTES + 1 }
    ensures token { token_of result
        ≡ trimmed_piece line (record { start = start; text = text.now }) }
    ensures within { result.end ≤ start + length text.now }
{
    let front = trim_start(text);
    let inner = trim_end(front);
    let start = start + (text.len() - front.len());
    Token {
        line,
        start,
        end: start + inner.len(),
        text: inner,
    }
}

// Returns the line without one carriage return at its end, if there is one.
#[inline]
#[tactic(auto, using(crate::proofs::LineLemmas::return_facts))]
fn without_return(line: &[u8]) -> &[u8]
    ensures text { result.now ≡ without_return line.now }
    ensures within { length result.now ≤ length line.now }
{
    match line.split_last() {
        Some((b'\r', others)) => others,
        _ => line,
    }
}
