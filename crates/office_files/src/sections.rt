// Reading the sections of an instance file, one after another.
ghost use Rattle.std.specs.Prelude.{◌≡◌, ◌≢◌, ℕ, ◌+◌, ◌≤◌, List, [], ◌∷◌, length, take, drop, OnOk, IfOk, IfErr};
ghost use Rattle.exam_terms.specs.declared.limits.TheConstants.{INSTANCE_BYTES};
ghost use Rattle.office_files.specs.Faults.{HasNoLine};
ghost use Rattle.office_files.specs.Lines.{Located, lines_of, line_count, section_size};
ghost use Rattle.office_files.specs.Reading.{AnswersReading, items_of};
ghost use Rattle.office_files.specs.Headers.{Heading};
ghost use Rattle.office_files.specs.Sections.{lines_after_header, section_in};
ghost use Rattle.office_files.specs.InstanceText.{no_more};
ghost use Rattle.office_files.specs.Tokens.{token_of};

use crate::counts::Counts;
use crate::fault::{FaultKind, FileFault};
use crate::headers::header;
use crate::items::LineItem;
use crate::lines::{Lines, Token, line_count};
use std::alloc::Global;

/// Returns the items of all lines that are left.
pub(crate) fn all_items<T: LineItem + Drop>(
    alloc: Global,
    mut lines: Lines<'_>,
    counts: Counts,
) -> Result<Vec<T>, FileFault>
    ensures exact { AnswersReading (λ v. v.items) result
        (items_of (T.reading counts) [] lines.entry) }
    ensures memory { IfErr result HasNoLine }
{
    let mut items: Vec<T> = Vec::new(alloc);
    'lines: while let Some(line) = lines.next() {
        add_item(&mut items, line, counts)?;
    }
    Ok(items)
}

// Adds the item of a line after those of the lines before it.
fn add_item<T: LineItem + Drop>(
    items: &mut Vec<T>,
    line: Token<'_>,
    counts: Counts,
) -> Result<(), FileFault>
    ensures ok { OnOk result ((lines : List Located)
        → items_of (T.reading counts) items.old.items (token_of line.entry ∷ lines)
        ≡ items_of (T.reading counts) items.new.items lines) }
    ensures fault { IfErr result (λ fault. fault.what ≢ FaultKind.NoMemory → (lines : List Located)
        → items_of (T.reading counts) items.old.items (token_of line.entry ∷ lines) ≡ Err fault) }
    ensures memory { IfErr result HasNoLine }
{
    match T::read(counts, items, line.text) {
        Ok(item) => Ok(items.push(item)?),
        Err(what) => Err(FileFault::at(line.line, what)),
    }
}

/// The sections of a file that are not read yet.
#[derive(Drop)]
pub(crate) struct Sections<'a> {
    pub source: &'a [u8],
    pub lines: Lines<'a>,
}

impl<'a> Sections<'a> {
    /// Returns all sections of this file.
    pub(crate) fn new(source: &'a [u8]) -> Sections<'a>
        requires within { length source.now ≤ INSTANCE_BYTES }
        ensures lines { result.lines ≡ lines_of source.now }
        ensures source { result.source.now ≡ source.now }
    {
        Sections {
            source,
            lines: Lines::new(source),
        }
    }

    // Judges the next header, and returns how many lines its section has.
    #[tactic(auto, using(crate::proofs::SectionLemmas::section_facts))]
    pub(crate) fn open(&mut self, word: &[u8], limit: Option<u32>) -> Result<usize, FileFault>
        requires within { length self.old.source.now ≤ INSTANCE_BYTES }
        ensures opened { OnOk result (lines_after_header (record { word = word.now; limit = limit })
            (line_count self.old.source.now + 1) self.old.lines ≡ Ok self.new.lines) }
        ensures size { IfOk result (λ size. size ≡ section_size self.new.lines) }
        ensures there { IfOk result (λ size. size ≤ length self.new.lines) }
        ensures fault { IfErr result (λ fault. fault.what ≢ FaultKind.NoMemory
            → lines_after_header (record { word = word.now; limit = limit })
            (line_count self.old.source.now + 1) self.old.lines ≡ Err fault) }
        ensures same { self.new.source.now ≡ self.old.source.now }
        ensures memory { IfErr result HasNoLine }
    {
        let Some(line) = self.lines.next() else {
            return Err(FileFault {
                line: line_count(self.source) + 1,
                what: FaultKind::MissingSection,
            });
        };
        let size = self.lines.section_size();
        match header(word, limit, size, line.text) {
            Ok(()) => Ok(size),
            Err(what) => Err(FileFault::at(line.line, what)),
        }
    }

    /// Returns the items of the next section.
    pub(crate) fn next<T: LineItem + Drop>(
        &mut self,
        alloc: Global,
        word: &[u8],
        limit: Option<u32>,
        counts: Counts,
    ) -> Result<Vec<T>, FileFault>
        requires within { length self.old.source.now ≤ INSTANCE_BYTES }
        ensures found { IfOk result (λ items. section_in (record { word = word.now; limit = limit })
            (T.reading counts) (line_count self.old.source.now + 1) self.old.lines
            ≡ Ok (items.items, self.new.lines)) }
        ensures fault { IfErr result (λ fault. fault.what ≢ FaultKind.NoMemory
            → section_in (record { word = word.now; limit = limit })
            (T.reading counts) (line_count self.old.source.now + 1) self.old.lines ≡ Err fault) }
        ensures same { self.new.source.now ≡ self.old.source.now }
        ensures memory { IfErr result HasNoLine }
    {
        let size = self.open(word, limit)?;
        items(alloc, &mut self.lines, size, counts)
    }

    /// Refuses a header after the last section.
    pub(crate) fn end(&mut self) -> Result<(), FileFault>
        ensures exact { result ≡ no_more self.old.lines }
        ensures memory { IfErr result HasNoLine }
    {
        match self.lines.next() {
            None => Ok(()),
            Some(line) => Err(FileFault {
                line: line.line,
                what: FaultKind::StrayText,
            }),
        }
    }
}

// Returns the items of the next lines.
fn items<T: LineItem + Drop>(
    alloc: Global,
    lines: &mut Lines<'_>,
    count: usize,
    counts: Counts,
) -> Result<Vec<T>, FileFault>
    requires there { count ≤ length lines.old }
    ensures exact { AnswersReading (λ v. v.items) result
        (items_of (T.reading counts) [] (take count lines.old)) }
    ensures left { OnOk result (lines.new ≡ drop count lines.old) }
    ensures memory { IfErr result HasNoLine }
{
    let mut items: Vec<T> = Vec::new(alloc);
    'lines: for _ in 0..count {
        let Some(line) = lines.next() else {
            unreachable!();
        };
        add_item(&mut items, line, counts)?;
    }
    Ok(items)
}
