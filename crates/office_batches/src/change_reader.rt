// Reading one record of a batch.
ghost use Rattle.std.specs.Prelude.{◌≡◌, Ok, Err};
ghost use Rattle.std.specs.Prelude.{codes};
ghost use Rattle.csv.specs.Records.{fields_of};
ghost use Rattle.office_batches.specs.Records.{action, change_in, field, has_three, is_header};
ghost use Rattle.office_batches.specs.Records.{has_word};

use csv::ByteRecord;
use exam_model::{Change, ExamNo, StudentNo};
use exam_terms::limits::{MAX_EXAMS, MAX_STUDENT};
use exam_terms::trimmed_text;
use office_files::{FaultKind, number, same_word};

/// Returns whether a record names the columns.
pub(crate) fn is_header(row: &ByteRecord) -> bool
    ensures { result ≡ is_header (fields_of row.now) }
{
    has_word(row, 0, b"student")
        && has_word(row, 1, b"exam")
        && has_word(row, 2, b"action")
        && has_three(row)
}

pub(crate) fn change_in(row: &ByteRecord) -> Result<Change, FaultKind>
    ensures { result ≡ change_in (fields_of row.now) }
{
    let student = StudentNo::new(number(field(row, 0), MAX_STUDENT)?);
    let student = student.ok_or(FaultKind::OutOfRange)?;
    let exam = ExamNo::new(number(field(row, 1), MAX_EXAMS - 1)?);
    let add = action(row)?;
    if !has_three(row) {
        return Err(FaultKind::StrayText);
    }
    Ok(Change { student, exam, add })
}

// Returns whether the student is added.
fn action(row: &ByteRecord) -> Result<bool, FaultKind>
    ensures { result ≡ action (fields_of row.now) }
{
    if has_word(row, 2, b"add") {
        return Ok(true);
    }
    if has_word(row, 2, b"drop") {
        return Ok(false);
    }
    Err(FaultKind::BadWord)
}

// Returns whether the record has three fields, or four of which the last is empty.
fn has_three(row: &ByteRecord) -> bool
    ensures { result ≡ has_three (fields_of row.now) }
{
    row.len() <= 3 || (row.len() == 4 && field(row, 3).is_empty())
}

// Returns whether a field is the word.
fn has_word(row: &ByteRecord, place: usize, word: &[u8]) -> bool
    ensures { result ≡ has_word (fields_of row.now) place word.now }
{
    same_word(field(row, place), word)
}

// Returns a field without the blanks around it; an empty one if it is missing.
fn field(row: &ByteRecord, place: usize) -> &[u8]
    ensures { result.now ≡ field (fields_of row.now) place }
{
    match row.get(place) {
        Some(field) => trimmed_text(field),
        None => &[],
    }
}
