// Reading a batch.
ghost use Rattle.std.specs.Prelude.{◌≡◌, ◌≤◌, ◌+◌, ◌∷◌, [], length, IfErr};
ghost use Rattle.exam_terms.specs.declared.limits.TheConstants.{TEXT_BYTES};
ghost use Rattle.csv.specs.Records.{fields_of};
ghost use Rattle.office_files.specs.Faults.{HasNoLine};
ghost use Rattle.office_files.specs.Reading.{AnswersReading, at_line};
ghost use Rattle.office_batches.specs.BatchText.{batch_in, with_record, changes_from, records_in};

use crate::change_reader::{change_in, is_header};
use csv::{ByteRecord, ReaderBuilder};
use exam_model::Change;
use exam_terms::limits::TEXT_BYTES;
use office_files::{FaultKind, FileFault};
use std::alloc::Global;

/// Returns the changes that a batch describes: records of comma-separated values, the first of
/// which is `student,exam,action`. `Err` is the fault of the first faulty record, from 1, and in it
/// that of the first faulty field; any fault of the first record is `BadHeader`. `TooLong` (above
/// 1,048,576 bytes) and `NoMemory` have line 0.
pub fn read_batch(alloc: Global, text: &[u8]) -> Result<Vec<Change>, FileFault>
    ensures exact { AnswersReading (λ read. read.items) result (batch_in text.now) }
    ensures memory { IfErr result HasNoLine }
{
    if text.len() > TEXT_BYTES {
        return Err(FileFault::TOO_LONG);
    }
    changes_in(alloc, text)
}

// Returns the changes of a batch that is not too long.
fn changes_in(alloc: Global, text: &[u8]) -> Result<Vec<Change>, FileFault>
    requires { length text.now ≤ TEXT_BYTES }
    ensures exact { AnswersReading (λ read. read.items) result
        (changes_from 1 [] (records_in text.now)) }
    ensures memory { IfErr result HasNoLine }
{
    let mut reader = ReaderBuilder::new()
        .has_headers(false)
        .flexible(true)
        .from_reader(alloc, text);
    let mut row = ByteRecord::new(alloc);
    let mut changes: Vec<Change> = Vec::new(alloc);
    let last = text.len() as u32 + 1; // the most records that there can be
    'records: for before in 0..last {
        match reader.read_byte_record(&mut row) {
            Ok(true) => add_record(&mut changes, &row, before + 1)?,
            Ok(false) if before == 0 => return Err(FileFault::at(1, FaultKind::BadHeader)),
            Ok(false) => return Ok(changes),
            Err(_) => return Err(FileFault::NO_MEMORY),
        }
    }
    Ok(changes)
}

// Adds the change of a record after those before it.
fn add_record(changes: &mut Vec<Change>, row: &ByteRecord, line: u32) -> Result<(), FileFault>
    ensures exact { AnswersReading (λ _. changes.new.items) result
        (at_line line (with_record line changes.old.items (fields_of row.now))) }
    ensures memory { IfErr result HasNoLine }
{
    if line == 1 {
        if !is_header(row) {
            return Err(FileFault::at(line, FaultKind::BadHeader));
        }
        return Ok(());
    }
    match change_in(row) {
        Ok(change) => Ok(changes.push(change)?),
        Err(what) => Err(FileFault::at(line, what)),
    }
}
