// Seat rows in the form of the tables.
ghost use Rattle.std.specs.Prelude.{◌≡◌, ◌<◌, ◌++◌, ◌∷◌, [], if◌then◌else◌, List, map, IfErr, IfNone, IfOk, IfSome, OnOk, IsPermutation};
ghost use Rattle.exam_terms.specs.declared.limits.TheConstants.{MAX_STUDENT};
ghost use Rattle.exam_publish.specs.Rows.{AreNumbered, RowsInOrder};
ghost use Rattle.exam_publish.specs.declared.seat_row.SeatRow as published;
ghost use Rattle.office_records.specs.Publications.{stored_seat};
ghost use Rattle.office_records.specs.SeatsStored.{rows_beside};

use crate::fault::RecordFault;
use exam_model::{ExamNo, PeriodNo, RoomNo, StudentNo};
use exam_publish as publish;
use exam_publish::is_before;
use office_tables::tables::SeatRow;
use std::alloc::{AllocError, Global};

/// Returns the rows to be stored for those of these seats that aren't among the others: with which
/// none of the others agrees in all that it says. They keep their order.
pub fn seats_beside(
    alloc: Global,
    rows: &[publish::SeatRow],
    others: &[publish::SeatRow],
) -> Result<Vec<SeatRow>, AllocError>
    requires rows_in_order { RowsInOrder rows.now }
    requires others_in_order { RowsInOrder others.now }
    ensures { IfOk result (λ stored. stored.items
        ≡ map stored_seat (rows_beside others.now rows.now)) }
{
    let mut stored = Vec::new(alloc);
    let mut left = rows;
    let mut right = others;
    'walk: while let Some((row, rest)) = left.split_first() {
        let Some((other, more)) = right.split_first() else {
            push_seats(&mut stored, left)?;
            return Ok(stored);
        };
        if is_before(other, row) {
            right = more;
        } else {
            push_unless(&mut stored, row == other, *row)?;
            left = rest;
        }
    }
    Ok(stored)
}

// Adds a seat, unless it stays.
fn push_unless(
    stored: &mut Vec<SeatRow>,
    stays: bool,
    row: publish::SeatRow,
) -> Result<(), AllocError>
    ensures { OnOk result (stored.new.items
        ≡ stored.old.items ++ (if stays then [] else stored_seat row ∷ [])) }
{
    if !stays {
        stored.push(stored_seat(row))?;
    }
    Ok(())
}

// Adds all these seats.
fn push_seats(stored: &mut Vec<SeatRow>, rows: &[publish::SeatRow]) -> Result<(), AllocError>
    ensures { OnOk result (stored.new.items ≡ stored.old.items ++ map stored_seat rows.now) }
{
    'rows: for row in rows {
        stored.push(stored_seat(*row))?;
    }
    Ok(())
}

// Returns a seat in the form of the tables.
fn stored_seat(row: publish::SeatRow) -> SeatRow
    ensures { result ≡ stored_seat row }
{
    SeatRow {
        student: row.student.get(),
        exam: row.exam.get(),
        period: row.period.get(),
        room: row.room.get(),
        seat: row.seat,
    }
}

// Returns the seats in the order of their exams, and of their students in each. `BadRows`: a
// student's number is beyond the limit.
pub(crate) fn seats_in_order(
    alloc: Global,
    rows: &[SeatRow],
) -> Result<Vec<publish::SeatRow>, RecordFault>
    ensures same { IfOk result (λ seats. IsPermutation rows.now (map stored_seat seats.items)) }
    ensures only { IfOk result (λ seats. (own : List published.SeatRow) → RowsInOrder own
        → IsPermutation rows.now (map stored_seat own) → seats.items ≡ own) }
    ensures none { IfErr result (λ e. e ≡ RecordFault.BadRows → (own : List published.SeatRow)
        → RowsInOrder own → AreNumbered own → IsPermutation rows.now (map stored_seat own) → ⊥) }
{
    let sorted = by_exam(alloc, rows)?;
    let seats = own_seats(alloc, &sorted)?;
    Ok(seats)
}

// Returns the rows in the order of their exams, and of their students in each.
fn by_exam(alloc: Global, rows: &[SeatRow]) -> Result<Vec<SeatRow>, AllocError>
    ensures same { IfOk result (λ sorted. IsPermutation rows.now sorted.items) }
    ensures only { IfOk result (λ sorted. (own : List published.SeatRow) → RowsInOrder own
        → IsPermutation rows.now (map stored_seat own) → sorted.items ≡ map stored_seat own) }
{
    let mut sorted = Vec::from_slice(alloc, rows)?;
    sorted.sort_by_key(|row| (row.exam, row.student))?;
    Ok(sorted)
}

/// Returns the seats of stored rows, in their order. `BadRows`: a student's number is beyond the
/// limit.
pub fn own_seats(alloc: Global, rows: &[SeatRow]) -> Result<Vec<publish::SeatRow>, RecordFault>
    ensures are { IfOk result (λ seats. map stored_seat seats.items ≡ rows.now) }
    ensures only { IfOk result (λ seats. (own : List published.SeatRow)
        → map stored_seat own ≡ rows.now → seats.items ≡ own) }
    ensures none { IfErr result (λ e. e ≡ RecordFault.BadRows → (own : List published.SeatRow)
        → AreNumbered own → map stored_seat own ≡ rows.now → ⊥) }
{
    let mut seats = Vec::with_capacity(alloc, rows.len())?;
    'rows: for row in rows {
        let Some(seat) = own_seat(*row) else {
            return Err(RecordFault::BadRows);
        };
        seats.push(seat).map_err(|_| RecordFault::NoMemory)?;
    }
    Ok(seats)
}

// Returns the seat of a stored row, unless its student's number is beyond the limit.
fn own_seat(row: SeatRow) -> Option<publish::SeatRow>
    ensures some { IfSome result (λ seat. stored_seat seat ≡ row) }
    ensures none { IfNone result (MAX_STUDENT < row.student) }
{
    let student = StudentNo::new(row.student)?;
    Some(publish::SeatRow {
        student,
        exam: ExamNo::new(row.exam),
        period: PeriodNo::new(row.period),
        room: RoomNo::new(row.room),
        seat: row.seat,
    })
}
