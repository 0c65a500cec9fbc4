// The candidates whose shares of the penalty can differ between two publications.
ghost use Rattle.std.specs.Prelude.{◌≡◌, map, IfOk};
ghost use Rattle.exam_model.specs.Enrolments.{IsAscending};
ghost use Rattle.exam_publish.specs.Rows.{RowsInOrder};
ghost use Rattle.office_records.specs.SharesStored.{retimed_students, timed};

use exam_model::{RoomNo, StudentNo};
use exam_publish::{SeatRow, changed};
use std::alloc::{AllocError, Global};

/// Returns the candidates whose exams or periods differ between two lists of seats, ascending, each
/// once. A candidate whose rooms and seats alone differ has the same share.
pub fn retimed_students(
    alloc: Global,
    old: &[SeatRow],
    new: &[SeatRow],
) -> Result<Vec<StudentNo>, AllocError>
    requires old_in_order { RowsInOrder old.now }
    requires new_in_order { RowsInOrder new.now }
    ensures listed { IfOk result (λ found. found.items ≡ retimed_students old.now new.now) }
    ensures ascending { IfOk result (λ found. IsAscending found.items) }
{
    let before = timed_rows(alloc, old)?;
    let after = timed_rows(alloc, new)?;
    changed(alloc, &before, &after)
}

// Returns the rows without their rooms and seats.
fn timed_rows(alloc: Global, rows: &[SeatRow]) -> Result<Vec<SeatRow>, AllocError>
    ensures { IfOk result (λ rows_then. rows_then.items ≡ map timed rows.now) }
{
    rows.iter().map(|row| timed(*row)).collect(alloc)
}

// Returns a row without its room and seat.
fn timed(row: SeatRow) -> SeatRow
    ensures { result ≡ timed row }
{
    SeatRow {
        student: row.student,
        exam: row.exam,
        period: row.period,
        room: RoomNo::new(0),
        seat: 0,
    }
}
