// The shares of students: the personal penalty of each one's rows.
ghost use Rattle.std.specs.Prelude.{◌≡◌, map, IfOk};
ghost use Rattle.exam_model.specs.Enrolments.{IsAscending, has_number};
ghost use Rattle.exam_publish.specs.Changed.{rows_among};
ghost use Rattle.exam_publish.specs.Rows.{ArePublishedRows};
ghost use Rattle.exam_publish.specs.Shares.{student_shares};
ghost use Rattle.exam_publish.specs.Groups.{AreSorted, IsRun};

use crate::seat_row::SeatRow;
use exam_model::{Instance, PeriodNo, StudentNo, Timetable};
use exam_score::{PersonalParts, personal};
use std::alloc::{AllocError, Global};

/// Returns the cost of each student's exams; students ascending.
pub(crate) fn student_shares(
    alloc: Global,
    instance: &Instance,
    rows: &[SeatRow],
    timetable: &Timetable,
) -> Result<Vec<(StudentNo, PersonalParts)>, AllocError>
    requires { ArePublishedRows instance.now rows.now timetable.now }
    ensures { IfOk result (λ shares. shares.items ≡ student_shares instance.now rows.now) }
{
    timetable.lemma_limit();
    let sorted = by_student(alloc, rows)?;
    let mut shares = Vec::new(alloc);
    let mut rest = sorted.as_slice();
    'students: while let Some(first) = rest.first() {
        let (own, others) = rest.split_at(count_own(rest, first.student));
        let periods = periods_of(alloc, own)?;
        shares.push((first.student, personal(instance, &periods)))?;
        rest = others;
    }
    Ok(shares)
}

/// Returns the rows of these students, in their order.
pub(crate) fn rows_among(
    alloc: Global,
    rows: &[SeatRow],
    students: &[StudentNo],
) -> Result<Vec<SeatRow>, AllocError>
    requires { IsAscending students.now }
    ensures { IfOk result (λ own. own.items ≡ rows_among students.now rows.now) }
{
    let mut own = Vec::new(alloc);
    'rows: for row in rows {
        if is_among(students, row.student) {
            own.push(*row)?;
        }
    }
    Ok(own)
}

fn is_among(students: &[StudentNo], student: StudentNo) -> bool
    requires { IsAscending students.now }
    ensures { result ≡ has_number students.now student }
{
    students.binary_search(&student).is_ok()
}

// Returns the rows in the order of their students; the rows of one student keep their order.
fn by_student(alloc: Global, rows: &[SeatRow]) -> Result<Vec<SeatRow>, AllocError>
    ensures { IfOk result (λ sorted. AreSorted rows.now sorted.items) }
{
    let mut sorted = Vec::from_slice(alloc, rows)?;
    sorted.sort_by_key(|row| row.student)?;
    Ok(sorted)
}

// Returns how many rows of the first student there are before those of others.
fn count_own(rows: &[SeatRow], student: StudentNo) -> usize
    ensures { IsRun rows.now student result }
{
    'rows: for (at, row) in rows.iter().enumerate() {
        if row.student != student {
            return at;
        }
    }
    rows.len()
}

fn periods_of(alloc: Global, rows: &[SeatRow]) -> Result<Vec<PeriodNo>, AllocError>
    ensures { IfOk result (λ periods. periods.items ≡ map (λ row. row.period) rows.now) }
{
    rows.iter().map(|row| row.period).collect(alloc)
}
