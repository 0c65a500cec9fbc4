// The entrants, who need a seat, and the old rows that are kept.
ghost use Rattle.std.specs.Prelude.{◌≡◌, ◌++◌, length, map, IfOk, IsTrue, OnOk};
ghost use Rattle.std.specs.List.{find};
ghost use Rattle.exam_model.specs.Pairs.{Pair, pairs_of};
ghost use Rattle.exam_publish.specs.Rows.{RowsInOrder, row_place};
ghost use Rattle.exam_rules.specs.Places.{is_one_place};
ghost use Rattle.exam_publish.specs.Entrants.{IsIndexOf, IsRowOf, is_row_at, entrant, entrants};

use crate::seat_row::SeatRow;
use exam_model::{Enrolments, ExamNo, Place, StudentNo, Timetable};
use std::alloc::{AllocError, Global};

/// A student of an exam, the exam's current place, and the student's old row if it is there.
#[derive(Clone, Copy)]
pub(crate) struct Entrant {
    pub student: StudentNo,
    pub exam: ExamNo,
    pub place: Place,
    pub kept: Option<SeatRow>,
}

/// Returns the entrants of all exams that have a place, in order.
pub(crate) fn entrants_of(
    alloc: Global,
    enrolments: &Enrolments,
    timetable: &Timetable,
    old: &[SeatRow],
) -> Result<Vec<Entrant>, AllocError>
    requires exams { length timetable.now ≡ length enrolments.now }
    requires in_order { RowsInOrder old.now }
    ensures { IfOk result (λ found. found.items
        ≡ entrants (pairs_of enrolments.now) timetable.now old.now) }
{
    let mut found = Vec::with_capacity(alloc, enrolments.pairs() as usize)?;
    'exams: for exam in 0..enrolments.exams() {
        let exam = ExamNo::new(exam);
        let Some(place) = timetable.get(exam) else {
            continue;
        };
        add_entrants(&mut found, exam, &place, enrolments.students(exam), old)?;
    }
    Ok(found)
}

// Adds an exam's students.
fn add_entrants(
    found: &mut Vec<Entrant>,
    exam: ExamNo,
    place: &Place,
    students: &[StudentNo],
    old: &[SeatRow],
) -> Result<(), AllocError>
    requires { RowsInOrder old.now }
    ensures { OnOk result (found.new.items ≡ found.old.items
        ++ map (λ s. entrant old.now (record { exam = exam; student = s }) place.now)
        students.now) }
{
    let mut next = 0;
    'students: for student in students {
        let student = *student;
        let (after, kept) = old_row(old, next, exam, student, place);
        next = after;
        found.push(Entrant {
            student,
            exam,
            place: *place,
            kept,
        })?;
    }
    Ok(())
}

// Returns the old row of a student's exam, if it is at this place, and the index after it, at which
// the next student's row is expected.
fn old_row(
    old: &[SeatRow],
    next: usize,
    exam: ExamNo,
    student: StudentNo,
    place: &Place,
) -> (usize, Option<SeatRow>)
    requires { RowsInOrder old.now }
    ensures { result.1
        ≡ find (is_row_at (record { exam = exam; student = student }) place.now) old.now }
{
    let at = index_of(old, next, exam, student);
    (at + 1, row_at(old, at, place))
}

// Returns the index of a student's row in an exam, or the number of rows if there is none: it is
// searched for only if it isn't at the index that is tried first.
fn index_of(old: &[SeatRow], first: usize, exam: ExamNo, student: StudentNo) -> usize
    requires { RowsInOrder old.now }
    ensures { IsIndexOf old.now (record { exam = exam; student = student }) result }
{
    if is_row_of(old, first, exam, student) {
        return first;
    }
    let searched = old.binary_search_by_key(&(exam, student), |row| (row.exam, row.student));
    let Ok(at) = searched else {
        return old.len();
    };
    at
}

// Returns whether the row at an index is a student's in an exam.
fn is_row_of(rows: &[SeatRow], at: usize, exam: ExamNo, student: StudentNo) -> bool
    ensures { IsTrue result → IsRowOf rows.now (record { exam = exam; student = student }) at }
{
    if at >= rows.len() {
        return false;
    }
    let row = &rows[at];
    row.exam == exam && row.student == student
}

// Returns the row at an index, if there is one and it is at this place.
fn row_at(old: &[SeatRow], at: usize, place: &Place) -> Option<SeatRow>
    ensures { (p : Pair) → IsIndexOf old.now p at
        → result ≡ find (is_row_at p place.now) old.now }
{
    if at >= old.len() {
        return None;
    }
    let row = &old[at];
    if is_at(row, place) { Some(*row) } else { None }
}

// Returns whether a row is in a room and period.
fn is_at(row: &SeatRow, place: &Place) -> bool
    ensures { result ≡ is_one_place place.now (row_place row.now) }
{
    place.period == row.period && place.room == row.room
}
