// The shares of the penalty.
ghost use Rattle.std.specs.Prelude.{◌≡◌, ℕ, length, map, IfOk};
ghost use Rattle.exam_model.specs.Enrolments.{IsAscending, has_number};
ghost use Rattle.exam_publish.specs.AddUp.{AddUpTo, AreSmall};
ghost use Rattle.exam_publish.specs.Changed.{has_row};
ghost use Rattle.exam_publish.specs.Rows.{AreNumbered, ArePublishedRows, enrolled_in};
ghost use Rattle.exam_publish.specs.Shares.{shares_among, shares_of};
ghost use Rattle.exam_score.specs.Track.{track};

use crate::exam_shares::exam_shares;
use crate::place_shares::{period_shares, room_shares};
use crate::seat_row::SeatRow;
use crate::share_lists::Shares;
use crate::student_shares::{rows_among, student_shares};
use exam_model::{Instance, StudentNo, Timetable};
use std::alloc::{AllocError, Global};

/// Returns the shares of a timetable in which each exam has a place, by seat rows: a student's
/// share is their personal penalty, an exam's is that in the front load, a period's and a room's
/// are its penalties, and a room also has its mixed durations.
pub fn shares(
    alloc: Global,
    instance: &Instance,
    rows: &[SeatRow],
    timetable: &Timetable,
) -> Result<Shares, AllocError>
    requires { ArePublishedRows instance.now rows.now timetable.now }
    ensures shares { IfOk result (λ shares. shares
        ≡ shares_of instance.now rows.now timetable.now) }
    ensures ascending { IfOk result
        (λ shares. IsAscending (map (λ share. share.0) shares.students)) }
    ensures seated { IfOk result (λ shares. (s : ℕ)
        → has_number (map (λ share. share.0) shares.students) s ≡ has_row rows.now s) }
    ensures add_up { IfOk result (AddUpTo (track instance.now
        (enrolled_in (length instance.now.exams) rows.now) timetable.now)) }
    ensures small { IfOk result AreSmall }
{
    instance.lemma_limits();
    numbers_identify(rows);
    let students = student_shares(alloc, instance, rows, timetable)?;
    let exams = exam_shares(alloc, instance, rows, timetable)?;
    let periods = period_shares(alloc, instance, timetable)?;
    let rooms = room_shares(alloc, instance, timetable)?;
    Ok(Shares::of(students, exams, periods, rooms))
}

/// Returns the shares of a timetable as `shares` does, but of the students only the shares of these,
/// who are ascending; a student without a row has none.
pub fn shares_among(
    alloc: Global,
    instance: &Instance,
    rows: &[SeatRow],
    timetable: &Timetable,
    students: &[StudentNo],
) -> Result<Shares, AllocError>
    requires published { ArePublishedRows instance.now rows.now timetable.now }
    requires ascending { IsAscending students.now }
    ensures shares { IfOk result (λ shares. shares
        ≡ shares_among instance.now rows.now timetable.now students.now) }
    ensures small { IfOk result AreSmall }
{
    instance.lemma_limits();
    numbers_identify(rows);
    let own = rows_among(alloc, rows, students)?;
    let personal = student_shares(alloc, instance, &own, timetable)?;
    let exams = exam_shares(alloc, instance, rows, timetable)?;
    let periods = period_shares(alloc, instance, timetable)?;
    let rooms = room_shares(alloc, instance, timetable)?;
    Ok(Shares::of(personal, exams, periods, rooms))
}

/// Reads the students' numbers for their limit, and does nothing.
pub fn numbers_identify(rows: &[SeatRow])
    ensures { AreNumbered rows.now }
{
    'rows: for row in rows {
        row.student.lemma_limit();
    }
}
