// Relations of two exams.
ghost use Rattle.std.specs.Prelude.{◌≡◌, ◌<◌, ◌&&◌, not, length};
ghost use Rattle.std.specs.List.{list_any};
ghost use Rattle.exam_model.specs.Enrolments.{IsAscending, has_number};
ghost use Rattle.exam_rules.specs.Places.{in_one_period, in_two_periods, is_not_after, in_one_place, share_student};

use exam_model::{Enrolments, ExamNo, StudentNo, Timetable};

pub(crate) fn in_one_period(timetable: &Timetable, exam: ExamNo, other: ExamNo) -> bool
    requires exists { exam < length timetable.now }
    requires other_exists { other < length timetable.now }
    ensures { result ≡ in_one_period timetable.now exam other }
{
    match (timetable.get(exam), timetable.get(other)) {
        (Some(first), Some(second)) => first.period == second.period,
        _ => false,
    }
}

pub(crate) fn is_not_after(timetable: &Timetable, exam: ExamNo, other: ExamNo) -> bool
    requires exists { exam < length timetable.now }
    requires other_exists { other < length timetable.now }
    ensures { result ≡ is_not_after timetable.now exam other }
{
    match (timetable.get(exam), timetable.get(other)) {
        (Some(first), Some(second)) => first.period <= second.period,
        _ => false,
    }
}

pub(crate) fn in_one_place(timetable: &Timetable, exam: ExamNo, other: ExamNo) -> bool
    requires exists { exam < length timetable.now }
    requires other_exists { other < length timetable.now }
    ensures { result ≡ in_one_place timetable.now exam other }
{
    match (timetable.get(exam), timetable.get(other)) {
        (Some(first), Some(second)) => first.period == second.period && first.room == second.room,
        _ => false,
    }
}

/// Returns whether two exams share no student and are in different periods.
pub(crate) fn are_strangers_apart(
    enrolments: &Enrolments,
    timetable: &Timetable,
    exam: ExamNo,
    other: ExamNo,
) -> bool
    requires fits { length enrolments.now ≡ length timetable.now }
    requires exists { exam < length timetable.now }
    requires other_exists { other < length timetable.now }
    ensures { result ≡ (not (share_student enrolments.now exam other)
        && in_two_periods timetable.now exam other) }
{
    in_two_periods(timetable, exam, other) && !share_student(enrolments, exam, other)
}

fn in_two_periods(timetable: &Timetable, exam: ExamNo, other: ExamNo) -> bool
    requires exists { exam < length timetable.now }
    requires other_exists { other < length timetable.now }
    ensures { result ≡ in_two_periods timetable.now exam other }
{
    match (timetable.get(exam), timetable.get(other)) {
        (Some(first), Some(second)) => first.period != second.period,
        _ => false,
    }
}

#[tactic(auto, using(exam_lists::proofs::Counts::count_by_any))]
pub(crate) fn share_student(enrolments: &Enrolments, exam: ExamNo, other: ExamNo) -> bool
    requires exists { exam < length enrolments.now }
    requires other_exists { other < length enrolments.now }
    ensures { result ≡ share_student enrolments.now exam other }
{
    have_common(enrolments.students(exam), enrolments.students(other))
}

// Returns whether two ascending lists of students have one in common, in one walk along both.
fn have_common(first: &[StudentNo], second: &[StudentNo]) -> bool
    requires first { IsAscending first.now }
    requires second { IsAscending second.now }
    ensures { result ≡ list_any (λ s. has_number second.now s) first.now }
{
    let mut left = first;
    let mut right = second;
    'walk: while let Some((student, others)) = left.split_first() {
        let Some((other, rest)) = right.split_first() else {
            return false;
        };
        if student == other {
            return true;
        }
        if student < other {
            left = others;
        } else {
            right = rest;
        }
    }
    false
}
