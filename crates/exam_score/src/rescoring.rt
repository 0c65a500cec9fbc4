// The penalty after a change of enrolments, by the students whose exams changed.
ghost use Rattle.std.specs.Prelude.{◌≡◌, ◌∷◌, ◌<◌, ◌≤◌, ◌*◌, length, IfOk};
ghost use Rattle.exam_terms.specs.declared.limits.TheConstants.{MAX_AMOUNT, MAX_EXAMS, MAX_PAIRS};
ghost use Rattle.exam_model.specs.Enrolments.{has_number};
ghost use Rattle.exam_model.specs.Fits.{Fits, period_of};
ghost use Rattle.exam_model.specs.Pairs.{pairs_of};
ghost use Rattle.exam_score.specs.Penalty.{personal_total, penalty_sum};
ghost use Rattle.exam_score.specs.Regrouping.{periods_of};
ghost use Rattle.exam_score.specs.Rescoring.{OthersUnchanged, sat_period, students_penalty, students_share};
ghost use Rattle.exam_score.specs.Track.{track};

use crate::candidate::personal;
use crate::front::front_load;
use crate::parts::Parts;
use crate::personal_parts::PersonalParts;
use crate::places::PlaceSums;
use crate::track::score;
use exam_model::{Enrolments, ExamNo, Instance, PeriodNo, StudentNo, Timetable};
use std::alloc::{AllocError, Global};

// For more students than this, the whole penalty is calculated again.
const FEW_STUDENTS: usize = 32;

/// Returns the penalty of a timetable by the enrolments after a change, if `parts` is the penalty by
/// those before it. The list has every student whose exams changed, in any order; it may have
/// repeats, and students whose exams are the same. `Err`: out of memory.
pub fn rescore(
    alloc: Global,
    instance: &Instance,
    before: &Enrolments,
    after: &Enrolments,
    students: &[StudentNo],
    timetable: &Timetable,
    parts: Parts,
) -> Result<Parts, AllocError>
    requires before { Fits instance.now before.now timetable.now }
    requires after { Fits instance.now after.now timetable.now }
    requires others { OthersUnchanged students.now before.now after.now }
    ensures { parts ≡ track instance.now before.now timetable.now
        → IfOk result (λ new. new ≡ track instance.now after.now timetable.now) }
{
    if students.len() > FEW_STUDENTS {
        return score(alloc, instance, after, timetable);
    }
    before.lemma_order();
    after.lemma_order();
    let goes = students_share(alloc, instance, before, timetable, students)?;
    let comes = students_share(alloc, instance, after, timetable, students)?;
    match parts.exchange(goes, comes) {
        Some(new) => Ok(new),
        // `parts` was not the penalty before the change.
        None => score(alloc, instance, after, timetable),
    }
}

// Returns the share of these students and of the front load in a penalty.
fn students_share(
    alloc: Global,
    instance: &Instance,
    enrolments: &Enrolments,
    timetable: &Timetable,
    students: &[StudentNo],
) -> Result<Parts, AllocError>
    requires fits { Fits instance.now enrolments.now timetable.now }
    ensures { IfOk result (λ share. share
        ≡ students_share instance.now enrolments.now timetable.now students.now) }
{
    let pairs = students_penalty(alloc, instance, enrolments, timetable, students)?;
    let front = front_load(alloc, instance, enrolments, timetable)?;
    let no_places = PlaceSums {
        periods: 0,
        rooms: 0,
    };
    Ok(Parts::of(pairs, 0, front, no_places))
}

// Returns the personal penalties of these students, each student counted once.
fn students_penalty(
    alloc: Global,
    instance: &Instance,
    enrolments: &Enrolments,
    timetable: &Timetable,
    students: &[StudentNo],
) -> Result<PersonalParts, AllocError>
    requires fits { Fits instance.now enrolments.now timetable.now }
    ensures sum { IfOk result (λ sum. sum
        ≡ students_penalty instance.now enrolments.now timetable.now students.now) }
    ensures small { IfOk result (λ sum.
        personal_total sum ≤ 4 * (MAX_PAIRS * MAX_PAIRS * MAX_AMOUNT)) }
{
    instance.lemma_limits();
    enrolments.lemma_order();
    let mut sum = PersonalParts::of(0, 0, 0, 0);
    let mut rest = students;
    while let Some((student, others)) = rest.split_first() {
        let more = further_penalty(alloc, instance, enrolments, timetable, *student, others)?;
        sum = sum.plus(more);
        rest = others;
    }
    Ok(sum)
}

// Returns the personal penalty of one more student; nothing if they are one of the others.
fn further_penalty(
    alloc: Global,
    instance: &Instance,
    enrolments: &Enrolments,
    timetable: &Timetable,
    student: StudentNo,
    others: &[StudentNo],
) -> Result<PersonalParts, AllocError>
    requires fits { Fits instance.now enrolments.now timetable.now }
    ensures { IfOk result (λ more.
        penalty_sum more (students_penalty instance.now enrolments.now timetable.now others.now)
        ≡ students_penalty instance.now enrolments.now timetable.now (student ∷ others.now)) }
{
    if is_among(others, student) {
        return Ok(PersonalParts::of(0, 0, 0, 0));
    }
    let periods = periods_of(alloc, enrolments, timetable, student)?;
    Ok(personal(instance, &periods))
}

fn is_among(students: &[StudentNo], student: StudentNo) -> bool
    ensures { result ≡ has_number students.now student }
{
    students.iter().any(|other| *other == student)
}

// Returns the periods of a student's placed exams, by exam.
fn periods_of(
    alloc: Global,
    enrolments: &Enrolments,
    timetable: &Timetable,
    student: StudentNo,
) -> Result<Vec<PeriodNo>, AllocError>
    requires exams { length timetable.now ≡ length enrolments.now }
    ensures periods { IfOk result (λ periods. periods.items
        ≡ periods_of (pairs_of enrolments.now) (period_of timetable.now) student) }
    ensures few { IfOk result (λ periods. length periods.items ≤ MAX_EXAMS) }
{
    let mut periods = Vec::new(alloc);
    for exam in 0..enrolments.exams() {
        let exam = ExamNo::new(exam);
        if let Some(period) = sat_period(enrolments, timetable, student, exam) {
            periods.push(period)?;
        }
    }
    Ok(periods)
}

// Returns the period of an exam, if the student sits it and it is placed.
fn sat_period(
    enrolments: &Enrolments,
    timetable: &Timetable,
    student: StudentNo,
    exam: ExamNo,
) -> Option<PeriodNo>
    requires exists { exam < length enrolments.now }
    requires placed { exam < length timetable.now }
    ensures { result ≡ sat_period enrolments.now timetable.now student exam }
{
    if enrolments.has(student, exam) {
        timetable.get(exam).map(|place| place.period)
    } else {
        None
    }
}
