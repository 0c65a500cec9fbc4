// The pairs of exams that cost something, each with how many students sit both.
ghost use Rattle.std.specs.Prelude.{◌≡◌, ◌<◌, ◌++◌, IfOk, OnOk, filter, length};
ghost use Rattle.exam_model.specs.Conflicts.{conflict_if, conflicts_of, conflicts_with};
ghost use Rattle.exam_model.specs.Enrolments.{shared_students};
ghost use Rattle.exam_model.specs.Fits.{Fits};
ghost use Rattle.exam_reasons.specs.Pairs.{HoldsPairs, costly_pairs, is_costly};

use crate::pair_reasons::is_costly;
use exam_model::{Conflict, Enrolments, ExamNo, Instance, Timetable};
use std::alloc::{AllocError, Global};

/// Returns the pairs of exams that share students and cost something, by the greater exam and then
/// by the smaller one. `Err`: out of memory.
pub fn costly_pairs(
    alloc: Global,
    instance: &Instance,
    enrolments: &Enrolments,
    timetable: &Timetable,
) -> Result<Vec<Conflict>, AllocError>
    requires fits { Fits instance.now enrolments.now timetable.now }
    ensures all { IfOk result (λ pairs. pairs.items
        ≡ costly_pairs instance.now enrolments.now timetable.now) }
    ensures reasons { IfOk result (λ pairs.
        HoldsPairs instance.now enrolments.now timetable.now pairs.items) }
{
    let mut listed = enrolments.copy(alloc)?;
    listed.list_conflicts(alloc)?;
    match listed.conflicts() {
        Some(conflicts) => costly_conflicts(alloc, instance, enrolments, timetable, conflicts),
        None => costly_exams(alloc, instance, enrolments, timetable),
    }
}

// Returns those conflicts that cost something.
fn costly_conflicts(
    alloc: Global,
    instance: &Instance,
    enrolments: &Enrolments,
    timetable: &Timetable,
    conflicts: &[Conflict],
) -> Result<Vec<Conflict>, AllocError>
    requires fits { Fits instance.now enrolments.now timetable.now }
    requires listed { conflicts.now ≡ conflicts_of enrolments.now }
    ensures { IfOk result (λ pairs. pairs.items
        ≡ costly_pairs instance.now enrolments.now timetable.now) }
{
    let mut pairs = Vec::new(alloc);
    for conflict in conflicts {
        if is_costly(instance, timetable, conflict) {
            pairs.push(*conflict)?;
        }
    }
    Ok(pairs)
}

// Returns the same if students have so many exams that conflicts are not listed: students are
// counted only for exams whose periods cost something.
fn costly_exams(
    alloc: Global,
    instance: &Instance,
    enrolments: &Enrolments,
    timetable: &Timetable,
) -> Result<Vec<Conflict>, AllocError>
    requires fits { Fits instance.now enrolments.now timetable.now }
    ensures { IfOk result (λ pairs. pairs.items
        ≡ costly_pairs instance.now enrolments.now timetable.now) }
{
    let mut pairs = Vec::new(alloc);
    for other in 0..enrolments.exams() {
        add_costly(
            &mut pairs,
            instance,
            enrolments,
            timetable,
            ExamNo::new(other),
        )?;
    }
    Ok(pairs)
}

// Adds the pairs of an exam with smaller ones.
fn add_costly(
    pairs: &mut Vec<Conflict>,
    instance: &Instance,
    enrolments: &Enrolments,
    timetable: &Timetable,
    other: ExamNo,
) -> Result<(), AllocError>
    requires fits { Fits instance.now enrolments.now timetable.now }
    requires exists { other < length enrolments.now }
    ensures { OnOk result (pairs.new.items ≡ pairs.old.items
        ++ filter (is_costly instance.now timetable.now) (conflicts_with enrolments.now other other)) }
{
    for exam in 0..other.get() {
        add_pair(
            pairs,
            instance,
            enrolments,
            timetable,
            ExamNo::new(exam),
            other,
        )?;
    }
    Ok(())
}

// Adds two exams, if their periods cost something and they share students.
fn add_pair(
    pairs: &mut Vec<Conflict>,
    instance: &Instance,
    enrolments: &Enrolments,
    timetable: &Timetable,
    exam: ExamNo,
    other: ExamNo,
) -> Result<(), AllocError>
    requires fits { Fits instance.now enrolments.now timetable.now }
    requires exists { exam < length enrolments.now }
    requires other_exists { other < length enrolments.now }
    ensures { OnOk result (pairs.new.items ≡ pairs.old.items ++ filter (is_costly instance.now
        timetable.now) (conflict_if exam other (shared_students enrolments.now exam other))) }
{
    let periods = Conflict {
        exam,
        other,
        students: 0,
    };
    if is_costly(instance, timetable, &periods) {
        let students = enrolments.shared(exam, other);
        if students > 0 {
            pairs.push(Conflict {
                exam,
                other,
                students,
            })?;
        }
    }
    Ok(())
}
