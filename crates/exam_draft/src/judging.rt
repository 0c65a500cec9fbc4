// Edits of a timetable, judged without scoring.
ghost use Rattle.std.specs.Prelude.{◌≡◌, ◌<◌, ◌&&◌, [], ◌∷◌, length, All, Ok, Some, IfErr, IfOk, OnOk};
ghost use Rattle.exam_model.specs.Fits.{Fits, PlaceExists};
ghost use Rattle.exam_draft.specs.Edits.{after_place, after_move, after_swap, after_clear};
ghost use Rattle.exam_draft.specs.Edits.{after_put, edit_result, if_unbroken};
ghost use Rattle.exam_draft.specs.Judged.{edited_exams, Refuses, IsEditedAt};
ghost use Rattle.exam_draft.specs.Edits.{exam_exists, place_exists, is_placed};

use crate::edit::Edit;
use crate::fault::EditFault;
use exam_model::{Enrolments, ExamNo, Instance, Place, Timetable};
use exam_rules::first_breach_of;
use std::alloc::Global;

/// Returns the edited timetable, or why the edit is refused. It reads all places of the timetable,
/// and the enrolments of the edited exams, of the exams in their periods, and of the exams that a
/// coincidence line names together with them.
pub fn judge(
    alloc: Global,
    instance: &Instance,
    enrolments: &Enrolments,
    timetable: &Timetable,
    edit: Edit,
) -> Result<Timetable, EditFault>
    requires fits { Fits instance.now enrolments.now timetable.now }
    ensures ok { IfOk result (λ next. edit_result instance.now enrolments.now timetable.now edit
        ≡ Ok next) }
    // The first refusal that applies, or out of memory instead.
    ensures refused { IfErr result (Refuses (edit_result instance.now enrolments.now timetable.now
        edit)) }
    ensures kept { IfOk result (IsEditedAt instance.now enrolments.now timetable.now
        (edited_exams edit)) }
{
    match edit {
        Edit::Place(exam, at) => judge_place(alloc, instance, enrolments, timetable, exam, at),
        Edit::Move(exam, to) => judge_move(alloc, instance, enrolments, timetable, exam, to),
        Edit::Swap(one, other) => judge_swap(alloc, instance, enrolments, timetable, one, other),
        Edit::Clear(exam) => judge_clear(alloc, instance, enrolments, timetable, exam),
    }
}

// Places an unplaced exam.
fn judge_place(
    alloc: Global,
    instance: &Instance,
    enrolments: &Enrolments,
    timetable: &Timetable,
    exam: ExamNo,
    place: Place,
) -> Result<Timetable, EditFault>
    requires fits { Fits instance.now enrolments.now timetable.now }
    ensures ok { IfOk result (λ next. after_place instance.now enrolments.now timetable.now exam
        place ≡ Ok next) }
    ensures refused { IfErr result (Refuses (after_place instance.now enrolments.now timetable.now
        exam place)) }
    ensures kept { IfOk result (IsEditedAt instance.now enrolments.now timetable.now
        (exam ∷ [])) }
{
    if !all_exist(instance, exam, &place) {
        return Err(EditFault::NoSuch);
    }
    if is_placed(timetable, exam) {
        return Err(EditFault::AlreadyPlaced);
    }
    place_if_unbroken(alloc, instance, enrolments, timetable, exam, place)
}

fn judge_move(
    alloc: Global,
    instance: &Instance,
    enrolments: &Enrolments,
    timetable: &Timetable,
    exam: ExamNo,
    to: Place,
) -> Result<Timetable, EditFault>
    requires fits { Fits instance.now enrolments.now timetable.now }
    ensures ok { IfOk result (λ next. after_move instance.now enrolments.now timetable.now exam to
        ≡ Ok next) }
    ensures refused { IfErr result (Refuses (after_move instance.now enrolments.now timetable.now
        exam to)) }
    ensures kept { IfOk result (IsEditedAt instance.now enrolments.now timetable.now
        (exam ∷ [])) }
{
    if !all_exist(instance, exam, &to) {
        return Err(EditFault::NoSuch);
    }
    if !is_placed(timetable, exam) {
        return Err(EditFault::NotPlaced);
    }
    place_if_unbroken(alloc, instance, enrolments, timetable, exam, to)
}

// Puts an exam at this place, unless a breach names it there.
fn place_if_unbroken(
    alloc: Global,
    instance: &Instance,
    enrolments: &Enrolments,
    timetable: &Timetable,
    exam: ExamNo,
    place: Place,
) -> Result<Timetable, EditFault>
    requires fits { Fits instance.now enrolments.now timetable.now }
    requires exam { exam < length instance.now.exams }
    requires place { PlaceExists instance.now (Some place) }
    ensures ok { IfOk result (λ next. after_put instance.now enrolments.now timetable.now exam place
        ≡ Ok next) }
    ensures refused { IfErr result (Refuses (after_put instance.now enrolments.now timetable.now
        exam place)) }
    ensures kept { IfOk result (IsEditedAt instance.now enrolments.now timetable.now
        (exam ∷ [])) }
{
    let mut next = timetable.copy(alloc)?;
    next.set(exam, place);
    refuse_broken(alloc, instance, enrolments, &next, &[exam])?;
    Ok(next)
}

// Exchanges the places of two placed exams.
fn judge_swap(
    alloc: Global,
    instance: &Instance,
    enrolments: &Enrolments,
    timetable: &Timetable,
    one: ExamNo,
    other: ExamNo,
) -> Result<Timetable, EditFault>
    requires fits { Fits instance.now enrolments.now timetable.now }
    ensures ok { IfOk result (λ next. after_swap instance.now enrolments.now timetable.now one other
        ≡ Ok next) }
    ensures refused { IfErr result (Refuses (after_swap instance.now enrolments.now timetable.now
        one other)) }
    ensures kept { IfOk result (IsEditedAt instance.now enrolments.now timetable.now
        (one ∷ (other ∷ []))) }
{
    if !has_exam(instance, one) || !has_exam(instance, other) {
        return Err(EditFault::NoSuch);
    }
    let Some(first) = timetable.get(one) else {
        return Err(EditFault::NotPlaced);
    };
    let Some(second) = timetable.get(other) else {
        return Err(EditFault::NotPlaced);
    };
    if one == other {
        return Err(EditFault::SameExam);
    }
    let mut next = timetable.copy(alloc)?;
    next.set(one, second);
    next.set(other, first);
    refuse_broken(alloc, instance, enrolments, &next, &[one, other])?;
    Ok(next)
}

// Removes the place of a placed exam, even if rules are broken.
fn judge_clear(
    alloc: Global,
    instance: &Instance,
    enrolments: &Enrolments,
    timetable: &Timetable,
    exam: ExamNo,
) -> Result<Timetable, EditFault>
    requires fits { Fits instance.now enrolments.now timetable.now }
    ensures ok { IfOk result (λ next. after_clear instance.now timetable.now exam ≡ Ok next) }
    ensures refused { IfErr result (Refuses (after_clear instance.now timetable.now exam)) }
    ensures kept { IfOk result (IsEditedAt instance.now enrolments.now timetable.now
        (exam ∷ [])) }
{
    if !has_exam(instance, exam) {
        return Err(EditFault::NoSuch);
    }
    if !is_placed(timetable, exam) {
        return Err(EditFault::NotPlaced);
    }
    let mut next = timetable.copy(alloc)?;
    next.clear(exam);
    Ok(next)
}

// Refuses a timetable in which a breach names an edited exam; the fault has the least such breach.
fn refuse_broken(
    alloc: Global,
    instance: &Instance,
    enrolments: &Enrolments,
    next: &Timetable,
    edited: &[ExamNo],
) -> Result<(), EditFault>
    requires fits { Fits instance.now enrolments.now next.now }
    requires exist { All (λ e. e < length instance.now.exams) edited.now }
    ensures ok { OnOk result (if_unbroken instance.now enrolments.now edited.now next.now
        ≡ Ok next.now) }
    ensures refused { IfErr result (Refuses (if_unbroken instance.now enrolments.now edited.now
        next.now)) }
{
    match first_breach_of(alloc, instance, enrolments, next, edited)? {
        Some(breach) => Err(EditFault::Broken(breach)),
        None => Ok(()),
    }
}

fn has_exam(instance: &Instance, exam: ExamNo) -> bool
    ensures { result ≡ exam_exists instance.now exam }
{
    exam.get() < instance.exams()
}

// Returns whether the exam, the period and the room exist.
fn all_exist(instance: &Instance, exam: ExamNo, place: &Place) -> bool
    ensures { result ≡ (exam_exists instance.now exam && place_exists instance.now place.now) }
{
    let period_exists = place.period.get() < instance.periods();
    let room_exists = place.room.get() < instance.rooms();
    has_exam(instance, exam) && (period_exists && room_exists)
}

fn is_placed(timetable: &Timetable, exam: ExamNo) -> bool
    requires { exam < length timetable.now }
    ensures { result ≡ is_placed timetable.now exam }
{
    timetable.get(exam).is_some()
}
