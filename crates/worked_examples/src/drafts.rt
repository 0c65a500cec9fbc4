// Drafts of the small session.
use crate::given::{
    assert_same, enrolments_of, fits, place, small, small_enrolments, timetable_of,
};
use exam_draft::{Draft, Edit, EditFault};
use exam_model::ExamNo;
use exam_rules::{Breach, BreachRule};
use exam_score::score;
use std::alloc::{AllocError, Global};
use std::test::Fail;

// Makes an edit by its own call. Returns the total after it.
fn total_after(draft: &mut Draft<'_>, alloc: Global, edit: Edit) -> Result<u64, EditFault> {
    match edit {
        Edit::Place(exam, to) => draft.place(alloc, exam, to)?,
        Edit::Move(exam, to) => draft.move_to(alloc, exam, to)?,
        Edit::Swap(one, other) => draft.swap(alloc, one, other)?,
        Edit::Clear(exam) => draft.clear(alloc, exam)?,
    }
    Ok(draft.parts().total())
}

// Makes these edits. Returns the total after each one, or why it is refused.
fn totals(
    draft: &mut Draft<'_>,
    alloc: Global,
    edits: &[Edit],
) -> Result<Vec<Result<u64, EditFault>>, AllocError> {
    let mut totals = Vec::new(alloc);
    for edit in edits {
        totals.push(total_after(draft, alloc, *edit))?;
    }
    Ok(totals)
}

fn edits() -> [Edit; 9] {
    let [zero, one, two] = [0, 1, 2].map(ExamNo::new);
    [
        Edit::Place(zero, place(0, 0)),
        Edit::Place(one, place(1, 0)),
        Edit::Swap(zero, one),
        Edit::Move(one, place(2, 0)),
        Edit::Clear(one),
        Edit::Place(two, place(1, 1)),
        Edit::Swap(zero, two),
        Edit::Move(zero, place(0, 1)),
        Edit::Clear(two),
    ]
}

// Exam 1 at (1, 0) is two in a row and spread 1 for student 2, and at (2, 0) two in a day, spread 1
// and the period's 10. Exam 2 costs its room; so does exam 0 in the place of exam 2, and in the same
// room in another period.
#[test]
fn edits_name_their_exams(rt: HostRuntime) -> Result<(), Fail> {
    let alloc = rt.alloc();
    let (instance, enrolments) = (small(alloc)?, small_enrolments(alloc)?);
    if enrolments.exams() != instance.exams() {
        return Err("enrolments of other exams")?;
    }
    let mut draft = Draft::new(alloc, &instance, &enrolments)?;
    let found = totals(&mut draft, alloc, &edits())?;
    let after = Err(EditFault::Broken(Breach {
        rule: BreachRule::After,
        exam: ExamNo::new(1),
        other: ExamNo::new(0),
    }));
    let wanted = [
        Ok(0),
        Ok(8),
        after,
        Ok(16),
        Ok(0),
        Ok(7),
        Ok(7),
        Ok(7),
        Ok(7),
    ];
    assert_same(&rt, found.as_slice(), wanted.as_slice(), "totals");
    Ok(())
}

// Student 2 no longer sits exam 1: the total is 8 less.
#[test]
fn coincidence_by_enrolment(rt: HostRuntime) -> Result<(), Fail> {
    let alloc = rt.alloc();
    let (instance, enrolments) = (small(alloc)?, small_enrolments(alloc)?);
    let fewer = enrolments_of(alloc, &[(1, 0), (2, 0), (3, 1), (3, 2), (1, 3)])?;
    let solution = [Some((0, 0)), Some((1, 0)), Some((3, 1)), Some((2, 0))];
    let timetable = timetable_of(alloc, &solution)?;
    if !fits(&instance, &enrolments, &timetable) || fewer.exams() != instance.exams() {
        return Err("a place that doesn't exist")?;
    }
    let parts = score(alloc, &instance, &enrolments, &timetable)?;
    let draft = Draft::resume(&instance, &enrolments, timetable, parts);
    assert_same(&rt, draft.parts().total(), 37, "solved");
    let Ok(draft) = draft.enrol(alloc, &fewer) else {
        return Err("no memory")?;
    };
    assert_same(&rt, draft.timetable().complete(), None, "all placed");
    let (_timetable, parts) = draft.into_parts();
    assert_same(&rt, parts.total(), 29, "fewer enrolments");
    Ok(())
}
