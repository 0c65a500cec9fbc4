// The penalty after an edit, calculated from the file's rows of the students of the edited exams.
ghost use Rattle.std.specs.Prelude.{◌≡◌, ℕ, ◌+◌, ◌<◌, ◌≤◌, ◌++◌, ◌↔◌, [], List, All, IfErr, IfOk, IsTrue, OnOk, Some, length, map};
ghost use Rattle.exam_terms.specs.declared.limits.TheConstants.{MAX_PAIRS};
ghost use Rattle.exam_model.specs.Changes.{exams_sat};
ghost use Rattle.exam_model.specs.Enrolments.{Enrolled, IsAscending};
ghost use Rattle.exam_model.specs.Pairs.{Pair};
ghost use Rattle.exam_score.specs.Folds.{IsFoldOf, RepresentsPairs, pairs_sat};
ghost use Rattle.exam_score.specs.Track.{track};
ghost use Rattle.office_store.specs.FoldReads.{HadEnrolments, LeavesRows};
ghost use Rattle.office_store.specs.Folding.{CanTake, IsEditOf};
ghost use Rattle.office_store.specs.Folding.{pairs_of_students, students_of_exams};
ghost use Rattle.office_store.specs.Running.{ReturnsValue};
ghost use Rattle.office_store.specs.Viewing.{candidate_enrol_row};

use crate::editing::EditedTimetable;
use crate::viewing::exams_of;
use exam_model::{Enrolments, ExamNo, Instance, StudentNo};
use exam_publish::in_order;
use exam_score::{EditFold, Parts, sizes_of};
use exam_terms::limits::MAX_PAIRS;
use office_model::StoreFault;
use office_tables::Query;
use office_tables::tables::{EnrolRow, FindEnrolsOf};
use sqlite::{Alter, Connection};
use std::alloc::{AllocError, Global};

// Returns the penalty after an edit. Only one student's rows are in memory at a time.
pub(crate) fn penalty_after<S: Alter>(
    alloc: Global,
    conn: &mut Connection<S>,
    instance: &Instance,
    enrolments: &Enrolments,
    judged: &EditedTimetable<'_>,
) -> Result<Parts, StoreFault>
    requires exams { length enrolments.now ≡ length instance.now.exams }
    requires exist { All (λ e. e < length enrolments.now) judged.now.exams.items }
    ensures meaning { HadEnrolments S.Store conn.old conn.new enrolments.now
        → IsEditOf instance.now enrolments.now judged.now
        → ReturnsValue (track instance.now enrolments.now judged.now.new) result }
    ensures leaves { LeavesRows S.Store conn.old conn.new result }
{
    let sizes = sizes_of(alloc, enrolments)?;
    let students = students_of_exams(alloc, enrolments, &judged.exams)?;
    let empty = EditFold::new(
        alloc,
        instance,
        &judged.draft.timetable,
        &judged.new,
        &judged.exams,
    )?;
    let fold = fold_students(alloc, conn, empty, &students)?;
    fold.finish(&sizes, judged.draft.parts)
        .ok_or(StoreFault::BadSchema)
}

// Returns the students of these exams, ascending, each once.
fn students_of_exams(
    alloc: Global,
    enrolments: &Enrolments,
    exams: &[ExamNo],
) -> Result<Vec<StudentNo>, AllocError>
    requires exist { All (λ e. e < length enrolments.now) exams.now }
    ensures { IfOk result (λ found. found.items ≡ students_of_exams enrolments.now exams.now) }
{
    let mut found = Vec::new(alloc);
    for exam in exams {
        found.extend_from_slice(enrolments.students(*exam))?;
    }
    Ok(in_order(found))
}

// Adds the pairs that the file has of these students, one student after the other.
fn fold_students<'a, S: Alter>(
    alloc: Global,
    conn: &mut Connection<S>,
    empty: EditFold<'a>,
    students: &[StudentNo],
) -> Result<EditFold<'a>, StoreFault>
    requires empty { RepresentsPairs empty [] }
    requires ascending { IsAscending students.now }
    ensures represents { IfOk result (λ new. (pairs : List Pair) × RepresentsPairs new pairs
        × ((E : Enrolled) → HadEnrolments S.Store conn.old conn.new E
        → pairs ≡ pairs_of_students E students.now)) }
    ensures of { IfOk result (λ new. IsFoldOf new empty.entry.instance empty.entry.earlier
        empty.entry.later empty.entry.edited) }
    ensures fault { (E : Enrolled) → HadEnrolments S.Store conn.old conn.new E
        → IfErr result (λ e. e ≡ StoreFault.Store) }
    ensures leaves { LeavesRows S.Store conn.old conn.new result }
{
    let mut fold = empty;
    let mut count = 0;
    let mut rest = students;
    'each: while let Some((student, others)) = rest.split_first() {
        let exams = read_exams(alloc, conn, *student)?;
        count = count_more(count, &exams)?;
        fold_exams(&mut fold, *student, &exams)?;
        rest = others;
    }
    Ok(fold)
}

// Returns the count with these pairs added. `BadSchema`: there are more than an office can have.
fn count_more(count: usize, exams: &[ExamNo]) -> Result<usize, StoreFault>
    requires few { count ≤ MAX_PAIRS }
    ensures ok { IfOk result (λ more. (more ≡ count + length exams.now) × (more ≤ MAX_PAIRS)) }
    ensures err { IfErr result (λ e. (e ≡ StoreFault.BadSchema)
        × (MAX_PAIRS < count + length exams.now)) }
{
    if exams.len() > MAX_PAIRS as usize - count {
        return Err(StoreFault::BadSchema);
    }
    Ok(count + exams.len())
}

// Adds a student's exams.
fn fold_exams(fold: &mut EditFold, student: StudentNo, exams: &[ExamNo]) -> Result<(), AllocError>
    requires room { CanTake fold.old student (length exams.now) }
    requires ascending { IsAscending exams.now }
    ensures represents { (pairs : List Pair) → RepresentsPairs fold.old pairs → OnOk result
        (RepresentsPairs fold.new (pairs ++ pairs_sat (Some student) exams.now)) }
    ensures of { IsFoldOf fold.new fold.old.instance fold.old.earlier fold.old.later
        fold.old.edited }
{
    for exam in exams {
        fold.row(student, *exam)?;
    }
    Ok(())
}

// Returns the exams that the file has of a student, ascending. `BadSchema`: a row of the student's
// is invalid, or the exams are out of order.
fn read_exams<S: Alter>(
    alloc: Global,
    conn: &mut Connection<S>,
    student: StudentNo,
) -> Result<Vec<ExamNo>, StoreFault>
    ensures ascending { IfOk result (λ exams. IsAscending exams.items) }
    ensures exams { (E : Enrolled) → HadEnrolments S.Store conn.old conn.new E
        → IfOk result (λ exams. exams.items ≡ exams_sat E student) }
    ensures fault { (E : Enrolled) → HadEnrolments S.Store conn.old conn.new E
        → IfErr result (λ e. e ≡ StoreFault.Store) }
    ensures leaves { LeavesRows S.Store conn.old conn.new result }
{
    let number = student.get();
    let Ok(found) = FindEnrolsOf { student: number }.ask(alloc, conn) else {
        return Err(StoreFault::Store);
    };
    let Some(rows) = found else {
        return Err(StoreFault::BadSchema);
    };
    exams_in_order(alloc, student, &rows)
}

// Returns the exams of a student's rows. `BadSchema`: a row is another student's, or the exams
// don't ascend.
fn exams_in_order(
    alloc: Global,
    student: StudentNo,
    rows: &[EnrolRow],
) -> Result<Vec<ExamNo>, StoreFault>
    ensures are { IfOk result (λ exams. rows.now ≡ map (candidate_enrol_row student) exams.items) }
    ensures ascending { IfOk result (λ exams. IsAscending exams.items) }
    ensures fault { (exams : List ℕ) → rows.now ≡ map (candidate_enrol_row student) exams
        → IsAscending exams
        → IfErr result (λ e. e ≡ StoreFault.Store) }
{
    if !are_of_candidate(student, rows) {
        return Err(StoreFault::BadSchema);
    }
    if !are_in_order(rows) {
        return Err(StoreFault::BadSchema);
    }
    let exams = exams_of(alloc, rows)?;
    Ok(exams)
}

// Returns whether all rows are this student's.
fn are_of_candidate(student: StudentNo, rows: &[EnrolRow]) -> bool
    ensures { IsTrue result ↔ All (λ row. row.student ≡ student) rows.now }
{
    rows.iter().all(|row| row.student == student.get())
}

// Returns whether each row's exam is smaller than the next one's.
fn are_in_order(rows: &[EnrolRow]) -> bool
    ensures { IsTrue result ↔ IsAscending (map (λ row. row.exam) rows.now) }
{
    rows.is_sorted_by(|row, next| row.exam < next.exam)
}
