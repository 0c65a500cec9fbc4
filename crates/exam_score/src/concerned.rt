// The enrolments of the students who sit an edited exam.
ghost use Rattle.std.specs.Prelude.{◌≡◌, ◌<◌, ◌≤◌, ◌++◌, length, map, filter, All, AllPairs, IfOk, OnOk, IsPermutation};
ghost use Rattle.exam_terms.specs.declared.limits.TheConstants.{MAX_PAIRS};
ghost use Rattle.exam_model.specs.Enrolments.{students};
ghost use Rattle.exam_model.specs.Pairs.{pairs_at};
ghost use Rattle.exam_model.specs.Sitters.{pair_of};
ghost use Rattle.exam_score.specs.Concerned.{IsSooner};
ghost use Rattle.exam_score.specs.Exchanges.{pairs_concerned, sits_among};

use exam_model::{Enrolments, ExamNo, Sitter, StudentNo};
use std::alloc::{AllocError, Global};

// Returns one sitter for each exam of each of these students, by student and then by exam.
pub(crate) fn sitters_of(
    alloc: Global,
    enrolments: &Enrolments,
    edited: &[ExamNo],
) -> Result<Vec<Sitter>, AllocError>
    requires exist { All (λ e. e < length enrolments.now) edited.now }
    ensures concerned { IfOk result (λ sitters. IsPermutation
        (pairs_concerned enrolments.now edited.now) (map pair_of sitters.items)) }
    ensures in_order { IfOk result (λ sitters. AllPairs IsSooner sitters.items) }
    ensures few { IfOk result (λ sitters. length sitters.items ≤ MAX_PAIRS) }
{
    enrolments.lemma_order();
    let mut sitters = sitters_by_exam(alloc, enrolments, edited)?;
    sitters.sort_unstable();
    Ok(sitters)
}

// Returns the same by exam and then by student.
fn sitters_by_exam(
    alloc: Global,
    enrolments: &Enrolments,
    edited: &[ExamNo],
) -> Result<Vec<Sitter>, AllocError>
    requires exist { All (λ e. e < length enrolments.now) edited.now }
    ensures { IfOk result (λ sitters. map pair_of sitters.items
        ≡ pairs_concerned enrolments.now edited.now) }
{
    let mut sitters = Vec::new(alloc);
    for exam in 0..enrolments.exams() {
        add_sitters(&mut sitters, enrolments, edited, ExamNo::new(exam))?;
    }
    Ok(sitters)
}

fn add_sitters(
    sitters: &mut Vec<Sitter>,
    enrolments: &Enrolments,
    edited: &[ExamNo],
    exam: ExamNo,
) -> Result<(), AllocError>
    requires exists { exam < length enrolments.now }
    requires exist { All (λ e. e < length enrolments.now) edited.now }
    ensures { OnOk result (map pair_of sitters.new.items ≡ map pair_of sitters.old.items
        ++ filter (λ p. sits_among enrolments.now edited.now p.student)
        (pairs_at exam (students enrolments.now exam))) }
{
    for student in enrolments.students(exam) {
        let student = *student;
        if sits_among(enrolments, edited, student) {
            sitters.push(Sitter { student, exam })?;
        }
    }
    Ok(())
}

fn sits_among(enrolments: &Enrolments, exams: &[ExamNo], student: StudentNo) -> bool
    requires exist { All (λ e. e < length enrolments.now) exams.now }
    ensures { result ≡ sits_among enrolments.now exams.now student }
{
    for exam in exams {
        if enrolments.has(student, *exam) {
            return true;
        }
    }
    false
}
