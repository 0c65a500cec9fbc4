// The enrolments of one student.
ghost use Rattle.std.specs.Prelude.{◌≡◌, ◌<◌, [], IfOk, OnOk, length, slice_set};
ghost use Rattle.exam_model.specs.Enrolments.{AreEnrolments, students};
ghost use Rattle.exam_reasons.specs.Students.{AreOwn, own_students};

use exam_model::{Enrolments, ExamNo, StudentNo};
use std::alloc::{AllocError, Global};

/// Returns the enrolments of one student, without those of the others: their summands and their
/// parts of the penalty are the student's. `Err`: out of memory.
pub fn own_enrolments(
    alloc: Global,
    enrolments: &Enrolments,
    student: StudentNo,
) -> Result<Enrolments, AllocError>
    ensures own { IfOk result (AreOwn enrolments.now student) }
    ensures kept { IfOk result AreEnrolments }
{
    let Ok(mut own) = Enrolments::new(alloc, enrolments.exams()) else {
        return Err(AllocError);
    };
    for exam in 0..enrolments.exams() {
        add_own(&mut own, enrolments, student, ExamNo::new(exam))?;
    }
    own.lemma_order();
    Ok(own)
}

// Adds the student to an exam that has no students yet, if the student sits it.
fn add_own(
    own: &mut Enrolments,
    enrolments: &Enrolments,
    student: StudentNo,
    exam: ExamNo,
) -> Result<(), AllocError>
    requires exists { exam < length enrolments.now }
    requires own_exists { exam < length own.old }
    requires empty { students own.old exam ≡ [] }
    ensures { OnOk result (own.new ≡ slice_set own.old exam
        (own_students student (students enrolments.now exam))) }
{
    if enrolments.has(student, exam) {
        // The pairs of one student are few, so memory is all that can be lacking.
        return match own.enrol(&[student], exam) {
            Ok(()) => Ok(()),
            Err(_) => Err(AllocError),
        };
    }
    Ok(())
}
