// What exams add to the front load.
ghost use Rattle.std.specs.Prelude.{◌≡◌, ◌<◌, length};
ghost use Rattle.exam_model.specs.Fits.{Fits};
ghost use Rattle.exam_score.specs.Front.{AreSizes};
ghost use Rattle.exam_reasons.specs.Reasons.{front_reason};

use crate::reasons::ExamReason;
use exam_model::{Enrolments, ExamNo, Instance, Timetable};
use exam_score::front_share;

/// Returns what an exam adds to the front load, if that is not nothing. `sizes` has the number of
/// each exam's students.
pub fn front_reason(
    instance: &Instance,
    enrolments: &Enrolments,
    timetable: &Timetable,
    sizes: &[u32],
    exam: ExamNo,
) -> Option<ExamReason>
    requires fits { Fits instance.now enrolments.now timetable.now }
    requires sizes { AreSizes enrolments.now sizes.now }
    requires exists { exam < length enrolments.now }
    ensures { result ≡ front_reason instance.now enrolments.now timetable.now exam }
{
    enrolments.lemma_order();
    let points = front_share(instance, sizes, exam, timetable.get(exam));
    if points == 0 {
        return None;
    }
    Some(ExamReason {
        exam,
        students: enrolments.size(exam),
        points,
    })
}
