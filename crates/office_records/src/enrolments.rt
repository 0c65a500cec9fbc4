// Rows of enrolments.
ghost use Rattle.std.specs.Prelude.{◌≡◌, IfErr, IfOk, OnOk};
ghost use Rattle.exam_model.specs.Enrolments.{Adds, AreEnrolments, Enrolled};
ghost use Rattle.office_records.specs.Found.{AreEnrolRows};
ghost use Rattle.office_records.specs.NextRow.{IsNewPair};

use crate::fault::RecordFault;
use exam_model::{Enrolments, ExamNo, Instance, ModelFault, StudentNo};
use office_tables::tables::EnrolRow;
use std::alloc::Global;

// Returns the enrolments of a session's exams with these rows. `BadRows`: no enrolments have them.
pub(crate) fn enrolments_of(
    alloc: Global,
    instance: &Instance,
    rows: &[EnrolRow],
) -> Result<Enrolments, RecordFault>
    ensures are { IfOk result (AreEnrolRows instance.now rows.now) }
    ensures none { IfErr result (λ e. e ≡ RecordFault.BadRows
        → (E : Enrolled) → AreEnrolRows instance.now rows.now E → ⊥) }
{
    let Ok(mut enrolments) = Enrolments::new(alloc, instance.exams()) else {
        return Err(RecordFault::NoMemory);
    };
    for row in rows {
        enrol(&mut enrolments, row)?;
    }
    Ok(enrolments)
}

fn enrol(enrolments: &mut Enrolments, row: &EnrolRow) -> Result<(), RecordFault>
    ensures new { OnOk result (IsNewPair enrolments.old row.now) }
    ensures adds { OnOk result (Adds enrolments.old enrolments.new row.now.student row.now.exam) }
    ensures kept { OnOk result (AreEnrolments enrolments.new) }
    ensures refused { IfErr result (λ e. e ≡ RecordFault.BadRows
        → IsNewPair enrolments.old row.now → ⊥) }
{
    let Some(student) = StudentNo::new(row.student) else {
        return Err(RecordFault::BadRows);
    };
    match enrolments.add(student, ExamNo::new(row.exam)) {
        Ok(true) => Ok(()),
        Ok(false) | Err(ModelFault::NoSuch | ModelFault::Range) => Err(RecordFault::BadRows),
        Err(ModelFault::NoMemory) => Err(RecordFault::NoMemory),
    }
}
