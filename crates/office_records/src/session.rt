// The row of a session.
ghost use Rattle.std.specs.Prelude.{◌≡◌, IfErr, IfOk};
ghost use Rattle.exam_model.specs.Instance.{IsInstance, Session};
ghost use Rattle.office_tables.specs.Tables.Metadata.{meta_from};
ghost use Rattle.office_records.specs.Found.{IsSessionRow};
ghost use Rattle.office_records.specs.TableRows.{session_text};

use crate::fault::RecordFault;
use exam_model::{Enrolments, Instance};
use office_files::{read_instance, write_instance};
use office_tables::tables::MetaRow;
use std::alloc::Global;

/// Returns the stored text of a session: its canonical text, which names no student.
pub fn text_of(alloc: Global, instance: &Instance) -> Result<Vec<u8>, RecordFault>
    ensures text { IfOk result (λ text. text.items ≡ session_text instance.now) }
    ensures memory { IfErr result (λ e. e ≡ RecordFault.NoMemory) }
    ensures instance { IsInstance instance.now }
{
    let exams = instance.exams();
    let Ok(nobody) = Enrolments::new(alloc, exams) else {
        return Err(RecordFault::NoMemory);
    };
    match write_instance(alloc, instance, &nobody) {
        Ok(text) => Ok(text),
        Err(_) => Err(RecordFault::NoMemory),
    }
}

// Returns the session of this row, whether it has a publication or not. `BadRows`: no session has
// this row.
pub(crate) fn session_of(alloc: Global, row: &MetaRow) -> Result<Instance, RecordFault>
    ensures is { IfOk result (IsSessionRow (meta_from row.now)) }
    ensures none { IfErr result (λ e. e ≡ RecordFault.BadRows
        → (I : Session) → IsSessionRow (meta_from row.now) I → ⊥) }
{
    let (instance, _students) = read_instance(alloc, &row.instance)?;
    let text = text_of(alloc, &instance)?;
    if text.as_slice() != row.instance.as_slice() {
        return Err(RecordFault::BadRows);
    }
    Ok(instance)
}
