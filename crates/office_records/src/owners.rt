// Rows of owners.
ghost use Rattle.std.specs.Prelude.{◌≡◌, ℕ, IfErr, OnErr, OnOk, slice_set};
ghost use Rattle.office_records.specs.Found.{AreOwners};
ghost use Rattle.office_records.specs.NextRow.{IsFirstOwner};

use crate::fault::RecordFault;
use exam_model::{DeptNo, Instance};
use office_tables::tables::OwnerRow;
use std::alloc::Global;

// Returns `Ok` if these rows name owners of a session's exams; else `BadRows`.
pub(crate) fn check_owners(
    alloc: Global,
    instance: &Instance,
    rows: &[OwnerRow],
) -> Result<(), RecordFault>
    ensures are { OnOk result ((owner_of : ℕ → ℕ) × AreOwners instance.now rows.now owner_of) }
    ensures none { IfErr result (λ e. e ≡ RecordFault.BadRows
        → (owner_of : ℕ → ℕ) → AreOwners instance.now rows.now owner_of → ⊥) }
{
    let mut departments = vec![in alloc; 0u32; instance.exams() as usize]?;
    for row in rows {
        note_owner(&mut departments, row)?;
    }
    Ok(())
}

// Records the department that owns an exam; 0 means no department.
fn note_owner(departments: &mut [u32], row: &OwnerRow) -> Result<(), RecordFault>
    ensures first { OnOk result (IsFirstOwner departments.old row.now) }
    ensures noted { OnOk result
        (departments.new ≡ slice_set departments.old row.now.exam row.now.dept) }
    ensures refused { OnErr result (IsFirstOwner departments.old row.now → ⊥) }
    ensures fault { IfErr result (λ e. e ≡ RecordFault.BadRows) }
{
    let Some(dept) = DeptNo::new(row.dept) else {
        return Err(RecordFault::BadRows);
    };
    let exam = row.exam as usize;
    let Some(0) = departments.get(exam) else {
        return Err(RecordFault::BadRows);
    };
    departments[exam] = dept.get();
    Ok(())
}
