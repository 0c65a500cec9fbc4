// The owner of an exam.
ghost use Rattle.std.specs.Prelude.{◌≡◌, ◌≤◌, ℕ, Ok, map};
ghost use Rattle.exam_terms.specs.declared.limits.TheConstants.{MAX_DEPARTMENT};
ghost use Rattle.office_model.specs.Commands.{set_owner_result, owner_in};
ghost use Rattle.office_store.specs.Changes.{new_owner};
ghost use Rattle.office_store.specs.Leaving.{LeavesNext, LeavesUnchanged};
ghost use Rattle.office_store.specs.Running.{QueryReturned, CommandRan};
ghost use Rattle.office_records.specs.TableRows.{some_dept};

use crate::office::Office;
use crate::transactions::put;
use exam_draft::EditFault;
use exam_model::ExamNo;
use office_model::{Refusal, StoreFault};
use office_tables::Both;
use office_tables::tables::{DeleteOwner, InsertOwner, OwnerRow, OwnersOf};
use sqlite::Alter;
use std::alloc::Global;

impl<S: Alter> Office<S> {
    /// Makes a department, 1 to 999, the owner of an exam; 0 removes the owner. `NotLoaded`: there
    /// is no session; then `Refused` with `NoSuch`: there is no such exam.
    pub fn set_owner(&mut self, exam: ExamNo, dept: u32) -> Result<(), StoreFault>
        requires dept { dept ≤ MAX_DEPARTMENT }
        ensures runs { CommandRan S.Store (set_owner_result exam dept) self.old self.new result }
        // Whatever the refusal, the tables are as they were. On `Ok` the database is open, and the
        // change is committed.
        ensures leaves { LeavesNext S.Store (set_owner_result exam dept) self.old self.new result }
    {
        self.check_open()?;
        let Some((instance, _)) = &self.memory.kept else {
            return Err(StoreFault::NotLoaded);
        };
        if exam.get() >= instance.exams() {
            return Err(StoreFault::Refused(Refusal::Edit(EditFault::NoSuch)));
        }
        let exam = exam.get();
        let owner = Both {
            first: DeleteOwner { exam },
            second: new_owner(exam, dept),
        };
        put(&mut self.conn, &owner)?;
        Ok(())
    }

    /// Returns the department that owns an exam; 0 if the exam has no owner or doesn't exist.
    pub fn owner(&mut self, alloc: Global, exam: ExamNo) -> Result<u32, StoreFault>
        ensures reads { QueryReturned S.Store (owner_in exam) self.old self.new result }
        // While it is open, the database is unchanged. On `Ok` memory and the file agree.
        ensures leaves { LeavesUnchanged S.Store self.old self.new result }
    {
        let rows = self.ask(alloc, &OwnersOf { exam: exam.get() })?;
        dept_in(&rows)
    }
}

// Returns the department of an exam's owner; 0 if there is no row. `BadSchema`: there are two.
fn dept_in(rows: &[OwnerRow]) -> Result<u32, StoreFault>
    ensures { (dept : ℕ) → map (λ row. row.dept) rows.now ≡ some_dept dept → result ≡ Ok dept }
{
    match rows {
        [] => Ok(0),
        [row] => Ok(row.dept),
        _ => Err(StoreFault::BadSchema),
    }
}

// Returns the row of an exam's owner; department 0 gives none.
fn new_owner(exam: u32, dept: u32) -> Option<InsertOwner>
    ensures { result ≡ new_owner exam dept }
{
    if dept == 0 {
        return None;
    }
    let row = OwnerRow { exam, dept };
    Some(InsertOwner { row })
}
