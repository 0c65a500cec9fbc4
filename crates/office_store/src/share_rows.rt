// The rows of the publication's shares.
ghost use Rattle.std.specs.Prelude.{IfOk};
ghost use Rattle.sqlite.specs.Held.{state};
ghost use Rattle.sqlite.specs.State.{HasCleanDisk};
ghost use Rattle.office_model.specs.Office.{OfficeState};
ghost use Rattle.office_records.specs.Representation.{RepresentsOffice};
ghost use Rattle.office_store.specs.Leaving.{LeavesUnchanged};
ghost use Rattle.office_store.specs.OfficeRows.{AreShareRowsOf};

use crate::fault::StatementFailed;
use crate::office::Office;
use office_tables::tables::{PartShareRow, PartShares, StudentShareRow, StudentShares};
use sqlite::Alter;
use std::alloc::Global;

// The rows of the shares of candidates, and of exams, periods and rooms.
#[derive(Drop)]
pub(crate) struct ShareRows {
    pub(crate) students: Vec<StudentShareRow>,
    pub(crate) parts: Vec<PartShareRow>,
}

impl<S: Alter> Office<S> {
    // Returns the rows of the shares.
    pub(crate) fn share_rows(&mut self, alloc: Global) -> Result<ShareRows, StatementFailed>
        ensures rows { HasCleanDisk (state S.Store self.new) → (office : OfficeState)
            → RepresentsOffice (state S.Store self.new).now office
            → IfOk result (λ found. AreShareRowsOf office found.students.items found.parts.items) }
        ensures leaves { LeavesUnchanged S.Store self.old self.new result }
    {
        let without_nights = self.memory.has_no_night_weight();
        let students = self.ask(alloc, &StudentShares { without_nights })?;
        let parts = self.ask(alloc, &PartShares)?;
        Ok(ShareRows { students, parts })
    }
}
