// Queries of the office's file.
ghost use Rattle.std.specs.Prelude.{IfOk};
ghost use Rattle.sqlite.specs.Held.{state};
ghost use Rattle.sqlite.specs.State.{HasCleanDisk};
ghost use Rattle.office_model.specs.Office.{OfficeState};
ghost use Rattle.office_records.specs.Representation.{RepresentsOffice};
ghost use Rattle.office_store.specs.Leaving.{LeavesUnchanged};

use crate::fault::StatementFailed;
use crate::office::Office;
use office_tables::Query;
use sqlite::Alter;
use std::alloc::Global;

impl<S: Alter> Office<S> {
    // Returns the rows that the file's tables have for a query.
    pub(crate) fn ask<Q: Query>(
        &mut self,
        alloc: Global,
        query: &Q,
    ) -> Result<Q::Rows, StatementFailed>
        ensures rows { HasCleanDisk (state S.Store self.new) → (office : OfficeState)
            → (kept : RepresentsOffice (state S.Store self.new).now office)
            → IfOk result (Q.answers query.now kept.held) }
        ensures leaves { LeavesUnchanged S.Store self.old self.new result }
    {
        self.lemma_at_rest();
        let rows = query.ask(alloc, &mut self.conn)?;
        Ok(rows)
    }
}
