// The publication, and its shares of the penalty.
ghost use Rattle.std.specs.Prelude.{◌≡◌, IfOk, Some};
ghost use Rattle.sqlite.specs.Held.{state};
ghost use Rattle.sqlite.specs.State.{HasCleanDisk};
ghost use Rattle.office_model.specs.Office.{AreRecords, OfficeState, Records};
ghost use Rattle.office_records.specs.SharesStored.{AreShared};
ghost use Rattle.office_store.specs.Leaving.{LeavesUnchanged};
ghost use Rattle.office_store.specs.Memory.{priced_in};
ghost use Rattle.office_store.specs.Publications.{AddUpIn, plain, publication_shown, shares_in};
ghost use Rattle.office_store.specs.Publications.{timetable_shown};
ghost use Rattle.office_store.specs.Running.{Represents, QueryReturned, ReturnsValue};

use crate::office::Office;
use crate::share_rows::ShareRows;
use exam_model::{Instance, Timetable};
use exam_publish::{SeatRow, Shares};
use exam_score::Parts;
use office_model::StoreFault;
use office_records::shares_of;
use sqlite::Alter;
use std::alloc::Global;

impl<S: Alter> Office<S> {
    /// Returns the published timetable with its seat rows, by exam and then by student. `None`:
    /// nothing is published.
    pub fn publication(
        &mut self,
        alloc: Global,
    ) -> Result<Option<(Timetable, Vec<SeatRow>)>, StoreFault>
        ensures reads { QueryReturned S.Store publication_shown self.old self.new (plain result) }
        // While it is open, the database is unchanged. On `Ok` memory and the file agree.
        ensures leaves { LeavesUnchanged S.Store self.old self.new result }
    {
        self.check_open()?;
        let Some((timetable, rows)) = &self.memory.published else {
            return Ok(None);
        };
        let timetable = timetable.copy(alloc)?;
        let rows = Vec::from_slice(alloc, rows)?;
        Ok(Some((timetable, rows)))
    }

    /// Returns only the published timetable. `None`: nothing is published.
    pub fn published_timetable(&mut self, alloc: Global) -> Result<Option<Timetable>, StoreFault>
        ensures reads { QueryReturned S.Store timetable_shown self.old self.new result }
        // While it is open, the database is unchanged. On `Ok` memory and the file agree.
        ensures leaves { LeavesUnchanged S.Store self.old self.new result }
    {
        self.check_open()?;
        let Some((timetable, _)) = &self.memory.published else {
            return Ok(None);
        };
        let timetable = timetable.copy(alloc)?;
        Ok(Some(timetable))
    }

    /// Returns the penalty of the publication with the enrolments at that time, from memory. `None`:
    /// nothing is published.
    pub fn publication_penalty(&mut self) -> Result<Option<Parts>, StoreFault>
        ensures reads { QueryReturned S.Store priced_in self.old self.new result }
        // While it is open, the database is unchanged. On `Ok` memory and the file agree.
        ensures leaves { LeavesUnchanged S.Store self.old self.new result }
    {
        self.check_open()?;
        Ok(self.memory.priced)
    }

    /// Returns each candidate's, exam's, period's and room's share of the publication's penalty.
    /// `None`: nothing is published.
    pub fn shares(&mut self, alloc: Global) -> Result<Option<Shares>, StoreFault>
        ensures reads { QueryReturned S.Store shares_in self.old self.new result }
        // The shares add up to the penalty of the publication.
        ensures add_up { HasCleanDisk (state S.Store self.new) → (office : OfficeState)
            → Represents (state S.Store self.old) office → IfOk result (AddUpIn office) }
        // While it is open, the database is unchanged. On `Ok` memory and the file agree.
        ensures leaves { LeavesUnchanged S.Store self.old self.new result }
    {
        let found = self.share_rows(alloc)?;
        let Some((instance, _)) = &self.memory.kept else {
            return Ok(None);
        };
        shared_of(alloc, instance, &found)
    }
}

// Returns the shares of the publication of the session in memory, from their rows.
fn shared_of(
    alloc: Global,
    instance: &Instance,
    found: &ShareRows,
) -> Result<Option<Shares>, StoreFault>
    ensures meaning { (r : Records) → AreRecords r → r.session ≡ instance.now
        → AreShared r.session r.published found.now.students.items found.now.parts.items
        → ReturnsValue (shares_in (Some r)) result }
{
    // a publication has a share for each exam
    if found.parts.is_empty() {
        return Ok(None);
    }
    let shares = shares_of(alloc, instance, &found.students, &found.parts)?;
    Ok(Some(shares))
}
