// Batches of changes of enrolments.
ghost use Rattle.std.specs.Prelude.{◌≡◌, ◌≤◌, None, Ok};
ghost use Rattle.sqlite.specs.Held.{state};
ghost use Rattle.sqlite.specs.State.{HasCleanDisk};
ghost use Rattle.exam_terms.specs.declared.limits.TheConstants.{MAX_BATCH};
ghost use Rattle.office_batches.specs.BatchText.{batch_in};
ghost use Rattle.office_model.specs.Batches.{batch_enrolled, batch_of_number};
ghost use Rattle.office_model.specs.Office.{OfficeState};
ghost use Rattle.office_records.specs.Representation.{RepresentsOffice};
ghost use Rattle.office_store.specs.NewBatches.{first_counts};
ghost use Rattle.office_store.specs.Leaving.{LeavesNext};
ghost use Rattle.office_store.specs.Running.{IsCommitted, CommandRan};
ghost use Rattle.office_tables.specs.Tables.Batches.{batch_from};

use crate::new_batch::{new_batch, put_batch};
use crate::office::Office;
use exam_model::Change;
use office_batches::read_batch;
use office_enrolment::{batch_leaves_an_office, lines_are_counted};
use office_model::{Counts, StoreFault};
use office_tables::tables::{BatchOf, BatchRow};
use sqlite::Alter;
use std::alloc::Global;

impl<S: Alter> Office<S> {
    /// Carries out a batch of changes of enrolments, line by line, and returns how many pairs were
    /// added, dropped and left unchanged. If a line changes the enrolments, all drafts are scored
    /// again; the publication stays. A batch is carried out once: the same bytes under a kept
    /// number return the counts of the first time. `Refused`: the file is faulty; then `NotLoaded`;
    /// then `BatchDiffers`: other bytes are kept under the number; then `Refused`: a line names an
    /// exam that isn't there; then `TooMany`: after some line there would be more than 200,000
    /// pairs, or 10,000 batches are kept.
    pub fn enrol_batch(
        &mut self,
        alloc: Global,
        number: u32,
        text: &[u8],
    ) -> Result<Counts, StoreFault>
        requires number { number ≤ MAX_BATCH }
        ensures runs { CommandRan S.Store
            (batch_enrolled number text.now) self.old self.new result }
        // Whatever the refusal, the tables are as they were. On `Ok` the database is open, and the
        // batch is committed.
        ensures leaves { LeavesNext S.Store (batch_enrolled number text.now)
            self.old self.new result }
    {
        let changes = match read_batch(alloc, text) {
            Ok(changes) => changes,
            Err(fault) => return Err(StoreFault::of_file(fault)),
        };
        let kept = self.ask(alloc, &BatchOf { no: number })?;
        match kept {
            Some(row) => first_answer(&row, text),
            None => self.enrol_new(alloc, number, text, &changes),
        }
    }

    // Carries out a batch whose number isn't kept, and keeps it.
    fn enrol_new(
        &mut self,
        alloc: Global,
        number: u32,
        text: &[u8],
        changes: &[Change],
    ) -> Result<Counts, StoreFault>
        requires number { number ≤ MAX_BATCH }
        requires spelled { batch_in text.now ≡ Ok changes.now }
        requires is_new { HasCleanDisk (state S.Store self.old) → (office : OfficeState)
            → RepresentsOffice (state S.Store self.old).now office
            → batch_of_number office number ≡ None }
        requires all_committed { HasCleanDisk (state S.Store self.old)
            → IsCommitted (state S.Store self.old) }
        ensures runs { CommandRan S.Store
            (batch_enrolled number text.now) self.old self.new result }
        ensures leaves { LeavesNext S.Store (batch_enrolled number text.now)
            self.old self.new result }
    {
        lines_are_counted();
        batch_leaves_an_office();
        let memory = &self.memory;
        let Some((instance, enrolments)) = &memory.kept else {
            return Err(StoreFault::NotLoaded);
        };
        let new = new_batch(alloc, instance, enrolments, memory, changes)?;
        let counts = new.counts;
        put_batch(&mut self.conn, &new, number, text)?;
        self.memory.apply_batch(new.enrolments, new.rescored);
        Ok(counts)
    }
}

// Returns the counts of a kept batch. `BatchDiffers`: its bytes are not these.
fn first_answer(row: &BatchRow, text: &[u8]) -> Result<Counts, StoreFault>
    ensures { result ≡ first_counts (batch_from row.now) text.now }
{
    if row.bytes.as_slice() != text {
        return Err(StoreFault::BatchDiffers);
    }
    Ok(Counts {
        added: row.added,
        dropped: row.dropped,
        unchanged: row.unchanged,
    })
}
