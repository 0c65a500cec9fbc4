// Publishing a draft.
ghost use Rattle.office_model.specs.Publishing.{draft_published};
ghost use Rattle.office_store.specs.Leaving.{LeavesNext};
ghost use Rattle.office_store.specs.Running.{CommandRan};

use crate::new_publication::new_publication;
use crate::office::Office;
use crate::transactions::put;
use office_model::{Published, StoreFault};
use sqlite::Alter;
use std::alloc::Global;

impl<S: Alter> Office<S> {
    /// Publishes a draft's timetable, with a seat for each live enrolment, in place of the present
    /// publication; an exam that isn't moved keeps its seats. Returns how many candidates' seat
    /// rows changed, and the penalty. `NotLoaded`; then `NoDraft`: no draft has this number; then
    /// `Refused`: an exam has no place, or a hard rule is broken.
    pub fn publish(&mut self, alloc: Global, number: u32) -> Result<Published, StoreFault>
        ensures runs { CommandRan S.Store (draft_published number) self.old self.new result }
        // Whatever the refusal, the tables are as they were. On `Ok` the database is open, and the
        // change is committed.
        ensures leaves { LeavesNext S.Store (draft_published number) self.old self.new result }
    {
        self.check_open()?;
        let (writes, published, penalty) = new_publication(alloc, &self.memory, number)?;
        put(&mut self.conn, &writes)?;
        self.memory.publish(published, penalty);
        Ok(writes.counts)
    }
}
