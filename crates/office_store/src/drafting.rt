// Drafts: timetables in the making, with their penalties.
ghost use Rattle.std.specs.Prelude.{◌≡◌, ◌⊎◌, All, Err, IfErr, IfOk, Ok, length, map};
ghost use Rattle.exam_model.specs.Fits.{PlaceExists};
ghost use Rattle.office_store.specs.NewDraft.{Begins};
ghost use Rattle.office_model.specs.DraftCommands.{draft_dropped, draft_made, first_timetable, is_draft_number};
ghost use Rattle.office_store.specs.Leaving.{LeavesNext};
ghost use Rattle.office_store.specs.Running.{CommandRan};
ghost use Rattle.office_records.specs.TableRows.{slots_from};

use crate::office::Office;
use crate::transactions::put;
use exam_model::{Enrolments, ExamNo, Instance, Timetable};
use exam_score::score;
use exam_terms::limits::MAX_DRAFTS;
use office_files::read_solution;
use office_model::StoreFault;
use office_records::{Draft, draft_row};
use office_tables::Both;
use office_tables::tables::{
    DeleteDraft, DeleteSlots, InsertDraft, InsertSlot, InsertSlots, SlotRow,
};
use sqlite::Alter;
use std::alloc::{AllocError, Global};

impl<S: Alter> Office<S> {
    /// Makes a draft with a number from 1 to 8, and returns its penalty. An empty text places no
    /// exam; any other text is a solution file, whose timetable may have breaches. `NotLoaded`;
    /// then `NoDraft`: the number is not from 1 to 8; then `DraftTaken`; then `Refused`: the file
    /// is faulty.
    pub fn new_draft(&mut self, alloc: Global, number: u32, text: &[u8]) -> Result<u64, StoreFault>
        ensures runs { CommandRan S.Store (draft_made number text.now) self.old self.new result }
        // Whatever the refusal, the tables are as they were. On `Ok` the database is open, and the
        // change is committed.
        ensures leaves { LeavesNext S.Store (draft_made number text.now) self.old self.new result }
    {
        self.check_open()?;
        let memory = &self.memory;
        let Some((instance, enrolments)) = &memory.kept else {
            return Err(StoreFault::NotLoaded);
        };
        if !is_draft_number(number) {
            return Err(StoreFault::NoDraft);
        }
        if memory.has_draft(number) {
            return Err(StoreFault::DraftTaken);
        }
        let (begun, slots) = begin(alloc, number, instance, enrolments, text)?;
        let parts = begun.parts;
        let draft = Both {
            first: InsertDraft {
                row: draft_row(number, parts),
            },
            second: InsertSlots { rows: &slots },
        };
        put(&mut self.conn, &draft)?;
        self.memory.put(number, Some(begun));
        Ok(parts.total())
    }

    /// Deletes a draft. `NotLoaded`, then `NoDraft`: no draft has this number.
    pub fn drop_draft(&mut self, number: u32) -> Result<(), StoreFault>
        ensures runs { CommandRan S.Store (draft_dropped number) self.old self.new result }
        // Whatever the refusal, the tables are as they were. On `Ok` the database is open, and the
        // change is committed.
        ensures leaves { LeavesNext S.Store (draft_dropped number) self.old self.new result }
    {
        self.check_open()?;
        if self.memory.kept.is_none() {
            return Err(StoreFault::NotLoaded);
        }
        if !self.memory.has_draft(number) {
            return Err(StoreFault::NoDraft);
        }
        let draft = Both {
            first: DeleteDraft { no: number },
            second: DeleteSlots { draft: number },
        };
        put(&mut self.conn, &draft)?;
        self.memory.put(number, None);
        Ok(())
    }
}

fn is_draft_number(number: u32) -> bool
    ensures { result ≡ is_draft_number number }
{
    (1..=MAX_DRAFTS).contains(&number)
}

// Returns a new draft, and the rows of its places.
fn begin(
    alloc: Global,
    number: u32,
    instance: &Instance,
    enrolments: &Enrolments,
    text: &[u8],
) -> Result<(Draft, Vec<InsertSlot>), StoreFault>
    requires together { length enrolments.now ≡ length instance.now.exams }
    ensures ok { IfOk result (λ begun.
        Begins number text.now instance.now enrolments.now begun.0
        (map (λ it. it.row) begun.1.items)) }
    ensures err { IfErr result (λ e. (e ≡ StoreFault.Store)
        ⊎ (first_timetable text.now instance.now ≡ Err e)) }
{
    let timetable = first_timetable(alloc, instance, text)?;
    let parts = score(alloc, instance, enrolments, &timetable)?;
    let slots = slot_rows(alloc, number, &timetable)?;
    Ok((Draft { timetable, parts }, slots))
}

fn first_timetable(alloc: Global, instance: &Instance, text: &[u8]) -> Result<Timetable, StoreFault>
    ensures ok { IfOk result (λ t. first_timetable text.now instance.now ≡ Ok t) }
    ensures err { IfErr result (λ e. (e ≡ StoreFault.Store)
        ⊎ (first_timetable text.now instance.now ≡ Err e)) }
    ensures exams { IfOk result (λ t. length t ≡ length instance.now.exams) }
    ensures places { IfOk result (All (PlaceExists instance.now)) }
{
    if text.is_empty() {
        let empty = Timetable::new(alloc, instance.exams())?;
        return Ok(empty);
    }
    match read_solution(alloc, text, instance) {
        Ok(timetable) => Ok(timetable),
        Err(fault) => Err(StoreFault::of_file(fault)),
    }
}

// Returns the rows of the placed exams, by exam.
fn slot_rows(
    alloc: Global,
    draft: u32,
    timetable: &Timetable,
) -> Result<Vec<InsertSlot>, AllocError>
    ensures { IfOk result (λ rows. map (λ it. it.row) rows.items
        ≡ slots_from draft 0 timetable.now) }
{
    let mut rows = Vec::new(alloc);
    for exam in 0..timetable.exams() {
        if let Some(place) = timetable.get(ExamNo::new(exam)) {
            let row = SlotRow {
                draft,
                exam,
                period: place.period.get(),
                room: place.room.get(),
            };
            rows.push(InsertSlot { row })?;
        }
    }
    Ok(rows)
}
