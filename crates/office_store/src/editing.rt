// Edits of drafts.
ghost use Rattle.std.specs.Prelude.{◌≡◌, ◌⊎◌, ◌<◌, ℕ, length, map, All, Err, IfErr, IfOk, Ok, OnOk, Some};
ghost use Rattle.sqlite.specs.Held.{state};
ghost use Rattle.sqlite.specs.State.{HasCleanDisk};
ghost use Rattle.exam_model.specs.Enrolments.{Enrolled};
ghost use Rattle.exam_model.specs.Fits.{Fits, Suits};
ghost use Rattle.exam_model.specs.Instance.{Session};
ghost use Rattle.exam_draft.specs.Edits.{edit_result};
ghost use Rattle.exam_draft.specs.Judged.{IsEditedAt, edited_exams};
ghost use Rattle.office_model.specs.Office.{OfficeState, Records};
ghost use Rattle.office_records.specs.Memory.{memory_of, scored_draft};
ghost use Rattle.office_records.specs.Representation.{RepresentsOffice};
ghost use Rattle.office_model.specs.Commands.{renamed_fault};
ghost use Rattle.office_model.specs.DraftCommands.{draft_edited};
ghost use Rattle.office_store.specs.Changes.{move_writes, new_place};
ghost use Rattle.office_store.specs.Editing.{Edits, Judges};
ghost use Rattle.office_store.specs.FoldReads.{LeavesRows};
ghost use Rattle.office_store.specs.Leaving.{LeavesNext};
ghost use Rattle.office_store.specs.Memory.{IsMemoryOf, IsConsistent};
ghost use Rattle.office_store.specs.Running.{IsCommitted, CommandRan};

use crate::folding::penalty_after;
use crate::memory::OfficeMemory;
use crate::office::Office;
use crate::transactions::put;
use exam_draft::{Edit, judge};
use exam_model::{Enrolments, ExamNo, Instance, Place, Timetable};
use office_model::{Refusal, StoreFault};
use office_records::{Draft, draft_row};
use office_tables::tables::{DeleteDraft, DeleteSlot, InsertDraft, InsertSlot, SlotRow};
use office_tables::{Both, Each};
use sqlite::{Alter, Connection};
use std::alloc::{AllocError, Global};

// A draft before an edit, its timetable after the edit, and the edited exams.
#[derive(Drop)]
pub(crate) struct EditedTimetable<'a> {
    pub(crate) draft: &'a Draft,
    pub(crate) new: Timetable,
    pub(crate) exams: Vec<ExamNo>,
}

// A draft after an edit, and the writes of the edited exams' places.
#[derive(Drop)]
pub(crate) struct EditedDraft {
    pub(crate) draft: Draft,
    pub(crate) places: Vec<PlaceWrites>,
}

impl<S: Alter> Office<S> {
    /// Edits a draft, and returns its penalty. `NotLoaded`, then `NoDraft`: no draft has this
    /// number, then `Refused` with the edit's own fault.
    pub fn edit(&mut self, alloc: Global, number: u32, edit: Edit) -> Result<u64, StoreFault>
        ensures runs { CommandRan S.Store (draft_edited number edit) self.old self.new result }
        // Whatever the refusal, the tables are as they were. On `Ok` the database is open, and the
        // change is committed.
        ensures leaves { LeavesNext S.Store (draft_edited number edit) self.old self.new result }
    {
        self.check_open()?;
        let new = edited_draft(alloc, &mut self.conn, &self.memory, number, edit)?;
        let EditedDraft { draft, places } = new;
        let parts = draft.parts;
        let row = Both {
            first: DeleteDraft { no: number },
            second: InsertDraft {
                row: draft_row(number, parts),
            },
        };
        put(
            &mut self.conn,
            &Both {
                first: row,
                second: Each {
                    alterations: &places,
                },
            },
        )?;
        self.memory.put(number, Some(draft));
        Ok(parts.total())
    }
}

// Returns a draft in memory after an edit.
fn edited_draft<S: Alter>(
    alloc: Global,
    conn: &mut Connection<S>,
    memory: &OfficeMemory,
    number: u32,
    edit: Edit,
) -> Result<EditedDraft, StoreFault>
    requires together { IsConsistent memory.now }
    ensures edits { HasCleanDisk (state S.Store conn.new) → IsCommitted (state S.Store conn.old)
        → (office : OfficeState) → RepresentsOffice (state S.Store conn.old).now office
        → IsMemoryOf office memory.now → Edits number edit office result }
    ensures places { IfOk result (λ new. new.places.items
        ≡ map (new_place number new.draft.timetable) (edited_exams edit)) }
    ensures suits { IfOk result (λ new. (I : Session) (E : Enrolled)
        → memory.now.kept ≡ Some (I, E) → Suits I new.draft.timetable) }
    ensures leaves { LeavesRows S.Store conn.old conn.new result }
{
    let Some((instance, enrolments)) = &memory.kept else {
        return Err(StoreFault::NotLoaded);
    };
    let Some(draft) = memory.draft(number) else {
        return Err(StoreFault::NoDraft);
    };
    let judged = timetable_after_edit(alloc, instance, enrolments, draft, edit)?;
    let places = new_places(alloc, number, &judged.new, &judged.exams)?;
    let parts = penalty_after(alloc, conn, instance, enrolments, &judged)?;
    let draft = Draft {
        timetable: judged.new,
        parts,
    };
    Ok(EditedDraft { draft, places })
}

// Returns a draft of the session in memory with its timetable after an edit.
fn timetable_after_edit<'a>(
    alloc: Global,
    instance: &Instance,
    enrolments: &Enrolments,
    draft: &'a Draft,
    edit: Edit,
) -> Result<EditedTimetable<'a>, StoreFault>
    requires fits { Fits instance.now enrolments.now draft.now.timetable }
    ensures meaning { (d : ℕ) (r : Records)
        → memory_of (Some r) ≡ Some (instance.now, enrolments.now)
        → scored_draft d (Some r) ≡ Some draft.now → Judges d edit r result }
    ensures of { IfOk result (λ judged. judged.exams.items ≡ edited_exams edit) }
    ensures kept { IfOk result (λ judged. IsEditedAt instance.now enrolments.now
        judged.draft.now.timetable (edited_exams edit) judged.new) }
{
    let new = new_timetable(alloc, instance, enrolments, &draft.timetable, edit)?;
    let exams = edit.exams(alloc)?;
    Ok(EditedTimetable { draft, new, exams })
}

// Returns the timetable after an edit, or the edit's own refusal.
fn new_timetable(
    alloc: Global,
    instance: &Instance,
    enrolments: &Enrolments,
    old: &Timetable,
    edit: Edit,
) -> Result<Timetable, StoreFault>
    requires fits { Fits instance.now enrolments.now old.now }
    ensures ok { IfOk result
        (λ new. edit_result instance.now enrolments.now old.now edit ≡ Ok new) }
    ensures err { IfErr result (λ e. (e ≡ StoreFault.Store)
        ⊎ (renamed_fault (λ f. StoreFault.Refused (Refusal.Edit f))
        (edit_result instance.now enrolments.now old.now edit) ≡ Err e)) }
    ensures kept { IfOk result (IsEditedAt instance.now enrolments.now old.now
        (edited_exams edit)) }
{
    match judge(alloc, instance, enrolments, old, edit) {
        Ok(new) => Ok(new),
        Err(fault) => Err(StoreFault::of_edit(fault)),
    }
}

// Returns the writes that replace the places of these exams in a draft by those of the new
// timetable.
fn new_places(
    alloc: Global,
    draft: u32,
    timetable: &Timetable,
    exams: &[ExamNo],
) -> Result<Vec<PlaceWrites>, AllocError>
    requires exist { All (λ e. e < length timetable.now) exams.now }
    ensures { IfOk result (λ places. places.items ≡ map (new_place draft timetable.now) exams.now) }
{
    let mut places = Vec::new(alloc);
    for exam in exams {
        places.push(move_writes(draft, *exam, timetable.get(*exam)))?;
    }
    Ok(places)
}

// The writes that delete an exam's place in a draft and insert the new one, if there is one.
pub(crate) type PlaceWrites = Both<DeleteSlot, Option<InsertSlot>>;

fn move_writes(draft: u32, exam: ExamNo, place: Option<Place>) -> PlaceWrites
    ensures { result ≡ move_writes draft exam place }
{
    let exam = exam.get();
    Both {
        first: DeleteSlot { draft, exam },
        second: place.map(|at| InsertSlot {
            row: SlotRow {
                draft,
                exam,
                period: at.period.get(),
                room: at.room.get(),
            },
        }),
    }
}
