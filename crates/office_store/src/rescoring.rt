// The drafts in memory, rescored after a change of enrolments.
ghost use Rattle.std.specs.Prelude.{◌≡◌, ◌++◌, [], ◌∷◌, All, IfOk, IfSome, None, OnOk, Some, length, map, option_map};
ghost use Rattle.exam_model.specs.Fits.{Suits};
ghost use Rattle.exam_score.specs.Rescoring.{OthersUnchanged};
ghost use Rattle.exam_score.specs.Track.{track};
ghost use Rattle.office_tables.specs.Tables.Draft.{AreAmounts};
ghost use Rattle.office_tables.specs.declared.tables.draft.DraftRow.{DraftRow};
ghost use Rattle.office_records.specs.Representation.{parts_of};
ghost use Rattle.office_records.specs.Memory.{AreSuited};
ghost use Rattle.office_store.specs.Memory.{AreDraftRows, AreRescored, AreScored, rescored_draft};

use exam_model::{Enrolments, Instance, StudentNo};
use exam_score::rescore;
use office_records::{Draft, Drafts, NUMBERS, draft_row, no_drafts};
use office_tables::tables::InsertDraft;
use std::alloc::{AllocError, Global};

// Returns the drafts with their penalties by the enrolments after a change, if they have those by
// the enrolments before it. The list has every student whose exams changed.
pub(crate) fn rescored_drafts(
    alloc: Global,
    instance: &Instance,
    before: &Enrolments,
    after: &Enrolments,
    students: &[StudentNo],
    drafts: &Drafts,
) -> Result<Drafts, AllocError>
    requires before { length before.now ≡ length instance.now.exams }
    requires after { length after.now ≡ length instance.now.exams }
    requires others { OthersUnchanged students.now before.now after.now }
    requires suited { AreSuited instance.now drafts.now }
    ensures suited { IfOk result (AreSuited instance.now) }
    ensures rescored { AreScored instance.now before.now drafts.now
        → IfOk result (AreRescored instance.now after.now drafts.now) }
{
    let mut made = no_drafts();
    'numbers: for number in 0..NUMBERS {
        let draft = &drafts[number];
        made[number] = rescored_draft(alloc, instance, before, after, students, draft)?;
    }
    Ok(made)
}

// Returns a draft, if there is one, with its penalty by the enrolments after a change.
fn rescored_draft(
    alloc: Global,
    instance: &Instance,
    before: &Enrolments,
    after: &Enrolments,
    students: &[StudentNo],
    draft: &Option<Draft>,
) -> Result<Option<Draft>, AllocError>
    requires before { length before.now ≡ length instance.now.exams }
    requires after { length after.now ≡ length instance.now.exams }
    requires others { OthersUnchanged students.now before.now after.now }
    requires suits { IfSome draft.now (λ draft. Suits instance.now draft.timetable) }
    ensures suits { IfOk result (λ made.
        IfSome made (λ draft. Suits instance.now draft.timetable)) }
    ensures rescored { IfSome draft.now
        (λ draft. draft.parts ≡ track instance.now before.now draft.timetable)
        → IfOk result (λ made.
        made ≡ option_map (rescored_draft instance.now after.now) draft.now) }
{
    let Some(draft) = draft else {
        return Ok(None);
    };
    let timetable = draft.timetable.copy(alloc)?;
    let old = draft.parts;
    let parts = rescore(alloc, instance, before, after, students, &timetable, old)?;
    Ok(Some(Draft { timetable, parts }))
}

// Returns the rows of the drafts, by number.
pub(crate) fn draft_inserts(alloc: Global, drafts: &Drafts) -> Result<Vec<InsertDraft>, AllocError>
    ensures rows { IfOk result
        (λ put. AreDraftRows drafts.now (map (λ it. it.row) put.items)) }
    ensures small { IfOk result (λ put. All (λ it. AreAmounts it.row) put.items) }
{
    let mut rows = Vec::new(alloc);
    'numbers: for number in 0..NUMBERS {
        add_row(&mut rows, number as u32, &drafts[number])?;
    }
    Ok(rows)
}

// Adds the row of a draft, if there is one.
fn add_row(
    rows: &mut Vec<InsertDraft>,
    number: u32,
    draft: &Option<Draft>,
) -> Result<(), AllocError>
    ensures none { draft.now ≡ None → OnOk result (rows.new.items ≡ rows.old.items) }
    ensures some { (x : Draft) → draft.now ≡ Some x → OnOk result ((row : DraftRow)
        × (rows.new.items ≡ rows.old.items ++ (record { row = row } ∷ [])) × (row.no ≡ number)
        × (parts_of row ≡ x.parts) × AreAmounts row) }
{
    let Some(draft) = draft else {
        return Ok(());
    };
    let row = draft_row(number, draft.parts);
    rows.push(InsertDraft { row })?;
    Ok(())
}
