// Rows of drafts, and the drafts that they represent.
ghost use Rattle.std.specs.Prelude.{◌≡◌, ◌≢◌, ◌≤◌, ◌↔◌, ◌==◌, ℕ, length};
ghost use Rattle.std.specs.Prelude.{All, IfErr, IfOk, IsTrue, None, Option};
ghost use Rattle.std.specs.List.{list_all, list_any};
ghost use Rattle.exam_terms.specs.declared.limits.TheConstants.{MAX_DRAFTS};
ghost use Rattle.exam_model.specs.Timetable.{Placing};
ghost use Rattle.exam_score.specs.Track.{track};
ghost use Rattle.office_tables.specs.Tables.Draft.{AreAmounts};
ghost use Rattle.office_records.specs.Found.{AreDrafts, AreSlots};
ghost use Rattle.office_records.specs.Memory.{AreScoredDrafts, draft_at, with_penalty};
ghost use Rattle.office_records.specs.Representation.{parts_of};

use crate::fault::RecordFault;
use crate::timetable::timetable_of;
use exam_model::{Enrolments, Instance, Timetable};
use exam_score::{Parts, score};
use exam_terms::limits::MAX_DRAFTS;
use office_tables::tables::{DraftRow, SlotRow};
use std::alloc::Global;

/// A draft with its penalty.
#[derive(Drop)]
pub struct Draft {
    pub timetable: Timetable,
    pub parts: Parts,
}

/// The number of indexes of drafts: 0, which no draft has, and 1 to 8.
pub const NUMBERS: usize = MAX_DRAFTS as usize + 1;

/// Drafts, each at its number's index.
pub type Drafts = [Option<Draft>; NUMBERS];

/// Returns no draft under any number.
pub fn no_drafts() -> Drafts
    ensures none { (d : ℕ) → draft_at result d ≡ None }
    ensures size { length result ≡ 9 }
{
    [None, None, None, None, None, None, None, None, None]
}

// Returns the drafts that these rows represent, among the rows of all places. `BadRows`: they
// represent none, or a penalty is wrong.
pub(crate) fn drafts_of(
    alloc: Global,
    instance: &Instance,
    enrolments: &Enrolments,
    rows: &[DraftRow],
    slots: &[SlotRow],
) -> Result<Drafts, RecordFault>
    requires exams { length enrolments.now ≡ length instance.now.exams }
    ensures are { IfOk result (λ drafts. (draft : ℕ → Option Placing)
        × AreDrafts instance.now enrolments.now rows.now slots.now draft
        × AreScoredDrafts instance.now enrolments.now draft drafts) }
    ensures none { IfErr result (λ e. e ≡ RecordFault.BadRows → (draft : ℕ → Option Placing)
        → AreDrafts instance.now enrolments.now rows.now slots.now draft → ⊥) }
{
    let mut drafts = no_drafts();
    'rows: for (at, row) in rows.iter().enumerate() {
        if !is_next(row.no, &rows[..at]) {
            return Err(RecordFault::BadRows);
        }
        let draft = draft_of(alloc, instance, enrolments, row, slots)?;
        drafts[row.no as usize] = Some(draft);
    }
    if are_of_drafts(slots, rows) {
        Ok(drafts)
    } else {
        Err(RecordFault::BadRows)
    }
}

// Returns whether a draft after these may have this number.
fn is_next(no: u32, earlier: &[DraftRow]) -> bool
    ensures { IsTrue result
        ↔ ((1 ≤ no) × (no ≤ MAX_DRAFTS) × All (λ row. row.no ≢ no) earlier.now) }
{
    let exists = 1 <= no && no <= MAX_DRAFTS;
    exists && earlier.iter().all(|row| row.no != no)
}

// Returns whether each slot is of a draft that has a row.
fn are_of_drafts(slots: &[SlotRow], rows: &[DraftRow]) -> bool
    ensures { result
        ≡ list_all (λ slot. list_any (λ row. row.no == slot.draft) rows.now) slots.now }
{
    slots.iter().all(|slot| has_row(slot.draft, rows))
}

fn has_row(draft: u32, rows: &[DraftRow]) -> bool
    ensures { result ≡ list_any (λ row. row.no == draft) rows.now }
{
    rows.iter().any(|row| row.no == draft)
}

// Returns the draft of a row. `BadRows`: its slots are no timetable, or the row doesn't store that
// timetable's penalty.
fn draft_of(
    alloc: Global,
    instance: &Instance,
    enrolments: &Enrolments,
    row: &DraftRow,
    slots: &[SlotRow],
) -> Result<Draft, RecordFault>
    requires exams { length enrolments.now ≡ length instance.now.exams }
    ensures is { IfOk result (λ draft. AreSlots instance.now row.now.no slots.now draft.timetable
        × (parts_of row.now ≡ track instance.now enrolments.now draft.timetable)) }
    ensures scored { IfOk result
        (λ draft. draft ≡ with_penalty instance.now enrolments.now draft.timetable) }
    ensures none { IfErr result (λ e. e ≡ RecordFault.BadRows → (T : Placing)
        → AreSlots instance.now row.now.no slots.now T
        → parts_of row.now ≡ track instance.now enrolments.now T → ⊥) }
{
    let timetable = timetable_of(alloc, instance, row.no, slots)?;
    let parts = score(alloc, instance, enrolments, &timetable)?;
    if are_parts(row, &parts) {
        Ok(Draft { timetable, parts })
    } else {
        Err(RecordFault::BadRows)
    }
}

// Returns whether a draft's row stores these parts.
fn are_parts(row: &DraftRow, parts: &Parts) -> bool
    ensures { IsTrue result ↔ (parts_of row.now ≡ parts.now) }
{
    row.in_row == parts.row()
        && row.in_day == parts.day()
        && row.spread == parts.spread()
        && row.night == parts.night()
        && row.mixed == parts.mixed()
        && row.front == parts.front()
        && row.period == parts.period()
        && row.room == parts.room()
}

/// Returns the row that stores a draft's penalty.
pub fn draft_row(number: u32, parts: Parts) -> DraftRow
    ensures number { result.no ≡ number }
    ensures parts { parts_of result ≡ parts }
    ensures amounts { AreAmounts result }
{
    DraftRow {
        no: number,
        in_row: parts.row(),
        in_day: parts.day(),
        spread: parts.spread(),
        mixed: parts.mixed(),
        front: parts.front(),
        period: parts.period(),
        room: parts.room(),
        night: parts.night(),
    }
}
