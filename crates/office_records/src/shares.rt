// The shares of a publication that rows represent.
ghost use Rattle.std.specs.Prelude.{◌≡◌, ◌↔◌, IfErr, IfOk, IsTrue, OnOk, Some};
ghost use Rattle.exam_publish.specs.Rows.{ArePublishedRows};
ghost use Rattle.exam_publish.specs.Shares.{shares_of};
ghost use Rattle.office_model.specs.Office.{IsPublication, Publication};
ghost use Rattle.office_records.specs.FoundPublications.{publication};
ghost use Rattle.office_records.specs.PartShares.{HasShareOfEach};
ghost use Rattle.office_records.specs.SharesStored.{AreShared, AreSharesOf};

use crate::fault::RecordFault;
use crate::part_shares::{PartKind, part_share_rows, parts_in_order, plain_shares, room_shares};
use crate::student_shares::{personal_shares, student_share_rows, students_in_order};
use exam_model::{Instance, Timetable};
use exam_publish::{SeatRow, Shares, shares};
use office_tables::tables::{PartShareRow, StudentShareRow};
use std::alloc::Global;

// Returns `Ok` if these rows are the shares of a publication; else `BadRows`.
pub(crate) fn check_shares(
    alloc: Global,
    instance: &Instance,
    timetable: &Timetable,
    rows: &[SeatRow],
    students: &[StudentShareRow],
    parts: &[PartShareRow],
) -> Result<(), RecordFault>
    requires { ArePublishedRows instance.now rows.now timetable.now }
    ensures are { OnOk result (AreShared instance.now (Some (publication timetable.now rows.now))
        students.now parts.now) }
    ensures none { IfErr result (λ e. e ≡ RecordFault.BadRows
        → AreShared instance.now (Some (publication timetable.now rows.now)) students.now parts.now
        → ⊥) }
{
    instance.lemma_limits();
    let own = shares(alloc, instance, rows, timetable)?;
    let own_students = student_share_rows(alloc, &own)?;
    let own_parts = part_share_rows(alloc, &own)?;
    let students = students_in_order(alloc, students)?;
    let parts = parts_in_order(alloc, parts)?;
    if are_same(&students, &own_students, &parts, &own_parts) {
        Ok(())
    } else {
        Err(RecordFault::BadRows)
    }
}

// Returns whether these are the same rows one by one.
fn are_same(
    students: &[StudentShareRow],
    own_students: &[StudentShareRow],
    parts: &[PartShareRow],
    own_parts: &[PartShareRow],
) -> bool
    ensures { IsTrue result
        ↔ ((students.now ≡ own_students.now) × (parts.now ≡ own_parts.now)) }
{
    students == own_students && parts == own_parts
}

/// Returns the shares of a session's publication with these rows. `BadRows`: no shares have them.
pub fn shares_of(
    alloc: Global,
    instance: &Instance,
    students: &[StudentShareRow],
    parts: &[PartShareRow],
) -> Result<Shares, RecordFault>
    ensures are { IfOk result (AreSharesOf students.now parts.now) }
    ensures fits { IfOk result (HasShareOfEach instance.now) }
    // No publication has these rows for other shares.
    ensures only { IfOk result (λ shares. (p : Publication)
        → AreShared instance.now (Some p) students.now parts.now
        → shares ≡ shares_of instance.now p.rows p.timetable) }
    ensures none { IfErr result (λ e. e ≡ RecordFault.BadRows → (p : Publication)
        → IsPublication instance.now p → AreShared instance.now (Some p) students.now parts.now
        → ⊥) }
{
    let exams = instance.exams() as usize;
    let periods = instance.periods() as usize;
    let rooms = instance.rooms() as usize;
    let students = students_in_order(alloc, students)?;
    let parts = parts_in_order(alloc, parts)?;
    if parts.len() != exams + periods + rooms {
        return Err(RecordFault::BadRows);
    }
    let personal = personal_shares(alloc, &students)?;
    let (of_exams, others) = parts.split_at(exams);
    let (of_periods, of_rooms) = others.split_at(periods);
    let exam_shares = plain_shares(alloc, of_exams, PartKind::Exam)?;
    let period_shares = plain_shares(alloc, of_periods, PartKind::Period)?;
    let room_shares = room_shares(alloc, of_rooms)?;
    Ok(Shares::of(personal, exam_shares, period_shares, room_shares))
}
