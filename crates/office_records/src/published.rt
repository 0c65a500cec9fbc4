// Rows of a publication and of its shares.
ghost use Rattle.std.specs.Prelude.{◌≡◌, IfErr, IfOk, None, OnOk, Option};
ghost use Rattle.exam_model.specs.Instance.{Session};
ghost use Rattle.office_model.specs.Office.{Publication};
ghost use Rattle.office_records.specs.Found.{ArePublication};
ghost use Rattle.office_records.specs.FoundPublications.{AreFound, ArePublished, publication_from};
ghost use Rattle.office_records.specs.SharesStored.{AreShared};

use crate::fault::RecordFault;
use crate::publication::{check_publication, publication_of};
use crate::shares::check_shares;
use exam_model::{Instance, Timetable};
use exam_publish::SeatRow;
use office_tables::tables::{Found, PartShareRow, StudentShareRow};
use std::alloc::Global;

// Returns the publication of a session with these rows of a publication and its shares; `None` if
// nothing is published. `BadRows`: no publication has these rows.
pub(crate) fn published_of(
    alloc: Global,
    instance: &Instance,
    found: &Found,
) -> Result<Option<(Timetable, Vec<SeatRow>)>, RecordFault>
    ensures are { IfOk result (λ published. ArePublication instance.now found.now.meta.published
        found.now.placements.items found.now.seats.items found.now.student_shares.items
        found.now.part_shares.items (publication_from published)) }
    ensures found { IfOk result (λ published. AreFound instance.now (publication_from published)) }
    ensures none { IfErr result (λ e. e ≡ RecordFault.BadRows → (published : Option Publication)
        → ArePublication instance.now found.now.meta.published found.now.placements.items
        found.now.seats.items found.now.student_shares.items found.now.part_shares.items published
        → ⊥) }
{
    let mark = found.meta.published;
    let published = publication_of(alloc, instance, mark, &found.placements, &found.seats)?;
    check_published(alloc, instance, &published, found)?;
    Ok(published)
}

// Returns `Ok` if a publication breaks no rule and the rows of shares are its shares; else
// `BadRows`.
fn check_published(
    alloc: Global,
    instance: &Instance,
    published: &Option<(Timetable, Vec<SeatRow>)>,
    found: &Found,
) -> Result<(), RecordFault>
    requires { AreFound instance.now (publication_from published.now) }
    ensures valid { OnOk result (ArePublished instance.now (publication_from published.now)) }
    ensures shared { OnOk result (AreShared instance.now (publication_from published.now)
        found.now.student_shares.items found.now.part_shares.items) }
    ensures none { IfErr result (λ e. e ≡ RecordFault.BadRows
        → ArePublished instance.now (publication_from published.now)
        → AreShared instance.now (publication_from published.now) found.now.student_shares.items
        found.now.part_shares.items → ⊥) }
{
    let students = found.student_shares.as_slice();
    let parts = found.part_shares.as_slice();
    match published {
        Some((timetable, rows)) => {
            check_publication(alloc, instance, timetable, rows)?;
            check_shares(alloc, instance, timetable, rows, students, parts)
        }
        None => check_no_shares(students, parts),
    }
}

// Returns `Ok` if there are no shares, as required if nothing is published.
fn check_no_shares(students: &[StudentShareRow], parts: &[PartShareRow]) -> Result<(), RecordFault>
    ensures are { OnOk result ((I : Session) → AreShared I None students.now parts.now) }
    ensures none { IfErr result (λ e. (I : Session) → AreShared I None students.now parts.now → ⊥) }
{
    if students.is_empty() && parts.is_empty() {
        Ok(())
    } else {
        Err(RecordFault::BadRows)
    }
}
