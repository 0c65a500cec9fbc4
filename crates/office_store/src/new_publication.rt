// The writes of a publication.
ghost use Rattle.std.specs.Prelude.{◌≡◌, ℕ, All, IfErr, IfOk, None, OnOk, Some, length, map};
ghost use Rattle.exam_model.specs.Enrolments.{Enrolled, IsAscending};
ghost use Rattle.exam_model.specs.Fits.{Fits};
ghost use Rattle.exam_model.specs.Instance.{Session};
ghost use Rattle.exam_publish.specs.AddUp.{AreSmall};
ghost use Rattle.exam_publish.specs.Permit.{publish_refusal};
ghost use Rattle.exam_publish.specs.Rows.{ArePublishedRows, RowsInOrder};
ghost use Rattle.exam_score.specs.Penalty.{total_of};
ghost use Rattle.office_model.specs.Office.{OfficeState, Records};
ghost use Rattle.office_model.specs.Publishing.{draft_published};
ghost use Rattle.office_records.specs.FoundPublications.{AreFound, publication_from};
ghost use Rattle.office_records.specs.Memory.{memory_of};
ghost use Rattle.office_records.specs.Publications.{stored_seat};
ghost use Rattle.office_records.specs.SeatsStored.{rows_beside};
ghost use Rattle.office_records.specs.PartShares.{HasFewParts, part_rows};
ghost use Rattle.office_records.specs.SharesStored.{student_share_row};
ghost use Rattle.office_store.specs.Memory.{IsMemoryOf, IsConsistent};
ghost use Rattle.office_store.specs.NewPublications.{AreInserted, AreSmallShares, InsertsOrRefuses};
ghost use Rattle.office_store.specs.NewPublications.{candidates_before};
ghost use Rattle.office_store.specs.RowPuts.{part_share_put, seat_gone, seat_put};
ghost use Rattle.office_store.specs.RowPuts.{deleted_share, student_share_put};
ghost use Rattle.office_store.specs.Running.{IsFault};
ghost use Rattle.office_tables.specs.Tables.SharePart.{ArePartAmounts};
ghost use Rattle.office_tables.specs.Tables.ShareStudent.{AreStudentAmounts};

use crate::memory::OfficeMemory;
use crate::rewritten_places::{deleted_placements, mark_text, placements_put};
use exam_model::{Enrolments, Instance, StudentNo, Timetable};
use exam_publish::{SeatRow, Shares, changed, numbers_identify, permit, seats, shares_among};
use exam_score::Parts;
use office_model::{Published, StoreFault};
use office_records::{
    Draft, part_share_rows, placement_rows, retimed_students, seats_beside, student_share_rows,
};
use office_tables::tables::{
    DeletePlacement, DeleteSeat, DeleteStudentShare, InsertPartShare, InsertPlacement, InsertSeat,
    InsertStudentShare, PlacedRow, SeatRow as StoredSeat,
};
use std::alloc::{AllocError, Global};

// All writes of a publication, and the counts that the call returns.
#[derive(Drop)]
pub(crate) struct NewPublication {
    // The text of the row about the office, if the row doesn't yet say that something is published.
    pub(crate) text: Option<Vec<u8>>,
    // The placements that differ from those before: the old ones and the new ones.
    pub(crate) deleted_placements: Vec<DeletePlacement>,
    pub(crate) placements: Vec<InsertPlacement>,
    // The seats that differ from those before: the old ones and the new ones.
    pub(crate) seats_gone: Vec<DeleteSeat>,
    pub(crate) seats: Vec<InsertSeat>,
    // The shares of the candidates whose exams or periods differ from those before.
    pub(crate) deleted_shares: Vec<DeleteStudentShare>,
    pub(crate) students: Vec<InsertStudentShare>,
    pub(crate) parts: Vec<InsertPartShare>,
    pub(crate) counts: Published,
}

// Returns the writes of the publication of a draft in memory, the new publication, and its penalty.
pub(crate) fn new_publication(
    alloc: Global,
    memory: &OfficeMemory,
    number: u32,
) -> Result<(NewPublication, (Timetable, Vec<SeatRow>), Parts), StoreFault>
    requires together { IsConsistent memory.now }
    ensures publishes { (office : OfficeState) → IsMemoryOf office memory.now
        → InsertsOrRefuses number office result }
    ensures found { IfOk result (λ new. (I : Session) (E : Enrolled)
        → memory.now.kept ≡ Some (I, E) → AreFound I (publication_from (Some new.1))) }
    ensures small { IfOk result (λ new. AreSmallShares new.0) }
{
    let Some((instance, enrolments)) = &memory.kept else {
        return Err(StoreFault::NotLoaded);
    };
    let Some(draft) = memory.draft(number) else {
        return Err(StoreFault::NoDraft);
    };
    check_permit(alloc, instance, enrolments, draft)?;
    let old = memory.published_rows();
    let rows = seats(alloc, instance, enrolments, &draft.timetable, old)?;
    numbers_identify(&rows);
    let before = memory.published_places(alloc)?;
    let writes = publication_writes(alloc, instance, draft, &before, old, &rows)?;
    let timetable = draft.timetable.copy(alloc)?;
    Ok((writes, (timetable, rows), draft.parts))
}

// Checks that a draft of the session in memory may be published.
fn check_permit(
    alloc: Global,
    instance: &Instance,
    enrolments: &Enrolments,
    draft: &Draft,
) -> Result<(), StoreFault>
    requires fits { Fits instance.now enrolments.now draft.now.timetable }
    ensures refused { IfErr result (λ e. (d : ℕ) (r : Records)
        → memory_of (Some r) ≡ Some (instance.now, enrolments.now)
        → r.draft d ≡ Some draft.now.timetable → IsFault (draft_published d (Some r)) e) }
    ensures permitted { OnOk result
        (publish_refusal instance.now enrolments.now draft.now.timetable ≡ None) }
{
    match permit(alloc, instance, enrolments, &draft.timetable) {
        Ok(()) => Ok(()),
        Err(fault) => Err(StoreFault::of_publication(fault)),
    }
}

// Returns the writes that replace the placements before and the old seats by those of a draft.
fn publication_writes(
    alloc: Global,
    instance: &Instance,
    draft: &Draft,
    before: &[PlacedRow],
    old: &[SeatRow],
    rows: &[SeatRow],
) -> Result<NewPublication, StoreFault>
    requires published { ArePublishedRows instance.now rows.now draft.now.timetable }
    requires old_in_order { RowsInOrder old.now }
    ensures put { IfOk result (AreInserted instance.now draft.now.timetable before.now old.now
        rows.now
        (total_of draft.now.parts)) }
    ensures small { IfOk result AreSmallShares }
    ensures err { IfErr result (λ e. e ≡ StoreFault.Store) }
{
    instance.lemma_limits();
    let candidates = changed(alloc, old, rows)?;
    let retimed = retimed_students(alloc, old, rows)?;
    let shares = shares_among(alloc, instance, rows, &draft.timetable, &retimed)?;
    let text = mark_text(alloc, instance, before)?;
    let places = placement_rows(alloc, &draft.timetable)?;
    let deleted_placements = deleted_placements(alloc, &places, before)?;
    let placements = placements_put(alloc, &places, before)?;
    let seats_gone = seats_gone(alloc, old, rows)?;
    let seats = seat_inserts(alloc, rows, old)?;
    let deleted_shares = deleted_shares(alloc, old, &retimed)?;
    let students = student_shares_put(alloc, &shares)?;
    let parts = part_shares_put(alloc, &shares)?;
    let counts = Published {
        changed: count_of(&candidates),
        penalty: draft.parts.total(),
    };
    Ok(NewPublication {
        text,
        deleted_placements,
        placements,
        seats_gone,
        seats,
        deleted_shares,
        students,
        parts,
        counts,
    })
}

// Returns how many candidates these are.
fn count_of(candidates: &[StudentNo]) -> u32
    requires { IsAscending candidates.now }
    ensures { result ≡ length candidates.now }
{
    let Some(last) = candidates.last() else {
        return 0;
    };
    last.lemma_limit();
    candidates.len() as u32
}

// Returns the deletions of the seats before that aren't among the new ones.
fn seats_gone(
    alloc: Global,
    old: &[SeatRow],
    rows: &[SeatRow],
) -> Result<Vec<DeleteSeat>, AllocError>
    requires old_in_order { RowsInOrder old.now }
    requires new_in_order { RowsInOrder rows.now }
    ensures { IfOk result (λ gone. gone.items
        ≡ map seat_gone (map stored_seat (rows_beside rows.now old.now))) }
{
    let gone = seats_beside(alloc, old, rows)?;
    gone.iter().map(|row| seat_gone(*row)).collect(alloc)
}

fn seat_gone(row: StoredSeat) -> DeleteSeat
    ensures { result ≡ seat_gone row }
{
    DeleteSeat {
        student: row.student,
        exam: row.exam,
    }
}

// Returns the insertions of the seats that aren't among those before.
fn seat_inserts(
    alloc: Global,
    rows: &[SeatRow],
    old: &[SeatRow],
) -> Result<Vec<InsertSeat>, AllocError>
    requires old_in_order { RowsInOrder old.now }
    requires new_in_order { RowsInOrder rows.now }
    ensures { IfOk result (λ put. put.items
        ≡ map seat_put (map stored_seat (rows_beside old.now rows.now))) }
{
    let come = seats_beside(alloc, rows, old)?;
    come.iter()
        .map(|row| InsertSeat { row: *row })
        .collect(alloc)
}

// Returns the deletions of these candidates' shares; none if nothing was published before.
fn deleted_shares(
    alloc: Global,
    old: &[SeatRow],
    candidates: &[StudentNo],
) -> Result<Vec<DeleteStudentShare>, AllocError>
    ensures { IfOk result (λ put. put.items
        ≡ map deleted_share (candidates_before old.now candidates.now)) }
{
    if old.is_empty() {
        return Ok(Vec::new(alloc));
    }
    candidates
        .iter()
        .map(|candidate| deleted_share(*candidate))
        .collect(alloc)
}

fn deleted_share(candidate: StudentNo) -> DeleteStudentShare
    ensures { result ≡ deleted_share candidate }
{
    DeleteStudentShare {
        student: candidate.get(),
    }
}

fn student_shares_put(alloc: Global, shares: &Shares) -> Result<Vec<InsertStudentShare>, AllocError>
    ensures put { IfOk result (λ put. put.items
        ≡ map student_share_put (map student_share_row shares.now.students)) }
    ensures small { IfOk result (λ put. All (λ it. AreStudentAmounts it.row) put.items) }
{
    let rows = student_share_rows(alloc, shares)?;
    rows.iter()
        .map(|row| InsertStudentShare { row: *row })
        .collect(alloc)
}

fn part_shares_put(alloc: Global, shares: &Shares) -> Result<Vec<InsertPartShare>, AllocError>
    requires few { HasFewParts shares.now }
    requires small { AreSmall shares.now }
    ensures put { IfOk result (λ put. put.items ≡ map part_share_put (part_rows shares.now)) }
    ensures small { IfOk result (λ put. All (λ it. ArePartAmounts it.row) put.items) }
{
    let rows = part_share_rows(alloc, shares)?;
    rows.iter()
        .map(|row| InsertPartShare { row: *row })
        .collect(alloc)
}
