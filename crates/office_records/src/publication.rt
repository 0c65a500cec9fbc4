// Rows of the places of a publication, and the publication that rows represent.
ghost use Rattle.std.specs.Prelude.{◌≡◌, [], map, IfErr, IfOk, None, OnErr, OnOk, Option};
ghost use Rattle.exam_model.specs.Timetable.{Placing};
ghost use Rattle.exam_publish.specs.Rows.{ArePublishedRows};
ghost use Rattle.exam_publish.specs.Seats.{AreSeated};
ghost use Rattle.office_model.specs.Office.{IsPublication, Publication};
ghost use Rattle.office_records.specs.Publications.{ArePublicationRows, placed_from};
ghost use Rattle.office_records.specs.FoundPublications.{AreFound, ArePlaces, ArePublished, placed_slot, publication, publication_from, seat_pair};

use crate::enrolments::enrolments_of;
use crate::fault::RecordFault;
use crate::placed_seats::have_places_and_seats;
use crate::seats::seats_in_order;
use crate::timetable::timetable_of;
use exam_model::{ExamNo, Instance, Timetable};
use exam_publish as publish;
use exam_publish::{PublishFault, numbers_identify, permit};
use office_tables::tables::{EnrolRow, PlacedRow, SeatRow, SlotRow};
use std::alloc::{AllocError, Global};

// Returns the publication of a session with these rows, by the flag whether something is
// published; `None` if there are no rows. `check_publication` checks that it breaks no rule.
// `BadRows`: no publication has these rows.
pub(crate) fn publication_of(
    alloc: Global,
    instance: &Instance,
    mark: bool,
    places: &[PlacedRow],
    seats: &[SeatRow],
) -> Result<Option<(Timetable, Vec<publish::SeatRow>)>, RecordFault>
    ensures rows { IfOk result
        (λ found. ArePublicationRows mark places.now seats.now (publication_from found)) }
    ensures are { IfOk result (λ found. AreFound instance.now (publication_from found)) }

    // No other publication has these rows.
    ensures only { IfOk result (λ found. (published : Option Publication)
        → ArePublicationRows mark places.now seats.now published
        → ArePublished instance.now published → publication_from found ≡ published) }
    ensures none { IfErr result (λ e. e ≡ RecordFault.BadRows → (published : Option Publication)
        → ArePublicationRows mark places.now seats.now published
        → ArePublished instance.now published → ⊥) }
{
    if !mark {
        return no_publication(places, seats);
    }
    let timetable = timetable_at(alloc, instance, places)?;
    let rows = seats_in_order(alloc, seats)?;
    let sound = have_places_and_seats(alloc, instance, &timetable, &rows)?;
    if sound {
        Ok(Some((timetable, rows)))
    } else {
        Err(RecordFault::BadRows)
    }
}

// Returns `None`, the publication of no rows; else `BadRows`.
fn no_publication(
    places: &[PlacedRow],
    seats: &[SeatRow],
) -> Result<Option<(Timetable, Vec<publish::SeatRow>)>, RecordFault>
    ensures none { IfOk result (λ found. found ≡ None) }
    ensures no_rows { OnOk result ((places.now ≡ []) × (seats.now ≡ [])) }
    ensures bad { OnErr result (places.now ≡ [] → seats.now ≡ [] → ⊥) }
{
    if places.is_empty() && seats.is_empty() {
        Ok(None)
    } else {
        Err(RecordFault::BadRows)
    }
}

// Returns the timetable with these places. `BadRows`: no timetable has them.
pub(crate) fn timetable_at(
    alloc: Global,
    instance: &Instance,
    places: &[PlacedRow],
) -> Result<Timetable, RecordFault>
    ensures is { IfOk result (ArePlaces instance.now places.now) }
    ensures none { IfErr result (λ e. e ≡ RecordFault.BadRows
        → (T : Placing) → ArePlaces instance.now places.now T → ⊥) }
{
    let slots = slots_of(alloc, places)?;
    let timetable = timetable_of(alloc, instance, 0, &slots)?;
    Ok(timetable)
}

// Returns the published places as rows of draft 0.
fn slots_of(alloc: Global, places: &[PlacedRow]) -> Result<Vec<SlotRow>, AllocError>
    ensures { IfOk result (λ slots. slots.items ≡ map placed_slot places.now) }
{
    places.iter().map(|row| placed_slot(*row)).collect(alloc)
}

// Returns a published place as a row of draft 0.
fn placed_slot(row: PlacedRow) -> SlotRow
    ensures { result ≡ placed_slot row }
{
    SlotRow {
        draft: 0,
        exam: row.exam,
        period: row.period,
        room: row.room,
    }
}

// Returns `Ok` if a timetable and its seats are a publication: no hard rule is broken with the
// enrolments that the rows represent; else `BadRows`.
pub(crate) fn check_publication(
    alloc: Global,
    instance: &Instance,
    timetable: &Timetable,
    rows: &[publish::SeatRow],
) -> Result<(), RecordFault>
    requires rows { ArePublishedRows instance.now rows.now timetable.now }
    requires seated { AreSeated instance.now rows.now }
    ensures is { OnOk result (IsPublication instance.now (publication timetable.now rows.now)) }
    ensures none { IfErr result (λ e. e ≡ RecordFault.BadRows
        → IsPublication instance.now (publication timetable.now rows.now) → ⊥) }
{
    numbers_identify(rows);
    let pairs = enrol_rows(alloc, rows)?;
    let enrolments = enrolments_of(alloc, instance, &pairs)?;
    match permit(alloc, instance, &enrolments, timetable) {
        Ok(()) => Ok(()),
        Err(PublishFault::NoMemory) => Err(RecordFault::NoMemory),
        Err(PublishFault::Unplaced(_)) => Err(RecordFault::BadRows),
        Err(PublishFault::Broken(_)) => Err(RecordFault::BadRows),
    }
}

// Returns the pairs of seats.
fn enrol_rows(alloc: Global, rows: &[publish::SeatRow]) -> Result<Vec<EnrolRow>, AllocError>
    ensures { IfOk result (λ pairs. pairs.items ≡ map seat_pair rows.now) }
{
    rows.iter().map(|row| seat_pair(*row)).collect(alloc)
}

fn seat_pair(row: publish::SeatRow) -> EnrolRow
    ensures { result ≡ seat_pair row }
{
    EnrolRow {
        student: row.student.get(),
        exam: row.exam.get(),
    }
}

/// Returns the rows of the places of a timetable, by their exams.
pub fn placement_rows(alloc: Global, timetable: &Timetable) -> Result<Vec<PlacedRow>, AllocError>
    ensures { IfOk result (λ rows. rows.items ≡ placed_from 0 timetable.now) }
{
    let mut rows = Vec::new(alloc);
    'exams: for exam in 0..timetable.exams() {
        if let Some(place) = timetable.get(ExamNo::new(exam)) {
            rows.push(PlacedRow {
                exam,
                period: place.period.get(),
                room: place.room.get(),
            })?;
        }
    }
    Ok(rows)
}
