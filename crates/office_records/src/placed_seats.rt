// Whether seats are those of a timetable.
ghost use Rattle.std.specs.Prelude.{◌≡◌, ◌↔◌, All, AllPairs, IfOk, IsTrue};
ghost use Rattle.exam_model.specs.Fits.{Suits};
ghost use Rattle.exam_publish.specs.Rows.{RowsInOrder};
ghost use Rattle.exam_publish.specs.Seats.{HaveOwnSeats};
ghost use Rattle.office_records.specs.FoundPublications.{HasPlacesAndSeats, IsSeatedRow, is_same_seat, publication};

use exam_model::{Instance, Timetable};
use exam_publish::{SeatRow, is_before, numbers_identify};
use exam_terms::limits::MAX_PAIRS;
use std::alloc::{AllocError, Global};

// Returns whether each exam has a place, and each row is at its exam's place, with its own seat in
// the room.
pub(crate) fn have_places_and_seats(
    alloc: Global,
    instance: &Instance,
    timetable: &Timetable,
    rows: &[SeatRow],
) -> Result<bool, AllocError>
    requires { Suits instance.now timetable.now }
    ensures { IfOk result (λ have. IsTrue have
        ↔ HasPlacesAndSeats instance.now (publication timetable.now rows.now)) }
{
    numbers_identify(rows);
    let complete = timetable.complete().is_none();
    let few = rows.len() <= MAX_PAIRS as usize;
    let own = have_own_seats(alloc, rows)?;
    Ok(complete && few && own && are_in_order(rows) && are_seated(instance, timetable, rows))
}

// Returns whether no two rows have the same seat in the same period.
fn have_own_seats(alloc: Global, rows: &[SeatRow]) -> Result<bool, AllocError>
    ensures { IfOk result (λ own. IsTrue own ↔ AllPairs HaveOwnSeats rows.now) }
{
    let mut sorted = Vec::from_slice(alloc, rows)?;
    sorted.sort_by_key(|row| ((row.period, row.room), row.seat))?;
    Ok(sorted.is_sorted_by(|row, next| !is_same_seat(*row, *next)))
}

// Returns whether two rows have the same seat in the same period.
fn is_same_seat(row: SeatRow, other: SeatRow) -> bool
    ensures { result ≡ is_same_seat row other }
{
    row.period == other.period && row.room == other.room && row.seat == other.seat
}

// Returns whether each row comes before the next, by exam and then by student.
fn are_in_order(rows: &[SeatRow]) -> bool
    ensures { IsTrue result ↔ RowsInOrder rows.now }
{
    rows.is_sorted_by(|row, next| is_before(row, next))
}

// Returns whether each row is at its exam's place, with a seat of the room.
fn are_seated(instance: &Instance, timetable: &Timetable, rows: &[SeatRow]) -> bool
    requires { Suits instance.now timetable.now }
    ensures { IsTrue result ↔ All (IsSeatedRow instance.now timetable.now) rows.now }
{
    'rows: for row in rows {
        if !is_seated(instance, timetable, *row) {
            return false;
        }
    }
    true
}

// Returns whether a row is at its exam's place, with a seat of the room.
fn is_seated(instance: &Instance, timetable: &Timetable, row: SeatRow) -> bool
    requires { Suits instance.now timetable.now }
    ensures { IsTrue result ↔ IsSeatedRow instance.now timetable.now row }
{
    if row.exam.get() >= timetable.exams() {
        return false;
    }
    let Some(place) = timetable.get(row.exam) else {
        return false;
    };
    let room = instance.room(place.room);
    let in_place = place.period == row.period && place.room == row.room;
    in_place && 1 <= row.seat && row.seat <= room.capacity
}
