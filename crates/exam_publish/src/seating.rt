// Seats: the kept ones first, and the others in one pass, with the last assigned seat of each room
// and period.
ghost use Rattle.std.specs.Prelude.{◌≡◌, ◌≤◌, None, length, map, All, IfOk};
ghost use Rattle.exam_terms.specs.declared.limits.TheConstants.{MAX_PAIRS};
ghost use Rattle.exam_model.specs.Fits.{Fits};
ghost use Rattle.exam_model.specs.Pairs.{pairs_of};
ghost use Rattle.exam_publish.specs.Permit.{publish_refusal};
ghost use Rattle.exam_publish.specs.Rows.{ArePublishedRows, row_pair};
ghost use Rattle.exam_publish.specs.Seats.{AreSeated, rows_for, seat_rows};
ghost use Rattle.exam_publish.specs.Seating.{AreHeld, EntrantExists};

use crate::entrants::{Entrant, entrants_of};
use crate::held::{Held, held_seats, next_free};
use crate::seat_row::SeatRow;
use exam_model::{Enrolments, Instance, Timetable};
use std::alloc::{AllocError, Global};

/// Returns a seat for each enrolment of a timetable that `permit` accepts. A student with an old
/// row in the exam's current room and period keeps its seat. The others come by exam, then by
/// student: each gets the lowest seat there, from 1, that is neither kept nor assigned yet.
pub fn seats(
    alloc: Global,
    instance: &Instance,
    enrolments: &Enrolments,
    timetable: &Timetable,
    old: &[SeatRow],
) -> Result<Vec<SeatRow>, AllocError>
    requires fits { Fits instance.now enrolments.now timetable.now }
    requires permitted { publish_refusal instance.now enrolments.now timetable.now ≡ None }
    requires old_seated { AreSeated instance.now old.now }
    ensures rows { IfOk result (λ rows. rows.items
        ≡ seat_rows (pairs_of enrolments.now) timetable.now old.now) }
    ensures pairs { IfOk result (λ rows. map row_pair rows.items ≡ pairs_of enrolments.now) }
    ensures seated { IfOk result (λ rows. AreSeated instance.now rows.items) }
    ensures published { IfOk result
        (λ rows. ArePublishedRows instance.now rows.items timetable.now) }
{
    instance.lemma_limits();
    enrolments.lemma_order();
    let entrants = entrants_of(alloc, enrolments, timetable, old)?;
    let held = held_seats(alloc, instance, &entrants)?;
    let rows = seat_all(alloc, instance, &entrants, &held)?;
    Ok(rows)
}

// Returns the rows of all entrants.
fn seat_all(
    alloc: Global,
    instance: &Instance,
    entrants: &[Entrant],
    held: &[Held],
) -> Result<Vec<SeatRow>, AllocError>
    requires exist { All (EntrantExists instance.now) entrants.now }
    requires few { length entrants.now ≤ MAX_PAIRS }
    requires held { AreHeld entrants.now held.now }
    ensures { IfOk result (λ rows. rows.items ≡ rows_for entrants.now) }
{
    let places = instance.periods() * instance.rooms();
    let mut last = vec![in alloc; 0u32; places as usize]?;
    let mut rows = Vec::with_capacity(alloc, entrants.len())?;
    'entrants: for entrant in entrants {
        if let Some(row) = entrant.kept {
            rows.push(row)?;
            continue;
        }
        let place = entrant.place;
        let slot = instance.slot_of(place);
        let seat = next_free(held, &place, last[slot] + 1);
        last[slot] = seat;
        rows.push(new_row(*entrant, seat))?;
    }
    Ok(rows)
}

// Returns an entrant's row with a seat.
fn new_row(entrant: Entrant, seat: u32) -> SeatRow
    ensures { result ≡ record {
      student = entrant.student;
      exam = entrant.exam;
      period = entrant.place.period;
      room = entrant.place.room;
      seat = seat;
    } }
{
    SeatRow {
        student: entrant.student,
        exam: entrant.exam,
        period: entrant.place.period,
        room: entrant.place.room,
        seat,
    }
}
