// The contents of each room and period: tables with an entry for each, made in one pass.
ghost use Rattle.std.specs.Prelude.{◌≡◌, ◌↔◌, ◌*◌, [], length, IsTrue, Some, IfOk};
ghost use Rattle.exam_model.specs.Fits.{PlaceExists};
ghost use Rattle.exam_publish.specs.Rows.{row_place};
ghost use Rattle.office_reports.specs.Rooms.{exams_in, seats_in};
ghost use Rattle.office_reports.specs.Slots.{IsTable};

use exam_model::{Instance, Timetable};
use exam_publish::SeatRow;
use exam_rules::{ExamList, empty_lists};
use exam_terms::{ExamNo, Place};
use std::alloc::{AllocError, Global};

/// Returns the exams in each room and period, ascending.
pub(crate) fn exams_by_slot(
    alloc: Global,
    instance: &Instance,
    timetable: &Timetable,
) -> Result<Vec<ExamList>, AllocError>
    ensures { IfOk result (λ lists.
        IsTable instance.now [] (exams_in timetable.now) lists.items) }
{
    let mut lists = empty_lists(alloc, slots(instance))?;
    'exams: for number in 0..timetable.exams() {
        let exam = ExamNo::new(number);
        let Some(place) = timetable.get(exam) else {
            continue;
        };
        if has_place(instance, &place) {
            lists[instance.slot_of(place)].push(exam)?;
        }
    }
    Ok(lists)
}

// Returns the number of entries of a table.
fn slots(instance: &Instance) -> usize
    ensures { result ≡ length instance.now.periods * length instance.now.rooms }
{
    instance.periods() as usize * instance.rooms() as usize
}

// Returns whether the place's period and room exist in the instance.
fn has_place(instance: &Instance, place: &Place) -> bool
    ensures { IsTrue result ↔ PlaceExists instance.now (Some place.now) }
{
    place.period.get() < instance.periods() && place.room.get() < instance.rooms()
}

/// Returns how many of the seats are in each room and period.
pub(crate) fn seats_by_slot(
    alloc: Global,
    instance: &Instance,
    seats: &[SeatRow],
) -> Result<Vec<usize>, AllocError>
    ensures { IfOk result (λ counts. IsTable instance.now 0 (seats_in seats.now) counts.items) }
{
    let mut counts = vec![in alloc; 0usize; slots(instance)]?;
    'seats: for seat in seats {
        let place = place_of(seat);
        if has_place(instance, &place) {
            let slot = instance.slot_of(place);
            let count = counts[slot] + 1;
            counts[slot] = count;
        }
    }
    Ok(counts)
}

fn place_of(seat: &SeatRow) -> Place
    ensures { result ≡ row_place seat.now }
{
    Place {
        period: seat.period,
        room: seat.room,
    }
}
