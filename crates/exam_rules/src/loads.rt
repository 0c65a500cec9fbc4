// How many students sit in each room and period.
ghost use Rattle.std.specs.Prelude.{◌≡◌, ◌<◌, ◌≤◌, ◌*◌, ◌^◌, if◌then◌else◌, length, slice_get, slice_index, IfOk};
ghost use Rattle.exam_model.specs.Enrolments.{size_of};
ghost use Rattle.exam_model.specs.Fits.{slot_of};
ghost use Rattle.exam_model.specs.Timetable.{place_of};
ghost use Rattle.exam_rules.specs.Places.{Fits, place_satisfies, is_one_place, load_at};
ghost use Rattle.exam_rules.specs.Loads.{AreLoads};
ghost use Rattle.exam_rules.specs.HardRules.{is_too_small};

use exam_model::{Enrolments, ExamNo, Instance, Place, Timetable};
use std::alloc::{AllocError, Global};

/// Returns the number of students in each room and period, over all exams there.
pub(crate) fn loads_of(
    alloc: Global,
    instance: &Instance,
    enrolments: &Enrolments,
    timetable: &Timetable,
) -> Result<Vec<u64>, AllocError>
    requires { Fits instance.now enrolments.now timetable.now }
    ensures { IfOk result (λ loads. AreLoads enrolments.now timetable.now
        (length instance.now.periods) (length instance.now.rooms) (length instance.now.exams)
        loads.items) }
{
    let places = instance.periods() * instance.rooms();
    let mut loads = vec![in alloc; 0u64; places as usize]?;
    'exams: for exam in 0..instance.exams() {
        let exam = ExamNo::new(exam);
        let Some(place) = timetable.get(exam) else {
            continue;
        };
        let slot = instance.slot_of(place);
        let load = loads[slot] + u64::from(enrolments.size(exam));
        loads[slot] = load;
    }
    Ok(loads)
}

/// Returns whether a place's room holds fewer students than its entry in the table.
pub(crate) fn is_too_small(instance: &Instance, loads: &[u64], place: Place) -> bool
    requires period { place.period < length instance.now.periods }
    requires room { place.room < length instance.now.rooms }
    requires table { length loads.now ≡ length instance.now.periods * length instance.now.rooms }
    ensures { result ≡ is_too_small (slice_get instance.now.rooms place.room)
        (slice_index loads.now (slot_of (length instance.now.rooms) place)) }
{
    let room = instance.room(place.room);
    u64::from(room.capacity) < loads[instance.slot_of(place)]
}

/// Returns the number of students in one room and period, over all exams there.
pub(crate) fn load_at(enrolments: &Enrolments, timetable: &Timetable, place: &Place) -> u64
    requires fits { length timetable.now ≡ length enrolments.now }
    ensures { result ≡ load_at enrolments.now timetable.now place.now }
{
    let mut load = 0;
    'exams: for exam in 0..enrolments.exams() {
        load += size_at(enrolments, timetable, ExamNo::new(exam), place);
    }
    load
}

// Returns the number of an exam's students if the exam is at the place, else 0.
fn size_at(enrolments: &Enrolments, timetable: &Timetable, exam: ExamNo, place: &Place) -> u64
    requires exists { exam < length timetable.now }
    requires fits { length timetable.now ≡ length enrolments.now }
    ensures size { result ≡ (if place_satisfies (is_one_place place.now)
        (place_of timetable.now exam)
        then size_of enrolments.now exam else 0) }
    ensures small { result < 2 ^ 32 }
{
    match timetable.get(exam) {
        Some(other) if other == *place => u64::from(enrolments.size(exam)),
        _ => 0,
    }
}
