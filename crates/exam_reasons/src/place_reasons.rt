// What rooms and periods cost.
ghost use Rattle.std.specs.Prelude.{◌≡◌, ◌<◌, ◌≤◌, ◌*◌, length};
ghost use Rattle.exam_terms.specs.declared.limits.TheConstants.{MAX_EXAMS};
ghost use Rattle.exam_model.specs.Fits.{Suits};
ghost use Rattle.exam_reasons.specs.Reasons.{exams_in_period, exams_in_room, is_in_period, is_in_room};
ghost use Rattle.exam_reasons.specs.Reasons.{period_reason, place_reason, room_reason};

use crate::reasons::PlaceReason;
use exam_model::{ExamNo, Instance, PeriodNo, Place, RoomNo, Timetable};

/// Returns what the exams of a period add to its penalty, if that is not nothing.
pub fn period_reason(
    instance: &Instance,
    timetable: &Timetable,
    period: PeriodNo,
) -> Option<PlaceReason>
    requires fits { Suits instance.now timetable.now }
    requires exists { period < length instance.now.periods }
    ensures { result ≡ period_reason instance.now timetable.now period }
{
    let exams = exams_in_period(timetable, period);
    place_reason(period.get(), exams, instance.period(period).penalty)
}

/// Returns what the exams of a room add to its penalty, if that is not nothing.
pub fn room_reason(instance: &Instance, timetable: &Timetable, room: RoomNo) -> Option<PlaceReason>
    requires fits { Suits instance.now timetable.now }
    requires exists { room < length instance.now.rooms }
    ensures { result ≡ room_reason instance.now timetable.now room }
{
    let exams = exams_in_room(timetable, room);
    place_reason(room.get(), exams, instance.room(room).penalty)
}

// Returns what so many exams add, each with this penalty.
fn place_reason(number: u32, exams: u64, penalty: u32) -> Option<PlaceReason>
    requires few { exams ≤ MAX_EXAMS }
    ensures { result ≡ place_reason number exams penalty }
{
    let points = exams * u64::from(penalty);
    if points == 0 {
        return None;
    }
    Some(PlaceReason {
        number,
        exams,
        points,
    })
}

// Returns how many exams are in a period.
#[tactic(auto, using(exam_model::proofs::SumLemmas::sum_below_more))]
fn exams_in_period(timetable: &Timetable, period: PeriodNo) -> u64
    ensures count { result ≡ exams_in_period timetable.now period }
    ensures small { result ≤ MAX_EXAMS }
{
    timetable.lemma_limit();
    let mut count = 0;
    for exam in 0..timetable.exams() {
        count += u64::from(is_in_period(timetable.get(ExamNo::new(exam)), period));
    }
    count
}

// Returns whether a place is in a period.
fn is_in_period(place: Option<Place>, period: PeriodNo) -> bool
    ensures { result ≡ is_in_period period place }
{
    match place {
        Some(place) => place.period == period,
        None => false,
    }
}

// Returns how many exams are in a room.
#[tactic(auto, using(exam_model::proofs::SumLemmas::sum_below_more))]
fn exams_in_room(timetable: &Timetable, room: RoomNo) -> u64
    ensures count { result ≡ exams_in_room timetable.now room }
    ensures small { result ≤ MAX_EXAMS }
{
    timetable.lemma_limit();
    let mut count = 0;
    for exam in 0..timetable.exams() {
        count += u64::from(is_in_room(timetable.get(ExamNo::new(exam)), room));
    }
    count
}

// Returns whether a place is in a room.
fn is_in_room(place: Option<Place>, room: RoomNo) -> bool
    ensures { result ≡ is_in_room room place }
{
    match place {
        Some(place) => place.room == room,
        None => false,
    }
}
