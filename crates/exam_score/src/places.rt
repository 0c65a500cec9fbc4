// The penalties of periods and rooms.
ghost use Rattle.std.specs.Prelude.{◌≡◌, ◌<◌, ◌≤◌, ◌*◌, length, slice_get};
ghost use Rattle.exam_terms.specs.declared.limits.TheConstants.{MAX_AMOUNT, MAX_EXAMS};
ghost use Rattle.exam_model.specs.Fits.{Suits};
ghost use Rattle.exam_score.specs.Track.{period_penalty, room_penalty, period_part, room_part};

use exam_model::{ExamNo, Instance, PeriodNo, RoomNo, Timetable};

// The penalties of the exams' periods, and those of their rooms.
#[derive(Clone, Copy)]
pub(crate) struct PlaceSums {
    pub periods: u64,
    pub rooms: u64,
}

// Returns the penalties of the periods and rooms of all placed exams.
#[tactic(auto, using(exam_model::proofs::SumLemmas::sum_below_more))]
pub(crate) fn place_penalties(instance: &Instance, timetable: &Timetable) -> PlaceSums
    requires fits { Suits instance.now timetable.now }
    ensures periods { result.periods ≡ period_part instance.now timetable.now }
    ensures rooms { result.rooms ≡ room_part instance.now timetable.now }
    ensures small_periods { result.periods ≤ MAX_EXAMS * MAX_AMOUNT }
    ensures small_rooms { result.rooms ≤ MAX_EXAMS * MAX_AMOUNT }
{
    let mut sums = PlaceSums {
        periods: 0,
        rooms: 0,
    };
    for exam in 0..timetable.exams() {
        if let Some(place) = timetable.get(ExamNo::new(exam)) {
            sums.periods += penalty_of_period(instance, place.period);
            sums.rooms += penalty_of_room(instance, place.room);
        }
    }
    sums
}

pub(crate) fn penalty_of_period(instance: &Instance, period: PeriodNo) -> u64
    requires exists { period < length instance.now.periods }
    ensures penalty { result ≡ period_penalty (slice_get instance.now.periods period) }
    ensures small { result ≤ MAX_AMOUNT }
{
    instance.lemma_limits();
    u64::from(instance.period(period).penalty)
}

pub(crate) fn penalty_of_room(instance: &Instance, room: RoomNo) -> u64
    requires exists { room < length instance.now.rooms }
    ensures penalty { result ≡ room_penalty (slice_get instance.now.rooms room) }
    ensures small { result ≤ MAX_AMOUNT }
{
    instance.lemma_limits();
    u64::from(instance.room(room).penalty)
}
