// Mixed durations: exams of different durations in one room and period.
ghost use Rattle.std.specs.Prelude.{◌≡◌, ◌≤◌, ◌<◌, ◌+◌, ◌*◌, length, IfOk, AllPairs, count_by, Some};
ghost use Rattle.exam_terms.specs.declared.limits.TheConstants.{MAX_AMOUNT, MAX_EXAMS};
ghost use Rattle.exam_model.specs.Fits.{Suits};
ghost use Rattle.exam_score.specs.Stays.{AreStays, next_differs, further_durations};
ghost use Rattle.exam_score.specs.MixedDurations.{mixed_part};

use exam_model::{ExamNo, Instance, PeriodNo, RoomNo, Timetable};
use std::alloc::{AllocError, Global};

/// The place and the duration of an exam; ordered by period, then room, then minutes.
#[derive(Clone, Copy, PartialEq, Eq, PartialOrd, Ord)]
pub struct PlacedDuration {
    pub period: PeriodNo,
    pub room: RoomNo,
    pub minutes: u32,
}

// Returns the weight for each duration but one of each used room and period.
pub(crate) fn mixed_durations(
    alloc: Global,
    instance: &Instance,
    timetable: &Timetable,
) -> Result<u64, AllocError>
    requires fits { Suits instance.now timetable.now }
    ensures part { IfOk result (λ n. n ≡ mixed_part instance.now timetable.now) }
    ensures small { IfOk result (λ n. n ≤ MAX_EXAMS * MAX_AMOUNT) }
{
    let mut stays = stays_of(alloc, instance, timetable)?;
    stays.sort_unstable();
    Ok(count_further(&stays) * u64::from(instance.weights().mixed))
}

// Returns how many stays are followed by one with the same place and another duration.
fn count_further(stays: &[PlacedDuration]) -> u64
    requires { length stays.now ≤ MAX_EXAMS }
    ensures count { result ≡ further_durations stays.now }
    ensures small { result ≤ length stays.now }
{
    let mut count = 0;
    let mut rest = stays;
    while let Some((stay, others)) = rest.split_first() {
        count += differs_from_next(*stay, others);
        rest = others;
    }
    count
}

fn differs_from_next(stay: PlacedDuration, others: &[PlacedDuration]) -> u64
    ensures differs { result ≡ next_differs stay others.now }
    ensures small { result ≤ 1 }
{
    let Some(next) = others.first() else {
        return 0;
    };
    let one_place = next.period == stay.period && next.room == stay.room;
    if one_place && next.minutes != stay.minutes {
        1
    } else {
        0
    }
}

/// Returns the stays of all placed exams, in the order of the exams.
#[tactic(auto, using(exam_model::proofs::SumLemmas::sum_below_more))]
pub fn stays_of(
    alloc: Global,
    instance: &Instance,
    timetable: &Timetable,
) -> Result<Vec<PlacedDuration>, AllocError>
    requires fits { Suits instance.now timetable.now }
    ensures { IfOk result (λ stays. AreStays instance.now timetable.now stays.items) }
{
    let mut stays = Vec::with_capacity(alloc, timetable.exams() as usize)?;
    for exam in 0..instance.exams() {
        let exam = ExamNo::new(exam);
        if let Some(place) = timetable.get(exam) {
            stays.push(PlacedDuration {
                period: place.period,
                room: place.room,
                minutes: instance.exam(exam).minutes,
            })?;
        }
    }
    Ok(stays)
}
