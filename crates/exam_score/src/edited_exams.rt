// The share of the edited exams in the penalty of one of the timetables, each exam once.
ghost use Rattle.std.specs.Prelude.{◌≡◌, ◌≤◌, ◌*◌, ◌&&◌, not, nat_lt, length};
ghost use Rattle.exam_terms.specs.declared.limits.TheConstants.{MAX_AMOUNT, MAX_EXAMS};
ghost use Rattle.exam_model.specs.Timetable.{place_of};
ghost use Rattle.exam_model.specs.Enrolments.{has_number};
ghost use Rattle.exam_score.specs.Touched.{sum_over_exams};
ghost use Rattle.exam_score.specs.Front.{front_by};
ghost use Rattle.exam_score.specs.Track.{exam_period, exam_room};

use crate::front::front_share;
use crate::places::{PlaceSums, penalty_of_period, penalty_of_room};
use crate::sat_exams::place_in;
use exam_model::{ExamNo, Instance, Place, Timetable};

// Returns the penalties of their periods and rooms.
#[tactic(auto, using(crate::proofs::EditedSumLemmas::sum_more))]
pub(crate) fn edited_places(
    instance: &Instance,
    timetable: &Timetable,
    edited: &[ExamNo],
) -> PlaceSums
    ensures periods { result.periods ≡ sum_over_exams instance.now edited.now
        (λ e. exam_period instance.now (place_of timetable.now e)) }
    ensures rooms { result.rooms ≡ sum_over_exams instance.now edited.now
        (λ e. exam_room instance.now (place_of timetable.now e)) }
    ensures small_periods { result.periods ≤ MAX_EXAMS * MAX_AMOUNT }
    ensures small_rooms { result.rooms ≤ MAX_EXAMS * MAX_AMOUNT }
{
    instance.lemma_limits();
    let mut sums = PlaceSums {
        periods: 0,
        rooms: 0,
    };
    let mut left = edited;
    while let Some((exam, others)) = left.split_first() {
        if is_further(instance, others, *exam) {
            sums.periods += cost_of_period(instance, place_in(timetable, *exam));
            sums.rooms += cost_of_room(instance, place_in(timetable, *exam));
        }
        left = others;
    }
    sums
}

// Returns their front load, by the number of each exam's students.
#[tactic(auto, using(crate::proofs::EditedSumLemmas::sum_more))]
pub(crate) fn edited_front(
    instance: &Instance,
    sizes: &[u32],
    timetable: &Timetable,
    edited: &[ExamNo],
) -> u64
    requires sizes { length sizes.now ≡ length instance.now.exams }
    ensures front { result ≡ sum_over_exams instance.now edited.now
        (λ e. front_by instance.now sizes.now (place_of timetable.now e) e) }
    ensures small { result ≤ MAX_EXAMS * MAX_AMOUNT }
{
    instance.lemma_limits();
    let mut total = 0;
    let mut left = edited;
    while let Some((exam, others)) = left.split_first() {
        if is_further(instance, others, *exam) {
            total += front_share(instance, sizes, *exam, place_in(timetable, *exam));
        }
        left = others;
    }
    total
}

// Returns whether the exam exists and is none of the others.
fn is_further(instance: &Instance, others: &[ExamNo], exam: ExamNo) -> bool
    ensures { result ≡ (nat_lt exam (length instance.now.exams)
        && not (has_number others.now exam)) }
{
    exam.get() < instance.exams() && !is_among(others, exam)
}

pub(crate) fn is_among(exams: &[ExamNo], exam: ExamNo) -> bool
    ensures { result ≡ has_number exams.now exam }
{
    exams.iter().any(|other| *other == exam)
}

// Returns the penalty of an exam's period at this place; a period that doesn't exist costs nothing.
fn cost_of_period(instance: &Instance, place: Option<Place>) -> u64
    ensures cost { result ≡ exam_period instance.now place }
    ensures small { result ≤ MAX_AMOUNT }
{
    match place {
        Some(place) if place.period.get() < instance.periods() => {
            penalty_of_period(instance, place.period)
        }
        _ => 0,
    }
}

// Returns the penalty of an exam's room at this place.
fn cost_of_room(instance: &Instance, place: Option<Place>) -> u64
    ensures cost { result ≡ exam_room instance.now place }
    ensures small { result ≤ MAX_AMOUNT }
{
    match place {
        Some(place) if place.room.get() < instance.rooms() => penalty_of_room(instance, place.room),
        _ => 0,
    }
}
