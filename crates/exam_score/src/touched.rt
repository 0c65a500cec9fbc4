// The mixed part of the periods and rooms that an edit touches.
ghost use Rattle.std.specs.Prelude.{◌≡◌, ◌≤◌, ◌+◌, ◌-◌, ◌*◌, ◌&&◌, false, true, if◌then◌else◌, nat_lt, ◌∷◌, length, slice_index_or, slice_set};
ghost use Rattle.exam_terms.specs.declared.limits.TheConstants.{MAX_AMOUNT, MAX_EXAMS, MAX_MINUTES, MAX_PERIODS, MAX_ROOMS};
ghost use Rattle.exam_model.specs.Timetable.{place_of};
ghost use Rattle.exam_score.specs.Touched.{further_mixed, is_touched, mixed_cost_if};
ghost use Rattle.exam_score.specs.MixedDurations.{durations, is_at};

use crate::sat_exams::place_in;
use exam_model::{ExamNo, Instance, Place, Timetable};
use exam_terms::limits::MAX_MINUTES;

// The number of possible durations, 0 minutes among them.
const DURATIONS: usize = MAX_MINUTES as usize + 1;

// The exams of an edit, and the timetables before and after it.
#[derive(Clone, Copy)]
pub(crate) struct EditedPlaces<'a> {
    pub edited: &'a [ExamNo],
    pub earlier: &'a Timetable,
    pub later: &'a Timetable,
}

// Returns the weight for each duration but one of each room and period with an edited exam, before
// the edit or after it.
pub(crate) fn touched_mixed(
    instance: &Instance,
    timetable: &Timetable,
    touched: &EditedPlaces,
) -> u64
    ensures part { result ≡ mixed_cost_if instance.now timetable.now
        (is_touched touched.now.edited.now touched.now.earlier.now touched.now.later.now) }
    ensures small { result ≤ MAX_ROOMS * (MAX_PERIODS * (MAX_EXAMS * MAX_AMOUNT)) }
{
    instance.lemma_limits();
    let mut total = 0;
    let mut left = touched.edited;
    while let Some((exam, edited)) = left.split_first() {
        let others = EditedPlaces { edited, ..*touched };
        total += exam_mixed(instance, timetable, &others, *exam);
        left = edited;
    }
    total
}

// Returns the share of the places of one more edited exam, except those that the others touch.
fn exam_mixed(
    instance: &Instance,
    timetable: &Timetable,
    others: &EditedPlaces,
    exam: ExamNo,
) -> u64
    ensures further { mixed_cost_if instance.now timetable.now
        (is_touched others.now.edited.now others.now.earlier.now others.now.later.now) + result
        ≡ mixed_cost_if instance.now timetable.now
        (is_touched (exam ∷ others.now.edited.now) others.now.earlier.now others.now.later.now) }
    ensures small { result ≤ 2 * (MAX_EXAMS * MAX_AMOUNT) }
{
    let earlier = place_in(others.earlier, exam);
    let first = place_mixed(instance, timetable, others, earlier);
    let Some(later) = place_in(others.later, exam) else {
        return first;
    };
    if is_in_place(others.earlier, exam, &later) {
        return first;
    }
    first + place_mixed(instance, timetable, others, Some(later))
}

// Returns the share of a place, if it exists and no edited exam touches it.
fn place_mixed(
    instance: &Instance,
    timetable: &Timetable,
    touched: &EditedPlaces,
    place: Option<Place>,
) -> u64
    ensures further { result ≡ further_mixed instance.now timetable.now
        (is_touched touched.now.edited.now touched.now.earlier.now touched.now.later.now) place }
    ensures small { result ≤ MAX_EXAMS * MAX_AMOUNT }
{
    let Some(place) = place else {
        return 0;
    };
    if !has_place(instance, &place) || is_touched(touched, &place) {
        return 0;
    }
    mixed_at(instance, timetable, &place)
}

fn has_place(instance: &Instance, place: &Place) -> bool
    ensures { result ≡ (nat_lt place.now.room (length instance.now.rooms)
        && nat_lt place.now.period (length instance.now.periods)) }
{
    place.room.get() < instance.rooms() && place.period.get() < instance.periods()
}

fn is_touched(touched: &EditedPlaces, place: &Place) -> bool
    ensures { result ≡ is_touched touched.now.edited.now touched.now.earlier.now
        touched.now.later.now place.now.period place.now.room }
{
    for exam in touched.edited {
        if is_in_place(touched.earlier, *exam, place) || is_in_place(touched.later, *exam, place) {
            return true;
        }
    }
    false
}

fn is_in_place(timetable: &Timetable, exam: ExamNo, place: &Place) -> bool
    ensures { result ≡ is_at place.now.period place.now.room (place_of timetable.now exam) }
{
    match place_in(timetable, exam) {
        Some(own) => own.period == place.period && own.room == place.room,
        None => false,
    }
}

// Returns the weight for each duration but one.
fn mixed_at(instance: &Instance, timetable: &Timetable, place: &Place) -> u64
    ensures part { result
        ≡ (durations instance.now timetable.now place.now.period place.now.room - 1)
        * instance.now.weights.mixed }
    ensures small { result ≤ MAX_EXAMS * MAX_AMOUNT }
{
    let further = durations_at(instance, timetable, place).saturating_sub(1);
    further * u64::from(instance.weights().mixed)
}

// Returns the number of different durations in a period and room, in one pass over the exams.
fn durations_at(instance: &Instance, timetable: &Timetable, place: &Place) -> u64
    ensures count { result ≡ durations instance.now timetable.now place.now.period place.now.room }
    ensures small { result ≤ MAX_EXAMS }
{
    let mut marked = [false; DURATIONS];
    let mut count = 0;
    for exam in 0..instance.exams() {
        let exam = ExamNo::new(exam);
        if is_in_place(timetable, exam, place) {
            count += mark(&mut marked, instance.exam(exam).minutes);
        }
    }
    count
}

// Marks the duration. Returns 1 if it was not marked before, else 0.
fn mark(marked: &mut [bool; DURATIONS], minutes: u32) -> u64
    requires within { minutes ≤ MAX_MINUTES }
    ensures fresh { result ≡ (if slice_index_or marked.old minutes false then 0 else 1) }
    ensures marked { marked.new ≡ slice_set marked.old minutes true }
{
    let at = minutes as usize;
    let was_marked = marked[at];
    marked[at] = true;
    if was_marked { 0 } else { 1 }
}
