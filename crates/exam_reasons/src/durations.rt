// How many different durations the exams of a room and period have.
ghost use Rattle.std.specs.Prelude.{◌≡◌, ◌<◌, ◌≤◌, false, true, if◌then◌else◌, length, slice_index_or, slice_set};
ghost use Rattle.exam_terms.specs.declared.limits.TheConstants.{MAX_EXAMS, MAX_MINUTES};
ghost use Rattle.exam_model.specs.Timetable.{place_of};
ghost use Rattle.exam_score.specs.MixedDurations.{durations, is_at};

use exam_model::{ExamNo, Instance, Place, Timetable};
use exam_terms::limits::MAX_MINUTES;

// The number of possible durations, 0 minutes among them.
const DURATIONS: usize = MAX_MINUTES as usize + 1;

// Returns the number of different durations in a room and period, in one pass over the exams.
pub(crate) fn durations_at(instance: &Instance, timetable: &Timetable, place: &Place) -> u64
    requires exams { length timetable.now ≡ length instance.now.exams }
    ensures count { result ≡ durations instance.now timetable.now place.now.period place.now.room }
    ensures small { result ≤ MAX_EXAMS }
{
    let mut marked = [false; DURATIONS];
    let mut count = 0;
    for exam in 0..instance.exams() {
        let exam = ExamNo::new(exam);
        if is_in_place(timetable, exam, place) {
            count += mark(&mut marked, instance.exam(exam).minutes);
        }
    }
    count
}

// Returns whether an exam is in a room and period.
fn is_in_place(timetable: &Timetable, exam: ExamNo, place: &Place) -> bool
    requires exists { exam < length timetable.now }
    ensures { result ≡ is_at place.now.period place.now.room (place_of timetable.now exam) }
{
    match timetable.get(exam) {
        Some(own) => own.period == place.period && own.room == place.room,
        None => false,
    }
}

// Marks the duration. Returns 1 if it was not marked before, else 0.
fn mark(marked: &mut [bool; DURATIONS], minutes: u32) -> u64
    requires within { minutes ≤ MAX_MINUTES }
    ensures fresh { result ≡ (if slice_index_or marked.old minutes false then 0 else 1) }
    ensures marked { marked.new ≡ slice_set marked.old minutes true }
{
    let at = minutes as usize;
    let was_marked = marked[at];
    marked[at] = true;
    if was_marked { 0 } else { 1 }
}
