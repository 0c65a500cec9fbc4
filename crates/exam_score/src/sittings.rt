// The placed exams by their periods.
ghost use Rattle.std.specs.Prelude.{◌≡◌, ℕ, ◌≤◌, ◌<◌, length, sum_by, All, AllPairs, IfOk};
ghost use Rattle.exam_model.specs.Fits.{period_of};
ghost use Rattle.exam_model.specs.Sums.{sum_below};
ghost use Rattle.exam_score.specs.Tallies.{if_placed};

use exam_model::{ExamNo, PeriodNo, Timetable};
use std::alloc::{AllocError, Global};

// An exam and its period; ordered by period, and then by exam.
#[derive(Clone, Copy, PartialEq, Eq, PartialOrd, Ord)]
pub(crate) struct PlacedExam {
    pub period: PeriodNo,
    pub exam: ExamNo,
}

// Returns the placed exams, the periods ascending.
pub(crate) fn sittings_of(
    alloc: Global,
    timetable: &Timetable,
) -> Result<Vec<PlacedExam>, AllocError>
    ensures all { IfOk result (λ sittings. (g : ℕ → ℕ → ℕ)
        → sum_by (λ x. g x.exam x.period) sittings.items
        ≡ sum_below (length timetable.now) (λ e. if_placed (g e) (period_of timetable.now e))) }
    ensures exist { IfOk result (λ sittings.
        All (λ x. x.exam < length timetable.now) sittings.items) }
    ensures ascending { IfOk result (λ sittings.
        AllPairs (λ x y. x.period ≤ y.period) sittings.items) }
{
    let mut sittings = placed_exams(alloc, timetable)?;
    sittings.sort_unstable();
    Ok(sittings)
}

// Returns the same in the order of the exams.
fn placed_exams(alloc: Global, timetable: &Timetable) -> Result<Vec<PlacedExam>, AllocError>
    ensures all { IfOk result (λ sittings. (g : ℕ → ℕ → ℕ)
        → sum_by (λ x. g x.exam x.period) sittings.items
        ≡ sum_below (length timetable.now) (λ e. if_placed (g e) (period_of timetable.now e))) }
    ensures exist { IfOk result (λ sittings.
        All (λ x. x.exam < length timetable.now) sittings.items) }
{
    let mut sittings = Vec::with_capacity(alloc, timetable.exams() as usize)?;
    for exam in 0..timetable.exams() {
        let exam = ExamNo::new(exam);
        if let Some(place) = timetable.get(exam) {
            let period = place.period;
            sittings.push(PlacedExam { period, exam })?;
        }
    }
    Ok(sittings)
}
