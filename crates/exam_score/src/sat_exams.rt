// The cost of edited exams for a student in a timetable, by the student's exams only.
ghost use Rattle.std.specs.Prelude.{◌≡◌, ◌≤◌, ◌*◌, length, sum_by};
ghost use Rattle.exam_terms.specs.declared.limits.TheConstants.{MAX_AMOUNT, MAX_PAIRS};
ghost use Rattle.exam_model.specs.Timetable.{place_of};
ghost use Rattle.exam_score.specs.Folds.{IsSmall};
ghost use Rattle.exam_score.specs.EditedCosts.{cost_at, exams_cost, personal_at};

use crate::edited_exams::is_among;
use crate::pair_costs::{DayCost, NightCost, RowCost, SpreadCost};
use crate::personal_parts::PersonalParts;
use exam_model::{ExamNo, Instance, PairCost, Place, Timetable};

// Returns the share of the edited exams in the personal penalty of a student who sits these exams.
// It takes no memory, and time in proportion to the student's exams times the edited ones among
// them.
pub(crate) fn personal_at(
    instance: &Instance,
    timetable: &Timetable,
    edited: &[ExamNo],
    exams: &[ExamNo],
) -> PersonalParts
    requires few { length exams.now ≤ MAX_PAIRS }
    ensures sum { result ≡ personal_at instance.now timetable.now edited.now exams.now }
    ensures small { IsSmall result (length exams.now) }
{
    instance.lemma_limits();
    let row = cost_of_exams(&RowCost(instance), timetable, edited, exams);
    let day = cost_of_exams(&DayCost(instance), timetable, edited, exams);
    let spread = cost_of_exams(&SpreadCost(instance), timetable, edited, exams);
    let night = cost_of_exams(&NightCost(instance), timetable, edited, exams);
    PersonalParts::of(row, day, spread, night)
}

// Returns the cost of all pairs of exams with an edited one.
fn cost_of_exams<C: PairCost>(
    cost: &C,
    timetable: &Timetable,
    edited: &[ExamNo],
    exams: &[ExamNo],
) -> u64
    requires few { length exams.now ≤ MAX_PAIRS }
    ensures cost { result ≡ exams_cost (C.cost_of cost.now) timetable.now edited.now exams.now }
    ensures small { result ≤ length exams.now * (MAX_PAIRS * MAX_AMOUNT) }
{
    let mut total = 0;
    for exam in exams {
        if is_among(edited, *exam) {
            total += cost_with_exam(cost, timetable, edited, *exam, exams);
        }
    }
    total
}

// Returns the cost of an edited exam with all of these.
fn cost_with_exam<C: PairCost>(
    cost: &C,
    timetable: &Timetable,
    edited: &[ExamNo],
    exam: ExamNo,
    others: &[ExamNo],
) -> u64
    requires few { length others.now ≤ MAX_PAIRS }
    ensures sum { result
        ≡ sum_by (cost_at (C.cost_of cost.now) timetable.now edited.now exam) others.now }
    ensures small { result ≤ length others.now * MAX_AMOUNT }
{
    let mut total = 0;
    for other in others {
        total += cost_at(cost, timetable, edited, exam, *other);
    }
    total
}

// Returns the cost of an edited exam with another one; two edited ones cost it once, at the
// smaller.
fn cost_at<C: PairCost>(
    cost: &C,
    timetable: &Timetable,
    edited: &[ExamNo],
    exam: ExamNo,
    other: ExamNo,
) -> u64
    ensures cost { result ≡ cost_at (C.cost_of cost.now) timetable.now edited.now exam other }
    ensures small { result ≤ MAX_AMOUNT }
{
    if is_among(edited, other) && other.get() <= exam.get() {
        return 0;
    }
    match (place_in(timetable, exam), place_in(timetable, other)) {
        (Some(one), Some(two)) => cost.cost(one.period, two.period),
        _ => 0,
    }
}

// Returns the exam's place; `None` if it has none or the timetable has no such exam.
pub(crate) fn place_in(timetable: &Timetable, exam: ExamNo) -> Option<Place>
    ensures { result ≡ place_of timetable.now exam }
{
    if exam.get() < timetable.exams() {
        timetable.get(exam)
    } else {
        None
    }
}
