// What pairs of exams cost.
ghost use Rattle.std.specs.Prelude.{◌≡◌, ◌<◌, ◌≤◌, ◌+◌, length, option_map};
ghost use Rattle.exam_terms.specs.declared.limits.TheConstants.{MAX_AMOUNT};
ghost use Rattle.exam_model.specs.Enrolments.{Enrolled, shared_students};
ghost use Rattle.exam_model.specs.PairCost.{cost_between};
ghost use Rattle.exam_score.specs.Kinds.{cost_in};
ghost use Rattle.exam_reasons.specs.Pairs.{is_costly};
ghost use Rattle.exam_reasons.specs.Reasons.{kind_of, pair_reason};

use crate::reasons::{PairKind, PairReason};
use exam_model::{Conflict, Instance, PairCost, PeriodNo, Place, Timetable};
use exam_score::{DayCost, NightCost, RowCost, SpreadCost};

/// Returns what two exams cost in a part of the penalty, if that is not nothing. `pair` has the
/// number of students who sit both.
pub fn pair_reason(
    instance: &Instance,
    timetable: &Timetable,
    kind: PairKind,
    pair: &Conflict,
) -> Option<PairReason>
    requires exists { pair.now.exam < length timetable.now }
    requires other_exists { pair.now.other < length timetable.now }
    ensures { (E : Enrolled) → pair.now.students ≡ shared_students E pair.now.exam pair.now.other
        → result ≡ pair_reason instance.now E timetable.now kind pair.now.exam pair.now.other }
{
    let (exam, other) = (pair.exam, pair.other);
    let cost = cost_between(instance, kind, timetable.get(exam), timetable.get(other));
    let points = u64::from(pair.students) * cost;
    if points == 0 {
        return None;
    }
    Some(PairReason {
        exam,
        other,
        students: pair.students,
        points,
    })
}

// Returns whether the periods of two exams cost something in any part of the penalty.
pub(crate) fn is_costly(instance: &Instance, timetable: &Timetable, pair: &Conflict) -> bool
    requires exists { pair.now.exam < length timetable.now }
    requires other_exists { pair.now.other < length timetable.now }
    ensures { result ≡ is_costly instance.now timetable.now pair.now }
{
    match (timetable.get(pair.exam), timetable.get(pair.other)) {
        (Some(one), Some(other)) => cost_of_all(instance, one.period, other.period) > 0,
        _ => false,
    }
}

// Returns the costs of two periods in all parts together.
fn cost_of_all(instance: &Instance, one: PeriodNo, other: PeriodNo) -> u64
    ensures { result ≡ cost_in instance.now (kind_of PairKind.Row) one other
        + cost_in instance.now (kind_of PairKind.Day) one other
        + cost_in instance.now (kind_of PairKind.Spread) one other
        + cost_in instance.now (kind_of PairKind.Night) one other }
{
    let row = cost_of(instance, PairKind::Row, one, other);
    let day = cost_of(instance, PairKind::Day, one, other);
    let spread = cost_of(instance, PairKind::Spread, one, other);
    let night = cost_of(instance, PairKind::Night, one, other);
    row + day + spread + night
}

// Returns the cost of two exams by their places.
fn cost_between(
    instance: &Instance,
    kind: PairKind,
    one: Option<Place>,
    other: Option<Place>,
) -> u64
    ensures cost { result ≡ cost_between (cost_in instance.now (kind_of kind))
        (option_map (λ at. at.period) one) (option_map (λ at. at.period) other) }
    ensures small { result ≤ MAX_AMOUNT }
{
    match (one, other) {
        (Some(one), Some(other)) => cost_of(instance, kind, one.period, other.period),
        _ => 0,
    }
}

// Returns the cost of two periods.
fn cost_of(instance: &Instance, kind: PairKind, one: PeriodNo, other: PeriodNo) -> u64
    ensures cost { result ≡ cost_in instance.now (kind_of kind) one other }
    ensures small { result ≤ MAX_AMOUNT }
{
    instance.lemma_limits();
    match kind {
        PairKind::Row => RowCost(instance).cost(one, other),
        PairKind::Day => DayCost(instance).cost(one, other),
        PairKind::Spread => SpreadCost(instance).cost(one, other),
        PairKind::Night => NightCost(instance).cost(one, other),
    }
}
