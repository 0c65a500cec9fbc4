// The personal penalty.
ghost use Rattle.std.specs.Prelude.{◌≡◌, ◌*◌, ◌≤◌, length, sum_by};
ghost use Rattle.exam_terms.specs.declared.limits.TheConstants.{MAX_AMOUNT, MAX_EXAMS};
ghost use Rattle.exam_score.specs.Personal.{personal_of};
ghost use Rattle.exam_score.specs.Regrouping.{candidate_cost};

use crate::pair_costs::{DayCost, NightCost, RowCost, SpreadCost};
use crate::personal_parts::PersonalParts;
use exam_model::{Instance, PairCost, PeriodNo};

/// Returns the cost of one candidate's exams, by their periods: row, day, spread and night over all
/// pairs of places in the list. A period that doesn't exist costs nothing.
pub fn personal(instance: &Instance, periods: &[PeriodNo]) -> PersonalParts
    requires { length periods.now ≤ MAX_EXAMS }
    ensures { result ≡ personal_of instance.now.periods instance.now.weights periods.now }
{
    instance.lemma_limits();
    let row = cost_of_pairs(&RowCost(instance), periods);
    let day = cost_of_pairs(&DayCost(instance), periods);
    let spread = cost_of_pairs(&SpreadCost(instance), periods);
    let night = cost_of_pairs(&NightCost(instance), periods);
    PersonalParts::of(row, day, spread, night)
}

// Returns the cost of all pairs of places.
fn cost_of_pairs<C: PairCost>(cost: &C, periods: &[PeriodNo]) -> u64
    requires { length periods.now ≤ MAX_EXAMS }
    ensures cost { result ≡ candidate_cost (C.cost_of cost.now) periods.now }
    ensures small { result ≤ MAX_EXAMS * (MAX_EXAMS * MAX_AMOUNT) }
{
    let mut total = 0;
    let mut rest = periods;
    while let Some((period, others)) = rest.split_first() {
        total += cost_with_exam(cost, *period, others);
        rest = others;
    }
    total
}

// Returns the cost of one exam with the others.
fn cost_with_exam<C: PairCost>(cost: &C, period: PeriodNo, others: &[PeriodNo]) -> u64
    requires { length others.now ≤ MAX_EXAMS }
    ensures sum { result ≡ sum_by (C.cost_of cost.now period) others.now }
    ensures small { result ≤ length others.now * MAX_AMOUNT }
{
    let mut total = 0;
    for other in others {
        total += cost.cost(period, *other);
    }
    total
}
