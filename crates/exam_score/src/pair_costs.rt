// The costs of two exams of one student: ITC 2007, soft constraints, and our own over night.
ghost use Rattle.std.specs.Prelude.{◌≡◌, ℕ};
ghost use Rattle.exam_model.specs.Distances.{next_day, is_same_day};
ghost use Rattle.exam_score.specs.Cost.{row_cost, day_cost, spread_cost, night_cost};
ghost use Rattle.exam_score.specs.CostLaws.{row_laws, day_laws, spread_laws, night_laws};
ghost use Rattle.exam_score.specs.TraitCosts.{row_cost_of, day_cost_of, spread_cost_of, night_cost_of};

use exam_model::{Instance, PairCost, PeriodNo};

/// Two exams in a row. A period that doesn't exist costs nothing, here and below.
#[derive(Clone, Copy)]
pub struct RowCost<'a>(pub &'a Instance);

/// Two exams in a day, neither in a row nor in one period.
#[derive(Clone, Copy)]
pub struct DayCost<'a>(pub &'a Instance);

/// Two exams within the period spread: 1 for each pair, in addition to its other costs.
#[derive(Clone, Copy)]
pub struct SpreadCost<'a>(pub &'a Instance);

/// Two exams over night: in adjacent periods whose dates are one day apart.
#[derive(Clone, Copy)]
pub struct NightCost<'a>(pub &'a Instance);

impl PairCost for RowCost<'_> {
    ghost cost_of = { row_cost_of };

    fn cost(&self, one: PeriodNo, other: PeriodNo) -> u64
        // The cost of the trait: the same number, cut at 100,000, which no weight of an instance
        // exceeds.
        ensures capped { result ≡ row_cost_of self.now one other }
        // The weight of two in a row if both periods exist, have one date and are adjacent, else 0.
        ensures case { result ≡ row_cost self.now.0.now.periods self.now.0.now.weights one other }
    {
        let adjacent = one.get().abs_diff(other.get()) == 1;
        let one_day = are_of_one_day(self.0, one, other);
        if one_day && adjacent {
            u64::from(self.0.weights().row)
        } else {
            0
        }
    }

    ghost laws = { row_laws };
}

impl PairCost for DayCost<'_> {
    ghost cost_of = { day_cost_of };

    fn cost(&self, one: PeriodNo, other: PeriodNo) -> u64
        // The cost of the trait: the same number, cut at 100,000.
        ensures capped { result ≡ day_cost_of self.now one other }
        // The weight of two in a day if both periods have one date and are at least two apart, else
        // 0.
        ensures case { result ≡ day_cost self.now.0.now.periods self.now.0.now.weights one other }
    {
        let apart = one.get().abs_diff(other.get()) >= 2;
        let together = are_of_one_day(self.0, one, other);
        if together && apart {
            u64::from(self.0.weights().day)
        } else {
            0
        }
    }

    ghost laws = { day_laws };
}

impl PairCost for SpreadCost<'_> {
    ghost cost_of = { spread_cost_of };

    fn cost(&self, one: PeriodNo, other: PeriodNo) -> u64
        // 1 if both periods exist and are at least one and at most the spread apart, overnight too,
        // else 0.
        ensures { result ≡ spread_cost_of self.now one other }
    {
        let gap = one.get().abs_diff(other.get());
        let exist = one.get() < self.0.periods() && other.get() < self.0.periods();
        let close = 1 <= gap && gap <= self.0.weights().spread;
        if exist && close { 1 } else { 0 }
    }

    ghost laws = { spread_laws };
}

impl PairCost for NightCost<'_> {
    ghost cost_of = { night_cost_of };

    fn cost(&self, one: PeriodNo, other: PeriodNo) -> u64
        // The cost of the trait: the same number, cut at 100,000.
        ensures capped { result ≡ night_cost_of self.now one other }
        // The weight of a night if both periods exist, are adjacent and have dates one day apart,
        // in either order, else 0.
        ensures case { result ≡ night_cost self.now.0.now.periods self.now.0.now.weights one other }
    {
        let beside = one.get().abs_diff(other.get()) == 1;
        if beside && are_of_next_days(self.0, one, other) {
            u64::from(self.0.weights().night)
        } else {
            0
        }
    }

    ghost laws = { night_laws };
}

// Returns whether two periods have the same date; false if one of them doesn't exist.
fn are_of_one_day(instance: &Instance, one: PeriodNo, other: PeriodNo) -> bool
    ensures { result ≡ is_same_day instance.now.periods one other }
{
    let periods = instance.periods();
    if one.get() >= periods || other.get() >= periods {
        return false;
    }
    instance.period(one).date == instance.period(other).date
}

// Returns whether the dates of two periods are one day apart; false if one of them doesn't exist.
fn are_of_next_days(instance: &Instance, one: PeriodNo, other: PeriodNo) -> bool
    ensures { result ≡ next_day instance.now.periods one other }
{
    if one.get() < instance.periods() && other.get() < instance.periods() {
        let date = instance.period(one).date;
        date.is_a_day_from(instance.period(other).date)
    } else {
        false
    }
}
