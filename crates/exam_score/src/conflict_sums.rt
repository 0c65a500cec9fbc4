// Row, day, spread and night: each pair of exams that share students, if these are listed.
ghost use Rattle.std.specs.Prelude.{◌≡◌, ◌<◌, ◌≤◌, ◌+◌, ◌*◌, ◌^◌, ◌⊎◌, IfOk, IsTrue, length, map, slice_index};
ghost use Rattle.exam_model.specs.Fits.{period_of};
ghost use Rattle.exam_model.specs.PairCost.{cost_between};
ghost use Rattle.exam_model.specs.Timetable.{period_number};
ghost use Rattle.exam_score.specs.ConflictCosts.{AreInTimetable, IsReach, IsSmallCost, conflicts_cost};
ghost use Rattle.exam_score.specs.Cost.{night_cost};
ghost use Rattle.exam_score.specs.Kinds.{EachInTable, TableKind, table_amount, table_cost};
ghost use Rattle.exam_score.specs.CostRows.{costs_of, IsTable};

use crate::amounts::{Amounts, NOTHING};
use crate::cost_rows::{CostRow, costs_in};
use crate::pair_costs::NightCost;
use exam_model::{Conflict, Instance, PairCost, PeriodNo, Timetable};
use std::alloc::{AllocError, Global};

// The costs of two periods, and how far apart two are at most that cost anything.
#[derive(Clone, Copy)]
struct Costs<'a> {
    instance: &'a Instance,
    cost_rows: &'a [CostRow],
    reach: u32,
}

// Returns the cost of row, day and spread over all conflicts.
pub(crate) fn sums_of_conflicts(
    alloc: Global,
    instance: &Instance,
    cost_rows: &[CostRow],
    timetable: &Timetable,
    conflicts: &[Conflict],
) -> Result<Amounts<u64>, AllocError>
    requires table { IsTable instance.now cost_rows.now }
    requires exist { AreInTimetable timetable.now conflicts.now }
    requires few { (k : TableKind) →
        IsSmallCost (table_cost instance.now k) timetable.now conflicts.now }
    ensures { IfOk result (λ sums. (k : TableKind) → table_amount sums k
        ≡ conflicts_cost (table_cost instance.now k) timetable.now conflicts.now) }
{
    instance.lemma_limits();
    let periods = timetable.periods(alloc)?;
    let reach = reach_of(instance, cost_rows);
    let costs = Costs {
        instance,
        cost_rows,
        reach,
    };
    let mut sums = NOTHING;
    for conflict in conflicts {
        add_costs(&mut sums, &costs, &periods, conflict);
    }
    Ok(sums)
}

// Returns how far apart two periods are at most that cost anything.
fn reach_of(instance: &Instance, cost_rows: &[CostRow]) -> u32
    requires table { IsTable instance.now cost_rows.now }
    ensures { IsReach instance.now result }
{
    let mut reach = 0;
    for period in 0..instance.periods() {
        let back = period.saturating_sub(cost_rows[period as usize].first);
        reach += back.saturating_sub(reach); // the greater of both
    }
    reach
}

// Adds the costs of a conflict, by the periods of its exams.
fn add_costs(sums: &mut Amounts<u64>, costs: &Costs, periods: &[u32], conflict: &Conflict)
    requires table { IsTable costs.now.instance.now costs.now.cost_rows.now }
    requires reach { IsReach costs.now.instance.now costs.now.reach }
    requires exists { conflict.now.exam < length periods.now }
    requires other_exists { conflict.now.other < length periods.now }
    requires room { EachInTable (λ k. table_amount sums.old k
        + table_cost costs.now.instance.now k (slice_index periods.now conflict.now.exam)
        (slice_index periods.now conflict.now.other) * conflict.now.students < 2 ^ 64) }
    ensures { (k : TableKind) → table_amount sums.new k ≡ table_amount sums.old k
        + table_cost costs.now.instance.now k (slice_index periods.now conflict.now.exam)
        (slice_index periods.now conflict.now.other) * conflict.now.students }
{
    let one = periods[conflict.exam.get() as usize];
    let other = periods[conflict.other.get() as usize];
    if are_apart(one, other, costs.reach) {
        return; // as most conflicts
    }
    let (one, other) = (PeriodNo::new(one), PeriodNo::new(other));
    let more = costs_between(costs.instance, costs.cost_rows, other, one);
    sums.add(more, conflict.students);
}

// Returns whether two numbers differ by more than this.
fn are_apart(one: u32, other: u32, reach: u32) -> bool
    ensures { IsTrue result → (other + reach < one) ⊎ (one + reach < other) }
{
    one.abs_diff(other) > reach
}

// Returns the costs of two periods, by the cost row of the later one.
fn costs_between(
    instance: &Instance,
    cost_rows: &[CostRow],
    one: PeriodNo,
    other: PeriodNo,
) -> Amounts<u64>
    requires table { IsTable instance.now cost_rows.now }
    ensures { result ≡ costs_of instance.now one other }
{
    if one < other {
        return costs_below(instance, cost_rows, other, one);
    }
    costs_below(instance, cost_rows, one, other)
}

// Returns the costs of a period and one that isn't later.
fn costs_below(
    instance: &Instance,
    cost_rows: &[CostRow],
    period: PeriodNo,
    earlier: PeriodNo,
) -> Amounts<u64>
    requires table { IsTable instance.now cost_rows.now }
    requires earlier { earlier ≤ period }
    ensures { result ≡ costs_of instance.now period earlier }
{
    let Some(cost_row) = cost_rows.get(period.get() as usize) else {
        return NOTHING; // there is no such period
    };
    if earlier.get() < cost_row.first {
        return NOTHING; // as for most pairs of periods
    }
    costs_in(instance, &cost_row.costs, period, earlier)
}

// Returns the cost of nights over all conflicts. If the weight is 0, no conflict is read.
pub(crate) fn nights_of_conflicts(
    alloc: Global,
    instance: &Instance,
    timetable: &Timetable,
    conflicts: &[Conflict],
) -> Result<u64, AllocError>
    requires exist { AreInTimetable timetable.now conflicts.now }
    requires few { IsSmallCost (night_cost instance.now.periods instance.now.weights)
        timetable.now conflicts.now }
    ensures { IfOk result (λ total. total ≡ conflicts_cost
        (night_cost instance.now.periods instance.now.weights) timetable.now conflicts.now) }
{
    if instance.weights().night == 0 {
        return Ok(0);
    }
    let periods = timetable.periods(alloc)?;
    let mut total = 0;
    for conflict in conflicts {
        let night = night_at(instance, timetable, &periods, conflict);
        total += u64::from(conflict.students) * night;
    }
    Ok(total)
}

// Returns the cost of a night between a conflict's exams; nothing if one of them is not placed.
// Places are read only if the numbers of their periods are adjacent or equal.
fn night_at(instance: &Instance, timetable: &Timetable, periods: &[u32], conflict: &Conflict) -> u64
    requires exists { conflict.now.exam < length timetable.now }
    requires other_exists { conflict.now.other < length timetable.now }
    requires periods { periods.now ≡ map period_number timetable.now }
    ensures { result ≡ cost_between (night_cost instance.now.periods instance.now.weights)
        (period_of timetable.now conflict.now.exam) (period_of timetable.now conflict.now.other) }
{
    let (exam, other) = (conflict.exam, conflict.other);
    if are_apart(
        periods[exam.get() as usize],
        periods[other.get() as usize],
        1,
    ) {
        return 0;
    }
    match (timetable.get(exam), timetable.get(other)) {
        (Some(one), Some(two)) => NightCost(instance).cost(one.period, two.period),
        _ => 0,
    }
}
