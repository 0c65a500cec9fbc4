// The costs of pairs of periods, each looked up once.
ghost use Rattle.std.specs.Prelude.{◌≡◌, ◌<◌, ◌≤◌, ℕ, ◌↔◌, IsTrue, length, IfOk};
ghost use Rattle.exam_score.specs.Kinds.{by_table};
ghost use Rattle.exam_score.specs.CostRows.{costs_of, IsFirstCost, IsCostRow, IsTable};

use crate::amounts::Amounts;
use crate::pair_costs::{DayCost, RowCost, SpreadCost};
use exam_model::{Instance, PairCost, PeriodNo};
use std::alloc::{AllocError, Global};

// The costs of a period with each period up to itself, and the first of these that costs anything.
#[derive(Drop)]
pub(crate) struct CostRow {
    pub costs: Vec<Amounts<u32>>,
    pub first: u32,
}

// Returns a cost row for each period.
pub(crate) fn table_of(alloc: Global, instance: &Instance) -> Result<Vec<CostRow>, AllocError>
    ensures { IfOk result (λ cost_rows. IsTable instance.now cost_rows.items) }
{
    let mut cost_rows = Vec::with_capacity(alloc, instance.periods() as usize)?;
    for period in 0..instance.periods() {
        let period = PeriodNo::new(period);
        let costs = cost_row_of(alloc, instance, period)?;
        let first = first_cost(instance, &costs, period);
        cost_rows.push(CostRow { costs, first })?;
    }
    Ok(cost_rows)
}

// Returns the costs of a period with each period up to itself.
fn cost_row_of(
    alloc: Global,
    instance: &Instance,
    period: PeriodNo,
) -> Result<Vec<Amounts<u32>>, AllocError>
    requires exists { period < length instance.now.periods }
    ensures { IfOk result (λ cost_row. IsCostRow instance.now period cost_row.items) }
{
    instance.lemma_limits();
    let count = period.get() + 1;
    let mut cost_row = Vec::with_capacity(alloc, count as usize)?;
    for other in 0..count {
        cost_row.push(costs_between(instance, period, PeriodNo::new(other)))?;
    }
    Ok(cost_row)
}

fn costs_between(instance: &Instance, period: PeriodNo, other: PeriodNo) -> Amounts<u32>
    ensures { result ≡ costs_of instance.now period other }
{
    Amounts {
        row: RowCost(instance).cost(other, period) as u32,
        day: DayCost(instance).cost(other, period) as u32,
        spread: SpreadCost(instance).cost(other, period) as u32,
    }
}

// Returns the first period up to this one that costs anything with it, by its cost row; if there is
// none, the period after it.
fn first_cost(instance: &Instance, cost_row: &[Amounts<u32>], period: PeriodNo) -> u32
    requires exists { period < length instance.now.periods }
    requires cost_row { IsCostRow instance.now period cost_row.now }
    ensures { IsFirstCost instance.now period result }
{
    instance.lemma_limits();
    let count = period.get() + 1;
    for other in 0..count {
        let costs = costs_in(instance, cost_row, period, PeriodNo::new(other));
        if !is_free(costs) {
            return other;
        }
    }
    count
}

fn is_free(costs: Amounts<u64>) -> bool
    ensures { IsTrue result ↔ (costs ≡ by_table (λ k. 0)) }
{
    costs.row == 0 && costs.day == 0 && costs.spread == 0
}

// Returns the costs of a period with one that isn't later, by its cost row.
pub(crate) fn costs_in(
    instance: &Instance,
    cost_row: &[Amounts<u32>],
    period: PeriodNo,
    other: PeriodNo,
) -> Amounts<u64>
    requires cost_row { IsCostRow instance.now period cost_row.now }
    requires earlier { other ≤ period }
    ensures { result ≡ costs_of instance.now period other }
{
    cost_row[other.get() as usize].into_u64()
}
