// Row, day and spread: each tally with the earlier ones of its student.
ghost use Rattle.std.specs.Prelude.{◌≡◌, ℕ, ◌-◌, ◌≤◌, ◌<◌, length, take, slice_index_or, sum_by, IfSome, IfNone};
ghost use Rattle.exam_terms.specs.declared.limits.TheConstants.{MAX_PAIRS};
ghost use Rattle.exam_model.specs.Instance.{Session};
ghost use Rattle.exam_score.specs.Kinds.{TableKind, table_amount, table_cost};
ghost use Rattle.exam_score.specs.CostRows.{IsCostRow, IsTable, IsFirstCost};
ghost use Rattle.exam_score.specs.Tallies.{cost_with_tally, tally_cost, row_count};
ghost use Rattle.exam_score.specs.TallyLinks.{AreLinked, IsOnWay, IsLatestOfStudent, IsReached};
ghost use Rattle.exam_score.specs.declared.tallies.Tally.{Tally};

use crate::amounts::{Amounts, NOTHING};
use crate::cost_rows::{CostRow, costs_in};
use crate::tallies::Tally;
use exam_model::{Instance, StudentNo};

// Returns the cost over all pairs of tallies.
pub(crate) fn sums_of_pairs(
    instance: &Instance,
    cost_rows: &[CostRow],
    tallies: &[Tally],
) -> Amounts<u64>
    requires table { IsTable instance.now cost_rows.now }
    requires linked { AreLinked tallies.now }
    requires few { row_count tallies.now ≤ MAX_PAIRS }
    ensures { (k : TableKind) → table_amount result k
        ≡ tally_cost (table_cost instance.now k) tallies.now }
{
    instance.lemma_limits();
    let mut sums = NOTHING;
    for (at, tally) in tallies.iter().enumerate() {
        let Some((cost_row, end)) = cost_row_and_end(cost_rows, tallies, at, tally) else {
            continue; // as for most tallies
        };
        let more = cost_with_earlier(instance, cost_row, tallies, end, tally);
        sums.add(more, tally.exams);
    }
    sums
}

// Returns the cost row of the period of the tally at an index, and the index after the latest tally
// of its student that costs anything with it. `None`: there is no such tally.
fn cost_row_and_end<'a>(
    cost_rows: &'a [CostRow],
    tallies: &[Tally],
    at: usize,
    tally: &Tally,
) -> Option<(&'a CostRow, u32)>
    requires within { at < length tallies.now }
    requires here { (d : Tally) → slice_index_or tallies.now at d ≡ tally.now }
    requires linked { AreLinked tallies.now }
    ensures cost_row { (I : Session) → IsTable I cost_rows.now
        → IfSome result (λ found. IsCostRow I tally.now.period found.0.now.costs.items) }
    ensures first { (I : Session) → IsTable I cost_rows.now
        → IfSome result (λ found. IsFirstCost I tally.now.period found.0.now.first) }
    ensures end { IfSome result (λ found.
        IsLatestOfStudent tallies.now at tally.now.student found.0.now.first found.1) }
    ensures none { (I : Session) (k : TableKind) → IsTable I cost_rows.now → IfNone result (0
        ≡ sum_by (cost_with_tally (table_cost I k) tally.now) (take at tallies.now)) }
{
    let Some(cost_row) = cost_rows.get(tally.period.get() as usize) else {
        return None;
    };
    let end = latest_of_student(tallies, tally.before, cost_row.first, tally.student);
    if end == 0 {
        return None;
    }
    Some((cost_row, end))
}

// Returns the cost of one exam of a tally with those before the end, by the cost row of its period.
fn cost_with_earlier(
    instance: &Instance,
    cost_row: &CostRow,
    tallies: &[Tally],
    end: u32,
    tally: &Tally,
) -> Amounts<u64>
    requires within { end ≤ length tallies.now }
    requires own { (d : Tally) → 0 < end
        → (slice_index_or tallies.now (end - 1) d).student ≡ tally.now.student }
    requires not_later { (k : ℕ) (d : Tally) → k < end
        → (slice_index_or tallies.now k d).period ≤ tally.now.period }
    requires cost_row { IsCostRow instance.now tally.now.period cost_row.now.costs.items }
    requires first { IsFirstCost instance.now tally.now.period cost_row.now.first }
    requires linked { AreLinked tallies.now }
    requires few { row_count tallies.now ≤ MAX_PAIRS }
    ensures { (k : TableKind) → table_amount result k
        ≡ sum_by (cost_with_tally (table_cost instance.now k) tally.now) (take end tallies.now) }
{
    instance.lemma_limits();
    let mut sums = NOTHING;
    let mut next = end;
    while next != 0 {
        let other = tallies[next as usize - 1];
        let costs = costs_in(instance, &cost_row.costs, tally.period, other.period);
        sums.add(costs, other.exams);
        next = latest_of_student(tallies, other.before, cost_row.first, tally.student);
    }
    sums
}

// Returns the index after the latest tally of a student before this index; 0: there is none, or it
// is too early to cost anything.
fn latest_of_student(tallies: &[Tally], end: u32, first: u32, student: StudentNo) -> u32
    requires way { IsOnWay tallies.now end student }
    ensures { IsLatestOfStudent tallies.now end student first result }
{
    let mut next = end;
    while let Some(other) = earlier_tally(tallies, next, first) {
        if other.student == student {
            return next;
        }
        next = other.before;
    }
    0
}

// Returns the tally just before this index. `None`: its period is too early to cost anything, as
// are those of all before it.
pub(crate) fn earlier_tally(tallies: &[Tally], next: u32, first: u32) -> Option<Tally>
    requires within { next ≤ length tallies.now }
    ensures some { IfSome result (IsReached tallies.now next) }
    ensures useful { IfSome result (λ other. first ≤ other.period) }
    ensures none { IfNone result ((d : Tally) → 0 < next
        → (slice_index_or tallies.now (next - 1) d).period < first) }
{
    if next == 0 {
        return None;
    }
    let tally = tallies[next as usize - 1];
    if tally.period.get() < first {
        return None;
    }
    Some(tally)
}
