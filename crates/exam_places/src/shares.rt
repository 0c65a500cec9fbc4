// What an exam adds to the penalty of a timetable that doesn't place it.
ghost use Rattle.std.specs.Prelude.{◌≡◌, ◌<◌, ◌≤◌, ◌*◌, ◌^◌, ◌&&◌, ℕ, Some, length, not, slice_get};
ghost use Rattle.exam_terms.specs.declared.limits.TheConstants.{MAX_AMOUNT, MAX_EXAMS, MAX_PAIRS, MAX_PERIODS};
ghost use Rattle.exam_model.specs.Fits.{PlaceExists, period_of};
ghost use Rattle.exam_model.specs.Sums.{sum_below};
ghost use Rattle.exam_score.specs.Track.{period_penalty};
ghost use Rattle.exam_places.specs.Answers.{place};
ghost use Rattle.exam_places.specs.Firsts.{is_found};
ghost use Rattle.exam_places.specs.PeriodTable.{shared_in};
ghost use Rattle.exam_places.specs.PlaceTable.{place_entry};
ghost use Rattle.exam_places.specs.Shares.{cost_beside, mixed_share, place_share};
ghost use Rattle.exam_places.specs.Unplaced.{AreTables, IsUnplaced, share_of};

use crate::firsts::is_found;
use crate::period_table::PeriodEntry;
use crate::place_table::PlaceEntry;
use crate::tables::ExamTables;
use crate::unplaced_exam::UnplacedExam;
use exam_model::{ExamNo, Instance, PairCost, PeriodNo, Place, RoomNo};
use exam_score::{DayCost, NightCost, RowCost, SpreadCost, front_share};

/// Returns what the exam adds in a period, in any room.
pub(crate) fn period_share(unplaced: &UnplacedExam, tables: &ExamTables, period: PeriodNo) -> u64
    requires unplaced { IsUnplaced unplaced.now }
    requires tables { AreTables unplaced.now tables.now }
    requires exists { period < length unplaced.now.instance.now.periods }
    ensures share { result ≡ share_of unplaced.now (place period 0) }
    ensures small { result ≤ 2 ^ 60 }
{
    let instance = unplaced.instance;
    let sizes = tables.sizes.as_slice();
    instance.lemma_limits();
    let room = RoomNo::new(0);
    let in_row = cost_beside(&RowCost(instance), unplaced, tables, period);
    let in_day = cost_beside(&DayCost(instance), unplaced, tables, period);
    let in_spread = cost_beside(&SpreadCost(instance), unplaced, tables, period);
    let over_night = cost_beside(&NightCost(instance), unplaced, tables, period);
    let place = Place { period, room };
    let front = front_share(instance, sizes, unplaced.exam, Some(place));
    let penalty = penalty_of_period(instance, period);
    in_row + in_day + in_spread + over_night + front + penalty
}

// Returns the cost of the exam in a period with all placed exams, for the students that it shares
// with them.
fn cost_beside<C: PairCost>(
    cost: &C,
    unplaced: &UnplacedExam,
    tables: &ExamTables,
    period: PeriodNo,
) -> u64
    requires unplaced { IsUnplaced unplaced.now }
    requires tables { AreTables unplaced.now tables.now }
    ensures sum { result ≡ cost_beside (C.cost_of cost.now) unplaced.now.enrolments.now
        (period_of unplaced.now.timetable.now) unplaced.now.exam period }
    ensures small { result ≤ MAX_PERIODS * (MAX_EXAMS * MAX_PAIRS * MAX_AMOUNT) }
{
    unplaced.instance.lemma_limits();
    unplaced.enrolments.lemma_order();
    sum_by_period(cost, &tables.periods, period)
}

// Returns the same by a table of the periods.
fn sum_by_period<C: PairCost>(cost: &C, table: &[PeriodEntry], period: PeriodNo) -> u64
    requires few { length table.now ≤ MAX_PERIODS }
    requires small { (q : ℕ) → shared_in table.now q ≤ MAX_EXAMS * MAX_PAIRS }
    ensures sum { result ≡ sum_below (length table.now) (λ q. shared_in table.now q
        * C.cost_of cost.now period q) }
    ensures small { result ≤ MAX_PERIODS * (MAX_EXAMS * MAX_PAIRS * MAX_AMOUNT) }
{
    let mut total = 0;
    for (number, entry) in table.iter().enumerate() {
        let other = PeriodNo::new(number as u32);
        total += cost_in(cost, entry.shared, period, other);
    }
    total
}

// Returns the cost with the exams of one period, with which the exam shares so many students.
fn cost_in<C: PairCost>(cost: &C, shared: u64, period: PeriodNo, other: PeriodNo) -> u64
    requires few { shared ≤ MAX_EXAMS * MAX_PAIRS }
    ensures cost { result ≡ shared * C.cost_of cost.now period other }
    ensures small { result ≤ MAX_EXAMS * MAX_PAIRS * MAX_AMOUNT }
{
    shared * cost.cost(period, other)
}

// Returns the penalty of a period.
fn penalty_of_period(instance: &Instance, period: PeriodNo) -> u64
    requires exists { period < length instance.now.periods }
    ensures penalty { result ≡ period_penalty (slice_get instance.now.periods period) }
    ensures small { result ≤ MAX_AMOUNT }
{
    instance.lemma_limits();
    u64::from(instance.period(period).penalty)
}

/// Returns what an exam adds at a place, apart from its period.
pub(crate) fn place_share(unplaced: &UnplacedExam, entry: &PlaceEntry, at: &Place) -> u64
    requires unplaced { IsUnplaced unplaced.now }
    requires exists { PlaceExists unplaced.now.instance.now (Some at.now) }
    requires entry { entry.now
        ≡ place_entry unplaced.now (length unplaced.now.instance.now.exams) at.now }
    ensures share { result ≡ place_share unplaced.now.instance.now unplaced.now.timetable.now
        unplaced.now.exam at.now }
    ensures small { result ≤ 2 * MAX_AMOUNT }
{
    let instance = unplaced.instance;
    instance.lemma_limits();
    let penalty = u64::from(instance.room(at.room).penalty);
    mixed_share(unplaced, entry, at) + penalty
}

// Returns what an exam adds to the mixed part at a place: the weight if exams are there and none of
// them lasts as long.
fn mixed_share(unplaced: &UnplacedExam, entry: &PlaceEntry, at: &Place) -> u64
    requires entry { entry.now
        ≡ place_entry unplaced.now (length unplaced.now.instance.now.exams) at.now }
    ensures share { result ≡ mixed_share unplaced.now.instance.now unplaced.now.timetable.now
        unplaced.now.exam at.now }
    ensures small { result ≤ MAX_AMOUNT }
{
    unplaced.instance.lemma_limits();
    if are_mixed(entry.first, entry.as_long) {
        u64::from(unplaced.instance.weights().mixed)
    } else {
        0
    }
}

// Returns whether an exam that comes to others is not as long as one of them.
fn are_mixed(first: Option<ExamNo>, as_long: Option<ExamNo>) -> bool
    ensures { result ≡ (is_found first && not (is_found as_long)) }
{
    is_found(first) && !is_found(as_long)
}
