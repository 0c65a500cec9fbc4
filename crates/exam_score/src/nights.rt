// The night part: each tally with those of its student in the period before.
ghost use Rattle.std.specs.Prelude.{◌≡◌, ◌≤◌, ◌<◌, length, take, slice_index_or, sum_by};
ghost use Rattle.exam_terms.specs.declared.limits.TheConstants.{MAX_PAIRS};
ghost use Rattle.exam_score.specs.Cost.{night_cost};
ghost use Rattle.exam_score.specs.Tallies.{cost_with_tally, tally_cost, row_count};
ghost use Rattle.exam_score.specs.TallyLinks.{AreLinked};
ghost use Rattle.exam_score.specs.declared.tallies.Tally.{Tally};

use crate::pair_costs::NightCost;
use crate::tallies::Tally;
use crate::walk::earlier_tally;
use exam_model::{Instance, PairCost};

// Returns the cost of nights over all pairs of tallies. If the weight is 0, no tally is read.
pub(crate) fn nights_of_pairs(instance: &Instance, tallies: &[Tally]) -> u64
    requires linked { AreLinked tallies.now }
    requires few { row_count tallies.now ≤ MAX_PAIRS }
    ensures { result
        ≡ tally_cost (night_cost instance.now.periods instance.now.weights) tallies.now }
{
    instance.lemma_limits();
    let weights = instance.weights();
    if weights.night == 0 {
        return 0;
    }
    let mut total = 0;
    for (at, tally) in tallies.iter().enumerate() {
        let more = nights_with_exam(instance, tallies, at, tally);
        let exams = u64::from(tally.exams);
        total += more * exams;
    }
    total
}

// Returns the cost of one exam of the tally at an index with the earlier tallies.
fn nights_with_exam(instance: &Instance, tallies: &[Tally], at: usize, tally: &Tally) -> u64
    requires within { at < length tallies.now }
    requires here { (d : Tally) → slice_index_or tallies.now at d ≡ tally.now }
    requires linked { AreLinked tallies.now }
    requires few { row_count tallies.now ≤ MAX_PAIRS }
    ensures { result ≡ sum_by
        (cost_with_tally (night_cost instance.now.periods instance.now.weights) tally.now)
        (take at tallies.now) }
{
    instance.lemma_limits();
    let first = tally.period.get().saturating_sub(1); // no earlier period costs anything
    let mut total = 0;
    let mut next = tally.before;
    while let Some(other) = earlier_tally(tallies, next, first) {
        let more = night_between(instance, tally, &other);
        total += more;
        next = other.before;
    }
    total
}

// Returns the cost of one exam of a tally with those of another one.
fn night_between(instance: &Instance, tally: &Tally, other: &Tally) -> u64
    ensures { result ≡ cost_with_tally (night_cost instance.now.periods instance.now.weights)
        tally.now other.now }
{
    if tally.student != other.student {
        return 0;
    }
    u64::from(other.exams) * NightCost(instance).cost(other.period, tally.period)
}
