// The parts of pairs of exams: row, day, spread and night.
ghost use Rattle.std.specs.Prelude.{◌≡◌, ◌≤◌, length, IfOk};
ghost use Rattle.exam_model.specs.Conflicts.{conflicts_of};
ghost use Rattle.exam_model.specs.Fits.{period_of};
ghost use Rattle.exam_score.specs.PairSums.{ArePairParts};

use crate::conflict_sums::{nights_of_conflicts, sums_of_conflicts};
use crate::cost_rows::table_of;
use crate::nights::nights_of_pairs;
use crate::personal_parts::PersonalParts;
use crate::sittings::sittings_of;
use crate::tallies::tallies_of;
use crate::walk::sums_of_pairs;
use exam_model::{Conflict, Enrolments, Instance, Timetable};
use std::alloc::{AllocError, Global};

// Returns the sums over all pairs of exams: the number of students who sit both, times the cost of
// their periods.
pub(crate) fn pair_parts(
    alloc: Global,
    instance: &Instance,
    enrolments: &Enrolments,
    timetable: &Timetable,
) -> Result<PersonalParts, AllocError>
    requires exams { length timetable.now ≡ length enrolments.now }
    ensures { IfOk result (ArePairParts instance.now enrolments.now timetable.now) }
{
    match enrolments.conflicts() {
        Some(conflicts) => parts_of_conflicts(alloc, instance, enrolments, timetable, conflicts),
        None => parts_of_tallies(alloc, instance, enrolments, timetable),
    }
}

// Returns the same by the pairs of exams that share students.
fn parts_of_conflicts(
    alloc: Global,
    instance: &Instance,
    enrolments: &Enrolments,
    timetable: &Timetable,
    conflicts: &[Conflict],
) -> Result<PersonalParts, AllocError>
    requires exams { length timetable.now ≡ length enrolments.now }
    requires listed { conflicts.now ≡ conflicts_of enrolments.now }
    ensures { IfOk result (ArePairParts instance.now enrolments.now timetable.now) }
{
    enrolments.lemma_order();
    instance.lemma_limits();
    let cost_rows = table_of(alloc, instance)?;
    let sums = sums_of_conflicts(alloc, instance, &cost_rows, timetable, conflicts)?;
    let night = nights_of_conflicts(alloc, instance, timetable, conflicts)?;
    Ok(PersonalParts::of(sums.row, sums.day, sums.spread, night))
}

// Returns the same by the exams of each student in each period.
fn parts_of_tallies(
    alloc: Global,
    instance: &Instance,
    enrolments: &Enrolments,
    timetable: &Timetable,
) -> Result<PersonalParts, AllocError>
    requires exams { length timetable.now ≡ length enrolments.now }
    ensures { IfOk result (ArePairParts instance.now enrolments.now timetable.now) }
{
    enrolments.lemma_order();
    instance.lemma_limits();
    let sittings = sittings_of(alloc, timetable)?;
    let tallies = tallies_of(alloc, enrolments, &sittings)?;
    let cost_rows = table_of(alloc, instance)?;
    let sums = sums_of_pairs(instance, &cost_rows, &tallies);
    let night = nights_of_pairs(instance, &tallies);
    Ok(PersonalParts::of(sums.row, sums.day, sums.spread, night))
}
