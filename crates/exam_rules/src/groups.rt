// The exams of each period, grouped once for all rules that search one period.
ghost use Rattle.std.specs.Prelude.{◌≡◌, ◌<◌, [], length, slice_index_or, All, IfOk};
ghost use Rattle.exam_rules.specs.Groups.{AreGroups};
ghost use Rattle.exam_rules.specs.Places.{PlaceExists};

use crate::exam_list::{ExamList, empty_lists};
use exam_model::{ExamNo, Instance, PeriodNo, Timetable};
use std::alloc::{AllocError, Global};

/// Returns the exams of each period, by the period's number.
pub(crate) fn by_period(
    alloc: Global,
    instance: &Instance,
    timetable: &Timetable,
) -> Result<Vec<ExamList>, AllocError>
    requires { All (PlaceExists instance.now) timetable.now }
    ensures { IfOk result (λ groups. AreGroups timetable.now (length instance.now.periods)
        (length timetable.now) groups.items) }
{
    let mut groups = empty_lists(alloc, instance.periods() as usize)?;
    'exams: for exam in 0..timetable.exams() {
        let exam = ExamNo::new(exam);
        let Some(place) = timetable.get(exam) else {
            continue;
        };
        groups[place.period.get() as usize].push(exam)?;
    }
    Ok(groups)
}

/// Returns the exams of a period from the groups of `by_period`.
pub(crate) fn group_of(groups: &[ExamList], period: PeriodNo) -> &[ExamNo]
    requires { period < length groups.now }
    ensures { result.now ≡ slice_index_or groups.now period [] }
{
    groups[period.get() as usize].as_slice()
}
