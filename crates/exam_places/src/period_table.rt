// What an exam meets in each period: a table that is filled in one pass over the exams.
ghost use Rattle.std.specs.Prelude.{◌≡◌, ◌<◌, ◌≤◌, ◌*◌, length, IfOk};
ghost use Rattle.exam_terms.specs.declared.limits.TheConstants.{MAX_PAIRS};
ghost use Rattle.exam_places.specs.PeriodTable.{IsPeriodTable, with_shared};
ghost use Rattle.exam_places.specs.Unplaced.{IsUnplaced};

use crate::firsts::found_or;
use crate::shared::shared_of;
use crate::unplaced_exam::UnplacedExam;
use exam_model::ExamNo;
use std::alloc::{AllocError, Global};

/// What an exam meets in a period: how many students it shares with the exams there, a student
/// with two of them counted twice, and the first of these that shares one.
#[derive(Clone, Copy)]
pub(crate) struct PeriodEntry {
    pub shared: u64,
    pub first: Option<ExamNo>,
}

/// Returns the entries of all periods.
pub(crate) fn period_entries(
    alloc: Global,
    unplaced: &UnplacedExam,
) -> Result<Vec<PeriodEntry>, AllocError>
    requires { IsUnplaced unplaced.now }
    ensures { IfOk result (λ table. IsPeriodTable unplaced.now
        (length unplaced.now.instance.now.exams) table.items) }
{
    unplaced.enrolments.lemma_order();
    let instance = unplaced.instance;
    let none = PeriodEntry {
        shared: 0,
        first: None,
    };
    let mut table = vec![in alloc; none; instance.periods() as usize]?;
    'exams: for number in 0..instance.exams() {
        let exam = ExamNo::new(number);
        let Some(place) = unplaced.timetable.get(exam) else {
            continue;
        };
        let period = place.period.get() as usize;
        let entry = with_exam(table[period], unplaced, exam);
        table[period] = entry;
    }
    Ok(table)
}

// Returns an entry with one more exam.
fn with_exam(entry: PeriodEntry, unplaced: &UnplacedExam, exam: ExamNo) -> PeriodEntry
    requires unplaced { IsUnplaced unplaced.now }
    requires exists { exam < length unplaced.now.instance.now.exams }
    requires few { entry.shared ≤ exam * MAX_PAIRS }
    ensures { result ≡ with_shared unplaced.now exam entry }
{
    let shared = shared_of(unplaced.enrolments, unplaced.exam, exam);
    PeriodEntry {
        shared: entry.shared + shared,
        first: found_or(entry.first, 0 < shared, exam),
    }
}
