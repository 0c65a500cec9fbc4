// The shares of exams in the front load, with sizes by the rows.
ghost use Rattle.std.specs.Prelude.{◌≡◌, length, IfOk};
ghost use Rattle.exam_publish.specs.Rows.{ArePublishedRows};
ghost use Rattle.exam_publish.specs.Shares.{exam_shares};
ghost use Rattle.exam_publish.specs.Tallies.{AreTallied};
ghost use Rattle.exam_publish.specs.Groups.{is_of_exam};

use crate::seat_row::SeatRow;
use exam_model::{ExamNo, Instance, Timetable};
use exam_score::front_share;
use std::alloc::{AllocError, Global};

/// Returns the share of each exam in the front load.
pub(crate) fn exam_shares(
    alloc: Global,
    instance: &Instance,
    rows: &[SeatRow],
    timetable: &Timetable,
) -> Result<Vec<u64>, AllocError>
    requires { ArePublishedRows instance.now rows.now timetable.now }
    ensures { IfOk result (λ shares. shares.items
        ≡ exam_shares instance.now rows.now timetable.now) }
{
    let sizes = sizes_of(alloc, instance, rows, timetable)?;
    let mut shares = Vec::with_capacity(alloc, sizes.len())?;
    'exams: for exam in 0..instance.exams() {
        let exam = ExamNo::new(exam);
        let place = timetable.get(exam);
        shares.push(front_share(instance, &sizes, exam, place))?;
    }
    Ok(shares)
}

// Returns how many rows each exam has.
fn sizes_of(
    alloc: Global,
    instance: &Instance,
    rows: &[SeatRow],
    timetable: &Timetable,
) -> Result<Vec<u32>, AllocError>
    requires { ArePublishedRows instance.now rows.now timetable.now }
    ensures { IfOk result (λ sizes. AreTallied (λ e. 1) is_of_exam (length instance.now.exams)
        rows.now sizes.items) }
{
    let mut sizes = vec![in alloc; 0u32; timetable.exams() as usize]?;
    'rows: for row in rows {
        let exam = row.exam.get() as usize;
        let size = sizes[exam] + 1;
        sizes[exam] = size;
    }
    Ok(sizes)
}
