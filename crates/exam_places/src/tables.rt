// The tables of an unplaced exam.
ghost use Rattle.std.specs.Prelude.{IfOk};
ghost use Rattle.exam_places.specs.Unplaced.{AreTables, IsUnplaced};

use crate::period_table::{PeriodEntry, period_entries};
use crate::place_table::{PlaceEntry, place_entries, room_keepers};
use crate::unplaced_exam::UnplacedExam;
use exam_score::sizes_of;
use std::alloc::{AllocError, Global};

/// What an exam meets in each period and at each place, which exams must have their rooms to
/// themselves, and the sizes of all exams.
#[derive(Drop)]
pub(crate) struct ExamTables {
    pub periods: Vec<PeriodEntry>,
    pub places: Vec<PlaceEntry>,
    pub keepers: Vec<bool>,
    pub sizes: Vec<u32>,
}

/// Returns the tables of an exam.
pub(crate) fn tables_of(alloc: Global, unplaced: &UnplacedExam) -> Result<ExamTables, AllocError>
    requires { IsUnplaced unplaced.now }
    ensures { IfOk result (AreTables unplaced.now) }
{
    let keepers = room_keepers(alloc, unplaced.instance)?;
    Ok(ExamTables {
        periods: period_entries(alloc, unplaced)?,
        places: place_entries(alloc, unplaced, &keepers)?,
        keepers,
        sizes: sizes_of(alloc, unplaced.enrolments)?,
    })
}
