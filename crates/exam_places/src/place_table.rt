// What an exam meets at each place: a table that is filled in one pass over the exams.
ghost use Rattle.std.specs.Prelude.{◌≡◌, ◌<◌, ◌≤◌, ◌*◌, length, Some, IfOk};
ghost use Rattle.exam_terms.specs.declared.limits.TheConstants.{MAX_PAIRS};
ghost use Rattle.exam_model.specs.Fits.{PlaceExists};
ghost use Rattle.exam_places.specs.PlaceTable.{AreKeepers, IsPlaceTable, place_entry, with_exam};
ghost use Rattle.exam_places.specs.Unplaced.{IsUnplaced};

use crate::firsts::found_or;
use crate::unplaced_exam::UnplacedExam;
use exam_model::{ExamNo, Instance, Place};
use std::alloc::{AllocError, Global};

/// What an exam meets at a place: the students of the exams there, the first of these exams, the
/// first that lasts as long, and the first that must have its room to itself.
#[derive(Clone, Copy)]
pub(crate) struct PlaceEntry {
    pub students: u64,
    pub first: Option<ExamNo>,
    pub as_long: Option<ExamNo>,
    pub keeper: Option<ExamNo>,
}

/// Returns the entries of all places, period by period.
pub(crate) fn place_entries(
    alloc: Global,
    unplaced: &UnplacedExam,
    keepers: &[bool],
) -> Result<Vec<PlaceEntry>, AllocError>
    requires unplaced { IsUnplaced unplaced.now }
    requires keepers { AreKeepers unplaced.now.instance.now keepers.now }
    ensures { IfOk result (λ table. IsPlaceTable unplaced.now
        (length unplaced.now.instance.now.exams) table.items) }
{
    unplaced.enrolments.lemma_order();
    let instance = unplaced.instance;
    let none = PlaceEntry {
        students: 0,
        first: None,
        as_long: None,
        keeper: None,
    };
    let places = instance.periods() * instance.rooms();
    let mut table = vec![in alloc; none; places as usize]?;
    'exams: for number in 0..instance.exams() {
        let exam = ExamNo::new(number);
        let Some(place) = unplaced.timetable.get(exam) else {
            continue;
        };
        let slot = instance.slot_of(place);
        let entry = with_exam(table[slot], unplaced, keepers, exam);
        table[slot] = entry;
    }
    Ok(table)
}

// Returns an entry with one more exam.
fn with_exam(
    entry: PlaceEntry,
    unplaced: &UnplacedExam,
    keepers: &[bool],
    exam: ExamNo,
) -> PlaceEntry
    requires unplaced { IsUnplaced unplaced.now }
    requires keepers { AreKeepers unplaced.now.instance.now keepers.now }
    requires exists { exam < length unplaced.now.instance.now.exams }
    requires few { entry.students ≤ exam * MAX_PAIRS }
    ensures { result ≡ with_exam unplaced.now exam entry }
{
    let instance = unplaced.instance;
    let minutes = instance.exam(unplaced.exam).minutes;
    let as_long = instance.exam(exam).minutes == minutes;
    let keeps = keepers[exam.get() as usize];
    PlaceEntry {
        students: entry.students + u64::from(unplaced.enrolments.size(exam)),
        first: found_or(entry.first, true, exam),
        as_long: found_or(entry.as_long, as_long, exam),
        keeper: found_or(entry.keeper, keeps, exam),
    }
}

/// Returns for each exam whether it must have its room to itself.
pub(crate) fn room_keepers(alloc: Global, instance: &Instance) -> Result<Vec<bool>, AllocError>
    ensures { IfOk result (λ keepers. AreKeepers instance.now keepers.items) }
{
    let lines = instance.room_rules();
    let mut keepers = vec![in alloc; false; instance.exams() as usize]?;
    'lines: for line in lines {
        keepers[line.0.get() as usize] = true;
    }
    Ok(keepers)
}

/// Returns the entry of a place.
pub(crate) fn entry_at(unplaced: &UnplacedExam, table: &[PlaceEntry], at: &Place) -> PlaceEntry
    requires exists { PlaceExists unplaced.now.instance.now (Some at.now) }
    requires table { IsPlaceTable unplaced.now (length unplaced.now.instance.now.exams) table.now }
    ensures { result ≡ place_entry unplaced.now (length unplaced.now.instance.now.exams) at.now }
{
    table[unplaced.instance.slot_of(*at)]
}
