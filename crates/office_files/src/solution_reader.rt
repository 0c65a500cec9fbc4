// Reading a solution file.
ghost use Rattle.std.specs.Prelude.{◌≡◌, ◌≢◌, ◌+◌, ◌≤◌, All, length, map, Some, None, IfOk, IfErr};
ghost use Rattle.exam_terms.specs.declared.limits.TheConstants.{MAX_EXAMS, TEXT_BYTES};
ghost use Rattle.exam_model.specs.Fits.{PlaceExists};
ghost use Rattle.exam_model.specs.Timetable.{Placing};
ghost use Rattle.office_files.specs.Faults.{HasNoLine};
ghost use Rattle.office_files.specs.FirstFault.{first_solution_fault};
ghost use Rattle.office_files.specs.Lines.{line_count};
ghost use Rattle.office_files.specs.Reading.{AnswersReading};
ghost use Rattle.office_files.specs.SolutionText.{timetable_in, solution_in, SolutionText};

use crate::counts::Counts;
use crate::fault::{FaultKind, FileFault};
use crate::lines::{Lines, line_count};
use crate::sections::all_items;
use exam_model::{ExamNo, Instance, Place, Timetable};
use exam_terms::limits::TEXT_BYTES;
use std::alloc::Global;

/// Returns the complete timetable that a file describes for an instance (ITC 2007, output format).
/// `Err` is the fault of the first faulty line, and in it that of the first faulty field; the end
/// of the file counts as one more line. `TooLong` (above 1,048,576 bytes) and `NoMemory` have line
/// 0.
pub fn read_solution(
    alloc: Global,
    source: &[u8],
    instance: &Instance,
) -> Result<Timetable, FileFault>
    // The text describes the result.
    ensures reading { IfOk result (λ read. SolutionText source.now instance.now read) }
    // A text refused with any other fault than out of memory is invalid, and no text describes two
    // timetables.
    ensures only { IfErr result (λ fault. fault.what ≢ FaultKind.NoMemory
        → (T : Placing) → SolutionText source.now instance.now T → ⊥) }
    ensures one { IfOk result (λ read. (T : Placing) → SolutionText source.now instance.now T
        → T ≡ read) }
    ensures fits { IfOk result (λ read. length read ≡ length instance.now.exams) }
    ensures exist { IfOk result (λ read. All (PlaceExists instance.now) read) }

    // The fault is the first one of the text, and a text that is read has none.
    ensures first { IfErr result (λ fault. fault.what ≢ FaultKind.NoMemory
        → first_solution_fault instance.now source.now ≡ Some fault) }
    ensures faultless { IfOk result (λ _. first_solution_fault instance.now source.now ≡ None) }

    // The result is that of the reading of the text from its start, faults included.
    ensures exact { AnswersReading (λ read. read) result (solution_in instance.now source.now) }
    ensures memory { IfErr result HasNoLine }
{
    if source.len() > TEXT_BYTES {
        return Err(FileFault::TOO_LONG);
    }
    solution_in(alloc, source, instance)
}

// Returns the timetable of a file that is not too long, for an instance.
fn solution_in(alloc: Global, source: &[u8], instance: &Instance) -> Result<Timetable, FileFault>
    requires within { length source.now ≤ TEXT_BYTES }
    ensures exact { AnswersReading (λ read. read) result (solution_in instance.now source.now) }
    ensures exist { IfOk result (λ read. All (PlaceExists instance.now) read) }
    ensures memory { IfErr result HasNoLine }
{
    let counts = Counts {
        exams: instance.exams(),
        periods: instance.periods(),
        rooms: instance.rooms(),
    };
    timetable_in(alloc, source, counts)
}

// Returns the timetable of a file that is not too long, by the counts of what its lines may name.
#[tactic(auto, using(crate::proofs::SectionLemmas::section_facts))]
fn timetable_in(alloc: Global, source: &[u8], counts: Counts) -> Result<Timetable, FileFault>
    requires within { length source.now ≤ TEXT_BYTES }
    requires some { 1 ≤ counts.exams }
    requires most { counts.exams ≤ MAX_EXAMS }
    ensures exact { AnswersReading (λ read. read) result (timetable_in counts source.now) }
    ensures memory { IfErr result HasNoLine }
{
    let places: Vec<Place> = all_items(alloc, Lines::new(source), counts)?;
    if places.len() != counts.exams as usize {
        return Err(FileFault {
            line: line_count(source) + 1,
            what: FaultKind::CountMismatch,
        });
    }
    timetable_of(alloc, &places)
}

// Returns the complete timetable with these places.
#[tactic(auto, using(crate::proofs::SolutionLemmas::all_placed))]
fn timetable_of(alloc: Global, places: &[Place]) -> Result<Timetable, FileFault>
    requires some { 1 ≤ length places.now }
    requires most { length places.now ≤ MAX_EXAMS }
    ensures made { IfOk result (λ made. made ≡ map Some places.now) }
    ensures memory { IfErr result (λ fault. (fault.what ≡ FaultKind.NoMemory) × (fault.line ≡ 0)) }
{
    let mut timetable = Timetable::new(alloc, places.len() as u32)?;
    for (exam, place) in places.iter().enumerate() {
        timetable.set(ExamNo::new(exam as u32), *place);
    }
    Ok(timetable)
}
