// Writing a solution file.
ghost use Rattle.std.specs.Prelude.{◌≡◌, ◌≢◌, ◌<◌, ℕ, length, Ok, IfOk, IfErr, IsSome, string_bytes};
ghost use Rattle.exam_model.specs.Instance.{Session};
ghost use Rattle.exam_model.specs.Timetable.{place_of};
ghost use Rattle.office_files.specs.CanonicalSolution.{canonical_solution, SuitsTimetable};
ghost use Rattle.office_files.specs.CanonicalSolution.{IsIncomplete};
ghost use Rattle.office_files.specs.Faults.{HasNoLine};
ghost use Rattle.office_files.specs.SolutionText.{solution_in, SolutionText};

use crate::fault::{FaultKind, FileFault};
use crate::line_writers::add_pair;
use exam_model::{ExamNo, Timetable};
use std::alloc::{AllocError, Global};

/// Returns the canonical text of a complete timetable (ITC 2007, output format), of at most 24,000
/// bytes. `Incomplete` has the line of the smallest exam that is not placed, from 1, and is judged
/// before any memory is allocated; `NoMemory` has line 0.
pub fn write_solution(alloc: Global, timetable: &Timetable) -> Result<Vec<u8>, FileFault>
    ensures text { IfOk result (λ text. text.items ≡ canonical_solution timetable.now) }
    ensures complete { IfOk result (λ _. (e : ℕ) → e < length timetable.now
        → IsSome (place_of timetable.now e)) }
    ensures incomplete { IfErr result (λ fault. fault.what ≢ FaultKind.NoMemory
        → IsIncomplete timetable.now fault) }
    ensures memory { IfErr result HasNoLine }

    // Memory is allocated only if each exam has a place.
    ensures placed { IfErr result (λ fault. fault.what ≡ FaultKind.NoMemory → (e : ℕ)
        → e < length timetable.now → IsSome (place_of timetable.now e)) }

    // The written text reads back as the same, for each instance that the timetable fits.
    ensures spells { IfOk result (λ text. (I : Session) → SuitsTimetable I timetable.now
        → SolutionText text.items I timetable.now) }
    ensures same { IfOk result (λ text. (I : Session) → SuitsTimetable I timetable.now
        → solution_in I text.items ≡ Ok timetable.now) }
{
    timetable.lemma_limit();
    if let Some(exam) = timetable.complete() {
        let line = exam.get() + 1;
        return Err(FileFault {
            line,
            what: FaultKind::Incomplete,
        });
    }
    let text = solution_text(alloc, timetable)?;
    Ok(text.into_bytes())
}

// Returns the text of a timetable, in which an exam without a place has no line.
fn solution_text(alloc: Global, timetable: &Timetable) -> Result<String, AllocError>
    ensures { IfOk result (λ text. string_bytes text ≡ canonical_solution timetable.now) }
{
    let mut text = String::new(alloc);
    for exam in 0..timetable.exams() {
        if let Some(place) = timetable.get(ExamNo::new(exam)) {
            add_pair(&mut text, place.period.get(), place.room.get())?;
        }
    }
    Ok(text)
}
