// Listing the places of an exam.
ghost use Rattle.std.specs.Prelude.{◌<◌, IfOk, length, string_bytes};
ghost use Rattle.exam_model.specs.Fits.{Fits};
ghost use Rattle.office_check.specs.Listing.{IsPlaceList};

use crate::checking::{CheckFault, SolutionTask};
use exam_model::{Enrolments, ExamNo, Instance, Timetable};
use exam_places::places;
use exam_score::score;
use office_output::write_text;
use office_reports::places_report;
use std::alloc::{AllocError, Global};
use std::io::Write;

/// Writes the list of every place for the exam: each place has the total penalty after the edit that
/// puts the exam there, or the breach that refuses it. The solution may break rules.
#[derive(Clone, Copy)]
pub struct Places(pub ExamNo);

/// The answer to a request for the places of an exam.
#[derive(Clone, Copy, Debug, PartialEq, Eq)]
pub enum PlacesAnswer {
    /// The list is written.
    Listed,
    /// The session has no such exam, so nothing is written.
    NoExam,
}

impl SolutionTask for Places {
    type Answer = PlacesAnswer;

    ghost use Rattle.office_check.specs.Listing.{AnswersPlaces, WritesPlacesFront};

    ghost writes = { λ task session enrolled placing old new answer.
        AnswersPlaces session enrolled placing task.0 old new answer };

    ghost writes_front = { λ task session enrolled placing old new.
        WritesPlacesFront session enrolled placing task.0 old new };

    fn write<W: Write>(
        &self,
        alloc: Global,
        instance: &Instance,
        enrolments: &Enrolments,
        timetable: &Timetable,
        writer: &mut W,
    ) -> Result<PlacesAnswer, CheckFault> {
        let exam = self.0;
        if exam.get() >= instance.exams() {
            return Ok(PlacesAnswer::NoExam);
        }
        let Ok(text) = place_list(alloc, instance, enrolments, timetable, exam) else {
            return Err(CheckFault::NoMemory);
        };
        match write_text(writer, text.as_bytes()) {
            Ok(()) => Ok(PlacesAnswer::Listed),
            Err(_) => Err(CheckFault::Write),
        }
    }
}

// Returns the list of an exam's places.
fn place_list(
    alloc: Global,
    instance: &Instance,
    enrolments: &Enrolments,
    timetable: &Timetable,
    exam: ExamNo,
) -> Result<String, AllocError>
    requires fits { Fits instance.now enrolments.now timetable.now }
    requires exists { exam < length instance.now.exams }
    ensures { IfOk result (λ text. IsPlaceList instance.now enrolments.now timetable.now exam
        (string_bytes text)) }
{
    let parts = score(alloc, instance, enrolments, timetable)?;
    let rows = places(alloc, instance, enrolments, timetable, parts, exam)?;
    places_report(alloc, &rows)
}
