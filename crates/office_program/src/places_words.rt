// The words of `places`.
ghost use Rattle.std.specs.Prelude.{IfErr, IfOk};
ghost use Rattle.clap.specs.Words.{HasKind, found_of, rows_of};
ghost use Rattle.office_program.specs.Mistakes.{places_paths, sharing_errors};
ghost use Rattle.office_program.specs.PlacesLine.{HasPlacesValues};

use crate::commands::places_command;
use crate::sources::{are_both_stdin, shared_stdin};
use crate::words::{Task, number_of, value_of};
use clap::{ArgMatches, Error};
use exam_model::ExamNo;
use exam_terms::limits::MAX_EXAMS;
use std::alloc::Global;

// The greatest number of an exam.
pub(crate) const MAX_EXAM: u32 = MAX_EXAMS - 1;

// Returns the task of `places` with these values; both files may be standard input.
pub(crate) fn places_task(alloc: Global, values: &ArgMatches<'_>) -> Result<Task, Error>
    ensures ok { IfOk result (HasPlacesValues (rows_of (found_of values.now))) }
    ensures err { IfErr result
        (HasKind (sharing_errors (places_paths (rows_of (found_of values.now))))) }
{
    let instance = value_of(alloc, values, "session")?;
    let solution = value_of(alloc, values, "solution")?;
    if are_both_stdin(&instance, &solution) {
        return Err(shared_stdin(places_command(alloc)?, "examoffice places")?);
    }
    let exam = number_of(values, "exam", 0, MAX_EXAM)?;
    Ok(Task::Places(instance, solution, ExamNo::new(exam)))
}
