// The words of `check`.
ghost use Rattle.std.specs.Prelude.{◌≡◌, IfErr, IfOk};
ghost use Rattle.clap.specs.Words.{HasKind, found_of, kind_of, rows_of};
ghost use Rattle.clap.specs.declared.error.kind.ErrorKind.TheVariants.{ArgumentConflict, OutOfMemory};
ghost use Rattle.office_program.specs.CheckLine.{FindsStudent, HasCheckValues, has_student, is_given};
ghost use Rattle.office_program.specs.Mistakes.{check_errors};

use crate::checking::CheckForm;
use crate::commands::check_command;
use crate::sources::{are_both_stdin, shared_stdin};
use crate::words::{Task, number_of, value_of};
use clap::error::ErrorKind;
use clap::{ArgMatches, Error};
use exam_model::StudentNo;
use exam_terms::limits::MAX_STUDENT;
use std::alloc::{AllocError, Global};

// Returns the task of `check` with these values; both files may name standard input.
pub(crate) fn check_task(alloc: Global, values: &ArgMatches<'_>) -> Result<Task, Error>
    ensures ok { IfOk result (HasCheckValues (rows_of (found_of values.now))) }
    ensures err { IfErr result (HasKind (check_errors (rows_of (found_of values.now)))) }
{
    let instance = value_of(alloc, values, "instance")?;
    let solution = value_of(alloc, values, "solution")?;
    if are_both_stdin(&instance, &solution) {
        return Err(shared_stdin(check_command(alloc)?, "examoffice check")?);
    }
    let why = is_given(values, "why");
    let json = is_given(values, "json");
    let student = student_of(values)?;
    match (why, student, json) {
        (false, None, false) => Ok(Task::Check(instance, solution)),
        (true, None, false) => Ok(Task::CheckAs(instance, solution, CheckForm::Why)),
        (true, Some(student), false) => {
            Ok(Task::CheckAs(instance, solution, CheckForm::WhyFor(student)))
        }
        (false, None, true) => Ok(Task::CheckAs(instance, solution, CheckForm::Json)),
        _ => Err(mixed_forms(alloc)?),
    }
}

// Returns whether the flag is among the words.
fn is_given(values: &ArgMatches<'_>, flag: &str) -> bool
    ensures { result ≡ is_given flag.now (rows_of (found_of values.now)) }
{
    match values.get_str(flag) {
        Some(value) => value == "true",
        None => false,
    }
}

// Returns the student who is named.
fn student_of(values: &ArgMatches<'_>) -> Result<Option<StudentNo>, Error>
    ensures ok { IfOk result (FindsStudent (rows_of (found_of values.now))) }
    ensures err { IfErr result (λ e. kind_of e ≡ OutOfMemory) }
{
    if has_student(values) {
        let number = number_of(values, "student", 0, MAX_STUDENT)?;
        return match StudentNo::new(number) {
            Some(student) => Ok(Some(student)),
            None => Err(Error::from(AllocError)),
        };
    }
    Ok(None)
}

// Returns whether a student is named.
fn has_student(values: &ArgMatches<'_>) -> bool
    ensures { result ≡ has_student (rows_of (found_of values.now)) }
{
    match values.get_str("student") {
        Some(_) => true,
        None => false,
    }
}

// Returns the mistake of words that ask for forms that don't go together.
fn mixed_forms(alloc: Global) -> Result<Error, AllocError>
    ensures { IfOk result (λ e. kind_of e ≡ ArgumentConflict) }
{
    check_command(alloc)?.bin_name("examoffice check")?.error(
        ErrorKind::ArgumentConflict,
        "--student goes only with --why, and --json with neither",
    )
}
