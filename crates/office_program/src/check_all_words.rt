// The words of `check-all`.
ghost use Rattle.std.specs.Prelude.{◌≡◌, IfErr, IfOk, Some, codes, map, string_bytes};
ghost use Rattle.clap.specs.Words.{all_of, found_of, kind_of, one_of, rows_of};
ghost use Rattle.clap.specs.declared.error.kind.ErrorKind.TheVariants.{OutOfMemory};
ghost use Rattle.clap.specs.Words.{HasKind};
ghost use Rattle.office_program.specs.CheckAllLine.{RequestsForm, HasCheckAllValues};
ghost use Rattle.office_program.specs.Mistakes.{check_all_paths, sharing_errors};

use crate::commands::check_all_command;
use crate::sources::{is_stdin_shared, shared_stdin};
use crate::words::{Task, value_of};
use clap::{ArgMatches, Error};
use office_check::LineForm;
use std::alloc::{AllocError, Global};

// Returns the task of `check-all` with these values; two may name standard input.
pub(crate) fn check_all_task(alloc: Global, values: &ArgMatches<'_>) -> Result<Task, Error>
    ensures ok { IfOk result (HasCheckAllValues (rows_of (found_of values.now))) }
    ensures err { IfErr result
        (HasKind (sharing_errors (check_all_paths (rows_of (found_of values.now))))) }
{
    let session = value_of(alloc, values, "session")?;
    let solutions = values_of(alloc, values, "solutions")?;
    if is_stdin_shared(&session, &solutions) {
        return Err(shared_stdin(check_all_command(alloc)?, "examoffice check-all")?);
    }
    Ok(Task::CheckAll(session, solutions, form_of(values)))
}

// Returns all values that were found. Clap makes sure that there is one, as for `value_of`.
fn values_of(alloc: Global, values: &ArgMatches<'_>, id: &str) -> Result<Vec<String>, Error>
    ensures ok { IfOk result (λ texts. all_of id.now (rows_of (found_of values.now))
        ≡ Some (map string_bytes texts.items)) }
    ensures err { IfErr result (λ e. kind_of e ≡ OutOfMemory) }
{
    match values.get_strs(id) {
        Some(found) => Ok(copies(alloc, found)?),
        None => Err(Error::from(AllocError)),
    }
}

fn copies(alloc: Global, texts: &[&str]) -> Result<Vec<String>, AllocError>
    ensures { IfOk result (λ copied.
        map string_bytes copied.items ≡ map (λ text. text.now) texts.now) }
{
    let mut copied = Vec::with_capacity(alloc, texts.len())?;
    for text in texts {
        copied.push(String::from_str(alloc, text)?)?;
    }
    Ok(copied)
}

// Returns the form that the flag requests.
fn form_of(values: &ArgMatches<'_>) -> LineForm
    ensures { RequestsForm (one_of (codes "json") (rows_of (found_of values.now))) result }
{
    if values.get_flag("json") {
        LineForm::Json
    } else {
        LineForm::Plain
    }
}
