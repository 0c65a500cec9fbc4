// The words of `compare`.
ghost use Rattle.std.specs.Prelude.{◌≡◌, ◌∷◌, [], IfErr, IfOk};
ghost use Rattle.clap.specs.Words.{HasKind, found_of, rows_of};
ghost use Rattle.office_program.specs.CompareLine.{HasCompareValues, compare_app};
ghost use Rattle.office_program.specs.Mistakes.{compare_paths, sharing_errors};
ghost use Rattle.office_program.specs.Program.{AddsShape};
ghost use Rattle.office_program.specs.Sources.{is_stdin_shared};

use crate::commands::required;
use crate::helps;
use crate::sources::{is_stdin, shared_stdin};
use crate::words::{Task, value_of};
use clap::{ArgMatches, Command, Error};
use std::alloc::{AllocError, Global};

pub(crate) fn compare_command<'a>(alloc: Global) -> Result<Command<'a>, AllocError>
    ensures { IfOk result (λ c. AddsShape c compare_app.top) }
{
    let session = required(alloc, "session", "SESSION", "The file of the session");
    let before = required(alloc, "before", "A", "The file of the first solution");
    let after = required(alloc, "after", "B", "The file of the second solution");
    Command::new(alloc, "compare")
        .about("Say what differs between two solutions of one session")
        .after_help(helps::COMPARE)
        .arg(session)?
        .arg(before)?
        .arg(after)
}

// Returns the task of `compare` with these values; more than one file may be standard input.
pub(crate) fn compare_task(alloc: Global, values: &ArgMatches<'_>) -> Result<Task, Error>
    ensures ok { IfOk result (HasCompareValues (rows_of (found_of values.now))) }
    ensures err { IfErr result
        (HasKind (sharing_errors (compare_paths (rows_of (found_of values.now))))) }
{
    let session = value_of(alloc, values, "session")?;
    let before = value_of(alloc, values, "before")?;
    let after = value_of(alloc, values, "after")?;
    if are_shared(&session, &before, &after) {
        return Err(shared_stdin(compare_command(alloc)?, "examoffice compare")?);
    }
    Ok(Task::Compare(session, before, after))
}

// Returns whether more than one of three paths mean standard input.
fn are_shared(session: &str, before: &str, after: &str) -> bool
    ensures { result ≡ is_stdin_shared (session.now ∷ before.now ∷ after.now ∷ []) }
{
    if is_stdin(session) {
        is_stdin(before) || is_stdin(after)
    } else {
        is_stdin(before) && is_stdin(after)
    }
}
