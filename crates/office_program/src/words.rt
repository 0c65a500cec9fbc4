// The words of a command line, and their task.
ghost use Rattle.std.specs.IoError.{error_kind};
ghost use Rattle.std.specs.Iterator.{Drains};
ghost use Rattle.std.specs.Prelude.{◌≡◌, ◌≤◌, IfErr, IfOk, Some, map, string_bytes};
ghost use Rattle.std.specs.Vec.Iter.{into_iter_steps};
ghost use Rattle.std.specs.declared.io.ErrorKind.TheVariants as failure;
ghost use Rattle.clap.specs.Words.{FailsBy, HasKind, found_of, kind_of, rows_of};
ghost use Rattle.clap.specs.Words.{subcommand_of, subcommand_rows_of};
ghost use Rattle.clap.specs.Faults.{fault_of};
ghost use Rattle.clap.specs.declared.error.kind.ErrorKind.TheVariants.{InvalidValue, OutOfMemory};
ghost use Rattle.clap.specs.Words.{first_of};
ghost use Rattle.office_program.specs.CommandLine.{HasExportValues, HasLoadValues};
ghost use Rattle.office_program.specs.Explaining.{HasExplainValues, explain_errors};
ghost use Rattle.office_program.specs.Mistakes.{mistakes_in};
ghost use Rattle.office_program.specs.Program.{IsTask, IsTaskOf, fault_of_words, program};
ghost use Rattle.office_program.specs.ServeLine.{HasNumber, HasServeValues, HasTerms};

use crate::check_all_words::check_all_task;
use crate::check_words::check_task;
use crate::checking::CheckForm;
use crate::commands::{
    check_all_command, check_command, explain_command, export_command, load_command,
    places_command, serve_command,
};
use crate::compare_words::{compare_command, compare_task};
use crate::explaining::{MAX_NUMBER, fault_words};
use crate::helps;
use crate::places_words::places_task;
use clap::error::ErrorKind;
use clap::{ArgMatches, Command, Error};
use exam_model::ExamNo;
use office_check::LineForm;
use office_connections::MAX_PORT;
use std::alloc::{AllocError, Global};
use std::env::Args;
use std::io;

/// A task of the program, with the paths of the files that it names.
#[derive(Drop)]
pub enum Task {
    /// Judges a solution: the instance's file, then the solution's.
    Check(String, String),
    /// Judges a solution in another form: the instance's file, then the solution's.
    CheckAs(String, String, CheckForm),
    /// Judges solutions of one session: the session's file, the solutions', and the form of the
    /// lines.
    CheckAll(String, Vec<String>, LineForm),
    /// Lists the places of an exam: the instance's file, the solution's, and the exam.
    Places(String, String, ExamNo),
    /// Compares two solutions: the session's file, the first solution's, the second one's.
    Compare(String, String, String),
    /// Loads an office: its database's file, then the instance's.
    Load(String, String),
    /// Serves an office: its database's file, and the terms.
    Serve(String, Terms),
    /// Prints what an office has published: its database's file.
    Export(String),
    /// Explains a fault: its words.
    Explain(&'static str),
}

/// The terms on which an office is served.
#[derive(Clone, Copy)]
pub struct Terms {
    /// The port of 127.0.0.1 to listen on; 0 is any free one.
    pub port: u16,
    /// The number of connections that are served, 1 to 1,000,000.
    pub connections: u32,
    /// The timeout of a client in seconds, 1 to 86,400.
    pub patience: u32,
}

// The release of the program.
const VERSION: &str = "1.0.0";

// The most connections that `serve` takes.
pub(crate) const MAX_CONNECTIONS: u32 = 1_000_000;

// The longest timeout: a day, in seconds.
pub(crate) const MAX_PATIENCE: u32 = 86_400;

/// The words of the command line, in order.
pub fn words_of(alloc: Global, args: Args) -> io::Result<Vec<String>>
    ensures all { IfOk result (λ words. Drains into_iter_steps args words.items) }
    ensures err { IfErr result (λ fault. error_kind fault ≡ failure.OutOfMemory) }
{
    Ok(args.collect(alloc)?)
}

/// Returns the task of the words; the first word is the program's name. An error is displayed as
/// the text for the user: a mistake in the words, a call for help or the version, or out of memory.
pub fn read_words(alloc: Global, words: &[String]) -> Result<Task, Error>
    // The values are those that clap finds. A number is the one in its text: a port up to 65,535, 1
    // to 1,000,000 connections, a timeout of 1 to 86,400 seconds, or 30 if there is none, an exam of
    // 0 to 1999, a student up to 999,999,999. The words of `explain` are those of the fault of this
    // kind and number.
    ensures task { IfOk result (IsTask (map string_bytes words.now)) }
    // An error is a mistake that clap finds, a fault to explain that doesn't exist, standard input
    // for two files, forms of `check` that don't go together, or out of memory. An `Ok` comes only
    // without such a mistake.
    ensures kinds { FailsBy (fault_of_words (map string_bytes words.now)) result }
{
    let found = matches(alloc, words)?;
    task_of(alloc, &found)
}

// Returns the task of what clap found.
fn task_of(alloc: Global, found: &ArgMatches<'_>) -> Result<Task, Error>
    ensures task { IfOk result (IsTaskOf (subcommand_rows_of found.now)) }
    ensures err { IfErr result (HasKind (mistakes_in (subcommand_rows_of found.now))) }
{
    if let Some(values) = found.subcommand_matches("check") {
        return check_task(alloc, values);
    }
    if let Some(values) = found.subcommand_matches("check-all") {
        return check_all_task(alloc, values);
    }
    if let Some(values) = found.subcommand_matches("places") {
        return places_task(alloc, values);
    }
    if let Some(values) = found.subcommand_matches("compare") {
        return compare_task(alloc, values);
    }
    if let Some(values) = found.subcommand_matches("load") {
        return load_task(alloc, values);
    }
    if let Some(values) = found.subcommand_matches("serve") {
        return serve_task(alloc, values);
    }
    if let Some(values) = found.subcommand_matches("export") {
        return export_task(alloc, values);
    }
    match found.subcommand_matches("explain") {
        Some(values) => explain_task(alloc, values),
        None => Err(Error::from(AllocError)),
    }
}

// Returns what clap finds in the words.
fn matches(alloc: Global, words: &[String]) -> Result<ArgMatches<'_>, Error>
    ensures found { IfOk result (λ m.
        subcommand_rows_of m ≡ subcommand_of program (map string_bytes words.now)) }
    ensures kinds { FailsBy (fault_of program (map string_bytes words.now)) result }
{
    let check = check_command(alloc)?;
    let check_all = check_all_command(alloc)?;
    let places = places_command(alloc)?;
    let compare = compare_command(alloc)?;
    let load = load_command(alloc)?;
    let serve = serve_command(alloc)?;
    let export = export_command(alloc)?;
    let explain = explain_command(alloc)?;
    let whole = Command::new(alloc, "examoffice")
        .version(VERSION)
        .about("An office for exam timetables, and their checker, by the rules of ITC 2007")
        .after_help(helps::PROGRAM)
        .subcommand_required(true)
        .subcommand(check)?
        .subcommand(check_all)?
        .subcommand(places)?
        .subcommand(compare)?
        .subcommand(load)?
        .subcommand(serve)?
        .subcommand(export)?
        .subcommand(explain)?;
    whole.try_get_matches_from(words)
}

// Returns the value that was found. Clap makes sure that there is one, but its contract doesn't say
// so for subcommands: a missing value would be answered as out of memory.
pub(crate) fn value_of(alloc: Global, values: &ArgMatches<'_>, id: &str) -> Result<String, Error>
    ensures ok { IfOk result (λ value.
        first_of id.now (rows_of (found_of values.now)) ≡ Some (string_bytes value)) }
    ensures err { IfErr result (λ e. kind_of e ≡ OutOfMemory) }
{
    match values.get_str(id) {
        Some(value) => Ok(String::from_str(alloc, value)?),
        None => Err(Error::from(AllocError)),
    }
}

fn load_task(alloc: Global, values: &ArgMatches<'_>) -> Result<Task, Error>
    ensures ok { IfOk result (HasLoadValues (rows_of (found_of values.now))) }
    ensures err { IfErr result (λ e. kind_of e ≡ OutOfMemory) }
{
    let database = value_of(alloc, values, "db")?;
    let instance = value_of(alloc, values, "instance")?;
    Ok(Task::Load(database, instance))
}

fn serve_task(alloc: Global, values: &ArgMatches<'_>) -> Result<Task, Error>
    ensures ok { IfOk result (HasServeValues (rows_of (found_of values.now))) }
    ensures err { IfErr result (λ e. kind_of e ≡ OutOfMemory) }
{
    let database = value_of(alloc, values, "db")?;
    Ok(Task::Serve(database, terms_of(values)?))
}

// Returns the terms of `serve` with these values.
fn terms_of(values: &ArgMatches<'_>) -> Result<Terms, Error>
    ensures ok { IfOk result (HasTerms (rows_of (found_of values.now))) }
    ensures err { IfErr result (λ e. kind_of e ≡ OutOfMemory) }
{
    let port = number_of(values, "port", 0, MAX_PORT)?;
    let connections = number_of(values, "connections", 1, MAX_CONNECTIONS)?;
    let patience = number_of(values, "patience", 1, MAX_PATIENCE)?;
    Ok(Terms {
        port: port as u16,
        connections,
        patience,
    })
}

// Returns the number that was found, within these bounds. Clap makes sure of them too, but its
// contract doesn't say so for subcommands: a number out of bounds would be answered as out of
// memory.
pub(crate) fn number_of(
    values: &ArgMatches<'_>,
    id: &str,
    least: u32,
    most: u32,
) -> Result<u32, Error>
    ensures ok { IfOk result (λ n. HasNumber id.now (rows_of (found_of values.now)) n
        × (least ≤ n) × (n ≤ most)) }
    ensures err { IfErr result (λ e. kind_of e ≡ OutOfMemory) }
{
    match values.get_one::<u32>(id) {
        Some(number) if least <= number && number <= most => Ok(number),
        _ => Err(Error::from(AllocError)),
    }
}

fn export_task(alloc: Global, values: &ArgMatches<'_>) -> Result<Task, Error>
    ensures ok { IfOk result (HasExportValues (rows_of (found_of values.now))) }
    ensures err { IfErr result (λ e. kind_of e ≡ OutOfMemory) }
{
    let database = value_of(alloc, values, "db")?;
    Ok(Task::Export(database))
}

// Returns the task of `explain` with these values; they may name no fault.
fn explain_task(alloc: Global, values: &ArgMatches<'_>) -> Result<Task, Error>
    ensures ok { IfOk result (HasExplainValues (rows_of (found_of values.now))) }
    ensures err { IfErr result (HasKind (explain_errors (rows_of (found_of values.now)))) }
{
    let kind = value_of(alloc, values, "kind")?;
    let number = number_of(values, "number", 0, MAX_NUMBER)?;
    match fault_words(&kind, number) {
        Some(words) => Ok(Task::Explain(words)),
        None => Err(no_such_fault(alloc)?),
    }
}

// Returns the mistake of words that name an unknown fault.
fn no_such_fault(alloc: Global) -> Result<Error, AllocError>
    ensures { IfOk result (λ e. kind_of e ≡ InvalidValue) }
{
    explain_command(alloc)?
        .bin_name("examoffice explain")?
        .error(
            ErrorKind::InvalidValue,
            "there is no such fault: file has 1 to 13, store 1 to 9, connection 1 to 4",
        )
}
