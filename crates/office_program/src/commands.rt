// The commands of the command line, as clap defines them.
ghost use Rattle.std.specs.Prelude.{◌≡◌, IfOk, Some, codes, false};
ghost use Rattle.clap.specs.Words.{rule_of};
ghost use Rattle.clap.specs.declared.builder.texts.Texts.TheVariants.{One};
ghost use Rattle.office_program.specs.CheckAllLine.{check_all_app, solutions_rule};
ghost use Rattle.office_program.specs.CheckLine.{check_app, student_rule};
ghost use Rattle.office_program.specs.CommandLine.{export_app, flag_rule, load_app};
ghost use Rattle.office_program.specs.CommandLine.{named_rule, required_rule};
ghost use Rattle.office_program.specs.Explaining.{explain_app, fault_rule};
ghost use Rattle.office_program.specs.PlacesLine.{exam_rule, places_app};
ghost use Rattle.office_program.specs.Program.{AddsShape};
ghost use Rattle.office_program.specs.ServeLine.{connections_rule, patience_rule, port_rule};
ghost use Rattle.office_program.specs.ServeLine.{serve_app};

use crate::explaining::MAX_NUMBER;
use crate::helps;
use crate::places_words::MAX_EXAM;
use crate::words::{MAX_CONNECTIONS, MAX_PATIENCE};
use clap::{Arg, ArgAction, Command, value_parser};
use exam_terms::limits::MAX_STUDENT;
use office_connections::MAX_PORT;
use std::alloc::{AllocError, Global};

pub(crate) fn check_command<'a>(alloc: Global) -> Result<Command<'a>, AllocError>
    ensures { IfOk result (λ c. AddsShape c check_app.top) }
{
    let instance = required(alloc, "instance", "INSTANCE", "The file of the instance");
    let solution = required(alloc, "solution", "SOLUTION", "The file of the solution");
    Command::new(alloc, "check")
        .about("Judge a solution by the rules of ITC 2007, examination track")
        .after_help(helps::CHECK)
        .arg(why_flag(alloc))?
        .arg(student_option(alloc))?
        .arg(json_flag(alloc))?
        .arg(instance)?
        .arg(solution)
}

// Returns the flag that asks for the summands of the penalty.
fn why_flag<'a>(alloc: Global) -> Arg<'a>
    ensures rule { rule_of result ≡ flag_rule (codes "why") }
    ensures local { result.global ≡ false }
{
    Arg::new(alloc, "why")
        .long("why")
        .help("List each summand of the penalty after the report")
        .action(ArgAction::SetTrue)
}

// Returns the option for the number of a student.
fn student_option<'a>(alloc: Global) -> Arg<'a>
    ensures rule { rule_of result ≡ student_rule }
    ensures local { result.global ≡ false }
{
    Arg::new(alloc, "student")
        .long("student")
        .value_name("N")
        .help("With --why: list only the summands of this student")
        .value_parser(value_parser!(u32).range(0..=i64::from(MAX_STUDENT)))
}

// Returns a required argument.
pub(crate) fn required<'a>(alloc: Global, id: &'a str, name: &'a str, help: &'a str) -> Arg<'a>
    ensures rule { rule_of result ≡ required_rule id.now }
    ensures local { result.global ≡ false }
    ensures name { result.val_names ≡ One name.entry }
    ensures help { result.help ≡ Some help.entry }
{
    Arg::new(alloc, id)
        .value_name(name)
        .help(help)
        .required(true)
}

pub(crate) fn check_all_command<'a>(alloc: Global) -> Result<Command<'a>, AllocError>
    ensures { IfOk result (λ c. AddsShape c check_all_app.top) }
{
    let session = required(alloc, "session", "SESSION", "The file of the session");
    Command::new(alloc, "check-all")
        .about("Judge many solutions of one session, each in a line")
        .after_help(helps::CHECK_ALL)
        .arg(json_flag(alloc))?
        .arg(session)?
        .arg(solutions_argument(alloc))
}

// Returns the flag that requests lines of JSON.
fn json_flag<'a>(alloc: Global) -> Arg<'a>
    ensures rule { rule_of result ≡ flag_rule (codes "json") }
    ensures local { result.global ≡ false }
{
    Arg::new(alloc, "json")
        .long("json")
        .help("Print an object of JSON for each solution")
        .action(ArgAction::SetTrue)
}

// Returns the argument of the solutions, one or more.
fn solutions_argument<'a>(alloc: Global) -> Arg<'a>
    ensures rule { rule_of result ≡ solutions_rule }
    ensures local { result.global ≡ false }
{
    required(alloc, "solutions", "SOLUTION", "The files of the solutions").num_args(1..)
}

pub(crate) fn places_command<'a>(alloc: Global) -> Result<Command<'a>, AllocError>
    ensures { IfOk result (λ c. AddsShape c places_app.top) }
{
    let session = required(alloc, "session", "SESSION", "The file of the session");
    let solution = required(alloc, "solution", "SOLUTION", "The file of the solution");
    Command::new(alloc, "places")
        .about("List every place for an exam, with the penalty or what forbids it")
        .after_help(helps::PLACES)
        .arg(session)?
        .arg(solution)?
        .arg(exam_argument(alloc))
}

// Returns the argument for the number of an exam.
fn exam_argument<'a>(alloc: Global) -> Arg<'a>
    ensures rule { rule_of result ≡ exam_rule }
    ensures local { result.global ≡ false }
{
    Arg::new(alloc, "exam")
        .value_name("EXAM")
        .help("The number of the exam, from 0")
        .required(true)
        .value_parser(value_parser!(u32).range(0..=i64::from(MAX_EXAM)))
}

pub(crate) fn load_command<'a>(alloc: Global) -> Result<Command<'a>, AllocError>
    ensures { IfOk result (λ c. AddsShape c load_app.top) }
{
    let database = required_option(alloc, "db", "FILE", "The file of the office's database");
    let instance = required(alloc, "instance", "INSTANCE", "The file of the instance");
    Command::new(alloc, "load")
        .about("Load an instance with its enrolments into an office, once")
        .after_help(helps::LOAD)
        .arg(database)?
        .arg(instance)
}

// Returns a required option with a value.
fn required_option<'a>(alloc: Global, id: &'a str, name: &'a str, help: &'a str) -> Arg<'a>
    ensures rule { rule_of result ≡ named_rule id.now }
    ensures local { result.global ≡ false }
    ensures name { result.val_names ≡ One name.entry }
    ensures help { result.help ≡ Some help.entry }
{
    required(alloc, id, name, help).long(id)
}

pub(crate) fn serve_command<'a>(alloc: Global) -> Result<Command<'a>, AllocError>
    ensures { IfOk result (λ c. AddsShape c serve_app.top) }
{
    let database = required_option(alloc, "db", "FILE", "The file of the office's database");
    Command::new(alloc, "serve")
        .about("Serve an office over HTTP, one connection after another")
        .after_help(helps::SERVE)
        .arg(database)?
        .arg(port_option(alloc))?
        .arg(connections_option(alloc))?
        .arg(patience_option(alloc))
}

// Returns the option for the port on which the office listens.
fn port_option<'a>(alloc: Global) -> Arg<'a>
    ensures rule { rule_of result ≡ port_rule }
    ensures local { result.global ≡ false }
{
    Arg::new(alloc, "port")
        .long("port")
        .value_name("N")
        .help("The port of 127.0.0.1; 0 takes any")
        .required(true)
        .value_parser(value_parser!(u16).range(0..=i64::from(MAX_PORT)))
}

// Returns the option for the number of connections that are served.
fn connections_option<'a>(alloc: Global) -> Arg<'a>
    ensures rule { rule_of result ≡ connections_rule }
    ensures local { result.global ≡ false }
{
    Arg::new(alloc, "connections")
        .long("connections")
        .value_name("K")
        .help("How many connections are served")
        .required(true)
        .value_parser(value_parser!(u32).range(1..=i64::from(MAX_CONNECTIONS)))
}

// Returns the option for the timeout of a client.
fn patience_option<'a>(alloc: Global) -> Arg<'a>
    ensures rule { rule_of result ≡ patience_rule }
    ensures local { result.global ≡ false }
{
    Arg::new(alloc, "patience")
        .long("patience")
        .value_name("SECONDS")
        .help("Timeout of a message, and of a reply")
        .default_value("30")
        .value_parser(value_parser!(u32).range(1..=i64::from(MAX_PATIENCE)))
}

pub(crate) fn export_command<'a>(alloc: Global) -> Result<Command<'a>, AllocError>
    ensures { IfOk result (λ c. AddsShape c export_app.top) }
{
    let database = required_option(alloc, "db", "FILE", "The file of the office's database");
    Command::new(alloc, "export")
        .about("Print the solution that an office has published")
        .after_help(helps::EXPORT)
        .arg(database)
}

pub(crate) fn explain_command<'a>(alloc: Global) -> Result<Command<'a>, AllocError>
    ensures { IfOk result (λ c. AddsShape c explain_app.top) }
{
    let kind = required(
        alloc,
        "kind",
        "KIND",
        "The kind of fault: file, store or connection",
    );
    Command::new(alloc, "explain")
        .about("Explain the number of a fault in words")
        .after_help(helps::EXPLAIN)
        .arg(kind)?
        .arg(fault_argument(alloc))
}

// Returns the argument for the number of a fault.
fn fault_argument<'a>(alloc: Global) -> Arg<'a>
    ensures rule { rule_of result ≡ fault_rule }
    ensures local { result.global ≡ false }
{
    Arg::new(alloc, "number")
        .value_name("NUMBER")
        .help("The number of the fault")
        .required(true)
        .value_parser(value_parser!(u32).range(0..=i64::from(MAX_NUMBER)))
}
