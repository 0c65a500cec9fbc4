// Judging many solutions of one session, each with its own line.
ghost use Rattle.std.specs.Prelude.{◌≡◌, ◌==◌, ◌+◌, ◌++◌, ℕ, List, IfErr, IfOk, IfSome};
ghost use Rattle.std.specs.Prelude.{OnOk, length, map, not, string_bytes};
ghost use Rattle.std.specs.List.{flat_map};
ghost use Rattle.serde_json.specs.View.{view};
ghost use Rattle.exam_terms.specs.declared.limits.TheConstants.{INSTANCE_BYTES, TEXT_BYTES};
ghost use Rattle.exam_model.specs.Fits.{Fits};
ghost use Rattle.office_files.specs.FirstFault.{first_fault, first_solution_fault};
ghost use Rattle.office_files.specs.InstanceText.{InstanceText};
ghost use Rattle.office_files.specs.Inputs.{RefusesFile, ReadsAtMost};
ghost use Rattle.office_check.specs.Check.{status_of};
ghost use Rattle.office_check.specs.Verdicts.{IsVerdict, IsVerdictOn, breach_data, column, json_line};
ghost use Rattle.office_check.specs.Verdicts.{numbers_of, plain_line, verdict_data, verdict_line};

use crate::checking::{instance_of, solution_of};
use crate::names::FileName;
use exam_model::{Enrolments, Instance, Timetable};
use exam_rules::{Breach, breaches};
use exam_score::{Parts, score};
use office_files::InputFault;
use office_reports::rule_name;
use serde_json::{Value, json};
use std::alloc::{AllocError, Global};
use std::io::Read;
use std::marker::Model;

// From this many solutions on, a session's conflicts are listed: judging one to three solutions by
// the list saves the time that the listing takes.
pub(crate) const LISTED_FROM: usize = 4;

/// A session for judging solutions.
#[derive(Drop)]
pub struct Judge {
    instance: Instance,
    enrolments: Enrolments,
}

impl Model for Judge {
    ghost use Rattle.std.specs.Prelude.{◌≡◌, length};
    ghost use Rattle.exam_model.specs.Enrolments.{Enrolled};
    ghost use Rattle.exam_model.specs.Instance.{Session};

    ghost Value = { Session × Enrolled };

    ghost view = { λ judge. (judge.instance, judge.enrolments) };

    ghost invariant = { λ judge. length judge.enrolments ≡ length judge.instance.exams };
}

/// The result of judging a solution.
#[derive(Drop)]
pub struct Verdict {
    /// Its breaches of hard rules.
    pub breaches: Vec<Breach>,
    /// Its penalty.
    pub parts: Parts,
}

/// The form of a printed verdict: numbers and the printed path separated by spaces, or an object of
/// JSON.
#[derive(Clone, Copy, Debug, PartialEq, Eq)]
pub enum LineForm {
    Plain,
    Json,
}

impl Judge {
    /// Reads the session, in at most 5,000,000 reads; an interrupted read counts, and is retried.
    /// `solutions` is how many will be judged: it changes only how long that takes.
    pub fn new<R: Read>(
        alloc: Global,
        reader: &mut R,
        solutions: usize,
    ) -> Result<Judge, InputFault>
        ensures reading { IfOk result (λ judge. IfSome (R.remaining reader.old)
            (λ input. InstanceText input judge.0 judge.1)) }
        ensures spelled { IfOk result (λ judge.
            (input : List ℕ) × InstanceText input judge.0 judge.1) }
        ensures refused { IfErr result (λ fault. IfSome (R.remaining reader.old)
            (λ input. RefusesFile (first_fault input) fault)) }
        // The reader is read at most one byte past the limit.
        ensures taken { ReadsAtMost (INSTANCE_BYTES + 1)
            (R.remaining reader.old) (R.remaining reader.new) }
    {
        let (instance, mut enrolments) = instance_of(alloc, reader)?;
        match prepare(alloc, &mut enrolments, solutions) {
            Ok(()) => Ok(Judge {
                instance,
                enrolments,
            }),
            Err(_) => Err(InputFault::NoMemory),
        }
    }

    /// Judges the solution of a reader, in at most as many reads.
    pub fn judge<R: Read>(&self, alloc: Global, reader: &mut R) -> Result<Verdict, InputFault>
        ensures judged { IfOk result (λ verdict. IfSome (R.remaining reader.old)
            (λ input. IsVerdictOn self.now.0 self.now.1 input verdict)) }
        // Even if the reader's bytes are not known, this is the verdict on some text.
        ensures some_judged { IfOk result (λ verdict.
            (input : List ℕ) × IsVerdictOn self.now.0 self.now.1 input verdict) }
        ensures refused { IfErr result (λ fault. IfSome (R.remaining reader.old)
            (λ input. RefusesFile (first_solution_fault self.now.0 input) fault)) }
        ensures taken { ReadsAtMost (TEXT_BYTES + 1)
            (R.remaining reader.old) (R.remaining reader.new) }
    {
        judge_by(alloc, &self.instance, &self.enrolments, reader)
    }
}

// Lists the conflicts if that saves time for this many solutions.
fn prepare(alloc: Global, enrolments: &mut Enrolments, solutions: usize) -> Result<(), AllocError>
    ensures { enrolments.new ≡ enrolments.old }
{
    let pays = solutions >= LISTED_FROM;
    if pays {
        enrolments.list_conflicts(alloc)?;
    }
    Ok(())
}

// Returns the verdict by a session's parts.
fn judge_by<R: Read>(
    alloc: Global,
    instance: &Instance,
    enrolments: &Enrolments,
    reader: &mut R,
) -> Result<Verdict, InputFault>
    requires together { length enrolments.now ≡ length instance.now.exams }
    ensures judged { IfOk result (λ verdict. IfSome (R.remaining reader.old)
        (λ input. IsVerdictOn instance.now enrolments.now input verdict)) }
    ensures some_judged { IfOk result (λ verdict.
        (input : List ℕ) × IsVerdictOn instance.now enrolments.now input verdict) }
    ensures refused { IfErr result (λ fault. IfSome (R.remaining reader.old)
        (λ input. RefusesFile (first_solution_fault instance.now input) fault)) }
    ensures taken { ReadsAtMost (TEXT_BYTES + 1) (R.remaining reader.old) (R.remaining reader.new) }
{
    let timetable = solution_of(alloc, reader, instance)?;
    let verdict = verdict_on(alloc, instance, enrolments, &timetable)?;
    Ok(verdict)
}

// Returns the breaches and the penalty of a timetable.
pub(crate) fn verdict_on(
    alloc: Global,
    instance: &Instance,
    enrolments: &Enrolments,
    timetable: &Timetable,
) -> Result<Verdict, AllocError>
    requires { Fits instance.now enrolments.now timetable.now }
    ensures { IfOk result (IsVerdict instance.now enrolments.now timetable.now) }
{
    let found = breaches(alloc, instance, enrolments, timetable)?;
    let parts = score(alloc, instance, enrolments, timetable)?;
    Ok(Verdict {
        breaches: found,
        parts,
    })
}

impl Verdict {
    /// Returns whether the solution breaks a hard rule.
    pub fn has_breach(&self) -> bool
        ensures { result ≡ not (length self.now.breaches.items == 0) }
    {
        !self.breaches.is_empty()
    }

    // Returns the exit status.
    pub(crate) fn status(&self) -> u8
        ensures { result ≡ status_of self.now.breaches.items }
    {
        if self.breaches.is_empty() { 0 } else { 3 }
    }

    /// Returns the line of a verdict on the solution at this path.
    pub fn line(&self, alloc: Global, path: &str, form: LineForm) -> Result<String, AllocError>
        ensures { IfOk result (λ text.
            string_bytes text ≡ verdict_line form path.now self.now) }
    {
        match form {
            LineForm::Plain => self.plain_line(alloc, path),
            LineForm::Json => self.json_line(alloc, path),
        }
    }

    // Returns the numbers and the name of the file, separated by spaces.
    fn plain_line(&self, alloc: Global, path: &str) -> Result<String, AllocError>
        ensures { IfOk result (λ text. string_bytes text ≡ plain_line path.now self.now) }
    {
        let mut text = String::new(alloc);
        add_columns(&mut text, &self.numbers())?;
        let name = FileName(path);
        write!(text, "{name}\n")?;
        Ok(text)
    }

    // Returns the breaches, the total, and each part of the penalty in the report's order.
    fn numbers(&self) -> [u64; 10]
        ensures { result ≡ numbers_of self.now }
    {
        let parts = self.parts;
        [
            self.breaches.len() as u64,
            parts.total(),
            parts.row(),
            parts.day(),
            parts.spread(),
            parts.night(),
            parts.mixed(),
            parts.front(),
            parts.period(),
            parts.room(),
        ]
    }

    // Returns the same as an object of JSON.
    fn json_line(&self, alloc: Global, path: &str) -> Result<String, AllocError>
        ensures { IfOk result (λ text. string_bytes text ≡ json_line path.now self.now) }
    {
        let mut text = self.json_value(alloc, path)?.to_string(alloc)?;
        text.push_str("\n")?;
        Ok(text)
    }

    fn json_value(&self, alloc: Global, path: &str) -> Result<Value, AllocError>
        ensures { IfOk result (λ value. view value ≡ verdict_data path.now self.now) }
    {
        let broken = Value::Array(breach_values(alloc, &self.breaches)?);
        json!(in alloc; {
            "breaches": self.breaches.len() as u64,
            "broken": broken,
            "day": self.parts.day(),
            "front": self.parts.front(),
            "mixed": self.parts.mixed(),
            "night": self.parts.night(),
            "path": path,
            "period": self.parts.period(),
            "room": self.parts.room(),
            "row": self.parts.row(),
            "spread": self.parts.spread(),
            "total": self.parts.total()
        })
    }
}

// Returns breaches as objects of JSON.
fn breach_values(alloc: Global, breaches: &[Breach]) -> Result<Vec<Value>, AllocError>
    ensures { IfOk result (λ values. map view values.items ≡ map breach_data breaches.now) }
{
    let mut values = Vec::with_capacity(alloc, breaches.len())?;
    for breach in breaches {
        values.push(breach_value(alloc, breach)?)?;
    }
    Ok(values)
}

// Returns a breach as an object of JSON.
fn breach_value(alloc: Global, breach: &Breach) -> Result<Value, AllocError>
    ensures { IfOk result (λ value. view value ≡ breach_data breach.now) }
{
    json!(in alloc; {
        "exam": breach.exam.get(),
        "other": breach.other.get(),
        "rule": rule_name(breach.rule)
    })
}

// Adds numbers, with a space after each.
fn add_columns(text: &mut String, numbers: &[u64]) -> Result<(), AllocError>
    ensures { OnOk result (string_bytes text.new
        ≡ string_bytes text.old ++ flat_map column numbers.now) }
{
    for number in numbers {
        add_column(text, *number)?;
    }
    Ok(())
}

// Adds a number and a space.
fn add_column(text: &mut String, number: u64) -> Result<(), AllocError>
    ensures { OnOk result (string_bytes text.new ≡ string_bytes text.old ++ column number) }
{
    write!(text, "{number} ")
}
