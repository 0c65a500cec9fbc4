// `check`: judges a solution by the files of two paths.
ghost use Rattle.std.specs.Prelude.{◌≡◌, ◌≢◌, ◌⊎◌, IfErr, IfOk};
ghost use Rattle.std.specs.Io.KnownBytes.{Keeps};
ghost use Rattle.office_program.specs.CheckForms.{AreStatuses, PrintsForm, PrintsFormFront};
ghost use Rattle.office_program.specs.Sources.{IsFile, OfFiles, source_at};
ghost use Rattle.office_program.specs.TaskFaults.{IsOfCheck};

use crate::faults::{ProgramFault, fault_on};
use crate::readers::TextReader;
use crate::sources::run_by_paths;
use crate::texts::Texts;
use exam_model::StudentNo;
use office_check::{JsonReport, SolutionTask, Why, WhyFor};
use std::alloc::Global;
use std::io::Write;

/// A form in which `check` prints more or other than the report.
#[derive(Clone, Copy, Debug, PartialEq, Eq)]
pub enum CheckForm {
    /// The report, and then the summands of the penalty.
    Why,
    /// The report, and then the summands of a student's share of the penalty.
    WhyFor(StudentNo),
    /// The report as an object of JSON.
    Json,
}

// Runs `check` in another form. Returns the exit status.
pub(crate) fn check_as<'a, T: Texts, I: TextReader, W: Write>(
    alloc: Global,
    files: &T,
    stdin: &mut I,
    instance: &'a str,
    solution: &'a str,
    form: CheckForm,
    out: &mut W,
) -> Result<u8, ProgramFault<'a>>
    ensures status { IfOk result (λ status. (status ≡ 0) ⊎ (status ≡ 3)) }
    ensures printed { IfOk result (λ status.
        OfFiles (source_at (I.remaining stdin.old) (T.known files.now) instance.now)
        (source_at (I.remaining stdin.old) (T.known files.now) solution.now)
        (λ session enrolled placing. PrintsForm form session enrolled placing solution.now
        (W.contents out.old) (W.contents out.new) status)) }

    // A line that names a file names one of the two.
    ensures fault { IfErr result (IsOfCheck instance.now solution.now
        (source_at (I.remaining stdin.old) (T.known files.now))) }
    ensures unwritten { IfErr result (λ fault. fault ≢ ProgramFault.CannotWrite
        → Keeps (W.contents out.old) (W.contents out.new)) }
    ensures front { IfErr result (λ fault. fault ≡ ProgramFault.CannotWrite
        → OfFiles (source_at (I.remaining stdin.old) (T.known files.now) instance.now)
        (source_at (I.remaining stdin.old) (T.known files.now) solution.now)
        (λ session enrolled placing. PrintsFormFront form session enrolled placing solution.now
        (W.contents out.old) (W.contents out.new))) }
    ensures unread { IsFile instance.now × IsFile solution.now
        → I.remaining stdin.new ≡ I.remaining stdin.old }
{
    match form {
        CheckForm::Why => check(alloc, files, stdin, &Why, instance, solution, out),
        CheckForm::WhyFor(student) => check(
            alloc,
            files,
            stdin,
            &WhyFor(student),
            instance,
            solution,
            out,
        ),
        CheckForm::Json => {
            let task = JsonReport { path: solution };
            check(alloc, files, stdin, &task, instance, solution, out)
        }
    }
}

// Runs a task of `check`, whose answer is the exit status.
pub(crate) fn check<'a, K: SolutionTask<Answer = u8>, T: Texts, I: TextReader, W: Write>(
    alloc: Global,
    files: &T,
    stdin: &mut I,
    task: &K,
    instance: &'a str,
    solution: &'a str,
    out: &mut W,
) -> Result<u8, ProgramFault<'a>>
    requires statuses { AreStatuses (K.writes task.now) }
    ensures status { IfOk result (λ status. (status ≡ 0) ⊎ (status ≡ 3)) }
    ensures done { IfOk result (λ status.
        OfFiles (source_at (I.remaining stdin.old) (T.known files.now) instance.now)
        (source_at (I.remaining stdin.old) (T.known files.now) solution.now)
        (λ session enrolled placing. K.writes task.now session enrolled placing
        (W.contents out.old) (W.contents out.new) status)) }

    // A line that names a file names one of the two.
    ensures fault { IfErr result (IsOfCheck instance.now solution.now
        (source_at (I.remaining stdin.old) (T.known files.now))) }
    ensures unwritten { IfErr result (λ fault. fault ≢ ProgramFault.CannotWrite
        → Keeps (W.contents out.old) (W.contents out.new)) }
    ensures front { IfErr result (λ fault. fault ≡ ProgramFault.CannotWrite
        → OfFiles (source_at (I.remaining stdin.old) (T.known files.now) instance.now)
        (source_at (I.remaining stdin.old) (T.known files.now) solution.now)
        (λ session enrolled placing. K.writes_front task.now session enrolled placing
        (W.contents out.old) (W.contents out.new))) }
    ensures unread { IsFile instance.now × IsFile solution.now
        → I.remaining stdin.new ≡ I.remaining stdin.old }
{
    match run_by_paths(alloc, files, stdin, task, instance, solution, out) {
        Ok(status) => Ok(status),
        Err(fault) => Err(fault_on(fault, instance, solution)),
    }
}
