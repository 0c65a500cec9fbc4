// The report on one solution.
ghost use Rattle.std.specs.Prelude.{◌≡◌, ◌≢◌, ◌⊎◌, ◌+◌, IfErr, IfOk, IfSome, string_bytes};
ghost use Rattle.std.specs.Io.KnownBytes.{Keeps};
ghost use Rattle.exam_terms.specs.declared.limits.TheConstants.{INSTANCE_BYTES, TEXT_BYTES};
ghost use Rattle.exam_model.specs.Fits.{Fits};
ghost use Rattle.office_files.specs.Inputs.{ReadsAtMost};
ghost use Rattle.office_check.specs.Check.{IsReported, OfInputs, OfTexts, ReportsFront};
ghost use Rattle.office_check.specs.Check.{WritesReport, exit_status, report};
ghost use Rattle.office_check.specs.Refusing.{Refuses};

use crate::checking::{CheckFault, SolutionTask, task_run};
use exam_model::{Enrolments, Instance, Timetable};
use exam_rules::breaches;
use exam_score::score;
use office_output::write_text;
use office_reports::{penalty_report, violation_report};
use std::alloc::{AllocError, Global};
use std::io::{Read, Write};

/// Writes the breaches of hard rules and the penalty. The answer is the exit status: 3 exactly if
/// the solution breaks a hard rule, else 0.
#[derive(Clone, Copy)]
pub struct Report;

impl SolutionTask for Report {
    type Answer = u8;

    ghost use Rattle.office_check.specs.Check.{IsReported, ReportsFront};

    ghost writes = { λ _ session enrolled placing old new status.
        IsReported session enrolled placing old new status };

    ghost writes_front = { λ _ session enrolled placing old new.
        ReportsFront session enrolled placing old new };

    fn write<W: Write>(
        &self,
        alloc: Global,
        instance: &Instance,
        enrolments: &Enrolments,
        timetable: &Timetable,
        writer: &mut W,
    ) -> Result<u8, CheckFault> {
        let Ok(judged) = judge(alloc, instance, enrolments, timetable) else {
            return Err(CheckFault::NoMemory);
        };
        match write_text(writer, judged.text.as_bytes()) {
            Ok(()) => Ok(judged.status),
            Err(_) => Err(CheckFault::Write),
        }
    }
}

/// Judges the solution of two readers, and writes its report: `task_run` with `Report`.
pub fn check_run<R: Read, Q: Read, W: Write>(
    alloc: Global,
    instance_reader: &mut R,
    solution_reader: &mut Q,
    writer: &mut W,
) -> Result<u8, CheckFault>
    // The status is 3 exactly if the reported solution breaks a hard rule.
    ensures done { IfOk result (λ status. IfSome (R.remaining instance_reader.old) (λ instance.
        IfSome (Q.remaining solution_reader.old) (λ solution.
        OfTexts instance solution (λ session enrolled placing. IsReported session enrolled placing
        (W.contents writer.old) (W.contents writer.new) status)))) }
    ensures status { IfOk result (λ status. (status ≡ 0) ⊎ (status ≡ 3)) }

    // Even if the readers' bytes are not known, the report of two texts is written; a text that is
    // known is one of them.
    ensures reported { IfOk result
        (WritesReport (W.contents writer.old) (W.contents writer.new)) }
    ensures from { IfOk result (λ status. OfInputs (R.remaining instance_reader.old)
        (Q.remaining solution_reader.old) (λ session enrolled placing.
        IsReported session enrolled placing
        (W.contents writer.old) (W.contents writer.new) status)) }

    // In the order of the work: the instance, the solution, the report.
    ensures refused { IfErr result (λ fault. IfSome (R.remaining instance_reader.old) (λ instance.
        IfSome (Q.remaining solution_reader.old) (λ solution. Refuses instance solution fault))) }
    ensures unwritten { IfErr result (λ fault. fault ≢ CheckFault.Write
        → Keeps (W.contents writer.old) (W.contents writer.new)) }
    // If the report could not be written whole, a front of it was.
    ensures front { IfErr result (λ fault. fault ≡ CheckFault.Write
        → OfInputs (R.remaining instance_reader.old) (Q.remaining solution_reader.old)
        (λ session enrolled placing. ReportsFront session enrolled placing
        (W.contents writer.old) (W.contents writer.new))) }

    // Each reader is read at most one byte past its limit.
    ensures instance_taken { ReadsAtMost (INSTANCE_BYTES + 1)
        (R.remaining instance_reader.old) (R.remaining instance_reader.new) }
    ensures solution_taken { ReadsAtMost (TEXT_BYTES + 1)
        (Q.remaining solution_reader.old) (Q.remaining solution_reader.new) }
{
    task_run(alloc, &Report, instance_reader, solution_reader, writer)
}

// The printed text for a solution, and the exit status.
#[derive(Drop)]
pub(crate) struct Judgement {
    pub(crate) text: String,
    pub(crate) status: u8,
}

// Returns the text of a solution's breaches and penalty, and the exit status.
pub(crate) fn judge(
    alloc: Global,
    instance: &Instance,
    enrolments: &Enrolments,
    timetable: &Timetable,
) -> Result<Judgement, AllocError>
    requires { Fits instance.now enrolments.now timetable.now }
    ensures text { IfOk result (λ judged.
        string_bytes judged.text ≡ report instance.now enrolments.now timetable.now) }
    ensures status { IfOk result (λ judged.
        judged.status ≡ exit_status instance.now enrolments.now timetable.now) }
{
    let found = breaches(alloc, instance, enrolments, timetable)?;
    let parts = score(alloc, instance, enrolments, timetable)?;
    let mut text = violation_report(alloc, &found)?;
    text.push_str(penalty_report(alloc, parts)?.as_str())?;
    let status = if found.is_empty() { 0 } else { 3 };
    Ok(Judgement { text, status })
}
