// Commands that show the office and change nothing. On `Err` the answer shows nothing of it.
ghost use Rattle.office_policy.specs.Commands.{draft, draft_penalty, draft_places, draft_violations, instance};
ghost use Rattle.office_policy.specs.declared.callers.Caller.{Caller};
ghost use Rattle.office_desk.specs.Performing.{CommandPerformed};

use crate::answer::Answer;
use exam_model::ExamNo;
use office_files::write_instance;
use office_reports::{penalty_report, places_report, violation_report};
use office_store::Office;
use sqlite::Alter;
use std::alloc::Global;

// Answers with the session and its live enrolments, as an instance file.
pub(crate) fn instance<S: Alter>(office: &mut Office<S>, alloc: Global) -> Result<Answer, Answer>
    ensures { (caller : Caller) → CommandPerformed S.Store caller instance
        office.old office.new result }
{
    office.check_open()?;
    let (instance, enrolments) = office.session()?;
    match write_instance(alloc, instance, enrolments) {
        Ok(text) => Ok(Answer::Text(text)),
        Err(_) => Err(Answer::Unavailable),
    }
}

pub(crate) fn draft<S: Alter>(
    office: &mut Office<S>,
    alloc: Global,
    number: u32,
) -> Result<Answer, Answer>
    ensures { (caller : Caller) → CommandPerformed S.Store caller (draft number)
        office.old office.new result }
{
    let (timetable, parts) = office.draft(alloc, number)?;
    Ok(Answer::Draft(number, timetable, parts.total()))
}

pub(crate) fn penalty<S: Alter>(
    office: &mut Office<S>,
    alloc: Global,
    number: u32,
) -> Result<Answer, Answer>
    ensures { (caller : Caller) → CommandPerformed S.Store caller (draft_penalty number)
        office.old office.new result }
{
    let parts = office.penalty(number)?;
    let report = penalty_report(alloc, parts)?;
    Ok(Answer::Text(report.into_bytes()))
}

pub(crate) fn violations<S: Alter>(
    office: &mut Office<S>,
    alloc: Global,
    number: u32,
) -> Result<Answer, Answer>
    ensures { (caller : Caller) → CommandPerformed S.Store caller (draft_violations number)
        office.old office.new result }
{
    let breaches = office.breaches(alloc, number)?;
    let report = violation_report(alloc, &breaches)?;
    Ok(Answer::Text(report.into_bytes()))
}

pub(crate) fn places<S: Alter>(
    office: &mut Office<S>,
    alloc: Global,
    number: u32,
    exam: ExamNo,
) -> Result<Answer, Answer>
    ensures { (caller : Caller) → CommandPerformed S.Store caller (draft_places number exam)
        office.old office.new result }
{
    let rows = office.places(alloc, number, exam)?;
    let report = places_report(alloc, &rows)?;
    Ok(Answer::Text(report.into_bytes()))
}
