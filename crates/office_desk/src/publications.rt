// Commands that show the publication. On `Err` the answer shows nothing of it.
ghost use Rattle.office_policy.specs.Commands.{publication, publication_penalty};
ghost use Rattle.office_policy.specs.Commands.{publication_rooms, publication_seats};
ghost use Rattle.office_policy.specs.declared.callers.Caller.{Caller};
ghost use Rattle.office_desk.specs.Performing.{CommandPerformed};

use crate::answer::Answer;
use office_files::write_solution;
use office_reports::{penalty_report, rooms_report, seats_report};
use office_store::Office;
use sqlite::Alter;
use std::alloc::Global;

// Answers with the published timetable, as a solution file.
pub(crate) fn publication<S: Alter>(office: &mut Office<S>, alloc: Global) -> Result<Answer, Answer>
    ensures { (caller : Caller) → CommandPerformed S.Store caller publication
        office.old office.new result }
{
    let Some(timetable) = office.published_timetable(alloc)? else {
        return Ok(Answer::Unpublished);
    };
    match write_solution(alloc, &timetable) {
        Ok(text) => Ok(Answer::Text(text)),
        Err(_) => Err(Answer::Unavailable),
    }
}

// Answers with the penalty of the publication, which is in memory.
pub(crate) fn publication_penalty<S: Alter>(
    office: &mut Office<S>,
    alloc: Global,
) -> Result<Answer, Answer>
    ensures { (caller : Caller) → CommandPerformed S.Store caller publication_penalty
        office.old office.new result }
{
    let Some(parts) = office.publication_penalty()? else {
        return Ok(Answer::Unpublished);
    };
    let report = penalty_report(alloc, parts)?;
    Ok(Answer::Text(report.into_bytes()))
}

// Answers with the use of the rooms by the publication.
pub(crate) fn publication_rooms<S: Alter>(
    office: &mut Office<S>,
    alloc: Global,
) -> Result<Answer, Answer>
    ensures { (caller : Caller) → CommandPerformed S.Store caller publication_rooms
        office.old office.new result }
{
    let Some((timetable, seats)) = office.publication(alloc)? else {
        return Ok(Answer::Unpublished);
    };
    let (instance, _) = office.session()?;
    let report = rooms_report(alloc, instance, &timetable, &seats)?;
    Ok(Answer::Text(report.into_bytes()))
}

// Answers with the list of seats of the publication.
pub(crate) fn publication_seats<S: Alter>(
    office: &mut Office<S>,
    alloc: Global,
) -> Result<Answer, Answer>
    ensures { (caller : Caller) → CommandPerformed S.Store caller publication_seats
        office.old office.new result }
{
    let Some((_, seats)) = office.publication(alloc)? else {
        return Ok(Answer::Unpublished);
    };
    let report = seats_report(alloc, &seats)?;
    Ok(Answer::Text(report.into_bytes()))
}
