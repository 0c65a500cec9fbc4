// Commands that change the office. On `Err` the office is unchanged.
ghost use Rattle.std.specs.Prelude.{◌≡◌, ◌≤◌};
ghost use Rattle.office_policy.specs.CommandBodies.{IfBodyHasValue, plain_text};
ghost use Rattle.office_policy.specs.Commands.{batch, drop_draft, load, new_draft, publish, set_owner};
ghost use Rattle.office_policy.specs.declared.callers.Caller.{Caller};
ghost use Rattle.exam_terms.specs.declared.limits.TheConstants.{MAX_BATCH, MAX_DEPARTMENT};
ghost use Rattle.office_model.specs.Step.{edit_outcome};
ghost use Rattle.office_desk.specs.Performing.{CommandPerformed, IsBodyOrAnswer, OutcomeAnswered};

use crate::answer::Answer;
use exam_draft::Edit;
use exam_terms::ExamNo;
use office_policy::Body;
use office_store::Office;
use sqlite::Alter;
use std::alloc::Global;

pub(crate) fn load<S: Alter>(
    office: &mut Office<S>,
    alloc: Global,
    body: Body<&[u8]>,
) -> Result<Answer, Answer>
    ensures { (caller : Caller) → CommandPerformed S.Store caller (load (plain_text body.entry))
        office.old office.new result }
{
    let text = body_or_answer(body)?;
    let loaded = office.load(alloc, text)?;
    Ok(Answer::Loaded(loaded))
}

pub(crate) fn set_owner<S: Alter>(
    office: &mut Office<S>,
    exam: ExamNo,
    body: Body<u32>,
) -> Result<Answer, Answer>
    requires { IfBodyHasValue body (λ dept. dept ≤ MAX_DEPARTMENT) }
    ensures { (caller : Caller) → CommandPerformed S.Store caller (set_owner exam body)
        office.old office.new result }
{
    let dept = body_or_answer(body)?;
    office.set_owner(exam, dept)?;
    Ok(Answer::Owner(exam, dept))
}

pub(crate) fn new_draft<S: Alter>(
    office: &mut Office<S>,
    alloc: Global,
    number: u32,
    body: Body<&[u8]>,
) -> Result<Answer, Answer>
    ensures { (caller : Caller) → CommandPerformed S.Store caller
        (new_draft number (plain_text body.entry)) office.old office.new result }
{
    let text = body_or_answer(body)?;
    let penalty = office.new_draft(alloc, number, text)?;
    Ok(Answer::NewDraft(number, penalty))
}

pub(crate) fn drop_draft<S: Alter>(office: &mut Office<S>, number: u32) -> Result<Answer, Answer>
    ensures { (caller : Caller) → CommandPerformed S.Store caller (drop_draft number)
        office.old office.new result }
{
    office.drop_draft(number)?;
    Ok(Answer::Dropped(number))
}

pub(crate) fn edit<S: Alter>(
    office: &mut Office<S>,
    alloc: Global,
    number: u32,
    change: Edit,
) -> Result<Answer, Answer>
    ensures { OutcomeAnswered S.Store (Unit {0}) (edit_outcome number change)
        office.old office.new result }
{
    let penalty = office.edit(alloc, number, change)?;
    Ok(Answer::Edited(number, penalty))
}

pub(crate) fn publish<S: Alter>(
    office: &mut Office<S>,
    alloc: Global,
    number: u32,
) -> Result<Answer, Answer>
    ensures { (caller : Caller) → CommandPerformed S.Store caller (publish number)
        office.old office.new result }
{
    let published = office.publish(alloc, number)?;
    Ok(Answer::Published(number, published))
}

pub(crate) fn enrol_batch<S: Alter>(
    office: &mut Office<S>,
    alloc: Global,
    number: u32,
    body: Body<&[u8]>,
) -> Result<Answer, Answer>
    requires { number ≤ MAX_BATCH }
    ensures { (caller : Caller) → CommandPerformed S.Store caller
        (batch number (plain_text body.entry)) office.old office.new result }
{
    let text = body_or_answer(body)?;
    let counts = office.enrol_batch(alloc, number, text)?;
    Ok(Answer::Enrolled(number, counts))
}

// Returns the value of a body, or the answer to a faulty one.
pub(crate) fn body_or_answer<T: Drop>(body: Body<T>) -> Result<T, Answer>
    ensures { IsBodyOrAnswer body result }
{
    match body {
        Body::Given(value) => Ok(value),
        Body::Bad => Err(Answer::BadBody),
        Body::Long => Err(Answer::LongBody),
    }
}
