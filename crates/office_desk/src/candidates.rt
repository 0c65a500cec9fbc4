// Commands of candidates. Each answer depends only on the candidate's view. On `Err` the answer
// shows nothing of it.
ghost use Rattle.std.specs.Prelude.{◌≡◌, IfOk, IfErr};
ghost use Rattle.office_policy.specs.Commands.{me, my_exam, my_penalty};
ghost use Rattle.office_model.specs.Answers.{unavailable};
ghost use Rattle.office_desk.specs.Answers.{plain_answer};
ghost use Rattle.office_desk.specs.Performing.{CommandPerformed};

use crate::answer::Answer;
use exam_terms::{ExamNo, StudentNo};
use office_policy::Caller;
use office_store::Office;
use sqlite::Alter;
use std::alloc::Global;

// Answers with all exams of the candidate, and with their penalty.
pub(crate) fn me<S: Alter>(
    office: &mut Office<S>,
    alloc: Global,
    student: StudentNo,
) -> Result<Answer, Answer>
    ensures { CommandPerformed S.Store (Caller.Cand student) me office.old office.new result }
{
    let view = office.candidate_view(alloc, student)?;
    Ok(Answer::Me(view))
}

// Answers with one exam, if the candidate has it.
pub(crate) fn my_exam<S: Alter>(
    office: &mut Office<S>,
    alloc: Global,
    student: StudentNo,
    exam: ExamNo,
) -> Result<Answer, Answer>
    ensures { CommandPerformed S.Store (Caller.Cand student) (my_exam exam)
        office.old office.new result }
{
    match office.candidate_exam(alloc, student, exam)? {
        Some(row) => Ok(Answer::MyExam(row)),
        None => Ok(Answer::NotMine),
    }
}

// Answers with the candidate's penalty.
pub(crate) fn my_penalty<S: Alter>(
    office: &mut Office<S>,
    alloc: Global,
    student: StudentNo,
) -> Result<Answer, Answer>
    ensures { CommandPerformed S.Store (Caller.Cand student) my_penalty
        office.old office.new result }
{
    let penalty = office.candidate_penalty(alloc, student)?;
    Ok(Answer::MyPenalty(penalty))
}

// Returns the candidate who is the caller. No other caller may ask for a candidate's pages.
pub(crate) fn candidate(caller: Caller) -> Result<StudentNo, Answer>
    ensures ok { IfOk result (λ student. caller ≡ Caller.Cand student) }
    ensures err { IfErr result (λ answer. plain_answer answer ≡ unavailable) }
{
    match caller {
        Caller::Cand(student) => Ok(student),
        _ => Err(Answer::Unavailable),
    }
}
