// Answers of the desk as replies.
ghost use Rattle.std.specs.Prelude.{◌≡◌, ◌≤◌, IfOk, true, vec_capacity};
ghost use Rattle.office_messages.specs.Reply.{plain_reply};
ghost use Rattle.office_model.specs.Answers.{PlainAnswer, has_stored_data};
ghost use Rattle.office_replies.specs.Replies.{reply_to};
ghost use Rattle.office_desk.specs.Answers.{plain_answer};
ghost use Rattle.office_http.specs.Replying.{IsReplyOf};

use office_desk::Answer;
use office_messages::{Fault, Reply, fault_reply, unavailable};
use office_replies::{
    REPLY_ROOM, candidate_reply, cost_reply, draft_reply, dropped_reply, edited_reply,
    enrolled_reply, exam_reply, loaded_reply, new_draft_reply, owner_reply, published_reply,
    refusal_reply, text_reply,
};
use office_requests::FixedError;
use std::alloc::{AllocError, Global};

/// Returns the reply to an answer. The text of a change is written into `room`, so that no memory
/// is allocated for it. If memory runs out for an answer that shows something, the reply says that
/// the office is unavailable.
pub(crate) fn answer_reply(alloc: Global, room: Vec<u8>, answer: Answer) -> Reply
    requires { REPLY_ROOM ≤ vec_capacity room }
    ensures { IsReplyOf (plain_answer answer) (plain_reply result) }
{
    match answer {
        Answer::Me(view) => reply_or_unavailable(candidate_reply(alloc, &view)),
        Answer::MyExam(row) => reply_or_unavailable(exam_reply(alloc, row)),
        Answer::MyPenalty(personal) => reply_or_unavailable(cost_reply(alloc, personal)),
        Answer::NotMine => FixedError::Exam.reply(),
        Answer::Loaded(loaded) => loaded_reply(room, loaded),
        Answer::Text(text) => text_reply(text),
        Answer::Owner(exam, dept) => owner_reply(room, exam, dept),
        Answer::NewDraft(draft, penalty) => new_draft_reply(room, draft, penalty),
        Answer::Edited(draft, penalty) => edited_reply(room, draft, penalty),
        Answer::Dropped(draft) => dropped_reply(room, draft),
        Answer::Draft(draft, timetable, penalty) => {
            reply_or_unavailable(draft_reply(alloc, draft, &timetable, penalty))
        }
        Answer::Published(draft, published) => published_reply(room, draft, published),
        Answer::Enrolled(batch, counts) => enrolled_reply(room, batch, counts),
        Answer::Unpublished => FixedError::Publication.reply(),
        Answer::Denied(denial) => FixedError::Denied(denial).reply(),
        Answer::BadBody => FixedError::Body.reply(),
        Answer::LongBody => fault_reply(Fault::TooLong),
        Answer::Refused(fault) => refusal_reply(room, fault),
        Answer::Unavailable => unavailable(),
    }
}

// Returns the reply that shows something, or the one that says that the office is unavailable.
fn reply_or_unavailable(made: Result<Reply, AllocError>) -> Reply
    ensures { (answer : PlainAnswer) → has_stored_data answer ≡ true
        → IfOk made (λ reply. plain_reply reply ≡ reply_to answer)
        → IsReplyOf answer (plain_reply result) }
{
    match made {
        Ok(reply) => reply,
        Err(_) => unavailable(),
    }
}
