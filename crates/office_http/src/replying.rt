// The reply to one request.
ghost use Rattle.std.specs.Prelude.{Ok};
ghost use Rattle.sqlite.specs.Held.{state};
ghost use Rattle.sqlite.specs.State.{HasCleanDisk};
ghost use Rattle.office_policy.specs.Commands.{HasSmallNumbers, plain_command};
ghost use Rattle.office_requests.specs.Requests.{plain_caller_command};
ghost use Rattle.office_model.specs.Office.{OfficeState};
ghost use Rattle.office_store.specs.Running.{Represents};
ghost use Rattle.office_messages.specs.Heads.{plain_request};
ghost use Rattle.office_messages.specs.Reply.{plain_reply};
ghost use Rattle.office_http.specs.Replying.{Answered, AnsweredTo, RepliesCandidateView};

use crate::answers::answer_reply;
use office_desk::Desk;
use office_messages::{Reply, Request, unavailable};
use office_replies::reply_room;
use office_requests::{CallerCommand, Routes, read_request};
use sqlite::Alter;
use std::alloc::Global;

/// Replies to a request: reads it, runs its command at the desk, and writes the answer as a reply.
/// If memory runs out, nothing is done and the reply says that the office is unavailable; the reply
/// to a change that was made never says so.
pub fn reply<S: Alter>(
    alloc: Global,
    routes: &Routes,
    desk: &mut Desk<S>,
    request: &Request<'_>,
) -> Reply
    // This is one step of the office that the file represents, with its answer's reply; or a
    // refusal that depends on nothing stored; or a 503, and nothing was done. After a 200 or a 201
    // the store is open, and all writes are committed.
    ensures answered { Answered S.Store desk.old (plain_request request.now) (plain_reply result)
        desk.new }
    // A candidate gets the text of their view, and nothing else that is stored.
    ensures view { HasCleanDisk (state S.Store desk.new) → (office : OfficeState)
        → Represents (state S.Store desk.old) office
        → RepliesCandidateView office (plain_request request.now) (plain_reply result) }
{
    match read_request(alloc, routes, request) {
        Ok(asked) => command_reply(alloc, desk, &asked),
        Err(refusal) => refusal.reply(),
    }
}

// Returns the reply to a command. The room for it is allocated before anything is done.
fn command_reply<S: Alter>(alloc: Global, desk: &mut Desk<S>, asked: &CallerCommand<'_>) -> Reply
    requires { HasSmallNumbers (plain_command asked.now.command) }
    ensures { AnsweredTo S.Store desk.old (Ok (plain_caller_command asked.now))
        (plain_reply result) desk.new }
{
    let Ok(room) = reply_room(alloc) else {
        return unavailable();
    };
    let answer = desk.run(alloc, asked.caller, &asked.command);
    answer_reply(alloc, room, answer)
}
