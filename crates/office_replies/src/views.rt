// Replies with a draft or a text.
ghost use Rattle.std.specs.Prelude.{◌≡◌, IfOk, OnOk, option_map};
ghost use Rattle.serde_json.specs.Data.{array};
ghost use Rattle.serde_json.specs.Events.{SendsValue};
ghost use Rattle.serde_json.specs.View.{items_of};
ghost use Rattle.office_messages.specs.Reply.{plain_reply, json_reply};
ghost use Rattle.office_replies.specs.Replies as replies;
ghost use Rattle.office_replies.specs.Views.{draft_data, draft_text, exam_data, exams_data};

use crate::writing::{send_number, written_reply};
use exam_model::Timetable;
use exam_terms::{ExamNo, Place};
use office_messages::{Content, Payload, Reply, Status};
use serde::{Described, Serialize, Serializer};
use std::alloc::{AllocError, Global};

// The body of the reply with a draft.
#[derive(Drop)]
struct DraftBody<'a> {
    draft: u32,
    timetable: &'a Timetable,
    penalty: u64,
}

/// Returns the reply with a text, unchanged.
pub fn text_reply(text: Vec<u8>) -> Reply
    ensures { plain_reply result ≡ replies.text_reply text.items }
{
    Reply {
        status: Status::Done,
        allow: None,
        content: Content::Text,
        body: Payload::Made(text),
    }
}

/// Returns the reply with a draft: its exams, the place of each, and its penalty.
pub fn draft_reply(
    alloc: Global,
    draft: u32,
    timetable: &Timetable,
    penalty: u64,
) -> Result<Reply, AllocError>
    ensures { IfOk result (λ reply.
        plain_reply reply ≡ json_reply Status.Done (draft_text draft timetable.now penalty)) }
{
    let body = DraftBody {
        draft,
        timetable,
        penalty,
    };
    written_reply(alloc, &body)
}

impl Described for DraftBody<'_> {
    ghost writes = { λ body. SendsValue (draft_data body.draft body.timetable.now body.penalty) };
}

impl Serialize for DraftBody<'_> {
    fn serialize<S: Serializer>(&self, out: &mut S) -> Result<(), S::Error> {
        out.begin_map(Some(3))?;
        out.key("draft")?;
        self.draft.serialize(out)?;
        out.key("exams")?;
        send_exams(self.timetable, out)?;
        out.key("penalty")?;
        out.u64(self.penalty)?;
        out.end_map()
    }
}

// Sends the exams of a timetable, by their numbers.
fn send_exams<S: Serializer>(timetable: &Timetable, out: &mut S) -> Result<(), S::Error>
    ensures { OnOk result (SendsValue (array (items_of (exams_data timetable.now)))
        (S.written out.old) (S.written out.new)) }
{
    out.begin_seq(Some(timetable.exams() as usize))?;
    for number in 0..timetable.exams() {
        let exam = ExamNo::new(number);
        send_exam(exam, timetable.get(exam), out)?;
    }
    out.end_seq()
}

// Sends an exam and its place, if it has one.
fn send_exam<S: Serializer>(exam: ExamNo, at: Option<Place>, out: &mut S) -> Result<(), S::Error>
    ensures { OnOk result (SendsValue (exam_data exam at) (S.written out.old) (S.written out.new)) }
{
    let (period, room) = place_numbers(at);
    out.begin_map(Some(3))?;
    out.key("exam")?;
    exam.get().serialize(out)?;
    send_number("period", period, out)?;
    send_number("room", room, out)?;
    out.end_map()
}

// Returns the period and the room of a place, if there is one.
fn place_numbers(at: Option<Place>) -> (Option<u32>, Option<u32>)
    ensures period { result.0 ≡ option_map (λ at. at.period) at }
    ensures room { result.1 ≡ option_map (λ at. at.room) at }
{
    match at {
        Some(at) => (Some(at.period.get()), Some(at.room.get())),
        None => (None, None),
    }
}
