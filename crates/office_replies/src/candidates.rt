// The replies with a candidate's view.
ghost use Rattle.std.specs.Prelude.{◌≡◌, IfOk, OnOk, map, option_map};
ghost use Rattle.serde_json.specs.Data.{array};
ghost use Rattle.serde_json.specs.Events.{SendsValue};
ghost use Rattle.serde_json.specs.View.{items_of};
ghost use Rattle.office_messages.specs.Reply.{plain_reply, json_reply};
ghost use Rattle.office_messages.specs.declared.statuses.Status.TheVariants.{Done};
ghost use Rattle.office_replies.specs.CandidateViews.{candidate_data, candidate_text, cost_data};
ghost use Rattle.office_replies.specs.CandidateViews.{cost_text, exam_data, exam_text};
ghost use Rattle.office_replies.specs.CandidateViews.{state_text, text_or_null};
ghost use Rattle.office_replies.specs.DayTexts.{date_text, start_text};

use crate::days::{date_text, start_text};
use crate::writing::{send_number, written_reply};
use exam_score::PersonalParts;
use office_messages::Reply;
use office_model::{CandidateView, ShownPlace, ViewRow};
use serde::{Described, Serialize, Serializer};
use std::alloc::{AllocError, Global};

// The body of the reply with a candidate's whole view.
#[derive(Drop)]
struct CandidateBody<'a>(&'a CandidateView);

// The body of the reply with one of a candidate's exams.
#[derive(Drop)]
struct ExamBody(ViewRow);

// The body of the reply with the cost of a candidate's exams.
#[derive(Drop)]
struct CostBody(PersonalParts);

/// Returns the reply with a candidate's view: their exams, and the cost of these.
pub fn candidate_reply(alloc: Global, shown: &CandidateView) -> Result<Reply, AllocError>
    ensures { IfOk result (λ reply. plain_reply reply ≡ json_reply Done
        (candidate_text shown.now.student shown.now.exams shown.now.personal)) }
{
    written_reply(alloc, &CandidateBody(shown))
}

/// Returns the reply with one of a candidate's exams.
pub fn exam_reply(alloc: Global, row: ViewRow) -> Result<Reply, AllocError>
    ensures { IfOk result (λ reply.
        plain_reply reply ≡ json_reply Done (exam_text row)) }
{
    written_reply(alloc, &ExamBody(row))
}

/// Returns the reply with the cost of a candidate's exams.
pub fn cost_reply(alloc: Global, personal: PersonalParts) -> Result<Reply, AllocError>
    ensures { IfOk result (λ reply.
        plain_reply reply ≡ json_reply Done (cost_text personal)) }
{
    written_reply(alloc, &CostBody(personal))
}

impl Described for CandidateBody<'_> {
    ghost writes = { λ body. SendsValue
        (candidate_data body.0.now.student body.0.now.exams body.0.now.personal) };
}

impl Serialize for CandidateBody<'_> {
    fn serialize<S: Serializer>(&self, out: &mut S) -> Result<(), S::Error> {
        out.begin_map(Some(3))?;
        out.key("candidate")?;
        self.0.student().get().serialize(out)?;
        out.key("exams")?;
        send_exams(self.0.rows(), out)?;
        out.key("penalty")?;
        out.u64(self.0.personal().total())?;
        out.end_map()
    }
}

impl Described for ExamBody {
    ghost writes = { λ body. SendsValue (exam_data body.0) };
}

impl Serialize for ExamBody {
    fn serialize<S: Serializer>(&self, out: &mut S) -> Result<(), S::Error> {
        send_exam(self.0, out)
    }
}

impl Described for CostBody {
    ghost writes = { λ body. SendsValue (cost_data body.0) };
}

impl Serialize for CostBody {
    fn serialize<S: Serializer>(&self, out: &mut S) -> Result<(), S::Error> {
        out.begin_map(Some(5))?;
        out.key("day")?;
        out.u64(self.0.day())?;
        out.key("night")?;
        out.u64(self.0.night())?;
        out.key("penalty")?;
        out.u64(self.0.total())?;
        out.key("row")?;
        out.u64(self.0.row())?;
        out.key("spread")?;
        out.u64(self.0.spread())?;
        out.end_map()
    }
}

// Sends a candidate's exams, in their order.
fn send_exams<S: Serializer>(rows: &[ViewRow], out: &mut S) -> Result<(), S::Error>
    ensures { OnOk result (SendsValue (array (items_of (map exam_data rows.now)))
        (S.written out.old) (S.written out.new)) }
{
    out.begin_seq(Some(rows.len()))?;
    for row in rows {
        send_exam(*row, out)?;
    }
    out.end_seq()
}

// Sends one of a candidate's exams. It is inlined so that the lengths of its keys are known.
#[inline(always)]
fn send_exam<S: Serializer>(row: ViewRow, out: &mut S) -> Result<(), S::Error>
    ensures { OnOk result (SendsValue (exam_data row) (S.written out.old) (S.written out.new)) }
{
    out.begin_map(Some(7))?;
    out.key("date")?;
    send_date(row.at, out)?;
    out.key("exam")?;
    row.exam.get().serialize(out)?;
    send_number("period", period_of(row.at), out)?;
    send_number("room", room_of(row.at), out)?;
    send_number("seat", row.seat, out)?;
    out.key("start")?;
    send_start(row.at, out)?;
    out.key("state")?;
    out.str(state_text(row.enrolled, row.seat))?;
    out.end_map()
}

// Sends the date of a place, or null if there is none.
fn send_date<S: Serializer>(at: Option<ShownPlace>, out: &mut S) -> Result<(), S::Error>
    ensures { OnOk result
        (SendsValue (text_or_null (option_map (λ at. date_text at.date) at))
        (S.written out.old) (S.written out.new)) }
{
    match at {
        Some(at) => match date_text(at.date) {
            Ok(text) => out.str(text.as_str()),
            Err(_) => Err(out.custom("no date")),
        },
        None => out.unit(),
    }
}

// Sends the start of an exam at a place, or null if there is none.
fn send_start<S: Serializer>(at: Option<ShownPlace>, out: &mut S) -> Result<(), S::Error>
    ensures { OnOk result (SendsValue (text_or_null (option_map start_text at))
        (S.written out.old) (S.written out.new)) }
{
    match at {
        Some(at) => match start_text(at) {
            Ok(text) => out.str(text.as_str()),
            Err(_) => Err(out.custom("no time")),
        },
        None => out.unit(),
    }
}

// Returns the period of a place, if there is one.
fn period_of(at: Option<ShownPlace>) -> Option<u32>
    ensures { result ≡ option_map (λ at. at.period) at }
{
    at.map(|at| at.period.get())
}

// Returns the room of a place, if there is one.
fn room_of(at: Option<ShownPlace>) -> Option<u32>
    ensures { result ≡ option_map (λ at. at.room) at }
{
    at.map(|at| at.room.get())
}

// Returns whether a candidate is enrolled and seated, enrolled only, or no longer enrolled.
fn state_text(enrolled: bool, seat: Option<u32>) -> &'static str
    ensures { result.now ≡ state_text enrolled seat }
{
    match (enrolled, seat) {
        (true, Some(_)) => "seated",
        (true, None) => "pending",
        (false, _) => "withdrawn",
    }
}
