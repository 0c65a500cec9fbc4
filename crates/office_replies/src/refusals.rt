// Replies to refusals of commands: they take no memory except the room allocated before.
ghost use Rattle.std.specs.Prelude.{◌≡◌, ◌≤◌, vec_capacity};
ghost use Rattle.office_messages.specs.Reply.{plain_reply, json_reply};
ghost use Rattle.office_replies.specs.Refusals.{broken_text, edit_reply, fault_reply_of, file_text};
ghost use Rattle.office_replies.specs.Refusals.{publish_reply, refused_reply, unplaced_text};

use crate::objects::{REPLY_ROOM, number, object_reply, word};
use exam_draft::EditFault;
use exam_model::ExamNo;
use exam_publish::PublishFault;
use exam_rules::Breach;
use office_files::FileFault;
use office_messages::{Reply, Status, unavailable};
use office_model::{Refusal, StoreFault, kind_number};
use office_reports::rule_name;
use office_requests::FixedError;

/// Returns the reply to a refusal of a command. A failed statement, out of memory and tables that
/// represent no office have the same reply.
pub fn refusal_reply(room: Vec<u8>, fault: StoreFault) -> Reply
    requires { REPLY_ROOM ≤ vec_capacity room }
    ensures { plain_reply result ≡ fault_reply_of fault }
{
    match fault {
        StoreFault::Loaded => FixedError::Loaded.reply(),
        StoreFault::NotLoaded => FixedError::NotLoaded.reply(),
        StoreFault::NoDraft => FixedError::Draft.reply(),
        StoreFault::DraftTaken => FixedError::DraftTaken.reply(),
        StoreFault::BatchDiffers => FixedError::BatchDiffers.reply(),
        StoreFault::TooMany => FixedError::TooMany.reply(),
        StoreFault::Refused(why) => refused_reply(room, why),
        StoreFault::Store | StoreFault::BadSchema => unavailable(),
    }
}

fn refused_reply(room: Vec<u8>, why: Refusal) -> Reply
    requires { REPLY_ROOM ≤ vec_capacity room }
    ensures { plain_reply result ≡ refused_reply why }
{
    match why {
        Refusal::Edit(fault) => edit_reply(room, fault),
        Refusal::Publish(fault) => publish_reply(room, fault),
        Refusal::File(fault) => file_reply(room, fault),
    }
}

fn edit_reply(room: Vec<u8>, fault: EditFault) -> Reply
    requires { REPLY_ROOM ≤ vec_capacity room }
    ensures { plain_reply result ≡ edit_reply fault }
{
    match fault {
        EditFault::NoSuch => FixedError::Number.reply(),
        EditFault::AlreadyPlaced => FixedError::AlreadyPlaced.reply(),
        EditFault::NotPlaced => FixedError::NotPlaced.reply(),
        EditFault::SameExam => FixedError::SameExam.reply(),
        EditFault::Broken(breach) => broken_reply(room, breach),
        EditFault::NoMemory => unavailable(),
    }
}

fn publish_reply(room: Vec<u8>, fault: PublishFault) -> Reply
    requires { REPLY_ROOM ≤ vec_capacity room }
    ensures { plain_reply result ≡ publish_reply fault }
{
    match fault {
        PublishFault::Unplaced(exam) => unplaced_reply(room, exam),
        PublishFault::Broken(breach) => broken_reply(room, breach),
        PublishFault::NoMemory => unavailable(),
    }
}

// Returns the reply with a rule that would be broken, and the two exams that break it.
fn broken_reply(room: Vec<u8>, breach: Breach) -> Reply
    requires { REPLY_ROOM ≤ vec_capacity room }
    ensures { plain_reply result ≡ json_reply Status.Conflict (broken_text breach) }
{
    let exam = number(b"exam", u64::from(breach.exam.get()));
    let other = number(b"other", u64::from(breach.other.get()));
    let rule = word(b"rule", rule_name(breach.rule).as_bytes());
    object_reply(
        room,
        Status::Conflict,
        word(b"error", b"broken"),
        &[exam, other, rule],
    )
}

fn unplaced_reply(room: Vec<u8>, exam: ExamNo) -> Reply
    requires { REPLY_ROOM ≤ vec_capacity room }
    ensures { plain_reply result ≡ json_reply Status.Conflict (unplaced_text exam) }
{
    let exam = number(b"exam", u64::from(exam.get()));
    object_reply(room, Status::Conflict, word(b"error", b"unplaced"), &[exam])
}

// Returns the reply with a file's first fault, by its number, and its line.
fn file_reply(room: Vec<u8>, fault: FileFault) -> Reply
    requires { REPLY_ROOM ≤ vec_capacity room }
    ensures { plain_reply result ≡ json_reply Status.BadRequest (file_text fault) }
{
    let kind = number(b"fault", u64::from(kind_number(fault.what)));
    let line = number(b"line", u64::from(fault.line));
    object_reply(
        room,
        Status::BadRequest,
        word(b"error", b"file"),
        &[kind, line],
    )
}
