// Replies to changes: they take no memory except the room allocated before the change.
ghost use Rattle.std.specs.Prelude.{◌≡◌, ◌≤◌, vec_capacity};
ghost use Rattle.office_messages.specs.Reply.{plain_reply, json_reply};
ghost use Rattle.office_replies.specs.ChangeTexts.{dropped_text, enrolled_text, loaded_text, owner_text};
ghost use Rattle.office_replies.specs.ChangeTexts.{draft_penalty_text, published_text};

use crate::objects::{REPLY_ROOM, number, object_reply};
use exam_terms::ExamNo;
use office_messages::{Reply, Status};
use office_model::{Counts, Loaded, Published};

/// Returns the reply to a load, with its counts.
pub fn loaded_reply(room: Vec<u8>, loaded: Loaded) -> Reply
    requires { REPLY_ROOM ≤ vec_capacity room }
    ensures { plain_reply result ≡ json_reply Status.Created (loaded_text loaded) }
{
    let first = number(b"exams", u64::from(loaded.exams));
    let pairs = number(b"pairs", u64::from(loaded.pairs));
    let periods = number(b"periods", u64::from(loaded.periods));
    let rooms = number(b"rooms", u64::from(loaded.rooms));
    object_reply(room, Status::Created, first, &[pairs, periods, rooms])
}

/// Returns the reply to a change of an exam's owner; 0 is none.
pub fn owner_reply(room: Vec<u8>, exam: ExamNo, dept: u32) -> Reply
    requires { REPLY_ROOM ≤ vec_capacity room }
    ensures { plain_reply result ≡ json_reply Status.Done (owner_text exam dept) }
{
    let first = number(b"dept", u64::from(dept));
    object_reply(
        room,
        Status::Done,
        first,
        &[number(b"exam", u64::from(exam.get()))],
    )
}

/// Returns the reply to a new draft, with its penalty.
pub fn new_draft_reply(room: Vec<u8>, draft: u32, penalty: u64) -> Reply
    requires { REPLY_ROOM ≤ vec_capacity room }
    ensures { plain_reply result ≡ json_reply Status.Created (draft_penalty_text draft penalty) }
{
    let first = number(b"draft", u64::from(draft));
    object_reply(room, Status::Created, first, &[number(b"penalty", penalty)])
}

/// Returns the reply to an edit of a draft, with its penalty now.
pub fn edited_reply(room: Vec<u8>, draft: u32, penalty: u64) -> Reply
    requires { REPLY_ROOM ≤ vec_capacity room }
    ensures { plain_reply result ≡ json_reply Status.Done (draft_penalty_text draft penalty) }
{
    let first = number(b"draft", u64::from(draft));
    object_reply(room, Status::Done, first, &[number(b"penalty", penalty)])
}

/// Returns the reply to the deletion of a draft.
pub fn dropped_reply(room: Vec<u8>, draft: u32) -> Reply
    requires { REPLY_ROOM ≤ vec_capacity room }
    ensures { plain_reply result ≡ json_reply Status.Done (dropped_text draft) }
{
    let first = number(b"draft", u64::from(draft));
    object_reply(room, Status::Done, first, &[])
}

/// Returns the reply to a publication: the number of candidates whose seats changed, and its
/// penalty.
pub fn published_reply(room: Vec<u8>, draft: u32, published: Published) -> Reply
    requires { REPLY_ROOM ≤ vec_capacity room }
    ensures { plain_reply result ≡ json_reply Status.Done (published_text draft published) }
{
    let first = number(b"changed", u64::from(published.changed));
    let draft = number(b"draft", u64::from(draft));
    let penalty = number(b"penalty", published.penalty);
    object_reply(room, Status::Done, first, &[draft, penalty])
}

/// Returns the reply to a batch, with the counts of its lines.
pub fn enrolled_reply(room: Vec<u8>, batch: u32, counts: Counts) -> Reply
    requires { REPLY_ROOM ≤ vec_capacity room }
    ensures { plain_reply result ≡ json_reply Status.Done (enrolled_text batch counts) }
{
    let first = number(b"added", u64::from(counts.added));
    let batch = number(b"batch", u64::from(batch));
    let dropped = number(b"dropped", u64::from(counts.dropped));
    let unchanged = number(b"unchanged", u64::from(counts.unchanged));
    object_reply(room, Status::Done, first, &[batch, dropped, unchanged])
}
