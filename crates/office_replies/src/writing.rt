// Bodies of JSON: serde_json writes each member as it is sent, with no tree of values.
ghost use Rattle.std.specs.Prelude.{◌≡◌, ℕ, List, [], Some, IfOk, OnOk};
ghost use Rattle.serde.specs.Event.{Log};
ghost use Rattle.serde_json.specs.Sent.{IsTextOf};
ghost use Rattle.office_messages.specs.Reply.{plain_reply, json_reply};
ghost use Rattle.office_replies.specs.Members.{SendsMember};
ghost use Rattle.office_replies.specs.Views.{or_null};

use office_messages::{Content, Payload, Reply, Status};
use serde::{Serialize, Serializer};
use std::alloc::{AllocError, Global};

// Returns the reply with a body of JSON. An error of serde_json has the same reply as out of
// memory.
pub(crate) fn written_reply<T: Serialize>(alloc: Global, body: &T) -> Result<Reply, AllocError>
    ensures { IfOk result (λ reply. (log : Log) × (text : List ℕ)
        × T.writes body.now (Some []) log × IsTextOf log text
        × (plain_reply reply ≡ json_reply Status.Done text)) }
{
    match serde_json::to_string(alloc, body) {
        Ok(text) => Ok(Reply {
            status: Status::Done,
            allow: None,
            content: Content::Json,
            body: Payload::Made(text.into_bytes()),
        }),
        Err(_) => Err(AllocError),
    }
}

// Sends a member whose value is a number, or null if there is none. It is inlined so that the
// length of the key is known.
#[inline(always)]
pub(crate) fn send_number<S: Serializer>(
    key: &str,
    number: Option<u32>,
    out: &mut S,
) -> Result<(), S::Error>
    ensures { OnOk result
        (SendsMember key.now (or_null number) (S.written out.old) (S.written out.new)) }
{
    out.key(key)?;
    match number {
        Some(number) => number.serialize(out),
        None => out.unit(),
    }
}
