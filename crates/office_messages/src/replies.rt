//! Replies, and those with a fixed text.
ghost use Rattle.std.specs.Prelude.{◌≡◌};
ghost use Rattle.office_messages.specs.Reply.{plain_reply, payload_bytes, json_reply};
ghost use Rattle.office_messages.specs.FixedReplies.{fault_reply, unavailable};

use crate::allow_field::Allow;
use crate::framing::Fault;
use crate::statuses::Status;

/// A reply to a request.
#[derive(Drop)]
pub struct Reply {
    pub status: Status,
    /// The methods of the path, if the request had another one.
    pub allow: Option<Allow>,
    pub content: Content,
    pub body: Payload,
}

/// The type of a body.
#[derive(Clone, Copy)]
pub enum Content {
    Json,
    Text,
}

/// The bytes of a body.
#[derive(Drop)]
pub enum Payload {
    /// A text of the program.
    Fixed(&'static [u8]),
    /// A text made for this reply.
    Made(Vec<u8>),
}

impl Payload {
    /// Returns the bytes to be written.
    pub fn bytes(&self) -> &[u8]
        ensures { result.now ≡ payload_bytes self.now }
    {
        match self {
            Payload::Fixed(bytes) => bytes,
            Payload::Made(bytes) => bytes,
        }
    }
}

/// Returns a reply with this JSON, a text of the program. It takes no memory.
pub fn fixed_reply(status: Status, body: &'static [u8]) -> Reply
    ensures { plain_reply result ≡ json_reply status body.now }
{
    Reply {
        status,
        allow: None,
        content: Content::Json,
        body: Payload::Fixed(body),
    }
}

/// Returns the reply to a fault of head or framing. It takes no memory.
pub fn fault_reply(fault: Fault) -> Reply
    ensures { plain_reply result ≡ fault_reply fault }
{
    match fault {
        Fault::Head | Fault::Host | Fault::Length => {
            fixed_reply(Status::BadRequest, b"{\"error\":\"request\"}")
        }
        Fault::Transfer => fixed_reply(Status::NotImplemented, b"{\"error\":\"transfer\"}"),
        Fault::TooLong => fixed_reply(Status::PayloadTooLarge, b"{\"error\":\"length\"}"),
    }
}

/// Returns the reply if memory or the store failed. It takes no memory.
pub fn unavailable() -> Reply
    ensures { plain_reply result ≡ unavailable }
{
    fixed_reply(Status::ServiceUnavailable, b"{\"error\":\"unavailable\"}")
}
