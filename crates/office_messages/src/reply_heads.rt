//! The text before the body of a reply.
ghost use Rattle.std.specs.Prelude.{◌≡◌, ◌+◌, ◌≤◌, ◌++◌, length, option_map, vec_len, vec_capacity};
ghost use Rattle.office_messages.specs.Reply.{plain_reply, content_line, allow_text, allow_line};
ghost use Rattle.office_messages.specs.Reply.{length_line, head_text};
ghost use Rattle.office_messages.specs.Statuses.{status_line};

use crate::allow_field::Allow;
use crate::form::Form;
use crate::replies::{Content, Reply};
use crate::statuses::Status;
use itoa::Buffer;

/// Enough bytes for every head.
pub(crate) const HEAD_ROOM: usize = 256;

/// Replaces the contents of the room by the head of a reply.
#[tactic(auto, unfolding(crate::specs::Reply::head_text))]
pub(crate) fn put_head(room: &mut Vec<u8>, reply: &Reply, form: Form)
    requires { HEAD_ROOM ≤ vec_capacity room.old }
    ensures text { room.new.items ≡ head_text form (plain_reply reply.now) }
    ensures room { HEAD_ROOM ≤ vec_capacity room.new }
{
    room.clear();
    put_status_line(room, reply.status);
    match form {
        Form::Full => {
            put_content_line(room, reply.content);
            put_allow_line(room, reply.allow);
            put_length_line(room, reply.body.bytes().len());
        }
        Form::Bare => put_allow_line(room, reply.allow),
    }
    put(room, b"\r\n");
}

/// Adds a text, for which there is room.
pub fn put(room: &mut Vec<u8>, text: &[u8])
    requires { vec_len room.old + length text.now ≤ vec_capacity room.old }
    ensures text { room.new.items ≡ room.old.items ++ text.now }
    ensures len { vec_len room.new ≡ vec_len room.old + length text.now }
    ensures room { vec_capacity room.old ≤ vec_capacity room.new }
{
    room.extend_from_slice(text).unwrap();
}

#[tactic(auto, unfolding(crate::specs::Statuses::status_line))]
fn put_status_line(room: &mut Vec<u8>, status: Status)
    requires { vec_len room.old + 34 ≤ vec_capacity room.old }
    ensures text { room.new.items ≡ room.old.items ++ status_line status }
    ensures len { vec_len room.new ≤ vec_len room.old + 34 }
    ensures room { vec_capacity room.old ≤ vec_capacity room.new }
{
    put(room, b"HTTP/1.1 ");
    put(room, status.code().as_str().as_bytes());
    put(room, b" ");
    put(room, status.phrase().as_bytes());
    put(room, b"\r\n");
}

#[tactic(auto, unfolding(crate::specs::Reply::content_line))]
fn put_content_line(room: &mut Vec<u8>, content: Content)
    requires { vec_len room.old + 32 ≤ vec_capacity room.old }
    ensures text { room.new.items ≡ room.old.items ++ content_line content }
    ensures len { vec_len room.new ≤ vec_len room.old + 32 }
    ensures room { vec_capacity room.old ≤ vec_capacity room.new }
{
    let line: &[u8] = match content {
        Content::Json => b"Content-Type: application/json\r\n",
        Content::Text => b"Content-Type: text/plain\r\n",
    };
    put(room, line);
}

#[tactic(auto, unfolding(crate::specs::Reply::allow_line))]
fn put_allow_line(room: &mut Vec<u8>, allow: Option<Allow>)
    requires { vec_len room.old + 31 ≤ vec_capacity room.old }
    ensures text { room.new.items ≡ room.old.items ++ allow_line (option_map allow_text allow) }
    ensures len { vec_len room.new ≤ vec_len room.old + 31 }
    ensures room { vec_capacity room.old ≤ vec_capacity room.new }
{
    if let Some(allow) = allow {
        put(room, b"Allow: ");
        put(room, allow.methods.as_bytes());
        put(room, b"\r\n");
    }
}

#[tactic(auto, unfolding(crate::specs::Reply::length_line))]
fn put_length_line(room: &mut Vec<u8>, length: usize)
    requires { vec_len room.old + 58 ≤ vec_capacity room.old }
    ensures text { room.new.items ≡ room.old.items ++ length_line length }
    ensures len { vec_len room.new ≤ vec_len room.old + 58 }
    ensures room { vec_capacity room.old ≤ vec_capacity room.new }
{
    let mut digits = Buffer::new();
    put(room, b"Content-Length: ");
    put(room, digits.format(length).as_bytes());
    put(room, b"\r\n");
}
