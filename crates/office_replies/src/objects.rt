// Small objects of JSON, written into room that was allocated before a command ran: so each change
// is answered, even if no memory is left.
ghost use Rattle.std.specs.Prelude.{◌≡◌, ◌+◌, ◌≤◌, ◌++◌, All, IfOk, length, decimal};
ghost use Rattle.std.specs.Prelude.{map, vec_len, vec_capacity};
ghost use Rattle.office_messages.specs.Reply.{plain_reply, json_reply};
ghost use Rattle.office_replies.specs.Objects.{IsShort, IsShortValue, member_text, object_text};
ghost use Rattle.office_replies.specs.Objects.{plain_member, quoted_word, value_text};

use itoa::Buffer;
use office_messages::{Content, Payload, Reply, Status, put};
use std::alloc::{AllocError, Global};

/// The bytes kept for a reply to a change.
pub const REPLY_ROOM: usize = 256;

// The most bytes of a key or a word, of a member's value (twenty digits), and of a member.
const WORD_BYTES: usize = 16;

const SAID_BYTES: usize = 20;

const MEMBER_BYTES: usize = 45;

/// A member of an object.
#[derive(Clone, Copy)]
pub(crate) struct Member {
    pub(crate) key: &'static [u8],
    pub(crate) value: Value,
}

/// The value of a member. A word has no character that JSON escapes.
#[derive(Clone, Copy)]
pub(crate) enum Value {
    Number(u64),
    Word(&'static [u8]),
}

/// Returns room for a reply to a change.
pub fn reply_room(alloc: Global) -> Result<Vec<u8>, AllocError>
    ensures { IfOk result (λ room. REPLY_ROOM ≤ vec_capacity room) }
{
    Vec::with_capacity(alloc, REPLY_ROOM)
}

// Returns a member whose value is a number.
pub(crate) fn number(key: &'static [u8], number: u64) -> Member
    ensures { result ≡ record { key = key.entry; value = Value.Number number } }
{
    Member {
        key,
        value: Value::Number(number),
    }
}

// Returns a member whose value is a word.
pub(crate) fn word(key: &'static [u8], word: &'static [u8]) -> Member
    ensures { result ≡ record { key = key.entry; value = Value.Word word.entry } }
{
    Member {
        key,
        value: Value::Word(word),
    }
}

// Returns the reply with an object of up to four members, in the room allocated for it.
pub(crate) fn object_reply(room: Vec<u8>, status: Status, first: Member, others: &[Member]) -> Reply
    requires room { REPLY_ROOM ≤ vec_capacity room }
    requires few { length others.now ≤ 3 }
    requires first { IsShort first }
    requires others { All IsShort others.now }
    ensures { plain_reply result
        ≡ json_reply status (object_text (plain_member first) (map plain_member others.now)) }
{
    let mut room = room;
    put_object(&mut room, first, others);
    Reply {
        status,
        allow: None,
        content: Content::Json,
        body: Payload::Made(room),
    }
}

// Replaces the contents of the room by an object of up to four members.
fn put_object(room: &mut Vec<u8>, first: Member, others: &[Member])
    requires room { REPLY_ROOM ≤ vec_capacity room.old }
    requires few { length others.now ≤ 3 }
    requires first { IsShort first }
    requires others { All IsShort others.now }
    ensures { room.new.items
        ≡ object_text (plain_member first) (map plain_member others.now) }
{
    room.clear();
    put(room, b"{");
    put_member(room, first);
    for member in others {
        put(room, b",");
        put_member(room, *member);
    }
    put(room, b"}");
}

// Adds a member, for which there is room.
#[tactic(auto, unfolding(crate::specs::Objects::member_text))]
fn put_member(room: &mut Vec<u8>, member: Member)
    requires short { IsShort member }
    requires room { vec_len room.old + MEMBER_BYTES ≤ vec_capacity room.old }
    ensures text { room.new.items ≡ room.old.items ++ member_text (plain_member member) }
    ensures len { vec_len room.new ≤ vec_len room.old + MEMBER_BYTES }
    ensures room { vec_capacity room.old ≤ vec_capacity room.new }
{
    put(room, b"\"");
    put(room, member.key);
    put(room, b"\":");
    put_value(room, member.value);
}

// Adds a member's value, for which there is room.
fn put_value(room: &mut Vec<u8>, value: Value)
    requires short { IsShortValue value }
    requires room { vec_len room.old + SAID_BYTES ≤ vec_capacity room.old }
    ensures text { room.new.items ≡ room.old.items ++ value_text value }
    ensures len { vec_len room.new ≤ vec_len room.old + SAID_BYTES }
    ensures room { vec_capacity room.old ≤ vec_capacity room.new }
{
    match value {
        Value::Number(number) => put_number(room, number),
        Value::Word(word) => put_word(room, word),
    }
}

// Adds a number in decimal, for which there is room.
#[tactic(auto, using(crate::proofs::LengthLemmas::decimal_is_short))]
fn put_number(room: &mut Vec<u8>, number: u64)
    requires room { vec_len room.old + SAID_BYTES ≤ vec_capacity room.old }
    ensures text { room.new.items ≡ room.old.items ++ decimal number }
    ensures len { vec_len room.new ≤ vec_len room.old + SAID_BYTES }
    ensures room { vec_capacity room.old ≤ vec_capacity room.new }
{
    let mut digits = Buffer::new();
    put(room, digits.format(number).as_bytes());
}

// Adds a word between quotes, for which there is room.
fn put_word(room: &mut Vec<u8>, word: &[u8])
    requires short { length word.now ≤ WORD_BYTES }
    requires room { vec_len room.old + SAID_BYTES ≤ vec_capacity room.old }
    ensures text { room.new.items ≡ room.old.items ++ quoted_word word.now }
    ensures len { vec_len room.new ≤ vec_len room.old + SAID_BYTES }
    ensures room { vec_capacity room.old ≤ vec_capacity room.new }
{
    put(room, b"\"");
    put(room, word);
    put(room, b"\"");
}
