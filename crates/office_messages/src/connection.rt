//! One connection, from its first byte to its end.
ghost use Rattle.std.specs.Prelude.{◌≡◌, ◌≢◌, ℕ, ◌+◌, ◌≤◌, List, ◌++◌, length, drop};
ghost use Rattle.std.specs.Prelude.{IfOk, IfErr, OnOk, vec_capacity};
ghost use Rattle.std.specs.Io.KnownBytes.{Consumes, Appends, IsAtEnd};
ghost use Rattle.office_messages.specs.Form.{form_of};
ghost use Rattle.office_messages.specs.Heads.{plain_request};
ghost use Rattle.office_messages.specs.Reply.{PlainReply, plain_reply, reply_text, sent_body};
ghost use Rattle.office_messages.specs.Serve.{Serves, ServesFront};
ghost use Rattle.office_messages.specs.Stream.{PlainRequest};
ghost use Rattle.office_output.specs.Writing.{WritesFront};

use crate::form::Form;
use crate::look::{Beginning, Stage, look};
use crate::replies::{Reply, fault_reply};
use crate::reply_heads::{HEAD_ROOM, put_head};
use crate::request::Request;
use office_output::write_text;
use std::alloc::Global;
use std::io::{ErrorKind, Read, Write};

/// Why a connection ended. If several apply, the first of Refused, Asked and Limit.
#[derive(Clone, Copy, Debug, PartialEq, Eq)]
pub enum End {
    /// The input ended between messages.
    Closed,
    /// The input ended within a message, which was not answered.
    Cut,
    /// A fault of head or framing was answered.
    Refused,
    /// The message was HTTP/1.0, or had `Connection: close`.
    Asked,
    /// The last message of a connection was answered.
    Limit,
}

/// The result of serving a connection.
#[derive(Clone, Copy, Debug, PartialEq, Eq)]
pub struct Served {
    /// The number of replies that were written.
    pub answered: u32,
    pub end: End,
}

impl Served {
    fn at(answered: u32, end: End) -> Result<Served, ServeFault>
        ensures { result ≡ Ok (record { answered = answered; end = end }) }
    {
        Ok(Served { answered, end })
    }
}

/// Why a connection was not served to its end.
#[derive(Clone, Copy, Debug, PartialEq, Eq)]
pub enum ServeFault {
    /// The reader failed.
    Read = 1,
    /// The writer failed, wrote nothing, or was interrupted too often. The last command was run,
    /// and at most a front of its reply was written; all replies before it were written whole.
    Write = 2,
    /// No turn was left.
    TooMany = 3,
    /// Out of memory, either for the head of a reply or to keep a message.
    NoMemory = 4,
}

/// The most messages of a connection.
pub const MAX_MESSAGES: u32 = 100;

/// A machine that answers requests.
pub trait Machine {
    // In the first state it may return this reply to the request, and change to the second state.
    ghost Answers: { Self → PlainRequest → PlainReply → Self → Type 0 };

    /// Answers a request. Out of memory is a reply too.
    fn answer(&mut self, alloc: Global, request: &Request<'_>) -> Reply
        ensures { Answers self.old (plain_request request.now) (plain_reply result) self.new };
}

// The result of a read.
#[derive(Clone, Copy)]
enum Received {
    Bytes,
    Nothing,
    End,
}

// The most bytes of a read.
pub(crate) const PIECE: usize = 4096;

// Room for a head, and for most bodies after it, so that both are sent with one write.
const REPLY_ROOM: usize = 4096;

/// Serves one connection: reads its messages, has the machine answer them one after another, and
/// writes each reply before it continues to read. It never flushes: if a writer buffers bytes, its
/// caller must flush it. A turn is one call of `read`, interrupted or not, and an interrupted read
/// is retried; the turns used are subtracted from `turns`. An interrupted write is retried up to
/// 1,000 times. If it ends the connection itself, there may be unread bytes of the client: `drain`
/// reads them.
pub fn serve<R: Read, W: Write, M: Machine>(
    alloc: Global,
    reader: &mut R,
    writer: &mut W,
    machine: &mut M,
    turns: &mut u64,
) -> Result<Served, ServeFault>
    // If the bytes of reader and writer are known, for any machine: its replies to the messages of
    // the whole stream are written one after another, in whatever pieces the stream arrives. The
    // result has their number and the end.
    ensures ok { IfOk result (λ served. Serves M.Answers (R.remaining reader.old)
        (W.contents writer.old) (W.contents writer.new) machine.old machine.new served) }
    // The same for the requests that the stream begins with. If the writer failed, the machine has
    // answered the last of them; all replies but the last were written whole, and of the last a
    // front.
    ensures err { IfErr result (λ fault. ServesFront M.Answers (R.remaining reader.old)
        (W.contents writer.old) (W.contents writer.new) machine.old machine.new fault) }
    // The bytes read are at the front of what is left of the reader.
    ensures taken { (bytes : List ℕ)
        × Consumes (R.remaining reader.old) (R.remaining reader.new) bytes }
    // The fault is `TooMany` only if no turn is left.
    ensures spent { IfErr result (λ fault. fault ≡ ServeFault.TooMany → turns.new ≡ 0) }
    ensures turns { turns.new ≤ turns.old }
{
    let mut room = match Vec::with_capacity(alloc, REPLY_ROOM) {
        Ok(room) => room,
        Err(_) => return Err(ServeFault::NoMemory),
    };
    let mut buffer = Vec::new(alloc);
    let mut piece = [0u8; PIECE];
    let mut stage = Stage::Searching(0);
    let mut answered = 0;
    while answered < MAX_MESSAGES {
        match look(&buffer, stage) {
            Beginning::Whole(head) => {
                answer(alloc, writer, &mut room, machine, &head.request(&buffer))?;
                answered += 1;
                if head.closes {
                    return Served::at(answered, End::Asked);
                }
                drop_front(&mut buffer, head.body.end);
                stage = Stage::Searching(0);
            }
            Beginning::Faulty(bad) => {
                send(writer, &mut room, &fault_reply(bad.fault), bad.form)?;
                return Served::at(answered + 1, End::Refused);
            }
            Beginning::More(known) => {
                stage = known;
                match receive(reader, &mut piece, &mut buffer, turns)? {
                    Received::Bytes | Received::Nothing => {}
                    Received::End => {
                        if buffer.is_empty() {
                            return Served::at(answered, End::Closed);
                        }
                        return Served::at(answered, End::Cut);
                    }
                }
            }
        }
    }
    Served::at(answered, End::Limit)
}

// Answers one message.
fn answer<W: Write, M: Machine>(
    alloc: Global,
    writer: &mut W,
    room: &mut Vec<u8>,
    machine: &mut M,
    request: &Request<'_>,
) -> Result<(), ServeFault>
    requires { HEAD_ROOM ≤ vec_capacity room.old }
    ensures step { (reply : PlainReply)
        × M.Answers machine.old (plain_request request.now) reply machine.new
        × OnOk result (Appends (W.contents writer.old) (W.contents writer.new)
        (reply_text (form_of request.now.method.now) reply))
        × IfErr result (λ fault. (fault ≡ ServeFault.Write)
        × WritesFront (W.contents writer.old) (W.contents writer.new)
        (reply_text (form_of request.now.method.now) reply)) }
    ensures room { HEAD_ROOM ≤ vec_capacity room.new }
{
    let reply = machine.answer(alloc, request);
    let form = Form::of(request.method.as_bytes());
    send(writer, room, &reply, form)
}

// Writes a reply, in one piece if there is room for its body too.
#[tactic(auto, unfolding(crate::specs::Reply::reply_text))]
fn send<W: Write>(
    writer: &mut W,
    room: &mut Vec<u8>,
    reply: &Reply,
    form: Form,
) -> Result<(), ServeFault>
    requires { HEAD_ROOM ≤ vec_capacity room.old }
    ensures ok { OnOk result (Appends (W.contents writer.old) (W.contents writer.new)
        (reply_text form (plain_reply reply.now))) }
    ensures err { IfErr result (λ fault. (fault ≡ ServeFault.Write)
        × WritesFront (W.contents writer.old) (W.contents writer.new)
        (reply_text form (plain_reply reply.now))) }
    ensures room { HEAD_ROOM ≤ vec_capacity room.new }
{
    put_head(room, reply, form);
    let body = sent_body(reply, form);
    if body.len() <= room.capacity() - room.len() {
        room.extend_from_slice(body).unwrap();
        return write(writer, room);
    }
    write(writer, room)?;
    write(writer, body)
}

// Returns the text after the head.
fn sent_body(reply: &Reply, form: Form) -> &[u8]
    ensures { result.now ≡ sent_body form (plain_reply reply.now).body }
{
    match form {
        Form::Full => reply.body.bytes(),
        Form::Bare => &[],
    }
}

// Writes all of the bytes, or a front of them.
fn write<W: Write>(writer: &mut W, bytes: &[u8]) -> Result<(), ServeFault>
    ensures ok { OnOk result (Appends (W.contents writer.old) (W.contents writer.new) bytes.now) }
    ensures err { IfErr result (λ fault. (fault ≡ ServeFault.Write)
        × WritesFront (W.contents writer.old) (W.contents writer.new) bytes.now) }
{
    write_text(writer, bytes).map_err(|_| ServeFault::Write)
}

// Removes the first bytes of the buffer.
fn drop_front(buffer: &mut Vec<u8>, n: usize)
    requires { n ≤ length buffer.old.items }
    ensures { buffer.new.items ≡ drop n buffer.old.items }
{
    buffer.drain(..n);
}

// Reads once and appends the bytes to the buffer, if there is a turn left for it.
fn receive<R: Read>(
    reader: &mut R,
    piece: &mut [u8; PIECE],
    buffer: &mut Vec<u8>,
    turns: &mut u64,
) -> Result<Received, ServeFault>
    ensures taken { (bytes : List ℕ)
        × Consumes (R.remaining reader.old) (R.remaining reader.new) bytes
        × (buffer.new.items ≡ buffer.old.items ++ bytes) }
    ensures end { IfOk result (λ r. r ≡ Received.End
        → IsAtEnd (R.remaining reader.new) × (buffer.new.items ≡ buffer.old.items)) }
    ensures turn { OnOk result (turns.new + 1 ≡ turns.old) }
    ensures spent { IfErr result (λ fault. fault ≡ ServeFault.TooMany → turns.old ≡ 0) }
    ensures kept { turns.new ≤ turns.old }
    ensures err { IfErr result (λ fault. fault ≢ ServeFault.Write) }
    // Memory runs out before anything is read.
    ensures unread { IfErr result (λ fault. fault ≡ ServeFault.NoMemory → reader.new ≡ reader.old) }
{
    if *turns == 0 {
        return Err(ServeFault::TooMany);
    }
    *turns -= 1;
    if buffer.reserve(PIECE).is_err() {
        return Err(ServeFault::NoMemory);
    }
    match reader.read(piece) {
        Ok(0) => Ok(Received::End),
        Ok(n) => {
            buffer.extend_from_slice(&piece[..n]).unwrap();
            Ok(Received::Bytes)
        }
        Err(e) => {
            if e.kind() == ErrorKind::Interrupted {
                Ok(Received::Nothing)
            } else {
                Err(ServeFault::Read)
            }
        }
    }
}
