// One connection.
ghost use Rattle.std.specs.Prelude.{IfErr, IfOk};
ghost use Rattle.office_messages.specs.Serve.{Serves, ServesFront};

use crate::pace::Pace;
use crate::paced::{PacedMachine, PacedReader, PacedWriter};
use crate::timed::Timed;
use office_messages::{End, Machine, ServeFault, Served, drain, serve};
use std::alloc::Global;
use std::io::{Read, Write};
use std::time::{Clock, Duration};

// The most reads of a connection.
const TURNS: u64 = 430_000_000;

// The most reads of bytes that are no longer answered.
const LAST_TURNS: u64 = 100_000;

/// Serves a client as `serve` of office_messages does, in at most 430,000,000 reads, and returns
/// the writer. The client has 5 seconds, or this timeout if that is shorter, to begin a message,
/// this timeout to send it from its first byte to its last, and this timeout to take each reply;
/// after that the connection ends with an I/O error of the read or the write. Two waits are longer:
/// if a message began in one piece with the message before, its time begins with the next piece;
/// and the reply to a fault of head or framing in such a piece has the time left over by the reply
/// before it. If the office ends the connection, it stops sending and reads on for at most this
/// timeout, so that the replies arrive.
pub fn answer_client<C: Clock, M: Machine, R: Read + Timed + Drop, W: Write + Timed + Drop>(
    alloc: Global,
    clock: &C,
    from: R,
    to: W,
    machine: &mut M,
    patience: Duration,
) -> (Result<Served, ServeFault>, W)
    // The bytes are the machine's replies to the messages of the whole stream, in whatever pieces
    // and at whatever speed it arrived; after a fault, to the first of them.
    ensures ok { IfOk result.0 (λ served. Serves M.Answers (R.remaining from)
        (W.contents to) (W.contents result.1) machine.old machine.new served) }
    ensures err { IfErr result.0 (λ fault. ServesFront M.Answers (R.remaining from)
        (W.contents to) (W.contents result.1) machine.old machine.new fault) }
{
    let pace = Pace::new(clock, patience);
    let mut reader = PacedReader::new(from, &pace);
    let mut writer = PacedWriter::new(to, &pace);
    let served = answer_paced(alloc, &pace, &mut reader, &mut writer, machine);
    if is_ended_by_office(served) {
        close_gently(&pace, &mut reader);
    }
    (served, writer.into_inner())
}

// Serves a client with the machine that records when a reply is made.
fn answer_paced<C: Clock, M: Machine, R: Read + Timed + Drop, W: Write + Timed + Drop>(
    alloc: Global,
    pace: &Pace<'_, C>,
    reader: &mut PacedReader<'_, C, R>,
    writer: &mut PacedWriter<'_, C, W>,
    machine: &mut M,
) -> Result<Served, ServeFault>
    ensures ok { IfOk result (λ served. Serves M.Answers (R.remaining reader.old.inner)
        (W.contents writer.old.inner) (W.contents writer.new.inner)
        machine.old machine.new served) }
    ensures err { IfErr result (λ fault. ServesFront M.Answers (R.remaining reader.old.inner)
        (W.contents writer.old.inner) (W.contents writer.new.inner)
        machine.old machine.new fault) }
{
    let mut paced = PacedMachine { machine, pace };
    let mut turns = TURNS;
    serve(alloc, reader, writer, &mut paced, &mut turns)
}

// Returns whether bytes of the client may be unread.
fn is_ended_by_office(served: Result<Served, ServeFault>) -> bool {
    match served {
        Ok(served) => match served.end {
            End::Refused | End::Asked | End::Limit => true,
            End::Closed | End::Cut => false,
        },
        Err(_) => false,
    }
}

// Stops sending and drains the reader: a socket that is closed with unread bytes is reset, and
// replies in transit are lost.
fn close_gently<C: Clock, R: Read + Timed + Drop>(
    pace: &Pace<'_, C>,
    reader: &mut PacedReader<'_, C, R>,
) {
    if reader.end_sending().is_ok() {
        pace.await_nothing();
        let mut turns = LAST_TURNS;
        let _ = drain(reader, &mut turns);
    }
}
