// Connections over memory: their replies, how they end, and how many reads they take.
use crate::given::assert_same;
use crate::tally::{Tally, serve_tally};
use office_requests::{End, ServeFault, Served, drain};
use std::io;
use std::io::{ErrorKind, Read, Write};
use std::test::Fail;

const ASKED: &[u8] = b"GET /me HTTP/1.1\r\nHost: office\r\n\r\n";

const REPLY: &[u8] =
    b"HTTP/1.1 200 OK\r\nContent-Type: application/json\r\nContent-Length: 2\r\n\r\n{}";

const REFUSED: &[u8] = b"HTTP/1.1 400 Bad Request\r\nContent-Type: application/json\r\n\
Content-Length: 19\r\n\r\n{\"error\":\"request\"}";

fn serve_result(answered: u32, end: End) -> Result<Served, ServeFault> {
    Ok(Served { answered, end })
}

// Each read takes a turn, including the one that finds the end.
#[test]
fn a_connection_is_served_within_its_turns(rt: HostRuntime) {
    let too_many = Err(ServeFault::TooMany);
    // a stream, the turns, how the connection ends, and the bytes that are written
    let cases = [
        (b"".as_slice(), 0, too_many, b"".as_slice()),
        (b"", 1, serve_result(0, End::Closed), b""),
        (ASKED, 1, too_many, REPLY),
        (ASKED, 2, serve_result(1, End::Closed), REPLY),
        (b"GET /me", 2, serve_result(0, End::Cut), b""),
        (
            b"GET /me\r\n\r\n",
            2,
            serve_result(1, End::Refused),
            REFUSED,
        ),
        (
            b"GET /me HTTP/1.0\r\n\r\nGET",
            2,
            serve_result(1, End::Asked),
            REPLY,
        ),
    ];
    for (stream, turns, outcome, written) in cases {
        let (mut reader, mut left) = (stream, turns);
        let mut writer = Vec::new(rt.alloc());
        let mut tally = Tally { answered: 0 };
        let found = serve_tally(rt.alloc(), &mut reader, &mut writer, &mut tally, &mut left);
        assert_same(&rt, found, outcome, stream);
        assert_same(&rt, writer.as_slice(), written, stream);
    }
    for (turns, wanted) in [(0, Err(ServeFault::TooMany)), (1, Ok(()))] {
        let mut left = turns;
        let found = drain(&mut b"".as_slice(), &mut left);
        assert_same(&rt, (found, left), (wanted, 0), turns);
    }
}

// A device that is always interrupted, and accepts no bytes.
#[derive(Drop)]
struct Stuck;

impl Read for Stuck {
    fn read(&mut self, _buf: &mut [u8]) -> io::Result<usize> {
        Err(io::Error::from(ErrorKind::Interrupted))
    }
}

impl Write for Stuck {
    fn write(&mut self, _buf: &[u8]) -> io::Result<usize> {
        Ok(0)
    }

    fn flush(&mut self) -> io::Result<()> {
        Ok(())
    }
}

#[test]
fn a_stuck_device_ends_the_connection(rt: HostRuntime) -> Result<(), Fail> {
    let mut tally = Tally { answered: 0 };
    let mut written = Vec::new(rt.alloc());
    let found = serve_tally(rt.alloc(), &mut Stuck, &mut written, &mut tally, &mut 3);
    assert_same(&rt, found, Err(ServeFault::TooMany), "a reader");
    let mut reader = ASKED;
    let found = serve_tally(rt.alloc(), &mut reader, &mut Stuck, &mut tally, &mut 9);
    assert_same(&rt, found, Err(ServeFault::Write), "a writer");
    assert_same(&rt, tally.answered, 1, "answered");
    Ok(())
}
