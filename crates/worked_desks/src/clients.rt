// Clients of a desk, one after another: the replies to each, and the state after a fault.
use crate::desk::SmallDesk;
use crate::sides::{Calls, HandClock, Side, Waiting};
use office_connections::{Plan, Timed, accept_all};
use std::alloc::Global;
use std::io::{Read, Write};
use std::process::Abort;
use std::test::Fail;
use std::time::Duration;

// The messages of a client, of 54 and 45 bytes, in either order.
const DROP_FIRST: &[u8] = b"DELETE /drafts/1 HTTP/1.1\r\nHost:o\r\nX-Caller:office\r\n\r\n\
GET /me HTTP/1.1\r\nHost:o\r\nX-Caller:cand:1\r\n\r\n";

const PAGE_FIRST: &[u8] = b"GET /me HTTP/1.1\r\nHost:o\r\nX-Caller:cand:1\r\n\r\n\
DELETE /drafts/1 HTTP/1.1\r\nHost:o\r\nX-Caller:office\r\n\r\n";

// Their replies, of 82 and 109 bytes.
const DROPPED_FIRST: &[u8] = b"HTTP/1.1 200 OK\r\nContent-Type: application/json\r\n\
Content-Length: 11\r\n\r\n{\"draft\":1}\
HTTP/1.1 200 OK\r\nContent-Type: application/json\r\n\
Content-Length: 38\r\n\r\n{\"candidate\":1,\"exams\":[],\"penalty\":0}";

const SHOWN_FIRST: &[u8] = b"HTTP/1.1 200 OK\r\nContent-Type: application/json\r\n\
Content-Length: 38\r\n\r\n{\"candidate\":1,\"exams\":[],\"penalty\":0}\
HTTP/1.1 200 OK\r\nContent-Type: application/json\r\n\
Content-Length: 11\r\n\r\n{\"draft\":1}";

// The request of the client before, and its reply.
const PAGE: &[u8] = b"GET /me HTTP/1.1\r\nHost:o\r\nX-Caller:cand:1\r\n\r\n";

const SHOWN: &[u8] = b"HTTP/1.1 200 OK\r\nContent-Type: application/json\r\n\
Content-Length: 38\r\n\r\n{\"candidate\":1,\"exams\":[],\"penalty\":0}";

// The request of the client after, and its reply if the draft exists, and if it doesn't.
const DRAFT: &[u8] = b"GET /drafts/1 HTTP/1.1\r\nHost:o\r\nX-Caller:office\r\n\r\n";

const THERE: &[u8] = b"HTTP/1.1 200 OK\r\nContent-Type: application/json\r\n\
Content-Length: 34\r\n\r\n{\"draft\":1,\"exams\":[],\"penalty\":0}";

const NOT_THERE: &[u8] = b"HTTP/1.1 404 Not Found\r\nContent-Type: application/json\r\n\
Content-Length: 17\r\n\r\n{\"error\":\"draft\"}";

const READ_FAULT: &[u8] = b"examoffice: connection fault 1\n";

const WRITE_FAULT: &[u8] = b"examoffice: connection fault 2\n";

// A client between two others.
#[derive(Clone, Copy)]
struct Case<'a> {
    asked: &'a [u8],
    reads: Calls,
    writes: Calls,
    patience: u64,
    // The replies until the desk shuts.
    left: u32,
    // The calls that write the lines of faults.
    printing: Calls,
}

// The bytes that three clients got, and the lines of their faults.
type Seen<'a> = [&'a [u8]; 4];

// Clients served, lines not written, writers handed back, and clients who still wait.
type Counts = (u32, u32, u32, usize);

#[derive(Drop)]
struct Outcome {
    first: Vec<u8>,
    second: Vec<u8>,
    third: Vec<u8>,
    lines: Vec<u8>,
    counts: Counts,
}

// All three clients are served.
const ALL: Counts = (3, 0, 3, 0);

// Calls that move this many bytes and take this many seconds.
fn calls(piece: usize, seconds: u64) -> Calls {
    Calls {
        piece,
        seconds,
        failing: 0,
    }
}

// Calls of which the first fails.
const FAILING: Calls = Calls {
    piece: 4_096,
    seconds: 0,
    failing: 1,
};

const AT_ONCE: Calls = Calls {
    piece: 4_096,
    seconds: 0,
    failing: 0,
};

// Until the timeout, neither pieces nor pauses change the replies to a client.
#[test]
fn clients_in_pieces_and_at_a_pace(rt: HostRuntime) -> Result<(), Fail> {
    let (asked, turned) = (DROP_FIRST, PAGE_FIRST);
    let (all, all_turned) = (DROPPED_FIRST, SHOWN_FIRST);
    let none: &[u8] = b"";
    // the messages, reads, writes, the timeout, replies, the line, and what the next client gets
    let cases = [
        (asked, AT_ONCE, AT_ONCE, 30, all, none, NOT_THERE),
        (asked, calls(1, 0), calls(1, 0), 30, all, none, NOT_THERE),
        // The first message takes 53 seconds from its first byte to its last.
        (asked, calls(1, 1), AT_ONCE, 53, all, none, NOT_THERE),
        (asked, calls(1, 1), AT_ONCE, 52, none, READ_FAULT, THERE),
        (
            turned,
            calls(1, 1),
            AT_ONCE,
            53,
            all_turned,
            none,
            NOT_THERE,
        ),
        (turned, calls(1, 1), AT_ONCE, 52, SHOWN, READ_FAULT, THERE),
        // A message has to begin within five seconds, or within a shorter timeout.
        (asked, calls(4_096, 5), AT_ONCE, 30, all, none, NOT_THERE),
        (asked, calls(4_096, 6), AT_ONCE, 30, none, READ_FAULT, THERE),
        (asked, calls(4_096, 3), AT_ONCE, 2, none, READ_FAULT, THERE),
        // The first reply takes twelve writes, the second sixteen.
        (asked, AT_ONCE, calls(7, 1), 16, all, none, NOT_THERE),
        (
            asked,
            AT_ONCE,
            calls(7, 1),
            11,
            &all[..77],
            WRITE_FAULT,
            NOT_THERE,
        ),
    ];
    for (asked, reads, writes, patience, replied, line, next) in cases {
        let case = Case {
            asked,
            reads,
            writes,
            patience,
            left: u32::MAX,
            printing: AT_ONCE,
        };
        assert_case(&rt, rt.alloc(), &case, ([SHOWN, replied, next, line], ALL))?;
    }
    Ok(())
}

// No client is accepted after a desk has shut, though the client that it served then gets all
// replies. A line that can't be written is counted, and the next client is served.
#[test]
fn desks_that_shut_and_lines_that_are_not_written(rt: HostRuntime) -> Result<(), Fail> {
    let all = DROPPED_FIRST;
    let none: &[u8] = b"";
    // the replies until it shuts, reads, the calls that write lines, what the clients get, and the
    // counts
    let cases = [
        (0, AT_ONCE, AT_ONCE, [none, none, none, none], (0, 0, 0, 3)),
        (1, AT_ONCE, AT_ONCE, [SHOWN, none, none, none], (1, 0, 1, 2)),
        (2, AT_ONCE, AT_ONCE, [SHOWN, all, none, none], (2, 0, 2, 1)),
        (3, AT_ONCE, AT_ONCE, [SHOWN, all, none, none], (2, 0, 2, 1)),
        (4, AT_ONCE, AT_ONCE, [SHOWN, all, NOT_THERE, none], ALL),
        (
            9,
            FAILING,
            FAILING,
            [SHOWN, none, THERE, none],
            (3, 1, 3, 0),
        ),
    ];
    for (left, reads, printing, seen, counts) in cases {
        let case = Case {
            asked: DROP_FIRST,
            reads,
            writes: AT_ONCE,
            patience: 30,
            left,
            printing,
        };
        assert_case(&rt, rt.alloc(), &case, (seen, counts))?;
    }
    Ok(())
}

// Serves a client between two others, and ends the test if what they get is another.
fn assert_case<R: Abort>(
    rt: &R,
    alloc: Global,
    case: &Case<'_>,
    wanted: (Seen<'_>, Counts),
) -> Result<(), Fail> {
    let found = serve_three(alloc, case)?;
    let seen = [
        found.first.as_slice(),
        found.second.as_slice(),
        found.third.as_slice(),
        found.lines.as_slice(),
    ];
    assert_eq!(rt;
        (seen, found.counts),
        wanted,
        "{:?}, {:?}, {}",
        case.reads,
        case.writes,
        case.left
    );
    Ok(())
}

// Serves a candidate, the client of a case, and the office, which asks for the draft.
fn serve_three(alloc: Global, case: &Case<'_>) -> Result<Outcome, Fail> {
    let mut desk = SmallDesk {
        is_there: true,
        left: case.left,
    };
    let clock = HandClock::new();
    let (mut first, mut second) = (Vec::new(alloc), Vec::new(alloc));
    let (mut third, mut lines) = (Vec::new(alloc), Vec::new(alloc));
    let mut clients = Vec::new(alloc);
    clients.push((at_once(PAGE, &clock), at_once(&mut first, &clock)))?;
    clients.push((
        Side::new(case.asked, case.reads, &clock),
        Side::new(&mut second, case.writes, &clock),
    ))?;
    clients.push((at_once(DRAFT, &clock), at_once(&mut third, &clock)))?;
    let plan = Plan {
        connections: 3,
        patience: Duration::from_secs(case.patience),
    };
    let err = Side::new(&mut lines, case.printing, &clock);
    let counts = serve_waiting(alloc, &clock, clients, plan, &mut desk, err);
    Ok(Outcome {
        first,
        second,
        third,
        lines,
        counts,
    })
}

// Serves those who wait, and returns the counts.
fn serve_waiting<R: Read + Timed + Drop, W: Write + Timed + Drop, E: Write + Drop>(
    alloc: Global,
    clock: &HandClock,
    clients: Vec<(R, W)>,
    plan: Plan,
    desk: &mut SmallDesk,
    err: E,
) -> Counts {
    let mut err = err;
    let mut waiting = Waiting::new(clients);
    let service = accept_all(alloc, clock, &mut waiting, plan, desk, &mut err);
    let handed_back = waiting.handed_back;
    (
        service.accepted,
        service.unwritten,
        handed_back,
        waiting.left(),
    )
}

// A side of a connection whose calls move all bytes and take no time.
fn at_once<T: Drop>(inner: T, clock: &HandClock) -> Side<'_, T> {
    Side::new(inner, AT_ONCE, clock)
}
