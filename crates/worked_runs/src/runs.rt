// An office in a database in memory, from the load of its session to the export of its timetable.
ghost use Rattle.std.specs.Prelude.{IsTrue};

use crate::desktop::Desktop;
use crate::memory::Memory;
use crate::screen::Screen;
use crate::visitors::{OnePort, Visitor, Waiting};
use office_program::{Folder, FolderFile, Machine, Shelf, run_words};
use sqlite::Connection;
use std::alloc::{AllocError, Global};
use std::cell::Cell;
use std::process::Abort;
use std::test::Fail;

const SMALL: &[u8] = b"[Exams:4]\n120, 1, 2\n90, 2, 3\n120, 3\n60, 1\n[Periods:4]\n\
    15:04:2005, 09:30:00, 120, 0\n15:04:2005, 14:00:00, 120, 0\n15:04:2005, 17:00:00, 90, 10\n\
    18:04:2005, 09:30:00, 120, 5\n[Rooms:2]\n3, 0\n2, 7\n[PeriodHardConstraints]\n1, AFTER, 0\n\
    [RoomHardConstraints]\n[InstitutionalWeightings]\nTWOINAROW,7\nTWOINADAY,5\nPERIODSPREAD,3\n\
    NONMIXEDDURATIONS,10\nFRONTLOAD,1,2,4\n";

const SOLUTION: &[u8] = b"0, 0\n1, 0\n3, 1\n2, 0\n";

pub(crate) const REPORTS: &str =
    "breaches 0\ntwo in a row 7\ntwo in a day 5\nperiod spread 3\nover night 0\n\
    mixed durations 0\nfront load 0\nperiod penalty 15\nroom penalty 7\ntotal 37\n";

pub(crate) const FILES: &[FolderFile<'static>] = &[
    FolderFile {
        path: "small.exam",
        bytes: SMALL,
    },
    FolderFile {
        path: "small.sol",
        bytes: SOLUTION,
    },
];

// The office opens a draft from the solution, and publishes it.
const PUBLISHING: &[u8] = b"PUT /drafts/1 HTTP/1.1\r\nHost: office\r\nX-Caller: office\r\n\
    Content-Length: 20\r\n\r\n0, 0\n1, 0\n3, 1\n2, 0\n\
    POST /drafts/1/publish HTTP/1.1\r\nHost: office\r\nX-Caller: office\r\n\r\n";

const PUBLISHED: &[u8] = b"HTTP/1.1 201 Created\r\nContent-Type: application/json\r\n\
    Content-Length: 24\r\n\r\n{\"draft\":1,\"penalty\":37}\
    HTTP/1.1 200 OK\r\nContent-Type: application/json\r\n\
    Content-Length: 36\r\n\r\n{\"changed\":3,\"draft\":1,\"penalty\":37}";

const ASKING: &[u8] = b"GET /me HTTP/1.1\r\nHost: office\r\nX-Caller: cand:2\r\n\r\n";

// Candidate 2 has exams 0 and 1, two in a row on one day: penalties 7 and 1.
const PAGE: &[u8] = b"HTTP/1.1 200 OK\r\nContent-Type: application/json\r\n\
    Content-Length: 229\r\n\r\n{\"candidate\":2,\"exams\":[\
    {\"date\":\"2005-04-15\",\"exam\":0,\"period\":0,\"room\":0,\"seat\":2,\"start\":\"09:30:00\",\
    \"state\":\"seated\"},\
    {\"date\":\"2005-04-15\",\"exam\":1,\"period\":1,\"room\":0,\"seat\":1,\"start\":\"14:00:00\",\
    \"state\":\"seated\"}],\"penalty\":8}";

// The words of a run, and what the test expects of it: the status, and the texts of the two writers
// and of the machine's terminal.
type Run<'a> = (&'a [&'a str], u8, &'a str, &'a str, &'a str);

const RUNS: &[Run<'static>] = &[
    (&["check", "small.exam", "small.sol"], 0, REPORTS, "", ""),
    (
        &["load", "--db", "term.db", "none.exam"],
        1,
        "",
        "examoffice: cannot read none.exam\n",
        "none.exam: entity not found\n",
    ),
    (
        &["load", "--db", "other.db", "small.exam"],
        1,
        "",
        "examoffice: cannot open database\n",
        "examoffice: loading small.exam, which takes a while\nother.db: entity not found\n",
    ),
    (
        &["export", "--db", "term.db"],
        1,
        "",
        "examoffice: store fault 9\n",
        "term.db: no office: the tables in the database are not those of an office\n",
    ),
    (
        &["load", "--db", "term.db", "small.exam"],
        0,
        "loaded exams 4 pairs 6 periods 4 rooms 2\n",
        "",
        "examoffice: loading small.exam, which takes a while\n",
    ),
    (
        &["load", "--db", "term.db", "small.exam"],
        1,
        "",
        "examoffice: store fault 1\n",
        "examoffice: loading small.exam, which takes a while\n\
        term.db: loaded: the office has a session already\n",
    ),
    (
        &["export", "--db", "term.db"],
        1,
        "",
        "examoffice: no publication\n",
        "",
    ),
    (
        &[
            "serve",
            "--db",
            "term.db",
            "--port",
            "8081",
            "--connections",
            "2",
        ],
        1,
        "",
        "examoffice: cannot listen\n",
        "",
    ),
    (
        &[
            "serve",
            "--db",
            "other.db",
            "--port",
            "8080",
            "--connections",
            "2",
        ],
        1,
        "",
        "examoffice: cannot open database\n",
        "other.db: entity not found\n",
    ),
    (
        &[
            "serve",
            "--db",
            "term.db",
            "--port",
            "8080",
            "--connections",
            "2",
        ],
        0,
        "listening 127.0.0.1:8080\n",
        "",
        "",
    ),
    (
        &["export", "--db", "other.db"],
        1,
        "",
        "examoffice: cannot open database\n",
        "other.db: entity not found\n",
    ),
    (
        &["export", "--db", "term.db"],
        0,
        "0, 0\r\n1, 0\r\n3, 1\r\n2, 0\r\n",
        "",
        "",
    ),
];

#[test]
fn an_office_in_memory_is_loaded_served_and_exported(rt: HostRuntime) -> Result<(), Fail> {
    let conn = Connection::open_in_memory(rt.alloc())?;
    let mut shelf = Shelf {
        path: "term.db",
        conn: Some(conn),
    };
    let mut port = port_of(rt.alloc(), &[PUBLISHING, ASKING])?;
    let lines = Cell::new(None);
    let desktop = Desktop {
        alloc: rt.alloc(),
        large: "small.exam",
        small: "term.db",
        has_terminal: true,
        lines: &lines,
    };
    let files = Folder { files: FILES };
    for run in RUNS {
        let outcome = outcome_of(&desktop, &files, shelf, port, run.0)?;
        assert_outcome(&rt, &outcome, run);
        (shelf, port) = (outcome.shelf, outcome.port);
    }
    assert_received(&rt, &port, &[PUBLISHED, PAGE]);
    Ok(())
}

// Returns a port at which clients wait who send these bytes.
fn port_of<'a>(alloc: Global, sent: &[&'a [u8]]) -> Result<OnePort<'a>, AllocError> {
    let mut visitors = Vec::new(alloc);
    for bytes in sent {
        visitors.push(Visitor {
            sent: bytes,
            received: None,
        })?;
    }
    Ok(OnePort {
        number: 8080,
        waiting: Some(Waiting {
            alloc,
            visitors,
            turn: 0,
        }),
    })
}

// What a run did: the status, the bytes of the two writers and of the terminal, and what it left.
#[derive(Drop)]
struct Outcome<'a> {
    status: u8,
    out: Vec<u8>,
    err: Vec<u8>,
    lines: Vec<u8>,
    shelf: Shelf<'a>,
    port: OnePort<'a>,
}

// Runs the program on a machine with a terminal, with these files, this database and this port.
fn outcome_of<'a>(
    desktop: &Desktop<'_>,
    files: &Folder<'a>,
    shelf: Shelf<'a>,
    port: OnePort<'a>,
    words: &[&str],
) -> Result<Outcome<'a>, AllocError>
    requires { IsTrue desktop.now.has_terminal }
{
    let alloc = desktop.alloc;
    let words = program_words(alloc, words)?;
    let mut machine: Machine<'_, Memory<'_, '_>> = Machine {
        host: desktop,
        files,
        databases: shelf,
        ports: port,
        stdin: b"".as_slice(),
        out: Vec::new(alloc),
        err: Screen::new(alloc),
    };
    let ending = run_words(&mut machine, &words);
    Ok(Outcome {
        status: ending.status,
        out: machine.out,
        err: machine.err.bytes,
        lines: desktop.taken(),
        shelf: machine.databases,
        port: machine.ports,
    })
}

// Ends the test if a run did something else than expected.
fn assert_outcome(rt: &impl Abort, found: &Outcome<'_>, run: &Run<'_>) {
    let (words, status, out, err, lines) = *run;
    assert_eq!(rt; found.status, status, "{words:?}");
    assert_eq!(rt; found.out.as_slice(), out.as_bytes(), "{words:?}");
    assert_eq!(rt; found.err.as_slice(), err.as_bytes(), "{words:?}");
    assert_eq!(rt; found.lines.as_slice(), lines.as_bytes(), "{words:?}");
}

// Ends the test if the clients of the port were sent other bytes than these.
fn assert_received(rt: &impl Abort, port: &OnePort<'_>, expected: &[&[u8]]) {
    assert!(rt; port.waiting.is_some());
    if let Some(waiting) = &port.waiting {
        assert_eq!(rt; waiting.visitors.len(), expected.len());
        for (visitor, bytes) in waiting.visitors.iter().zip(expected) {
            assert!(rt; visitor.received.is_some());
            if let Some(received) = &visitor.received {
                assert_eq!(rt; received.as_slice(), *bytes);
            }
        }
    }
}

// Returns the words of a command line: the program's name, and these.
fn program_words(alloc: Global, words: &[&str]) -> Result<Vec<String>, AllocError> {
    let mut all = Vec::new(alloc);
    all.push(String::from_str(alloc, "examoffice")?)?;
    for word in words {
        all.push(String::from_str(alloc, word)?)?;
    }
    Ok(all)
}
