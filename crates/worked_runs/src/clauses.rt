// What the clause of a run says by itself, if the words and the files are known.
ghost use Rattle.std.specs.Prelude.{◌≡◌, ◌⊎◌, IfOk, IsSomeAnd, IsTrue, None, Some, [], codes};
ghost use Rattle.sqlite.specs.Held.{state};
ghost use Rattle.sqlite.specs.Steps.{over_memory};
ghost use Rattle.office_output.specs.Writing.{WritesFront};
ghost use Rattle.office_program.specs.Folders.{bytes_at};
ghost use Rattle.office_program.specs.Export.{published_solution};
ghost use Rattle.office_program.specs.Foreign.{OfOffice};
ghost use Rattle.office_program.specs.Load.{Loads};
ghost use Rattle.office_store.specs.Opening.{HoldsOffice};
ghost use Rattle.worked_runs.specs.SmallSession.{session_text, solution_text, ten_lines};

use crate::desktop::Desktop;
use crate::memory::Memory;
use crate::runs::{FILES, REPORTS};
use crate::screen::Screen;
use crate::visitors::OnePort;
use office_program::{Ending, Folder, Machine, Shelf, run_words};
use sqlite::{Connection, MemStore};
use std::alloc::AllocError;
use std::cell::Cell;
use std::test::Fail;

#[test]
fn clauses_say_what_runs_on_the_small_session_do(rt: HostRuntime) -> Result<(), Fail> {
    let lines = Cell::new(None);
    let desktop = Desktop {
        alloc: rt.alloc(),
        large: "",
        small: "",
        has_terminal: false,
        lines: &lines,
    };
    let files = Folder { files: FILES };
    let (ending, out, err) = check_small(&desktop, &files)?;
    assert_eq!(rt; ending.status, 0);
    assert_eq!(rt; out.as_slice(), REPORTS.as_bytes());
    assert!(rt; err.bytes.is_empty());
    let (ending, out, conn) = load_small(&desktop, &files)?;
    assert_eq!(rt; ending.status, 0);
    assert_eq!(rt;
        out.as_slice(),
        b"loaded exams 4 pairs 6 periods 4 rooms 2\n".as_slice()
    );
    assert!(rt; conn.is_some());
    if let Some(conn) = conn {
        // Nothing is published.
        let (ending, out) = export_small(&desktop, &files, conn)?;
        assert_eq!(rt; ending.status, 1);
        assert!(rt; out.is_empty());
    }
    Ok(())
}

// Runs `check` on the small session and its solution, which are in these files. Returns the ending,
// and what was printed and told.
fn check_small(
    desktop: &Desktop<'_>,
    files: &Folder<'_>,
) -> Result<(Ending, Vec<u8>, Screen), AllocError>
    requires session { bytes_at (codes "small.exam") files.now.files.now ≡ Some session_text }
    requires solution { bytes_at (codes "small.sol") files.now.files.now ≡ Some solution_text }

    // The ten lines are written and the status is 0, or it is 1.
    ensures status { IfOk result (λ run. (run.0.status ≡ 0) ⊎ (run.0.status ≡ 1)) }
    ensures lines { IfOk result (λ run. run.0.status ≡ 0 → run.1.items ≡ ten_lines) }

    // Also if `out` failed, nothing is in the place of a front of them.
    ensures front { IfOk result (λ run. WritesFront (Some []) (Some run.1.items) ten_lines) }

    // Then memory ran out for the run or for `out`, and the line that was tried to be written says
    // so.
    ensures fault { IfOk result (λ run. run.0.status ≡ 1 → IsTrue run.0.is_err_written
        → (run.2.bytes.items ≡ codes "examoffice: no memory\n")
        ⊎ (run.2.bytes.items ≡ codes "examoffice: cannot write\n")) }
{
    let alloc = desktop.alloc;
    let words = [
        String::from_str(alloc, "examoffice")?,
        String::from_str(alloc, "check")?,
        String::from_str(alloc, "small.exam")?,
        String::from_str(alloc, "small.sol")?,
    ];
    let mut machine: Machine<'_, Memory<'_, '_>> = Machine {
        host: desktop,
        files,
        databases: Shelf {
            path: "term.db",
            conn: None,
        },
        ports: OnePort::closed(),
        stdin: b"".as_slice(),
        out: Vec::new(alloc),
        err: Screen::new(alloc),
    };
    let ending = run_words(&mut machine, &words);
    Ok((ending, machine.out, machine.err))
}

// Loads the small session into a new database in memory. Returns the ending, what was printed, and
// that database.
fn load_small(
    desktop: &Desktop<'_>,
    files: &Folder<'_>,
) -> Result<(Ending, Vec<u8>, Option<Connection<MemStore>>), AllocError>
    requires session { bytes_at (codes "small.exam") files.now.files.now ≡ Some session_text }

    // Nothing is assumed of the disk: the office, which had no session, has that of the text, all
    // is committed, and the counts are printed.
    ensures loaded { IfOk result (λ run. run.0.status ≡ 0
        → IsSomeAnd run.2 (λ conn. Loads session_text None (state over_memory conn)
        (Some []) (Some run.1.items))) }
{
    let alloc = desktop.alloc;
    let words = [
        String::from_str(alloc, "examoffice")?,
        String::from_str(alloc, "load")?,
        String::from_str(alloc, "--db")?,
        String::from_str(alloc, "term.db")?,
        String::from_str(alloc, "small.exam")?,
    ];
    let mut machine: Machine<'_, Memory<'_, '_>> = Machine {
        host: desktop,
        files,
        databases: Shelf {
            path: "term.db",
            conn: Some(Connection::open_in_memory(alloc)?),
        },
        ports: OnePort::closed(),
        stdin: b"".as_slice(),
        out: Vec::new(alloc),
        err: Screen::new(alloc),
    };
    let ending = run_words(&mut machine, &words);
    Ok((ending, machine.out, machine.databases.conn))
}

// Exports from a database in memory. Returns the ending, and what was printed.
fn export_small(
    desktop: &Desktop<'_>,
    files: &Folder<'_>,
    conn: Connection<MemStore>,
) -> Result<(Ending, Vec<u8>), AllocError>
    // Nothing is assumed of the disk: if the status is 0, the database held an office, and its
    // publication is printed.
    ensures printed { IfOk result (λ run. run.0.status ≡ 0
        → OfOffice (HoldsOffice (state over_memory conn).now)
        (λ there. published_solution there ≡ Some run.1.items)) }
{
    let alloc = desktop.alloc;
    let words = [
        String::from_str(alloc, "examoffice")?,
        String::from_str(alloc, "export")?,
        String::from_str(alloc, "--db")?,
        String::from_str(alloc, "term.db")?,
    ];
    let mut machine: Machine<'_, Memory<'_, '_>> = Machine {
        host: desktop,
        files,
        databases: Shelf {
            path: "term.db",
            conn: Some(conn),
        },
        ports: OnePort::closed(),
        stdin: b"".as_slice(),
        out: Vec::new(alloc),
        err: Screen::new(alloc),
    };
    let ending = run_words(&mut machine, &words);
    Ok((ending, machine.out))
}
