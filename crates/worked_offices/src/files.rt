// Offices in files in memory that stop after a number of calls.
use crate::showing::{Command, run, shown};
use office_store::{Office, StoreFault};
use office_tables::is_bare;
use sqlite::{Alter, Connection, FileStore, Files, Options};
use sqlite_disk::{Crash, Disk, Fuse, Memory};
use std::alloc::Global;
use std::test::Fail;

/// A file of known bytes. After a number of calls it stops, until the machine crashes.
pub(crate) trait StoppingFile: Crash + Drop + Sized {
    fn with_bytes(alloc: Global, bytes: &[u8], calls: u64) -> Result<Self, Fail>;

    fn bytes(&self) -> &[u8];
}

impl StoppingFile for Fuse<Memory> {
    fn with_bytes(alloc: Global, bytes: &[u8], calls: u64) -> Result<Fuse<Memory>, Fail> {
        let mut memory = Memory::new(alloc);
        memory.write_at(0, bytes)?;
        memory.sync()?;
        Ok(Fuse::new(memory, calls))
    }

    fn bytes(&self) -> &[u8] {
        self.inner().bytes()
    }
}

/// The number of calls after which each file stops.
#[derive(Clone, Copy)]
pub(crate) struct Stop {
    pub(crate) log: u64,
    pub(crate) db: u64,
}

pub(crate) const NO_STOP: Stop = Stop {
    log: u64::MAX,
    db: u64::MAX,
};

/// An action to try in two files.
#[derive(Clone, Copy)]
pub(crate) enum Tried {
    /// Creating an office.
    Creation,
    /// Migrating tables of version 1.
    Migration,
    /// Running a command in an office.
    Command(Command),
}

/// The answer; `None` if the office was not opened.
pub(crate) type Answer = Option<Result<u64, StoreFault>>;

// Returns the connection of a new office after some commands.
fn connection_after<S: Alter + Drop>(
    alloc: Global,
    conn: Connection<S>,
    commands: &[Command],
) -> Result<Connection<S>, Fail> {
    let Ok(mut office) = Office::create(conn) else {
        return Err("not created")?;
    };
    for command in commands {
        let _answer = run(&mut office, alloc, *command)?;
    }
    Ok(office.release())
}

/// Makes the tables of an office those of version 1.
fn to_version_1<S: Alter + Drop>(conn: &mut Connection<S>) -> Result<(), Fail> {
    for sql in [
        "DROP TABLE night_share",
        "DROP TABLE night_draft",
        "UPDATE meta SET version = 1",
    ] {
        let _count = conn.execute(sql, &[])?;
    }
    Ok(())
}

// Returns everything that the office of a connection shows; empty if there are no tables.
fn text_of_office<S: Alter + Drop>(alloc: Global, conn: Connection<S>) -> Result<String, Fail> {
    if is_bare(&conn) {
        return Ok(String::new(alloc));
    }
    match Office::adopt(alloc, conn) {
        Ok(mut office) => shown(&mut office, alloc),
        Err(_) => Err("tables of no office")?,
    }
}

// Returns everything that an office over a database in memory shows after some commands.
pub(crate) fn text_after(alloc: Global, commands: &[Command]) -> Result<String, Fail> {
    let conn = Connection::open_in_memory(alloc)?;
    text_of_office(alloc, connection_after(alloc, conn, commands)?)
}

fn create<S: Alter + Drop>(conn: Connection<S>) -> (Answer, Connection<S>) {
    match Office::create(conn) {
        Ok(office) => (Some(Ok(0)), office.release()),
        Err((fault, conn)) => (Some(Err(fault)), conn),
    }
}

fn take_over<S: Alter + Drop>(alloc: Global, conn: Connection<S>) -> (Answer, Connection<S>) {
    match Office::adopt(alloc, conn) {
        Ok(office) => (Some(Ok(0)), office.release()),
        Err((fault, conn)) => (Some(Err(fault)), conn),
    }
}

fn carry_out<S: Alter + Drop>(
    alloc: Global,
    conn: Connection<S>,
    command: Command,
) -> (Answer, Connection<S>) {
    match Office::adopt(alloc, conn) {
        Ok(mut office) => (Some(run(&mut office, alloc, command)), office.release()),
        Err((_fault, conn)) => (None, conn),
    }
}

// Makes each command copy the log of the one before it into the database, so that it calls both
// files.
fn options() -> Options {
    Options {
        cache_pages: 50,
        checkpoint_frames: 1,
        ..Options::new(1)
    }
}

// Returns a connection to these files, or the files if it fails.
fn connect<D: Disk + Drop>(
    alloc: Global,
    files: Files<D>,
) -> Result<Connection<FileStore<D>>, Files<D>> {
    if !files.log.may_be_used() || !files.db.may_be_used() {
        return Err(files);
    }
    match Connection::open_files(alloc, files, options()) {
        Ok(conn) => Ok(conn),
        Err((_error, left)) => Err(left.into_files()),
    }
}

// Returns everything that the office of these files shows.
pub(crate) fn text_of_files<D: Disk + Drop>(
    alloc: Global,
    files: Files<D>,
) -> Result<String, Fail> {
    let Ok(conn) = connect(alloc, files) else {
        return Err("not opened again")?;
    };
    text_of_office(alloc, conn)
}

/// Tries the action in these files. Returns the answer and the files.
pub(crate) fn attempt<D: Disk + Drop>(
    alloc: Global,
    files: Files<D>,
    tried: Tried,
) -> (Answer, Files<D>) {
    match connect(alloc, files) {
        Ok(conn) => {
            let (answer, conn) = match tried {
                Tried::Creation => create(conn),
                Tried::Migration => take_over(alloc, conn),
                Tried::Command(command) => carry_out(alloc, conn, command),
            };
            (answer, conn.into_store().close())
        }
        Err(files) => (None, files),
    }
}

// Returns whether a file has no call left.
pub(crate) fn is_stopped<D: Disk>(file: &mut D) -> bool {
    !file.may_be_used() || file.len().is_err()
}

// Returns files of these bytes.
pub(crate) fn files_of<D: StoppingFile>(
    alloc: Global,
    log: &[u8],
    db: &[u8],
    stop: Stop,
) -> Result<Files<D>, Fail> {
    Ok(Files {
        log: D::with_bytes(alloc, log, stop.log)?,
        db: D::with_bytes(alloc, db, stop.db)?,
    })
}

/// Returns the files of a new office after some commands.
pub(crate) fn files_after<D: StoppingFile>(
    alloc: Global,
    commands: &[Command],
) -> Result<Files<D>, Fail> {
    let Ok(conn) = connect(alloc, files_of(alloc, &[], &[], NO_STOP)?) else {
        return Err("not opened")?;
    };
    let conn = connection_after(alloc, conn, commands)?;
    Ok(conn.into_store().close())
}

/// Returns the files of version 1 of a new office after some commands.
pub(crate) fn files_of_version_1<D: StoppingFile>(
    alloc: Global,
    commands: &[Command],
) -> Result<Files<D>, Fail> {
    let Ok(mut conn) = connect(alloc, files_after::<D>(alloc, commands)?) else {
        return Err("not opened")?;
    };
    to_version_1(&mut conn)?;
    Ok(conn.into_store().close())
}
