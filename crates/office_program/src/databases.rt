// Databases by their paths.
ghost use Rattle.std.specs.Prelude.{◌≡◌, ◌≢◌, ◌⊎◌, ℕ, IfErr, IfOk, List, None, false, ⊤};
ghost use Rattle.office_program.specs.Databases.{FailsToOpen, FailsToOpenBy, IsAt, IsEmpty};
ghost use Rattle.office_program.specs.Databases.{KeepsOthers, KnownBase};
ghost use Rattle.office_program.specs.LongWork.{opening_line};
ghost use Rattle.office_program.specs.Surroundings.{MayNoteLarge};

use crate::faults::{ProgramFault, fault_of_open};
use crate::notices::{LongWork, announce};
use crate::surroundings::Surroundings;
use office_http::StoreFault;
use sqlite::{Alter, Connection, Error, ErrorCode, File, FileStore};
use std::fs;
use std::io::{ErrorKind, Read};

/// Databases by their paths.
pub trait Databases {
    /// The connection to a database.
    type Opened;

    // What is known of the database at a path: nothing; the error with which it can't be opened; or
    // its connection.
    ghost known: { Self → List ℕ → KnownBase Self.Opened };

    // The connection to the database at a path may be given back.
    ghost has_place: { Self → List ℕ → Type 0 };

    /// Returns whether a database is at a path. `false`: the file is empty.
    fn has_database(&self, path: &str) -> Result<bool, Error>
        ensures empty { IfOk result (λ has. has ≡ false → known self.now path.now ≡ None) }
        ensures failed { IfErr result (FailsToOpenBy (known self.now path.now)) };

    /// Opens the database at a path, or makes one.
    fn open_database(&mut self, path: &str) -> Result<Self::Opened, Error>
        ensures opened { IfOk result (λ conn. IsAt (known self.old path.now) conn) }
        ensures place { IfOk result (λ _. has_place self.new path.now) }
        ensures others { IfOk result (λ _.
            KeepsOthers path.now (known self.old) (known self.new)) }
        ensures failed { IfErr result (FailsToOpenBy (known self.old path.now)) }
        ensures kept { IfErr result (λ _. known self.new ≡ known self.old) };

    /// Takes back the connection to the database at a path.
    fn take_back(&mut self, path: &str, conn: Self::Opened)
        requires place { has_place self.old path.now }
        ensures back { IsAt (known self.new path.now) conn }
        ensures others { KeepsOthers path.now (known self.old) (known self.new) };
}

/// The databases in the files of the system.
#[derive(Drop)]
pub struct SystemDatabases<'a> {
    pub rt: &'a HostRuntime,
}

impl Databases for SystemDatabases<'_> {
    ghost use Rattle.std.specs.Prelude.{⊤, None};

    type Opened = Connection<FileStore<File>>;

    // No clause of the system says what a file holds.
    ghost known = { λ databases path. None };

    ghost has_place = { λ databases path. ⊤ };

    fn has_database(&self, path: &str) -> Result<bool, Error> {
        is_database(self.rt, path)
    }

    fn open_database(&mut self, path: &str) -> Result<Connection<FileStore<File>>, Error> {
        office_database::open(self.rt, path)
    }

    fn take_back(&mut self, path: &str, conn: Connection<FileStore<File>>)
        ensures back { ⊤ }
    {
        // A log that can't be copied into the file stays next to it, and is read there.
        let _ = conn.close();
    }
}

// Opens the database at a path, or makes one.
pub(crate) fn open_at<'a, H: Surroundings, S: Alter, D: Databases<Opened = Connection<S>>>(
    host: &H,
    databases: &mut D,
    database: &str,
) -> Result<Connection<S>, ProgramFault<'a>>
    requires { MayNoteLarge (H.finds host.now) (H.shows host.now) (H.allows host.now)
        database.now (opening_line database.now) }
    ensures opened { IfOk result (λ conn. IsAt (D.known databases.old database.now) conn) }
    ensures place { IfOk result (λ _. D.has_place databases.new database.now) }
    ensures others { IfOk result (λ _.
        KeepsOthers database.now (D.known databases.old) (D.known databases.new)) }
    ensures failed { IfErr result
        (FailsToOpen (D.known databases.old) (D.known databases.new) database.now) }
    ensures other { IfErr result (λ shown. shown ≢ ProgramFault.CannotWrite) }
{
    announce(host, LongWork::Opening(database));
    match databases.open_database(database) {
        Ok(conn) => Ok(conn),
        Err(error) => Err(fault_of_open(error)),
    }
}

// Opens the database at a path, and makes none.
pub(crate) fn open_found<'a, H: Surroundings, S: Alter, D: Databases<Opened = Connection<S>>>(
    host: &H,
    databases: &mut D,
    database: &str,
) -> Result<Connection<S>, ProgramFault<'a>>
    requires { MayNoteLarge (H.finds host.now) (H.shows host.now) (H.allows host.now)
        database.now (opening_line database.now) }
    ensures opened { IfOk result (λ conn. IsAt (D.known databases.old database.now) conn) }
    ensures place { IfOk result (λ _. D.has_place databases.new database.now) }
    ensures others { IfOk result (λ _.
        KeepsOthers database.now (D.known databases.old) (D.known databases.new)) }
    ensures failed { IfErr result (λ shown.
        FailsToOpen (D.known databases.old) (D.known databases.new) database.now shown
        ⊎ IsEmpty (D.known databases.old) (D.known databases.new) database.now shown) }
    ensures other { IfErr result (λ shown. shown ≢ ProgramFault.CannotWrite) }
{
    match databases.has_database(database) {
        Ok(true) => open_at(host, databases, database),
        Ok(false) => Err(ProgramFault::Store(StoreFault::BadSchema)),
        Err(error) => Err(fault_of_open(error)),
    }
}

// Returns whether the file of a path may be a database; an empty one is none. Opening another file
// would leave a log beside it.
fn is_database(rt: &HostRuntime, path: &str) -> Result<bool, Error> {
    let Ok(found) = fs::metadata(rt, path) else {
        return Err(Error::SqliteFailure(ErrorCode::CannotOpen));
    };
    if has_log(rt, path) {
        return Ok(true);
    }
    if found.len() == 0 {
        return Ok(false);
    }
    if begins_as_database(rt, path) {
        Ok(true)
    } else {
        Err(Error::SqliteFailure(ErrorCode::NotADatabase))
    }
}

// Returns whether a log with content is beside a database's file: the file alone says nothing then.
fn has_log(rt: &HostRuntime, database: &str) -> bool {
    let Ok(log) = format!(in rt.alloc(); "{database}-wal") else {
        return true;
    };
    match fs::metadata(rt, log.as_str()) {
        Ok(found) => found.len() != 0,
        Err(_) => false,
    }
}

// Returns whether a file begins as those of databases do. One that can't be read may be a database.
fn begins_as_database(rt: &HostRuntime, path: &str) -> bool {
    let Ok(mut file) = fs::open(rt, path) else {
        return true;
    };
    let mut bytes = [0u8; 16];
    match file.read_exact(&mut bytes) {
        Ok(()) => bytes == *b"SQLite format 3\0",
        Err(error) => error.kind() != ErrorKind::UnexpectedEof,
    }
}
