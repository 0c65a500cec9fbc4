// Opens the file of a database.
ghost use Rattle.std.specs.Prelude.{codes, ◌≡◌, IsTrue, IfErr, IfOk, false, true};
ghost use Rattle.sqlite.specs.Files.{file_state, over_files, IsOpened};
ghost use Rattle.sqlite.specs.Held.{IsNew};
ghost use Rattle.sqlite.specs.Opening.{is_open_error};
ghost use Rattle.sqlite.specs.State.{HasCleanDisk};
ghost use Rattle.sqlite.specs.declared.error.Error.{Error};
ghost use Rattle.sqlite.specs.declared.error.ErrorCode.{ErrorCode};
ghost use Rattle.sqlite_std_file.specs.File.{file_is_usable, IsFresh};
ghost use Rattle.office_database.specs.Opening as spec;
ghost use Rattle.office_database.specs.Opening.{IsOfPath, IsUri};

use sqlite::{
    Connection, Error, ErrorCode, File, FileFrom, FileStore, Files, Options, Start, Unknown,
};
use sqlite_std_file::OpenError;
use std::hash::{BuildHasher, RandomState};
use std::io::ErrorKind;

// How many pages of 4,096 bytes that a transaction has written stay in memory. A page beyond these goes
// to the log each time that it is written, so a publication at the limits wrote a log of 35 times the
// file with the 2,000 pages that the library takes by itself; its file has some 5,000.
const WRITTEN_PAGES: usize = 16_384;

/// Opens the database in the file at this path, or makes one, as `Connection::open` does: only the
/// number of written pages that stay in memory is larger. `:memory:` and a URI are no path.
pub fn open(rt: &HostRuntime, path: &str) -> Result<Connection<FileStore<File>>, Error>
    ensures memory { path.now ≡ codes ":memory:"
        → result ≡ Err (Error.SqliteFailure ErrorCode.CannotOpen) }
    ensures uri { IsUri path.now → result ≡ Err (Error.SqliteFailure ErrorCode.CannotOpen) }
    ensures named { IfErr result (λ e. IsTrue (is_open_error e)) }
    ensures opened { IfOk result (λ c. HasCleanDisk (file_state c) → IsOpened c) }
    ensures plain { IfOk result (λ c. HasCleanDisk (file_state c)
        → (over_files.view c.store).has_sums ≡ false) }
    ensures fresh { IfOk result IsNew }
    ensures guarded { IfOk result (λ c. HasCleanDisk (file_state c) → (file_state c).IsShielded) }
{
    let files = files_at(rt, path, Unknown)?;
    let options = options(rt)?;
    match Connection::open_files_with(rt.alloc(), files, options, false) {
        Ok(mut conn) => {
            conn.set_clock(rt);
            Ok(conn)
        }
        Err((error, _)) => Err(error),
    }
}

// Opens, or makes, the file at this path and its log.
fn files_at<S: Start>(rt: &HostRuntime, path: &str, start: S) -> Result<Files<FileFrom<S>>, Error>
    ensures memory { path.now ≡ codes ":memory:"
        → result ≡ Err (Error.SqliteFailure ErrorCode.CannotOpen) }
    ensures uri { IsUri path.now → result ≡ Err (Error.SqliteFailure ErrorCode.CannotOpen) }
    ensures named { IfErr result (λ e. IsTrue (is_open_error e)) }
    ensures kind { IfErr result IsOfPath }
    ensures usable { IfOk result (λ files. IsTrue (file_is_usable S.Start files.log)
        × IsTrue (file_is_usable S.Start files.db)) }
    ensures fresh { IfOk result (λ files. IsFresh true files.log × IsFresh false files.db) }
{
    if path == ":memory:" || path.starts_with("file:") {
        return Err(Error::SqliteFailure(ErrorCode::CannotOpen));
    }
    match sqlite_std_file::open(rt, path, start) {
        Ok(files) => Ok(files),
        Err(fault) => Err(error_of(&fault)),
    }
}

// Returns the error of a path that isn't opened.
fn error_of(fault: &OpenError) -> Error
    ensures { result ≡ spec.error_of fault.now }
{
    Error::SqliteFailure(match fault {
        OpenError::Io(error) => code_of(error.kind()),
        OpenError::OutOfMemory => ErrorCode::OutOfMemory,
        OpenError::Busy => ErrorCode::DatabaseBusy,
        OpenError::HotJournal => ErrorCode::CannotOpen,
    })
}

// Returns the code for a call of the system that failed.
fn code_of(kind: ErrorKind) -> ErrorCode
    ensures { result ≡ spec.code_of kind }
{
    match kind {
        ErrorKind::OutOfMemory => ErrorCode::OutOfMemory,
        _ => ErrorCode::CannotOpen,
    }
}

// Returns the options of a store, with a random seed.
fn options(rt: &HostRuntime) -> Result<Options, Error>
    ensures pages { IfOk result (λ o. o.spill_pages ≡ 16384) }
    ensures kind { IfErr result IsOfPath }
{
    match RandomState::new(rt) {
        Ok(state) => Ok(Options {
            spill_pages: WRITTEN_PAGES,
            ..Options::new(state.hash_one(&0u8))
        }),
        Err(_) => Err(Error::SqliteFailure(ErrorCode::CannotOpen)),
    }
}
