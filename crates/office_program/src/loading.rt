// Loads a session into the office of a database.
ghost use Rattle.std.specs.Prelude.{◌≡◌, ◌≢◌, ◌≤◌, ◌⊎◌, ℕ, IfErr, IfOk, IsTrue, List, OnErr, OnOk, length};
ghost use Rattle.std.specs.Io.KnownBytes.{Appends, Keeps};
ghost use Rattle.sqlite.specs.Held.{state};
ghost use Rattle.sqlite.specs.State.{HasCleanDisk, Survives};
ghost use Rattle.office_model.specs.Office.{OfficeState};
ghost use Rattle.office_store.specs.Running.{CallRan};
ghost use Rattle.office_store.specs.Opening.{IsOfficeOf};
ghost use Rattle.exam_terms.specs.declared.limits.TheConstants.{INSTANCE_BYTES};
ghost use Rattle.office_program.specs.Databases.{IsUnread, LeavesUnloaded, LoadsIn, UsesDatabase};
ghost use Rattle.office_program.specs.Foreign.{LeavesIfForeign, OfOffice};
ghost use Rattle.office_program.specs.LongWork.{loading_line};
ghost use Rattle.office_program.specs.Sources.{IsTextOf};
ghost use Rattle.office_program.specs.Surroundings.{MayNoteLarge, MayNoteOpening};
ghost use Rattle.office_program.specs.TaskFaults.{IsOfLoad, IsOfOffice, IsTextCause};
ghost use Rattle.office_program.specs.Load.{IfRefused, IfStored, LoadRan, Loads, MayBringUp, MayLoad, NamesTextFault};
ghost use Rattle.office_program.specs.Load.{PrintsCounts, PrintsCountsFront, RefusesLoad, connection_after, fault_of, loaded_text};
ghost use Rattle.office_output.specs.Writing.{WritesFront};

use crate::databases::{Databases, open_at};
use crate::faults::{ProgramFault, fault_of_input, fault_of_load};
use crate::inputs::text_of;
use crate::notices::{LongWork, announce, announce_upgrade};
use crate::surroundings::Surroundings;
use crate::texts::Texts;
use arrayvec::ArrayVec;
use office_files::InputFault;
use office_http::{Alter, Connection, Loaded, Office, StoreFault};
use office_output::write_text;
use std::alloc::Global;
use std::fmt;
use std::io::{self, Write};

/// Why a session is not loaded, or why its line is not written.
#[derive(Clone, Copy, Debug, PartialEq, Eq)]
pub enum LoadFault {
    /// The tables don't represent an office, or the office refuses the text; nothing is loaded.
    Store(StoreFault),
    /// The session is loaded, but the writer failed; how much of the line was written is unknown.
    Write,
}

// It is displayed as the line with the counts of what was loaded.
#[derive(Clone, Copy)]
struct LoadedLine {
    loaded: Loaded,
}

impl fmt::Display for LoadedLine {
    ghost use Rattle.std.specs.Prelude.{Some};
    ghost use Rattle.office_program.specs.Load.{loaded_line};

    ghost output = { λ line. Some (loaded_line line.loaded) };

    fn fmt<W: fmt::Write>(&self, f: &mut fmt::Formatter<W>) -> fmt::Result {
        let Loaded {
            exams,
            pairs,
            periods,
            rooms,
        } = self.loaded;
        write!(
            f,
            "loaded exams {exams} pairs {pairs} periods {periods} rooms {rooms}"
        )
    }
}

// Runs `load`. The instance's file is read before the database is opened.
pub(crate) fn load<
    'a,
    H: Surroundings,
    S: Alter,
    T: Texts,
    D: Databases<Opened = Connection<S>>,
    W: Write,
>(
    host: &H,
    files: &T,
    databases: &mut D,
    database: &str,
    instance: &'a str,
    out: &mut W,
) -> Result<(), ProgramFault<'a>>
    requires loads { MayNoteLarge (H.finds host.now) (H.shows host.now) (H.allows host.now)
        instance.now (loading_line instance.now) }
    requires opens { MayNoteOpening (H.finds host.now) (H.shows host.now) (H.allows host.now)
        database.now }
    ensures loaded { IfOk result (λ _. (text : List ℕ)
        × IsTextOf (T.known files.now instance.now) text
        × PrintsCounts text (W.contents out.old) (W.contents out.new)
        × UsesDatabase (D.known databases.old) (D.known databases.new) database.now
        (LoadsIn S.Store text (W.contents out.old) (W.contents out.new))) }
    ensures leaves { IfErr result (λ shown.
        IsUnread (D.known databases.old) (D.known databases.new) instance.now
        (T.known files.now instance.now) shown
        ⊎ ((text : List ℕ) × IsTextOf (T.known files.now instance.now) text
        × LeavesUnloaded S.Store (D.known databases.old) (D.known databases.new) database.now
        text shown)) }

    // A line that names a file names the instance's.
    ensures fault { IfErr result (IsOfLoad instance.now (T.known files.now)) }
    ensures unwritten { IfErr result (λ fault. fault ≢ ProgramFault.CannotWrite
        → Keeps (W.contents out.old) (W.contents out.new)) }
    ensures front { IfErr result (λ fault. fault ≡ ProgramFault.CannotWrite → (text : List ℕ)
        × IsTextOf (T.known files.now instance.now) text
        × PrintsCountsFront text (W.contents out.old) (W.contents out.new)) }
{
    announce(host, LongWork::Loading(instance));
    match text_at(host.allocator(), files, instance) {
        Ok(text) => load_text(host, databases, database, &text, out),
        Err(fault) => Err(fault_of_input(fault, instance)),
    }
}

// Returns the whole text of an instance's file.
fn text_at<T: Texts>(alloc: Global, files: &T, path: &str) -> Result<Vec<u8>, InputFault>
    ensures short { IfOk result (λ text. length text.items ≤ INSTANCE_BYTES) }
    ensures of { IfOk result (λ text. IsTextOf (T.known files.now path.now) text.items) }
    ensures refused { IfErr result (IsTextCause (T.known files.now path.now)) }
{
    let Ok(mut file) = files.open_text(path) else {
        return Err(InputFault::Read);
    };
    text_of(alloc, &mut file)
}

// Loads an instance's text into the office of the database at a path.
fn load_text<'a, H: Surroundings, S: Alter, D: Databases<Opened = Connection<S>>, W: Write>(
    host: &H,
    databases: &mut D,
    database: &str,
    text: &[u8],
    out: &mut W,
) -> Result<(), ProgramFault<'a>>
    requires opens { MayNoteOpening (H.finds host.now) (H.shows host.now) (H.allows host.now)
        database.now }
    ensures loaded { IfOk result (λ _.
        PrintsCounts text.now (W.contents out.old) (W.contents out.new)
        × UsesDatabase (D.known databases.old) (D.known databases.new) database.now
        (LoadsIn S.Store text.now (W.contents out.old) (W.contents out.new))) }
    ensures leaves { IfErr result (LeavesUnloaded S.Store (D.known databases.old)
        (D.known databases.new) database.now text.now) }
    ensures fault { IfErr result (IsOfOffice text.now) }
    ensures unwritten { IfErr result (λ fault. fault ≢ ProgramFault.CannotWrite
        → Keeps (W.contents out.old) (W.contents out.new)) }
    ensures front { IfErr result (λ fault. fault ≡ ProgramFault.CannotWrite
        → PrintsCountsFront text.now (W.contents out.old) (W.contents out.new)) }
{
    let conn = match open_at(host, databases, database) {
        Ok(conn) => conn,
        Err(fault) => return Err(fault),
    };
    announce_upgrade(host, database, &conn);
    match load_run(host.allocator(), conn, text, out) {
        Ok(conn) => {
            databases.take_back(database, conn);
            Ok(())
        }
        Err((fault, conn)) => {
            databases.take_back(database, conn);
            Err(fault_of_load(fault))
        }
    }
}

/// Loads the session of an instance's text into the office of a database, and creates the office if
/// the database has no table, index or view; then writes the counts. Returns the connection.
pub fn load_run<S: Alter, W: Write>(
    alloc: Global,
    conn: Connection<S>,
    text: &[u8],
    writer: &mut W,
) -> Result<Connection<S>, (LoadFault, Connection<S>)>
    // Assuming the disk returns what was written, the database held an office, and the line has
    // the counts that it returns.
    ensures done { IfOk result (λ after. HasCleanDisk (state S.Store after)
        → OfOffice (IsOfficeOf (state S.Store conn).now) (λ there. Loads text.now there
        (state S.Store after) (W.contents writer.old) (W.contents writer.new))) }
    // A fault is the office's own refusal; or the load is done, but the line isn't written.
    ensures refused { IfErr result (λ e. HasCleanDisk (state S.Store e.1)
        → (there : OfficeState) → IsOfficeOf (state S.Store conn).now there
        → RefusesLoad text.now there (state S.Store e.1) e.0) }
    // On a refusal the office is unchanged, if the database had nothing uncommitted.
    ensures stays { IfErr result (λ e. HasCleanDisk (state S.Store e.1)
        → ((state S.Store conn).now ≡ (state S.Store conn).committed)
        → (there : OfficeState) → IsOfficeOf (state S.Store conn).now there
        → IfRefused (IsTrue (state S.Store e.1).is_open
        → IsOfficeOf (state S.Store e.1).now there) e.0) }
    // If the database holds no office, its tables are as they were.
    ensures foreign { IfErr result (λ e.
        IfStored e.0 (LeavesIfForeign S.Store IsOfficeOf conn e.1)) }

    // On any disk, the line has the counts of the session in the text, or nothing is written.
    ensures printed { IfOk result (λ _.
        PrintsCounts text.now (W.contents writer.old) (W.contents writer.new)) }
    ensures unwritten { IfErr result (λ e. e.0 ≢ LoadFault.Write
        → Keeps (W.contents writer.old) (W.contents writer.new)) }
    ensures front { IfErr result (λ e. e.0 ≡ LoadFault.Write
        → PrintsCountsFront text.now (W.contents writer.old) (W.contents writer.new)) }
    // The fault of a refused text is the first one in it.
    ensures first { IfErr result (λ e. NamesTextFault text.now e.0) }

    // A later opening may find what it might have found before, what opening makes of the tables, or,
    // unless the office refuses the text, its session.
    ensures survives { Survives (state S.Store conn) (state S.Store (connection_after result))
        (λ found. MayBringUp (state S.Store conn) found
        ⊎ MayLoad text.now (fault_of result) found) }
{
    let mut office = match Office::open(alloc, conn) {
        Ok(office) => office,
        Err((fault, conn)) => return Err((LoadFault::Store(fault), conn)),
    };
    match load_into(alloc, &mut office, text, writer) {
        Ok(()) => Ok(office.release()),
        Err(fault) => Err((fault, office.release())),
    }
}

// Loads the text into the office, and writes the counts.
fn load_into<S: Alter, W: Write>(
    alloc: Global,
    office: &mut Office<S>,
    text: &[u8],
    writer: &mut W,
) -> Result<(), LoadFault>
    ensures ran { CallRan S.Store office.old office.new (λ there. LoadRan text.now there
        (state S.Store office.new) (W.contents writer.old) (W.contents writer.new) result) }
    ensures printed { OnOk result
        (PrintsCounts text.now (W.contents writer.old) (W.contents writer.new)) }
    ensures unwritten { IfErr result (λ fault. fault ≢ LoadFault.Write
        → Keeps (W.contents writer.old) (W.contents writer.new)) }
    ensures front { IfErr result (λ fault. fault ≡ LoadFault.Write
        → PrintsCountsFront text.now (W.contents writer.old) (W.contents writer.new)) }
    ensures first { IfErr result (NamesTextFault text.now) }
    ensures survives { Survives (state S.Store office.old) (state S.Store office.new)
        (MayLoad text.now result) }
{
    let loaded = match office.load(alloc, text) {
        Ok(loaded) => loaded,
        Err(fault) => return Err(LoadFault::Store(fault)),
    };
    match print_loaded(loaded, writer) {
        Ok(()) => Ok(()),
        Err(_) => Err(LoadFault::Write),
    }
}

// Writes the counts. The line is made before, so that what a failed write leaves is a front of it.
fn print_loaded<W: Write>(loaded: Loaded, writer: &mut W) -> io::Result<()>
    ensures ok { OnOk result
        (Appends (W.contents writer.old) (W.contents writer.new) (loaded_text loaded)) }
    ensures err { OnErr result
        (WritesFront (W.contents writer.old) (W.contents writer.new) (loaded_text loaded)) }
{
    let line = LoadedLine { loaded };
    let mut text: ArrayVec<u8, MOST_OF_LINE> = ArrayVec::new();
    match writeln!(text, "{line}") {
        Ok(()) => write_text(writer, text.as_slice()),
        Err(_) => Err(io::ErrorKind::WriteZero.into()),
    }
}

// In bytes: room for the line with the counts, which has four numbers of ten digits at most.
const MOST_OF_LINE: usize = 128;
