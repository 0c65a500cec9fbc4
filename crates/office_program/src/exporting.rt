// `export`: writes the publication of a database's office.
ghost use Rattle.std.specs.Prelude.{◌≡◌, ◌≢◌, IfErr, IfOk, IsTrue, Some};
ghost use Rattle.std.specs.Io.KnownBytes.{Keeps};
ghost use Rattle.sqlite.specs.Held.{state};
ghost use Rattle.sqlite.specs.State.{HasCleanDisk, Survives};
ghost use Rattle.exam_model.specs.Timetable.{Placing};
ghost use Rattle.office_files.specs.CanonicalSolution.{canonical_solution};
ghost use Rattle.office_model.specs.Office.{OfficeState};
ghost use Rattle.office_store.specs.Opening.{HoldsOffice};
ghost use Rattle.office_store.specs.Running.{CallRan};
ghost use Rattle.office_program.specs.Databases.{ExportsIn, LeavesUnexported, UsesDatabase};
ghost use Rattle.office_program.specs.Export.{ExportRan, Exports, IfRead, IsWhole};
ghost use Rattle.office_program.specs.Export.{PrintsSolution, PrintsSolutionFront, RefusesExport};
ghost use Rattle.office_program.specs.Export.{published_solution};
ghost use Rattle.office_program.specs.Foreign.{LeavesIfForeign, OfOffice};
ghost use Rattle.office_program.specs.Load.{MayUpgrade, connection_after};
ghost use Rattle.office_program.specs.Surroundings.{MayNoteOpening};
ghost use Rattle.office_program.specs.TaskFaults.{IsOfExport};

use crate::databases::{Databases, open_found};
use crate::faults::{ProgramFault, fault_of_export};
use crate::notices::announce_upgrade;
use crate::surroundings::Surroundings;
use office_files::{FaultKind, write_solution};
use office_http::{Alter, Connection, Office, StoreFault};
use office_output::write_text;
use std::alloc::Global;
use std::io::Write;

/// Why the publication is not written.
#[derive(Clone, Copy, Debug, PartialEq, Eq)]
pub enum ExportFault {
    /// The tables don't represent an office, or a statement failed.
    Store(StoreFault),
    /// Nothing is published.
    NoPublication,
    /// Memory ran out for the text.
    NoMemory,
    /// The writer failed; how much of the text was written is unknown.
    Write,
}

// Runs `export`. The database's file must exist and hold an office: none is created.
pub(crate) fn export<'a, H: Surroundings, S: Alter, D: Databases<Opened = Connection<S>>, W: Write>(
    host: &H,
    databases: &mut D,
    database: &str,
    out: &mut W,
) -> Result<(), ProgramFault<'a>>
    requires opens { MayNoteOpening (H.finds host.now) (H.shows host.now) (H.allows host.now)
        database.now }
    ensures printed { IfOk result (λ _. PrintsSolution (W.contents out.old) (W.contents out.new)) }
    ensures uses { IfOk result (λ _. UsesDatabase (D.known databases.old) (D.known databases.new) database.now
        (ExportsIn S.Store (W.contents out.old) (W.contents out.new))) }
    ensures leaves { IfErr result (LeavesUnexported S.Store (D.known databases.old)
        (D.known databases.new) database.now) }
    ensures fault { IfErr result IsOfExport }
    ensures unwritten { IfErr result (λ fault. fault ≢ ProgramFault.CannotWrite
        → Keeps (W.contents out.old) (W.contents out.new)) }
    ensures front { IfErr result (λ fault. fault ≡ ProgramFault.CannotWrite
        → PrintsSolutionFront (W.contents out.old) (W.contents out.new)) }
{
    let conn = match open_found(host, databases, database) {
        Ok(conn) => conn,
        Err(fault) => return Err(fault),
    };
    announce_upgrade(host, database, &conn);
    match export_run(host.allocator(), conn, out) {
        Ok(conn) => {
            databases.take_back(database, conn);
            Ok(())
        }
        Err((fault, conn)) => {
            databases.take_back(database, conn);
            Err(fault_of_export(fault))
        }
    }
}

/// Writes the solution that the office of a database has published. Returns the connection.
pub fn export_run<S: Alter, W: Write>(
    alloc: Global,
    conn: Connection<S>,
    writer: &mut W,
) -> Result<Connection<S>, (ExportFault, Connection<S>)>
    // Assuming the disk returns what was written, the database held an office, and the text is its
    // publication.
    ensures done { IfOk result (λ after. HasCleanDisk (state S.Store after)
        → OfOffice (HoldsOffice (state S.Store conn).now) (λ there. Exports there
        (state S.Store after) (W.contents writer.old) (W.contents writer.new))) }
    // A fault is a failed statement, `NoPublication`, out of memory or the writer's; `BadSchema` if
    // the tables don't represent an office.
    ensures refused { IfErr result (λ e. HasCleanDisk (state S.Store e.1)
        → (there : OfficeState) → HoldsOffice (state S.Store conn).now there
        → RefusesExport there e.0) }
    // On a refusal the office is unchanged, if the database had nothing uncommitted.
    ensures stays { IfErr result (λ e. HasCleanDisk (state S.Store e.1)
        → ((state S.Store conn).now ≡ (state S.Store conn).committed)
        → (there : OfficeState) → HoldsOffice (state S.Store conn).now there
        → IsTrue (state S.Store e.1).is_open → HoldsOffice (state S.Store e.1).now there) }
    // If the database holds no office, its tables are as they were.
    ensures foreign { IfErr result (λ e. IfRead e.0 (LeavesIfForeign S.Store HoldsOffice conn e.1)) }

    // On any disk, a whole solution is written, or nothing.
    ensures printed { IfOk result (λ _.
        PrintsSolution (W.contents writer.old) (W.contents writer.new)) }
    ensures unwritten { IfErr result (λ e. e.0 ≢ ExportFault.Write
        → Keeps (W.contents writer.old) (W.contents writer.new)) }
    ensures front { IfErr result (λ e. e.0 ≡ ExportFault.Write
        → PrintsSolutionFront (W.contents writer.old) (W.contents writer.new)) }

    // A later opening may find what it might have found before, or the same office in version 2.
    ensures survives { Survives (state S.Store conn) (state S.Store (connection_after result))
        (MayUpgrade (state S.Store conn)) }
{
    let mut office = match Office::adopt(alloc, conn) {
        Ok(office) => office,
        Err((fault, conn)) => return Err((ExportFault::Store(fault), conn)),
    };
    match export_from(alloc, &mut office, writer) {
        Ok(()) => Ok(office.release()),
        Err(fault) => Err((fault, office.release())),
    }
}

// Writes the solution that the office has published.
fn export_from<S: Alter, W: Write>(
    alloc: Global,
    office: &mut Office<S>,
    writer: &mut W,
) -> Result<(), ExportFault>
    ensures ran { CallRan S.Store office.old office.new (λ there. ExportRan
        (λ _. Exports there (state S.Store office.new)
        (W.contents writer.old) (W.contents writer.new))
        there (state S.Store office.new) result) }
    ensures printed { IfOk result (λ _.
        PrintsSolution (W.contents writer.old) (W.contents writer.new)) }
    ensures unwritten { IfErr result (λ fault. fault ≢ ExportFault.Write
        → Keeps (W.contents writer.old) (W.contents writer.new)) }
    ensures front { IfErr result (λ fault. fault ≡ ExportFault.Write
        → PrintsSolutionFront (W.contents writer.old) (W.contents writer.new)) }
    ensures survives { Survives (state S.Store office.old) (state S.Store office.new) (λ _. ⊥) }
{
    let text = published_text(alloc, office)?;
    match write_text(writer, &text) {
        Ok(()) => Ok(()),
        Err(_) => Err(ExportFault::Write),
    }
}

// Returns the solution that the office has published.
fn published_text<S: Alter>(alloc: Global, office: &mut Office<S>) -> Result<Vec<u8>, ExportFault>
    ensures ran { CallRan S.Store office.old office.new (λ there. ExportRan
        (λ text. published_solution there ≡ Some text.items)
        there (state S.Store office.new) result) }
    ensures solution { IfOk result (λ text. (T : Placing) × IsWhole T
        × (text.items ≡ canonical_solution T)) }
    ensures read { IfErr result (λ fault. fault ≢ ExportFault.Write) }
    ensures survives { Survives (state S.Store office.old) (state S.Store office.new) (λ _. ⊥) }
{
    let found = match office.publication(alloc) {
        Ok(found) => found,
        Err(fault) => return Err(ExportFault::Store(fault)),
    };
    let Some((timetable, _)) = found else {
        return Err(ExportFault::NoPublication);
    };
    timetable.lemma_limit();
    match write_solution(alloc, &timetable) {
        Ok(text) => Ok(text),
        Err(fault) => Err(text_fault(fault.what)),
    }
}

// Returns why a published solution has no text. Each exam of a publication has a place.
fn text_fault(what: FaultKind) -> ExportFault
    ensures memory { what ≡ FaultKind.NoMemory → result ≡ ExportFault.NoMemory }
    ensures other { what ≢ FaultKind.NoMemory → result ≡ ExportFault.Store StoreFault.BadSchema }
{
    match what {
        FaultKind::NoMemory => ExportFault::NoMemory,
        _ => ExportFault::Store(StoreFault::BadSchema),
    }
}
