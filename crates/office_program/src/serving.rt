// `serve`: serves the office of a database's file over sockets.
ghost use Rattle.std.specs.Prelude.{◌≡◌, ◌≢◌, ◌*◌, ◌^◌, ◌⊎◌, Err, IfErr, IfOk, IsTrue, None, Ok, true};
ghost use Rattle.std.specs.Duration.{as_nanos};
ghost use Rattle.std.specs.Io.KnownBytes.{Appends, Keeps};
ghost use Rattle.office_connections.specs.Clients.{AreOfClients};
ghost use Rattle.office_connections.specs.Lines.{listening_line};
ghost use Rattle.office_output.specs.Writing.{WritesFront};
ghost use Rattle.office_program.specs.Databases.{ServesIn, ServesNamed};
ghost use Rattle.office_program.specs.LongWork.{making_line, publishing_line};
ghost use Rattle.office_program.specs.Serve.{AreOfPort, AreOfPorts, IsStoreShut, LeavesPort};
ghost use Rattle.office_program.specs.Serve.{OfficeServes, PrintsServed, ServesTerms};
ghost use Rattle.office_program.specs.Surroundings.{MayNoteLarge, MayNoteOpening};
ghost use Rattle.office_program.specs.TaskFaults.{IsOfServe};

use crate::answering::{Publishing, ServingDesk};
use crate::databases::{Databases, open_at};
use crate::ending::Ending;
use crate::faults::{ProgramFault, fault_of_run};
use crate::notices::{announce_new, announce_upgrade};
use crate::surroundings::Surroundings;
use crate::words::Terms;
use office_connections::{Clients, Listening, Plan, Ports, Timed, announce_and_accept};
use office_http::{Alter, Connection, Desk, Office, Routes};
use std::io::{Read, Write};
use std::time::{Clock, Duration};

// Runs `serve`. It opens the database, and finds or creates its office, before it opens the port.
pub(crate) fn open_and_serve<
    'a,
    H: Surroundings + Clock,
    S: Alter,
    D: Databases<Opened = Connection<S>>,
    R: Read + Timed + Drop,
    W: Write + Timed + Drop,
    I: Clients<Reader = R, Writer = W> + Drop,
    N: Ports<Opened = I>,
    O: Write,
    E: Write,
>(
    host: &H,
    net: &mut N,
    databases: &mut D,
    database: &str,
    terms: Terms,
    out: &mut O,
    err: &mut E,
) -> Result<Ending, ProgramFault<'a>>
    requires new { H.finds host.now database.now None → H.shows host.now true
        → IsTrue (H.allows host.now (making_line database.now)) }
    requires opens { MayNoteOpening (H.finds host.now) (H.shows host.now) (H.allows host.now)
        database.now }
    requires publishes { MayNoteLarge (H.finds host.now) (H.shows host.now) (H.allows host.now)
        database.now (publishing_line database.now) }
    // However the call ends, the database at the path was opened, and given back after the last
    // client; or the fault is that it could not be opened. As for `serve_office`, its office served
    // as many clients of the port of the terms as these say, or the fault says why not.
    ensures serves { IfOk result (λ ending.
        ServesNamed S.Store (D.known databases.old) (D.known databases.new) (net.new ≡ net.old)
        (AreOfPorts N.opens N.closes I.accepts I.takes_back
        R.remaining W.contents net.old net.new)
        (E.contents err.old) (E.contents err.new) (Ok ending) database.now terms) }
    ensures unserved { IfErr result (λ shown.
        ServesNamed S.Store (D.known databases.old) (D.known databases.new) (net.new ≡ net.old)
        (AreOfPorts N.opens N.closes I.accepts I.takes_back
        R.remaining W.contents net.old net.new)
        (E.contents err.old) (E.contents err.new) (Err shown) database.now terms) }
    ensures served { IfOk result (PrintsServed terms (O.contents out.old) (O.contents out.new)
        (E.contents err.old) (E.contents err.new)) }
    ensures fault { IfErr result IsOfServe }
    ensures port { IfErr result
        (LeavesPort terms (O.contents out.old) (O.contents out.new)) }
{
    let is_new = host.look_at(database).is_err();
    let conn = match open_at(host, databases, database) {
        Ok(conn) => conn,
        Err(fault) => return Err(fault),
    };
    if is_new {
        announce_new(host, database);
    }
    announce_upgrade(host, database, &conn);
    let (conn, done) = serve_office(host, net, database, conn, terms, out, err);
    databases.take_back(database, conn);
    done
}

/// Serves the office of a database, and returns its connection. The office is created if the
/// database has no table, index or view.
pub fn serve_office<
    'a,
    H: Surroundings + Clock,
    S: Alter,
    R: Read + Timed + Drop,
    W: Write + Timed + Drop,
    I: Clients<Reader = R, Writer = W> + Drop,
    N: Ports<Opened = I>,
    O: Write,
    E: Write,
>(
    host: &H,
    net: &mut N,
    database: &str,
    conn: Connection<S>,
    terms: Terms,
    out: &mut O,
    err: &mut E,
) -> (Connection<S>, Result<Ending, ProgramFault<'a>>)
    // A line about a publication may be written on a terminal, if the database is large.
    requires publishes { MayNoteLarge (H.finds host.now) (H.shows host.now) (H.allows host.now)
        database.now (publishing_line database.now) }
    // However the call ends: the office that the database held was opened, and served the clients of
    // the port, as for `serve_clients`: each client is sent the office's replies to its own messages,
    // and as many are served as the terms say, or the fault says why not. Or it could not be opened,
    // no port was listened on, and the tables stay.
    ensures reached { ServesIn S.Store (net.new ≡ net.old)
        (AreOfPort (λ old. N.opens old terms.port) N.closes I.accepts I.takes_back
        R.remaining W.contents net.old net.new) terms
        (E.contents err.old) (E.contents err.new) result.1 conn result.0 }
    // The same as for `listen_and_serve`.
    ensures served { IfOk result.1 (PrintsServed terms (O.contents out.old) (O.contents out.new)
        (E.contents err.old) (E.contents err.new)) }
    ensures fault { IfErr result.1 IsOfServe }
    ensures port { IfErr result.1
        (LeavesPort terms (O.contents out.old) (O.contents out.new)) }
{
    let office = match Office::open(host.allocator(), conn) {
        Ok(office) => office,
        Err((fault, conn)) => return (conn, Err(ProgramFault::Store(fault))),
    };
    let mut desk = Desk::new(office);
    let done = listen_and_serve(host, net, database, terms, &mut desk, out, err);
    (desk.into_office().release(), done)
}

/// Serves the office at a desk to the clients of a port, one after another, as the terms say.
pub fn listen_and_serve<
    'a,
    H: Surroundings + Clock,
    S: Alter,
    R: Read + Timed + Drop,
    W: Write + Timed + Drop,
    I: Clients<Reader = R, Writer = W> + Drop,
    N: Ports<Opened = I>,
    O: Write,
    E: Write,
>(
    host: &H,
    net: &mut N,
    database: &str,
    terms: Terms,
    desk: &mut Desk<S>,
    out: &mut O,
    err: &mut E,
) -> Result<Ending, ProgramFault<'a>>
    // A line about a publication may be written on a terminal, if the database is large.
    requires publishes { MayNoteLarge (H.finds host.now) (H.shows host.now) (H.allows host.now)
        database.now (publishing_line database.now) }
    // As for `serve_clients`, with the clients of the port of the terms. This holds however the
    // call ends; the contracts of the system's sockets say nothing about their bytes.
    ensures reached { ServesTerms
        (AreOfPort (λ old. N.opens old terms.port) N.closes I.accepts I.takes_back
        R.remaining W.contents net.old net.new)
        (OfficeServes S.Store desk.old desk.new) (IsStoreShut S.Store desk.new) terms result
        (E.contents err.old) (E.contents err.new) }
    // The line of the port was printed: the requested port, or any if that was 0. If no write
    // failed, `err` has a line for each connection that ended with a fault.
    ensures served { IfOk result (PrintsServed terms (O.contents out.old) (O.contents out.new)
        (E.contents err.old) (E.contents err.new)) }
    // The fault is one of a database, of an office or of listening.
    ensures fault { IfErr result IsOfServe }
    // If the writer failed, `out` has a front of the line of the port; else it is unchanged, or has
    // that line.
    ensures port { IfErr result
        (LeavesPort terms (O.contents out.old) (O.contents out.new)) }
{
    let Ok(Listening { port, mut clients }) = net.listen(terms.port) else {
        return Err(ProgramFault::CannotListen);
    };
    let done = serve_clients(host, database, terms, port, &mut clients, desk, out, err);
    net.close(clients);
    done
}

/// Serves the office at a desk to clients, each a reader and a writer, in the order of arrival:
/// prints the port, then serves as many clients as the terms say, while the store is open.
pub fn serve_clients<
    'a,
    H: Surroundings + Clock,
    S: Alter,
    R: Read + Timed + Drop,
    W: Write + Timed + Drop,
    I: Clients<Reader = R, Writer = W>,
    O: Write,
    E: Write,
>(
    host: &H,
    database: &str,
    terms: Terms,
    port: u16,
    clients: &mut I,
    desk: &mut Desk<S>,
    out: &mut O,
    err: &mut E,
) -> Result<Ending, ProgramFault<'a>>
    // A line about a publication may be written on a terminal, if the database is large.
    requires publishes { MayNoteLarge (H.finds host.now) (H.shows host.now) (H.allows host.now)
        database.now (publishing_line database.now) }
    // However the call ends, assuming the disk returns what was written, and for any office that
    // was found: what is added to each client's writer, until it is handed back, are the office's
    // replies to the messages of that client's whole stream, in whatever pieces and at whatever
    // speed it comes, or, after a fault, to the first of them. The office that one client leaves is
    // the next one's, and the file represents it after the last. Each candidate gets the text of
    // their view. As many clients were served as the terms say; or fewer, because an accept failed,
    // or because a failed disk call has closed the store and the fault is `Store`; or no client
    // was. The lines on `err` are those of the faults that connections ended with, unless a line
    // could not be written.
    ensures served { ServesTerms
        (AreOfClients I.accepts I.takes_back R.remaining W.contents clients.old clients.new)
        (OfficeServes S.Store desk.old desk.new) (IsStoreShut S.Store desk.new) terms result
        (E.contents err.old) (E.contents err.new) }
    ensures status { IfOk result (λ ending. ending.status ≡ 0) }
    ensures fault { IfErr result IsOfServe }
    ensures port { IfOk result (λ _. Appends (O.contents out.old) (O.contents out.new)
        (listening_line port)) }
    ensures unprinted { IfErr result (λ shown. shown ≢ ProgramFault.CannotWrite
        → Keeps (O.contents out.old) (O.contents out.new)
        ⊎ Appends (O.contents out.old) (O.contents out.new) (listening_line port)) }
    ensures front { IfErr result (λ shown. shown ≡ ProgramFault.CannotWrite
        → WritesFront (O.contents out.old) (O.contents out.new) (listening_line port)) }
{
    let Ok(routes) = Routes::new(host.allocator()) else {
        return Err(ProgramFault::NoMemory);
    };
    let publishing = Publishing::new(host, database);
    let mut machine = ServingDesk {
        publishing: &publishing,
        desk,
        routes: &routes,
        is_shut: false,
    };
    let plan = plan_of(terms);
    match announce_and_accept(
        host.allocator(),
        host,
        port,
        clients,
        plan,
        &mut machine,
        out,
        err,
    ) {
        Ok(unwritten) => Ok(Ending {
            status: 0,
            is_err_written: unwritten == 0,
        }),
        Err(fault) => Err(fault_of_run(fault)),
    }
}

// Returns the plan of a run with these terms.
fn plan_of(terms: Terms) -> Plan
    ensures connections { result.connections ≡ terms.connections }
    ensures patience { as_nanos result.patience ≡ terms.patience * 10 ^ 9 }
{
    Plan {
        connections: terms.connections,
        patience: Duration::from_secs(u64::from(terms.patience)),
    }
}
