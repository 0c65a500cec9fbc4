// Clients, one after another.
ghost use Rattle.std.specs.Prelude.{◌≡◌, [], IfNone, IfSome, None, not, OnErr, OnOk};
ghost use Rattle.std.specs.Int.{from_bool};
ghost use Rattle.std.specs.Io.KnownBytes.{Appends};
ghost use Rattle.office_messages.specs.Visits.{ServesVisit, Visit, with_fault};
ghost use Rattle.office_output.specs.Writing.{WritesFront};
ghost use Rattle.office_connections.specs.Lines.{PrintsLines, connection_fault_number, fault_line};
ghost use Rattle.office_connections.specs.Clients.{AreOfClients, IsNextConnection, ServesPlanned};
ghost use Rattle.office_connections.specs.Clients.{ServesWhileOpen};

use crate::clients::Clients;
use crate::lines::write_numbered;
use crate::serving::answer_client;
use crate::shutting::MayShut;
use crate::timed::Timed;
use office_messages::{Machine, ServeFault};
use std::alloc::Global;
use std::io;
use std::io::{Read, Write};
use std::time::{Clock, Duration};

/// The plan of a run.
#[derive(Clone, Copy)]
pub struct Plan {
    /// The number of connections.
    pub connections: u32,
    /// The timeout of a client for each of its actions.
    pub patience: Duration,
}

/// The result of a run.
#[derive(Clone, Copy)]
pub struct Service {
    /// The number of connections: fewer than planned if no further client was accepted, or the
    /// machine was shut.
    pub accepted: u32,
    /// The number of lines that could not be written.
    pub unwritten: u32,
}

/// Serves clients, each a reader and a writer, one after another in the order of arrival, up to the
/// plan's number, while the machine is open. For each connection that ends with a fault a line is
/// printed to `err`.
pub fn accept_all<
    C: Clock,
    M: Machine + MayShut,
    R: Read + Timed + Drop,
    W: Write + Timed + Drop,
    I: Clients<Reader = R, Writer = W>,
    E: Write,
>(alloc: Global, clock: &C, clients: &mut I, plan: Plan, machine: &mut M, err: &mut E) -> Service
    // One machine serves all clients in turn, and was open before each of them. What is added to a
    // client's writer until it is handed back are the machine's replies to that client's messages.
    // As many clients are served as planned, unless an accept failed or the machine is shut.
    ensures served { ServesPlanned
        (AreOfClients I.accepts I.takes_back R.remaining W.contents clients.old clients.new)
        (ServesWhileOpen M.Answers M.is_shut machine.old machine.new) (M.is_shut machine.new)
        plan.connections result (E.contents err.old) (E.contents err.new) }
{
    let mut service = Service {
        accepted: 0,
        unwritten: 0,
    };
    while service.accepted < plan.connections && !machine.is_shut() {
        let Some(is_err_written) = accept_next(alloc, clock, clients, plan.patience, machine, err)
        else {
            break;
        };
        service.accepted += 1;
        service.unwritten += u32::from(!is_err_written);
    }
    service
}

// Serves the next client, if there is one, hands its writer back, and prints the fault of its
// connection. Returns whether there is no line, or it was written.
fn accept_next<
    C: Clock,
    M: Machine,
    R: Read + Timed + Drop,
    W: Write + Timed + Drop,
    I: Clients<Reader = R, Writer = W>,
    E: Write,
>(
    alloc: Global,
    clock: &C,
    clients: &mut I,
    patience: Duration,
    machine: &mut M,
    err: &mut E,
) -> Option<bool>
    ensures some { IfSome result (λ is_err_written. (visit : Visit)
        × IsNextConnection I.accepts I.takes_back R.remaining W.contents
        clients.old visit clients.new
        × ServesVisit M.Answers visit machine.old machine.new
        × PrintsLines (with_fault visit.ended []) (from_bool (not is_err_written))
        (E.contents err.old) (E.contents err.new)) }
    ensures none { IfNone result (I.accepts clients.old None clients.new
        × (machine.new ≡ machine.old) × (err.new ≡ err.old)) }
{
    let (from, to) = clients.accept()?;
    let (served, written) = answer_client(alloc, clock, from, to, machine, patience);
    clients.hand_back(written);
    match served {
        Ok(_) => Some(true),
        Err(fault) => Some(print_fault(fault, err).is_ok()),
    }
}

// Prints the line of a fault.
fn print_fault<W: Write>(fault: ServeFault, err: &mut W) -> io::Result<()>
    ensures ok { OnOk result
        (Appends (W.contents err.old) (W.contents err.new) (fault_line fault)) }
    ensures err { OnErr result
        (WritesFront (W.contents err.old) (W.contents err.new) (fault_line fault)) }
{
    write_numbered(
        err,
        "examoffice: connection fault ",
        u16::from(number_of(fault)),
    )
}

// Returns the number that is printed for a fault.
fn number_of(fault: ServeFault) -> u8
    ensures { result ≡ connection_fault_number fault }
{
    fault as u8
}
