// The run of a server.
ghost use Rattle.std.specs.Prelude.{◌≡◌, ◌≢◌, ◌<◌, ◌≤◌, IfErr, IfOk};
ghost use Rattle.std.specs.Io.KnownBytes.{Appends};
ghost use Rattle.office_output.specs.Writing.{WritesFront};
ghost use Rattle.office_connections.specs.Lines.{listening_line};
ghost use Rattle.office_connections.specs.Clients.{AreOfClients, ServesPlan, ServesWhileOpen};

use crate::accepting::{Plan, Service, accept_all};
use crate::clients::Clients;
use crate::listening::announce;
use crate::shutting::MayShut;
use crate::timed::Timed;
use office_messages::Machine;
use std::alloc::Global;
use std::io::{Read, Write};
use std::time::Clock;

/// Why not all connections were served.
#[derive(Clone, Copy)]
pub enum RunFault {
    /// An accept failed.
    Listen,
    /// The line that announces the port could not be written; no connection was accepted.
    Write,
    /// The machine is shut.
    Shut,
}

/// Announces the port on `out`, then serves the plan's clients, one after another; for each
/// connection that ends with a fault a line is printed to `err`. Returns how many of these lines
/// could not be written.
pub fn announce_and_accept<
    C: Clock,
    M: Machine + MayShut,
    R: Read + Timed + Drop,
    W: Write + Timed + Drop,
    I: Clients<Reader = R, Writer = W>,
    O: Write,
    E: Write,
>(
    alloc: Global,
    clock: &C,
    port: u16,
    clients: &mut I,
    plan: Plan,
    machine: &mut M,
    out: &mut O,
    err: &mut E,
) -> Result<u32, RunFault>
    // As for `accept_all`. If fewer clients were served than planned, the fault says why.
    ensures served { ServesPlan
        (AreOfClients I.accepts I.takes_back R.remaining W.contents clients.old clients.new)
        (ServesWhileOpen M.Answers M.is_shut machine.old machine.new) (M.is_shut machine.new)
        plan.connections result (E.contents err.old) (E.contents err.new) }
    ensures port { IfOk result (λ _. Appends (O.contents out.old) (O.contents out.new)
        (listening_line port)) }
    ensures unaccepted { IfErr result (λ fault. fault ≢ RunFault.Write
        → Appends (O.contents out.old) (O.contents out.new) (listening_line port)) }
    // If the line of the port could not be written, a front of it was.
    ensures front { IfErr result (λ fault. fault ≡ RunFault.Write
        → WritesFront (O.contents out.old) (O.contents out.new) (listening_line port)) }
    ensures unserved { IfErr result (λ fault. fault ≡ RunFault.Write
        → (machine.new ≡ machine.old) × (err.new ≡ err.old)) }
{
    if announce(port, out).is_err() {
        return Err(RunFault::Write);
    }
    let service = accept_all(alloc, clock, clients, plan, machine, err);
    if machine.is_shut() {
        return Err(RunFault::Shut);
    }
    run_result(service, plan)
}

// Returns how a run ended, by what was served, with a machine that is still open.
fn run_result(service: Service, plan: Plan) -> Result<u32, RunFault>
    requires { service.accepted ≤ plan.connections }
    ensures all { IfOk result (λ unwritten.
        (service.accepted ≡ plan.connections) × (service.unwritten ≡ unwritten)) }
    ensures fewer { IfErr result (λ fault.
        (fault ≡ RunFault.Listen) × (service.accepted < plan.connections)) }
{
    if service.accepted < plan.connections {
        return Err(RunFault::Listen);
    }
    Ok(service.unwritten)
}
