// Two offices in memory.
ghost use Rattle.std.specs.Prelude.{◌≡◌, ◌↔◌, ◌++◌, ◌∷◌, [], IfOk, IsTrue, None, OnOk, length};
ghost use Rattle.sqlite.specs.Held.{state};
ghost use Rattle.sqlite.specs.Steps.{over_memory};
ghost use Rattle.office_messages.specs.Heads.{plain_request};
ghost use Rattle.office_messages.specs.Reply.{plain_reply};
ghost use Rattle.office_model.specs.Office.{OfficeState};
ghost use Rattle.office_store.specs.Running.{Represents};
ghost use Rattle.office_http.specs.TwoOffices.{AreShares, RepliesSameBytes, RepliesText, office_of, office_unless};

use crate::replying::reply;
use exam_publish::Shares;
use office_desk::{Desk, Office};
use office_messages::{Reply, Request, Status};
use office_requests::Routes;
use sqlite::{Connection, MemStore};
use std::alloc::Global;

/// An office's reply to a request, its stored shares, and what became of the requests before.
#[derive(Drop)]
pub struct ReplyAndShares {
    /// For each request of its list, whether the reply was that the office is unavailable (503).
    /// Such a request did nothing.
    pub missed: Vec<bool>,
    /// Its reply to a request.
    pub reply: Reply,
    /// The stored shares of its publication, if there is one.
    pub shares: Option<Shares>,
}

/// Why the replies of two offices are not returned.
#[derive(Clone, Copy, Debug, PartialEq, Eq)]
pub enum AskFault {
    /// Out of memory for a database or for the table of routes.
    NoMemory,
    /// A statement of the database failed.
    Store,
    /// The reply to the request that both are sent was that the office is unavailable (503).
    Unavailable,
}

/// Creates two offices, each in an empty database in memory, sends each its list of requests, from
/// any callers, and then sends the same request to both. A request of a list may get a 503: the
/// result says which did.
pub fn ask_two_offices(
    alloc: Global,
    first: &[Request<'_>],
    second: &[Request<'_>],
    asked: &Request<'_>,
) -> Result<(ReplyAndShares, ReplyAndShares), AskFault>
    // If both offices agree on a candidate's view, the candidate gets the same bytes from both.
    ensures same { IfOk result (λ said. RepliesSameBytes
        (office_of said.0.missed.items first.now) (office_of said.1.missed.items second.now)
        (plain_request asked.now) (plain_reply said.0.reply) (plain_reply said.1.reply)) }
    // These bytes are the text of the candidate's view.
    ensures text { IfOk result (λ said.
        RepliesText (office_of said.0.missed.items first.now) (plain_request asked.now)
        (plain_reply said.0.reply)
        × RepliesText (office_of said.1.missed.items second.now) (plain_request asked.now)
        (plain_reply said.1.reply)) }
    // In each office the stored shares add up to the penalty of its publication.
    ensures add_up { IfOk result (λ said.
        AreShares (office_of said.0.missed.items first.now) said.0.shares
        × AreShares (office_of said.1.missed.items second.now) said.1.shares) }
    // Of each request of the lists it is said whether its reply was a 503.
    ensures all { IfOk result (λ said. (length said.0.missed.items ≡ length first.now)
        × (length said.1.missed.items ≡ length second.now)) }
{
    let Ok(routes) = Routes::new(alloc) else {
        return Err(AskFault::NoMemory);
    };
    let (one, missed) = office_of(alloc, &routes, first)?;
    let (other, lost) = office_of(alloc, &routes, second)?;
    let said = ask(alloc, &routes, one, missed, asked)?;
    let answered = ask(alloc, &routes, other, lost, asked)?;
    Ok((said, answered))
}

// Returns the office in memory that these requests lead to, and which of them got a 503.
fn office_of(
    alloc: Global,
    routes: &Routes,
    requests: &[Request<'_>],
) -> Result<(Office<MemStore>, Vec<bool>), AskFault>
    ensures led { IfOk result (λ made. Represents (state over_memory made.0)
        (office_of made.1.items requests.now)) }
    ensures all { IfOk result (λ made. length made.1.items ≡ length requests.now) }
{
    let mut missed = Vec::new(alloc);
    let mut desk = Desk::new(new_office(alloc)?);
    for request in requests {
        let is_missed = send(alloc, routes, &mut desk, request);
        note(&mut missed, is_missed)?;
    }
    Ok((desk.into_office(), missed))
}

// Adds whether a request was missed.
fn note(missed: &mut Vec<bool>, is_missed: bool) -> Result<(), AskFault>
    ensures { OnOk result (missed.new.items ≡ missed.old.items ++ is_missed ∷ []) }
{
    match missed.push(is_missed) {
        Ok(()) => Ok(()),
        Err(_) => Err(AskFault::NoMemory),
    }
}

// Sends a request to the desk. Returns whether the reply is that the office is unavailable.
fn send(alloc: Global, routes: &Routes, desk: &mut Desk<MemStore>, request: &Request<'_>) -> bool
    ensures { (o : OfficeState) → Represents (state over_memory desk.old) o
        → Represents (state over_memory desk.new) (office_unless result o request.now) }
{
    let reply = reply(alloc, routes, desk, request);
    is_unavailable(reply.status)
}

// Returns the office in an empty database in memory.
fn new_office(alloc: Global) -> Result<Office<MemStore>, AskFault>
    ensures { IfOk result (λ office. Represents (state over_memory office) None) }
{
    let Ok(conn) = Connection::open_in_memory(alloc) else {
        return Err(AskFault::NoMemory);
    };
    match Office::create(conn) {
        Ok(office) => Ok(office),
        Err(_) => Err(AskFault::Store),
    }
}

// Reads the stored shares, then sends the request to the office.
fn ask(
    alloc: Global,
    routes: &Routes,
    office: Office<MemStore>,
    missed: Vec<bool>,
    asked: &Request<'_>,
) -> Result<ReplyAndShares, AskFault>
    ensures kept { IfOk result (λ said. said.missed.items ≡ missed.items) }
    ensures text { IfOk result (λ said. (o : OfficeState) → Represents (state over_memory office) o
        → RepliesText o (plain_request asked.now) (plain_reply said.reply)) }
    ensures add_up { IfOk result (λ said. (o : OfficeState)
        → Represents (state over_memory office) o
        → AreShares o said.shares) }
{
    let mut office = office;
    let Ok(shares) = office.shares(alloc) else {
        return Err(AskFault::Store);
    };
    let mut desk = Desk::new(office);
    let reply = available_reply(alloc, routes, &mut desk, asked)?;
    Ok(ReplyAndShares {
        missed,
        reply,
        shares,
    })
}

// Replies to a request, unless the reply is that the office is unavailable.
fn available_reply(
    alloc: Global,
    routes: &Routes,
    desk: &mut Desk<MemStore>,
    request: &Request<'_>,
) -> Result<Reply, AskFault>
    ensures { IfOk result (λ reply. (o : OfficeState)
        → Represents (state over_memory desk.old) o
        → RepliesText o (plain_request request.now) (plain_reply reply)) }
{
    let reply = reply(alloc, routes, desk, request);
    if is_unavailable(reply.status) {
        return Err(AskFault::Unavailable);
    }
    Ok(reply)
}

// Returns whether a reply has the status that says that the office is unavailable.
fn is_unavailable(status: Status) -> bool
    ensures { IsTrue result ↔ (status ≡ Status.ServiceUnavailable) }
{
    match status {
        Status::ServiceUnavailable => true,
        _ => false,
    }
}
