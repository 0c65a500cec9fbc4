// Reading a request, without reading anything stored.
ghost use Rattle.std.specs.Prelude.{◌≡◌, ℕ, List, IfOk, IfSome, option_copied, option_map};
ghost use Rattle.std.specs.Borrow.{Bor};
ghost use Rattle.office_messages.specs.Reply.{plain_reply};
ghost use Rattle.office_policy.specs.CommandBodies.{HoldsText};
ghost use Rattle.office_policy.specs.Commands.{plain_command, HasSmallNumbers};
ghost use Rattle.office_requests.specs.Methods.{verb_of};
ghost use Rattle.office_requests.specs.Requests.{caller_in, own_command, staff_command};
ghost use Rattle.office_requests.specs.Requests.{command_by, command_or_refusal};
ghost use Rattle.office_requests.specs.Answering.{ReturnsCallerCommand, ReturnsCommand};
ghost use Rattle.office_requests.specs.Answering.{not_allowed, refusal_reply};
ghost use Rattle.office_requests.specs.declared.requests.Refusal.TheVariants as refusal;

use crate::commands::command_at;
use crate::methods::{Verb, allow};
use crate::routes::{Page, Routes};
use crate::texts::FixedError;
use office_messages::{Allow, Reply, Request, unavailable};
use office_policy::{Caller, Command, Denial, Kind};
use std::alloc::{AllocError, Global};

/// The caller and the command.
#[derive(Clone, Copy)]
pub struct CallerCommand<'a> {
    pub caller: Caller,
    pub command: Command<'a>,
}

/// Why a request is refused without reading anything stored, in the order of the checks.
#[derive(Clone, Copy, Debug, PartialEq, Eq)]
pub enum Refusal {
    /// The header names no caller.
    Caller,
    /// A candidate may only use their own three pages: denial P1.
    Candidate,
    /// No page has the path.
    Path,
    /// The page doesn't have the method.
    Method(Page),
    /// Out of memory while a body is read.
    NoMemory,
}

impl From<AllocError> for Refusal {
    ghost from_gives = { λ _ e. e ≡ refusal.NoMemory };

    fn from(_: AllocError) -> Refusal {
        Refusal::NoMemory
    }
}

impl Refusal {
    /// Returns the reply to the refusal. It takes no memory.
    pub fn reply(self) -> Reply
        ensures { plain_reply result ≡ refusal_reply self }
    {
        match self {
            Refusal::Caller => FixedError::Caller.reply(),
            Refusal::Candidate => FixedError::Denied(Denial::P1).reply(),
            Refusal::Path => FixedError::Path.reply(),
            Refusal::Method(page) => not_allowed(page),
            Refusal::NoMemory => unavailable(),
        }
    }
}

// Returns the reply if the page doesn't have the method: it lists those of the page.
fn not_allowed(page: Page) -> Reply
    ensures { plain_reply result ≡ not_allowed page }
{
    let methods = allow(page);
    Reply {
        allow: Some(Allow { methods }),
        ..FixedError::Method.reply()
    }
}

/// Returns the caller and the command: caller, a candidate's pages, path and method are judged in
/// this order. A body that is too long or can't be read is part of the command.
pub fn read_request<'a>(
    alloc: Global,
    routes: &Routes,
    request: &Request<'a>,
) -> Result<CallerCommand<'a>, Refusal>
    ensures command { ReturnsCallerCommand
        (command_or_refusal request.now.method.now request.now.target.now
        (option_copied request.now.caller) request.now.body.now) result }
    ensures within { IfOk result (λ asked. HasSmallNumbers (plain_command asked.command)) }
    ensures text { IfOk result (λ asked. HoldsText request.now.body asked.command) }
{
    let Some(caller) = caller_in(request.caller) else {
        return Err(Refusal::Caller);
    };
    match command_by(alloc, routes, &caller, request) {
        Ok(command) => Ok(CallerCommand { caller, command }),
        Err(refusal) => Err(refusal),
    }
}

fn caller_in(value: Option<&[u8]>) -> Option<Caller>
    ensures { result ≡ caller_in (option_copied value.entry) }
{
    Caller::read(value?)
}

// Returns the command of that caller.
fn command_by<'a>(
    alloc: Global,
    routes: &Routes,
    caller: &Caller,
    request: &Request<'a>,
) -> Result<Command<'a>, Refusal>
    ensures command { ReturnsCommand (command_by caller.now (verb_of request.now.method.now)
        request.now.target.now request.now.body.now) result }
    ensures text { IfOk result (HoldsText request.now.body) }
{
    let verb = Verb::read(request.method);
    match caller {
        Caller::Cand(_) => match own_command(alloc, routes, verb, request.target) {
            Some(command) => Ok(command),
            None => Err(Refusal::Candidate),
        },
        _ => staff_command(alloc, routes, verb, request.target, request.body),
    }
}

// Returns the command for one of a candidate's own pages; `None` whatever else the request lacks.
fn own_command<'a>(alloc: Global, routes: &Routes, verb: Verb, target: &str) -> Option<Command<'a>>
    ensures command { option_map plain_command result ≡ own_command verb target.now }
    ensures text { (text : Bor (List ℕ)) → IfSome result (HoldsText text) }
{
    let Ok(command) = staff_command(alloc, routes, verb, target, b"") else {
        return None;
    };
    match command.kind() {
        Kind::Personal => Some(command),
        _ => None,
    }
}

// Returns the command of the office or a department.
fn staff_command<'a>(
    alloc: Global,
    routes: &Routes,
    verb: Verb,
    target: &str,
    body: &'a [u8],
) -> Result<Command<'a>, Refusal>
    ensures command { ReturnsCommand (staff_command verb target.now body.now) result }
    ensures text { IfOk result (HoldsText body.entry) }
{
    let Some(page) = routes.page(target) else {
        return Err(Refusal::Path);
    };
    command_at(alloc, page, verb, target.as_bytes(), body)
}
