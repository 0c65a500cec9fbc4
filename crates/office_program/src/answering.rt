// The desk that answers the requests of `serve`.
ghost use Rattle.std.specs.Prelude.{◌≡◌, Bool, Result};
ghost use Rattle.office_messages.specs.Heads.{plain_request};
ghost use Rattle.office_messages.specs.Reply.{PlainReply, plain_reply};
ghost use Rattle.office_messages.specs.Stream.{PlainRequest};
ghost use Rattle.office_model.specs.declared.fault.StoreFault.{StoreFault};
ghost use Rattle.office_program.specs.LongWork.{publishing_line};
ghost use Rattle.office_program.specs.Serve.{AsksWhetherShut, is_said_shut};
ghost use Rattle.office_program.specs.Surroundings.{MayNoteLarge};

use crate::notices::{LongWork, announce};
use crate::surroundings::Surroundings;
use office_connections::MayShut;
use office_http::{Alter, Desk, Routes, StoreFault, reply};
use office_messages::{Machine, Reply, Request, Status};
use std::alloc::Global;

// What replies to requests, and can be asked whether its store is closed.
pub(crate) trait RequestDesk {
    // In the first state it may reply so, and change to the second state.
    ghost replies: { Self → PlainRequest → PlainReply → Self → Type 0 };

    // In the first state it may say so, and change to the second state.
    ghost says: { Self → Result Bool StoreFault → Self → Type 0 };

    // Replies to a request.
    fn reply_to(&mut self, alloc: Global, routes: &Routes, request: &Request<'_>) -> Reply
        ensures { replies self.old (plain_request request.now) (plain_reply result) self.new };

    // Says whether its store is closed. `Err`: that can't be found out.
    fn ask(&mut self) -> Result<bool, StoreFault>
        ensures { says self.old result self.new };
}

impl<S: Alter> RequestDesk for Desk<S> {
    ghost use Rattle.office_http.specs.Replying.{Answered};
    ghost use Rattle.office_program.specs.Serve.{SaysWhetherShut};

    ghost replies = { λ old request reply new. Answered S.Store old request reply new };

    ghost says = { λ old said new. SaysWhetherShut S.Store old said new };

    fn reply_to(&mut self, alloc: Global, routes: &Routes, request: &Request<'_>) -> Reply {
        reply(alloc, routes, self, request)
    }

    fn ask(&mut self) -> Result<bool, StoreFault> {
        self.is_shut()
    }
}

/// A publication in the office of a database, about which a line may be written.
#[derive(Drop)]
pub(crate) struct Publishing<'a, H: Surroundings> {
    host: &'a H,
    database: &'a str,
    ghost may: { MayNoteLarge (H.finds host.now) (H.shows host.now) (H.allows host.now)
        database.now (publishing_line database.now) },
}

impl<'a, H: Surroundings> Publishing<'a, H> {
    pub(crate) fn new(host: &'a H, database: &'a str) -> Publishing<'a, H>
        requires { MayNoteLarge (H.finds host.now) (H.shows host.now) (H.allows host.now)
            database.now (publishing_line database.now) }
    {
        Publishing { host, database }
    }

    // Writes that a publication begins, if the file is large and a terminal shows it.
    fn announce(&self) {
        announce(self.host, LongWork::Publishing(self.database));
    }
}

/// The desk of an office in a database. It checks after each reply whether its store is closed.
#[derive(Drop)]
pub(crate) struct ServingDesk<'a, 'b, D, H: Surroundings> {
    pub(crate) publishing: &'b Publishing<'b, H>,
    pub(crate) desk: &'a mut D,
    pub(crate) routes: &'b Routes,
    /// Whether the store was closed after the last reply.
    pub(crate) is_shut: bool,
}

impl<D: RequestDesk, H: Surroundings> Machine for ServingDesk<'_, '_, D, H> {
    ghost use Rattle.std.specs.Prelude.{◌≡◌};
    ghost use Rattle.office_program.specs.Serve.{AsksWhetherShut};

    // The reply is the desk's, and after it the desk is asked whether its store is closed.
    ghost Answers = { λ old request reply new.
        (new.desk.ghost_name ≡ old.desk.ghost_name)
        × ((mid : _) × D.replies old.desk.now request reply mid
        × AsksWhetherShut D.says reply.status mid new.is_shut new.desk.now) };

    fn answer(&mut self, alloc: Global, request: &Request<'_>) -> Reply {
        if asks_to_publish(request) {
            self.publishing.announce();
        }
        let answered = self.desk.reply_to(alloc, self.routes, request);
        self.is_shut = is_shut_after(answered.status, self.desk);
        answered
    }
}

impl<D, H: Surroundings> MayShut for ServingDesk<'_, '_, D, H> {
    ghost is_shut = { λ m. m.is_shut };

    fn is_shut(&self) -> bool {
        self.is_shut
    }
}

// Returns whether the office requests to publish a draft.
fn asks_to_publish(request: &Request<'_>) -> bool {
    let Some(caller) = request.caller else {
        return false;
    };
    caller == "office".as_bytes()
        && request.method == "POST"
        && request.target.ends_with("/publish")
}

// Returns whether the store is closed after a reply with this status. After a request that was done
// it is open.
fn is_shut_after<D: RequestDesk>(status: Status, desk: &mut D) -> bool
    ensures { AsksWhetherShut D.says status desk.old result desk.new }
{
    match status {
        Status::Done | Status::Created => false,
        _ => is_shut(desk),
    }
}

// Returns whether the desk says that its store is closed; false if that can't be found out.
fn is_shut<D: RequestDesk>(desk: &mut D) -> bool
    ensures { (said : Result Bool StoreFault) × D.says desk.old said desk.new
        × (result ≡ is_said_shut said) }
{
    match desk.ask() {
        Ok(is_shut) => is_shut,
        Err(_) => false,
    }
}
