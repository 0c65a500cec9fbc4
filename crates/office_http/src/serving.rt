// Serving one connection.
ghost use Rattle.std.specs.Prelude.{◌≡◌, ◌≤◌, IfErr, IfOk};
ghost use Rattle.office_messages.specs.Serve.{Serves};
ghost use Rattle.office_messages.specs.Visits.{ServesVisit};
ghost use Rattle.office_http.specs.Transcripts.{ServesByView};
ghost use Rattle.office_http.specs.Replying.{Answered, Replies};
ghost use Rattle.office_http.specs.Serving.{AnswersFront, LeadsOffice};

use crate::replying::reply;
use office_desk::Desk;
use office_messages::{Machine, Reply, Request, ServeFault, Served};
use office_requests::Routes;
use sqlite::Alter;
use std::alloc::Global;
use std::io::{Read, Write};

/// A desk that answers the messages of connections, by a table of routes.
#[derive(Drop)]
pub struct AnsweringDesk<'a, S: Alter> {
    pub desk: &'a mut Desk<S>,
    pub routes: &'a Routes,
}

impl<S: Alter> Machine for AnsweringDesk<'_, S> {
    ghost use Rattle.std.specs.Prelude.{◌≡◌};
    ghost use Rattle.office_http.specs.Replying.{Answered};

    ghost Answers = { λ old request reply new.
        (new.desk.ghost_name ≡ old.desk.ghost_name)
        × Answered S.Store old.desk.now request reply new.desk.now };

    fn answer(&mut self, alloc: Global, request: &Request<'_>) -> Reply {
        reply(alloc, self.routes, self.desk, request)
    }
}

/// Serves a connection to the office. Each message is answered before the next is read. A turn is
/// one call of `read`; the turns used are subtracted from `turns`.
pub fn serve<R: Read, W: Write, S: Alter>(
    alloc: Global,
    reader: &mut R,
    writer: &mut W,
    desk: &mut Desk<S>,
    turns: &mut u64,
) -> Result<Served, ServeFault>
    // The bytes written are the office's replies to the messages of the whole stream, in whatever
    // pieces it came, and the file represents the office after them.
    ensures ok { IfOk result (λ served. LeadsOffice S.Store
        (λ office next. Serves Replies (R.remaining reader.old) (W.contents writer.old)
        (W.contents writer.new) office next served) desk.old desk.new) }
    // Each candidate in it gets the text of their view in the office that received their message,
    // and nothing else that is stored.
    ensures view { IfOk result (λ served. LeadsOffice S.Store
        (λ office next. ServesByView (R.remaining reader.old) (W.contents writer.old)
        (W.contents writer.new) office next served) desk.old desk.new) }
    // The same holds for the first messages, up to the fault. If the writer failed, all replies but
    // the last were written whole, and the last command is done too.
    ensures err { IfErr result (λ fault. LeadsOffice S.Store
        (AnswersFront (R.remaining reader.old) (W.contents writer.old) (W.contents writer.new)
        fault) desk.old desk.new) }
    // However the connection ended, each of these messages was answered as `reply` says.
    ensures answered { ServesVisit (Answered S.Store) (record {
      input = R.remaining reader.old;
      before = W.contents writer.old;
      after = W.contents writer.new;
      ended = result;
    }) desk.old desk.new }
    ensures spent { IfErr result (λ fault. fault ≡ ServeFault.TooMany → turns.new ≡ 0) }
    ensures turns { turns.new ≤ turns.old }
{
    let Ok(routes) = Routes::new(alloc) else {
        return Err(ServeFault::NoMemory);
    };
    let mut machine = AnsweringDesk {
        desk,
        routes: &routes,
    };
    office_messages::serve(alloc, reader, writer, &mut machine, turns)
}
