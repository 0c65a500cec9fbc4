//! A machine that borrows its counter, and a call whose contract is about that counter.
ghost use Rattle.std.specs.Prelude.{◌≡◌, ◌+◌, ◌≤◌, min, IfOk, IfErr};
ghost use Rattle.office_messages.specs.Serve.{Serves, ServesFront};
ghost use Rattle.worked_messages.specs.Tallies.{Tallies};

use office_messages::{Machine, Reply, Request, ServeFault, Served, Status, fixed_reply, serve};
use std::alloc::Global;
use std::io::{Read, Write};

/// The number of requests that were answered.
#[derive(Drop)]
pub struct Tally {
    pub answered: u32,
}

/// A machine that counts on a borrowed tally.
#[derive(Drop)]
struct Lent<'a> {
    tally: &'a mut Tally,
}

impl Tally {
    fn count(&mut self)
        ensures { self.new.answered ≡ min (self.old.answered + 1) 4294967295 }
    {
        self.answered = self.answered.saturating_add(1);
    }
}

impl Machine for Lent<'_> {
    ghost use Rattle.std.specs.Prelude.{◌≡◌};
    ghost use Rattle.worked_messages.specs.Tallies.{Tallies};

    ghost Answers = { λ old request reply new.
        (new.tally.ghost_name ≡ old.tally.ghost_name)
        × Tallies old.tally.now request reply new.tally.now };

    fn answer(&mut self, _alloc: Global, _request: &Request<'_>) -> Reply {
        self.tally.count();
        fixed_reply(Status::Done, b"{}")
    }
}

/// Serves a connection, and counts its requests on the tally.
pub fn serve_tally<R: Read, W: Write>(
    alloc: Global,
    reader: &mut R,
    writer: &mut W,
    tally: &mut Tally,
    turns: &mut u64,
) -> Result<Served, ServeFault>
    ensures ok { IfOk result (λ served. Serves Tallies (R.remaining reader.old)
        (W.contents writer.old) (W.contents writer.new) tally.old tally.new served) }
    ensures err { IfErr result (λ fault. ServesFront Tallies (R.remaining reader.old)
        (W.contents writer.old) (W.contents writer.new) tally.old tally.new fault) }
    ensures kept { tally.old.answered ≤ 4294967295 → tally.old.answered ≤ tally.new.answered }
{
    let mut machine = Lent { tally };
    serve(alloc, reader, writer, &mut machine, turns)
}
