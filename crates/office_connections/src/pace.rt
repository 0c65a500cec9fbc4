// The timeouts of a client.
ghost use Rattle.std.specs.Prelude.{◌≡◌, ◌≢◌, ◌*◌, ◌^◌, ◌<◌, IfOk, min};
ghost use Rattle.std.specs.Duration.{as_nanos};

use std::cell::Cell;
use std::io::{Error, ErrorKind, Result};
use std::time::{Clock, Duration, Instant};

// The next action of a client.
#[derive(Clone, Copy, PartialEq, Eq)]
enum Awaited {
    // To begin a message.
    Message,
    // To send the rest of one.
    Rest,
    // To take a reply.
    Taking,
}

// The most seconds that a client has to begin a message: while it sends nothing, all others wait.
const SECONDS_TO_BEGIN: u64 = 5;

// How long a client may take for each of its actions. A wait begins with the first call that waits,
// so the office's own time doesn't count.
#[derive(Drop)]
pub(crate) struct Pace<'a, C> {
    clock: &'a C,
    patience: Duration,
    awaited: Cell<Awaited>,
    // The end of the current wait, if one has begun.
    due: Cell<Option<Instant>>,
}

impl<'a, C: Clock> Pace<'a, C> {
    pub(crate) fn new(clock: &'a C, patience: Duration) -> Pace<'a, C> {
        Pace {
            clock,
            patience,
            awaited: Cell::new(Awaited::Message),
            due: Cell::new(None),
        }
    }

    // The office is about to read: after a reply the next message is awaited.
    pub(crate) fn await_message(&self) {
        if self.awaited.get() == Awaited::Taking {
            self.begin(Awaited::Message);
        }
    }

    fn begin(&self, awaited: Awaited) {
        self.awaited.set(awaited);
        self.due.set(None);
    }

    // Bytes were received: if they are a message's first, its rest is awaited.
    pub(crate) fn note_bytes(&self) {
        if self.awaited.get() == Awaited::Message {
            self.begin(Awaited::Rest);
        }
    }

    // The office is about to write.
    pub(crate) fn await_taking(&self) {
        if self.awaited.get() != Awaited::Taking {
            self.begin(Awaited::Taking);
        }
    }

    // A reply is made; the client has the full timeout to take it.
    pub(crate) fn note_reply(&self) {
        self.begin(Awaited::Taking);
    }

    // Nothing received from now on is answered: it all counts as one rest.
    pub(crate) fn await_nothing(&self) {
        self.begin(Awaited::Rest);
    }

    // Returns the time left of the wait.
    pub(crate) fn left(&self) -> Result<Duration>
        ensures { IfOk result (λ left. 0 < as_nanos left) }
    {
        let now = Instant::now(self.clock)?;
        let left = self.end(now)?.duration_since(now);
        if left.is_zero() {
            return Err(Error::from(ErrorKind::TimedOut));
        }
        Ok(left)
    }

    // Returns the end of the wait.
    fn end(&self, now: Instant) -> Result<Instant> {
        if let Some(end) = self.due.get() {
            return Ok(end);
        }
        let time = time_for(self.awaited.get(), self.patience);
        let Some(end) = now.checked_add(time) else {
            return Err(Error::from(ErrorKind::InvalidInput));
        };
        self.due.set(Some(end));
        Ok(end)
    }
}

// Returns how long a client may take for this action.
fn time_for(awaited: Awaited, patience: Duration) -> Duration
    ensures beginning { awaited ≡ Awaited.Message
        → as_nanos result ≡ min (as_nanos patience) (5 * 10 ^ 9) }
    ensures other { awaited ≢ Awaited.Message → result ≡ patience }
{
    match awaited {
        Awaited::Message => patience.min(Duration::from_secs(SECONDS_TO_BEGIN)),
        Awaited::Rest | Awaited::Taking => patience,
    }
}
