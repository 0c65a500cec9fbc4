// Clients in memory: the two sides of a connection, their clock, and those who wait.
use office_connections::{Clients, Timed};
use std::cell::Cell;
use std::io;
use std::io::{ErrorKind, Read, Write};
use std::time::{Clock, Duration};
use std::vec::IntoIter;

// A clock that only `move_on` advances.
#[derive(Drop)]
pub(crate) struct HandClock {
    time: Cell<Duration>,
}

impl HandClock {
    pub(crate) fn new() -> HandClock {
        HandClock {
            time: Cell::new(Duration::ZERO),
        }
    }

    fn move_on(&self, time: Duration) {
        self.time.set(self.time.get().saturating_add(time));
    }
}

impl Clock for HandClock {
    fn monotonic(&self) -> io::Result<Duration> {
        Ok(self.time.get())
    }

    fn since_1970(&self) -> io::Result<Duration> {
        Ok(self.time.get())
    }
}

// The behaviour of the calls of one side.
#[derive(Clone, Copy, Debug)]
pub(crate) struct Calls {
    // The most bytes that a call moves.
    pub(crate) piece: usize,
    // How long a call takes.
    pub(crate) seconds: u64,
    // The number of the call that fails: 1 is the first, 0 is none.
    pub(crate) failing: u32,
}

// One side of a connection: the bytes that are read, or the buffer that is written to.
#[derive(Drop)]
pub(crate) struct Side<'a, T: Drop> {
    inner: T,
    calls: Calls,
    // The number of calls so far.
    count: u32,
    // The timeout of a call.
    limit: Cell<Duration>,
    clock: &'a HandClock,
}

impl<'a, T: Drop> Side<'a, T> {
    pub(crate) fn new(inner: T, calls: Calls, clock: &'a HandClock) -> Side<'a, T> {
        Side {
            inner,
            calls,
            count: 0,
            limit: Cell::new(Duration::ZERO),
            clock,
        }
    }

    // Begins a call: moves the clock, and fails after the timeout or if this is the failing call.
    fn begin(&mut self) -> io::Result<()> {
        let (time, limit) = (Duration::from_secs(self.calls.seconds), self.limit.get());
        self.clock.move_on(time.min(limit));
        self.count = self.count.saturating_add(1);
        if limit < time {
            return Err(io::Error::from(ErrorKind::WouldBlock));
        }
        if self.count == self.calls.failing {
            return Err(io::Error::from(ErrorKind::ConnectionReset));
        }
        Ok(())
    }
}

impl<T: Read + Drop> Read for Side<'_, T> {
    fn read(&mut self, buf: &mut [u8]) -> io::Result<usize> {
        self.begin()?;
        let count = buf.len().min(self.calls.piece);
        self.inner.read(&mut buf[..count])
    }
}

impl<T: Write + Drop> Write for Side<'_, T> {
    fn write(&mut self, buf: &[u8]) -> io::Result<usize> {
        self.begin()?;
        let count = buf.len().min(self.calls.piece);
        self.inner.write(&buf[..count])
    }

    fn flush(&mut self) -> io::Result<()> {
        Ok(())
    }
}

impl<T: Drop> Timed for Side<'_, T> {
    fn set_read_limit(&self, limit: Duration) -> io::Result<()> {
        self.limit.set(limit);
        Ok(())
    }

    fn set_write_limit(&self, limit: Duration) -> io::Result<()> {
        self.limit.set(limit);
        Ok(())
    }

    fn end_sending(&self) -> io::Result<()> {
        Ok(())
    }
}

// Clients who wait in a row.
#[derive(Drop)]
pub(crate) struct Waiting<R: Drop, W: Drop> {
    clients: IntoIter<(R, W)>,
    // How many writers were handed back.
    pub(crate) handed_back: u32,
}

impl<R: Drop, W: Drop> Waiting<R, W> {
    pub(crate) fn new(clients: Vec<(R, W)>) -> Waiting<R, W> {
        Waiting {
            clients: clients.into_iter(),
            handed_back: 0,
        }
    }

    // Returns how many still wait.
    pub(crate) fn left(&self) -> usize {
        self.clients.len()
    }
}

impl<R: Read + Timed + Drop, W: Write + Timed + Drop> Clients for Waiting<R, W> {
    ghost use Rattle.std.specs.Prelude.{⊤};

    type Reader = R;

    type Writer = W;

    ghost accepts = { λ old client new. ⊤ };

    ghost takes_back = { λ old to new. ⊤ };

    fn accept(&mut self) -> Option<(R, W)> {
        self.clients.next()
    }

    fn hand_back(&mut self, _to: W) {
        self.handed_back = self.handed_back.saturating_add(1);
    }
}
