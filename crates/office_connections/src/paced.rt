// A reader, a writer and a machine that enforce a client's timeouts.
ghost use Rattle.std.specs.Prelude.{◌≡◌};

use crate::pace::Pace;
use crate::timed::Timed;
use office_messages::{Machine, Reply, Request};
use std::alloc::Global;
use std::io::{Read, Result, Write};
use std::time::{Clock, Duration};

// Reads with the client's timeout. Its bytes are those of the inner reader.
#[derive(Drop)]
pub(crate) struct PacedReader<'a, C, R: Drop> {
    inner: R,
    pace: &'a Pace<'a, C>,
    // The timeout that the inner reader has.
    limit: Duration,
}

impl<'a, C: Clock, R: Read + Timed + Drop> PacedReader<'a, C, R> {
    pub(crate) fn new(inner: R, pace: &'a Pace<'a, C>) -> PacedReader<'a, C, R>
        ensures { result.inner ≡ inner }
    {
        PacedReader {
            inner,
            pace,
            limit: Duration::ZERO,
        }
    }

    // Ends the sending side, so that the client sees the end of the replies.
    pub(crate) fn end_sending(&self) -> Result<()> {
        self.inner.end_sending()
    }

    // Sets the timeout of the next read, if the inner reader has another.
    fn set_limit(&mut self, limit: Duration) -> Result<()>
        ensures { self.new.inner ≡ self.old.inner }
    {
        if self.limit != limit {
            self.inner.set_read_limit(limit)?;
            self.limit = limit;
        }
        Ok(())
    }
}

impl<C: Clock, R: Read + Timed + Drop> Read for PacedReader<'_, C, R> {
    ghost remaining = { λ reader. R.remaining reader.inner };

    fn read(&mut self, buf: &mut [u8]) -> Result<usize> {
        self.pace.await_message();
        let left = self.pace.left()?;
        self.set_limit(left)?;
        let count = self.inner.read(buf)?;
        if count > 0 {
            self.pace.note_bytes();
        }
        Ok(count)
    }
}

// Writes with the client's timeout. Its bytes are written to the inner writer.
#[derive(Drop)]
pub(crate) struct PacedWriter<'a, C, W: Drop> {
    inner: W,
    pace: &'a Pace<'a, C>,
    // The timeout that the inner writer has.
    limit: Duration,
}

impl<'a, C: Clock, W: Write + Timed + Drop> PacedWriter<'a, C, W> {
    pub(crate) fn new(inner: W, pace: &'a Pace<'a, C>) -> PacedWriter<'a, C, W>
        ensures { result.inner ≡ inner }
    {
        PacedWriter {
            inner,
            pace,
            limit: Duration::ZERO,
        }
    }

    pub(crate) fn into_inner(self) -> W
        ensures { result ≡ self.entry.inner }
    {
        let PacedWriter {
            inner,
            pace: _,
            limit: _,
        } = self;
        inner
    }

    // Sets the timeout of the next write, if the inner writer has another.
    fn set_limit(&mut self, limit: Duration) -> Result<()>
        ensures { self.new.inner ≡ self.old.inner }
    {
        if self.limit != limit {
            self.inner.set_write_limit(limit)?;
            self.limit = limit;
        }
        Ok(())
    }
}

impl<C: Clock, W: Write + Timed + Drop> Write for PacedWriter<'_, C, W> {
    ghost contents = { λ writer. W.contents writer.inner };

    fn write(&mut self, buf: &[u8]) -> Result<usize> {
        self.pace.await_taking();
        let left = self.pace.left()?;
        self.set_limit(left)?;
        self.inner.write(buf)
    }

    fn flush(&mut self) -> Result<()> {
        Ok(())
    }
}

// A machine that records when a reply is made.
#[derive(Drop)]
pub(crate) struct PacedMachine<'a, 'b, C, M> {
    pub(crate) machine: &'a mut M,
    pub(crate) pace: &'b Pace<'b, C>,
}

impl<C: Clock, M: Machine> Machine for PacedMachine<'_, '_, C, M> {
    ghost use Rattle.std.specs.Prelude.{◌≡◌};

    ghost Answers = { λ old request reply new.
        (new.machine.ghost_name ≡ old.machine.ghost_name)
        × M.Answers old.machine.now request reply new.machine.now };

    fn answer(&mut self, alloc: Global, request: &Request<'_>) -> Reply {
        let reply = self.machine.answer(alloc, request);
        self.pace.note_reply();
        reply
    }
}
