// Clients in memory, who wait at a port.
ghost use Rattle.std.specs.Prelude.{ℕ, ◌≡◌, ◌≢◌, ◌+◌, ◌≤◌, [], IfNone, IfSome, None, Some, length};
ghost use Rattle.std.specs.Prelude.{map, option_map, slice_get};

use office_connections::{Clients, Listening, Ports, Timed};
use std::alloc::Global;
use std::io::{Error, ErrorKind, Read, Result, Write};
use std::time::Duration;

/// A client: what it sends, and the bytes that it was sent, once its turn is over.
#[derive(Drop)]
pub(crate) struct Visitor<'a> {
    pub(crate) sent: &'a [u8],
    pub(crate) received: Option<Vec<u8>>,
}

/// A port with clients, of whom none has come; none while it is listened on. Nobody can listen on
/// another.
#[derive(Drop)]
pub(crate) struct OnePort<'a> {
    pub(crate) number: u16,
    pub(crate) waiting: Option<Waiting<'a>>,
}

impl OnePort<'_> {
    // Returns a port without clients.
    pub(crate) fn closed() -> Self {
        OnePort {
            number: 0,
            waiting: None,
        }
    }
}

impl<'a> Ports for OnePort<'a> {
    ghost use Rattle.std.specs.Prelude.{◌≡◌, ◌≢◌, ◌⊎◌, IfNone, IfSome, None, Some};

    type Opened = Waiting<'a>;

    ghost opens = { λ old port clients new.
        (new.number ≡ old.number)
        × IfSome clients (λ waiting.
        (port ≡ old.number) × (old.waiting ≡ Some waiting) × (new.waiting ≡ None))
        × IfNone clients (((port ≢ old.number) ⊎ (old.waiting ≡ None))
        × (new.waiting ≡ old.waiting)) };

    ghost closes = { λ old clients new.
        (new.number ≡ old.number) × (new.waiting ≡ Some clients) };

    fn listen(&mut self, port: u16) -> Result<Listening<Waiting<'a>>> {
        if port != self.number {
            return Err(Error::from(ErrorKind::AddrInUse));
        }
        match self.waiting.take() {
            Some(clients) => Ok(Listening { port, clients }),
            None => Err(Error::from(ErrorKind::AddrInUse)),
        }
    }

    fn close(&mut self, clients: Waiting<'a>) {
        self.waiting = Some(clients);
    }
}

/// The clients of a port, some of whom have come, in their order.
#[derive(Drop)]
pub(crate) struct Waiting<'a> {
    pub(crate) alloc: Global,
    pub(crate) visitors: Vec<Visitor<'a>>,
    // How many have come.
    pub(crate) turn: usize,
}

impl<'a> Clients for Waiting<'a> {
    ghost use Rattle.std.specs.Prelude.{ℕ, ◌≡◌, ◌+◌, ◌≤◌, [], IfNone, IfSome, Some, length};
    ghost use Rattle.std.specs.Prelude.{option_map, slice_get};

    type Reader = Sending<'a>;

    type Writer = Receiving;

    // The next client sends what it has to send, and was sent nothing so far.
    ghost accepts = { λ old client new.
        IfSome client (λ ends.
        (option_map (λ visitor. visitor.sent.now) (slice_get old.visitors.items old.turn)
        ≡ Some ends.0.bytes.now) × (ends.1.bytes.items ≡ [])
        × (new.visitors.items ≡ old.visitors.items) × (new.turn ≡ old.turn + 1))
        × IfNone client (length old.visitors.items ≤ old.turn) };

    // The client whose turn it was has the bytes, and the next one's turn is next.
    ghost takes_back = { λ old to new.
        (new.turn ≡ old.turn)
        × ((before : ℕ) → old.turn ≡ before + 1 → before + 1 ≤ length old.visitors.items
        → option_map (λ visitor. visitor.received) (slice_get new.visitors.items before)
        ≡ Some (Some to.bytes)) };

    fn accept(&mut self) -> Option<(Sending<'a>, Receiving)> {
        let sent = self.visitors.get(self.turn)?.sent;
        self.turn += 1;
        let from = Sending { bytes: sent };
        let to = Receiving {
            bytes: Vec::new(self.alloc),
        };
        Some((from, to))
    }

    fn hand_back(&mut self, to: Receiving) {
        let Receiving { bytes } = to;
        if let Some(before) = self.turn.checked_sub(1) {
            if let Some(visitor) = self.visitors.get_mut(before) {
                visitor.received = Some(bytes);
            }
        }
    }
}

/// What a client has yet to send.
#[derive(Drop)]
pub(crate) struct Sending<'a> {
    bytes: &'a [u8],
}

impl Read for Sending<'_> {
    ghost use Rattle.std.specs.Prelude.{Some};

    ghost remaining = { λ from. Some from.bytes.now };

    fn read(&mut self, buf: &mut [u8]) -> Result<usize> {
        self.bytes.read(buf)
    }
}

/// What a client was sent.
#[derive(Drop)]
pub(crate) struct Receiving {
    bytes: Vec<u8>,
}

impl Write for Receiving {
    ghost use Rattle.std.specs.Prelude.{Some};

    ghost contents = { λ to. Some to.bytes.items };

    fn write(&mut self, buf: &[u8]) -> Result<usize> {
        self.bytes.write(buf)
    }

    fn flush(&mut self) -> Result<()> {
        Ok(())
    }
}

// A client in memory never waits.
impl Timed for Sending<'_> {
    fn set_read_limit(&self, _limit: Duration) -> Result<()> {
        Ok(())
    }

    fn set_write_limit(&self, _limit: Duration) -> Result<()> {
        Ok(())
    }

    fn end_sending(&self) -> Result<()> {
        Ok(())
    }
}

impl Timed for Receiving {
    fn set_read_limit(&self, _limit: Duration) -> Result<()> {
        Ok(())
    }

    fn set_write_limit(&self, _limit: Duration) -> Result<()> {
        Ok(())
    }

    fn end_sending(&self) -> Result<()> {
        Ok(())
    }
}
