// The port, and the clients that connect to it.
ghost use Rattle.std.specs.Prelude.{ℕ, IfErr, IfOk, None, OnErr, OnOk, Option, Some};
ghost use Rattle.std.specs.Io.KnownBytes.{Appends};
ghost use Rattle.office_output.specs.Writing.{WritesFront};
ghost use Rattle.office_connections.specs.Lines.{IsPortOf, listening_line};

use crate::clients::Clients;
use crate::lines::write_numbered;
use std::io;
use std::io::Write;
use std::net::{Ipv4Addr, SocketAddr, TcpListener, TcpStream};

/// The greatest port.
pub const MAX_PORT: u32 = 65_535;

/// Ports that can be listened on.
pub trait Ports {
    /// The clients that connect to a port.
    type Opened: Clients + Drop;

    // From the first state to the second these clients were got by listening on this port, 0 for
    // any; none if it failed.
    ghost opens: { Self → ℕ → Option Self.Opened → Self → Type 0 };

    // From the first state to the second these clients were given back.
    ghost closes: { Self → Self.Opened → Self → Type 0 };

    /// Listens on this port; 0 means any free port.
    fn listen(&mut self, port: u16) -> io::Result<Listening<Self::Opened>>
        ensures port { IfOk result (λ listening. IsPortOf port listening.port) }
        ensures opened { IfOk result (λ listening.
            opens self.old port (Some listening.clients) self.new) }
        ensures failed { IfErr result (λ _. opens self.old port None self.new) };

    /// Takes back the clients of a port, and so the writers that were handed back to them.
    fn close(&mut self, clients: Self::Opened)
        ensures { closes self.old clients self.new };
}

/// A port that is listened on.
#[derive(Drop)]
pub struct Listening<I: Drop> {
    /// The number of the port.
    pub port: u16,
    /// The clients that connect to it.
    pub clients: I,
}

/// Clients over sockets, as they are accepted: each is a reader and a writer of one socket. There
/// is no further client if an accept fails.
#[derive(Drop)]
pub struct Sockets {
    listener: TcpListener,
}

impl Clients for Sockets {
    ghost use Rattle.std.specs.Prelude.{⊤};

    type Reader = TcpStream;

    type Writer = TcpStream;

    ghost accepts = { λ old client new. ⊤ };

    ghost takes_back = { λ old to new. ⊤ };

    fn accept(&mut self) -> Option<(TcpStream, TcpStream)> {
        let (writer, _) = self.listener.accept().ok()?;
        // A reply doesn't wait for the acknowledgment of the one before; otherwise replies are
        // slower.
        let _ = writer.set_nodelay(true);
        let reader = writer.try_clone().ok()?;
        Some((reader, writer))
    }

    // The socket is closed.
    fn hand_back(&mut self, _to: TcpStream) {}
}

// The system's ports, of 127.0.0.1 only.
impl Ports for &HostRuntime {
    ghost use Rattle.std.specs.Prelude.{⊤};

    type Opened = Sockets;

    ghost opens = { λ old port clients new. ⊤ };

    ghost closes = { λ old clients new. ⊤ };

    fn listen(&mut self, port: u16) -> io::Result<Listening<Sockets>> {
        let listener = TcpListener::bind(*self, SocketAddr::from((Ipv4Addr::LOCALHOST, port)))?;
        let found = match port {
            0 => listener.local_addr()?.port(),
            asked => asked,
        };
        Ok(Listening {
            port: found,
            clients: Sockets { listener },
        })
    }

    // No longer listens.
    fn close(&mut self, _clients: Sockets) {}
}

/// Prints `listening 127.0.0.1:PORT` and flushes.
pub fn announce<W: Write>(port: u16, out: &mut W) -> io::Result<()>
    ensures ok { OnOk result
        (Appends (W.contents out.old) (W.contents out.new) (listening_line port)) }
    ensures err { OnErr result
        (WritesFront (W.contents out.old) (W.contents out.new) (listening_line port)) }
{
    write_numbered(out, "listening 127.0.0.1:", port)?;
    out.flush()
}
