// The clients of a server, as they come.
ghost use Rattle.std.specs.Prelude.{Option};

use crate::timed::Timed;
use std::io::{Read, Write};

/// Clients that come one after another: each is a reader and a writer, and when its turn is over
/// its writer is handed back.
pub trait Clients {
    /// The reader of a client.
    type Reader: Read + Timed + Drop;
    /// The writer of a client.
    type Writer: Write + Timed + Drop;

    // From the first state to the second this client was accepted; none if an accept failed.
    ghost accepts: { Self → Option (Self.Reader × Self.Writer) → Self → Type 0 };

    // From the first state to the second this writer was handed back.
    ghost takes_back: { Self → Self.Writer → Self → Type 0 };

    /// Accepts the next client. `None`: an accept failed, and there is no further client.
    fn accept(&mut self) -> Option<(Self::Reader, Self::Writer)>
        ensures { accepts self.old result self.new };

    /// Takes back the writer of the client whose turn is over.
    fn hand_back(&mut self, to: Self::Writer)
        ensures { takes_back self.old to self.new };
}
