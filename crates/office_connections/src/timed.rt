// Readers and writers that can time out.
use std::io::Result;
use std::net::{Shutdown, TcpStream};
use std::time::Duration;

/// One end of a connection; its reads and writes can be given a timeout.
pub trait Timed {
    /// Sets the timeout of each read from now on.
    fn set_read_limit(&self, limit: Duration) -> Result<()>;

    /// Sets the timeout of each write from now on.
    fn set_write_limit(&self, limit: Duration) -> Result<()>;

    /// Ends the sending side, so that the client sees the end of the replies.
    fn end_sending(&self) -> Result<()>;
}

impl Timed for TcpStream {
    fn set_read_limit(&self, limit: Duration) -> Result<()> {
        self.set_read_timeout(Some(limit))
    }

    fn set_write_limit(&self, limit: Duration) -> Result<()> {
        self.set_write_timeout(Some(limit))
    }

    fn end_sending(&self) -> Result<()> {
        self.shutdown(Shutdown::Write)
    }
}
